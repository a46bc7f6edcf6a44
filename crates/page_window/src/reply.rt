ghost use Rattle.std.specs.Prelude.{◌≡◌, ◌+◌, length};

use col_pages::PageList;

/// Pages from a token on, the token behind them, and whether no page is behind them or will come.
#[derive(Drop)]
pub struct Reply {
    pub token: u64,
    pub pages: PageList,
    pub next: u64,
    pub complete: bool,
    ghost counted: { next ≡ token + length pages },
}
