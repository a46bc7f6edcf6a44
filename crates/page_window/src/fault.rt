use col_pages::Page;
use sql_values::Memory;

/// Why a fetch gave no reply.
#[derive(Clone, Copy)]
pub enum FetchFault {
    /// The page was dropped: the token is below `base`.
    TokenGone { base: u64 },
    /// The token is past `end`.
    TokenAhead { end: u64 },
    Memory,
}

impl From<Memory> for FetchFault {
    ghost use Rattle.std.specs.Prelude.{◌≡◌};
    ghost use Rattle.page_window.specs.declared.fault.FetchFault.TheVariants as fault;

    ghost from_gives = { λ _ e. e ≡ fault.Memory };

    fn from(_: Memory) -> FetchFault {
        FetchFault::Memory
    }
}

/// An acknowledgement of pages that were never put. `end` is the token behind the last page.
#[derive(Clone, Copy)]
pub struct AckAhead {
    pub end: u64,
}

/// There was no memory for a page, which is handed back.
#[derive(Drop)]
pub struct PushMemory(pub Page);
