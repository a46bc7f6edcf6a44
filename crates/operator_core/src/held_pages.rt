ghost use Rattle.std.specs.Prelude.{◌≡◌, ◌<◌, ◌≤◌, ◌↔◌, [], ◌++◌, length, IsTrue, OnOk, OnErr, MatchOption};
ghost use Rattle.col_pages.specs.Pages.{most_rows};

use col_pages::{Page, PageList};
use sql_values::Memory;
use std::alloc::Global;
use std::marker::Model;

/// The pages that an operator has still to give, seen as their rows. A page with no row is none.
#[derive(Drop)]
pub struct HeldPages {
    pages: PageList,
}

impl Model for HeldPages {
    ghost use Rattle.std.specs.Prelude.{List};
    ghost use Rattle.sql_values.specs.declared.value.Value.{Value as Cell};

    ghost Value = { List (List Cell) };

    ghost use Rattle.col_pages.specs.Pages.{rows_in};
    ghost use Rattle.operator_core.specs.Held.{AllFull};

    ghost view = { λ h. rows_in h.pages };

    ghost invariant = { λ h. AllFull h.pages };
}

impl HeldPages {
    pub fn new(alloc: Global) -> HeldPages
        ensures { result ≡ [] }
    {
        HeldPages {
            pages: PageList::new(alloc),
        }
    }

    #[tactic(auto, using(crate::proofs::HeldLemmas::one_page_more, crate::proofs::HeldLemmas::one_full_more))]
    pub fn push(&mut self, page: Page) -> Result<(), Memory>
        ensures ok { OnOk result (self.new ≡ self.old ++ page.rows) }
        ensures err { OnErr result (self.new ≡ self.old) }
    {
        if page.len() == 0 {
            return Ok(());
        }
        self.pages.push(page)?;
        Ok(())
    }

    /// Takes the first page, or none where no row is held.
    pub fn take_first(&mut self) -> Option<Page>
        ensures rows { MatchOption result ((self.old ≡ []) × (self.new ≡ []))
            (λ page. self.old ≡ page.rows ++ self.new) }
        ensures size { MatchOption result (self.old ≡ [])
            (λ page. (0 < length page.rows) × (length page.rows ≤ most_rows)) }
    {
        let page = self.pages.take_first()?;
        let _rows = page.len();
        Some(page)
    }

    #[tactic(auto, using(crate::proofs::HeldLemmas::no_rows))]
    pub fn is_empty(&self) -> bool
        ensures { IsTrue result ↔ (self.now ≡ []) }
    {
        self.pages.is_empty()
    }
}
