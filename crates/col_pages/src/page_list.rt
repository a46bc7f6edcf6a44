ghost use Rattle.std.specs.Prelude.{◌≡◌, ◌↔◌, [], ◌∷◌, ◌++◌, length, IsTrue, OnOk, OnErr, MatchOption};

use crate::page::Page;
use sql_values::Memory;
use std::alloc::Global;
use std::collections::VecDeque;
use std::marker::Model;

/// A list of pages, taken from its front.
#[derive(Drop)]
pub struct PageList {
    pages: VecDeque<Page>,
}

impl Model for PageList {
    ghost use Rattle.std.specs.Prelude.{List};
    ghost use Rattle.col_pages.specs.Pages.{TypedPage};

    ghost Value = { List TypedPage };

    ghost view = { λ l. l.pages.items };
}

impl PageList {
    pub fn new(alloc: Global) -> PageList
        ensures { result ≡ [] }
    {
        PageList {
            pages: VecDeque::new(alloc),
        }
    }

    pub fn push(&mut self, page: Page) -> Result<(), Memory>
        ensures ok { OnOk result (self.new ≡ self.old ++ page ∷ []) }
        ensures err { OnErr result (self.new ≡ self.old) }
    {
        self.pages.push_back(page)?;
        Ok(())
    }

    /// Takes the first page, or none where there is none.
    pub fn take_first(&mut self) -> Option<Page>
        ensures { MatchOption result
            ((self.old ≡ []) × (self.new ≡ []))
            (λ p. self.old ≡ p ∷ self.new) }
    {
        self.pages.pop_front()
    }

    /// How many pages there are.
    pub fn len(&self) -> usize
        ensures { result ≡ length self.now }
    {
        self.pages.len()
    }

    pub fn is_empty(&self) -> bool
        ensures { IsTrue result ↔ (self.now ≡ []) }
    {
        self.pages.is_empty()
    }
}
