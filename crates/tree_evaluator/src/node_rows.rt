ghost use Rattle.std.specs.Prelude.{◌≡◌, ◌<◌, [], ◌++◌, length, IfOk, OnOk, OnErr, MatchOption};
ghost use Rattle.col_pages.specs.Fits.{AllFit};

use col_pages::{Page, PageList};
use sql_values::{Memory, SqlType, Types};
use std::alloc::Global;
use std::marker::Model;

/// The rows of a node, seen as its types and its rows. They are kept as pages that have these types
/// and a row each; a page is taken from the front.
#[derive(Drop)]
pub struct NodeRows {
    types: Types,
    pages: PageList,
}

impl Model for NodeRows {
    ghost use Rattle.col_pages.specs.Pages.{TypedPage};

    ghost Value = { TypedPage };

    ghost use Rattle.tree_evaluator.specs.Pages.{ArePages, seen};

    ghost view = { λ n. seen n.types n.pages };

    ghost invariant = { λ n. ArePages n.types n.pages };
}

impl NodeRows {
    /// No rows, of these types.
    pub fn new(alloc: Global, types: &[SqlType]) -> Result<NodeRows, Memory>
        ensures { IfOk result (λ n. n ≡ record { types = types.now; rows = [] }) }
    {
        Ok(NodeRows {
            types: Types::of(Vec::from_slice(alloc, types)?),
            pages: PageList::new(alloc),
        })
    }

    pub fn types(&self) -> &[SqlType]
        ensures { result.now ≡ self.now.types }
    {
        self.types.as_slice()
    }

    /// The law that each row has a value of each type.
    #[tactic(auto, using(crate::proofs::PageLemmas::rows_fit))]
    pub fn rows_fit_types(&self)
        ensures { AllFit self.now.types self.now.rows }
    {
        let _ = &self.types;
    }

    /// Appends the rows of a page; one that has none is let go.
    #[tactic(auto, using(crate::proofs::PageLemmas::rows_more, crate::proofs::PageLemmas::pages_more))]
    pub fn push(&mut self, page: Page) -> Result<(), Memory>
        requires types { page.types ≡ self.old.types }
        requires fits { AllFit self.old.types page.rows }
        ensures ok { OnOk result
            (self.new ≡ record self.old { rows = self.old.rows ++ page.rows }) }
        ensures err { OnErr result (self.new ≡ self.old) }
    {
        if page.len() == 0 {
            return Ok(());
        }
        self.pages.push(page)?;
        Ok(())
    }

    /// Takes the first page, or none where no row is left.
    pub fn take_first(&mut self) -> Option<Page>
        ensures types { self.new.types ≡ self.old.types }
        ensures rows { MatchOption result
            ((self.old.rows ≡ []) × (self.new.rows ≡ []))
            (λ p. self.old.rows ≡ p.rows ++ self.new.rows) }
        ensures page { MatchOption result
            (self.old.rows ≡ [])
            (λ p. (p.types ≡ self.old.types) × (0 < length p.rows) × AllFit self.old.types p.rows) }
    {
        self.pages.take_first()
    }
}
