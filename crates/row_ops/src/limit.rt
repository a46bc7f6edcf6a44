ghost use Rattle.std.specs.Prelude.{◌≡◌, ◌<◌, ◌≤◌, ◌↔◌, ℕ, List, [], Some, None, true, false, length, take, IfOk, MatchOption};
ghost use Rattle.sql_values.specs.declared.fail.Fail.{Fail as Kind};
ghost use Rattle.col_pages.specs.Pages.{TypedPage, most_rows};
ghost use Rattle.operator_core.specs.Rows.{Row};
ghost use Rattle.operator_core.specs.Calls.{IsFresh};
ghost use Rattle.operator_core.specs.Samples.{has_row};
ghost use Rattle.col_pages.specs.Fits.{AllFit};
ghost use Rattle.row_ops.specs.RowsHeld.{rows_held};

use blocked::{Bells, BlockedOn};
use col_pages::Page;
use operator_core::{OpFault, Operator};
use sql_values::Memory;
use std::alloc::Global;
use std::sync::Wait;
use std::thread::Threads;

/// Gives as many of its first rows as its count says. It takes all pages in, and drops the rows past the count.
#[derive(Drop)]
pub struct LimitOp {
    alloc: Global,
    count: u32,
    /// How many rows are still wanted of those to come.
    left: u32,
    held: Option<Page>,
    is_told: bool,
}

impl LimitOp {
    pub fn new(alloc: Global, count: u32) -> LimitOp
        ensures fresh { IsFresh ⟦<LimitOp as Operator>⟧ result }
        ensures gives { (X B : List Row)
            → ⟦<LimitOp as Operator>⟧.may_give result X B ↔ (B ≡ take count X) }
        ensures fails { (X : List Row) (node : ℕ) (kind : Kind)
            → ⟦<LimitOp as Operator>⟧.may_still_fail result X node kind → ⊥ }
        ensures takes { (page : TypedPage)
            → ⟦<LimitOp as Operator>⟧.takes result page ↔ AllFit page.types page.rows }
        ensures open { (⟦<LimitOp as Operator>⟧.is_full result ≡ false)
            × (⟦<LimitOp as Operator>⟧.page_size result ≡ most_rows) }
        ensures late { ⟦<LimitOp as Operator>⟧.gives_late result ≡ false }
        ensures waits { ⟦<LimitOp as Operator>⟧.waits result ≡ false }
        ensures knows { ⟦<LimitOp as Operator>⟧.knows result ≡ true }
        ensures learns { (m : _) → ⟦<LimitOp as Operator>⟧.may_learn result m → ⊥ }
    {
        LimitOp {
            alloc,
            count,
            left: count,
            held: None,
            is_told: false,
        }
    }

    fn holds_row(&self) -> bool
        ensures { result ≡ has_row (rows_held self.now.held) }
    {
        match &self.held {
            Some(page) => !page.is_empty(),
            None => false,
        }
    }
}

/// The first rows of a page, at most as many as `most`. A page of which all are wanted is not copied.
fn first_rows(alloc: Global, page: Page, most: u32) -> Result<Option<Page>, Memory>
    ensures { IfOk result (λ o. MatchOption o (take most page.rows ≡ [])
        (λ p. p ≡ record page { rows = take most page.rows })) }
{
    if most == 0 {
        return Ok(None);
    }
    if page.len() <= most {
        return Ok(Some(page));
    }
    Ok(Some(page.slice(alloc, 0, most)?))
}

/// Takes the page in hand, if it has a row.
fn take_held(held: &mut Option<Page>) -> Option<Page>
    ensures none { held.new ≡ None }
    ensures page { MatchOption result (rows_held held.old ≡ [])
        (λ page. (held.old ≡ Some page) × (0 < length page.rows)
        × (length page.rows ≤ most_rows)) }
{
    let page = held.take()?;
    if page.len() == 0 {
        return None;
    }
    Some(page)
}

impl Operator for LimitOp {
    ghost use Rattle.std.specs.Prelude.{◌≡◌, [], None, true, false, not, ◌&&◌, ◌||◌, take, refl};
    ghost use Rattle.col_pages.specs.Pages.{most_rows};
    ghost use Rattle.operator_core.specs.LawGroups.{never_full, no_note};
    ghost use Rattle.operator_core.specs.Samples.{has_row};
    ghost use Rattle.operator_core.specs.SampleLaws.{needs-untold, needs-open};
    ghost use Rattle.operator_core.specs.NoteLaws.{held-over};
    ghost use Rattle.col_pages.specs.Fits.{AllFit};
    ghost use Rattle.row_ops.specs.RowsHeld.{rows_held};
    ghost use Rattle.row_ops.specs.Limits.{LimitGives};
    ghost use Rattle.row_ops.specs.LimitLaws.{limit-rest};

    ghost may_give = { λ s X B. LimitGives s.left s.held X B };

    ghost may_still_fail = { λ _ _ _ _. ⊥ };

    ghost takes = { λ _ page. AllFit page.types page.rows };

    ghost page_size = { λ _. most_rows };

    ghost gives_late = { λ _. false };

    ghost needs_input = { λ s. not (s.is_told || has_row (rows_held s.held)) };

    ghost holds_row = { λ s. has_row (rows_held s.held) };

    ghost is_told = { λ s. s.is_told };

    ghost is_finished = { λ s. s.is_told && not (has_row (rows_held s.held)) };

    ghost as_made = { λ s. record s { left = s.count; held = None; is_told = false } };

    fn needs_input(&self) -> bool {
        !(self.is_told || self.holds_row())
    }

    fn add_input(&mut self, page: Page) -> Result<(), OpFault> {
        let count = page.len();
        self.held = first_rows(self.alloc, page, self.left)?;
        self.left = self.left.saturating_sub(count);
        Ok(())
    }

    fn get_output(&mut self) -> Result<Option<Page>, OpFault> {
        match take_held(&mut self.held) {
            Some(page) => Ok(Some(page)),
            None => Ok(None),
        }
    }

    fn finish(&mut self) {
        self.is_told = true;
    }

    fn is_finished(&self) -> bool {
        self.is_told && !self.holds_row()
    }

    fn blocked<R: Threads + Wait + Sync, B: Bells>(
        &mut self,
        _rt: &R,
        _bells: &mut B,
    ) -> Result<Option<BlockedOn>, Memory> {
        Ok(None)
    }

    ghost some_rows = { λ s X coming. (_, refl) };

    ghost holds_rest = { λ s B _ e. limit-rest s.left (rows_held s.held) B e };

    ghost late_holds_none = { λ s late told. Prim.cc };

    ghost finished = { λ s. held-over s.is_told (rows_held s.held) };

    ghost needs_untold = { λ s. needs-untold s.is_told (has_row (rows_held s.held)) };

    ghost full = { never_full };

    ghost needs = { λ s told held _ _.
        needs-open s.is_told (has_row (rows_held s.held)) told held };

    ghost made_untold = { λ s. refl };

    ghost made_again = { λ s. refl };

    ghost note = { no_note };
}
