ghost use Rattle.std.specs.Prelude.{◌≡◌, ◌≤◌, [], false, true, length, take, MatchOption, ◌↔◌, ℕ, List};
ghost use Rattle.sql_values.specs.declared.fail.Fail.{Fail as Kind};
ghost use Rattle.col_pages.specs.Pages.{TypedPage, most_rows};
ghost use Rattle.operator_core.specs.Rows.{Row};
ghost use Rattle.operator_core.specs.Calls.{IsFresh};
ghost use Rattle.operator_examples.specs.Samples.{before_null, has_null};

use blocked::{Bells, BlockedOn};
use col_pages::Page;
use operator_core::{HeldPages, OpFault, Operator};
use sql_values::{Fail, Memory, ValueRef};
use std::alloc::Global;
use std::sync::Wait;
use std::thread::Threads;

/// Gives its rows as they come, and fails at the first whose column is NULL.
#[derive(Drop)]
pub struct NotNull {
    alloc: Global,
    node: u32,
    column: u32,
    held: HeldPages,
    has_failed: bool,
    is_told: bool,
}

impl NotNull {
    pub fn new(alloc: Global, node: u32, column: u32) -> NotNull
        ensures fresh { IsFresh ⟦<NotNull as Operator>⟧ result }
        ensures gives { (X B : List Row)
            → ⟦<NotNull as Operator>⟧.may_give result X B ↔ (B ≡ before_null column X) }
        ensures fails { (X : List Row) (at : ℕ) (kind : Kind)
            → ⟦<NotNull as Operator>⟧.may_still_fail result X at kind
            ↔ ((at ≡ node) × (kind ≡ Fail.BadCast) × (has_null column X ≡ true)) }
        ensures takes { (page : TypedPage) → ⟦<NotNull as Operator>⟧.takes result page }
        ensures open { (⟦<NotNull as Operator>⟧.is_full result ≡ false)
            × (⟦<NotNull as Operator>⟧.page_size result ≡ most_rows) }
        ensures late { ⟦<NotNull as Operator>⟧.gives_late result ≡ false }
        ensures waits { ⟦<NotNull as Operator>⟧.waits result ≡ false }
        ensures knows { ⟦<NotNull as Operator>⟧.knows result ≡ true }
        ensures learns { (m : _) → ⟦<NotNull as Operator>⟧.may_learn result m → ⊥ }
    {
        NotNull {
            alloc,
            node,
            column,
            held: HeldPages::new(alloc),
            has_failed: false,
            is_told: false,
        }
    }

    fn fault(&self) -> OpFault
        ensures { result ≡ OpFault.Expr self.now.node Fail.BadCast }
    {
        OpFault::Expr {
            node: self.node,
            kind: Fail::BadCast,
        }
    }
}

/// The place of the first row whose column is NULL.
#[tactic(auto, using(crate::proofs::SampleLemmas::one_more, crate::proofs::SampleLemmas::none_null, crate::proofs::SampleLemmas::first_null_at))]
fn first_null(page: &Page, column: u32) -> Option<u32>
    ensures { MatchOption result
        ((has_null column page.now.rows ≡ false)
        × (before_null column page.now.rows ≡ page.now.rows))
        (λ n. (has_null column page.now.rows ≡ true) × (n ≤ length page.now.rows)
        × (before_null column page.now.rows ≡ take n page.now.rows)) }
{
    for place in 0..page.len() {
        if let ValueRef::Null = page.cell(place, column) {
            return Some(place);
        }
    }
    None
}

impl Operator for NotNull {
    ghost use Rattle.std.specs.Prelude.{◌≡◌, ◌++◌, [], if◌then◌else◌, true, false, not, ◌&&◌, ◌||◌, length, refl};
    ghost use Rattle.sql_values.specs.declared.fail.Fail.TheVariants.{BadCast};
    ghost use Rattle.col_pages.specs.Pages.{most_rows};
    ghost use Rattle.operator_core.specs.Samples.{has_row};
    ghost use Rattle.operator_core.specs.LawGroups.{never_full, no_note};
    ghost use Rattle.operator_examples.specs.Samples.{before_null, has_null};
    ghost use Rattle.operator_core.specs.SampleLaws.{needs-untold, needs-open};
    ghost use Rattle.operator_examples.specs.SampleLaws.{not_null-rest, not_null-finished};
    ghost use Rattle.std.proofs.Common.{rules};
    ghost use Rattle.std.proofs.lemmas.Grind.{common_steps};

    ghost may_give = { λ s X B. B ≡ (if s.has_failed then s.held
        else (s.held ++ before_null s.column X)) };

    ghost may_still_fail = { λ s X node kind. (node ≡ s.node) × (kind ≡ BadCast)
        × ((s.has_failed || has_null s.column X) ≡ true) };

    ghost takes = { λ _ _. Unit {0} };

    ghost page_size = { λ _. most_rows };

    ghost gives_late = { λ _. false };

    ghost needs_input = { λ s. not (s.is_told || has_row s.held) };

    ghost holds_row = { λ s. has_row s.held };

    ghost is_told = { λ s. s.is_told };

    ghost is_finished = { λ s. s.is_told && not (s.has_failed || has_row s.held) };

    ghost as_made = { λ s. record s { held = []; has_failed = false; is_told = false } };

    fn needs_input(&self) -> bool {
        !(self.is_told || !self.held.is_empty())
    }

    fn add_input(&mut self, page: Page) -> Result<(), OpFault> {
        if self.has_failed {
            return Err(self.fault());
        }
        match first_null(&page, self.column) {
            None => {
                self.held.push(page)?;
                Ok(())
            }
            Some(place) => {
                self.held.push(page.slice(self.alloc, 0, place)?)?;
                self.has_failed = true;
                Err(self.fault())
            }
        }
    }

    #[tactic(auto, using(crate::proofs::HeldLemmas::has_row_first))]
    fn get_output(&mut self) -> Result<Option<Page>, OpFault> {
        match self.held.take_first() {
            Some(page) => Ok(Some(page)),
            None => {
                if self.has_failed && self.is_told {
                    return Err(self.fault());
                }
                Ok(None)
            }
        }
    }

    fn finish(&mut self) {
        self.is_told = true;
    }

    fn is_finished(&self) -> bool {
        self.is_told && !(self.has_failed || !self.held.is_empty())
    }

    fn blocked<R: Threads + Wait + Sync, B: Bells>(
        &mut self,
        _rt: &R,
        _bells: &mut B,
    ) -> Result<Option<BlockedOn>, Memory> {
        Ok(None)
    }

    ghost some_rows = { λ s X coming. (_, refl) };

    ghost holds_rest = { λ s B told e. not_null-rest s.has_failed s.held B e };

    ghost late_holds_none = { λ s late told. Prim.cc };

    ghost finished = { λ s. not_null-finished s.is_told s.has_failed s.held s.node };

    ghost needs_untold = { λ s. needs-untold s.is_told (has_row s.held) };

    ghost full = { never_full };

    ghost needs = { λ s told held _ _. needs-open s.is_told (has_row s.held) told held };

    ghost made_untold = { λ s. refl };

    ghost made_again = { λ s. refl };

    ghost note = { no_note };
}
