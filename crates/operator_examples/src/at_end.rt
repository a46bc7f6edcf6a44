ghost use Rattle.std.specs.Prelude.{◌≡◌, ◌↔◌, ℕ, List, true, false};
ghost use Rattle.sql_values.specs.declared.fail.Fail.{Fail as Kind};
ghost use Rattle.col_pages.specs.Pages.{TypedPage, most_rows};
ghost use Rattle.operator_core.specs.Rows.{Row};
ghost use Rattle.operator_core.specs.Calls.{IsFresh};

use blocked::{Bells, BlockedOn};
use col_pages::Page;
use operator_core::{HeldPages, OpFault, Operator};
use sql_values::Memory;
use std::alloc::Global;
use std::sync::Wait;
use std::thread::Threads;

/// Keeps its rows, and gives them once `finish` was called.
#[derive(Drop)]
pub struct AtEnd {
    held: HeldPages,
    is_told: bool,
}

impl AtEnd {
    pub fn new(alloc: Global) -> AtEnd
        ensures fresh { IsFresh ⟦<AtEnd as Operator>⟧ result }
        ensures gives { (X B : List Row) → ⟦<AtEnd as Operator>⟧.may_give result X B ↔ (B ≡ X) }
        ensures fails { (X : List Row) (node : ℕ) (kind : Kind)
            → ⟦<AtEnd as Operator>⟧.may_still_fail result X node kind → ⊥ }
        ensures takes { (page : TypedPage) → ⟦<AtEnd as Operator>⟧.takes result page }
        ensures open { (⟦<AtEnd as Operator>⟧.is_full result ≡ false)
            × (⟦<AtEnd as Operator>⟧.page_size result ≡ most_rows) }
        ensures late { ⟦<AtEnd as Operator>⟧.gives_late result ≡ true }
        ensures waits { ⟦<AtEnd as Operator>⟧.waits result ≡ false }
        ensures knows { ⟦<AtEnd as Operator>⟧.knows result ≡ true }
        ensures learns { (m : _) → ⟦<AtEnd as Operator>⟧.may_learn result m → ⊥ }
    {
        AtEnd {
            held: HeldPages::new(alloc),
            is_told: false,
        }
    }
}

impl Operator for AtEnd {
    ghost use Rattle.std.specs.Prelude.{◌≡◌, ◌++◌, [], true, false, not, ◌&&◌, refl};
    ghost use Rattle.col_pages.specs.Pages.{most_rows};
    ghost use Rattle.operator_core.specs.Samples.{has_row};
    ghost use Rattle.operator_core.specs.LawGroups.{never_full, no_note};
    ghost use Rattle.operator_core.specs.NoteLaws.{held-finished, none-without, told-needs_none, told-needs};
    ghost use Rattle.operator_examples.specs.NoteLaws.{held-rest};

    ghost may_give = { λ s X B. B ≡ s.held ++ X };

    ghost may_still_fail = { λ _ _ _ _. ⊥ };

    ghost takes = { λ _ _. Unit {0} };

    ghost page_size = { λ _. most_rows };

    ghost gives_late = { λ _. true };

    ghost needs_input = { λ s. not s.is_told };

    ghost holds_row = { λ s. s.is_told && has_row s.held };

    ghost is_told = { λ s. s.is_told };

    ghost is_finished = { λ s. s.is_told && not (has_row s.held) };

    ghost as_made = { λ s. record s { held = []; is_told = false } };

    fn needs_input(&self) -> bool {
        !self.is_told
    }

    fn add_input(&mut self, page: Page) -> Result<(), OpFault> {
        self.held.push(page)?;
        Ok(())
    }

    #[tactic(auto, using(crate::proofs::HeldLemmas::has_row_first))]
    fn get_output(&mut self) -> Result<Option<Page>, OpFault> {
        if !self.is_told {
            return Ok(None);
        }
        match self.held.take_first() {
            Some(page) => Ok(Some(page)),
            None => Ok(None),
        }
    }

    fn finish(&mut self) {
        self.is_told = true;
    }

    fn is_finished(&self) -> bool {
        self.is_told && self.held.is_empty()
    }

    fn blocked<R: Threads + Wait + Sync, B: Bells>(
        &mut self,
        _rt: &R,
        _bells: &mut B,
    ) -> Result<Option<BlockedOn>, Memory> {
        Ok(None)
    }

    ghost some_rows = { λ s X coming. (_, refl) };

    ghost holds_rest = { λ s B told e. held-rest s.is_told s.held B (told refl) e };

    ghost late_holds_none = { λ s late told. none-without s.is_told (has_row s.held) told };

    ghost finished = { λ s. held-finished s.is_told s.held };

    ghost needs_untold = { λ s. told-needs_none s.is_told };

    ghost full = { never_full };

    ghost needs = { λ s told _ _ _. told-needs s.is_told told };

    ghost made_untold = { λ s. refl };

    ghost made_again = { λ s. refl };

    ghost note = { no_note };
}
