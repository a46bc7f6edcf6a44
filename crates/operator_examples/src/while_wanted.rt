ghost use Rattle.std.specs.Prelude.{◌≡◌, ◌↔◌, ℕ, List, [], Some, true, false, is_some};
ghost use Rattle.sql_values.specs.declared.fail.Fail.{Fail as Kind};
ghost use Rattle.col_pages.specs.Pages.{TypedPage, most_rows};
ghost use Rattle.operator_core.specs.Rows.{Row};
ghost use Rattle.operator_core.specs.Calls.{IsFresh};
ghost use Rattle.operator_examples.specs.Samples.{WantedGives};

use crate::note::Note;
use blocked::{Bells, BlockedOn, ReadBell, Seen};
use col_pages::Page;
use operator_core::{HeldPages, OpFault, Operator};
use sql_values::Memory;
use std::alloc::Global;
use std::sync::Wait;
use std::thread::Threads;

/// Passes its rows on until its note says, by the number 0, that no more are wanted. It does not
/// wait for the note.
#[derive(Drop)]
pub struct WhileWanted {
    note: Note,
    held: HeldPages,
    is_told: bool,
}

impl WhileWanted {
    pub fn new(alloc: Global, note: Note) -> WhileWanted
        requires { note.empty_looks ≡ 0 }
        ensures fresh { IsFresh ⟦<WhileWanted as Operator>⟧ result }
        ensures gives { (X B : List Row) → ⟦<WhileWanted as Operator>⟧.may_give result X B
            ↔ WantedGives note.known [] X B }
        ensures fails { (X : List Row) (node : ℕ) (kind : Kind)
            → ⟦<WhileWanted as Operator>⟧.may_still_fail result X node kind → ⊥ }
        ensures takes { (page : TypedPage) → ⟦<WhileWanted as Operator>⟧.takes result page }
        ensures open { (⟦<WhileWanted as Operator>⟧.is_full result ≡ false)
            × (⟦<WhileWanted as Operator>⟧.page_size result ≡ most_rows) }
        ensures late { ⟦<WhileWanted as Operator>⟧.gives_late result ≡ false }
        ensures waits { ⟦<WhileWanted as Operator>⟧.waits result ≡ false }
        ensures knows { ⟦<WhileWanted as Operator>⟧.knows result ≡ is_some note.known }
        ensures learns { (m : _) → ⟦<WhileWanted as Operator>⟧.may_learn result m → (n : ℕ)
            × ((X B : List Row) → ⟦<WhileWanted as Operator>⟧.may_give m X B
            ↔ WantedGives (Some n) [] X B) }
    {
        note.unlooked_keeps_none();
        WhileWanted {
            note,
            held: HeldPages::new(alloc),
            is_told: false,
        }
    }

    /// Gives its note back, as it stands.
    pub fn into_note(self) -> Note
        ensures knows { is_some result.known ≡ ⟦<WhileWanted as Operator>⟧.knows self }
        ensures looks { result.empty_looks ≡ ⟦<WhileWanted as Operator>⟧.empty_looks self }
        ensures known { (X B : List Row)
            → ⟦<WhileWanted as Operator>⟧.may_give (⟦<WhileWanted as Operator>⟧.as_made self) X B
            ↔ WantedGives result.known [] X B }
    {
        let WhileWanted { note, .. } = self;
        note
    }
}

impl Operator for WhileWanted {
    ghost use Rattle.std.specs.Prelude.{◌≡◌, ℕ, ◌++◌, [], Some, true, false, not, ◌&&◌, ◌||◌, refl, is_some};
    ghost use Rattle.col_pages.specs.Pages.{most_rows};
    ghost use Rattle.operator_core.specs.Samples.{has_row};
    ghost use Rattle.operator_core.specs.LawGroups.{never_full};
    ghost use Rattle.operator_examples.specs.Samples.{unlooked, WantedGives};
    ghost use Rattle.operator_core.specs.NoteLaws.{held-over};
    ghost use Rattle.operator_examples.specs.NoteLaws.{wanted-some, wanted-rest, wanted-goes_on};
    ghost use Rattle.operator_core.specs.SampleLaws.{needs-untold, needs-open};

    ghost may_give = { λ s X B. WantedGives s.note.known s.held X B };

    ghost may_still_fail = { λ _ _ _ _. ⊥ };

    ghost takes = { λ _ _. Unit {0} };

    ghost page_size = { λ _. most_rows };

    ghost gives_late = { λ _. false };

    ghost needs_input = { λ s. not (s.is_told || has_row s.held) };

    ghost holds_row = { λ s. has_row s.held };

    ghost is_told = { λ s. s.is_told };

    ghost is_finished = { λ s. s.is_told && not (has_row s.held) };

    ghost bell = { λ s. s.note.bell };

    ghost knows = { λ s. is_some s.note.known };

    ghost empty_looks = { λ s. s.note.empty_looks };

    ghost looked_at = { λ s. s.note.looked_at };

    ghost went = { λ s T G. G ++ s.held ≡ T };

    ghost as_made = { λ s. record s { note = unlooked s.note.bell s.note.known; held = []; is_told = false } };

    ghost may_learn = { λ s m. (n : ℕ)
        × (m ≡ record s { note = unlooked s.note.bell (Some n); held = []; is_told = false }) };

    fn needs_input(&self) -> bool {
        !(self.is_told || !self.held.is_empty())
    }

    fn add_input(&mut self, page: Page) -> Result<(), OpFault> {
        if let Some(0) = self.note.known() {
            return Ok(());
        }
        self.held.push(page)?;
        Ok(())
    }

    #[tactic(auto, using(crate::proofs::HeldLemmas::has_row_first))]
    fn get_output(&mut self) -> Result<Option<Page>, OpFault> {
        match self.held.take_first() {
            Some(page) => Ok(Some(page)),
            None => Ok(None),
        }
    }

    fn finish(&mut self) {
        self.is_told = true;
    }

    fn is_finished(&self) -> bool {
        self.is_told && self.held.is_empty()
    }

    fn blocked<R: Threads + Wait + Sync, B: Bells>(
        &mut self,
        rt: &R,
        bells: &mut B,
    ) -> Result<Option<BlockedOn>, Memory> {
        let seen = Seen::read(rt, bells, self.note.bell());
        let _number = self.note.look(seen);
        Ok(None)
    }

    ghost some_rows = { λ s X coming. wanted-some s.note.known s.held X };

    ghost holds_rest = { λ s B told e. wanted-rest s.note.known s.held B e };

    ghost late_holds_none = { λ s late told. Prim.cc };

    ghost finished = { λ s. held-over s.is_told s.held };

    ghost needs_untold = { λ s. needs-untold s.is_told (has_row s.held) };

    ghost full = { never_full };

    ghost needs = { λ s told held _ _. needs-open s.is_told (has_row s.held) told held };

    ghost made_untold = { λ s. refl };

    ghost made_again = { λ s. refl };

    ghost note = { record {
      waiting_needs_none = λ s waits unknown. Prim.cc;
      waiting_went = λ s T G waits went. Prim.cc;
      made_knows = λ s. refl;
      made_went = λ s. refl;
      made_counted = λ s. tt;
      learns_as_made = λ s m. ((λ e. e), (λ e. e));
      learns_made = λ s m e. Prim.rw e.1 (refl, refl, refl);
      any_note = λ s m T G Z knows went learns coming. Prim.rw learns.1
          (wanted-goes_on (Some learns.0) s.is_told s.held T G Z went coming);
    } };
}
