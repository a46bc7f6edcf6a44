ghost use Rattle.std.specs.Prelude.{◌≡◌, ◌↔◌, ◌+◌, ◌-◌, ◌^◌, ◌<◌, ℕ, List, [], Some, true, false};
ghost use Rattle.std.specs.Prelude.{is_some, unwrap_or};
ghost use Rattle.sql_values.specs.declared.fail.Fail.{Fail as Kind};
ghost use Rattle.col_pages.specs.Pages.{TypedPage, most_rows};
ghost use Rattle.operator_core.specs.Rows.{Row};
ghost use Rattle.operator_core.specs.Calls.{IsFresh};
ghost use Rattle.operator_examples.specs.Samples.{is_reached, LimitGives};

use crate::note::Note;
use blocked::{Bells, BlockedOn, ReadBell, Seen};
use col_pages::Page;
use operator_core::{HeldPages, OpFault, Operator};
use sql_values::Memory;
use std::alloc::Global;
use std::sync::Wait;
use std::thread::Threads;

/// Gives as many of its first rows as its note says. It takes none before the note knows, and is full once as
/// many have passed.
#[derive(Drop)]
pub struct NotedLimit {
    alloc: Global,
    note: Note,
    passed: u32,
    held: HeldPages,
    is_told: bool,
}

impl NotedLimit {
    pub fn new(alloc: Global, note: Note) -> NotedLimit
        requires { note.empty_looks ≡ 0 }
        ensures fresh { IsFresh ⟦<NotedLimit as Operator>⟧ result }
        ensures gives { (X B : List Row) → ⟦<NotedLimit as Operator>⟧.may_give result X B
            ↔ LimitGives note.known 0 [] X B }
        ensures fails { (X : List Row) (node : ℕ) (kind : Kind)
            → ⟦<NotedLimit as Operator>⟧.may_still_fail result X node kind → ⊥ }
        ensures takes { (page : TypedPage) → ⟦<NotedLimit as Operator>⟧.takes result page }
        ensures full { ⟦<NotedLimit as Operator>⟧.is_full result ≡ is_reached note.known 0 }
        ensures size { ⟦<NotedLimit as Operator>⟧.page_size result ≡ most_rows }
        ensures late { ⟦<NotedLimit as Operator>⟧.gives_late result ≡ false }
        ensures waits { ⟦<NotedLimit as Operator>⟧.waits result ≡ true }
        ensures knows { ⟦<NotedLimit as Operator>⟧.knows result ≡ is_some note.known }
        ensures bell { ⟦<NotedLimit as Operator>⟧.bell result ≡ note.bell }
        ensures learns { (m : _) → ⟦<NotedLimit as Operator>⟧.may_learn result m → (n : ℕ)
            × ((X B : List Row) → ⟦<NotedLimit as Operator>⟧.may_give m X B
            ↔ LimitGives (Some n) 0 [] X B) }
    {
        note.unlooked_keeps_none();
        NotedLimit {
            alloc,
            note,
            passed: 0,
            held: HeldPages::new(alloc),
            is_told: false,
        }
    }

    /// Gives its note back, as it stands.
    pub fn into_note(self) -> Note
        ensures knows { is_some result.known ≡ ⟦<NotedLimit as Operator>⟧.knows self }
        ensures looks { result.empty_looks ≡ ⟦<NotedLimit as Operator>⟧.empty_looks self }
        ensures known { (X B : List Row)
            → ⟦<NotedLimit as Operator>⟧.may_give (⟦<NotedLimit as Operator>⟧.as_made self) X B
            ↔ LimitGives result.known 0 [] X B }
    {
        let NotedLimit { note, .. } = self;
        note
    }

    /// How many rows are still wanted.
    fn left(&self) -> u32
        ensures left { result ≡ unwrap_or self.now.note.known 0 - self.now.passed }
        ensures fits { self.now.passed + result < 2 ^ 32 }
    {
        let passed = self.passed;
        match self.note.known() {
            Some(number) => number.saturating_sub(passed),
            None => 0,
        }
    }

    /// Whether its number is known and as many rows have passed.
    fn is_reached(&self) -> bool
        ensures { result ≡ is_reached self.now.note.known self.now.passed }
    {
        match self.note.known() {
            Some(number) => number <= self.passed,
            None => false,
        }
    }
}

impl Operator for NotedLimit {
    ghost use Rattle.std.specs.Prelude.{◌≡◌, ℕ, [], Some, true, false, not, ◌&&◌, ◌||◌, refl, is_some};
    ghost use Rattle.col_pages.specs.Pages.{most_rows};
    ghost use Rattle.operator_core.specs.Samples.{has_row};
    ghost use Rattle.operator_examples.specs.Samples.{is_reached, unlooked, LimitGives};
    ghost use Rattle.operator_core.specs.NoteLaws.{none-without, held-over};
    ghost use Rattle.operator_examples.specs.NoteLaws.{limit-some, limit-rest, limit-needs_none, limit-needs, reached-needs_none, reached-gives, limit-goes_on};

    ghost may_give = { λ s X B. LimitGives s.note.known s.passed s.held X B };

    ghost may_still_fail = { λ _ _ _ _. ⊥ };

    ghost takes = { λ _ _. Unit {0} };

    ghost page_size = { λ _. most_rows };

    ghost is_full = { λ s. is_reached s.note.known s.passed };

    ghost gives_late = { λ _. false };

    ghost needs_input = { λ s. is_some s.note.known
        && not ((s.is_told || has_row s.held) || is_reached s.note.known s.passed) };

    ghost holds_row = { λ s. has_row s.held };

    ghost is_told = { λ s. s.is_told };

    ghost is_finished = { λ s. s.is_told && not (has_row s.held) };

    ghost waits = { λ _. true };

    ghost bell = { λ s. s.note.bell };

    ghost knows = { λ s. is_some s.note.known };

    ghost empty_looks = { λ s. s.note.empty_looks };

    ghost looked_at = { λ s. s.note.looked_at };

    ghost went = { λ s T G. (T ≡ []) × (G ≡ []) × (s.held ≡ []) × (s.passed ≡ 0) };

    ghost as_made = { λ s.
        record s { note = unlooked s.note.bell s.note.known; passed = 0; held = []; is_told = false } };

    ghost may_learn = { λ s m. (n : ℕ)
        × (m ≡ record s { note = unlooked s.note.bell (Some n); passed = 0; held = []; is_told = false }) };

    fn needs_input(&self) -> bool {
        self.note.known().is_some() && !(self.is_told || !self.held.is_empty() || self.is_reached())
    }

    fn add_input(&mut self, page: Page) -> Result<(), OpFault> {
        let taken = self.left().min(page.len());
        self.held.push(page.slice(self.alloc, 0, taken)?)?;
        self.passed += taken;
        Ok(())
    }

    #[tactic(auto, using(crate::proofs::HeldLemmas::has_row_first))]
    fn get_output(&mut self) -> Result<Option<Page>, OpFault> {
        match self.held.take_first() {
            Some(page) => Ok(Some(page)),
            None => Ok(None),
        }
    }

    fn finish(&mut self) {
        self.is_told = true;
    }

    fn is_finished(&self) -> bool {
        self.is_told && self.held.is_empty()
    }

    fn blocked<R: Threads + Wait + Sync, B: Bells>(
        &mut self,
        rt: &R,
        bells: &mut B,
    ) -> Result<Option<BlockedOn>, Memory> {
        let seen = Seen::read(rt, bells, self.note.bell());
        match self.note.look(seen) {
            Some(_) => Ok(None),
            None => Ok(Some(BlockedOn::new(seen.bell(), seen.count()))),
        }
    }

    ghost some_rows = { λ s X coming. limit-some s.note.known s.passed s.held X };

    ghost holds_rest = { λ s B told e. limit-rest s.note.known s.passed s.held B e };

    ghost late_holds_none = { λ s late told. Prim.cc };

    ghost finished = { λ s. held-over s.is_told s.held };

    ghost needs_untold = { λ s.
        limit-needs_none (is_some s.note.known) s.is_told (has_row s.held)
        (is_reached s.note.known s.passed) };

    ghost full = { record {
      full_needs_none = λ s full.
          reached-needs_none (is_some s.note.known) s.is_told (has_row s.held)
          (is_reached s.note.known s.passed) full;
      full_gives = λ s X B full. reached-gives s.note.known s.passed s.held X B full;
      full_fails = λ s X node kind full. ((λ e. e), (λ e. e));
    } };

    ghost needs = { λ s told held knows wanted.
        limit-needs (is_some s.note.known) s.is_told (has_row s.held)
        (is_reached s.note.known s.passed) told held (knows refl) wanted };

    ghost made_untold = { λ s. refl };

    ghost made_again = { λ s. refl };

    ghost note = { record {
      waiting_needs_none = λ s waits unknown. none-without (is_some s.note.known)
          (not ((s.is_told || has_row s.held) || is_reached s.note.known s.passed)) unknown;
      waiting_went = λ s T G waits went. (went.0, went.1);
      made_knows = λ s. refl;
      made_went = λ s. (refl, refl, refl, refl);
      made_counted = λ s. tt;
      learns_as_made = λ s m. ((λ e. e), (λ e. e));
      learns_made = λ s m e. Prim.rw e.1 (refl, refl, refl);
      any_note = λ s m T G Z knows went learns coming. Prim.rw learns.1
          (limit-goes_on learns.0 s.is_told s.held T G Z (went.0, went.1, went.2) coming);
    } };
}
