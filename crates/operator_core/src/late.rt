ghost use Rattle.std.specs.Prelude.{◌≡◌, ℕ, List, [], ◌++◌, ◌↔◌, Bool, true, false, None, Err, Ok, IsOk};
ghost use Rattle.sql_values.specs.declared.fail.Fail.{Fail as Kind};
ghost use Rattle.col_pages.specs.Fits.{IsOfTypes};
ghost use Rattle.operator_core.specs.Rows.{Row};
ghost use Rattle.operator_core.specs.Answers.{NotMemory, gave, IsFit};
ghost use Rattle.operator_core.specs.Late.{PageTypes};

use crate::fault::OpFault;
use crate::operator::Operator;
use blocked::{Bells, BlockedOn};
use col_pages::Page;
use sql_values::{Memory, SqlType};
use std::marker::Model;
use std::sync::Wait;
use std::thread::Threads;

/// What an operator that gives late does with its rows: it takes pages in until its output begins, and
/// from then on gives pages out.
pub trait Kernel: Drop {
    // With these rows still to come it may still give those, rows and groups that fail left out.
    ghost may_give: { Self → List Row → List Row → Type 0 };

    // A row or a group of what it took in and has not yet judged, or of the rows still to come,
    // fails with this kind at this node.
    ghost may_fail: { Self → List Row → ℕ → Kind → Type 0 };

    // The types of the rows that it takes, and the most rows of a page that it gives.
    ghost pages: { Self → PageTypes };

    // It holds a row that it may give, where no row comes any more.
    ghost holds_row: { Self → Bool };

    // It has nothing left to give or to fail on, where no row comes any more.
    ghost is_done: { Self → Bool };

    // Its output has begun.
    ghost has_begun: { Self → Bool };

    ghost as_made: { Self → Self };

    /// The types of the rows that it takes.
    fn types(&self) -> &[SqlType]
        ensures { result.now ≡ (pages self.now).takes };

    /// Takes a page in.
    fn take_in(&mut self, page: Page) -> Result<(), Memory>
        requires unbegun { has_begun self.old ≡ false }
        requires takes { IsOfTypes (pages self.old).takes page }
        ensures gives { IsOk result → (X B : List Row) → may_give self.new X B
            → may_give self.old (page.rows ++ X) B }
        ensures fails { IsOk result → (X : List Row) (node : ℕ) (kind : Kind)
            → may_fail self.new X node kind ↔ may_fail self.old (page.rows ++ X) node kind }
        ensures unbegun { has_begun self.new ≡ false }
        ensures constant { (pages self.new ≡ pages self.old)
            × (as_made self.new ≡ as_made self.old) };

    /// Gives a page where it has one left. No row comes any more.
    fn give_out(&mut self) -> Result<Option<Page>, OpFault>
        ensures gives { NotMemory result → (B : List Row) → may_give self.new [] B
            → may_give self.old [] (gave result ++ B) }
        ensures fails { NotMemory result → (node : ℕ) (kind : Kind)
            → may_fail self.new [] node kind ↔ may_fail self.old [] node kind }
        ensures fault { (node : ℕ) (kind : Kind) → result ≡ Err (OpFault.Expr node kind)
            → may_fail self.old [] node kind }
        ensures none { NotMemory result → (result ≡ Ok None) ↔ (is_done self.old ≡ true) }
        ensures size { IsFit result (pages self.old).size }
        ensures done { is_done self.old ≡ true → is_done self.new ≡ true }
        ensures constant { (pages self.new ≡ pages self.old)
            × (as_made self.new ≡ as_made self.old) };

    /// Whether it has nothing left to give or to fail on, where no row comes any more.
    fn is_done(&self) -> bool
        ensures { result ≡ is_done self.now };

    // For every state and rows still to come there is something that it may give.
    ghost some_rows: { (s : Self) (X : List Row) → (B : List Row) × may_give s X B };

    // Where no row comes any more it holds a row exactly where it has any left to give.
    ghost holds_rest: { (s : Self) (B : List Row) → may_give s [] B
        → (holds_row s ≡ false) ↔ (B ≡ []) };

    ghost done: { (s : Self) → (is_done s ≡ true) ↔ ((holds_row s ≡ false)
        × ((node : ℕ) (kind : Kind) → may_fail s [] node kind → ⊥)) };

    ghost made_again: { (s : Self) → as_made (as_made s) ≡ as_made s };
}

/// An operator that gives no row before it was told to finish.
#[derive(Drop)]
pub struct Late<K: Kernel> {
    kernel: K,
    is_told: bool,
}

impl<K: Kernel> Model for Late<K> {
    ghost use Rattle.std.specs.Prelude.{◌≡◌, true};
    ghost use Rattle.operator_core.specs.Late.{LateState};

    ghost Value = { LateState K };

    ghost view = { λ s. record { kernel = s.kernel; is_told = s.is_told } };

    ghost invariant = { λ s. K.has_begun s.kernel ≡ true → s.is_told ≡ true };
}

impl<K: Kernel> Late<K> {
    pub fn new(kernel: K) -> Late<K>
        requires { K.has_begun kernel ≡ false }
        ensures { result ≡ record { kernel = kernel; is_told = false } }
    {
        Late {
            kernel,
            is_told: false,
        }
    }

    pub fn kernel(&self) -> &K
        ensures { result.now ≡ self.now.kernel }
    {
        &self.kernel
    }

    /// The types of the rows that it takes.
    pub fn types(&self) -> &[SqlType]
        ensures { result.now ≡ (K.pages self.now.kernel).takes }
    {
        self.kernel.types()
    }
}

impl<K: Kernel> Operator for Late<K> {
    ghost use Rattle.std.specs.Prelude.{refl};
    ghost use Rattle.std.proofs.Common.{ap};
    ghost use Rattle.operator_core.specs.LateGhosts.{late};
    ghost use Rattle.operator_core.specs.LateLaws.{late-finished, told-holds};
    ghost use Rattle.operator_core.specs.LawGroups.{never_full, no_note};
    ghost use Rattle.operator_core.specs.NoteLaws.{none-without, told-needs_none, told-needs};

    ghost may_give = { (late K.Kernel).may_give };

    ghost may_still_fail = { (late K.Kernel).may_still_fail };

    ghost takes = { (late K.Kernel).takes };

    ghost page_size = { (late K.Kernel).page_size };

    ghost gives_late = { (late K.Kernel).gives_late };

    ghost needs_input = { (late K.Kernel).needs_input };

    ghost holds_row = { (late K.Kernel).holds_row };

    ghost is_told = { (late K.Kernel).is_told };

    ghost is_finished = { (late K.Kernel).is_finished };

    ghost as_made = { (late K.Kernel).as_made };

    fn needs_input(&self) -> bool {
        !self.is_told
    }

    fn add_input(&mut self, page: Page) -> Result<(), OpFault> {
        self.kernel.take_in(page)?;
        Ok(())
    }

    fn get_output(&mut self) -> Result<Option<Page>, OpFault> {
        if !self.is_told {
            return Ok(None);
        }
        self.kernel.give_out()
    }

    fn finish(&mut self) {
        self.is_told = true;
    }

    fn is_finished(&self) -> bool {
        self.is_told && self.kernel.is_done()
    }

    fn blocked<R: Threads + Wait + Sync, B: Bells>(
        &mut self,
        _rt: &R,
        _bells: &mut B,
    ) -> Result<Option<BlockedOn>, Memory> {
        Ok(None)
    }

    ghost some_rows = { λ s X coming. K.some_rows s.kernel X };

    ghost holds_rest = { λ s B told g. told-holds s.is_told (K.holds_row s.kernel) (told refl)
        (K.holds_rest s.kernel B g) };

    ghost late_holds_none = { λ s late told. none-without s.is_told (K.holds_row s.kernel) told };

    ghost finished = { λ s. late-finished s.is_told (K.done s.kernel) };

    ghost needs_untold = { λ s. told-needs_none s.is_told };

    ghost full = { never_full };

    ghost needs = { λ s told _ _ _. told-needs s.is_told told };

    ghost made_untold = { λ s. refl };

    ghost made_again = { λ s. ap (λ k. record { kernel = k; is_told = false }) (K.made_again s.kernel) };

    ghost note = { no_note };
}
