ghost use Rattle.std.specs.Prelude.{◌≡◌, ℕ, ◌+◌, ◌≤◌, List, [], ◌++◌, length, ◌↔◌, Bool, true, false, None, IfOk, IsOk, MatchOption};
ghost use Rattle.sql_values.specs.declared.fail.Fail.{Fail as Kind};
ghost use Rattle.col_pages.specs.Pages.{TypedPage};
ghost use Rattle.count_laws.specs.Counts.{Rose};
ghost use Rattle.operator_core.specs.Rows.{Row, Coming};
ghost use Rattle.operator_core.specs.Answers.{NotMemory, gave, IsFit};
ghost use Rattle.operator_core.specs.LawGroups.{FullLaws, NoteLaws};

use crate::fault::OpFault;
use blocked::{Bells, BlockedOn};
use col_pages::Page;
use sql_values::Memory;
use std::sync::Wait;
use std::thread::Threads;

/// A step of a pipeline: it takes pages in and gives pages out.
pub trait Operator {
    // With these rows still to come it may still give those, rows and groups that fail left out.
    ghost may_give: { Self → List Row → List Row → Type 0 };

    // A row or a group of what it took in and has not yet judged, or of the rows still to come,
    // fails with this kind at this node.
    ghost may_still_fail: { Self → List Row → ℕ → Kind → Type 0 };

    // It may be given this page.
    ghost takes: { Self → TypedPage → Type 0 };

    // The most rows of a page that it gives.
    ghost page_size: { Self → ℕ };

    // It makes nothing of rows that still come: it has rows of its own, or as many as it wants.
    ghost is_full: { Self → Bool } = { λ _. false };

    // It holds no row that it may give before it was told to finish.
    ghost gives_late: { Self → Bool };

    ghost needs_input: { Self → Bool };

    // It holds a row that it may give now.
    ghost holds_row: { Self → Bool };

    // It was told to finish.
    ghost is_told: { Self → Bool };

    ghost is_finished: { Self → Bool };

    // It takes nothing in before its note knows what it looks for.
    ghost waits: { Self → Bool } = { λ _. false };

    // The number of the bell of what its note looks for.
    ghost bell: { Self → ℕ } = { λ _. 0 };

    // Its note knows what it looks for; also where it has no note.
    ghost knows: { Self → Bool } = { λ _. true };

    // How many looks of its note found nothing.
    ghost empty_looks: { Self → ℕ } = { λ _. 0 };

    // The count that the last such look was handed.
    ghost looked_at: { Self → ℕ } = { λ _. 0 };

    // While its note knew nothing it took these rows and gave those.
    ghost went: { Self → List Row → List Row → Type 0 } = { λ _ _ _. Unit {0} };

    // It counted so many rows that it gave; one that does not count says nothing.
    ghost counted: { Self → ℕ → Type 0 } = { λ _ _. Unit {0} };

    // It as it was made, with what its note knows.
    ghost as_made: { Self → Self };

    // The second is the first as it was made, had its note known a value that it may come to know.
    ghost may_learn: { Self → Self → Type 0 } = { λ _ _. ⊥ };

    /// Whether it takes a page now.
    fn needs_input(&self) -> bool
        ensures { result ≡ needs_input self.now };

    /// Takes a page in.
    fn add_input(&mut self, page: Page) -> Result<(), OpFault>
        requires needs { needs_input self.old ≡ true }
        requires takes { takes self.old page }
        ensures gives { NotMemory result → (X B : List Row) → may_give self.new X B
            → may_give self.old (page.rows ++ X) B }
        ensures fails { NotMemory result → (X : List Row) (node : ℕ) (kind : Kind)
            → may_still_fail self.new X node kind
            ↔ may_still_fail self.old (page.rows ++ X) node kind }
        ensures fault { (node : ℕ) (kind : Kind) → result ≡ Err (OpFault.Expr node kind)
            → (X : List Row) → may_still_fail self.old (page.rows ++ X) node kind }
        ensures went { NotMemory result → knows self.old ≡ false → (T G : List Row)
            → went self.old T G → went self.new (T ++ page.rows) G }
        ensures counted { NotMemory result → (n : ℕ) → counted self.old n → counted self.new n }
        ensures as_made { as_made self.new ≡ as_made self.old }
        ensures told { is_told self.new ≡ is_told self.old }
        ensures knows { knows self.new ≡ knows self.old }
        ensures looks { empty_looks self.new ≡ empty_looks self.old }
        ensures looked_at { looked_at self.new ≡ looked_at self.old }
        ensures takes { (p : TypedPage) → p.types ≡ page.types → takes self.old p
            → takes self.new p }
        ensures full { is_full self.old ≡ true → is_full self.new ≡ true }
        ensures constant { (page_size self.new ≡ page_size self.old)
            × (gives_late self.new ≡ gives_late self.old) × (waits self.new ≡ waits self.old)
            × (bell self.new ≡ bell self.old) };

    /// Gives a page, or none where it holds no row that it may give yet.
    fn get_output(&mut self) -> Result<Option<Page>, OpFault>
        ensures gives { NotMemory result → (X B : List Row) → Coming (is_told self.old) X
            → may_give self.new X B → may_give self.old X (gave result ++ B) }
        ensures fails { NotMemory result → (X : List Row) (node : ℕ) (kind : Kind)
            → Coming (is_told self.old) X
            → may_still_fail self.new X node kind ↔ may_still_fail self.old X node kind }
        ensures fault { (node : ℕ) (kind : Kind) → result ≡ Err (OpFault.Expr node kind)
            → (X : List Row) → Coming (is_told self.old) X → may_still_fail self.old X node kind }
        ensures none { NotMemory result → (result ≡ Ok None) ↔ ((holds_row self.old ≡ false)
            × (is_told self.old ≡ true → (node : ℕ) (kind : Kind)
            → may_still_fail self.old [] node kind → ⊥)) }
        ensures size { IsFit result (page_size self.old) }
        ensures went { NotMemory result → knows self.old ≡ false → (T G : List Row)
            → went self.old T G → went self.new T (G ++ gave result) }
        ensures counted { NotMemory result → (n : ℕ) → counted self.old n
            → counted self.new (n + length (gave result)) }
        ensures as_made { as_made self.new ≡ as_made self.old }
        ensures told { is_told self.new ≡ is_told self.old }
        ensures ended { is_finished self.old ≡ true → is_finished self.new ≡ true }
        ensures knows { knows self.new ≡ knows self.old }
        ensures looks { empty_looks self.new ≡ empty_looks self.old }
        ensures looked_at { looked_at self.new ≡ looked_at self.old }
        ensures takes { (page : TypedPage) → takes self.old page → takes self.new page }
        ensures full { is_full self.old ≡ true → is_full self.new ≡ true }
        ensures constant { (page_size self.new ≡ page_size self.old)
            × (gives_late self.new ≡ gives_late self.old) × (waits self.new ≡ waits self.old)
            × (bell self.new ≡ bell self.old) };

    /// Tells it that no page comes any more.
    fn finish(&mut self)
        ensures gives { (B : List Row) → may_give self.new [] B → may_give self.old [] B }
        ensures fails { (node : ℕ) (kind : Kind)
            → may_still_fail self.new [] node kind ↔ may_still_fail self.old [] node kind }
        ensures again { is_told self.old ≡ true → self.new ≡ self.old }
        ensures went { knows self.old ≡ false → (T G : List Row)
            → went self.old T G → went self.new T G }
        ensures counted { (n : ℕ) → counted self.old n → counted self.new n }
        ensures as_made { as_made self.new ≡ as_made self.old }
        ensures told { is_told self.new ≡ true }
        ensures knows { knows self.new ≡ knows self.old }
        ensures looks { empty_looks self.new ≡ empty_looks self.old }
        ensures looked_at { looked_at self.new ≡ looked_at self.old }
        ensures takes { (page : TypedPage) → takes self.old page → takes self.new page }
        ensures full { is_full self.old ≡ true → is_full self.new ≡ true }
        ensures constant { (page_size self.new ≡ page_size self.old)
            × (gives_late self.new ≡ gives_late self.old) × (waits self.new ≡ waits self.old)
            × (bell self.new ≡ bell self.old) };

    /// Whether it was told to finish and has nothing left to give or to fail on.
    fn is_finished(&self) -> bool
        ensures { result ≡ is_finished self.now };

    /// Looks whether it has to wait for the value of its note, and at which bell.
    fn blocked<R: Threads + Wait + Sync, B: Bells>(
        &mut self,
        rt: &R,
        bells: &mut B,
    ) -> Result<Option<BlockedOn>, Memory>
        ensures gives { IsOk result → (X B : List Row) → Coming (is_told self.old) X
            → may_give self.new X B → may_give self.old X B }
        ensures fails { IsOk result → (X : List Row) (node : ℕ) (kind : Kind)
            → Coming (is_told self.old) X
            → may_still_fail self.new X node kind ↔ may_still_fail self.old X node kind }
        ensures answer { IfOk result (λ on. MatchOption on
            (waits self.old ≡ true → knows self.new ≡ true)
            (λ on. (waits self.old ≡ true) × (knows self.new ≡ false)
            × Rose (empty_looks self.old) (empty_looks self.new)
            × (looked_at self.new ≡ on.seen) × (on.bell ≡ bell self.new)
            × B.shown bells.new on.bell on.seen × (on.rung ≡ false))) }
        ensures known { knows self.old ≡ true → knows self.new ≡ true }
        ensures same { IsOk result → knows self.new ≡ knows self.old
            → as_made self.new ≡ as_made self.old }
        ensures went { IsOk result → knows self.new ≡ false → (T G : List Row)
            → went self.old T G → went self.new T G }
        ensures counted { IsOk result → (n : ℕ) → counted self.old n → counted self.new n }
        ensures learns { IsOk result → knows self.old ≡ false → knows self.new ≡ true
            → may_learn self.old (as_made self.new) }
        ensures learns_gives { IsOk result → knows self.old ≡ false → knows self.new ≡ true
            → (T G : List Row) → went self.old T G → (X B : List Row) → Coming (is_told self.old) X
            → may_give self.new X B → may_give (as_made self.new) (T ++ X) (G ++ B) }
        ensures learns_fails { IsOk result → knows self.old ≡ false → knows self.new ≡ true
            → (T G : List Row) → went self.old T G → (X : List Row) (node : ℕ) (kind : Kind)
            → Coming (is_told self.old) X → may_still_fail self.new X node kind
            ↔ may_still_fail (as_made self.new) (T ++ X) node kind }
        ensures told { is_told self.new ≡ is_told self.old }
        ensures ended { is_finished self.old ≡ true → is_finished self.new ≡ true }
        ensures looks { empty_looks self.old ≤ empty_looks self.new }
        ensures takes { (page : TypedPage) → takes self.old page → takes self.new page }
        ensures full { is_full self.old ≡ true → is_full self.new ≡ true }
        ensures constant { (page_size self.new ≡ page_size self.old)
            × (gives_late self.new ≡ gives_late self.old) × (waits self.new ≡ waits self.old) }
        ensures bells { (bell count : ℕ) → B.shown bells.old bell count
            → B.shown bells.new bell count }
        ensures rang { (bell times : ℕ) → B.rang bells.old bell times
            → B.rang bells.new bell times };

    // For every state and rows still to come there is something that it may give.
    ghost some_rows: { (s : Self) (X : List Row) → Coming (is_told s) X
        → (B : List Row) × may_give s X B };

    // It holds a row that it may give exactly where it has any left to give for no more rows; one
    // that gives late once it was told to finish, and until then it holds none.
    ghost holds_rest: { (s : Self) (B : List Row) → (gives_late s ≡ true → is_told s ≡ true)
        → may_give s [] B → (holds_row s ≡ false) ↔ (B ≡ []) };

    ghost late_holds_none: { (s : Self) → gives_late s ≡ true → is_told s ≡ false
        → holds_row s ≡ false };

    // It is finished exactly where it was told to finish, holds nothing and nothing may fail.
    ghost finished: { (s : Self) → (is_finished s ≡ true) ↔ ((is_told s ≡ true)
        × (holds_row s ≡ false)
        × ((node : ℕ) (kind : Kind) → may_still_fail s [] node kind → ⊥)) };

    // Once it was told to finish, it needs no input.
    ghost needs_untold: { (s : Self) → needs_input s ≡ true → is_told s ≡ false };

    // What holds where it is full.
    ghost full: { FullLaws may_give may_still_fail is_full needs_input };

    // It refuses input only where it was told to finish, holds a row to give, waits or is full.
    ghost needs: { (s : Self) → is_told s ≡ false → holds_row s ≡ false
        → (waits s ≡ true → knows s ≡ true) → is_full s ≡ false → needs_input s ≡ true };

    // As it was made, it was not told to finish, and it was so made.
    ghost made_untold: { (s : Self) → is_told (as_made s) ≡ false };

    ghost made_again: { (s : Self) → as_made (as_made s) ≡ as_made s };

    // What holds of its note, of what it took and gave while the note knew nothing, and of what it counted.
    ghost note: { NoteLaws may_give needs_input is_told is_finished waits knows went counted as_made
        may_learn };
}
