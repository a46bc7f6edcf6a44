ghost use Rattle.std.specs.Prelude.{◌≡◌, ◌≤◌, ◌+◌, ◌++◌, ℕ, List, Bool, true, false, IfOk, IfNone, IfSome, IsOk, MatchOption};
ghost use Rattle.operator_core.specs.Rows.{Row};
ghost use Rattle.stage_moves.specs.Looks.{Looks, no_looks, HasWaited};
ghost use Rattle.stage_moves.specs.Ready.{IsReady};

use blocked::{Bells, BlockedOn};
use col_pages::Page;
use sql_values::Memory;
use std::sync::Wait;
use std::thread::Threads;

/// What a source found when it looked.
#[derive(Drop)]
pub enum Ready {
    /// It need not wait.
    Now,
    /// It asked in vain, and nobody rings for it: it is to be asked again.
    Missed,
    /// It has to wait.
    Blocked(BlockedOn),
}

/// Where the pages of a driver come from. It looks apart from the pass that moves its pages.
pub trait PageSource {
    // The rows that it gave so far.
    ghost taken: { Self → List Row };

    // No page comes any more.
    ghost is_ended: { Self → Bool };

    // It as it was made.
    ghost as_made: { Self → Self };

    // What is known of its looks.
    ghost looks: { Self → Looks } = { λ _. no_looks };

    // How often it asked in vain where nobody rings.
    ghost misses: { Self → ℕ } = { λ _. 0 };

    // How often a bell was to be rung for what it took.
    ghost dues: { Self → ℕ → ℕ } = { λ _ _. 0 };

    /// Whether no page comes any more.
    fn is_ended(&self) -> bool
        ensures { result ≡ is_ended self.now };

    /// Looks for what is to be taken next, and rings for what it took.
    fn ready<R: Threads + Wait + Sync, B: Bells>(
        &mut self,
        rt: &R,
        bells: &mut B,
    ) -> Result<Ready, Memory>
        ensures made { as_made self.new ≡ as_made self.old }
        ensures taken { IsOk result → taken self.new ≡ taken self.old }
        ensures ended { IsOk result → is_ended self.old ≡ true → is_ended self.new ≡ true }
        ensures answer { IfOk result (λ found. IsReady (looks self.old) (looks self.new)
            (misses self.old) (misses self.new) (B.shown bells.new) found) }
        ensures looks { (looks self.old).in_vain ≤ (looks self.new).in_vain }
        ensures misses { misses self.old ≤ misses self.new }
        ensures bells { (bell count : ℕ) → B.shown bells.old bell count
            → B.shown bells.new bell count }
        ensures rang { IsOk result → (bell times : ℕ)
            → B.rang bells.old bell (times + dues self.old bell)
            → B.rang bells.new bell (times + dues self.new bell) };

    /// The next page; None where there is none now. After want of memory it has its page still: who
    /// implements this promises so, and no clause says it.
    fn take(&mut self) -> Result<Option<Page>, Memory>
        requires { is_ended self.old ≡ false }
        ensures made { as_made self.new ≡ as_made self.old }
        ensures page { IfOk result (λ o. MatchOption o (taken self.new ≡ taken self.old)
            (λ page. taken self.new ≡ taken self.old ++ page.rows)) }
        ensures looks { looks self.new ≡ looks self.old }
        ensures misses { misses self.new ≡ misses self.old }
        ensures dues { (bell : ℕ) → dues self.new bell ≡ dues self.old bell };
}

/// Where the pages of a driver go to. What it does with them that may wait is apart from the pass.
pub trait PageTarget {
    // It was given these rows so far.
    ghost was_given: { Self → List Row → Type 0 };

    // It takes a page now.
    ghost wants: { Self → Bool };

    // It was told to finish.
    ghost is_told: { Self → Bool };

    // It was told to finish, and has nothing left to do.
    ghost is_finished: { Self → Bool };

    // It as it was made.
    ghost as_made: { Self → Self };

    // What is known of its looks.
    ghost looks: { Self → Looks } = { λ _. no_looks };

    // How often a bell was to be rung for what it did.
    ghost dues: { Self → ℕ → ℕ } = { λ _ _. 0 };

    /// Whether it takes a page now.
    fn wants(&self) -> bool
        ensures { result ≡ wants self.now };

    /// Whether it was told to finish.
    fn is_told(&self) -> bool
        ensures { result ≡ is_told self.now };

    /// Whether it was told to finish, and has nothing left to do.
    fn is_finished(&self) -> bool
        ensures finished { result ≡ is_finished self.now }
        ensures told { is_finished self.now ≡ true → is_told self.now ≡ true };

    /// Takes a page.
    fn put(&mut self, page: Page) -> Result<(), Memory>
        requires { wants self.old ≡ true }
        ensures rows { IsOk result → (Y : List Row) → was_given self.old Y → was_given self.new (Y ++ page.rows) }
        ensures made { IsOk result → as_made self.new ≡ as_made self.old }
        ensures told { IsOk result → is_told self.new ≡ is_told self.old }
        ensures finished { IsOk result → is_finished self.new ≡ is_finished self.old }
        ensures looks { (looks self.old).in_vain ≤ (looks self.new).in_vain }
        ensures dues { IsOk result → (bell : ℕ) → dues self.new bell ≡ dues self.old bell };

    /// Tells it that no page comes any more.
    fn finish(&mut self)
        ensures rows { (Y : List Row) → was_given self.old Y → was_given self.new Y }
        ensures made { as_made self.new ≡ as_made self.old }
        ensures told { is_told self.new ≡ true }
        ensures looks { (looks self.old).in_vain ≤ (looks self.new).in_vain }
        ensures dues { (bell : ℕ) → dues self.new bell ≡ dues self.old bell };

    /// Does what is to be done with the pages that it took and, once `finish` was called, what ends it, and rings
    /// for it. Answers where it has to wait for that; where it need not, it takes a page now or, once `finish`
    /// was called, is finished.
    fn ready<R: Threads + Wait + Sync, B: Bells>(
        &mut self,
        rt: &R,
        bells: &mut B,
    ) -> Result<Option<BlockedOn>, Memory>
        ensures rows { IsOk result → (Y : List Row) → was_given self.old Y → was_given self.new Y }
        ensures made { IsOk result → as_made self.new ≡ as_made self.old }
        ensures told { IsOk result → is_told self.new ≡ is_told self.old }
        ensures untold { IsOk result → is_told self.old ≡ false
            → is_finished self.new ≡ is_finished self.old }
        ensures answer { IfOk result (λ waits. IfSome waits (HasWaited (looks self.old) (looks self.new)
            (B.shown bells.new))) }
        ensures unfinished { IfOk result (λ waits. IfSome waits (λ _. is_finished self.new ≡ false)) }
        ensures through { IfOk result (λ waits. IfNone waits
            (is_told self.old ≡ true → is_finished self.new ≡ true)) }
        ensures clear { IfOk result (λ waits. IfNone waits
            (is_told self.old ≡ false → wants self.new ≡ true)) }
        ensures looks { (looks self.old).in_vain ≤ (looks self.new).in_vain }
        ensures bells { (bell count : ℕ) → B.shown bells.old bell count
            → B.shown bells.new bell count }
        ensures rang { IsOk result → (bell times : ℕ)
            → B.rang bells.old bell (times + dues self.old bell)
            → B.rang bells.new bell (times + dues self.new bell) };
}
