ghost use Rattle.std.specs.Prelude.{◌≡◌, ℕ, Bool, false};
ghost use Rattle.std.specs.Thread.{IsSync};
ghost use Rattle.futures.specs.Task.{Covers};
ghost use Rattle.worker_pool.specs.Turns.{IsLeftBy, IfBlocked};

use blocked::{Bells, BlockedOn};
use futures::Future;
use futures::task::Context;
use std::sync::Wait;
use std::thread::Threads;

/// What a turn came to.
#[derive(Drop)]
pub enum Turn {
    /// It goes on.
    Yield,
    /// It goes on once the bell rings.
    Blocked(BlockedOn),
    Finished,
    /// It keeps the reason.
    Failed,
}

/// What is given turns until it is finished.
pub trait TakesTurns: Drop {
    // How much was done for it.
    ghost work: { Self → ℕ };

    ghost is_finished: { Self → Bool };

    ghost has_failed: { Self → Bool };

    // Turns have made the second of the first.
    ghost follows: { Self → Self → Type 0 };

    // It waits for a ring of this bell after the one of this count.
    ghost waits_at: { Self → ℕ → ℕ → Type 0 };

    fn work(&self) -> u64
        ensures { result ≡ work self.now };

    fn is_finished(&self) -> bool
        ensures { result ≡ is_finished self.now };

    fn has_failed(&self) -> bool
        ensures { result ≡ has_failed self.now };

    /// Works until it is finished, `quantum` units are done, or it has to wait.
    fn turn<R: Threads + Wait + Sync, B: Bells>(
        &mut self,
        rt: &R,
        quantum: u32,
        cx: &mut Context<'_>,
        bells: &mut B,
    ) -> Turn
        requires sync { IsSync R.row }
        requires running { (is_finished self.old ≡ false) × (has_failed self.old ≡ false) }
        ensures follows { follows self.old self.new }
        ensures state { IsLeftBy result (is_finished self.new) (has_failed self.new) }
        ensures waits { IfBlocked result (λ on. waits_at self.new on.bell on.seen) }
        ensures shown { IfBlocked result (λ on. B.shown bells.new on.bell on.seen) }
        ensures heard { IfBlocked result (λ on. Covers cx.new (⟦<BlockedOn as Future>⟧.needs on)) };

    // It is what it was before any turn.
    ghost stays: { (x : Self) → follows x x };

    // A turn is given only to one that can go on.
    ghost goes_on: { (x y z : Self) → follows x y → is_finished y ≡ false → has_failed y ≡ false → follows y z → follows x z };
}
