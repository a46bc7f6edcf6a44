//! A turn of an item of a pool.
ghost use Rattle.std.specs.Prelude.{◌≡◌};
ghost use Rattle.worker_pool.specs.Turned.{IsTurned};

use crate::runner::{Returned, Roster, Runner, Waiter};
use crate::turning::{TakesTurns, Turn};
use blocked::Bells;
use futures::task::Context;
use std::sync::Wait;
use std::thread::Threads;

/// What became of an item in its turn.
#[derive(Drop)]
pub(crate) enum AfterTurn<N, W, O> {
    /// It can have the next one.
    Ready(N),
    /// It waits for a ring.
    Waits(W),
    /// It is finished, or has failed.
    Over(O),
}

/// Gives a turn.
pub(crate) fn turn<T: TakesTurns, J: Roster<T>, R: Threads + Wait + Sync, B: Bells>(
    rt: &R,
    runner: Runner<T, J>,
    quantum: u32,
    cx: &mut Context<'_>,
    bells: &mut B,
) -> AfterTurn<Runner<T, J>, Waiter<T, J>, Returned<T, J>>
    ensures { IsTurned T.follows T.is_finished T.has_failed runner result }
{
    let (place, mut item) = runner.into_parts();
    match item.turn(rt, quantum, cx, bells) {
        Turn::Yield => AfterTurn::Ready(Runner::new(place, item)),
        Turn::Blocked(on) => AfterTurn::Waits(Waiter::new(Runner::new(place, item), on)),
        Turn::Finished => AfterTurn::Over(Returned::new(place, item)),
        Turn::Failed => AfterTurn::Over(Returned::new(place, item)),
    }
}
