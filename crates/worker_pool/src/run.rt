//! A run of items on several workers.
ghost use Rattle.std.specs.Prelude.{◌≡◌, IfOk};
ghost use Rattle.std.specs.List.{AllZip};
ghost use Rattle.worker_pool.specs.Gathered.{IsEnd};

use crate::end::{RunEnd, end_of};
use crate::gather::gather;
use crate::pool::Pool;
use crate::pool_bells::PoolBells;
use crate::runner::{Returned, Roster, Runner, Waiter};
use crate::shared::Shared;
use crate::turned::{AfterTurn, turn};
use crate::turning::TakesTurns;
use futures::task::{Doorbell, Solo};
use sql_values::Memory;
use std::alloc::Global;
use std::marker::Brand;
use std::random::RandomSource;
use std::sync::Wait;
use std::thread;
use std::thread::Threads;

/// Items that had their turns, each at the place at which it came, and how the run ended. Of several that failed the
/// end names one; whoever has to know all of them looks at the items.
#[derive(Drop)]
pub struct Done<T> {
    pub items: Vec<T>,
    pub end: RunEnd,
}

/// Gives turns to items until all are finished or one has failed, on so many workers, at least one. Each worker gives one
/// turn after the other, to the item that `Feedback` picks. An item that waits at one of these bells is ready once
/// that bell rings; one that waits at a bell of another number is never ready again. Want of memory drops all items.
pub fn run_on_workers<T: TakesTurns + Send, R>(
    rt: &R,
    alloc: Global,
    items: Vec<T>,
    workers: usize,
    quantum: u32,
    bells: u32,
) -> Result<Done<T>, Memory>
where
    R: Threads + Wait + Sync + RandomSource + AllocGlobal,
    ensures same { IfOk result (λ done. AllZip T.follows items.items done.items.items) }
    ensures end { IfOk result (λ done. IsEnd T.is_finished T.has_failed done.items.items done.end) }
{
    let (items, first) = run_listed::<T, Brand, R>(rt, alloc, items, workers, quantum, bells)?;
    let end = end_of(&items, first);
    Ok(Done { items, end })
}

/// Hands back all items, and the place of the one that failed first.
fn run_listed<T: TakesTurns + Send, J: Roster<T> + Send + Sync, R>(
    rt: &R,
    alloc: Global,
    items: Vec<T>,
    workers: usize,
    quantum: u32,
    bells: u32,
) -> Result<(Vec<T>, Option<usize>), Memory>
where
    R: Threads + Wait + Sync + RandomSource + AllocGlobal,
    requires { items.items ≡ J.came }
    ensures { IfOk result (λ r. AllZip T.follows J.came r.0.items) }
{
    let count = items.len();
    let mut pool: Pool<T, J> = Pool::new(alloc);
    pool.admit_all(items)?;
    let shared = Shared::new(alloc, pool, bells)?;
    thread::map_indices(
        rt,
        alloc,
        workers.max(1),
        &|_| work(rt, alloc, &shared, quantum),
    )?;
    let (returned, first) = shared.close(rt, bells)?;
    Ok((gather(alloc, returned, count)?, first))
}

/// One worker: gives turns until it is over.
fn work<T: TakesTurns, J: Roster<T>, R>(rt: &R, alloc: Global, shared: &Shared<T, J>, quantum: u32)
where
    R: Threads + Wait + Sync + RandomSource + AllocGlobal,
{
    let Ok(solo) = Solo::new(rt, Doorbell::spinning()) else {
        return shared.fall_short(rt);
    };
    for _ in rt.forever() {
        let Some((runner, at_work)) = shared.next(rt) else {
            break;
        };
        let turned = give_turn(rt, alloc, shared, &solo, runner, quantum);
        shared.settle(rt, at_work, turned);
    }
}

fn give_turn<T: TakesTurns, J: Roster<T>, R: Threads + Wait + Sync>(
    rt: &R,
    alloc: Global,
    shared: &Shared<T, J>,
    solo: &Solo,
    runner: Runner<T, J>,
    quantum: u32,
) -> AfterTurn<Runner<T, J>, Waiter<T, J>, Returned<T, J>> {
    let mut bells = PoolBells::new(alloc, shared);
    let mut cx = solo.begin();
    let turned = turn(rt, runner, quantum, &mut cx, &mut bells);
    cx.cancel();
    turned
}
