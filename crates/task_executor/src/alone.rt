//! A run on one thread.
ghost use Rattle.std.specs.Prelude.{◌≡◌, ◌<◌, List, None, Some, false, true, length, IfOk, IfSome, MatchResult};
ghost use Rattle.plan_docs.specs.Plans.{PlanForm};
ghost use Rattle.plan_reader.specs.Trees.{tree_of};
ghost use Rattle.plan_trees.specs.Allowed.{Allows};
ghost use Rattle.operator_core.specs.Rows.{Row};
ghost use Rattle.net_laws.specs.Later.{AreLater, IsLaterDriver};
ghost use Rattle.task_executor.specs.Nets.{FailsFor, IsNetOf};
ghost use Rattle.net_closing.specs.Closing.{AreWholeDrivers};
ghost use Rattle.task_executor.specs.Passed.{HavePassed};
ghost use Rattle.task_executor.specs.Turns.{AreFailing, AreFinished, AreUnfailed};

use crate::answer::{RunDone, answer_of};
use crate::net::Net;
use crate::run_bells::RunBells;
use crate::shape::Shape;
use driver_loop::{Driver, RunFault, Turn};
use futures::task::{Doorbell, Solo};
use run_ports::Courier;
use sql_values::Memory;
use std::alloc::Global;
use std::random::RandomSource;
use std::sync::Wait;
use std::thread::Threads;

/// Gives turns to the drivers of a net on this thread: first to those that the picks name, each modulo the
/// number of drivers, and then to each that is not finished.
pub fn run_alone<R, C>(
    rt: &R,
    alloc: Global,
    net: Net<'_, '_, C>,
    shape: &Shape,
    picks: &[u32],
) -> Result<RunDone, RunFault>
where
    R: Threads + Wait + Sync + RandomSource + AllocGlobal,
    C: Courier,
    ensures answer { (plan : PlanForm) (tables : List (List Row)) → IsNetOf plan tables net.entry
        → MatchResult result (λ done. Allows (tree_of plan) tables done.rows) (FailsFor (tree_of plan) tables) }
    ensures passed { IfOk result (λ done. HavePassed net.entry done.passed) }
{
    let Net {
        plan,
        pipes,
        mut drivers,
        bells,
    } = net;
    let Ok(solo) = Solo::new(rt, Doorbell::spinning()) else {
        return Err(RunFault::Memory);
    };
    let Ok(mut bells) = RunBells::new(alloc, bells) else {
        return Err(RunFault::Memory);
    };
    let Ok(failed) = drive_whole(rt, &solo, &mut drivers, &mut bells, shape.quantum, picks) else {
        return Err(RunFault::Memory);
    };
    answer_of(alloc, plan, pipes, drivers, failed)
}

/// Gives turns until each driver is finished, or an expression failed in one, which is reported.
fn drive_whole<R: Threads + Wait + Sync, C: Courier>(
    rt: &R,
    solo: &Solo,
    drivers: &mut Vec<Driver<'_, C>>,
    bells: &mut RunBells,
    quantum: u32,
    picks: &[u32],
) -> Result<Option<RunFault>, Memory>
    requires { AreUnfailed drivers.old.items }
    ensures later { AreLater drivers.old.items drivers.new.items }
    ensures whole { IfOk result (λ _. AreWholeDrivers drivers.new.items) }
    ensures finished { IfOk result (λ failed. failed ≡ None → AreFinished drivers.new.items) }
    ensures failing { IfOk result (λ failed. IfSome failed (AreFailing drivers.new.items)) }
{
    match drive(rt, solo, drivers, bells, quantum, picks) {
        Ok(()) => Ok(None),
        Err(RunFault::ExprFailed { node, kind }) => Ok(Some(RunFault::ExprFailed { node, kind })),
        Err(RunFault::Memory) => Err(Memory),
    }
}

/// Gives turns until each driver is finished: first to those that are picked, and then to each in turn.
fn drive<R: Threads + Wait + Sync, C: Courier>(
    rt: &R,
    solo: &Solo,
    drivers: &mut Vec<Driver<'_, C>>,
    bells: &mut RunBells,
    quantum: u32,
    picks: &[u32],
) -> Result<(), RunFault>
    requires { AreUnfailed drivers.old.items }
    ensures later { AreLater drivers.old.items drivers.new.items }
    ensures done { MatchResult result (λ _. AreUnfailed drivers.new.items × AreFinished drivers.new.items)
        (AreFailing drivers.new.items) }
{
    serve_picked(rt, solo, drivers, bells, quantum, picks)?;
    for _ in rt.forever() {
        if are_finished(drivers) {
            break;
        }
        serve_all(rt, solo, drivers, bells, quantum)?;
    }
    Ok(())
}

/// Gives a turn to each driver that is picked, unless it is finished. A pick counts round and round.
fn serve_picked<R: Threads + Wait + Sync, C: Courier>(
    rt: &R,
    solo: &Solo,
    drivers: &mut Vec<Driver<'_, C>>,
    bells: &mut RunBells,
    quantum: u32,
    picks: &[u32],
) -> Result<(), RunFault>
    requires { AreUnfailed drivers.old.items }
    ensures later { AreLater drivers.old.items drivers.new.items }
    ensures done { MatchResult result (λ _. AreUnfailed drivers.new.items) (AreFailing drivers.new.items) }
{
    for pick in picks {
        let Some(place) = (*pick as usize).checked_rem(drivers.len()) else {
            return Ok(());
        };
        serve(rt, solo, drivers, bells, place, quantum)?;
    }
    Ok(())
}

fn are_finished<C: Courier>(drivers: &Vec<Driver<'_, C>>) -> bool
    ensures { result ≡ true → AreFinished drivers.now.items }
{
    drivers.iter().all(|driver| driver.is_finished())
}

/// Gives a turn to each driver that is not finished.
fn serve_all<R: Threads + Wait + Sync, C: Courier>(
    rt: &R,
    solo: &Solo,
    drivers: &mut Vec<Driver<'_, C>>,
    bells: &mut RunBells,
    quantum: u32,
) -> Result<(), RunFault>
    requires { AreUnfailed drivers.old.items }
    ensures later { AreLater drivers.old.items drivers.new.items }
    ensures done { MatchResult result (λ _. AreUnfailed drivers.new.items) (AreFailing drivers.new.items) }
{
    for place in 0..drivers.len() {
        serve(rt, solo, drivers, bells, place, quantum)?;
    }
    Ok(())
}

/// Gives a turn to the driver at a place, unless it is finished.
fn serve<R: Threads + Wait + Sync, C: Courier>(
    rt: &R,
    solo: &Solo,
    drivers: &mut Vec<Driver<'_, C>>,
    bells: &mut RunBells,
    place: usize,
    quantum: u32,
) -> Result<(), RunFault>
    requires there { place < length drivers.old.items }
    requires unfailed { AreUnfailed drivers.old.items }
    ensures later { AreLater drivers.old.items drivers.new.items }
    ensures done { MatchResult result (λ _. AreUnfailed drivers.new.items) (AreFailing drivers.new.items) }
{
    if drivers[place].is_finished() {
        return Ok(());
    }
    give_turn(rt, solo, &mut drivers[place], bells, quantum)
}

/// Gives a turn. A driver that waits is asked again at its next one.
fn give_turn<R: Threads + Wait + Sync, C: Courier>(
    rt: &R,
    solo: &Solo,
    driver: &mut Driver<'_, C>,
    bells: &mut RunBells,
    quantum: u32,
) -> Result<(), RunFault>
    requires { (driver.old.is_finished ≡ false) × (driver.old.fault ≡ None) }
    ensures later { IsLaterDriver driver.old driver.new }
    ensures done { MatchResult result (λ _. driver.new.fault ≡ None)
        (λ fault. driver.new.fault ≡ Some fault) }
{
    let mut cx = solo.begin();
    let turn = driver.turn(rt, quantum, &mut cx, bells);
    cx.cancel();
    match turn {
        Turn::Yield => Ok(()),
        Turn::Blocked(_) => Ok(()),
        Turn::Finished => Ok(()),
        Turn::Failed(fault) => Err(fault),
    }
}
