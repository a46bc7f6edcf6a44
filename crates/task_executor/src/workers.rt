//! A run on several workers.
ghost use Rattle.std.specs.Prelude.{◌≡◌, List, None, Some, is_some, true, IfOk, IfSome, MatchResult};
ghost use Rattle.worker_pool.specs.Gathered.{IsEnd};
ghost use Rattle.plan_docs.specs.Plans.{PlanForm};
ghost use Rattle.plan_reader.specs.Trees.{tree_of};
ghost use Rattle.plan_trees.specs.Allowed.{Allows};
ghost use Rattle.operator_core.specs.Rows.{Row};
ghost use Rattle.driver_loop.specs.Drivers.{DriverState, IsWhole};
ghost use Rattle.net_laws.specs.Later.{AreLater};
ghost use Rattle.task_executor.specs.Nets.{FailsFor, IsNetOf};
ghost use Rattle.net_closing.specs.Closing.{AreWholeDrivers};
ghost use Rattle.task_executor.specs.Passed.{HavePassed};
ghost use Rattle.task_executor.specs.Turns.{AreFailing, AreFinished};

use crate::answer::{RunDone, answer_of};
use crate::net::Net;
use crate::pooled::{drivers_of, pooled};
use crate::shape::Shape;
use driver_loop::{Driver, RunFault};
use run_ports::{Courier, Meet};
use sql_values::Memory;
use std::alloc::Global;
use std::random::RandomSource;
use std::sync::Wait;
use std::thread::Threads;
use worker_pool::{RunEnd, run_on_workers};

/// Gives turns to the drivers of a net on the workers of its shape, which share them, until all are finished or one
/// has failed. Each driver arrives at the meet when it has its first turn.
pub fn run_workers<R, C, M>(
    rt: &R,
    alloc: Global,
    net: Net<'_, '_, C>,
    shape: &Shape,
    meet: &M,
) -> Result<RunDone, RunFault>
where
    R: Threads + Wait + Sync + RandomSource + AllocGlobal,
    C: Courier + Send,
    M: Meet + Sync,
    ensures answer { (plan : PlanForm) (tables : List (List Row)) → IsNetOf plan tables net.entry
        → MatchResult result (λ done. Allows (tree_of plan) tables done.rows) (FailsFor (tree_of plan) tables) }
    ensures passed { IfOk result (λ done. HavePassed net.entry done.passed) }
{
    let Net {
        plan,
        pipes,
        drivers,
        bells,
    } = net;
    let Ok(turned) = share(rt, alloc, drivers, shape, bells, meet) else {
        return Err(RunFault::Memory);
    };
    answer_of(alloc, plan, pipes, turned.drivers, turned.failed)
}

/// Drivers that had their turns, and why they have no more: all are finished, or one has failed.
#[derive(Drop)]
struct SharedDrivers<'w, C: Courier> {
    drivers: Vec<Driver<'w, C>>,
    failed: Option<RunFault>,
}

/// Gives turns on the workers of a shape. Where a driver lacked memory, or all that are left wait for each other, it is for
/// want of memory that they have no more turns.
fn share<'w, R, C, M>(
    rt: &R,
    alloc: Global,
    drivers: Vec<Driver<'w, C>>,
    shape: &Shape,
    bells: u32,
    meet: &M,
) -> Result<SharedDrivers<'w, C>, Memory>
where
    R: Threads + Wait + Sync + RandomSource + AllocGlobal,
    C: Courier + Send,
    M: Meet + Sync,
    ensures later { IfOk result (λ turned. AreLater drivers.entry.items turned.drivers.items) }
    ensures whole { IfOk result (λ turned. AreWholeDrivers turned.drivers.items) }
    ensures finished { IfOk result (λ turned. turned.failed ≡ None → AreFinished turned.drivers.items) }
    ensures failing { IfOk result (λ turned. IfSome turned.failed (AreFailing turned.drivers.items)) }
{
    let shared = pooled(alloc, drivers, meet)?;
    let (workers, quantum) = (shape.workers, shape.quantum);
    let done = run_on_workers(rt, alloc, shared, workers as usize, quantum, bells)?;
    let drivers = drivers_of(alloc, done.items)?;
    let failed = fault_of(&drivers, &done.end)?;
    Ok(SharedDrivers { drivers, failed })
}

/// The fault that ended a run, if one did.
fn fault_of<C: Courier>(
    drivers: &Vec<Driver<'_, C>>,
    end: &RunEnd,
) -> Result<Option<RunFault>, Memory>
    requires { IsEnd (λ (d : DriverState). d.is_finished) (λ (d : DriverState). is_some d.fault) drivers.now.items end.now }
    ensures whole { IfOk result (λ _. AreWholeDrivers drivers.now.items) }
    ensures finished { IfOk result (λ failed. failed ≡ None → AreFinished drivers.now.items) }
    ensures failing { IfOk result (λ failed. IfSome failed (AreFailing drivers.now.items)) }
{
    if !are_whole(drivers) {
        return Err(Memory);
    }
    match end {
        RunEnd::Finished => Ok(None),
        RunEnd::Failed(place) => fault_at(drivers, *place),
        RunEnd::Stuck(_place) => Err(Memory),
    }
}

/// The fault of the driver at a place. That one without a fault is named does not happen.
fn fault_at<C: Courier>(
    drivers: &Vec<Driver<'_, C>>,
    place: usize,
) -> Result<Option<RunFault>, Memory>
    requires { AreWholeDrivers drivers.now.items }
    ensures some { IfOk result (λ failed. is_some failed ≡ true) }
    ensures failing { IfOk result (λ failed. IfSome failed (AreFailing drivers.now.items)) }
{
    if place >= drivers.len() {
        return Err(Memory);
    }
    match drivers[place].fault() {
        Some(fault) => Ok(Some(fault)),
        None => Err(Memory),
    }
}

fn are_whole<C: Courier>(drivers: &Vec<Driver<'_, C>>) -> bool
    ensures { result ≡ true → AreWholeDrivers drivers.now.items }
{
    drivers.iter().all(|driver| is_whole(driver))
}

/// Whether it lacked no memory.
fn is_whole<C: Courier>(driver: &Driver<'_, C>) -> bool
    ensures { result ≡ true → IsWhole driver.now.fault }
{
    !matches!(driver.fault(), Some(RunFault::Memory))
}
