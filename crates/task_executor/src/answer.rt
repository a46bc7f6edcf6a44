//! What a net gives whose drivers had their turns.
ghost use Rattle.std.specs.Prelude.{◌≡◌, List, None, Some, IfOk, IfSome, MatchResult};
ghost use Rattle.plan_docs.specs.Plans.{plan_view};
ghost use Rattle.plan_reader.specs.Trees.{tree_of};
ghost use Rattle.plan_trees.specs.Allowed.{Allows};
ghost use Rattle.operator_core.specs.Rows.{Row};
ghost use Rattle.driver_loop.specs.Drivers.{DriverState};
ghost use Rattle.driver_loop.specs.declared.run_fault.RunFault.{RunFault};
ghost use Rattle.net_laws.specs.Later.{AreLater};
ghost use Rattle.task_executor.specs.Nets.{FailsFor, IsNetOf, IsOverTables};
ghost use Rattle.net_closing.specs.Closing.{AreWholeDrivers};
ghost use Rattle.task_executor.specs.Passed.{HavePassed};
ghost use Rattle.task_executor.specs.Turns.{AreFailing, AreFinished};

use crate::result::{ResultPages, rows_of};
use driver_loop::{Driver, RunFault, Stage};
use net_closing::{Closed, PassedList, close};
use net_laws::{plans_fail, plans_give};
use plan_layout::Pipe;
use plan_reader::Plan;
use run_ports::Courier;
use std::alloc::Global;
use std::marker::PhantomData;

/// What a run gave.
#[derive(Drop)]
pub struct RunDone {
    pub rows: ResultPages,
    /// How many rows passed each dynamic filter that is waited for, by ascending id.
    pub passed: PassedList,
}

/// Takes the drivers of a net apart after their turns: gives the rows of the result, where all are finished, or the
/// fault of one that failed.
pub(crate) fn answer_of<C: Courier>(
    alloc: Global,
    plan: &Plan,
    pipes: &[Pipe<'_>],
    drivers: Vec<Driver<'_, C>>,
    failed: Option<RunFault>,
) -> Result<RunDone, RunFault>
    requires net { (before : List DriverState) × (tables : List (List Row))
        × IsOverTables tables (record { plan = plan.now; pipes = pipes.now; drivers = before })
        × AreLater before drivers.items }
    requires whole { AreWholeDrivers drivers.items }
    requires finished { failed ≡ None → AreFinished drivers.items }
    requires failing { IfSome failed (AreFailing drivers.items) }
    ensures answer { (before : List DriverState) (tables : List (List Row))
        → IsNetOf (plan_view plan.now) tables (record { plan = plan.now; pipes = pipes.now; drivers = before })
        → AreLater before drivers.entry.items
        → MatchResult result (λ done. Allows (tree_of (plan_view plan.now)) tables done.rows)
        (FailsFor (tree_of (plan_view plan.now)) tables) }
    ensures passed { (before : List DriverState) → AreLater before drivers.entry.items
        → IfOk result (λ done. HavePassed (record { plan = plan.now; pipes = pipes.now; drivers = before }) done.passed) }
{
    operator_core::laws::laws::<Stage<'_>>(PhantomData);
    plans_give(plan, PhantomData);
    plans_fail(plan, PhantomData);
    let Ok(closed) = close(alloc, pipes, drivers) else {
        return Err(RunFault::Memory);
    };
    if let Some(fault) = failed {
        return Err(fault);
    }
    let Closed { rows, passed } = closed;
    let Ok(rows) = rows_of(alloc, rows) else {
        return Err(RunFault::Memory);
    };
    Ok(RunDone { rows, passed })
}
