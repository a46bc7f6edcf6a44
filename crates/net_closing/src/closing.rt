//! The end of a run.
ghost use Rattle.std.specs.Prelude.{◌≡◌, ℕ, IfOk, List, Some, map, slice_get};
ghost use Rattle.driver_loop.specs.Drivers.{DriverState};
ghost use Rattle.driver_net_laws.specs.Nets.{AreDriversOf, NetForm};
ghost use Rattle.driver_net_laws.specs.Settled.{AreSettled};
ghost use Rattle.plan_layout.specs.Pipes.{PipeForm, pipe_view};
ghost use Rattle.net_closing.specs.Back.{CameBack, HasNet, IsOfNet};
ghost use Rattle.net_closing.specs.Counts.{AreCounts};
ghost use Rattle.net_closing.specs.Left.{ArePartsOf, HoldsPassed};
ghost use Rattle.net_closing.specs.Results.{IsResultOf};
ghost use Rattle.net_closing.specs.Closing.{AreWholeDrivers};

use crate::counts::{PassedList, count_filters};
use crate::cover::cover_all;
use crate::notes::{are_followed, no_notes};
use crate::parts::{Parts, take_all};
use crate::result::take_result;
use crate::settle::settle_all;
use driver_loop::Driver;
use operator_core::HeldPages;
use plan_layout::Pipe;
use run_ports::Courier;
use sql_values::Memory;
use std::alloc::Global;

/// What the drivers of a layout came to.
#[derive(Drop)]
pub struct Closed {
    /// The rows that the driver of the result was given.
    pub rows: HeldPages,
    /// How many rows passed each dynamic filter that is waited for, in all drivers of its scan.
    pub passed: PassedList,
}

/// Takes the drivers of a layout apart. Where a seat is not there, or a driver knows of a cell what its builder does not,
/// memory counts as wanting.
pub fn close<C: Courier>(
    alloc: Global,
    layout: &[Pipe<'_>],
    drivers: Vec<Driver<'_, C>>,
) -> Result<Closed, Memory>
    requires whole { AreWholeDrivers drivers.items }
    requires net { HasNet (map pipe_view layout.now) drivers.items }
    ensures settled { IfOk result (λ _. (net : NetForm) → net.layout ≡ map pipe_view layout.now
        → AreDriversOf net drivers.entry.items → AreSettled net drivers.entry.items) }
    ensures rows { IfOk result (λ closed.
        IsResultOf (map pipe_view layout.now) drivers.entry.items closed.rows) }
    ensures passed { IfOk result (λ closed.
        AreCounts (map pipe_view layout.now) drivers.entry.items closed.passed) }
{
    cover_all(alloc, layout, drivers.len())?;
    let mut notes = no_notes(alloc);
    let mut parts = take_all(alloc, drivers, &mut notes)?;
    if !are_followed(&mut notes) {
        return Err(Memory);
    }
    settle(alloc, layout, &mut parts)
}

/// Gives back what the drivers shared, and gives what they came to.
fn settle(alloc: Global, layout: &[Pipe<'_>], parts: &mut Parts<'_>) -> Result<Closed, Memory>
    requires { IsOfNet (map pipe_view layout.now) parts.old }
    ensures back { IfOk result (λ _. (drivers : List DriverState) → ArePartsOf drivers parts.old
        → (at : ℕ) (pipe : PipeForm) → slice_get (map pipe_view layout.now) at ≡ Some pipe
        → CameBack (map pipe_view layout.now) drivers at pipe pipe.source) }
    ensures rows { IfOk result (λ closed. (drivers : List DriverState) → ArePartsOf drivers parts.old
        → IsResultOf (map pipe_view layout.now) drivers closed.rows) }
    ensures passed { IfOk result (λ closed. (drivers : List DriverState) → HoldsPassed drivers parts.old.passed.items
        → AreCounts (map pipe_view layout.now) drivers closed.passed) }
{
    let passed = count_filters(alloc, layout, parts.passed.as_slice())?;
    settle_all(alloc, layout, parts)?;
    let rows = take_result(layout, &mut parts.rows)?;
    Ok(Closed { rows, passed })
}
