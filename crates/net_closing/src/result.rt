//! The rows of the result.
ghost use Rattle.std.specs.Prelude.{◌≡◌, ◌<◌, ◌≤◌, ℕ, IfOk, List, Some, length, map, slice_get, true};
ghost use Rattle.driver_loop.specs.Drivers.{DriverState};
ghost use Rattle.plan_layout.specs.Pipes.{PipeForm, pipe_view};
ghost use Rattle.net_closing.specs.Results.{IsOnlyResult, IsResultOf, NoneGives, gives_result};
ghost use Rattle.net_closing.specs.Left.{AreLeft, handed_in};

use crate::held::take_seat;
use operator_core::HeldPages;
use plan_layout::{Pipe, PipeTarget};
use sql_values::Memory;

/// Takes the rows of the only driver of the only pipe that gives the result.
pub(crate) fn take_result(
    layout: &[Pipe<'_>],
    rows: &mut Vec<Vec<Option<HeldPages>>>,
) -> Result<HeldPages, Memory>
    ensures { IfOk result (λ given. (drivers : List DriverState)
        → AreLeft handed_in drivers rows.old.items
        → IsResultOf (map pipe_view layout.now) drivers given) }
{
    let at = only_result(layout)?;
    let pipe = &layout[at];
    if pipe.tasks != 1 || pipe.drivers != 1 {
        return Err(Memory);
    }
    let number = pipe.number(0, 0)?;
    take_seat(rows, number, 0)
}

/// The place of the only pipe that gives the result.
fn only_result(layout: &[Pipe<'_>]) -> Result<usize, Memory>
    ensures there { IfOk result (λ at. at < length layout.now) }
    ensures only { IfOk result (λ at. IsOnlyResult (map pipe_view layout.now) at) }
{
    let first = result_from(layout, 0);
    if first >= layout.len() {
        return Err(Memory);
    }
    if result_from(layout, first + 1) < layout.len() {
        return Err(Memory);
    }
    Ok(first)
}

/// The place of the first pipe from a place on that gives the result, or where the layout ends.
fn result_from(layout: &[Pipe<'_>], from: usize) -> usize
    requires { from ≤ length layout.now }
    ensures none { NoneGives (map pipe_view layout.now) from result }
    ensures within { (from ≤ result) × (result ≤ length layout.now) }
    ensures gives { (pipe : PipeForm) → slice_get (map pipe_view layout.now) result ≡ Some pipe
        → gives_result pipe.target ≡ true }
{
    let mut place = from;
    while place < layout.len() {
        if gives_result(&layout[place]) {
            return place;
        }
        place += 1;
    }
    place
}

/// Whether it does.
fn gives_result(pipe: &Pipe<'_>) -> bool
    ensures { result ≡ gives_result (pipe_view pipe.now).target }
{
    matches!(pipe.target, PipeTarget::Result)
}
