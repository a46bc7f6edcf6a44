//! The seats of one edge, or of one table, are taken, in the order in which `driver_net_laws` names them.
ghost use Rattle.std.specs.Prelude.{◌≡◌, ◌++◌, ◌∷◌, [], All, IfOk, List, OnOk, map};
ghost use Rattle.driver_loop.specs.Drivers.{DriverState};
ghost use Rattle.driver_net_laws.specs.Settled.{deals_from, deals_in, deals_into, in_pipe, in_task, puts_from, puts_into};
ghost use Rattle.plan_layout.specs.Pipes.{pipe_view};
ghost use Rattle.net_closing.specs.Held.{HoldsNoMore};
ghost use Rattle.net_closing.specs.Left.{AreLeft, at_place, outlets_of};
ghost use Rattle.net_closing.specs.Back.{FetchHasTask, SideHasTask};

use crate::held::take_seat;
use output_buffer::{GatherPut, SpreadPut};
use plan_layout::{Pipe, PipeTarget};
use sql_values::Memory;

/// Takes the seats at a place of the drivers of a pipe in a task, in their order, behind others.
pub(crate) fn collect_lanes<T: Drop>(
    rows: &mut Vec<Vec<Option<T>>>,
    place: u32,
    pipe: &Pipe<'_>,
    task: u32,
    seats: &mut Vec<T>,
) -> Result<(), Memory>
    ensures rest { OnOk result (HoldsNoMore rows.old.items rows.new.items) }
    ensures seats { OnOk result ((of : DriverState → List T) (drivers : List DriverState)
        → AreLeft of drivers rows.old.items → seats.new.items
        ≡ seats.old.items ++ in_task (at_place of place) drivers (pipe_view pipe.now) task) }
{
    for lane in 0..pipe.drivers {
        let number = pipe.number(task, lane)?;
        seats.push(take_seat(rows, number, place)?)?;
    }
    Ok(())
}

/// Takes those of its drivers in all tasks.
pub(crate) fn collect_tasks<T: Drop>(
    rows: &mut Vec<Vec<Option<T>>>,
    place: u32,
    pipe: &Pipe<'_>,
    seats: &mut Vec<T>,
) -> Result<(), Memory>
    ensures rest { OnOk result (HoldsNoMore rows.old.items rows.new.items) }
    ensures seats { OnOk result ((of : DriverState → List T) (drivers : List DriverState)
        → AreLeft of drivers rows.old.items → seats.new.items
        ≡ seats.old.items ++ in_pipe (at_place of place) drivers (pipe_view pipe.now)) }
{
    for task in 0..pipe.tasks {
        collect_lanes(rows, place, pipe, task, seats)?;
    }
    Ok(())
}

/// Takes the seats by which others put for the pipe at a place, to its edge in a task.
pub(crate) fn collect_puts<'w>(
    rows: &mut Vec<Vec<Option<GatherPut<'w>>>>,
    layout: &[Pipe<'_>],
    at: usize,
    task: u32,
    seats: &mut Vec<GatherPut<'w>>,
) -> Result<(), Memory>
    ensures rest { OnOk result (HoldsNoMore rows.old.items rows.new.items) }
    ensures tasks { OnOk result (All (SideHasTask at task) (map pipe_view layout.now)) }
    ensures seats { OnOk result ((drivers : List DriverState) → AreLeft outlets_of drivers rows.old.items
        → seats.new.items ≡ seats.old.items ++ puts_into (map pipe_view layout.now) drivers at task) }
{
    for pipe in layout {
        collect_puts_of(rows, pipe, at, task, seats)?;
    }
    Ok(())
}

/// Takes those of one pipe.
fn collect_puts_of<'w>(
    rows: &mut Vec<Vec<Option<GatherPut<'w>>>>,
    pipe: &Pipe<'_>,
    at: usize,
    task: u32,
    seats: &mut Vec<GatherPut<'w>>,
) -> Result<(), Memory>
    ensures rest { OnOk result (HoldsNoMore rows.old.items rows.new.items) }
    ensures task { OnOk result (SideHasTask at task (pipe_view pipe.now)) }
    ensures seats { OnOk result ((drivers : List DriverState) → AreLeft outlets_of drivers rows.old.items
        → seats.new.items ≡ seats.old.items
        ++ puts_from drivers at task (pipe_view pipe.now) (pipe_view pipe.now).target) }
{
    match pipe.target {
        PipeTarget::Side(other) => {
            if other != at {
                return Ok(());
            }
            if task >= pipe.tasks {
                return Err(Memory);
            }
            collect_lanes(rows, 0, pipe, task, seats)
        }
        PipeTarget::Readers(_, other) => {
            if other != at {
                return Ok(());
            }
            collect_tasks(rows, task, pipe, seats)
        }
        PipeTarget::Result => Ok(()),
        PipeTarget::Cell(_) => Ok(()),
        PipeTarget::Takers(_) => Ok(()),
    }
}

/// Takes the seats by which what fetches for the pipe at a place deals out in a task.
pub(crate) fn collect_deals<'w>(
    rows: &mut Vec<Vec<Option<SpreadPut<'w>>>>,
    layout: &[Pipe<'_>],
    at: usize,
    task: u32,
    seats: &mut Vec<SpreadPut<'w>>,
) -> Result<(), Memory>
    ensures rest { OnOk result (HoldsNoMore rows.old.items rows.new.items) }
    ensures tasks { OnOk result (All (FetchHasTask at task) (map pipe_view layout.now)) }
    ensures seats { OnOk result ((drivers : List DriverState) → AreLeft deals_in drivers rows.old.items
        → seats.new.items ≡ seats.old.items ++ deals_into (map pipe_view layout.now) drivers at task) }
{
    for pipe in layout {
        collect_deals_of(rows, pipe, at, task, seats)?;
    }
    Ok(())
}

/// Takes those of one pipe.
fn collect_deals_of<'w>(
    rows: &mut Vec<Vec<Option<SpreadPut<'w>>>>,
    pipe: &Pipe<'_>,
    at: usize,
    task: u32,
    seats: &mut Vec<SpreadPut<'w>>,
) -> Result<(), Memory>
    ensures rest { OnOk result (HoldsNoMore rows.old.items rows.new.items) }
    ensures task { OnOk result (FetchHasTask at task (pipe_view pipe.now)) }
    ensures seats { OnOk result ((drivers : List DriverState) → AreLeft deals_in drivers rows.old.items
        → seats.new.items ≡ seats.old.items
        ++ deals_from drivers at task (pipe_view pipe.now) (pipe_view pipe.now).target) }
{
    match pipe.target {
        PipeTarget::Takers(other) => {
            if other != at {
                return Ok(());
            }
            if task >= pipe.tasks {
                return Err(Memory);
            }
            collect_lanes(rows, 0, pipe, task, seats)
        }
        PipeTarget::Result => Ok(()),
        PipeTarget::Cell(_) => Ok(()),
        PipeTarget::Side(_) => Ok(()),
        PipeTarget::Readers(_, _) => Ok(()),
    }
}
