//! The drivers of a laid out plan.
ghost use Rattle.std.specs.Prelude.{◌<◌, ◌≤◌, ℕ, All, map, IfOk, IsTrue};
ghost use Rattle.plan_wiring.specs.Handed.{AreUnused};
ghost use Rattle.plan_wiring.specs.Wirings.{IsWiringOf, share_view};
ghost use Rattle.net_parts.specs.Fits.{TablesFit};
ghost use Rattle.net_parts.specs.Stops.{rows_of_table};
ghost use Rattle.net_parts.specs.Pipes.{pipe_view};
ghost use Rattle.net_parts.specs.Makes.{LayoutFits};
ghost use Rattle.net_parts.specs.Types.{PipesAreTyped, PipeTypes};
ghost use Rattle.net_parts.specs.Makings.{AreFew};
ghost use Rattle.net_making.specs.Nets.{HasTask, IsNewNetOf};

use crate::cells::{cells_of, filter_cells_of};
use crate::pipes::make_all;
use net_parts::{Driver, Lanes, Layout, Making, Pipe, Stock, types_of_pipes};
use plan_wiring::Wiring;
use run_ports::Courier;
use sql_values::{Memory, Table};
use std::alloc::Global;

/// The drivers of a layout over its tables, by their numbers. The wiring was made for these. Splits have at most `split`
/// rows and pages at most `page`, and couriers deliver under the number `replay`. Where the types of pipes do not fit
/// together, or one has no task, that is answered with want of memory.
pub fn drivers_of<'w, C: Courier>(
    alloc: Global,
    layout: &Layout<'_>,
    tables: &'w [Table],
    wiring: &'w mut Wiring,
    split: u32,
    page: u32,
    replay: u64,
    courier: &C,
) -> Result<Vec<Driver<'w, C>>, Memory>
    requires fits { (types : ℕ → PipeTypes) → PipesAreTyped (map pipe_view layout.now.pipes.items) types
        → LayoutFits tables.now (map pipe_view layout.now.pipes.items) types }
    requires readable { TablesFit tables.now }
    requires few { AreFew tables.now }
    requires split { 0 < split }
    requires page { (0 < page) × (page ≤ 8192) }
    requires wired { IsWiringOf (map pipe_view layout.now.pipes.items) tables.now split wiring.old }
    requires unused { AreUnused (map share_view wiring.old.pipes.items) }
    ensures { IfOk result (λ drivers. IsNewNetOf (map pipe_view layout.now.pipes.items)
        (map rows_of_table tables.now) split drivers.items) }
{
    let pipes = layout.pipes.as_slice();
    if !have_tasks(pipes) {
        return Err(Memory);
    }
    let types = types_of_pipes(alloc, pipes)?;
    let lanes = Lanes::of(alloc, pipes)?;
    let seats = wiring.seats(alloc)?;
    let cells = cells_of(alloc, seats.as_slice())?;
    let filters = filter_cells_of(alloc, seats.as_slice())?;
    let stock = Stock::of(alloc, seats)?;
    let making = Making {
        alloc,
        pipes,
        types: types.as_slice(),
        tables,
        cells: &cells,
        filters: &filters,
        lanes: &lanes,
        split,
        page,
        replay,
    };
    make_all(&making, stock, courier)
}

/// Whether each pipe has a task.
fn have_tasks(pipes: &[Pipe<'_>]) -> bool
    ensures { IsTrue result → All (λ pipe. HasTask (pipe_view pipe)) pipes.now }
{
    pipes.iter().all(|pipe| pipe.tasks > 0)
}
