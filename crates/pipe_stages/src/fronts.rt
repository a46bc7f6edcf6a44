//! The stages in front of those for the steps of a pipe: one for each dynamic filter of its scan.
ghost use Rattle.std.specs.Prelude.{◌≡◌, map, IfOk};
ghost use Rattle.driver_net_laws.specs.Nets.{AreInFront, IsFilterFor, NetForm};
ghost use Rattle.pipe_stages.specs.Cells.{HasFilterCells};

use crate::cells::FilterCells;
use driver_loop::Stage;
use dyn_filter::FilterOp;
use operator_core::Operator;
use plan_layout::PlacedFilter;
use sql_values::{Memory, SqlType, Types};
use std::alloc::Global;

/// A stage for each filter, over rows of these types.
pub fn front_stages<'w>(
    alloc: Global,
    cells: &FilterCells<'w>,
    filters: &[PlacedFilter],
    taken: &[SqlType],
) -> Result<Vec<Stage<'w>>, Memory>
    ensures are { IfOk result (λ stages. (net : NetForm) → HasFilterCells net.links cells.now
        → AreInFront net taken.now filters.now stages.items) }
    ensures fresh { IfOk result
        (λ stages. map ⟦<Stage<'w> as Operator>⟧.as_made stages.items ≡ stages.items) }
{
    let mut stages = Vec::new(alloc);
    for filter in filters {
        stages.push(front_stage(alloc, cells, *filter, taken)?)?;
    }
    Ok(stages)
}

/// The stage of a filter, over rows of these types. Where the filter has no cell, that is answered with want of memory.
fn front_stage<'w>(
    alloc: Global,
    cells: &FilterCells<'w>,
    filter: PlacedFilter,
    taken: &[SqlType],
) -> Result<Stage<'w>, Memory>
    ensures is { IfOk result (λ stage. (net : NetForm) → HasFilterCells net.links cells.now
        → IsFilterFor net taken.now filter stage) }
    ensures fresh { IfOk result (λ stage. ⟦<Stage<'w> as Operator>⟧.as_made stage ≡ stage) }
{
    let Some(cell) = cells.get(filter.pipe, filter.place) else {
        return Err(Memory);
    };
    let types = Types::of(Vec::from_slice(alloc, taken)?);
    let op = FilterOp::new(alloc, cell, filter.filter.column, filter.filter.wait)?;
    Ok(Stage::Dynamic(op, types))
}
