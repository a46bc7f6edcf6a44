//! The target of a driver that builds the right side of a join.
ghost use Rattle.std.specs.Prelude.{◌≡◌, ℕ, [], All, false, map, IfOk};
ghost use Rattle.driver_loop.specs.BuildFilters.{IsFilterOf, build_filter_made};
ghost use Rattle.driver_loop.specs.Ends.{target_made};
ghost use Rattle.plan_layout.specs.Pipes.{build_view, cell};
ghost use Rattle.pipe_stages.specs.Nets.{ArePartsFor, IsPartFor, IsTargetFor, NetForm, right_columns};
ghost use Rattle.seat_stocks.specs.Labels.{Labels};
ghost use Rattle.pipe_stages.specs.Cells.{HasFilterCells};
ghost use Rattle.net_parts.specs.Makings.{IsNetFor, typing_in};

use crate::making::Making;
use driver_loop::{BuildFilter, BuildTarget, Target};
use hash_join::LookupBuilder;
use pipe_stages::{FilterCells, given_at};
use plan_docs::{DynamicFilter, Pair};
use plan_layout::BuildSide;
use sql_values::Memory;
use std::alloc::Global;

/// What a join looks up, in the cell of the pipe at the place `own` in a task, with the filters of the join. Where its
/// rows have no column, that is answered with want of memory.
pub(crate) fn build_target<'w>(
    making: &Making<'_, 'w>,
    own: usize,
    task: u32,
    build: BuildSide<'_>,
) -> Result<Target<'w>, Memory>
    ensures fresh { IfOk result (λ target. target_made target ≡ target) }
    ensures is { IfOk result (λ target. (labels : Labels) (net : NetForm) → IsNetFor making.now labels net
        → IsTargetFor net own task (cell (build_view build.entry)) target) }
{
    let Some(cell) = making.cells.get(own, task as usize) else {
        return Err(Memory);
    };
    let on = build.on.as_slice();
    let filters = build.filters.as_slice();
    let filters = build_filters(making.alloc, making.filters, own, task, on, filters)?;
    let builder = builder_of(making, own, on)?;
    Ok(Target::Build(BuildTarget::new(builder, cell, filters)))
}

/// A builder of the rows of the pipe at a place, which are found by the right columns of these pairs.
fn builder_of(making: &Making<'_, '_>, own: usize, on: &[Pair]) -> Result<LookupBuilder, Memory>
    ensures { IfOk result (λ builder. builder ≡ record {
      keys = right_columns on.now;
      types = (typing_in making.now own).given;
      rows = [];
    }) }
{
    let types = Vec::from_slice(making.alloc, given_at(making.types, own))?;
    if types.is_empty() {
        return Err(Memory);
    }
    let keys = right_columns(making.alloc, on)?;
    Ok(LookupBuilder::new(making.alloc, keys, types)?)
}

/// The right columns of pairs.
fn right_columns(alloc: Global, on: &[Pair]) -> Result<Vec<u32>, Memory>
    ensures { IfOk result (λ columns. columns.items ≡ right_columns on.now) }
{
    let mut columns = Vec::with_capacity(alloc, on.len())?;
    for pair in on {
        columns.push(pair.right)?;
    }
    Ok(columns)
}

/// A filter for each of a join whose right side the pipe at the place `own` builds, in a task.
fn build_filters<'w>(
    alloc: Global,
    cells: &FilterCells<'w>,
    own: usize,
    task: u32,
    on: &[Pair],
    filters: &[DynamicFilter],
) -> Result<Vec<BuildFilter<'w>>, Memory>
    ensures starts { IfOk result (λ own. All (IsFilterOf [] false) own.items) }
    ensures fresh { IfOk result (λ own. map build_filter_made own.items ≡ own.items) }
    ensures are { IfOk result (λ made. (net : NetForm) → HasFilterCells net.links cells.now
        → ArePartsFor net own task on.now 0 filters.now made.items) }
{
    let mut made = Vec::new(alloc);
    for place in 0..filters.len() {
        made.push(build_filter(alloc, cells, own, task, on, place, filters[place])?)?;
    }
    Ok(made)
}

/// The one at a place among them: it publishes in the part of the task the domain of the right column of its pair.
/// What is not there is answered with want of memory.
fn build_filter<'w>(
    alloc: Global,
    cells: &FilterCells<'w>,
    own: usize,
    task: u32,
    on: &[Pair],
    place: usize,
    filter: DynamicFilter,
) -> Result<BuildFilter<'w>, Memory>
    ensures starts { IfOk result (IsFilterOf [] false) }
    ensures fresh { IfOk result (λ f. build_filter_made f ≡ f) }
    ensures is { IfOk result (λ f. (net : NetForm) → HasFilterCells net.links cells.now
        → IsPartFor net own task on.now place filter f) }
{
    let Some(cell) = cells.get(own, place) else {
        return Err(Memory);
    };
    let Some(pair) = on.get(filter.key as usize) else {
        return Err(Memory);
    };
    if cell.len() <= task as usize {
        return Err(Memory);
    }
    Ok(BuildFilter::new(alloc, pair.right, task, cell)?)
}
