//! The target of a driver.
ghost use Rattle.std.specs.Prelude.{◌≡◌, ℕ, All, length, map, IfOk, OnOk};
ghost use Rattle.std.specs.List.{range_with_len};
ghost use Rattle.output_buffer.specs.Seats.{GatherPutState, new_gather_put};
ghost use Rattle.driver_ends.specs.Targets.{FitsKind};
ghost use Rattle.driver_loop.specs.Ends.{target_made};
ghost use Rattle.plan_layout.specs.Pipes as form;
ghost use Rattle.plan_layout.specs.Pipes.{pipe_view, readers, side, takers, target_view};
ghost use Rattle.plan_spreads.specs.Runs.{output_view};
ghost use Rattle.source_laws.specs.Edges.{output_of};
ghost use Rattle.pipe_stages.specs.Nets.{IsTargetFor, NetForm, tasks_at};
ghost use Rattle.seat_stocks.specs.Labels.{IsLabelled, Labels};
ghost use Rattle.seat_stocks.specs.Lanes.{lane_at};
ghost use Rattle.seat_stocks.specs.Stocks.{AreLeft};
ghost use Rattle.net_parts.specs.Makings.{InNets, IsStocked};

use crate::builds::build_target;
use crate::making::Making;
use driver_ends::{DealTarget, PutKind, PutTarget};
use driver_loop::{ResultTarget, Target};
use output_buffer::{GatherPut, Partitioner};
use pipe_stages::given_at;
use plan_docs::Output;
use plan_layout::{Pipe, PipeTarget};
use plan_trees::copy_types;
use seat_stocks::Stock;
use sql_values::Memory;
use std::alloc::Global;

/// The target of a driver of the pipe at the place `own`, in a task.
pub fn target_of<'w>(
    making: &Making<'_, 'w>,
    stock: &mut Stock<'w>,
    own: usize,
    task: u32,
    target: PipeTarget<'_>,
) -> Result<Target<'w>, Memory>
    requires stocked { IsStocked making.now stock.old }
    ensures left { OnOk result (AreLeft stock.old stock.new) }
    ensures fresh { IfOk result (λ target. target_made target ≡ target) }
    ensures is { IfOk result (λ made. InNets making.now stock.old
        (λ net. IsTargetFor net own task (target_view target.entry) made)) }
{
    match target {
        PipeTarget::Result => result_target(making, own),
        PipeTarget::Cell(build) => build_target(making, own, task, build),
        PipeTarget::Side(at) => side_target(making, stock, at, task),
        PipeTarget::Readers(output, at) => readers_target(making, stock, output, at),
        PipeTarget::Takers(at) => deal_target(making, stock, at, task),
    }
}

/// The rows of the plan's result.
fn result_target<'w>(making: &Making<'_, 'w>, own: usize) -> Result<Target<'w>, Memory>
    ensures fresh { IfOk result (λ target. target_made target ≡ target) }
    ensures is { IfOk result (λ target. (net : NetForm) (task : ℕ) → IsTargetFor net own task form.result target) }
{
    let types = copy_types(making.alloc, given_at(making.types, own))?;
    Ok(Target::Result(ResultTarget::new(making.alloc, types)))
}

/// The edge of the union at a place, in the own task.
fn side_target<'w>(
    making: &Making<'_, 'w>,
    stock: &mut Stock<'w>,
    at: usize,
    task: u32,
) -> Result<Target<'w>, Memory>
    requires stocked { IsStocked making.now stock.old }
    ensures left { OnOk result (AreLeft stock.old stock.new) }
    ensures fresh { IfOk result (λ target. target_made target ≡ target) }
    ensures is { IfOk result (λ target. (own : ℕ) → InNets making.now stock.old
        (λ net. IsTargetFor net own task (side at) target)) }
{
    let lane = making.lanes.gather(at, task)?;
    let seats = Vec::from_array(making.alloc, [stock.put(lane)?])?;
    Ok(Target::Put(PutTarget::new(making.alloc, PutKind::One, seats)?))
}

/// The edges of the pipe at a place, which reads the fragment, in all its tasks.
fn readers_target<'w>(
    making: &Making<'_, 'w>,
    stock: &mut Stock<'w>,
    output: &Output,
    at: usize,
) -> Result<Target<'w>, Memory>
    requires stocked { IsStocked making.now stock.old }
    ensures left { OnOk result (AreLeft stock.old stock.new) }
    ensures fresh { IfOk result (λ target. target_made target ≡ target) }
    ensures is { IfOk result (λ target. (own task : ℕ) → InNets making.now stock.old
        (λ net. IsTargetFor net own task (readers output.now at) target)) }
{
    let tasks = tasks_at(making.pipes, at);
    let kind = kind_of(making.alloc, output, tasks)?;
    let seats = seats_to(making, stock, at, tasks)?;
    Ok(Target::Put(PutTarget::new(making.alloc, kind, seats)?))
}

/// How many tasks the pipe at a place has.
fn tasks_at(pipes: &[Pipe<'_>], at: usize) -> u32
    ensures { result ≡ tasks_at (map pipe_view pipes.now) at }
{
    match pipes.get(at) {
        Some(pipe) => pipe.tasks,
        None => 0,
    }
}

/// How an output spreads rows over so many tasks. Where it cannot, that is answered with want of memory.
fn kind_of(alloc: Global, output: &Output, tasks: u32) -> Result<PutKind, Memory>
    ensures fits { IfOk result (λ kind. FitsKind kind tasks) }
    ensures sends { IfOk result (λ kind. output_of kind ≡ output_view output.now) }
{
    match output {
        Output::Result | Output::Single if tasks == 1 => Ok(PutKind::One),
        Output::Broadcast if tasks > 0 => Ok(PutKind::Each),
        Output::Hash(columns) if tasks > 0 => {
            let columns = Vec::from_slice(alloc, columns.as_slice())?;
            Ok(PutKind::Hash(Partitioner::new(columns, tasks)))
        }
        _ => Err(Memory),
    }
}

/// A seat to the edge of each task of the pipe at a place.
fn seats_to<'w>(
    making: &Making<'_, 'w>,
    stock: &mut Stock<'w>,
    at: usize,
    tasks: u32,
) -> Result<Vec<GatherPut<'w>>, Memory>
    requires stocked { IsStocked making.now stock.old }
    ensures left { OnOk result (AreLeft stock.old stock.new) }
    ensures count { IfOk result (λ seats. length seats.items ≡ tasks) }
    ensures fresh { IfOk result (λ seats. All (λ seat. seat ≡ new_gather_put seat.edge seat.number) seats.items) }
    ensures edges { IfOk result (λ seats. (labels : Labels) → IsLabelled labels stock.old
        → map (λ (seat : GatherPutState). seat.edge) seats.items
        ≡ map (λ task. labels.gathers (lane_at making.now.lanes.now.gathers.items at task)) (range_with_len 0 tasks)) }
{
    let mut seats = Vec::new(making.alloc);
    for task in 0..tasks {
        let lane = making.lanes.gather(at, task)?;
        seats.push(stock.put(lane)?)?;
    }
    Ok(seats)
}

/// The edge to the drivers of the pipe at a place, in the own task.
fn deal_target<'w>(
    making: &Making<'_, 'w>,
    stock: &mut Stock<'w>,
    at: usize,
    task: u32,
) -> Result<Target<'w>, Memory>
    requires stocked { IsStocked making.now stock.old }
    ensures left { OnOk result (AreLeft stock.old stock.new) }
    ensures fresh { IfOk result (λ target. target_made target ≡ target) }
    ensures is { IfOk result (λ target. (own : ℕ) → InNets making.now stock.old
        (λ net. IsTargetFor net own task (takers at) target)) }
{
    let lane = making.lanes.spread(at, task)?;
    Ok(Target::Deal(DealTarget::new(stock.deal(lane)?)))
}
