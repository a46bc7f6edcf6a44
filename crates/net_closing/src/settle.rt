//! What drivers shared is given back: where each pipe takes its rows, all seats of that.
ghost use Rattle.std.specs.Prelude.{◌≡◌, ◌<◌, ◌∷◌, [], ℕ, IfOk, List, OnOk, Some, length, map, slice_get};
ghost use Rattle.driver_loop.specs.Drivers.{DriverState};
ghost use Rattle.driver_net_laws.specs.Settled.{GatherIsBack, SpreadIsBack, gather_takes_in, in_task, spread_takes_in};
ghost use Rattle.plan_layout.specs.Pipes.{PipeForm, pipe_view};
ghost use Rattle.net_closing.specs.Back.{CameBack, ClaimsAreBack, GathersAreBack, IsOfNet, IsReading, IsScanning, IsTakingFrom, SpreadsAreBack};
ghost use Rattle.net_closing.specs.Left.{ArePartsOf, StayParts};

use crate::collect::{collect_deals, collect_lanes, collect_puts, collect_tasks};
use crate::parts::Parts;
use output_buffer::{stop_gather, stop_spread};
use plan_layout::{Pipe, PipeSource};
use split_source::stop_claims;
use sql_values::Memory;
use std::alloc::Global;

/// Gives back what the drivers of all pipes shared to take their rows.
pub(crate) fn settle_all(
    alloc: Global,
    layout: &[Pipe<'_>],
    parts: &mut Parts<'_>,
) -> Result<(), Memory>
    requires { IsOfNet (map pipe_view layout.now) parts.old }
    ensures left { OnOk result (StayParts parts.old parts.new) }
    ensures back { OnOk result ((drivers : List DriverState) → ArePartsOf drivers parts.old
        → (at : ℕ) (pipe : PipeForm) → slice_get (map pipe_view layout.now) at ≡ Some pipe
        → CameBack (map pipe_view layout.now) drivers at pipe pipe.source) }
{
    for at in 0..layout.len() {
        settle_source(alloc, layout, parts, at)?;
    }
    Ok(())
}

/// Gives back what those of the pipe at a place shared.
fn settle_source(
    alloc: Global,
    layout: &[Pipe<'_>],
    parts: &mut Parts<'_>,
    at: usize,
) -> Result<(), Memory>
    requires there { at < length layout.now }
    requires net { IsOfNet (map pipe_view layout.now) parts.old }
    ensures left { OnOk result (StayParts parts.old parts.new) }
    ensures back { OnOk result ((drivers : List DriverState) → ArePartsOf drivers parts.old
        → (pipe : PipeForm) → slice_get (map pipe_view layout.now) at ≡ Some pipe
        → CameBack (map pipe_view layout.now) drivers at pipe pipe.source) }
{
    let pipe = &layout[at];
    match pipe.source {
        PipeSource::Table(_, _, _) => settle_claims(alloc, parts, pipe),
        PipeSource::Rows(_, _) => Ok(()),
        PipeSource::Sides => settle_gathers(alloc, layout, parts, pipe, at),
        PipeSource::Fragment(_) => settle_spreads(alloc, layout, parts, pipe, at),
        PipeSource::Edge(of, _) => settle_gathers(alloc, layout, parts, pipe, of),
    }
}

/// Gives back the seats by which the drivers of a pipe claimed the splits of a table, in all tasks.
fn settle_claims(alloc: Global, parts: &mut Parts<'_>, pipe: &Pipe<'_>) -> Result<(), Memory>
    requires { IsScanning parts.old (pipe_view pipe.now) }
    ensures left { OnOk result (StayParts parts.old parts.new) }
    ensures back { OnOk result ((drivers : List DriverState) → ArePartsOf drivers parts.old
        → ClaimsAreBack drivers (pipe_view pipe.now)) }
{
    let mut seats = Vec::new(alloc);
    collect_tasks(&mut parts.claims, 0, pipe, &mut seats)?;
    if seats.is_empty() {
        return Err(Memory);
    }
    stop_claims(seats);
    Ok(())
}

/// Gives back the seats of the edges from which a pipe takes in its tasks, into which others put for the one at a place.
fn settle_gathers(
    alloc: Global,
    layout: &[Pipe<'_>],
    parts: &mut Parts<'_>,
    pipe: &Pipe<'_>,
    of: usize,
) -> Result<(), Memory>
    requires { IsTakingFrom (map pipe_view layout.now) parts.old (pipe_view pipe.now) of }
    ensures left { OnOk result (StayParts parts.old parts.new) }
    ensures back { OnOk result ((drivers : List DriverState) → ArePartsOf drivers parts.old
        → GathersAreBack (map pipe_view layout.now) drivers of (pipe_view pipe.now)) }
{
    for task in 0..pipe.tasks {
        settle_gather(alloc, layout, parts, pipe, of, task)?;
    }
    Ok(())
}

/// Gives back those of one task.
fn settle_gather(
    alloc: Global,
    layout: &[Pipe<'_>],
    parts: &mut Parts<'_>,
    pipe: &Pipe<'_>,
    of: usize,
    task: u32,
) -> Result<(), Memory>
    requires taker { IsTakingFrom (map pipe_view layout.now) parts.old (pipe_view pipe.now) of }
    requires there { task < pipe.now.tasks }
    ensures left { OnOk result (StayParts parts.old parts.new) }
    ensures back { OnOk result ((drivers : List DriverState) → ArePartsOf drivers parts.old
        → GatherIsBack (map pipe_view layout.now) drivers of task
        (in_task gather_takes_in drivers (pipe_view pipe.now) task)) }
{
    let mut takes = Vec::new(alloc);
    collect_lanes(&mut parts.gather_takes, 0, pipe, task, &mut takes)?;
    let take = only(takes)?;
    let mut puts = Vec::new(alloc);
    collect_puts(&mut parts.puts, layout, of, task, &mut puts)?;
    if puts.len() != take.putters() as usize {
        return Err(Memory);
    }
    stop_gather(puts, take);
    Ok(())
}

/// Gives back the seats of the edges from what fetches for the pipe at a place, in its tasks.
fn settle_spreads(
    alloc: Global,
    layout: &[Pipe<'_>],
    parts: &mut Parts<'_>,
    pipe: &Pipe<'_>,
    at: usize,
) -> Result<(), Memory>
    requires { IsReading (map pipe_view layout.now) parts.old (pipe_view pipe.now) at }
    ensures left { OnOk result (StayParts parts.old parts.new) }
    ensures back { OnOk result ((drivers : List DriverState) → ArePartsOf drivers parts.old
        → SpreadsAreBack (map pipe_view layout.now) drivers at (pipe_view pipe.now)) }
{
    for task in 0..pipe.tasks {
        settle_spread(alloc, layout, parts, pipe, at, task)?;
    }
    Ok(())
}

/// Gives back those of one task.
fn settle_spread(
    alloc: Global,
    layout: &[Pipe<'_>],
    parts: &mut Parts<'_>,
    pipe: &Pipe<'_>,
    at: usize,
    task: u32,
) -> Result<(), Memory>
    requires reader { IsReading (map pipe_view layout.now) parts.old (pipe_view pipe.now) at }
    requires there { task < pipe.now.tasks }
    ensures left { OnOk result (StayParts parts.old parts.new) }
    ensures back { OnOk result ((drivers : List DriverState) → ArePartsOf drivers parts.old
        → SpreadIsBack (map pipe_view layout.now) drivers at task
        (in_task spread_takes_in drivers (pipe_view pipe.now) task)) }
{
    let mut puts = Vec::new(alloc);
    collect_deals(&mut parts.deals, layout, at, task, &mut puts)?;
    let put = only(puts)?;
    let mut takes = Vec::new(alloc);
    collect_lanes(&mut parts.spread_takes, 0, pipe, task, &mut takes)?;
    if takes.is_empty() {
        return Err(Memory);
    }
    if takes.len() != put.takers() as usize {
        return Err(Memory);
    }
    stop_spread(put, takes);
    Ok(())
}

/// The one seat that there is.
fn only<T: Drop>(mut seats: Vec<T>) -> Result<T, Memory>
    ensures { IfOk result (λ seat. seats.items ≡ seat ∷ []) }
{
    let Some(seat) = seats.pop() else {
        return Err(Memory);
    };
    if !seats.is_empty() {
        return Err(Memory);
    }
    Ok(seat)
}
