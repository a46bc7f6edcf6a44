//! What the drivers of a pipe share.
ghost use Rattle.std.specs.Prelude.{◌≡◌, ◌<◌, ◌*◌, IfOk, flat_map, length, map, max, option_map, replicate};
ghost use Rattle.plan_layout.specs.Pipes.{pipe_view};
ghost use Rattle.plan_wiring.specs.Bells.{AreNumbers, gather_bells, spread_bells};
ghost use Rattle.plan_wiring.specs.Shares.{cells_of, claims_of, filter_parts, gathers_of, new_edge, spreads_of};
ghost use Rattle.plan_wiring.specs.Wirings.{cell_bells, claims_view, filter_bells, gather_view, parts_of, spread_view};

use crate::bells::Bells;
use crate::counts::{drivers_of, fragment_putters, splits_of, union_putters};
use dyn_filter::FilterCell;
use hash_join::LookupCell;
use output_buffer::{Gather, Spread};
use plan_layout::{Pipe, PipeSource, PipeTarget};
use split_source::Claims;
use sql_values::{Memory, Table};
use std::alloc::Global;

/// For how many pieces an edge has room.
const ROOM: u32 = 32;

/// What the drivers of a pipe share with each other, or with those of another pipe.
#[derive(Drop)]
pub struct Shared {
    /// Of the splits of the table that the pipe reads.
    pub claims: Option<Claims>,
    /// To the pipe, one for each task.
    pub gathers: Vec<Gather>,
    /// To the pipe from what fetches for it, one for each task.
    pub spreads: Vec<Spread>,
    /// In which the pipe publishes, one for each task.
    pub cells: Vec<LookupCell>,
    /// In which it publishes domains, one for each dynamic filter, with a part for each task.
    pub filters: Vec<FilterCell>,
}

/// Claims of the splits of the table that a pipe reads, for its drivers in all tasks.
pub fn claims_of(
    alloc: Global,
    tables: &[Table],
    split: u32,
    pipe: &Pipe<'_>,
) -> Result<Option<Claims>, Memory>
    requires { 0 < split }
    ensures { IfOk result (λ claims. option_map claims_view claims
        ≡ claims_of tables.now split ((pipe_view pipe.now).tasks * (pipe_view pipe.now).drivers)
        (pipe_view pipe.now).source) }
{
    match pipe.source {
        PipeSource::Table(place, ..) => {
            let count = splits_of(tables, place, split)?;
            let seats = drivers_of(pipe)?;
            Ok(Some(Claims::new(alloc, count, seats.max(1))?))
        }
        PipeSource::Rows(..) | PipeSource::Sides | PipeSource::Fragment(_) | PipeSource::Edge(..) =>
            Ok(None),
    }
}

/// An edge of so many putters, with the next two bells.
fn new_gather(alloc: Global, putters: u32, bells: &mut Bells) -> Result<Gather, Memory>
    ensures is { IfOk result (λ gather. gather_view gather ≡ new_edge putters) }
    ensures bells { IfOk result
        (λ gather. AreNumbers bells.old.next (gather_bells gather) bells.new.next) }
{
    let piece = bells.take()?;
    let space = bells.take()?;
    Gather::new(alloc, putters.max(1), ROOM, piece, space)
}

/// An edge of so many takers, with the next two bells.
fn new_spread(alloc: Global, takers: u32, bells: &mut Bells) -> Result<Spread, Memory>
    ensures is { IfOk result (λ spread. spread_view spread ≡ new_edge takers) }
    ensures bells { IfOk result
        (λ spread. AreNumbers bells.old.next (spread_bells spread) bells.new.next) }
{
    let piece = bells.take()?;
    let space = bells.take()?;
    Spread::new(alloc, takers.max(1), ROOM, piece, space)
}

/// So many edges of so many putters.
fn new_gathers(
    alloc: Global,
    tasks: u32,
    putters: u32,
    bells: &mut Bells,
) -> Result<Vec<Gather>, Memory>
    ensures are { IfOk result
        (λ gathers. map gather_view gathers.items ≡ replicate tasks (new_edge putters)) }
    ensures bells { IfOk result
        (λ gathers. AreNumbers bells.old.next (flat_map gather_bells gathers.items) bells.new.next) }
{
    let mut gathers = Vec::new(alloc);
    for _task in 0..tasks {
        gathers.push(new_gather(alloc, putters, bells)?)?;
    }
    Ok(gathers)
}

/// So many edges of so many takers.
fn new_spreads(
    alloc: Global,
    tasks: u32,
    takers: u32,
    bells: &mut Bells,
) -> Result<Vec<Spread>, Memory>
    ensures are { IfOk result
        (λ spreads. map spread_view spreads.items ≡ replicate tasks (new_edge takers)) }
    ensures bells { IfOk result
        (λ spreads. AreNumbers bells.old.next (flat_map spread_bells spreads.items) bells.new.next) }
{
    let mut spreads = Vec::new(alloc);
    for _task in 0..tasks {
        spreads.push(new_spread(alloc, takers, bells)?)?;
    }
    Ok(spreads)
}

fn new_cells(alloc: Global, tasks: u32, bells: &mut Bells) -> Result<Vec<LookupCell>, Memory>
    ensures are { IfOk result (λ cells. length cells.items ≡ tasks) }
    ensures bells { IfOk result
        (λ cells. AreNumbers bells.old.next (cell_bells cells.items) bells.new.next) }
{
    let mut cells = Vec::new(alloc);
    for _task in 0..tasks {
        cells.push(LookupCell::new(alloc, bells.take()?))?;
    }
    Ok(cells)
}

/// So many cells, each with a part for each of so many tasks.
fn new_filters(
    alloc: Global,
    count: usize,
    tasks: u32,
    bells: &mut Bells,
) -> Result<Vec<FilterCell>, Memory>
    ensures are { IfOk result
        (λ cells. map parts_of cells.items ≡ replicate count (max tasks 1)) }
    ensures bells { IfOk result
        (λ cells. AreNumbers bells.old.next (filter_bells cells.items) bells.new.next) }
{
    let mut cells = Vec::new(alloc);
    for _filter in 0..count {
        let bell = bells.take()?;
        cells.push(FilterCell::new(alloc, tasks.max(1), bell)?)?;
    }
    Ok(cells)
}

/// An edge for each task, of many putters, to fetch from or to take a union from.
pub fn gathers_of(
    alloc: Global,
    layout: &[Pipe<'_>],
    own: usize,
    pipe: &Pipe<'_>,
    bells: &mut Bells,
) -> Result<Vec<Gather>, Memory>
    ensures are { IfOk result (λ gathers. map gather_view gathers.items
        ≡ gathers_of (map pipe_view layout.now) own (pipe_view pipe.now).tasks
        (pipe_view pipe.now).source) }
    ensures bells { IfOk result
        (λ gathers. AreNumbers bells.old.next (flat_map gather_bells gathers.items) bells.new.next) }
{
    match pipe.source {
        PipeSource::Edge(at, _) => {
            let putters = fragment_putters(at, layout)?;
            new_gathers(alloc, pipe.tasks, putters, bells)
        }
        PipeSource::Sides => {
            let putters = union_putters(own, layout)?;
            new_gathers(alloc, pipe.tasks, putters, bells)
        }
        PipeSource::Table(..) | PipeSource::Rows(..) | PipeSource::Fragment(_) => {
            new_gathers(alloc, 0, 0, bells)
        }
    }
}

/// An edge for each task, from what fetches to the drivers that read.
pub fn spreads_of(alloc: Global, pipe: &Pipe<'_>, bells: &mut Bells) -> Result<Vec<Spread>, Memory>
    ensures are { IfOk result (λ spreads. map spread_view spreads.items
        ≡ spreads_of (pipe_view pipe.now).tasks (pipe_view pipe.now).drivers
        (pipe_view pipe.now).source) }
    ensures bells { IfOk result
        (λ spreads. AreNumbers bells.old.next (flat_map spread_bells spreads.items) bells.new.next) }
{
    match pipe.source {
        PipeSource::Fragment(_) => new_spreads(alloc, pipe.tasks, pipe.drivers, bells),
        PipeSource::Table(..) | PipeSource::Rows(..) | PipeSource::Sides | PipeSource::Edge(..) =>
            new_spreads(alloc, 0, 0, bells),
    }
}

/// A cell for each task.
pub fn cells_of(
    alloc: Global,
    pipe: &Pipe<'_>,
    bells: &mut Bells,
) -> Result<Vec<LookupCell>, Memory>
    ensures are { IfOk result (λ cells. length cells.items
        ≡ cells_of (pipe_view pipe.now).tasks (pipe_view pipe.now).target) }
    ensures bells { IfOk result
        (λ cells. AreNumbers bells.old.next (cell_bells cells.items) bells.new.next) }
{
    match pipe.target {
        PipeTarget::Cell(_) => new_cells(alloc, pipe.tasks, bells),
        PipeTarget::Result
        | PipeTarget::Side(_)
        | PipeTarget::Readers(..)
        | PipeTarget::Takers(_) => new_cells(alloc, 0, bells),
    }
}

/// A cell for each dynamic filter of the join whose right side the pipe builds.
pub fn filters_of(
    alloc: Global,
    pipe: &Pipe<'_>,
    bells: &mut Bells,
) -> Result<Vec<FilterCell>, Memory>
    ensures are { IfOk result (λ cells. map parts_of cells.items
        ≡ filter_parts (pipe_view pipe.now).tasks (pipe_view pipe.now).target) }
    ensures bells { IfOk result
        (λ cells. AreNumbers bells.old.next (filter_bells cells.items) bells.new.next) }
{
    match pipe.target {
        PipeTarget::Cell(build) => new_filters(alloc, build.filters.len(), pipe.tasks, bells),
        PipeTarget::Result
        | PipeTarget::Side(_)
        | PipeTarget::Readers(..)
        | PipeTarget::Takers(_) => new_filters(alloc, 0, pipe.tasks, bells),
    }
}
