//! The types of all pipes of a layout.
ghost use Rattle.std.specs.Prelude.{◌≡◌, map, IfOk, OnOk};
ghost use Rattle.plan_layout.specs.Pipes.{pipe_view};
ghost use Rattle.driver_net_laws.specs.Types.{PipesAreTyped, PipeIsTyped};
ghost use Rattle.pipe_stages.specs.Tables.{types_in};

use crate::agree::{gives_to, takes_types};
use crate::run::last_types;
use crate::table::{PipeTypes, before_at, given_at, halved_at, taken_at};
use plan_layout::{Pipe, PipeSource};
use plan_trees::{are_same, copy_types};
use sql_values::{Memory, SqlType, Types};
use std::alloc::Global;

/// The types of all pipes of a layout, by their places. Where they do not fit together, that is answered with want of
/// memory.
pub fn types_of_pipes(alloc: Global, pipes: &[Pipe<'_>]) -> Result<Vec<PipeTypes>, Memory>
    ensures { IfOk result (λ table. PipesAreTyped (map pipe_view pipes.now) (types_in table.items)) }
{
    let table = work_out(alloc, pipes)?;
    check_all(alloc, pipes, table.as_slice())?;
    Ok(table)
}

/// Works out the types from the last pipe on.
fn work_out(alloc: Global, pipes: &[Pipe<'_>]) -> Result<Vec<PipeTypes>, Memory> {
    let mut table = Vec::new(alloc);
    for _pipe in pipes {
        table.push(PipeTypes::none(alloc))?;
    }
    for at in (0..pipes.len()).rev() {
        let types = types_of_pipe(alloc, pipes, table.as_slice(), at, &pipes[at])?;
        if let Some(place) = table.get_mut(at) {
            *place = types;
        }
    }
    Ok(table)
}

/// The types of a pipe by those of the pipes behind.
fn types_of_pipe(
    alloc: Global,
    pipes: &[Pipe<'_>],
    table: &[PipeTypes],
    at: usize,
    pipe: &Pipe<'_>,
) -> Result<PipeTypes, Memory> {
    let giver = giver_of(pipes, at);
    let taken = taken_of(alloc, given_at(table, giver), pipe.source)?;
    let halved = halved_of(alloc, before_at(table, giver), pipe.source)?;
    let last = last_types(
        alloc,
        table,
        halved.as_slice(),
        pipe.steps.as_slice(),
        taken.as_slice(),
    )?;
    Ok(PipeTypes {
        taken,
        before: last.before,
        halved,
        given: last.given,
    })
}

/// The place of the first pipe that gives to the one at a place; where there is none, one behind all.
fn giver_of(pipes: &[Pipe<'_>], at: usize) -> usize {
    for from in 0..pipes.len() {
        if gives_to(at, pipes[from].target) {
            return from;
        }
    }
    pipes.len()
}

/// The types that come from a source, where others give rows of these.
fn taken_of(alloc: Global, given: &[SqlType], source: PipeSource<'_>) -> Result<Types, Memory> {
    match source {
        PipeSource::Table(_, _, types) => copy_types(alloc, types.as_slice()),
        PipeSource::Rows(types, _) => copy_types(alloc, types.as_slice()),
        PipeSource::Sides | PipeSource::Fragment(_) => copy_types(alloc, given),
        PipeSource::Edge(..) => Ok(Types::new(alloc)),
    }
}

/// The types that a source is given as `halved`, where rows of these came to the last step of others.
fn halved_of(alloc: Global, before: &[SqlType], source: PipeSource<'_>) -> Result<Types, Memory> {
    match source {
        PipeSource::Fragment(_) => copy_types(alloc, before),
        PipeSource::Table(..) | PipeSource::Rows(..) | PipeSource::Sides | PipeSource::Edge(..) =>
            Ok(Types::new(alloc)),
    }
}

/// Holds the types of each pipe against those of the others.
fn check_all(alloc: Global, pipes: &[Pipe<'_>], table: &[PipeTypes]) -> Result<(), Memory>
    ensures { OnOk result (PipesAreTyped (map pipe_view pipes.now) (types_in table.now)) }
{
    for at in 0..pipes.len() {
        check(alloc, pipes, table, at, &pipes[at])?;
    }
    Ok(())
}

/// Holds the types of the pipe at a place against those of the others.
fn check(
    alloc: Global,
    pipes: &[Pipe<'_>],
    table: &[PipeTypes],
    at: usize,
    pipe: &Pipe<'_>,
) -> Result<(), Memory>
    ensures { OnOk result
        (PipeIsTyped (map pipe_view pipes.now) (types_in table.now) at (pipe_view pipe.now)) }
{
    let last = last_types(
        alloc,
        table,
        halved_at(table, at),
        pipe.steps.as_slice(),
        taken_at(table, at),
    )?;
    if takes_types(pipes, table, at, pipe.source)
        && are_same(before_at(table, at), last.before.as_slice())
        && are_same(given_at(table, at), last.given.as_slice())
    {
        Ok(())
    } else {
        Err(Memory)
    }
}
