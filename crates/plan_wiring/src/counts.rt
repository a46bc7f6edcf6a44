//! How many put to an edge, and how many splits there are to claim.
ghost use Rattle.std.specs.Prelude.{◌≡◌, ◌+◌, ◌*◌, ◌<◌, IfOk, length, map};
ghost use Rattle.split_source.specs.Splits.{split_count};
ghost use Rattle.plan_layout.specs.Edges.{count_if};
ghost use Rattle.plan_layout.specs.Pipes.{pipe_view, target_view};
ghost use Rattle.plan_wiring.specs.Shares.{fragment_putters, gives_to_reader, gives_to_union, rows_at, union_putters};

use plan_layout::{Pipe, PipeTarget};
use split_source::split_count;
use sql_values::{Memory, Table};

/// The sum. More than 32 bits count is answered with want of memory.
fn add(left: u32, right: u32) -> Result<u32, Memory>
    ensures { IfOk result (λ n. n ≡ left + right) }
{
    left.checked_add(right).ok_or(Memory)
}

/// The drivers of a pipe in all tasks. More than 32 bits count is answered with want of memory.
pub fn drivers_of(pipe: &Pipe<'_>) -> Result<u32, Memory>
    ensures { IfOk result (λ n. n ≡ (pipe_view pipe.now).tasks * (pipe_view pipe.now).drivers) }
{
    pipe.tasks.checked_mul(pipe.drivers).ok_or(Memory)
}

fn count_if(is_so: bool, count: u32) -> u32
    ensures { result ≡ count_if is_so count }
{
    if is_so { count } else { 0 }
}

fn gives_to_reader(at: usize, target: PipeTarget<'_>) -> bool
    ensures { result ≡ gives_to_reader at (target_view target.entry) }
{
    match target {
        PipeTarget::Readers(_, pipe) => pipe == at,
        PipeTarget::Result | PipeTarget::Cell(_) | PipeTarget::Side(_) | PipeTarget::Takers(_) =>
            false,
    }
}

fn gives_to_union(at: usize, target: PipeTarget<'_>) -> bool
    ensures { result ≡ gives_to_union at (target_view target.entry) }
{
    match target {
        PipeTarget::Side(pipe) => pipe == at,
        PipeTarget::Result
        | PipeTarget::Cell(_)
        | PipeTarget::Readers(..)
        | PipeTarget::Takers(_) => false,
    }
}

/// The drivers, in all tasks, that put to each edge of the pipe at a place, which reads their fragment.
pub fn fragment_putters(at: usize, pipes: &[Pipe<'_>]) -> Result<u32, Memory>
    ensures { IfOk result (λ n. n ≡ fragment_putters at (map pipe_view pipes.now)) }
{
    let mut sum = 0;
    for pipe in pipes {
        let drivers = drivers_of(pipe)?;
        sum = add(sum, count_if(gives_to_reader(at, pipe.target), drivers))?;
    }
    Ok(sum)
}

/// The drivers, in one task, of the sides of the union at a place.
pub fn union_putters(at: usize, pipes: &[Pipe<'_>]) -> Result<u32, Memory>
    ensures { IfOk result (λ n. n ≡ union_putters at (map pipe_view pipes.now)) }
{
    let mut sum = 0;
    for pipe in pipes {
        sum = add(sum, count_if(gives_to_union(at, pipe.target), pipe.drivers))?;
    }
    Ok(sum)
}

/// How many rows the table at a place has; where there is none, no rows.
fn rows_in(tables: &[Table], place: u32) -> usize
    ensures { result ≡ length (rows_at tables.now place) }
{
    match tables.get(place as usize) {
        Some(table) => table.rows.len(),
        None => 0,
    }
}

/// How many splits the table at a place is read in. More rows than 32 bits count are answered with want of memory.
pub fn splits_of(tables: &[Table], place: u32, split: u32) -> Result<u32, Memory>
    requires { 0 < split }
    ensures { IfOk result (λ n. n ≡ split_count (length (rows_at tables.now place)) split) }
{
    match u32::try_from(rows_in(tables, place)) {
        Ok(rows) => Ok(split_count(rows, split)),
        Err(_) => Err(Memory),
    }
}
