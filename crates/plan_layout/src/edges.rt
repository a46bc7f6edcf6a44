//! The pipes that fetch what others read of other fragments.
ghost use Rattle.std.specs.Prelude.{◌≡◌, ◌+◌, ◌++◌, ◌∷◌, [], map, length, IfOk, unwrap_or};
ghost use Rattle.std.specs.List.{position_from};
ghost use Rattle.plan_layout.specs.Edges.{after, count_if, edge_numbers, edges_in, fetch_of, fetches_of, is_fragment, reader_of, reads, reads_edge, reads_fragment, sources_in, target_of};
ghost use Rattle.plan_layout.specs.Pipes.{pipe_view, source_view, target_view};

use crate::pipe::{Pipe, PipeSource, PipeTarget, Series};
use crate::sides::UNNUMBERED;
use crate::sums::{add, sum_of};
use plan_docs::Output;
use sql_values::Memory;
use std::alloc::Global;

fn reads_fragment(pipe: &Pipe<'_>) -> bool
    ensures { result ≡ reads_fragment (pipe_view pipe.now).source }
{
    matches!(pipe.source, PipeSource::Fragment(_))
}

fn reads_edge(pipe: &Pipe<'_>) -> bool
    ensures { result ≡ reads_edge (pipe_view pipe.now).source }
{
    matches!(pipe.source, PipeSource::Edge(..))
}

fn reads(number: u32, pipe: &Pipe<'_>) -> bool
    ensures { result ≡ reads number (pipe_view pipe.now) }
{
    match pipe.source {
        PipeSource::Fragment(fragment) => fragment == number,
        PipeSource::Table(..) | PipeSource::Rows(..) | PipeSource::Sides | PipeSource::Edge(..) =>
            false,
    }
}

fn place_of_reader(number: u32, pipes: &[Pipe<'_>]) -> Option<usize>
    ensures { result ≡ position_from (reads number) 0 (map pipe_view pipes.now) }
{
    for place in 0..pipes.len() {
        if reads(number, &pipes[place]) {
            return Some(place);
        }
    }
    None
}

/// The place of the pipe that reads the fragment.
fn reader_of(number: u32, pipes: &[Pipe<'_>]) -> usize
    ensures { result ≡ reader_of number (map pipe_view pipes.now) }
{
    place_of_reader(number, pipes).unwrap_or(0)
}

/// Where the rows of a fragment go.
pub fn target_of<'p>(number: u32, output: &'p Output, done: &[Pipe<'p>]) -> PipeTarget<'p>
    ensures { target_view result ≡ target_of number output.now (map pipe_view done.now) }
{
    if number == 0 {
        PipeTarget::Result
    } else {
        PipeTarget::Readers(output, reader_of(number, done))
    }
}

fn count_if(is_so: bool, count: u32) -> u32
    ensures { result ≡ count_if is_so count }
{
    if is_so { count } else { 0 }
}

/// How many of the pipes read a fragment.
fn sources_in(pipes: &[Pipe<'_>]) -> Result<u32, Memory>
    ensures { IfOk result (λ n. n ≡ sources_in (map pipe_view pipes.now)) }
{
    let mut sum = 0;
    for pipe in pipes {
        sum = add(sum, count_if(reads_fragment(pipe), 1))?;
    }
    Ok(sum)
}

/// One for each task in which a fragment is read.
fn edges_in(pipes: &[Pipe<'_>]) -> Result<u32, Memory>
    ensures { IfOk result (λ n. n ≡ edges_in (map pipe_view pipes.now)) }
{
    let mut sum = 0;
    for pipe in pipes {
        sum = add(sum, count_if(reads_edge(pipe), pipe.tasks))?;
    }
    Ok(sum)
}

/// The numbers of the first edge of each task.
pub fn edge_numbers(done: &[Pipe<'_>], own: &[Pipe<'_>]) -> Result<Series, Memory>
    ensures { IfOk result
        (λ s. s ≡ edge_numbers (map pipe_view done.now) (map pipe_view own.now)) }
{
    Ok(Series {
        first: edges_in(done)?,
        stride: sources_in(own)?,
    })
}

/// The numbers that come by so many after these.
pub fn after(count: u32, numbers: Series) -> Result<Series, Memory>
    ensures { IfOk result (λ s. s ≡ after count numbers) }
{
    Ok(Series {
        first: add(numbers.first, count)?,
        stride: numbers.stride,
    })
}

/// What fetches for the pipe at a place: one driver in each of its tasks.
fn fetch_of<'p>(alloc: Global, pipe: &Pipe<'p>, at: usize, numbers: Series) -> Pipe<'p>
    ensures { pipe_view result ≡ fetch_of (pipe_view pipe.now) at numbers }
{
    Pipe {
        fragment: pipe.fragment,
        tasks: pipe.tasks,
        drivers: 1,
        numbers: UNNUMBERED,
        source: PipeSource::Edge(at, numbers),
        scan: None,
        steps: Vec::new(alloc),
        target: PipeTarget::Takers(at),
    }
}

/// What fetches for each of the pipes that reads a fragment. The first pipe is at the place `at`.
pub fn fetches_of<'p>(
    alloc: Global,
    numbers: Series,
    at: usize,
    pipes: &[Pipe<'p>],
) -> Result<Vec<Pipe<'p>>, Memory>
    ensures { IfOk result (λ fetches. map pipe_view fetches.items
        ≡ fetches_of numbers at (map pipe_view pipes.now)) }
{
    let mut fetches = Vec::new(alloc);
    let mut next = numbers;
    let mut place = at;
    for pipe in pipes {
        if reads_fragment(pipe) {
            fetches.push(fetch_of(alloc, pipe, place, next))?;
            next = after(1, next)?;
        }
        place = sum_of(place, 1)?;
    }
    Ok(fetches)
}
