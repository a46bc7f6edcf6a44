//! Which lane a pipe and a task have.
ghost use Rattle.std.specs.Prelude.{◌≡◌, ◌+◌, IfOk};
ghost use Rattle.seat_stocks.specs.Lanes.{lane_at};

use plan_layout::{Pipe, PipeSource};
use sql_values::Memory;
use std::alloc::Global;

/// The first lane of the edges to each pipe, by its place; where there is none, any.
#[derive(Drop)]
pub struct Lanes {
    /// Into which others put for the pipe.
    pub gathers: Vec<u32>,
    /// From what fetches for the pipe to its drivers.
    pub spreads: Vec<u32>,
}

/// The lane of a task.
fn lane_at(firsts: &[u32], at: usize, task: u32) -> Result<usize, Memory>
    ensures { IfOk result (λ lane. lane ≡ lane_at firsts.now at task) }
{
    let first = firsts.get(at).copied().unwrap_or(0);
    let lane = first.checked_add(task).ok_or(Memory)?;
    Ok(lane as usize)
}

fn add(left: u32, right: u32) -> Result<u32, Memory>
    ensures { IfOk result (λ n. n ≡ left + right) }
{
    left.checked_add(right).ok_or(Memory)
}

impl Lanes {
    /// Those of a layout, in the order in which a stock has them.
    pub fn of(alloc: Global, pipes: &[Pipe<'_>]) -> Result<Lanes, Memory> {
        Ok(Lanes {
            gathers: first_gathers(alloc, pipes)?,
            spreads: first_spreads(alloc, pipes)?,
        })
    }

    /// The lane of the edge into which others put for the pipe at a place, in a task.
    pub fn gather(&self, at: usize, task: u32) -> Result<usize, Memory>
        ensures { IfOk result (λ lane. lane ≡ lane_at self.now.gathers.items at task) }
    {
        lane_at(&self.gathers, at, task)
    }

    /// The lane of the edge from what fetches for the pipe at a place, in a task.
    pub fn spread(&self, at: usize, task: u32) -> Result<usize, Memory>
        ensures { IfOk result (λ lane. lane ≡ lane_at self.now.spreads.items at task) }
    {
        lane_at(&self.spreads, at, task)
    }
}

/// The place of the pipe that the edges of this one go to, if it has some that others put into.
fn gathers_for(own: usize, source: PipeSource<'_>) -> Option<usize> {
    match source {
        PipeSource::Edge(at, _) => Some(at),
        PipeSource::Sides => Some(own),
        PipeSource::Table(..) | PipeSource::Rows(..) | PipeSource::Fragment(_) => None,
    }
}

/// A first lane for each pipe.
fn none_for(alloc: Global, pipes: &[Pipe<'_>]) -> Result<Vec<u32>, Memory> {
    let mut firsts = Vec::with_capacity(alloc, pipes.len())?;
    for _pipe in pipes {
        firsts.push(0)?;
    }
    Ok(firsts)
}

fn first_gathers(alloc: Global, pipes: &[Pipe<'_>]) -> Result<Vec<u32>, Memory> {
    let mut firsts = none_for(alloc, pipes)?;
    let mut next = 0;
    for own in 0..pipes.len() {
        if let Some(at) = gathers_for(own, pipes[own].source) {
            if let Some(first) = firsts.get_mut(at) {
                *first = next;
            }
            next = add(next, pipes[own].tasks)?;
        }
    }
    Ok(firsts)
}

fn first_spreads(alloc: Global, pipes: &[Pipe<'_>]) -> Result<Vec<u32>, Memory> {
    let mut firsts = Vec::with_capacity(alloc, pipes.len())?;
    let mut next = 0;
    for pipe in pipes {
        firsts.push(next)?;
        if matches!(pipe.source, PipeSource::Fragment(_)) {
            next = add(next, pipe.tasks)?;
        }
    }
    Ok(firsts)
}
