//! The pipes of one fragment without those that fetch.
ghost use Rattle.std.specs.Prelude.{◌≡◌, ◌+◌, ◌++◌, ◌∷◌, [], map, IfOk, OnOk};
ghost use Rattle.plan_docs.specs.Nodes.{node_view};
ghost use Rattle.plan_layout.specs.Pipes.{pipe_view, target_view};
ghost use Rattle.plan_layout.specs.Sides.{built_for, pipe_of, pipes_of, sides_of, site_view};
ghost use Rattle.plan_layout.specs.Steps.{side_count};

use crate::pipe::{BuildSide, Pipe, PipeTarget, Series};
use crate::steps::{drivers_in_task, scan_read, side_count, source_of, steps_of};
use crate::sums::sum_of;
use plan_docs::{DynamicFilters, Fragment, Node};
use plan_trees::Pairs;
use sql_values::Memory;
use std::alloc::Global;

/// A fragment as it runs: its number among all, its tasks, and the drivers of a pipe in each.
#[derive(Clone, Copy)]
pub struct Site<'p> {
    pub fragments: &'p [Fragment],
    pub fragment: u32,
    pub tasks: u32,
    pub drivers: u32,
}

/// What a pipe has before its drivers are numbered.
pub const UNNUMBERED: Series = Series {
    first: 0,
    stride: 0,
};

fn pipe_of<'p>(
    alloc: Global,
    site: &Site<'p>,
    next: usize,
    target: PipeTarget<'p>,
    node: &'p Node,
) -> Result<Pipe<'p>, Memory>
    ensures { IfOk result (λ pipe. pipe_view pipe
        ≡ pipe_of (site_view site.now) next (target_view target.entry) (node_view node.now)) }
{
    let source = source_of(node);
    let steps = steps_of(alloc, site.fragments, next, node)?;
    Ok(Pipe {
        fragment: site.fragment,
        tasks: site.tasks,
        drivers: drivers_in_task(site.drivers, source, steps.as_slice(), target),
        numbers: UNNUMBERED,
        source,
        scan: scan_read(node),
        steps,
        target,
    })
}

/// The pipe of a node, with those that begin below it from the place `next` on.
fn push_pipe<'p>(
    alloc: Global,
    site: &Site<'p>,
    pipes: &mut Vec<Pipe<'p>>,
    next: usize,
    target: PipeTarget<'p>,
    node: &'p Node,
) -> Result<(), Memory>
    ensures { OnOk result (map pipe_view pipes.new.items
        ≡ map pipe_view pipes.old.items
        ++ pipe_of (site_view site.now) next (target_view target.entry) (node_view node.now) ∷ []) }
{
    pipes.push(pipe_of(alloc, site, next, target, node)?)?;
    Ok(())
}

/// The place behind those that begin below a node from the place `next` on.
fn place_behind(next: usize, node: &Node) -> Result<usize, Memory>
    ensures { IfOk result (λ place. place ≡ next + side_count (node_view node.now)) }
{
    sum_of(next, side_count(node)?)
}

/// The target of a join's right side.
fn built_for<'p>(id: u32, on: &'p Pairs, filters: &'p DynamicFilters) -> PipeTarget<'p>
    ensures { target_view result ≡ built_for id on.now filters.now }
{
    PipeTarget::Cell(BuildSide {
        join: id,
        on,
        filters,
    })
}

/// Those that begin below a node of the pipe `own`, from the place `next` on.
fn push_sides<'p>(
    alloc: Global,
    site: &Site<'p>,
    pipes: &mut Vec<Pipe<'p>>,
    own: usize,
    next: usize,
    node: &'p Node,
) -> Result<(), Memory>
    ensures { OnOk result (map pipe_view pipes.new.items
        ≡ map pipe_view pipes.old.items
        ++ sides_of (site_view site.now) own next (node_view node.now)) }
{
    match node {
        Node::Scan { .. } | Node::Values { .. } | Node::Remote { .. } => Ok(()),
        Node::Join {
            id,
            on,
            left,
            right,
            filters,
            ..
        } => {
            let target = built_for(*id, on, filters);
            let at = place_behind(next, left)?;
            let below = sum_of(at, 1)?;
            push_sides(alloc, site, pipes, own, next, left)?;
            push_pipe(alloc, site, pipes, below, target, right)?;
            push_sides(alloc, site, pipes, at, below, right)
        }
        Node::Union { left, right, .. } => {
            let below_left = sum_of(next, 1)?;
            let at = place_behind(below_left, left)?;
            let below = sum_of(at, 1)?;
            push_pipe(alloc, site, pipes, below_left, PipeTarget::Side(own), left)?;
            push_sides(alloc, site, pipes, next, below_left, left)?;
            push_pipe(alloc, site, pipes, below, PipeTarget::Side(own), right)?;
            push_sides(alloc, site, pipes, at, below, right)
        }
        Node::Step { input, .. } => push_sides(alloc, site, pipes, own, next, input),
    }
}

/// All of them, the first one at the place `at`.
pub fn pipes_of<'p>(
    alloc: Global,
    site: &Site<'p>,
    at: usize,
    target: PipeTarget<'p>,
    node: &'p Node,
) -> Result<Vec<Pipe<'p>>, Memory>
    ensures { IfOk result (λ pipes. map pipe_view pipes.items
        ≡ pipes_of (site_view site.now) at (target_view target.entry) (node_view node.now)) }
{
    let mut pipes = Vec::new(alloc);
    let next = sum_of(at, 1)?;
    push_pipe(alloc, site, &mut pipes, next, target, node)?;
    push_sides(alloc, site, &mut pipes, at, next, node)?;
    Ok(pipes)
}
