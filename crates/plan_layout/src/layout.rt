//! The layout of a plan.
ghost use Rattle.std.specs.Prelude.{◌≡◌, ◌+◌, ◌*◌, ◌++◌, ◌∷◌, [], map, length, IfOk, OnOk};
ghost use Rattle.plan_docs.specs.Nodes.{node_view};
ghost use Rattle.plan_docs.specs.Plans.{fragment_view, plan_view};
ghost use Rattle.plan_spreads.specs.Runs.{tasks_of};
ghost use Rattle.plan_layout.specs.Edges.{target_of};
ghost use Rattle.plan_layout.specs.Layouts.{driver_numbers, drivers_in, fragment_pipes, laid, lanes_in, layout_of, number_all, numbered, site_of, with_fetches};
ghost use Rattle.plan_layout.specs.Pipes.{pipe_view, target_view};
ghost use Rattle.plan_layout.specs.Sides.{pipes_of, site_view};

use crate::edges::{after, edge_numbers, fetches_of, target_of};
use crate::pipe::{Parallelism, Pipe, PipeTarget, Series};
use crate::sides::{Site, pipes_of};
use crate::sums::{add, multiply};
use plan_docs::{Fragment, Node, Placement, Plan};
use sql_values::Memory;
use std::alloc::Global;

/// The pipes of a plan, fragment by fragment.
#[derive(Drop)]
pub struct Layout<'p> {
    pub pipes: Vec<Pipe<'p>>,
}

impl<'p> Layout<'p> {
    /// The layout of a plan with so many tasks and drivers.
    pub fn of(alloc: Global, plan: &'p Plan, parallelism: Parallelism) -> Result<Layout<'p>, Memory>
        ensures { IfOk result (λ layout. map pipe_view layout.pipes.items
            ≡ layout_of parallelism (plan_view plan.now)) }
    {
        let mut pipes = Vec::new(alloc);
        let fragments = plan.fragments.as_slice();
        lay_all(alloc, parallelism, fragments, &mut pipes)?;
        Ok(Layout { pipes })
    }
}

fn lay_all<'p>(
    alloc: Global,
    parallelism: Parallelism,
    fragments: &'p [Fragment],
    pipes: &mut Vec<Pipe<'p>>,
) -> Result<(), Memory>
    ensures { OnOk result (map pipe_view pipes.new.items
        ≡ laid parallelism (map fragment_view fragments.now) 0 (map pipe_view pipes.old.items)
        (map fragment_view fragments.now)) }
{
    let mut number = 0;
    for fragment in fragments {
        let site = site_of(parallelism, fragments, number, fragment);
        lay_fragment(alloc, &site, fragment, pipes)?;
        number = add(number, 1)?;
    }
    Ok(())
}

/// One, or so many.
fn tasks_of(tasks: u32, placement: Placement) -> u32
    ensures { result ≡ tasks_of tasks placement }
{
    match placement {
        Placement::Single => 1,
        Placement::Source | Placement::Hash => tasks,
    }
}

fn site_of<'p>(
    parallelism: Parallelism,
    fragments: &'p [Fragment],
    number: u32,
    fragment: &Fragment,
) -> Site<'p>
    ensures { site_view result
        ≡ site_of parallelism (map fragment_view fragments.now) number (fragment_view fragment.now) }
{
    Site {
        fragments,
        fragment: number,
        tasks: tasks_of(parallelism.tasks, fragment.placement),
        drivers: tasks_of(parallelism.drivers, fragment.placement),
    }
}

/// Appends the pipes of a fragment.
fn lay_fragment<'p>(
    alloc: Global,
    site: &Site<'p>,
    fragment: &'p Fragment,
    pipes: &mut Vec<Pipe<'p>>,
) -> Result<(), Memory>
    ensures { OnOk result (map pipe_view pipes.new.items
        ≡ map pipe_view pipes.old.items
        ++ fragment_pipes (site_view site.now) (map pipe_view pipes.old.items)
        (target_of site.now.fragment (fragment_view fragment.now).output (map pipe_view pipes.old.items))
        (fragment_view fragment.now).root) }
{
    let target = target_of(site.fragment, &fragment.output, pipes.as_slice());
    let own = pipes_of(alloc, site, pipes.len(), target, &fragment.root)?;
    let own = with_fetches(alloc, pipes.as_slice(), own)?;
    number_all(own, pipes)
}

/// The pipes of a fragment, and what fetches for them.
fn with_fetches<'p>(
    alloc: Global,
    done: &[Pipe<'p>],
    mut own: Vec<Pipe<'p>>,
) -> Result<Vec<Pipe<'p>>, Memory>
    ensures { IfOk result (λ pipes. map pipe_view pipes.items
        ≡ with_fetches (map pipe_view done.now) (map pipe_view own.entry.items)) }
{
    let numbers = edge_numbers(done, own.as_slice())?;
    let mut fetches = fetches_of(alloc, numbers, done.len(), own.as_slice())?;
    own.append(&mut fetches)?;
    Ok(own)
}

/// The drivers of the pipes in one task.
fn lanes_in(pipes: &[Pipe<'_>]) -> Result<u32, Memory>
    ensures { IfOk result (λ n. n ≡ lanes_in (map pipe_view pipes.now)) }
{
    let mut sum = 0;
    for pipe in pipes {
        sum = add(sum, pipe.drivers)?;
    }
    Ok(sum)
}

/// The drivers of the pipes in all tasks.
fn drivers_in(pipes: &[Pipe<'_>]) -> Result<u32, Memory>
    ensures { IfOk result (λ n. n ≡ drivers_in (map pipe_view pipes.now)) }
{
    let mut sum = 0;
    for pipe in pipes {
        sum = add(sum, multiply(pipe.tasks, pipe.drivers)?)?;
    }
    Ok(sum)
}

fn driver_numbers(done: &[Pipe<'_>], pipes: &[Pipe<'_>]) -> Result<Series, Memory>
    ensures { IfOk result
        (λ s. s ≡ driver_numbers (map pipe_view done.now) (map pipe_view pipes.now)) }
{
    Ok(Series {
        first: drivers_in(done)?,
        stride: lanes_in(pipes)?,
    })
}

/// Appends the pipes with the numbers of their drivers.
fn number_all<'p>(own: Vec<Pipe<'p>>, pipes: &mut Vec<Pipe<'p>>) -> Result<(), Memory>
    ensures { OnOk result (map pipe_view pipes.new.items
        ≡ map pipe_view pipes.old.items
        ++ number_all (map pipe_view pipes.old.items) (map pipe_view own.entry.items)) }
{
    let numbers = driver_numbers(pipes.as_slice(), own.as_slice())?;
    push_numbered(own, numbers, pipes)
}

fn push_numbered<'p>(
    own: Vec<Pipe<'p>>,
    numbers: Series,
    pipes: &mut Vec<Pipe<'p>>,
) -> Result<(), Memory>
    ensures { OnOk result (map pipe_view pipes.new.items
        ≡ map pipe_view pipes.old.items ++ numbered numbers (map pipe_view own.entry.items)) }
{
    let mut next = numbers;
    for mut pipe in own {
        let after_it = after(pipe.drivers, next)?;
        pipe.numbers = next;
        pipes.push(pipe)?;
        next = after_it;
    }
    Ok(())
}
