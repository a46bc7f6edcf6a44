//! What runs in the pipe of a node.
ghost use Rattle.std.specs.Prelude.{◌≡◌, ◌+◌, ◌++◌, ◌∷◌, [], map, IfOk, OnOk, option_map, slice_get};
ghost use Rattle.std.specs.List.{list_any};
ghost use Rattle.plan_docs.specs.Nodes.{node_view};
ghost use Rattle.plan_docs.specs.Operators.{operator_view};
ghost use Rattle.plan_docs.specs.Plans.{fragment_view};
ghost use Rattle.plan_layout.specs.Pipes.{probe, source_view, step_view, target_view};
ghost use Rattle.plan_layout.specs.Steps.{aggregate_step, builds, drivers_in_task, final_in, final_of, final_over, groups_rows, is_shared, operator_steps, other_half, scan_read, side_count, source_of, steps_of};

use crate::pipe::{PipeSource, PipeStep, PipeTarget};
use crate::sums::sum_of;
use plan_docs::{Fragment, Node, NodeOperator, NodeStep};
use plan_trees::{CallList, Pairs};
use sql_values::{JoinKind, Memory, Places};
use std::alloc::Global;

pub fn source_of(node: &Node) -> PipeSource<'_>
    ensures { source_view result ≡ source_of (node_view node.now) }
{
    match node {
        Node::Scan {
            table,
            columns,
            types,
            ..
        } => PipeSource::Table(*table, columns, types),
        Node::Values { types, rows, .. } => PipeSource::Rows(types, rows),
        Node::Remote { fragment, .. } => PipeSource::Fragment(*fragment),
        Node::Union { .. } => PipeSource::Sides,
        Node::Join { left, .. } => source_of(left),
        Node::Step { input, .. } => source_of(input),
    }
}

/// The number of the scan that is the source.
pub fn scan_read(node: &Node) -> Option<u32>
    ensures { result ≡ scan_read (node_view node.now) }
{
    match node {
        Node::Scan { id, .. } => Some(*id),
        Node::Values { .. } | Node::Remote { .. } | Node::Union { .. } => None,
        Node::Join { left, .. } => scan_read(left),
        Node::Step { input, .. } => scan_read(input),
    }
}

/// How many pipes begin below a node.
pub fn side_count(node: &Node) -> Result<usize, Memory>
    ensures { IfOk result (λ n. n ≡ side_count (node_view node.now)) }
{
    match node {
        Node::Scan { .. } | Node::Values { .. } | Node::Remote { .. } => Ok(0),
        Node::Join { left, right, .. } => {
            let count = side_count(left)?;
            sum_of(count, sum_of(1, side_count(right)?)?)
        }
        Node::Union { left, right, .. } => {
            let count = sum_of(1, side_count(left)?)?;
            sum_of(count, sum_of(1, side_count(right)?)?)
        }
        Node::Step { input, .. } => side_count(input),
    }
}

fn aggregate_step<'p>(
    id: u32,
    step: NodeStep,
    keys: &'p Places,
    calls: &'p CallList,
) -> PipeStep<'p>
    ensures { step_view result ≡ aggregate_step id step keys.now calls.now }
{
    match step {
        NodeStep::Single => PipeStep::Aggregate(id, keys, calls),
        NodeStep::Partial => PipeStep::Partial(id, keys, calls),
    }
}

/// One more step.
fn push_step<'p>(steps: &mut Vec<PipeStep<'p>>, step: PipeStep<'p>) -> Result<(), Memory>
    ensures { OnOk result (map step_view steps.new.items
        ≡ map step_view steps.old.items ++ step_view step.entry ∷ []) }
{
    steps.push(step)?;
    Ok(())
}

/// The step of a FINAL node whose source reads this root.
fn push_final<'p>(steps: &mut Vec<PipeStep<'p>>, id: u32, root: &'p Node) -> Result<(), Memory>
    ensures { OnOk result (map step_view steps.new.items
        ≡ map step_view steps.old.items ++ final_of id (node_view root.now)) }
{
    match root {
        Node::Step { operator, .. } => push_other_half(steps, id, operator),
        Node::Scan { .. }
        | Node::Values { .. }
        | Node::Remote { .. }
        | Node::Join { .. }
        | Node::Union { .. } => Ok(()),
    }
}

/// The FINAL half of an operator that is one of which a PARTIAL half may be read.
fn push_other_half<'p>(
    steps: &mut Vec<PipeStep<'p>>,
    id: u32,
    operator: &'p NodeOperator,
) -> Result<(), Memory>
    ensures { OnOk result (map step_view steps.new.items
        ≡ map step_view steps.old.items ++ other_half id (operator_view operator.now)) }
{
    match operator {
        NodeOperator::Aggregate { keys, calls, .. } => {
            push_step(steps, PipeStep::Final(id, keys, calls))
        }
        NodeOperator::TopN { count, keys, .. } => push_step(
            steps,
            PipeStep::TopN(id, *count, keys),
        ),
        NodeOperator::Limit { count, .. } => push_step(steps, PipeStep::Limit(id, *count)),
        NodeOperator::Filter { .. }
        | NodeOperator::Project { .. }
        | NodeOperator::Sort { .. }
        | NodeOperator::AggregateFinal
        | NodeOperator::TopNFinal
        | NodeOperator::LimitFinal => Ok(()),
    }
}

fn fragment_at<'p>(fragments: &'p [Fragment], number: u32) -> Option<&'p Fragment>
    ensures { option_map (λ f. fragment_view f.now) result
        ≡ slice_get (map fragment_view fragments.now) number }
{
    fragments.get(number as usize)
}

fn push_final_in<'p>(
    steps: &mut Vec<PipeStep<'p>>,
    id: u32,
    read: Option<&'p Fragment>,
) -> Result<(), Memory>
    ensures { OnOk result (map step_view steps.new.items
        ≡ map step_view steps.old.items ++ final_in id (option_map (λ f. fragment_view f.now) read.entry)) }
{
    match read {
        Some(fragment) => push_final(steps, id, &fragment.root),
        None => Ok(()),
    }
}

/// The step of a FINAL node over its input.
fn push_final_over<'p>(
    steps: &mut Vec<PipeStep<'p>>,
    fragments: &'p [Fragment],
    id: u32,
    input: &Node,
) -> Result<(), Memory>
    ensures { OnOk result (map step_view steps.new.items
        ≡ map step_view steps.old.items
        ++ final_over (map fragment_view fragments.now) id (node_view input.now)) }
{
    match input {
        Node::Remote { fragment, .. } => push_final_in(
            steps,
            id,
            fragment_at(fragments, *fragment),
        ),
        Node::Scan { .. }
        | Node::Values { .. }
        | Node::Step { .. }
        | Node::Join { .. }
        | Node::Union { .. } => Ok(()),
    }
}

/// The steps from the source up to a node. `next` is the place of the first pipe that begins below it.
pub fn steps_of<'p>(
    alloc: Global,
    fragments: &'p [Fragment],
    next: usize,
    node: &'p Node,
) -> Result<Vec<PipeStep<'p>>, Memory>
    ensures { IfOk result (λ steps. map step_view steps.items
        ≡ steps_of (map fragment_view fragments.now) next (node_view node.now)) }
{
    let mut steps = Vec::new(alloc);
    push_steps(&mut steps, fragments, next, node)?;
    Ok(steps)
}

/// The step of a join, behind those of its left side. `next` is the place of the first pipe that begins below it.
fn push_probe<'p>(
    steps: &mut Vec<PipeStep<'p>>,
    next: usize,
    id: u32,
    kind: JoinKind,
    on: &'p Pairs,
    left: &Node,
) -> Result<(), Memory>
    ensures { OnOk result (map step_view steps.new.items
        ≡ map step_view steps.old.items
        ++ probe id kind on.now (next + side_count (node_view left.now)) ∷ []) }
{
    let built = sum_of(next, side_count(left)?)?;
    push_step(steps, PipeStep::Probe(id, kind, on, built))
}

/// The step of an operator over its input, behind those of the input.
fn push_operator<'p>(
    steps: &mut Vec<PipeStep<'p>>,
    fragments: &'p [Fragment],
    id: u32,
    operator: &'p NodeOperator,
    input: &Node,
) -> Result<(), Memory>
    ensures { OnOk result (map step_view steps.new.items
        ≡ map step_view steps.old.items
        ++ operator_steps (map fragment_view fragments.now) id (operator_view operator.now)
        (node_view input.now)) }
{
    match operator {
        NodeOperator::Filter { predicate } => push_step(steps, PipeStep::Filter(id, predicate)),
        NodeOperator::Project { columns } => push_step(steps, PipeStep::Project(id, columns)),
        NodeOperator::Aggregate { half, keys, calls } => {
            push_step(steps, aggregate_step(id, *half, keys, calls))
        }
        NodeOperator::Sort { keys } => push_step(steps, PipeStep::Sort(id, keys)),
        NodeOperator::TopN { count, keys, .. } => push_step(
            steps,
            PipeStep::TopN(id, *count, keys),
        ),
        NodeOperator::Limit { count, .. } => push_step(steps, PipeStep::Limit(id, *count)),
        NodeOperator::AggregateFinal | NodeOperator::TopNFinal | NodeOperator::LimitFinal => {
            push_final_over(steps, fragments, id, input)
        }
    }
}

fn push_steps<'p>(
    steps: &mut Vec<PipeStep<'p>>,
    fragments: &'p [Fragment],
    next: usize,
    node: &'p Node,
) -> Result<(), Memory>
    ensures { OnOk result (map step_view steps.new.items
        ≡ map step_view steps.old.items
        ++ steps_of (map fragment_view fragments.now) next (node_view node.now)) }
{
    match node {
        Node::Scan { .. } | Node::Values { .. } | Node::Remote { .. } | Node::Union { .. } => Ok(
            (),
        ),
        Node::Join {
            id,
            kind,
            on,
            left,
            ..
        } => {
            push_steps(steps, fragments, next, left)?;
            push_probe(steps, next, *id, *kind, on, left)
        }
        Node::Step {
            id,
            operator,
            input,
        } => {
            push_steps(steps, fragments, next, input)?;
            push_operator(steps, fragments, *id, operator, input)
        }
    }
}

fn is_shared(source: PipeSource<'_>) -> bool
    ensures { result ≡ is_shared (source_view source.entry) }
{
    match source {
        PipeSource::Table(..) | PipeSource::Fragment(_) => true,
        PipeSource::Rows(..) | PipeSource::Sides | PipeSource::Edge(..) => false,
    }
}

fn groups_rows(step: PipeStep<'_>) -> bool
    ensures { result ≡ groups_rows (step_view step.entry) }
{
    match step {
        PipeStep::Aggregate(..) | PipeStep::Final(..) => true,
        PipeStep::Filter(..)
        | PipeStep::Project(..)
        | PipeStep::Probe(..)
        | PipeStep::Partial(..)
        | PipeStep::Sort(..)
        | PipeStep::TopN(..)
        | PipeStep::Limit(..) => false,
    }
}

fn any_groups_rows(steps: &[PipeStep<'_>]) -> bool
    ensures { result ≡ list_any groups_rows (map step_view steps.now) }
{
    for step in steps {
        if groups_rows(*step) {
            return true;
        }
    }
    false
}

fn builds(target: PipeTarget<'_>) -> bool
    ensures { result ≡ builds (target_view target.entry) }
{
    match target {
        PipeTarget::Cell(_) => true,
        PipeTarget::Result
        | PipeTarget::Side(_)
        | PipeTarget::Readers(..)
        | PipeTarget::Takers(_) => false,
    }
}

/// So many drivers where several may run it, and else one.
pub fn drivers_in_task(
    drivers: u32,
    source: PipeSource<'_>,
    steps: &[PipeStep<'_>],
    target: PipeTarget<'_>,
) -> u32
    ensures { result
        ≡ drivers_in_task drivers (source_view source.entry) (map step_view steps.now) (target_view target.entry) }
{
    if is_shared(source) && !any_groups_rows(steps) && !builds(target) {
        drivers
    } else {
        1
    }
}
