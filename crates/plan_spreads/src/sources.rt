ghost use Rattle.std.specs.Prelude.{◌≡◌, ◌-◌, map, None, MatchResult, option_map, unwrap_or};
ghost use Rattle.plan_docs.specs.declared.plan.Output.TheVariants as output;
ghost use Rattle.plan_docs.specs.Nodes.{node_view};
ghost use Rattle.plan_docs.specs.Operators.{operator_view};
ghost use Rattle.plan_docs.specs.Plans.{fragment_view};
ghost use Rattle.plan_types.specs.Faults.{StandsIn};
ghost use Rattle.plan_spreads.specs.Sources.{fits_reader, fragment_read, half_keys, keys_read, misread, operator_keys, output_of, root_keys, source_fault, step_keys};

use json_paths::{Key, Step, then};
use plan_docs::{Fragment, Node, NodeOperator, NodeStep, Output, Placement};
use plan_types::refused_at;
use sql_exprs::Misfit;
use std::alloc::Global;

/// A fragment as one that reads others: those after it, from `first` on.
#[derive(Clone, Copy)]
pub struct Reader<'a> {
    pub placement: Placement,
    pub first: usize,
    pub later: &'a [Fragment],
}

/// The fragment that a source reads, where it is one after its own.
pub fn fragment_read<'a>(reader: &Reader<'a>, fragment: u32) -> Option<&'a Fragment>
    ensures { option_map (λ f. fragment_view f.now) result
        ≡ fragment_read reader.now.first (map fragment_view reader.now.later.now) fragment }
{
    if (fragment as usize) < reader.first {
        return None;
    }
    reader.later.get(fragment as usize - reader.first)
}

/// Whether a reader of this placement takes rows that go there.
fn fits_reader(placement: Placement, output: &Output) -> bool
    ensures { result ≡ fits_reader placement output.now }
{
    match (placement, output) {
        (Placement::Single, Output::Single) => true,
        (Placement::Source, Output::Broadcast) => true,
        (Placement::Hash, Output::Broadcast) => true,
        (Placement::Hash, Output::Hash(_)) => true,
        _ => false,
    }
}

fn is_fit(reader: &Reader<'_>, fragment: u32) -> bool
    ensures { result ≡ fits_reader reader.now.placement
        (output_of (fragment_read reader.now.first (map fragment_view reader.now.later.now) fragment)) }
{
    match fragment_read(reader, fragment) {
        Some(read) => fits_reader(reader.placement, &read.output),
        None => fits_reader(reader.placement, &Output::Result),
    }
}

fn pass_source(
    alloc: Global,
    reader: &Reader<'_>,
    path: &[Step],
    fragment: u32,
) -> Result<(), Misfit>
    ensures { MatchResult result
        (λ _. source_fault reader.now.placement reader.now.first
        (map fragment_view reader.now.later.now) path.now fragment ≡ None)
        (StandsIn (source_fault reader.now.placement reader.now.first
        (map fragment_view reader.now.later.now) path.now fragment)) }
{
    if is_fit(reader, fragment) {
        return Ok(());
    }
    Err(refused_at(alloc, path))
}

/// Passes where each remote source of a node is sent what its reader needs, and else refuses the first that is not.
pub fn pass_sources(
    alloc: Global,
    reader: &Reader<'_>,
    path: &[Step],
    node: &Node,
) -> Result<(), Misfit>
    ensures { MatchResult result
        (λ _. misread reader.now.placement reader.now.first
        (map fragment_view reader.now.later.now) path.now (node_view node.now) ≡ None)
        (StandsIn (misread reader.now.placement reader.now.first
        (map fragment_view reader.now.later.now) path.now (node_view node.now))) }
{
    match node {
        Node::Scan { .. } | Node::Values { .. } => Ok(()),
        Node::Remote { fragment, .. } => pass_source(alloc, reader, path, *fragment),
        Node::Join { left, right, .. } | Node::Union { left, right, .. } => {
            let inner = then(alloc, path, Step::Key(Key::Left))?;
            pass_sources(alloc, reader, inner.as_slice(), left)?;
            let inner = then(alloc, path, Step::Key(Key::Right))?;
            pass_sources(alloc, reader, inner.as_slice(), right)
        }
        Node::Step { input, .. } => {
            let inner = then(alloc, path, Step::Key(Key::Input))?;
            pass_sources(alloc, reader, inner.as_slice(), input)
        }
    }
}

fn step_keys(step: NodeStep, keys: &[u32]) -> usize
    ensures { result ≡ step_keys step keys.now }
{
    match step {
        NodeStep::Partial => keys.len(),
        NodeStep::Single => 0,
    }
}

fn operator_keys(operator: &NodeOperator) -> usize
    ensures { result ≡ operator_keys (operator_view operator.now) }
{
    match operator {
        NodeOperator::Aggregate { half, keys, .. } => step_keys(*half, keys.as_slice()),
        _ => 0,
    }
}

fn half_keys(node: &Node) -> usize
    ensures { result ≡ half_keys (node_view node.now) }
{
    match node {
        Node::Step { operator, .. } => operator_keys(operator),
        Node::Scan { .. }
        | Node::Values { .. }
        | Node::Remote { .. }
        | Node::Join { .. }
        | Node::Union { .. } => 0,
    }
}

fn root_keys(reader: &Reader<'_>, fragment: u32) -> usize
    ensures { result ≡ root_keys
        (fragment_read reader.now.first (map fragment_view reader.now.later.now) fragment) }
{
    match fragment_read(reader, fragment) {
        Some(read) => half_keys(&read.root),
        None => 0,
    }
}

/// How many keys the other half of a FINAL aggregate over this input has.
pub fn keys_read(reader: &Reader<'_>, input: &Node) -> usize
    ensures { result ≡ keys_read reader.now.first (map fragment_view reader.now.later.now)
        (node_view input.now) }
{
    match input {
        Node::Remote { fragment, .. } => root_keys(reader, *fragment),
        Node::Scan { .. }
        | Node::Values { .. }
        | Node::Step { .. }
        | Node::Join { .. }
        | Node::Union { .. } => 0,
    }
}
