ghost use Rattle.std.specs.Prelude.{◌≡◌, map, Ok, IfOk, MatchResult};
ghost use Rattle.std.specs.Option.{ok_or};
ghost use Rattle.sql_exprs.specs.Typing.{MisfitAt};
ghost use Rattle.plan_docs.specs.Nodes.{node_view};
ghost use Rattle.plan_docs.specs.Operators.{operator_view};
ghost use Rattle.plan_docs.specs.Plans.{fragment_view};
ghost use Rattle.plan_spreads.specs.Nodes.{operator_spread, over_input, sides_spread, spread_of};
ghost use Rattle.plan_spreads.specs.Operators.{remote_spread};
ghost use Rattle.plan_spreads.specs.Sources.{fragment_read, output_of};

use crate::operators::{
    aggregate_spread, final_spread, first_rows_spread, join_spread, project_spread, remote_spread,
    scan_spread, union_spread,
};
use crate::sources::{Reader, fragment_read, keys_read};
use crate::spread::RowSpread;
use json_paths::{Key, Step, then};
use plan_docs::{Node, NodeOperator};
use plan_types::refused_at;
use sql_exprs::Misfit;
use sql_values::Memory;
use std::alloc::Global;

/// The spread, or a fault at the path where there is none.
fn placed(alloc: Global, path: &[Step], spread: Option<RowSpread>) -> Result<RowSpread, Misfit>
    ensures { MatchResult result (λ s. ok_or spread path.now ≡ Ok s)
        (MisfitAt (ok_or spread path.now)) }
{
    match spread {
        Some(spread) => Ok(spread),
        None => Err(refused_at(alloc, path)),
    }
}

fn spread_read(
    alloc: Global,
    reader: &Reader<'_>,
    fragment: u32,
) -> Result<Option<RowSpread>, Memory>
    ensures { IfOk result (λ s. s ≡ remote_spread
        (output_of (fragment_read reader.now.first (map fragment_view reader.now.later.now) fragment))) }
{
    match fragment_read(reader, fragment) {
        Some(read) => remote_spread(alloc, &read.output),
        None => Ok(None),
    }
}

/// The spread of what a remote source at the path gives.
fn source_spread(
    alloc: Global,
    reader: &Reader<'_>,
    path: &[Step],
    fragment: u32,
) -> Result<RowSpread, Misfit>
    ensures { MatchResult result
        (λ s. ok_or (remote_spread
        (output_of (fragment_read reader.now.first (map fragment_view reader.now.later.now) fragment))) path.now ≡ Ok s)
        (MisfitAt (ok_or (remote_spread
        (output_of (fragment_read reader.now.first (map fragment_view reader.now.later.now) fragment))) path.now)) }
{
    let spread = spread_read(alloc, reader, fragment)?;
    placed(alloc, path, spread)
}

/// The spread of an operator, other than a filter, over that of its one input.
fn operator_spread(
    alloc: Global,
    reader: &Reader<'_>,
    operator: &NodeOperator,
    input: &Node,
    below: RowSpread,
) -> Result<Option<RowSpread>, Memory>
    ensures { IfOk result (λ s. s ≡ operator_spread reader.now.placement reader.now.first
        (map fragment_view reader.now.later.now) (operator_view operator.now) (node_view input.now) below) }
{
    match operator {
        NodeOperator::Project { columns } => project_spread(alloc, columns.as_slice(), below),
        NodeOperator::Aggregate { half, keys, .. } => {
            aggregate_spread(alloc, *half, keys.as_slice(), below)
        }
        NodeOperator::AggregateFinal => {
            let keys = keys_read(reader, input);
            Ok(final_spread(reader.placement, keys, below))
        }
        NodeOperator::TopN { half, .. } | NodeOperator::Limit { half, .. } => {
            Ok(first_rows_spread(*half, below))
        }
        NodeOperator::Filter { .. }
        | NodeOperator::Sort { .. }
        | NodeOperator::TopNFinal
        | NodeOperator::LimitFinal => Ok(None),
    }
}

/// The spread of the rows of a node over one input at a path, where that of the input is known.
fn step_spread(
    alloc: Global,
    reader: &Reader<'_>,
    path: &[Step],
    operator: &NodeOperator,
    input: &Node,
    below: RowSpread,
) -> Result<RowSpread, Misfit>
    ensures { MatchResult result
        (λ s. over_input reader.now.placement reader.now.first (map fragment_view reader.now.later.now)
        path.now (operator_view operator.now) (node_view input.now) below ≡ Ok s)
        (MisfitAt (over_input reader.now.placement reader.now.first (map fragment_view reader.now.later.now)
        path.now (operator_view operator.now) (node_view input.now) below)) }
{
    match operator {
        NodeOperator::Filter { .. } => Ok(below),
        NodeOperator::Project { .. }
        | NodeOperator::Sort { .. }
        | NodeOperator::Aggregate { .. }
        | NodeOperator::AggregateFinal
        | NodeOperator::TopN { .. }
        | NodeOperator::TopNFinal
        | NodeOperator::Limit { .. }
        | NodeOperator::LimitFinal => {
            let spread = operator_spread(alloc, reader, operator, input, below)?;
            placed(alloc, path, spread)
        }
    }
}

/// The spread of an operator over those of its two sides.
fn sides_spread(node: &Node, left: RowSpread, right: RowSpread) -> Option<RowSpread>
    ensures { result ≡ sides_spread (node_view node.now) left right }
{
    match node {
        Node::Join { on, .. } => join_spread(on.as_slice(), left, right),
        Node::Union { .. } => union_spread(left, right),
        Node::Scan { .. } | Node::Values { .. } | Node::Remote { .. } | Node::Step { .. } => None,
    }
}

/// The spread of the rows of the node at a path.
pub fn spread_of(
    alloc: Global,
    reader: &Reader<'_>,
    path: &[Step],
    node: &Node,
) -> Result<RowSpread, Misfit>
    ensures { MatchResult result
        (λ s. spread_of reader.now.placement reader.now.first
        (map fragment_view reader.now.later.now) path.now (node_view node.now) ≡ Ok s)
        (MisfitAt (spread_of reader.now.placement reader.now.first
        (map fragment_view reader.now.later.now) path.now (node_view node.now))) }
{
    match node {
        Node::Scan { .. } => placed(alloc, path, scan_spread(reader.placement)),
        Node::Values { .. } => Ok(RowSpread::Every),
        Node::Remote { fragment, .. } => source_spread(alloc, reader, path, *fragment),
        Node::Step {
            operator,
            input,
            ..
        } => {
            let inner = then(alloc, path, Step::Key(Key::Input))?;
            let below = spread_of(alloc, reader, inner.as_slice(), input)?;
            step_spread(alloc, reader, path, operator, input, below)
        }
        Node::Join { left, right, .. } | Node::Union { left, right, .. } => {
            let inner = then(alloc, path, Step::Key(Key::Left))?;
            let left = spread_of(alloc, reader, inner.as_slice(), left)?;
            let inner = then(alloc, path, Step::Key(Key::Right))?;
            let right = spread_of(alloc, reader, inner.as_slice(), right)?;
            placed(alloc, path, sides_spread(node, left, right))
        }
    }
}
