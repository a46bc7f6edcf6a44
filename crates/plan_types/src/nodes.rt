ghost use Rattle.std.specs.Prelude.{◌≡◌, Ok, IfOk, MatchResult};
ghost use Rattle.sql_exprs.specs.Typing.{MisfitAt};
ghost use Rattle.plan_docs.specs.Nodes.{node_view};
ghost use Rattle.plan_docs.specs.Operators.{operator_view};
ghost use Rattle.plan_types.specs.Nodes.{node_types, operator_types, read_from};

use crate::operators::{
    aggregate_types, filter_types, join_types, project_types, sort_types, union_types, values_types,
};
use crate::row_types::{RowTypes, plain, whole_of};
use json_paths::{Key, Step, then};
use plan_docs::{Node, NodeOperator};
use plan_trees::copy_types;
use sql_exprs::Misfit;
use sql_values::{Memory, Types};
use std::alloc::Global;

/// The types of the fragments from one on.
#[derive(Clone, Copy)]
pub struct Later<'a> {
    pub first: usize,
    pub types: &'a [RowTypes],
}

fn read_from(alloc: Global, later: &Later<'_>, fragment: u32) -> Result<RowTypes, Memory>
    ensures { IfOk result
        (λ t. t ≡ read_from later.now.first later.now.types.now fragment) }
{
    let place = (fragment as usize).saturating_sub(later.first);
    match later.types.get(place) {
        Some(types) => types.copy(alloc),
        None => Ok(plain(Types::new(alloc))),
    }
}

/// The types of what an operator makes of rows of these types. The path is that of its node.
fn operator_types(
    alloc: Global,
    path: &[Step],
    operator: &NodeOperator,
    input: RowTypes,
) -> Result<RowTypes, Misfit>
    ensures { MatchResult result
        (λ t. operator_types path.now (operator_view operator.now) input ≡ Ok t)
        (MisfitAt (operator_types path.now (operator_view operator.now) input)) }
{
    match operator {
        NodeOperator::Filter { predicate } => filter_types(alloc, path, predicate, input),
        NodeOperator::Project { columns } => project_types(alloc, path, columns.as_slice(), input),
        NodeOperator::Aggregate { half, keys, calls } => aggregate_types(
            alloc,
            path,
            *half,
            keys.as_slice(),
            calls.as_slice(),
            &input,
        ),
        NodeOperator::AggregateFinal => Ok(plain(whole_of(input))),
        NodeOperator::Sort { keys } | NodeOperator::TopN { keys, .. } => {
            sort_types(alloc, path, keys.as_slice(), input)
        }
        NodeOperator::TopNFinal | NodeOperator::Limit { .. } | NodeOperator::LimitFinal => {
            Ok(plain(input.columns))
        }
    }
}

/// The types of the rows of the node at a path.
pub fn node_types(
    alloc: Global,
    later: &Later<'_>,
    path: &[Step],
    node: &Node,
) -> Result<RowTypes, Misfit>
    ensures { MatchResult result
        (λ t. node_types later.now.first later.now.types.now path.now (node_view node.now) ≡ Ok t)
        (MisfitAt (node_types later.now.first later.now.types.now path.now (node_view node.now))) }
{
    match node {
        Node::Scan { types, .. } => Ok(plain(copy_types(alloc, types.as_slice())?)),
        Node::Values { types, rows, .. } => values_types(alloc, path, types.as_slice(), rows),
        Node::Remote { fragment, .. } => Ok(read_from(alloc, later, *fragment)?),
        Node::Step {
            operator,
            input,
            ..
        } => {
            let inner = then(alloc, path, Step::Key(Key::Input))?;
            let input = node_types(alloc, later, inner.as_slice(), input)?;
            operator_types(alloc, path, operator, input)
        }
        Node::Join {
            on,
            left,
            right,
            ..
        } => {
            let inner = then(alloc, path, Step::Key(Key::Left))?;
            let left = node_types(alloc, later, inner.as_slice(), left)?;
            let inner = then(alloc, path, Step::Key(Key::Right))?;
            let right = node_types(alloc, later, inner.as_slice(), right)?;
            join_types(alloc, path, on.as_slice(), left, right)
        }
        Node::Union { left, right, .. } => {
            let inner = then(alloc, path, Step::Key(Key::Left))?;
            let left = node_types(alloc, later, inner.as_slice(), left)?;
            let inner = then(alloc, path, Step::Key(Key::Right))?;
            let right = node_types(alloc, later, inner.as_slice(), right)?;
            union_types(alloc, path, left, right)
        }
    }
}
