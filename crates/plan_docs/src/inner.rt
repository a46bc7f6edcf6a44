ghost use Rattle.std.specs.Prelude.{◌≡◌, IfOk};
ghost use Rattle.serde_json.specs.View.{view};
ghost use Rattle.plan_docs.specs.Nodes.{node_view, step as step_node};
ghost use Rattle.plan_docs.specs.Operators.{operator_view};
ghost use Rattle.plan_docs.specs.ReadNodes.{aggregate_of, filter_of, id_of, join_node, limit_of, project_of, sort_of, top_n_of, union_of};

use crate::exprs::{expr_under, read_all};
use crate::leaves::id_of;
use crate::node::{Node, NodeOperator};
use crate::parts::{calls_of, filters_of, numbers_of, pairs_of, sort_keys_of};
use crate::words::{half_of, join_named, small_under};
use json_paths::Key;
use plan_grammar::{StepWord, entries_under, text_under};
use serde_json::Value;
use sql_values::Memory;
use std::alloc::Global;

/// The node of this operator over its input.
fn over(node: &Value, operator: NodeOperator, input: Box<Node>) -> Node
    ensures { node_view result ≡ step_node (id_of (view node.now)) (operator_view operator) (node_view input.value) }
{
    Node::Step {
        id: id_of(node),
        operator,
        input,
    }
}

pub fn filter_of(alloc: Global, node: &Value, input: Box<Node>) -> Result<Node, Memory>
    ensures { IfOk result (λ n. node_view n ≡ filter_of (view node.now) (node_view input.value)) }
{
    let predicate = expr_under(alloc, node, Key::Predicate)?;
    Ok(over(node, NodeOperator::Filter { predicate }, input))
}

pub fn project_of(alloc: Global, node: &Value, input: Box<Node>) -> Result<Node, Memory>
    ensures { IfOk result (λ n. node_view n ≡ project_of (view node.now) (node_view input.value)) }
{
    let columns = read_all(alloc, entries_under(node, Key::Columns))?;
    Ok(over(node, NodeOperator::Project { columns }, input))
}

pub fn join_node(
    alloc: Global,
    node: &Value,
    left: Box<Node>,
    right: Box<Node>,
) -> Result<Node, Memory>
    ensures { IfOk result (λ n. node_view n
        ≡ join_node (view node.now) (node_view left.value) (node_view right.value)) }
{
    Ok(Node::Join {
        id: id_of(node),
        kind: join_named(text_under(node, Key::Kind)),
        on: pairs_of(alloc, entries_under(node, Key::On))?,
        left,
        right,
        filters: filters_of(alloc, entries_under(node, Key::Filters))?,
    })
}

pub fn aggregate_of(
    alloc: Global,
    step: StepWord,
    node: &Value,
    input: Box<Node>,
) -> Result<Node, Memory>
    ensures { IfOk result (λ n. node_view n
        ≡ aggregate_of step (view node.now) (node_view input.value)) }
{
    let operator = match step {
        StepWord::Final => NodeOperator::AggregateFinal,
        _ => NodeOperator::Aggregate {
            half: half_of(step),
            keys: numbers_of(alloc, entries_under(node, Key::Keys))?,
            calls: calls_of(alloc, entries_under(node, Key::Calls))?,
        },
    };
    Ok(over(node, operator, input))
}

pub fn sort_of(alloc: Global, node: &Value, input: Box<Node>) -> Result<Node, Memory>
    ensures { IfOk result (λ n. node_view n ≡ sort_of (view node.now) (node_view input.value)) }
{
    let keys = sort_keys_of(alloc, entries_under(node, Key::Keys))?;
    Ok(over(node, NodeOperator::Sort { keys }, input))
}

pub fn top_n_of(
    alloc: Global,
    step: StepWord,
    node: &Value,
    input: Box<Node>,
) -> Result<Node, Memory>
    ensures { IfOk result (λ n. node_view n
        ≡ top_n_of step (view node.now) (node_view input.value)) }
{
    let operator = match step {
        StepWord::Final => NodeOperator::TopNFinal,
        _ => NodeOperator::TopN {
            half: half_of(step),
            count: small_under(node, Key::Count),
            keys: sort_keys_of(alloc, entries_under(node, Key::Keys))?,
        },
    };
    Ok(over(node, operator, input))
}

pub fn limit_of(step: StepWord, node: &Value, input: Box<Node>) -> Node
    ensures { node_view result ≡ limit_of step (view node.now) (node_view input.value) }
{
    let operator = match step {
        StepWord::Final => NodeOperator::LimitFinal,
        _ => NodeOperator::Limit {
            half: half_of(step),
            count: small_under(node, Key::Count),
        },
    };
    over(node, operator, input)
}

pub fn union_of(node: &Value, left: Box<Node>, right: Box<Node>) -> Node
    ensures { node_view result
        ≡ union_of (view node.now) (node_view left.value) (node_view right.value) }
{
    Node::Union {
        id: id_of(node),
        left,
        right,
    }
}
