ghost use Rattle.std.specs.Prelude.{◌≡◌, IfOk};
ghost use Rattle.serde_json.specs.View.{view};
ghost use Rattle.plan_grammar.specs.Words.{op_of};
ghost use Rattle.plan_docs.specs.Nodes.{node_view};
ghost use Rattle.plan_docs.specs.ReadNodes.{inner_under, node_at, node_by, node_form};

use crate::inner::{
    aggregate_of, filter_of, join_node, limit_of, project_of, sort_of, top_n_of, union_of,
};
use crate::leaves::{nothing, read_remote, read_scan, read_values};
use crate::node::Node;
use json_paths::Key;
use plan_grammar::{OpWord, op_of, step_of};
use serde_json::Value;
use sql_values::Memory;
use std::alloc::Global;

/// The node that a value writes, with the tables of the document.
#[tactic(auto, unfolding(crate::specs::ReadNodes::node_form))]
pub fn read_node(alloc: Global, document: &Value, node: &Value) -> Result<Node, Memory>
    ensures { IfOk result (λ n. node_view n ≡ node_form (view document.now) (view node.now)) }
{
    read_levels(alloc, document, 32, node)
}

/// The node with so many nodes above one another.
#[cycle(nodes)]
#[tactic(auto, using(crate::proofs::LevelLemmas::node_levels))]
fn read_levels(alloc: Global, document: &Value, levels: u32, node: &Value) -> Result<Node, Memory>
    ensures { IfOk result (λ n. node_view n
        ≡ node_at levels (view document.now) (view node.now)) }
{
    if levels == 0 {
        return Ok(nothing(alloc));
    }
    read_op(alloc, document, levels - 1, node)
}

#[cycle(nodes)]
fn read_op(alloc: Global, document: &Value, levels: u32, node: &Value) -> Result<Node, Memory>
    ensures { IfOk result (λ n. node_view n ≡ node_by (node_at levels (view document.now))
        (view document.now) (view node.now) (op_of (view node.now))) }
{
    match op_of(node) {
        OpWord::Scan => read_scan(alloc, document, node),
        OpWord::Values => read_values(alloc, node),
        OpWord::Remote => Ok(read_remote(node)),
        OpWord::Unknown => Ok(nothing(alloc)),
        OpWord::Filter => filter_of(
            alloc,
            node,
            read_inner(alloc, document, levels, node, Key::Input)?,
        ),
        OpWord::Project => project_of(
            alloc,
            node,
            read_inner(alloc, document, levels, node, Key::Input)?,
        ),
        OpWord::Aggregate => aggregate_of(
            alloc,
            step_of(node),
            node,
            read_inner(alloc, document, levels, node, Key::Input)?,
        ),
        OpWord::Sort => sort_of(
            alloc,
            node,
            read_inner(alloc, document, levels, node, Key::Input)?,
        ),
        OpWord::TopN => top_n_of(
            alloc,
            step_of(node),
            node,
            read_inner(alloc, document, levels, node, Key::Input)?,
        ),
        OpWord::Limit => Ok(limit_of(
            step_of(node),
            node,
            read_inner(alloc, document, levels, node, Key::Input)?,
        )),
        OpWord::Join => join_node(
            alloc,
            node,
            read_inner(alloc, document, levels, node, Key::Left)?,
            read_inner(alloc, document, levels, node, Key::Right)?,
        ),
        OpWord::Union => Ok(union_of(
            node,
            read_inner(alloc, document, levels, node, Key::Left)?,
            read_inner(alloc, document, levels, node, Key::Right)?,
        )),
    }
}

#[cycle(nodes)]
fn read_inner(
    alloc: Global,
    document: &Value,
    levels: u32,
    node: &Value,
    key: Key,
) -> Result<Box<Node>, Memory>
    ensures { IfOk result (λ b. node_view b.value
        ≡ inner_under (node_at levels (view document.now)) key (view node.now)) }
{
    match node.get(key.text()) {
        Some(inner) => Ok(Box::new(alloc, read_levels(alloc, document, levels, inner)?)?),
        None => Ok(Box::new(alloc, nothing(alloc))?),
    }
}
