ghost use Rattle.std.specs.Prelude.{◌≡◌, IfOk};
ghost use Rattle.serde_json.specs.View.{view};
ghost use Rattle.plan_docs.specs.Nodes.{node_view};
ghost use Rattle.plan_docs.specs.ReadNodes.{id_of, nothing, remote_of, scan_of, values_of};

use crate::cells::read_rows;
use crate::names::{places_of, scanned_columns, table_of, types_named};
use crate::node::Node;
use crate::parts::kinds_of;
use crate::words::{small, small_under};
use json_paths::Key;
use plan_grammar::entries_under;
use serde_json::Value;
use sql_values::{Memory, RowList, Types};
use std::alloc::Global;

pub fn id_of(node: &Value) -> u32
    ensures { result ≡ id_of (view node.now) }
{
    small_under(node, Key::Id)
}

/// What stands for a node that is missing: no rows of no columns.
pub fn nothing(alloc: Global) -> Node
    ensures { node_view result ≡ nothing }
{
    Node::Values {
        id: 0,
        types: Types::new(alloc),
        rows: RowList::new(alloc),
    }
}

pub fn read_scan(alloc: Global, document: &Value, node: &Value) -> Result<Node, Memory>
    ensures { IfOk result (λ n. node_view n ≡ scan_of (view document.now) (view node.now)) }
{
    let columns = scanned_columns(document, node);
    let names = entries_under(node, Key::Columns);
    Ok(Node::Scan {
        id: id_of(node),
        table: small(table_of(document, node) as u64),
        columns: places_of(alloc, columns, names)?,
        types: types_named(alloc, columns, names)?,
    })
}

pub fn read_values(alloc: Global, node: &Value) -> Result<Node, Memory>
    ensures { IfOk result (λ n. node_view n ≡ values_of (view node.now)) }
{
    let types = kinds_of(alloc, entries_under(node, Key::Types))?;
    let rows = read_rows(alloc, types.as_slice(), entries_under(node, Key::Rows))?;
    Ok(Node::Values {
        id: id_of(node),
        types,
        rows,
    })
}

pub fn read_remote(node: &Value) -> Node
    ensures { node_view result ≡ remote_of (view node.now) }
{
    Node::Remote {
        id: id_of(node),
        fragment: small_under(node, Key::Fragment),
    }
}
