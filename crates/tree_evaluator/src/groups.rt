ghost use Rattle.std.specs.Prelude.{◌≡◌, ◌+◌, ◌<◌, ◌++◌, length, map, IfOk, IsTrue, MatchResult};
ghost use Rattle.sql_functions.specs.CallTypes.{type_at};
ghost use Rattle.relation_laws.specs.Groups.{groups_of};
ghost use Rattle.relation_laws.specs.Verdicts.{keeps};
ghost use Rattle.plan_trees.specs.TreeTypes.{call_kind};
ghost use Rattle.accumulators.specs.Limits.{are_allowed};
ghost use Rattle.aggregation.specs.Tables.{verdicts_of};
ghost use Rattle.tree_evaluator.specs.Stops.{GroupStops};

use crate::leaves::constant_rows;
use crate::node_rows::NodeRows;
use crate::stop::EvalStop;
use aggregation::GroupTable;
use plan_trees::grouped_types;
use sql_values::{Call, EvalFault, Memory, RowList};
use std::alloc::Global;

/// The row of each group, its key and the results of the calls, or why one of the groups has none.
pub fn group_rows(
    alloc: Global,
    id: u32,
    keys: &[u32],
    calls: &[Call],
    rows: NodeRows,
) -> Result<NodeRows, EvalStop>
    requires some { 0 < length keys.now + length calls.now }
    requires allowed { IsTrue (are_allowed rows.types calls.now) }
    ensures { MatchResult result
        (λ n. (n.types ≡ map (type_at rows.types) keys.now ++ map (call_kind rows.types) calls.now)
        × (map keeps n.rows ≡ groups_of rows.types keys.now calls.now rows.rows))
        (GroupStops id (groups_of rows.types keys.now calls.now rows.rows)) }
{
    let types = grouped_types(alloc, rows.types(), keys, calls)?;
    let table = grouped(alloc, keys, calls, rows)?;
    match table.results(types.as_slice()) {
        Ok(held) => {
            held.rows_fit();
            let list = RowList::of_columns(alloc, held);
            Ok(constant_rows(alloc, &list, types.as_slice())?)
        }
        Err(EvalFault::Fail(kind)) => Err(EvalStop::ExprFailed { node: id, kind }),
        Err(EvalFault::Memory) => Err(EvalStop::Memory),
    }
}

/// The groups of all rows.
fn grouped(
    alloc: Global,
    keys: &[u32],
    calls: &[Call],
    mut rows: NodeRows,
) -> Result<GroupTable, Memory>
    requires { IsTrue (are_allowed rows.types calls.now) }
    ensures { IfOk result
        (λ table. verdicts_of table ≡ groups_of rows.types keys.now calls.now rows.rows) }
{
    let keys = Vec::from_slice(alloc, keys)?;
    let calls = Vec::from_slice(alloc, calls)?;
    let types = Vec::from_slice(alloc, rows.types())?;
    let mut table = GroupTable::new(alloc, keys, calls, types)?;
    while let Some(page) = rows.take_first() {
        table.add_page(&page)?;
    }
    table.groups_are_told();
    Ok(table)
}
