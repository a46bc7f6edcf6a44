ghost use Rattle.std.specs.Prelude.{◌≡◌, IfOk};
ghost use Rattle.std.specs.List.{position_from};
ghost use Rattle.plan_types.specs.Aggregates.{has_column, is_short, is_summed, step_types, takes, takes_not, whole_types};

use crate::row_types::{RowTypes, plain};
use plan_docs::NodeStep;
use plan_trees::{grouped_types, partial_types, type_at};
use sql_values::{Call, Memory, SqlType, Types};
use std::alloc::Global;

fn is_short(kind: SqlType) -> bool
    ensures { result ≡ is_short kind }
{
    match kind {
        SqlType::Decimal { p, .. } => p <= 18,
        _ => false,
    }
}

fn has_column(types: &[SqlType], column: u32) -> bool
    ensures { result ≡ has_column types.now column }
{
    (column as usize) < types.len()
}

/// Whether the call has an argument, where it takes one, and of a type that it takes.
fn takes(types: &[SqlType], call: Call) -> bool
    ensures { result ≡ takes types.now call }
{
    match call {
        Call::CountAll => true,
        Call::Count(column) => has_column(types, column),
        Call::Sum(column) => has_column(types, column) && is_summed(type_at(types, column)),
        Call::Min(column) => has_column(types, column),
        Call::Max(column) => has_column(types, column),
        Call::Avg(column) => has_column(types, column) && is_short(type_at(types, column)),
    }
}

fn is_summed(kind: SqlType) -> bool
    ensures { result ≡ is_summed kind }
{
    kind == SqlType::Bigint || is_short(kind)
}

/// The first of the calls that does not take its argument.
pub fn first_untaken(types: &[SqlType], calls: &[Call]) -> Option<usize>
    ensures { result ≡ position_from (takes_not types.now) 0 calls.now }
{
    for (i, call) in calls.iter().enumerate() {
        if !takes(types, *call) {
            return Some(i);
        }
    }
    None
}

/// The types of an aggregate's rows.
pub fn step_types(
    alloc: Global,
    step: NodeStep,
    types: &[SqlType],
    keys: &[u32],
    calls: &[Call],
) -> Result<RowTypes, Memory>
    ensures { IfOk result (λ t. t ≡ step_types step types.now keys.now calls.now) }
{
    let whole = whole_types(alloc, types, keys, calls)?;
    match step {
        NodeStep::Single => Ok(plain(whole)),
        NodeStep::Partial => Ok(RowTypes {
            columns: partial_types(alloc, types, keys, calls)?,
            whole: Some(whole),
        }),
    }
}

fn whole_types(
    alloc: Global,
    types: &[SqlType],
    keys: &[u32],
    calls: &[Call],
) -> Result<Types, Memory>
    ensures { IfOk result (λ ts. ts ≡ whole_types types.now keys.now calls.now) }
{
    grouped_types(alloc, types, keys, calls)
}
