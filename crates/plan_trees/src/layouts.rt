//! The types of rows between the halves of an aggregate.
ghost use Rattle.std.specs.Prelude.{◌≡◌, ◌++◌, ◌∷◌, [], IfOk, OnOk, flat_map};
ghost use Rattle.plan_trees.specs.Layouts.{call_layout, layout_types, partial_types, sum_layout as layout_of_sum};

use crate::tree_types::append_key_types;
use crate::type_lists::{copy_types, type_at};
use sql_values::{Call, Memory, SqlType, Types};
use std::alloc::Global;

/// The types of rows of keys by these columns of rows of some types, with partial rows behind them.
pub fn partial_types(
    alloc: Global,
    types: &[SqlType],
    keys: &[u32],
    calls: &[Call],
) -> Result<Types, Memory>
    ensures { IfOk result (λ kinds. kinds ≡ partial_types types.now keys.now calls.now) }
{
    let mut kinds = Types::new(alloc);
    append_key_types(&mut kinds, types, keys)?;
    append_part_types(&mut kinds, types, calls)?;
    Ok(kinds)
}

/// The types of rows of keys of these types with partial rows behind them.
pub fn layout_of(
    alloc: Global,
    keys: &[SqlType],
    types: &[SqlType],
    calls: &[Call],
) -> Result<Types, Memory>
    ensures { IfOk result (λ kinds. kinds ≡ layout_types keys.now types.now calls.now) }
{
    let mut kinds = copy_types(alloc, keys)?;
    append_part_types(&mut kinds, types, calls)?;
    Ok(kinds)
}

/// Appends the types of a partial row of calls over rows of some types.
fn append_part_types(kinds: &mut Types, types: &[SqlType], calls: &[Call]) -> Result<(), Memory>
    ensures { OnOk result (kinds.new ≡ (kinds.old ++ SqlType.Decimal 38 0 ∷ []) ++ flat_map (call_layout types.now) calls.now) }
{
    kinds.push(SqlType::Decimal { p: 38, s: 0 })?;
    for call in calls {
        append_layout(kinds, types, *call)?;
    }
    Ok(())
}

/// Appends the types of the columns of a call.
fn append_layout(kinds: &mut Types, types: &[SqlType], call: Call) -> Result<(), Memory>
    ensures { OnOk result (kinds.new ≡ kinds.old ++ call_layout types.now call) }
{
    match call {
        Call::CountAll => {}
        Call::Count(_) => kinds.push(SqlType::Bigint)?,
        Call::Sum(column) => kinds.push(sum_layout(type_at(types, column)))?,
        Call::Min(column) => kinds.push(type_at(types, column))?,
        Call::Max(column) => kinds.push(type_at(types, column))?,
        Call::Avg(column) => {
            kinds.push(sum_layout(type_at(types, column)))?;
            kinds.push(SqlType::Bigint)?;
        }
    }
    Ok(())
}

fn sum_layout(kind: SqlType) -> SqlType
    ensures { result ≡ layout_of_sum kind }
{
    match kind {
        SqlType::Decimal { s, .. } => SqlType::Decimal { p: 38, s },
        _ => SqlType::Decimal { p: 38, s: 0 },
    }
}
