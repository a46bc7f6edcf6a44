ghost use Rattle.std.specs.Prelude.{◌≡◌, ◌++◌, map, IfOk, OnOk};
ghost use Rattle.sql_functions.specs.CallTypes.{type_at};
ghost use Rattle.sql_exprs.specs.Forms.{form_view};
ghost use Rattle.sql_exprs.specs.Meaning.{kind_of};
ghost use Rattle.plan_trees.specs.TreeTypes.{call_kind, sum_kind, types_after, types_of};
ghost use Rattle.plan_trees.specs.TreeForms.{step_view, tree_view};

use crate::tree::{Tree, TreeStep};
use crate::type_lists::{append_types, copy_types, type_at};
use sql_exprs::{Expr, kind_of};
use sql_values::{Call, Memory, SqlType, Types};
use std::alloc::Global;

/// The types of the columns of a tree's rows.
pub fn types_of_tree(alloc: Global, tree: &Tree) -> Result<Types, Memory>
    ensures { IfOk result (λ ts. ts ≡ types_of (tree_view tree.now)) }
{
    match tree {
        Tree::Scan { types, .. } => copy_types(alloc, types.as_slice()),
        Tree::Values { types, .. } => copy_types(alloc, types.as_slice()),
        Tree::Remote { input, .. } => types_of_tree(alloc, input),
        Tree::Step { step, input, .. } => {
            let types = types_of_tree(alloc, input)?;
            types_after(alloc, step, types.as_slice())
        }
        Tree::Join { left, right, .. } => {
            let mut types = types_of_tree(alloc, left)?;
            let right = types_of_tree(alloc, right)?;
            append_types(&mut types, right.as_slice())?;
            Ok(types)
        }
        Tree::Union { left, .. } => types_of_tree(alloc, left),
    }
}

/// The types of what a step makes of rows of these types.
pub fn types_after(alloc: Global, step: &TreeStep, types: &[SqlType]) -> Result<Types, Memory>
    ensures { IfOk result (λ ts. ts ≡ types_after (step_view step.now) types.now) }
{
    match step {
        TreeStep::Project { columns } => column_types(alloc, types, columns.as_slice()),
        TreeStep::Aggregate { keys, calls } => {
            grouped_types(alloc, types, keys.as_slice(), calls.as_slice())
        }
        _ => copy_types(alloc, types),
    }
}

/// The types of expressions over columns of these types.
fn column_types(alloc: Global, types: &[SqlType], columns: &[Expr]) -> Result<Types, Memory>
    ensures { IfOk result (λ ts. ts ≡ map (kind_of types.now) (map form_view columns.now)) }
{
    let mut kinds = Types::new(alloc);
    for column in columns {
        kinds.push(kind_of(types, column))?;
    }
    Ok(kinds)
}

/// The types of the keys and the results of groups of rows of these types.
pub fn grouped_types(
    alloc: Global,
    types: &[SqlType],
    keys: &[u32],
    calls: &[Call],
) -> Result<Types, Memory>
    ensures { IfOk result
        (λ given. given ≡ map (type_at types.now) keys.now ++ map (call_kind types.now) calls.now) }
{
    let mut given = Types::new(alloc);
    append_key_types(&mut given, types, keys)?;
    append_call_types(&mut given, types, calls)?;
    Ok(given)
}

pub fn append_key_types(kinds: &mut Types, types: &[SqlType], keys: &[u32]) -> Result<(), Memory>
    ensures { OnOk result (kinds.new ≡ kinds.old ++ map (type_at types.now) keys.now) }
{
    for key in keys {
        kinds.push(type_at(types, *key))?;
    }
    Ok(())
}

pub fn append_call_types(kinds: &mut Types, types: &[SqlType], calls: &[Call]) -> Result<(), Memory>
    ensures { OnOk result (kinds.new ≡ kinds.old ++ map (call_kind types.now) calls.now) }
{
    for call in calls {
        kinds.push(call_kind(types, *call))?;
    }
    Ok(())
}

/// The type of an aggregate's result over rows of these types.
fn call_kind(types: &[SqlType], call: Call) -> SqlType
    ensures { result ≡ call_kind types.now call }
{
    match call {
        Call::CountAll => SqlType::Bigint,
        Call::Count(_) => SqlType::Bigint,
        Call::Sum(column) => sum_kind(type_at(types, column)),
        Call::Min(column) => type_at(types, column),
        Call::Max(column) => type_at(types, column),
        Call::Avg(column) => type_at(types, column),
    }
}

/// A sum of bigints is a bigint, one of decimals has as many digits as a decimal can have.
fn sum_kind(kind: SqlType) -> SqlType
    ensures { result ≡ sum_kind kind }
{
    match kind {
        SqlType::Decimal { s, .. } => SqlType::Decimal { p: 38, s },
        _ => SqlType::Bigint,
    }
}
