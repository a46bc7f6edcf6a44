ghost use Rattle.std.specs.Prelude.{◌≡◌, map, Option, Ok, MatchResult, slice_get};
ghost use Rattle.std.specs.Cmp.Lexicographic.{pointwise};
ghost use Rattle.std.specs.List.{position_from};
ghost use Rattle.sql_functions.specs.CallTypes.{is_boolean, same_type};
ghost use Rattle.sql_exprs.specs.Forms.{form_view};
ghost use Rattle.sql_exprs.specs.Typing.{MisfitAt};
ghost use Rattle.plan_types.specs.Operators.{aggregate_types, boolean_rows, column_types, filter_types, is_key_beyond, is_unequal, join_types, project_types, sort_types, union_types, values_types};

use crate::aggregates::{first_untaken, step_types};
use crate::cells::pass_cells;
use crate::faults::{first_beyond, pass, refused_at};
use crate::row_types::{RowTypes, plain};
use json_paths::{Key, Step, then};
use plan_docs::{NodeStep, Pair};
use plan_trees::{append_types, copy_types};
use sql_exprs::{Expr, Misfit, type_at};
use sql_functions::same_type;
use sql_values::{Call, KeySpec, RowList, SqlType, Types};
use std::alloc::Global;

pub fn values_types(
    alloc: Global,
    path: &[Step],
    types: &[SqlType],
    rows: &RowList,
) -> Result<RowTypes, Misfit>
    ensures { MatchResult result (λ t. values_types path.now types.now rows.now ≡ Ok t)
        (MisfitAt (values_types path.now types.now rows.now)) }
{
    pass_cells(alloc, path, types, rows)?;
    Ok(plain(copy_types(alloc, types)?))
}

pub fn filter_types(
    alloc: Global,
    path: &[Step],
    predicate: &Expr,
    input: RowTypes,
) -> Result<RowTypes, Misfit>
    ensures { MatchResult result
        (λ t. filter_types path.now (form_view predicate.now) input ≡ Ok t)
        (MisfitAt (filter_types path.now (form_view predicate.now) input)) }
{
    let inner = then(alloc, path, Step::Key(Key::Predicate))?;
    let kind = type_at(alloc, input.columns.as_slice(), inner.as_slice(), predicate)?;
    boolean_rows(inner, input, kind)
}

fn boolean_rows(path: Vec<Step>, input: RowTypes, kind: SqlType) -> Result<RowTypes, Misfit>
    ensures { MatchResult result (λ t. boolean_rows path.items input.columns kind ≡ Ok t)
        (MisfitAt (boolean_rows path.items input.columns kind)) }
{
    if !is_boolean(kind) {
        return Err(Misfit::At(path));
    }
    Ok(plain(input.columns))
}

fn is_boolean(kind: SqlType) -> bool
    ensures { result ≡ is_boolean kind }
{
    kind == SqlType::Boolean
}

pub fn project_types(
    alloc: Global,
    path: &[Step],
    columns: &[Expr],
    input: RowTypes,
) -> Result<RowTypes, Misfit>
    ensures { MatchResult result
        (λ t. project_types path.now (map form_view columns.now) input ≡ Ok t)
        (MisfitAt (project_types path.now (map form_view columns.now) input)) }
{
    let inner = then(alloc, path, Step::Key(Key::Columns))?;
    let types = column_types(alloc, input.columns.as_slice(), inner.as_slice(), columns)?;
    Ok(plain(types))
}

fn column_types(
    alloc: Global,
    columns: &[SqlType],
    path: &[Step],
    exprs: &[Expr],
) -> Result<Types, Misfit>
    ensures { MatchResult result
        (λ ts. column_types columns.now path.now 0 (map form_view exprs.now) ≡ Ok ts)
        (MisfitAt (column_types columns.now path.now 0 (map form_view exprs.now))) }
{
    let mut types = Types::new(alloc);
    for (i, expr) in exprs.iter().enumerate() {
        let inner = then(alloc, path, Step::Index(i))?;
        types.push(type_at(alloc, columns, inner.as_slice(), expr)?)?;
    }
    Ok(types)
}

fn is_unequal(left: &[SqlType], right: &[SqlType], pair: Pair) -> bool
    ensures { result ≡ is_unequal left.now right.now pair }
{
    match (left.get(pair.left as usize), right.get(pair.right as usize)) {
        (Some(k), Some(l)) => !same_type(*k, *l),
        _ => true,
    }
}

/// The first pair of columns that are not there or have not one type.
fn first_unequal(left: &[SqlType], right: &[SqlType], on: &[Pair]) -> Option<usize>
    ensures { result ≡ position_from (is_unequal left.now right.now) 0 on.now }
{
    for (i, pair) in on.iter().enumerate() {
        if is_unequal(left, right, *pair) {
            return Some(i);
        }
    }
    None
}

pub fn join_types(
    alloc: Global,
    path: &[Step],
    on: &[Pair],
    left: RowTypes,
    right: RowTypes,
) -> Result<RowTypes, Misfit>
    ensures { MatchResult result (λ t. join_types path.now on.now left right ≡ Ok t)
        (MisfitAt (join_types path.now on.now left right)) }
{
    let mut columns = left.columns;
    if columns.len().saturating_add(right.columns.len()) > 256 {
        return Err(refused_at(alloc, path));
    }
    let found = first_unequal(columns.as_slice(), right.columns.as_slice(), on);
    pass(alloc, path, Key::On, found)?;
    append_types(&mut columns, right.columns.as_slice())?;
    Ok(plain(columns))
}

pub fn aggregate_types(
    alloc: Global,
    path: &[Step],
    step: NodeStep,
    keys: &[u32],
    calls: &[Call],
    input: &RowTypes,
) -> Result<RowTypes, Misfit>
    ensures { MatchResult result
        (λ t. aggregate_types path.now step keys.now calls.now input.now ≡ Ok t)
        (MisfitAt (aggregate_types path.now step keys.now calls.now input.now)) }
{
    let types = input.columns.as_slice();
    pass(alloc, path, Key::Keys, first_beyond(types.len(), keys))?;
    pass(alloc, path, Key::Calls, first_untaken(types, calls))?;
    Ok(step_types(alloc, step, types, keys, calls)?)
}

fn first_key_beyond(width: usize, keys: &[KeySpec]) -> Option<usize>
    ensures { result ≡ position_from (is_key_beyond width) 0 keys.now }
{
    for (i, key) in keys.iter().enumerate() {
        if width <= key.column as usize {
            return Some(i);
        }
    }
    None
}

pub fn sort_types(
    alloc: Global,
    path: &[Step],
    keys: &[KeySpec],
    input: RowTypes,
) -> Result<RowTypes, Misfit>
    ensures { MatchResult result (λ t. sort_types path.now keys.now input ≡ Ok t)
        (MisfitAt (sort_types path.now keys.now input)) }
{
    let found = first_key_beyond(input.columns.len(), keys);
    pass(alloc, path, Key::Keys, found)?;
    Ok(plain(input.columns))
}

/// Whether the lists are the same.
#[tactic(auto, using(crate::proofs::SameLemmas::same_lists))]
fn are_same(kinds: &[SqlType], others: &[SqlType]) -> bool
    ensures { result ≡ pointwise same_type kinds.now others.now }
{
    if kinds.len() != others.len() {
        return false;
    }
    for (i, kind) in kinds.iter().enumerate() {
        if !same_type(*kind, others[i]) {
            return false;
        }
    }
    true
}

pub fn union_types(
    alloc: Global,
    path: &[Step],
    left: RowTypes,
    right: RowTypes,
) -> Result<RowTypes, Misfit>
    ensures { MatchResult result (λ t. union_types path.now left right ≡ Ok t)
        (MisfitAt (union_types path.now left right)) }
{
    if !are_same(left.columns.as_slice(), right.columns.as_slice()) {
        return Err(refused_at(alloc, path));
    }
    Ok(plain(left.columns))
}
