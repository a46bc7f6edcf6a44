ghost use Rattle.std.specs.Prelude.{◌≡◌, ◌<◌, length, map, IsTrue, IfOk};
ghost use Rattle.sql_exprs.specs.Forms.{form_view};
ghost use Rattle.plan_trees.specs.Allowed.{scanned};
ghost use Rattle.plan_trees.specs.TreeForms.{step_view, tree_view};
ghost use Rattle.plan_trees.specs.TreeTypes.{types_of};
ghost use Rattle.col_pages.specs.Fits.{AllFit};
ghost use Rattle.page_processor.specs.Typed.{AllTyped, IsTyped};
ghost use Rattle.sql_values.specs.Columns.{kinds};
ghost use Rattle.tree_evaluator.specs.Fits.{ColumnFits, ColumnsFit, FitsTables, StepFits, TablesFit};
ghost use Rattle.tree_evaluator.specs.Stops.{rows_of_table};

use crate::calls::{are_allowed, has_column};
use plan_trees::{Tree, TreeStep, types_of_tree};
use sql_exprs::{Expr, TypeFault, typed};
use sql_values::{Column, ColumnRows, Memory, RowList, SqlType, Table};
use std::alloc::Global;

/// True only where each expression of the tree has a type and each aggregate call can be made, each node
/// has a column, and tables and constants have the types that the tree says. It looks at a table's columns,
/// not at its cells: a column of another type that holds only NULL fits, and the answer is false.
pub fn fits_tables(alloc: Global, tree: &Tree, tables: &[Table]) -> Result<bool, Memory>
    requires { TablesFit tables.now }
    ensures { IfOk result
        (λ fits. IsTrue fits → FitsTables (tree_view tree.now) (map rows_of_table tables.now)) }
{
    match tree {
        Tree::Scan {
            table,
            columns,
            types,
            ..
        } => Ok(scan_fits(tables, *table, columns.as_slice(), types.as_slice())),
        Tree::Values { types, rows, .. } => rows_fit(alloc, rows, types.as_slice()),
        Tree::Remote { input, .. } => fits_tables(alloc, input, tables),
        Tree::Step { step, input, .. } => {
            Ok(step_fits(alloc, step, input)? && fits_tables(alloc, input, tables)?)
        }
        Tree::Join { left, right, .. } => {
            Ok(fits_tables(alloc, left, tables)? && fits_tables(alloc, right, tables)?)
        }
        Tree::Union { left, right, .. } => {
            let same = union_fits(alloc, left, right)?;
            Ok(same && fits_tables(alloc, left, tables)? && fits_tables(alloc, right, tables)?)
        }
    }
}

/// Whether the input has what the step asks of it.
fn step_fits(alloc: Global, step: &TreeStep, input: &Tree) -> Result<bool, Memory>
    ensures { IfOk result
        (λ fits. IsTrue fits → StepFits (types_of (tree_view input.now)) (step_view step.now)) }
{
    let types = types_of_tree(alloc, input)?;
    match step {
        TreeStep::Filter { predicate } => is_typed(alloc, types.as_slice(), predicate),
        TreeStep::Project { columns } => {
            let typed = are_typed(alloc, types.as_slice(), columns.as_slice())?;
            Ok(!columns.is_empty() && typed)
        }
        TreeStep::Aggregate { keys, calls } => {
            let allowed = are_allowed(types.as_slice(), calls.as_slice());
            Ok(has_column(keys.as_slice(), calls.as_slice()) && allowed)
        }
        _ => Ok(true),
    }
}

/// Whether the two sides have the same types.
fn union_fits(alloc: Global, left: &Tree, right: &Tree) -> Result<bool, Memory>
    ensures { IfOk result
        (λ same. IsTrue same → types_of (tree_view left.now) ≡ types_of (tree_view right.now)) }
{
    let first = types_of_tree(alloc, left)?;
    let second = types_of_tree(alloc, right)?;
    Ok(same_types(first.as_slice(), second.as_slice()))
}

fn is_typed(alloc: Global, types: &[SqlType], expr: &Expr) -> Result<bool, Memory>
    ensures { IfOk result (λ typed. IsTrue typed → IsTyped types.now (form_view expr.now)) }
{
    match typed(alloc, expr, types) {
        Ok(_) => Ok(true),
        Err(TypeFault::Refused(_)) => Ok(false),
        Err(TypeFault::Memory) => Err(Memory),
    }
}

fn are_typed(alloc: Global, types: &[SqlType], exprs: &[Expr]) -> Result<bool, Memory>
    ensures { IfOk result (λ typed. IsTrue typed → AllTyped types.now (map form_view exprs.now)) }
{
    for expr in exprs {
        if !is_typed(alloc, types, expr)? {
            return Ok(false);
        }
    }
    Ok(true)
}

/// Whether the columns at these places have these types: past the last column all cells are NULL.
fn scan_fits(tables: &[Table], table: u32, columns: &[u32], types: &[SqlType]) -> bool
    requires { TablesFit tables.now }
    ensures { IsTrue result → (0 < length types.now) × (length types.now ≡ length columns.now)
        × AllFit types.now (scanned (map rows_of_table tables.now) table columns.now) }
{
    if types.is_empty() || types.len() != columns.len() {
        return false;
    }
    match tables.get(table as usize) {
        Some(table) => columns_fit(table.columns.as_slice(), columns, types),
        None => true,
    }
}

fn columns_fit(own: &[Column], columns: &[u32], types: &[SqlType]) -> bool
    requires { length types.now ≡ length columns.now }
    ensures { IsTrue result → ColumnsFit (kinds own.now) columns.now types.now }
{
    for (place, column) in columns.iter().enumerate() {
        if !column_fits(own, *column, types[place]) {
            return false;
        }
    }
    true
}

fn column_fits(own: &[Column], column: u32, kind: SqlType) -> bool
    ensures { IsTrue result → ColumnFits (kinds own.now) column kind }
{
    match own.get(column as usize) {
        Some(found) => found.kind.same(kind),
        None => true,
    }
}

/// Whether each row has a value for each type, of its variant.
fn rows_fit(alloc: Global, rows: &RowList, types: &[SqlType]) -> Result<bool, Memory>
    ensures { IfOk result (λ fit. IsTrue fit → (0 < length types.now) × AllFit types.now rows.now) }
{
    if types.is_empty() {
        return Ok(false);
    }
    let mut held = ColumnRows::new(alloc, types)?;
    for place in 0..rows.len() {
        let row = rows.row(alloc, place)?;
        if !held.push(&row)? {
            return Ok(false);
        }
    }
    Ok(true)
}

fn same_types(types: &[SqlType], others: &[SqlType]) -> bool
    ensures { IsTrue result → types.now ≡ others.now }
{
    if types.len() != others.len() {
        return false;
    }
    for (place, kind) in types.iter().enumerate() {
        if !kind.same(others[place]) {
            return false;
        }
    }
    true
}
