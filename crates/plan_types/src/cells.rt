ghost use Rattle.std.specs.Prelude.{◌≡◌, ◌<◌, [], None, length, slice_index_or, MatchResult};
ghost use Rattle.sql_values.specs.Blocks.{fits};
ghost use Rattle.sql_values.specs.Cells.{lent_value};
ghost use Rattle.plan_docs.specs.Words.{small};
ghost use Rattle.plan_types.specs.Cells.{cell_fault, misfit_from, misfit_in};
ghost use Rattle.plan_types.specs.Faults.{StandsIn};

use json_paths::{Key, Step, then};
use sql_exprs::Misfit;
use sql_values::{RowList, SqlType, ValueRef};
use std::alloc::Global;

/// Whether a value has the variant of the type.
fn fits(kind: SqlType, value: ValueRef<'_>) -> bool
    ensures { result ≡ fits kind (lent_value value.entry) }
{
    match (kind, value) {
        (_, ValueRef::Null) => true,
        (SqlType::Boolean, ValueRef::Boolean(_)) => true,
        (SqlType::Bigint, ValueRef::Bigint(_)) => true,
        (SqlType::Decimal { .. }, ValueRef::Decimal(_)) => true,
        (SqlType::Varchar, ValueRef::Varchar(_)) => true,
        (SqlType::Date, ValueRef::Date(_)) => true,
        _ => false,
    }
}

/// A column's number.
fn small(column: usize) -> u32
    ensures { result ≡ small column }
{
    if column < 1 << 32 { column as u32 } else { 0 }
}

/// The first column whose cell does not have its type.
fn misfit_in(types: &[SqlType], rows: &RowList, row: usize) -> Option<usize>
    requires { row < length rows.now }
    ensures { result ≡ misfit_in types.now 0 (slice_index_or rows.now row []) }
{
    for (column, kind) in types.iter().enumerate() {
        if !fits(*kind, rows.cell(row, small(column))) {
            return Some(column);
        }
    }
    None
}

/// The first row with such a cell, and its column.
fn misfit_of(types: &[SqlType], rows: &RowList) -> Option<(usize, usize)>
    ensures { result ≡ misfit_from types.now 0 rows.now }
{
    for row in 0..rows.len() {
        if let Some(column) = misfit_in(types, rows, row) {
            return Some((row, column));
        }
    }
    None
}

/// Passes where each cell has the type of its column, and else refuses the first that has not.
pub fn pass_cells(
    alloc: Global,
    path: &[Step],
    types: &[SqlType],
    rows: &RowList,
) -> Result<(), Misfit>
    ensures { MatchResult result
        (λ _. cell_fault path.now (misfit_from types.now 0 rows.now) ≡ None)
        (StandsIn (cell_fault path.now (misfit_from types.now 0 rows.now))) }
{
    match misfit_of(types, rows) {
        Some((row, column)) => {
            let path = then(alloc, path, Step::Key(Key::Rows))?;
            let path = then(alloc, path.as_slice(), Step::Index(row))?;
            Err(Misfit::At(then(alloc, path.as_slice(), Step::Index(column))?))
        }
        None => Ok(()),
    }
}
