//! Rows and tables of one column of whole numbers.
ghost use Rattle.std.specs.Prelude.{◌≡◌, [], ◌∷◌, All, IsTrue, IsOk, IfOk, length};
ghost use Rattle.sql_values.specs.Cells.{cut};
ghost use Rattle.sql_values.specs.ColumnRows.{fits_row};
ghost use Rattle.sql_values.specs.declared.types.SqlType.TheVariants.{Bigint};
ghost use Rattle.split_source.specs.Scans.{AreReadable, types_at};

use sql_values::{Column, Items, Memory, Row, RowList, SqlType, Table, Text, Value};
use std::alloc::Global;

/// A row of one number.
pub fn number_row(alloc: Global, number: i64) -> Result<Row, Memory>
    ensures fits { IfOk result (λ row. IsTrue (fits_row (Bigint ∷ []) row)) }
    ensures cut { IfOk result (λ row. IsTrue (fits_row (Bigint ∷ []) (cut (0 ∷ []) row))) }
{
    let mut values = Vec::new(alloc);
    values.push(Value::Bigint(number))?;
    Ok(Row::of(values))
}

/// Puts a row of this number behind the others.
#[tactic(auto, using(crate::proofs::RowLemmas::row_more))]
pub fn push_number(alloc: Global, rows: &mut RowList, number: i64) -> Result<(), Memory>
    requires { All (λ row. IsTrue (fits_row (Bigint ∷ []) row)) rows.old }
    ensures { IsOk result → All (λ row. IsTrue (fits_row (Bigint ∷ []) row)) rows.new }
{
    let row = number_row(alloc, number)?;
    rows.push(row)?;
    Ok(())
}

/// Rows of one number each, from 0 up.
fn numbers(alloc: Global, count: u32) -> Result<RowList, Memory>
    ensures len { IfOk result (λ rows. length rows ≡ count) }
    ensures fits { IfOk result (λ rows. All (λ row. IsTrue (fits_row (Bigint ∷ []) (cut (0 ∷ []) row))) rows) }
{
    let mut rows = RowList::new(alloc);
    for number in 0..count {
        rows.push(number_row(alloc, i64::from(number))?)?;
    }
    Ok(rows)
}

/// Rows of the number 7.
fn sevens(alloc: Global, count: u32) -> Result<RowList, Memory>
    ensures len { IfOk result (λ rows. length rows ≡ count) }
    ensures fits { IfOk result (λ rows. All (λ row. IsTrue (fits_row (Bigint ∷ []) (cut (0 ∷ []) row))) rows) }
{
    let mut rows = RowList::new(alloc);
    for _number in 0..count {
        rows.push(number_row(alloc, 7)?)?;
    }
    Ok(rows)
}

/// The columns of a table of numbers.
fn columns(alloc: Global) -> Result<Items<Column>, Memory>
    ensures len { IfOk result (λ c. length c ≡ 1) }
    ensures types { IfOk result (λ c. types_at c (0 ∷ []) ≡ Bigint ∷ []) }
{
    let mut columns = Items::new(alloc);
    columns.push(Column {
        name: Text::copy_of(alloc, "n")?,
        kind: SqlType::Bigint,
    })?;
    Ok(columns)
}

/// A table of one column with the numbers from 0 up.
pub fn number_table(alloc: Global, count: u32) -> Result<Table, Memory>
    ensures len { IfOk result (λ t. length t.rows ≡ count) }
    ensures columns { IfOk result (λ t. length t.columns ≡ 1) }
    ensures fits { IfOk result (λ t. AreReadable t.columns (0 ∷ []) t.rows) }
{
    let columns = columns(alloc)?;
    let rows = numbers(alloc, count)?;
    Ok(Table { columns, rows })
}

/// A table of one column with the number 7 in every row.
pub fn seven_table(alloc: Global, count: u32) -> Result<Table, Memory>
    ensures len { IfOk result (λ t. length t.rows ≡ count) }
    ensures columns { IfOk result (λ t. length t.columns ≡ 1) }
    ensures fits { IfOk result (λ t. AreReadable t.columns (0 ∷ []) t.rows) }
{
    let columns = columns(alloc)?;
    let rows = sevens(alloc, count)?;
    Ok(Table { columns, rows })
}
