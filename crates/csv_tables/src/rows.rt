ghost use Rattle.std.specs.Prelude.{◌≡◌, ◌≢◌, [], ◌∷◌, ◌++◌, ◌<◌, ◌+◌, ◌-◌, ◌^◌, true, length, IfOk, MatchResult, OnOk};
ghost use Rattle.csv.specs.Records.{fields_of};
ghost use Rattle.csv_tables.specs.Places.{in_place, IsFaultOf};
ghost use Rattle.csv_tables.specs.Fields.{value_of_field};
ghost use Rattle.sql_values.specs.Columns.{kinds};
ghost use Rattle.csv_tables.specs.Tables.{Adds, IsReadInto, cells_from, held, row_of_record, rows_from};
ghost use Rattle.sql_values.specs.Cells.{lent_value};
ghost use Rattle.sql_values.specs.ColumnRows.{fits_at};

use crate::fault::{TOO_MANY_ROWS, TableFault, WRONG_WIDTH};
use crate::field::read_field;
use crate::records::Records;
use csv::ByteRecord;
use sql_values::{Column, ColumnRows, Memory, SqlType, ValueRef};
use std::alloc::Global;

/// A number of fields as a column.
pub(crate) fn held_count(fields: usize) -> u32
    ensures { result ≡ held fields }
{
    if fields < u32::MAX as usize {
        return fields as u32;
    }
    u32::MAX
}

/// The cell of a field, or its place.
pub(crate) fn read_cell(
    kind: SqlType,
    field: &[u8],
    row: u32,
    column: u32,
) -> Result<ValueRef<'_>, TableFault>
    ensures { MatchResult result
        (λ v. in_place row column (value_of_field kind field.now) ≡ Ok (lent_value v))
        (IsFaultOf (in_place row column (value_of_field kind field.now))) }
{
    match read_field(kind, field) {
        Ok(value) => Ok(value),
        Err(why) => Err(TableFault::Refused { row, column, why }),
    }
}

/// Puts the next cell of a row.
pub(crate) fn put_cell(rows: &mut ColumnRows, value: ValueRef<'_>) -> Result<(), Memory>
    requires { fits_at rows.old.types (length rows.old.begun) (lent_value value) ≡ true }
    ensures { OnOk result (rows.new ≡ record rows.old {
      begun = rows.old.begun ++ lent_value value.entry ∷ [];
    }) }
{
    rows.put(value)?;
    Ok(())
}

// Begins a row with the cells of a record that has as many fields as there are columns.
fn read_cells(
    columns: &[Column],
    row: u32,
    line: &ByteRecord,
    rows: &mut ColumnRows,
) -> Result<(), TableFault>
    requires columns { length columns.now < 2 ^ 32 }
    requires types { rows.old.types ≡ kinds columns.now }
    requires begun { rows.old.begun ≡ [] }
    ensures rows { OnOk result (rows.new ≡ record rows.old { begun = rows.new.begun }) }
    ensures cells { MatchResult result
        (λ _. cells_from row 0 columns.now (fields_of line.now) ≡ Ok rows.new.begun)
        (IsFaultOf (cells_from row 0 columns.now (fields_of line.now))) }
{
    for at in 0..columns.len() {
        let Some(field) = line.get(at) else {
            return Ok(());
        };
        let value = read_cell(columns[at].kind, field, row, at as u32)?;
        put_cell(rows, value)?;
    }
    Ok(())
}

// Adds the row of a record.
fn read_row(
    columns: &[Column],
    limit: u32,
    row: u32,
    line: &ByteRecord,
    rows: &mut ColumnRows,
) -> Result<(), TableFault>
    requires limit { limit < 2 ^ 32 - 1 }
    requires columns { length columns.now < 2 ^ 32 }
    requires types { rows.old.types ≡ kinds columns.now }
    requires begun { rows.old.begun ≡ [] }
    ensures within { OnOk result (row ≢ limit + 1) }
    ensures row { MatchResult result
        (λ _. Adds (row_of_record columns.now limit row (fields_of line.now)) rows.old rows.new)
        (IsFaultOf (row_of_record columns.now limit row (fields_of line.now))) }
{
    if row == limit + 1 {
        return Err(TableFault::Refused {
            row,
            column: 0,
            why: TOO_MANY_ROWS,
        });
    }
    if line.len() != columns.len() {
        return Err(TableFault::Refused {
            row,
            column: held_count(line.len()),
            why: WRONG_WIDTH,
        });
    }
    read_cells(columns, row, line, rows)?;
    rows.end_row();
    Ok(())
}

/// No rows yet, in columns of these types.
pub(crate) fn empty_rows(alloc: Global, columns: &[Column]) -> Result<ColumnRows, Memory>
    requires { 0 < length columns.now }
    ensures { IfOk result (λ rows. rows ≡ record { types = kinds columns.now; rows = []; begun = [] }) }
{
    let mut types = Vec::with_capacity(alloc, columns.len())?;
    for column in columns {
        types.push(column.kind)?;
    }
    ColumnRows::new(alloc, types.as_slice())
}

/// The rows of the records that are still to come, each read into `line`, put where no row is.
pub(crate) fn read_rows(
    columns: &[Column],
    limit: u32,
    mut records: Records<'_>,
    mut line: ByteRecord,
    mut rows: ColumnRows,
) -> Result<ColumnRows, TableFault>
    requires empty { rows ≡ record { types = kinds columns.now; rows = []; begun = [] } }
    requires limit { limit < 2 ^ 32 - 1 }
    requires columns { length columns.now < 2 ^ 32 }
    ensures { MatchResult result
        (λ rows. IsReadInto (rows_from columns.now limit 1 records.entry) (kinds columns.now) rows)
        (IsFaultOf (rows_from columns.now limit 1 records.entry)) }
{
    let mut place = 1;
    while records.next(&mut line)? {
        read_row(columns, limit, place, &line, &mut rows)?;
        place += 1;
    }
    Ok(rows)
}
