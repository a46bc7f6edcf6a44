ghost use Rattle.std.specs.Prelude.{◌≡◌, [], ◌<◌, ◌-◌, ◌^◌, drop, length, MatchResult, IfOk};
ghost use Rattle.csv_tables.specs.Places.{IsFaultOf};
ghost use Rattle.sql_values.specs.Columns.{kinds};
ghost use Rattle.csv_tables.specs.Tables.{IsReadInto, IsTable, TableRefusedFor, records_of, rows_from};

use crate::fault::{TableFault, WRONG_HEADER};
use crate::header::header_difference;
use crate::line_rows::read_lines;
use crate::lines::{lines_behind_first, plain_lines};
use crate::records::Records;
use crate::rows::{empty_rows, read_rows};
use csv::ByteRecord;
use sql_values::{Column, ColumnRows, Columns, Memory, RowList, Table};
use std::alloc::Global;

fn copy_columns(alloc: Global, columns: &[Column]) -> Result<Columns, Memory>
    ensures { IfOk result (λ copy. copy ≡ columns.now) }
{
    let mut copy = Vec::with_capacity(alloc, columns.len())?;
    for column in columns {
        copy.push(Column {
            name: column.name.copy(alloc)?,
            kind: column.kind,
        })?;
    }
    Ok(Columns::of(copy))
}

// The rows behind the first record of a text, of which a reader has read that record.
fn read_behind(
    columns: &[Column],
    limit: u32,
    bytes: &[u8],
    records: Records<'_>,
    line: ByteRecord,
    rows: ColumnRows,
) -> Result<ColumnRows, TableFault>
    requires first { records ≡ drop 1 (records_of bytes.now) }
    requires empty { rows ≡ record { types = kinds columns.now; rows = []; begun = [] } }
    requires limit { limit < 2 ^ 32 - 1 }
    requires columns { length columns.now < 2 ^ 32 }
    ensures { MatchResult result
        (λ rows. IsReadInto (rows_from columns.now limit 1 records.entry) (kinds columns.now) rows)
        (IsFaultOf (rows_from columns.now limit 1 records.entry)) }
{
    match lines_behind_first(bytes) {
        Some(lines) => read_lines(columns, limit, lines, rows),
        None => read_rows(columns, limit, records, line, rows),
    }
}

/// The table of these columns that a text in CSV is. Its first record is the header, row 0, which
/// is the columns' names; at most `limit` rows may follow. Of several refusals the first record's
/// is given, and in a record the first field's. More columns than a `u32` counts are `Memory`.
pub fn read_table(
    alloc: Global,
    columns: &[Column],
    limit: u32,
    bytes: &[u8],
) -> Result<Table, TableFault>
    requires { limit < 2 ^ 32 - 1 }
    ensures { MatchResult result
        (λ t. (t.columns ≡ columns.now) × IsTable columns.now limit bytes.now t.rows)
        (TableRefusedFor columns.now limit bytes.now) }
{
    if columns.len() > u32::MAX as usize {
        return Err(TableFault::Memory);
    }
    let mut records = Records::of(alloc, bytes);
    let mut line = ByteRecord::new(alloc);
    if !records.next(&mut line)? {
        return Err(TableFault::Refused {
            row: 0,
            column: 0,
            why: WRONG_HEADER,
        });
    }
    if let Some(column) = header_difference(columns, &line) {
        return Err(TableFault::Refused {
            row: 0,
            column,
            why: WRONG_HEADER,
        });
    }
    let empty = empty_rows(alloc, columns)?;
    let rows = read_behind(columns, limit, bytes, records, line, empty)?;
    Ok(Table {
        columns: copy_columns(alloc, columns)?,
        rows: RowList::of_columns(alloc, rows),
    })
}

/// The rows of a part of a text that stands behind the header: its first record is row 1.
pub fn read_part(
    alloc: Global,
    columns: &[Column],
    limit: u32,
    bytes: &[u8],
) -> Result<ColumnRows, TableFault>
    requires limit { limit < 2 ^ 32 - 1 }
    requires some { 0 < length columns.now }
    requires columns { length columns.now < 2 ^ 32 }
    ensures { MatchResult result
        (λ rows. IsReadInto (rows_from columns.now limit 1 (records_of bytes.now)) (kinds columns.now) rows)
        (IsFaultOf (rows_from columns.now limit 1 (records_of bytes.now))) }
{
    let empty = empty_rows(alloc, columns)?;
    match plain_lines(bytes) {
        Some(lines) => read_lines(columns, limit, lines, empty),
        None => read_rows(
            columns,
            limit,
            Records::of(alloc, bytes),
            ByteRecord::new(alloc),
            empty,
        ),
    }
}
