ghost use Rattle.std.specs.Prelude.{◌≡◌, ◌≢◌, [], ◌↔◌, ◌<◌, ◌+◌, ◌-◌, ◌^◌, All, IfOk, IsTrue, MatchResult, OnOk, length};
ghost use Rattle.csv_tables.specs.declared.fault.TableFault.TheVariants as fault_is;
ghost use Rattle.csv_tables.specs.Lines.{fields_of_line, records_in};
ghost use Rattle.csv_tables.specs.Parts.{quote};
ghost use Rattle.csv_tables.specs.Places.{IsFaultOf, wrong_width};
ghost use Rattle.csv_tables.specs.Tables.{Adds, IsReadInto, cells_from, held, row_of_record, rows_from};
ghost use Rattle.sql_values.specs.Columns.{kinds};

use crate::fault::{TOO_MANY_ROWS, TableFault, WRONG_WIDTH};
use crate::lines::{field_count, first_field, next_line};
use crate::rows::{held_count, put_cell, read_cell};
use sql_values::{Column, ColumnRows};

// Begins a row with the cells of a line, and tells whether it has as many fields as there are columns.
fn put_fields(
    columns: &[Column],
    row: u32,
    line: &[u8],
    rows: &mut ColumnRows,
) -> Result<bool, TableFault>
    requires columns { length columns.now < 2 ^ 32 }
    requires types { rows.old.types ≡ kinds columns.now }
    requires begun { rows.old.begun ≡ [] }
    ensures rows { OnOk result (rows.new ≡ record rows.old { begun = rows.new.begun }) }
    ensures cells { MatchResult result
        (λ _. cells_from row 0 columns.now (fields_of_line line.now) ≡ Ok rows.new.begun)
        (IsFaultOf (cells_from row 0 columns.now (fields_of_line line.now))) }
    ensures whole { IfOk result (λ whole.
        IsTrue whole ↔ (length (fields_of_line line.now) ≡ length columns.now)) }
{
    let mut left = Some(line);
    for at in 0..columns.len() {
        let Some(rest) = left else {
            return Ok(false);
        };
        let (field, behind) = first_field(rest);
        let value = read_cell(columns[at].kind, field, row, at as u32)?;
        put_cell(rows, value)?;
        left = behind;
    }
    match left {
        None => Ok(true),
        Some(_) => Ok(false),
    }
}

fn wrong_width(row: u32, line: &[u8]) -> TableFault
    ensures { result ≡ fault_is.Refused row (held (length (fields_of_line line.now))) wrong_width }
{
    TableFault::Refused {
        row,
        column: held_count(field_count(line)),
        why: WRONG_WIDTH,
    }
}

// Why a line is refused of which a cell is: its width comes first.
fn fault_of_line(columns: &[Column], row: u32, line: &[u8], fault: TableFault) -> TableFault
    ensures wide { length (fields_of_line line.now) ≡ length columns.now → result ≡ fault }
    ensures other { length (fields_of_line line.now) ≢ length columns.now
        → result ≡ fault_is.Refused row (held (length (fields_of_line line.now))) wrong_width }
{
    if field_count(line) == columns.len() {
        return fault;
    }
    wrong_width(row, line)
}

// Adds the row of a line.
fn read_line(
    columns: &[Column],
    limit: u32,
    row: u32,
    line: &[u8],
    rows: &mut ColumnRows,
) -> Result<(), TableFault>
    requires limit { limit < 2 ^ 32 - 1 }
    requires columns { length columns.now < 2 ^ 32 }
    requires types { rows.old.types ≡ kinds columns.now }
    requires begun { rows.old.begun ≡ [] }
    ensures within { OnOk result (row ≢ limit + 1) }
    ensures row { MatchResult result
        (λ _. Adds (row_of_record columns.now limit row (fields_of_line line.now)) rows.old rows.new)
        (IsFaultOf (row_of_record columns.now limit row (fields_of_line line.now))) }
{
    if row == limit + 1 {
        return Err(TableFault::Refused {
            row,
            column: 0,
            why: TOO_MANY_ROWS,
        });
    }
    match put_fields(columns, row, line, rows) {
        Ok(true) => {
            rows.end_row();
            Ok(())
        }
        Ok(false) => Err(wrong_width(row, line)),
        Err(fault) => Err(fault_of_line(columns, row, line, fault)),
    }
}

/// The rows of the lines of a text without quotes, put where no row is.
pub(crate) fn read_lines(
    columns: &[Column],
    limit: u32,
    text: &[u8],
    mut rows: ColumnRows,
) -> Result<ColumnRows, TableFault>
    requires plain { All (λ b. b ≢ quote) text.now }
    requires empty { rows ≡ record { types = kinds columns.now; rows = []; begun = [] } }
    requires limit { limit < 2 ^ 32 - 1 }
    requires columns { length columns.now < 2 ^ 32 }
    ensures { MatchResult result
        (λ rows. IsReadInto (rows_from columns.now limit 1 (records_in text.now)) (kinds columns.now) rows)
        (IsFaultOf (rows_from columns.now limit 1 (records_in text.now))) }
{
    let mut place = 1;
    let mut left = text;
    while let Some((line, behind)) = next_line(left) {
        read_line(columns, limit, place, line, &mut rows)?;
        left = behind;
        place += 1;
    }
    Ok(rows)
}
