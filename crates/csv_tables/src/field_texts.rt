//! The records of a result, appended to a text.
ghost use Rattle.std.specs.Prelude.{◌≡◌, ◌==◌, ◌<◌, ◌^◌, ◌∷◌, ◌++◌, ℕ, List, [], length, if◌then◌else◌, slice_get, slice_index_or, Some, OnOk};
ghost use Rattle.std.specs.Fmt.{signed_decimal};
ghost use Rattle.csv.specs.Writing.{default_writer, escaped as doubled, needs_byte, needs_quotes, next_sep, quote_mark, quoted};
ghost use Rattle.scalar_texts.specs.Booleans.{boolean_text};
ghost use Rattle.scalar_texts.specs.Dates.{date_text};
ghost use Rattle.sql_values.specs.Cells.{lent_value};
ghost use Rattle.sql_values.specs.Texts.{text_of_value};
ghost use Rattle.sql_values.specs.declared.value.Value.TheVariants as value_is;
ghost use Rattle.csv_tables.specs.Fields.{escaped, field_text, null_field};
ghost use Rattle.csv_tables.specs.ResultTexts.{body_text, fields_from, lead, record_text, rows_text, written};

use crate::field::NULL_FIELD;
use scalar_texts::{print_bigint, print_boolean, print_date};
use sql_values::{Memory, RowList, SqlType, Text, ValueRef, print_value};

/// Whether a field with this byte stands between quotes.
fn is_special(byte: u8) -> bool
    ensures { result ≡ needs_byte default_writer byte }
{
    byte == b',' || byte == b'"' || byte == b'\r' || byte == b'\n'
}

fn needs_quotes(field: &[u8]) -> bool
    ensures { result ≡ needs_quotes default_writer field.now }
{
    for byte in field {
        if is_special(*byte) {
            return true;
        }
    }
    false
}

/// Appends a byte as it stands between quotes.
#[tactic(auto, using(crate::proofs::PlainLemmas::doubling))]
fn put_doubled_byte(byte: u8, to: &mut Vec<u8>) -> Result<(), Memory>
    ensures { OnOk result (to.new.items ≡ to.old.items ++ doubled default_writer (byte ∷ [])) }
{
    if byte == b'"' {
        to.extend_from_slice(b"\"\"")?;
        return Ok(());
    }
    to.push(byte)?;
    Ok(())
}

fn put_doubled(bytes: &[u8], to: &mut Vec<u8>) -> Result<(), Memory>
    ensures { OnOk result (to.new.items ≡ to.old.items ++ doubled default_writer bytes.now) }
{
    for byte in bytes {
        put_doubled_byte(*byte, to)?;
    }
    Ok(())
}

fn put_lead(text: &[u8], to: &mut Vec<u8>) -> Result<(), Memory>
    ensures { OnOk result (to.new.items ≡ to.old.items ++ lead text.now) }
{
    if text.first() == Some(&b'\\') {
        to.push(b'\\')?;
    }
    Ok(())
}

fn put_quoted_text(text: &[u8], to: &mut Vec<u8>) -> Result<(), Memory>
    ensures { OnOk result (to.new.items ≡ to.old.items ++ quoted default_writer (escaped text.now)) }
{
    to.push(b'"')?;
    put_lead(text, to)?;
    put_doubled(text, to)?;
    to.push(b'"')?;
    Ok(())
}

fn put_plain_text(text: &[u8], to: &mut Vec<u8>) -> Result<(), Memory>
    ensures { OnOk result (to.new.items ≡ to.old.items ++ escaped text.now) }
{
    put_lead(text, to)?;
    to.extend_from_slice(text)?;
    Ok(())
}

/// Appends the field of a text.
fn put_text(text: &[u8], to: &mut Vec<u8>) -> Result<(), Memory>
    ensures { OnOk result (to.new.items ≡ to.old.items ++ written (escaped text.now)) }
{
    if needs_quotes(text) {
        return put_quoted_text(text, to);
    }
    put_plain_text(text, to)
}

fn put_null(to: &mut Vec<u8>) -> Result<(), Memory>
    ensures { OnOk result (to.new.items ≡ to.old.items ++ written null_field) }
{
    to.extend_from_slice(NULL_FIELD)?;
    Ok(())
}

fn put_boolean(truth: bool, to: &mut Vec<u8>) -> Result<(), Memory>
    ensures { OnOk result (to.new.items ≡ to.old.items ++ written (boolean_text truth)) }
{
    print_boolean(truth, to)?;
    Ok(())
}

fn put_bigint(number: i64, to: &mut Vec<u8>) -> Result<(), Memory>
    ensures { OnOk result (to.new.items ≡ to.old.items ++ written (signed_decimal number)) }
{
    print_bigint(number, to)?;
    Ok(())
}

fn put_decimal(kind: SqlType, unscaled: i128, to: &mut Vec<u8>) -> Result<(), Memory>
    ensures { OnOk result (to.new.items
        ≡ to.old.items ++ written (text_of_value kind (value_is.Decimal unscaled))) }
{
    print_value(kind, ValueRef::Decimal(unscaled), to)?;
    Ok(())
}

fn put_date(day: i32, to: &mut Vec<u8>) -> Result<(), Memory>
    ensures { OnOk result (to.new.items ≡ to.old.items ++ written (date_text day)) }
{
    print_date(day, to)?;
    Ok(())
}

/// Appends the field that stands for a cell.
pub(crate) fn put_cell(kind: SqlType, value: ValueRef<'_>, to: &mut Vec<u8>) -> Result<(), Memory>
    ensures { OnOk result (to.new.items
        ≡ to.old.items ++ written (field_text kind (lent_value value.entry))) }
{
    match value {
        ValueRef::Null => put_null(to),
        ValueRef::Boolean(truth) => put_boolean(truth, to),
        ValueRef::Bigint(number) => put_bigint(number, to),
        ValueRef::Decimal(unscaled) => put_decimal(kind, unscaled, to),
        ValueRef::Varchar(text) => put_text(text.as_bytes(), to),
        ValueRef::Date(day) => put_date(day, to),
    }
}

/// Appends what stands before the field at a place of its record.
pub(crate) fn put_separator(place: usize, to: &mut Vec<u8>) -> Result<(), Memory>
    ensures { OnOk result (to.new.items ≡ to.old.items ++ next_sep default_writer place) }
{
    if place > 0 {
        to.push(b',')?;
    }
    Ok(())
}

/// Appends the quotes of a record that begins at a place and shows no byte.
fn put_blank(start: usize, to: &mut Vec<u8>) -> Result<(), Memory>
    ensures { OnOk result (to.new.items ≡ to.old.items
        ++ (if length to.old.items == start then quote_mark ∷ quote_mark ∷ [] else [])) }
{
    if to.len() == start {
        to.extend_from_slice(b"\"\"")?;
    }
    Ok(())
}

/// Ends a record that begins at a place.
pub(crate) fn end_record(start: usize, to: &mut Vec<u8>) -> Result<(), Memory>
    ensures { OnOk result
        ((before : List ℕ) (fields : List (List ℕ)) → start ≡ length before
        → to.old.items ≡ before ++ body_text fields
        → to.new.items ≡ before ++ record_text fields) }
{
    put_blank(start, to)?;
    to.push(b'\n')?;
    Ok(())
}

fn put_quoted(field: &[u8], to: &mut Vec<u8>) -> Result<(), Memory>
    ensures { OnOk result (to.new.items ≡ to.old.items ++ quoted default_writer field.now) }
{
    to.push(b'"')?;
    put_doubled(field, to)?;
    to.push(b'"')?;
    Ok(())
}

fn put_name(name: &[u8], to: &mut Vec<u8>) -> Result<(), Memory>
    ensures { OnOk result (to.new.items ≡ to.old.items ++ written name.now) }
{
    if needs_quotes(name) {
        return put_quoted(name, to);
    }
    to.extend_from_slice(name)?;
    Ok(())
}

/// Appends the record of the names. Where memory was wanting, some of it may stand there.
pub fn append_header(names: &[Text], to: &mut Vec<u8>) -> Result<(), Memory>
    ensures { OnOk result (to.new.items ≡ to.old.items ++ record_text names.now) }
{
    let start = to.len();
    for place in 0..names.len() {
        put_separator(place, to)?;
        put_name(names[place].as_str().as_bytes(), to)?;
    }
    end_record(start, to)
}

pub(crate) fn type_at(types: &[SqlType], column: usize) -> SqlType
    requires { column < length types.now }
    ensures { slice_get types.now column ≡ Some result }
{
    types[column]
}

/// Appends the record of the row at a place.
fn put_row(types: &[SqlType], rows: &RowList, place: usize, to: &mut Vec<u8>) -> Result<(), Memory>
    requires types { length types.now < 2 ^ 32 }
    requires place { place < length rows.now }
    ensures { OnOk result (to.new.items ≡ to.old.items
        ++ record_text (fields_from 0 types.now (slice_index_or rows.now place []))) }
{
    let start = to.len();
    for column in 0..types.len() {
        put_separator(column, to)?;
        put_cell(type_at(types, column), rows.cell(place, column as u32), to)?;
    }
    end_record(start, to)
}

/// Appends the records of the rows, with a field for each type.
pub(crate) fn append_rows(types: &[SqlType], rows: &RowList, to: &mut Vec<u8>) -> Result<(), Memory>
    requires { length types.now < 2 ^ 32 }
    ensures { OnOk result (to.new.items ≡ to.old.items ++ rows_text types.now rows.now) }
{
    for place in 0..rows.len() {
        put_row(types, rows, place, to)?;
    }
    Ok(())
}
