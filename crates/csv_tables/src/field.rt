ghost use Rattle.std.specs.Prelude.{◌≡◌, MatchResult, Ok, Err, option_map};
ghost use Rattle.csv_tables.specs.Fields.{is_varchar, is_null, null_field, number_in, same_bytes, unescaped, text_in, value_of_field};
ghost use Rattle.sql_values.specs.Cells.{lent_value};
ghost use Rattle.sql_values.specs.Texts.{value_of_text};

use crate::fault::{MALFORMED, NOT_UTF8};
use scalar_texts::{read_bigint, read_boolean, read_date, read_decimal};
use sql_values::{LONGEST_TEXT, SqlType, ValueRef};
use std::str;

/// The field of a NULL of any type.
pub(crate) const NULL_FIELD: &[u8] = b"\\N";

fn is_varchar_type(kind: SqlType) -> bool
    ensures { result ≡ is_varchar kind }
{
    match kind {
        SqlType::Varchar => true,
        _ => false,
    }
}

fn is_null_field(field: &[u8]) -> bool
    ensures { result ≡ same_bytes field.now null_field }
{
    field.len() == 2 && field[0] == b'\\' && field[1] == b'N'
}

fn stands_for_null(kind: SqlType, field: &[u8]) -> bool
    ensures { result ≡ is_null kind field.now }
{
    is_null_field(field) || (!is_varchar_type(kind) && field.is_empty())
}

fn without_escape(text: &str) -> &str
    ensures { result.now ≡ unescaped text.now }
{
    let bytes = text.as_bytes();
    if bytes.len() < 2 {
        return text;
    }
    if bytes[0] != b'\\' || bytes[1] != b'\\' {
        return text;
    }
    &text[1..]
}

fn field_value_text(kind: SqlType, field: &str) -> &str
    ensures { result.now ≡ text_in kind field.now }
{
    if is_varchar_type(kind) {
        return without_escape(field);
    }
    field
}

fn lent_text(text: &str) -> Option<ValueRef<'_>>
    ensures { option_map lent_value result ≡ value_of_text SqlType.Varchar text.now }
{
    if text.len() > LONGEST_TEXT {
        return None;
    }
    Some(ValueRef::Varchar(text))
}

// The value of a type that a text writes. A varchar borrows the text.
fn parse_lent(kind: SqlType, text: &str) -> Option<ValueRef<'_>>
    ensures { option_map lent_value result ≡ value_of_text kind text.now }
{
    let bytes = text.as_bytes();
    Some(match kind {
        SqlType::Boolean => ValueRef::Boolean(read_boolean(bytes)?),
        SqlType::Bigint => ValueRef::Bigint(read_bigint(bytes)?),
        SqlType::Decimal { p, s } => ValueRef::Decimal(read_decimal(p, s, bytes)?),
        SqlType::Varchar => lent_text(text)?,
        SqlType::Date => ValueRef::Date(read_date(bytes)?),
    })
}

// The number or the day that a field writes.
fn written_number(kind: SqlType, field: &[u8]) -> Option<ValueRef<'_>>
    ensures { option_map lent_value result ≡ number_in kind field.now }
{
    Some(match kind {
        SqlType::Bigint => ValueRef::Bigint(read_bigint(field)?),
        SqlType::Decimal { p, s } => ValueRef::Decimal(read_decimal(p, s, field)?),
        SqlType::Date => ValueRef::Date(read_date(field)?),
        SqlType::Boolean | SqlType::Varchar => return None,
    })
}

#[tactic(auto, using(crate::proofs::ValueLemmas::field_values))]
// The cell of a field, whatever it writes.
fn read_any(kind: SqlType, field: &[u8]) -> Result<ValueRef<'_>, u8>
    ensures { MatchResult result
        (λ v. value_of_field kind field.now ≡ Ok (lent_value v))
        (λ why. value_of_field kind field.now ≡ Err why) }
{
    let Ok(text) = str::from_utf8(field) else {
        return Err(NOT_UTF8);
    };
    if stands_for_null(kind, field) {
        return Ok(ValueRef::Null);
    }
    match parse_lent(kind, field_value_text(kind, text)) {
        Some(value) => Ok(value),
        None => Err(MALFORMED),
    }
}

/// The cell that a field stands for, with a text of the field itself, or why it stands for none.
pub(crate) fn read_field(kind: SqlType, field: &[u8]) -> Result<ValueRef<'_>, u8>
    ensures { MatchResult result
        (λ v. value_of_field kind field.now ≡ Ok (lent_value v))
        (λ why. value_of_field kind field.now ≡ Err why) }
{
    if let Some(value) = written_number(kind, field) {
        return Ok(value);
    }
    read_any(kind, field)
}
