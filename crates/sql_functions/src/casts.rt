ghost use Rattle.std.specs.Prelude.{◌≡◌, ◌≤◌, if◌then◌else◌, IfOk, MatchResult};
ghost use Rattle.std.specs.Fmt.{signed_decimal};
ghost use Rattle.std.specs.Str.{IsUtf8};
ghost use Rattle.scalar_texts.specs.Booleans.{boolean_text};
ghost use Rattle.scalar_texts.specs.Dates.{date_text};
ghost use Rattle.scalar_texts.specs.Decimals.{decimal_text};
ghost use Rattle.decimals.specs.Arithmetic.{is_decimal_type, parts_of, rescaled};
ghost use Rattle.sql_values.specs.Cells.{lent_value};
ghost use Rattle.sql_values.specs.Texts.{text_of_value, value_of_text};
ghost use Rattle.sql_functions.specs.Outcomes.{FailsBy};
ghost use Rattle.sql_functions.specs.DecimalNumbers.{decimal_parts, from_units};
ghost use Rattle.sql_functions.specs.Casts.{bigint_of_units, cast_of, from_text, to_bigint, to_decimal};

use crate::call_types::scale_of;
use crate::decimal::{decimal, in_range};
use decimals::Decimal;
use itoa::Buffer;
use scalar_texts::{print_date, print_decimal};
use sql_values::{
    EvalFault, Fail, Memory, ParseFault, SqlType, Text, Value, ValueRef, parse_value,
};
use std::alloc::Global;

fn read_as(alloc: Global, kind: SqlType, text: &str) -> Result<Value, EvalFault>
    ensures { MatchResult result (λ v. from_text (value_of_text kind text.now) ≡ Ok v) (FailsBy (from_text (value_of_text kind text.now))) }
{
    match parse_value(alloc, kind, text) {
        Ok(value) => Ok(value),
        Err(ParseFault::Malformed) => Err(EvalFault::Fail(Fail::BadCast)),
        Err(ParseFault::Memory) => Err(EvalFault::Memory),
    }
}

/// A text whose bytes are known to be one.
fn text_of(bytes: Vec<u8>) -> Text
    requires { IsUtf8 bytes.items }
    ensures { result ≡ bytes.items }
{
    Text::of(unsafe { String::from_utf8_unchecked(bytes) })
}

fn decimal_text(alloc: Global, s: u8, unscaled: i128) -> Result<Text, Memory>
    ensures { IfOk result (λ text. text ≡ decimal_text s unscaled) }
{
    let mut bytes = Vec::new(alloc);
    print_decimal(s, unscaled, &mut bytes)?;
    Ok(text_of(bytes))
}

fn date_text(alloc: Global, day: i32) -> Result<Text, Memory>
    ensures { IfOk result (λ text. text ≡ date_text day) }
{
    let mut bytes = Vec::new(alloc);
    print_date(day, &mut bytes)?;
    Ok(text_of(bytes))
}

fn bigint_text(alloc: Global, number: i64) -> Result<Text, Memory>
    ensures { IfOk result (λ text. text ≡ signed_decimal number) }
{
    Text::copy_of(alloc, Buffer::new().format(number))
}

fn truth_text(alloc: Global, truth: bool) -> Result<Text, Memory>
    ensures { IfOk result (λ text. text ≡ boolean_text truth) }
{
    Text::copy_of(alloc, if truth { "true" } else { "false" })
}

fn printed(alloc: Global, kind: SqlType, value: ValueRef<'_>) -> Result<Text, Memory>
    ensures { IfOk result (λ text. text ≡ text_of_value kind (lent_value value.entry)) }
{
    match value {
        ValueRef::Null => Ok(Text::of(String::new(alloc))),
        ValueRef::Boolean(truth) => truth_text(alloc, truth),
        ValueRef::Bigint(number) => bigint_text(alloc, number),
        ValueRef::Decimal(unscaled) => decimal_text(alloc, scale_of(kind), unscaled),
        ValueRef::Varchar(text) => Text::copy_of(alloc, text),
        ValueRef::Date(day) => date_text(alloc, day),
    }
}

/// The number rounded to a whole one.
fn whole_number(number: Decimal) -> Result<Value, Fail>
    ensures { result ≡ bigint_of_units (rescaled (parts_of number) 38 0) }
{
    match number.rescale(38, 0) {
        Ok(whole) => i64::try_from(whole.unscaled)
            .ok()
            .map(Value::Bigint)
            .ok_or(Fail::OutOfRange),
        Err(_) => Err(Fail::OutOfRange),
    }
}

fn to_bigint(from: SqlType, value: ValueRef<'_>) -> Result<Value, Fail>
    ensures { result ≡ to_bigint from (lent_value value.entry) }
{
    match value {
        ValueRef::Bigint(n) => Ok(Value::Bigint(n)),
        ValueRef::Decimal(unscaled) => match decimal(from, unscaled) {
            Some(number) => whole_number(number),
            None => Ok(Value::Null),
        },
        _ => Ok(Value::Null),
    }
}

fn rescaled(p: u8, s: u8, number: Decimal) -> Result<Value, Fail>
    requires precision { (1 ≤ p) × (p ≤ 38) }
    requires scale { s ≤ p }
    ensures { result ≡ from_units (rescaled (parts_of number) p s) }
{
    in_range(number.rescale(p, s))
}

/// A bigint as a decimal without digits after the point.
fn whole_decimal(n: i64) -> Decimal
    ensures { parts_of result ≡ (n, 19, 0) }
{
    Decimal {
        unscaled: i128::from(n),
        p: 19,
        s: 0,
    }
}

fn to_decimal(p: u8, s: u8, from: SqlType, value: ValueRef<'_>) -> Result<Value, Fail>
    requires precision { (1 ≤ p) × (p ≤ 38) }
    requires scale { s ≤ p }
    ensures { result ≡ to_decimal p s from (lent_value value.entry) }
{
    match value {
        ValueRef::Bigint(n) => rescaled(p, s, whole_decimal(n)),
        ValueRef::Decimal(unscaled) => match decimal(from, unscaled) {
            Some(number) => rescaled(p, s, number),
            None => Ok(Value::Null),
        },
        _ => Ok(Value::Null),
    }
}

fn to_decimal_type(p: u8, s: u8, from: SqlType, value: ValueRef<'_>) -> Result<Value, Fail>
    ensures { result ≡ (if is_decimal_type p s then to_decimal p s from (lent_value value.entry) else Ok Value.Null) }
{
    if p < 1 || p > 38 || s > p {
        return Ok(Value::Null);
    }
    to_decimal(p, s, from, value)
}

/// The value of the first type as one of the second.
pub fn cast(
    alloc: Global,
    from: SqlType,
    to: SqlType,
    value: ValueRef<'_>,
) -> Result<Value, EvalFault>
    ensures { MatchResult result (λ v. cast_of from to (lent_value value.entry) ≡ Ok v) (FailsBy (cast_of from to (lent_value value.entry))) }
{
    match (to, value) {
        (_, ValueRef::Null) => Ok(Value::Null),
        (SqlType::Varchar, _) => Ok(Value::Varchar(printed(alloc, from, value)?)),
        (_, ValueRef::Varchar(text)) => read_as(alloc, to, text),
        (SqlType::Bigint, _) => Ok(to_bigint(from, value)?),
        (SqlType::Decimal { p, s }, _) => Ok(to_decimal_type(p, s, from, value)?),
        _ => Ok(value.to_value(alloc)?),
    }
}
