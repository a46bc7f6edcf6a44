ghost use Rattle.std.specs.Prelude.{◌≡◌, ◌↔◌, IsTrue, is_some};
ghost use Rattle.decimals.specs.Arithmetic.{checked_parts};
ghost use Rattle.scalar_texts.specs.Dates.{has_date};
ghost use Rattle.scalar_texts.specs.Numbers.{has_64_bits};
ghost use Rattle.sql_exprs.specs.Literals.{is_value_of};

use scalar_texts::{FIRST_DAY, LAST_DAY};
use sql_values::{Decimal, LONGEST_TEXT, SqlType, Value};

/// Whether a literal of the type may hold the value.
pub fn is_value_of(kind: SqlType, value: &Value) -> bool
    ensures { result ≡ is_value_of kind value.now }
{
    match (kind, value) {
        (SqlType::Boolean, Value::Boolean(_)) => true,
        (SqlType::Bigint, Value::Bigint(n)) => is_bigint(*n),
        (SqlType::Decimal { p, s }, Value::Decimal(unscaled)) => is_decimal(*unscaled, p, s),
        (SqlType::Varchar, Value::Varchar(text)) => text.len() <= LONGEST_TEXT,
        (SqlType::Date, Value::Date(day)) => has_date(*day),
        _ => false,
    }
}

/// Each number that the variant holds is within 64 bits.
fn is_bigint(n: i64) -> bool
    ensures { result ≡ has_64_bits n }
{
    true
}

fn is_decimal(unscaled: i128, p: u8, s: u8) -> bool
    ensures { result ≡ is_some (checked_parts unscaled p s) }
{
    match Decimal::checked(unscaled, p, s) {
        Some(_) => true,
        None => false,
    }
}

fn has_date(day: i32) -> bool
    ensures { result ≡ has_date day }
{
    FIRST_DAY <= day && day <= LAST_DAY
}
