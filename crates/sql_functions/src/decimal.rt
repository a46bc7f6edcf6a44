ghost use Rattle.std.specs.Prelude.{◌≡◌, option_map};
ghost use Rattle.decimals.specs.Arithmetic.{difference_of, parts_of, sum_of};
ghost use Rattle.sql_functions.specs.DecimalNumbers.{decimal_difference, decimal_opposite, decimal_parts, decimal_product, decimal_sum, from_units, parts_product, units_of};

use decimals::{Decimal, OutOfRange};
use sql_values::{Fail, SqlType, Value};

/// The decimal of a type, if these units have it.
pub fn decimal(kind: SqlType, unscaled: i128) -> Option<Decimal>
    ensures { option_map parts_of result ≡ decimal_parts kind unscaled }
{
    match kind {
        SqlType::Decimal { p, s } => Decimal::checked(unscaled, p, s),
        _ => None,
    }
}

/// The value of a number, or the failure in its place.
pub fn in_range(number: Result<Decimal, OutOfRange>) -> Result<Value, Fail>
    ensures { result ≡ from_units (units_of number) }
{
    match number {
        Ok(number) => Ok(Value::Decimal(number.unscaled)),
        Err(OutOfRange) => Err(Fail::OutOfRange),
    }
}

fn exact_sum(a: Decimal, b: Decimal) -> Result<Value, Fail>
    ensures { result ≡ from_units (sum_of (parts_of a) (parts_of b)) }
{
    in_range(a.add(b))
}

fn exact_difference(a: Decimal, b: Decimal) -> Result<Value, Fail>
    ensures { result ≡ from_units (difference_of (parts_of a) (parts_of b)) }
{
    in_range(a.sub(b))
}

fn exact_product(a: Decimal, b: Decimal) -> Result<Value, Fail>
    ensures { result ≡ parts_product (parts_of a) (parts_of b) }
{
    if a.s + b.s > 38 {
        return Ok(Value::Null);
    }
    in_range(a.mul(b))
}

pub fn sum(left: SqlType, a: i128, right: SqlType, b: i128) -> Result<Value, Fail>
    ensures { result ≡ decimal_sum left right a b }
{
    match (decimal(left, a), decimal(right, b)) {
        (Some(a), Some(b)) => exact_sum(a, b),
        _ => Ok(Value::Null),
    }
}

pub fn difference(left: SqlType, a: i128, right: SqlType, b: i128) -> Result<Value, Fail>
    ensures { result ≡ decimal_difference left right a b }
{
    match (decimal(left, a), decimal(right, b)) {
        (Some(a), Some(b)) => exact_difference(a, b),
        _ => Ok(Value::Null),
    }
}

pub fn product(left: SqlType, a: i128, right: SqlType, b: i128) -> Result<Value, Fail>
    ensures { result ≡ decimal_product left right a b }
{
    match (decimal(left, a), decimal(right, b)) {
        (Some(a), Some(b)) => exact_product(a, b),
        _ => Ok(Value::Null),
    }
}

pub fn opposite(kind: SqlType, a: i128) -> Result<Value, Fail>
    ensures { result ≡ decimal_opposite kind a }
{
    match decimal(kind, a) {
        Some(a) => Ok(Value::Decimal(a.neg().unscaled)),
        None => Ok(Value::Null),
    }
}
