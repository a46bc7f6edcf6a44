ghost use Rattle.std.specs.Prelude.{◌≡◌};
ghost use Rattle.sql_functions.specs.Bigints.{bigint_difference, bigint_opposite, bigint_product, bigint_quotient, bigint_remainder, bigint_sum};

use sql_values::{Fail, Value};

pub fn sum(a: i64, b: i64) -> Result<Value, Fail>
    ensures { result ≡ bigint_sum a b }
{
    a.checked_add(b).map(Value::Bigint).ok_or(Fail::OutOfRange)
}

pub fn difference(a: i64, b: i64) -> Result<Value, Fail>
    ensures { result ≡ bigint_difference a b }
{
    a.checked_sub(b).map(Value::Bigint).ok_or(Fail::OutOfRange)
}

pub fn product(a: i64, b: i64) -> Result<Value, Fail>
    ensures { result ≡ bigint_product a b }
{
    a.checked_mul(b).map(Value::Bigint).ok_or(Fail::OutOfRange)
}

pub fn opposite(a: i64) -> Result<Value, Fail>
    ensures { result ≡ bigint_opposite a }
{
    a.checked_neg().map(Value::Bigint).ok_or(Fail::OutOfRange)
}

/// The quotient, rounded toward zero.
pub fn quotient(a: i64, b: i64) -> Result<Value, Fail>
    ensures { result ≡ bigint_quotient a b }
{
    if b == 0 {
        return Err(Fail::DivisionByZero);
    }
    a.checked_div(b).map(Value::Bigint).ok_or(Fail::OutOfRange)
}

/// The remainder, with the sign of the dividend; of the least number by -1 it is 0.
pub fn remainder(a: i64, b: i64) -> Result<Value, Fail>
    ensures { result ≡ bigint_remainder a b }
{
    if b == 0 {
        return Err(Fail::DivisionByZero);
    }
    Ok(Value::Bigint(a.wrapping_rem(b)))
}
