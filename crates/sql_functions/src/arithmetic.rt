ghost use Rattle.std.specs.Prelude.{◌≡◌};
ghost use Rattle.sql_values.specs.Cells.{lent_value};
ghost use Rattle.sql_functions.specs.Arithmetic.{difference_of, opposite_of, product_of, quotient_of, remainder_of, sum_of};

use crate::{bigint, decimal};
use sql_values::{Fail, SqlType, Value, ValueRef};

pub fn add(left: SqlType, a: ValueRef<'_>, right: SqlType, b: ValueRef<'_>) -> Result<Value, Fail>
    ensures { result ≡ sum_of left right (lent_value a.entry) (lent_value b.entry) }
{
    match (a, b) {
        (ValueRef::Bigint(a), ValueRef::Bigint(b)) => bigint::sum(a, b),
        (ValueRef::Decimal(a), ValueRef::Decimal(b)) => decimal::sum(left, a, right, b),
        _ => Ok(Value::Null),
    }
}

pub fn subtract(
    left: SqlType,
    a: ValueRef<'_>,
    right: SqlType,
    b: ValueRef<'_>,
) -> Result<Value, Fail>
    ensures { result ≡ difference_of left right (lent_value a.entry) (lent_value b.entry) }
{
    match (a, b) {
        (ValueRef::Bigint(a), ValueRef::Bigint(b)) => bigint::difference(a, b),
        (ValueRef::Decimal(a), ValueRef::Decimal(b)) => decimal::difference(left, a, right, b),
        _ => Ok(Value::Null),
    }
}

pub fn multiply(
    left: SqlType,
    a: ValueRef<'_>,
    right: SqlType,
    b: ValueRef<'_>,
) -> Result<Value, Fail>
    ensures { result ≡ product_of left right (lent_value a.entry) (lent_value b.entry) }
{
    match (a, b) {
        (ValueRef::Bigint(a), ValueRef::Bigint(b)) => bigint::product(a, b),
        (ValueRef::Decimal(a), ValueRef::Decimal(b)) => decimal::product(left, a, right, b),
        _ => Ok(Value::Null),
    }
}

pub fn divide(a: ValueRef<'_>, b: ValueRef<'_>) -> Result<Value, Fail>
    ensures { result ≡ quotient_of (lent_value a.entry) (lent_value b.entry) }
{
    match (a, b) {
        (ValueRef::Bigint(a), ValueRef::Bigint(b)) => bigint::quotient(a, b),
        _ => Ok(Value::Null),
    }
}

pub fn modulo(a: ValueRef<'_>, b: ValueRef<'_>) -> Result<Value, Fail>
    ensures { result ≡ remainder_of (lent_value a.entry) (lent_value b.entry) }
{
    match (a, b) {
        (ValueRef::Bigint(a), ValueRef::Bigint(b)) => bigint::remainder(a, b),
        _ => Ok(Value::Null),
    }
}

pub fn negate(kind: SqlType, a: ValueRef<'_>) -> Result<Value, Fail>
    ensures { result ≡ opposite_of kind (lent_value a.entry) }
{
    match a {
        ValueRef::Bigint(n) => bigint::opposite(n),
        ValueRef::Decimal(unscaled) => decimal::opposite(kind, unscaled),
        _ => Ok(Value::Null),
    }
}
