ghost use Rattle.std.specs.Prelude.{◌≡◌};
ghost use Rattle.sql_values.specs.Cells.{lent_value};
ghost use Rattle.sql_functions.specs.Truth.{is_false, is_null, is_true, truth_and, truth_not, truth_or};

use sql_values::{Value, ValueRef};

pub fn is_null(value: ValueRef<'_>) -> bool
    ensures { result ≡ is_null (lent_value value.entry) }
{
    match value {
        ValueRef::Null => true,
        _ => false,
    }
}

pub fn is_true(value: ValueRef<'_>) -> bool
    ensures { result ≡ is_true (lent_value value.entry) }
{
    match value {
        ValueRef::Boolean(truth) => truth,
        _ => false,
    }
}

pub fn is_false(value: ValueRef<'_>) -> bool
    ensures { result ≡ is_false (lent_value value.entry) }
{
    match value {
        ValueRef::Boolean(truth) => !truth,
        _ => false,
    }
}

pub fn truth_not(value: ValueRef<'_>) -> Value
    ensures { result ≡ truth_not (lent_value value.entry) }
{
    match value {
        ValueRef::Boolean(truth) => Value::Boolean(!truth),
        _ => Value::Null,
    }
}

/// FALSE where a side is FALSE, else NULL where a side is NULL, else TRUE.
pub fn truth_and(a: ValueRef<'_>, b: ValueRef<'_>) -> Value
    ensures { result ≡ truth_and (lent_value a.entry) (lent_value b.entry) }
{
    if is_false(a) || is_false(b) {
        return Value::Boolean(false);
    }
    if is_null(a) || is_null(b) {
        return Value::Null;
    }
    Value::Boolean(true)
}

/// TRUE where a side is TRUE, else NULL where a side is NULL, else FALSE.
pub fn truth_or(a: ValueRef<'_>, b: ValueRef<'_>) -> Value
    ensures { result ≡ truth_or (lent_value a.entry) (lent_value b.entry) }
{
    if is_true(a) || is_true(b) {
        return Value::Boolean(true);
    }
    if is_null(a) || is_null(b) {
        return Value::Null;
    }
    Value::Boolean(false)
}
