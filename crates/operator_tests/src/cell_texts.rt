//! Values as texts, with a blank behind each: a decimal by its digits, and a `d`.
ghost use Rattle.std.specs.Prelude.{◌≡◌, IfOk, Ok};

use sql_values::{Memory, ValueRef};

/// Appends a value.
pub(crate) fn show_value(text: &mut String, value: ValueRef<'_>) -> Result<(), Memory> {
    match value {
        ValueRef::Null => Ok(text.push_str("null ")?),
        ValueRef::Boolean(truth) => Ok(write!(text, "{truth} ")?),
        ValueRef::Bigint(n) => Ok(write!(text, "{n} ")?),
        ValueRef::Decimal(n) => Ok(write!(text, "{n}d ")?),
        ValueRef::Varchar(held) => Ok(write!(text, "'{held}' ")?),
        ValueRef::Date(day) => Ok(write!(text, "day {day} ")?),
    }
}

/// Appends a place.
pub(crate) fn show_place(text: &mut String, place: usize) -> Result<(), Memory> {
    Ok(write!(text, "{place} ")?)
}

/// The number that a text writes, and 0 where it writes none.
pub(crate) fn number(text: &str) -> i64 {
    text.parse::<i64>().unwrap_or(0)
}

/// Two values, where both were made.
pub(crate) fn both<A: Drop, B: Drop, E: Drop>(
    first: Result<A, E>,
    second: Result<B, E>,
) -> Result<(A, B), E>
    ensures { IfOk result (λ r. (first ≡ Ok r.0) × (second ≡ Ok r.1)) }
{
    let first = first?;
    Ok((first, second?))
}
