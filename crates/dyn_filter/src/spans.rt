ghost use Rattle.std.specs.Prelude.{◌≡◌, IfOk};
ghost use Rattle.sql_values.specs.Cells.{lent_value};
ghost use Rattle.dyn_filter.specs.Spans.{greater, lesser};

use crate::domain::Domain;
use sql_values::{Memory, Value, ValueRef, compare_values};
use std::alloc::Global;
use std::cmp::Ordering;

/// The range that also has what is from `first` to `last`.
pub(crate) fn spanning(
    alloc: Global,
    least: Value,
    greatest: Value,
    first: ValueRef<'_>,
    last: ValueRef<'_>,
) -> Result<Domain, Memory>
    ensures { IfOk result (λ d. d ≡ Domain.Range (lesser least (lent_value first.entry)) (greater greatest (lent_value last.entry))) }
{
    Ok(Domain::Range {
        least: lesser(alloc, least, first)?,
        greatest: greater(alloc, greatest, last)?,
    })
}

fn lesser(alloc: Global, value: Value, other: ValueRef<'_>) -> Result<Value, Memory>
    ensures { IfOk result (λ v. v ≡ lesser value (lent_value other.entry)) }
{
    match compare_values(other, value.as_ref()) {
        Ordering::Less => other.to_value(alloc),
        _ => Ok(value),
    }
}

fn greater(alloc: Global, value: Value, other: ValueRef<'_>) -> Result<Value, Memory>
    ensures { IfOk result (λ v. v ≡ greater value (lent_value other.entry)) }
{
    match compare_values(other, value.as_ref()) {
        Ordering::Greater => other.to_value(alloc),
        _ => Ok(value),
    }
}
