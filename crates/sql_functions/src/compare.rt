ghost use Rattle.std.specs.Prelude.{◌≡◌};
ghost use Rattle.sql_values.specs.Cells.{lent_value};
ghost use Rattle.sql_functions.specs.Comparison.{compared, distinct, ordering_meets};

use crate::name::CallName;
use crate::truth::is_null;
use sql_values::{Value, ValueRef, compare_values};
use std::cmp::Ordering;

/// Whether two values in this order make the comparison true.
fn ordering_meets(name: CallName, ordering: Ordering) -> bool
    ensures { result ≡ ordering_meets name ordering }
{
    match name {
        CallName::Equal => ordering.is_eq(),
        CallName::Unequal => ordering.is_ne(),
        CallName::Less => ordering.is_lt(),
        CallName::LessEqual => ordering.is_le(),
        CallName::Greater => ordering.is_gt(),
        CallName::GreaterEqual => ordering.is_ge(),
        _ => false,
    }
}

pub fn compared(name: CallName, a: ValueRef<'_>, b: ValueRef<'_>) -> Value
    ensures { result ≡ compared name (lent_value a.entry) (lent_value b.entry) }
{
    if is_null(a) || is_null(b) {
        return Value::Null;
    }
    Value::Boolean(ordering_meets(name, compare_values(a, b)))
}

/// Whether two values differ, where NULL is the same as NULL.
pub fn distinct(a: ValueRef<'_>, b: ValueRef<'_>) -> Value
    ensures { result ≡ distinct (lent_value a.entry) (lent_value b.entry) }
{
    Value::Boolean(compare_values(a, b).is_ne())
}
