ghost use Rattle.std.specs.Prelude.{◌≡◌, MatchResult};
ghost use Rattle.sql_values.specs.Cells.{lent_value};
ghost use Rattle.sql_functions.specs.Outcomes.{FailsBy};
ghost use Rattle.sql_functions.specs.Calls.{binary_of, unary_of};

use crate::arithmetic::{add, divide, modulo, multiply, negate, subtract};
use crate::compare::{compared, distinct};
use crate::dates::{add_days, day, days_between, month, year};
use crate::like::like;
use crate::name::CallName;
use crate::texts::{concat, length};
use crate::truth::{is_null, truth_not};
use sql_values::{EvalFault, Fail, SqlType, Value, ValueRef};
use std::alloc::Global;

/// A call of one argument, of this type.
pub fn unary(name: CallName, kind: SqlType, value: ValueRef<'_>) -> Result<Value, Fail>
    ensures { result ≡ unary_of name kind (lent_value value.entry) }
{
    Ok(match name {
        CallName::Neg => return negate(kind, value),
        CallName::IsNull => Value::Boolean(is_null(value)),
        CallName::Not => truth_not(value),
        CallName::Length => length(value),
        CallName::Year => year(value),
        CallName::Month => month(value),
        CallName::Day => day(value),
        _ => Value::Null,
    })
}

/// A call of two arguments, of these types.
pub fn binary(
    alloc: Global,
    name: CallName,
    left: SqlType,
    a: ValueRef<'_>,
    right: SqlType,
    b: ValueRef<'_>,
) -> Result<Value, EvalFault>
    ensures { MatchResult result (λ v. binary_of name left right (lent_value a.entry) (lent_value b.entry) ≡ Ok v) (FailsBy (binary_of name left right (lent_value a.entry) (lent_value b.entry))) }
{
    match name {
        CallName::Add => Ok(add(left, a, right, b)?),
        CallName::Subtract => Ok(subtract(left, a, right, b)?),
        CallName::Multiply => Ok(multiply(left, a, right, b)?),
        CallName::Divide => Ok(divide(a, b)?),
        CallName::Modulo => Ok(modulo(a, b)?),
        CallName::Equal
        | CallName::Unequal
        | CallName::Less
        | CallName::LessEqual
        | CallName::Greater
        | CallName::GreaterEqual => Ok(compared(name, a, b)),
        CallName::IsDistinct => Ok(distinct(a, b)),
        CallName::Like => Ok(like(alloc, a, b)?),
        CallName::Concat => concat(alloc, a, b),
        CallName::AddDays => Ok(add_days(a, b)?),
        CallName::DaysBetween => Ok(days_between(a, b)),
        _ => Ok(Value::Null),
    }
}
