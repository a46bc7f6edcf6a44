//! Expressions over a column of whole numbers.
use sql_exprs::{CallName, Expr};
use sql_values::{Memory, SqlType, Value};
use std::alloc::Global;

pub(crate) fn number(n: i64) -> Expr {
    Expr::Literal {
        kind: SqlType::Bigint,
        value: Value::Bigint(n),
    }
}

pub(crate) fn call(alloc: Global, name: CallName, left: Expr, right: Expr) -> Result<Expr, Memory> {
    let args = Vec::from_array(alloc, [left, right])?;
    Ok(Expr::Call { name, args })
}

/// Whether 12 divided by the number is more than 3.
pub(crate) fn predicate(alloc: Global) -> Result<Expr, Memory> {
    let quotient = call(alloc, CallName::Divide, number(12), Expr::Column(0))?;
    call(alloc, CallName::Greater, quotient, number(3))
}

/// The number more than `least`.
pub(crate) fn sum(alloc: Global, least: i64) -> Result<Expr, Memory> {
    call(alloc, CallName::Add, number(least), Expr::Column(0))
}
