ghost use Rattle.std.specs.Prelude.{◌≡◌, [], Option, slice_get};
ghost use Rattle.sql_exprs.specs.Forms.{form_view};
ghost use Rattle.sql_exprs.specs.Calm.{all_branches_are_calm, args_are_calm, args_show, can_fail, is_calm, is_calm_cast, results_show, shown_by_call, shown_type};

use crate::expr::{Branch, Expr};
use sql_functions::{CallName, call_type, same_type};
use sql_values::SqlType;

/// Whether nothing in the expression can fail, as far as its form alone shows.
pub fn is_calm(expr: &Expr) -> bool
    ensures { result ≡ is_calm [] (form_view expr.now) }
{
    is_calm_over(&[], expr)
}

/// Whether nothing in the expression can fail on columns of these types.
#[cycle(calm)]
pub fn is_calm_over(types: &[SqlType], expr: &Expr) -> bool
    ensures { result ≡ is_calm types.now (form_view expr.now) }
{
    match expr {
        Expr::Column(_) | Expr::Literal { .. } | Expr::Null(_) => true,
        Expr::Call { name, args } => !can_fail(*name) && args_are_calm(types, args.as_slice()),
        Expr::Cast { arg, kind } => {
            is_calm_cast(shown_type(types, arg), *kind) && is_calm_over(types, arg)
        }
        Expr::Case { branches, other } => {
            branches_are_calm(types, branches.as_slice()) && is_calm_over(types, other)
        }
    }
}

#[cycle(calm)]
fn args_are_calm(types: &[SqlType], args: &[Expr]) -> bool
    ensures { result ≡ args_are_calm types.now args.now }
{
    for arg in args {
        if !is_calm_over(types, arg) {
            return false;
        }
    }
    true
}

#[cycle(calm)]
fn branches_are_calm(types: &[SqlType], branches: &[Branch]) -> bool
    ensures { result ≡ all_branches_are_calm types.now branches.now }
{
    for branch in branches {
        if !is_calm_over(types, &branch.test) {
            return false;
        }
        if !is_calm_over(types, &branch.result) {
            return false;
        }
    }
    true
}

/// Whether the call is marked as able to fail.
fn can_fail(name: CallName) -> bool
    ensures { result ≡ can_fail name }
{
    match name {
        CallName::Add
        | CallName::Subtract
        | CallName::Multiply
        | CallName::Divide
        | CallName::Modulo
        | CallName::Neg
        | CallName::Concat
        | CallName::AddDays => true,
        _ => false,
    }
}

fn is_calm_cast(shown: Option<SqlType>, to: SqlType) -> bool
    ensures { result ≡ is_calm_cast shown to }
{
    match to {
        SqlType::Varchar => true,
        _ => match shown {
            Some(from) => same_type(from, to),
            None => false,
        },
    }
}

fn known_type(types: &[SqlType], at: usize) -> Option<SqlType>
    ensures { result ≡ slice_get types.now at }
{
    match types.get(at) {
        Some(kind) => Some(*kind),
        None => None,
    }
}

/// The type that shows in the expression.
#[cycle(shown)]
fn shown_type(types: &[SqlType], expr: &Expr) -> Option<SqlType>
    ensures { result ≡ shown_type types.now (form_view expr.now) }
{
    match expr {
        Expr::Column(column) => known_type(types, *column as usize),
        Expr::Literal { kind, .. } => Some(*kind),
        Expr::Null(kind) => Some(*kind),
        Expr::Call { name, args } => shown_by_call(*name, args_show(types, args.as_slice())),
        Expr::Cast { kind, .. } => Some(*kind),
        Expr::Case { branches, other } => match shown_type(types, other) {
            Some(kind) => Some(kind),
            None => results_show(types, branches.as_slice()),
        },
    }
}

#[cycle(shown)]
fn args_show(types: &[SqlType], args: &[Expr]) -> Option<SqlType>
    ensures { result ≡ args_show types.now args.now }
{
    for arg in args {
        if let Some(kind) = shown_type(types, arg) {
            return Some(kind);
        }
    }
    None
}

#[cycle(shown)]
fn results_show(types: &[SqlType], branches: &[Branch]) -> Option<SqlType>
    ensures { result ≡ results_show types.now branches.now }
{
    for branch in branches {
        if let Some(kind) = shown_type(types, &branch.result) {
            return Some(kind);
        }
    }
    None
}

fn shown_by_call(name: CallName, shown: Option<SqlType>) -> Option<SqlType>
    ensures { result ≡ shown_by_call name shown }
{
    match name {
        CallName::Add | CallName::Subtract | CallName::Multiply | CallName::Neg => None,
        CallName::Coalesce => shown,
        _ => Some(call_type(name, SqlType::Boolean, SqlType::Boolean)),
    }
}
