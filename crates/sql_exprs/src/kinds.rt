ghost use Rattle.std.specs.Prelude.{◌≡◌};
ghost use Rattle.sql_functions.specs.CallTypes.{type_at};
ghost use Rattle.sql_exprs.specs.Forms.{form_view};
ghost use Rattle.sql_exprs.specs.Meaning.{arg_kinds, kind_of, type_of_call};

use crate::expr::Expr;
use sql_functions::{CallName, call_type};
use sql_values::SqlType;

/// The type of an expression that is typed.
#[cycle(kinds)]
pub fn kind_of(types: &[SqlType], expr: &Expr) -> SqlType
    ensures { result ≡ kind_of types.now (form_view expr.now) }
{
    match expr {
        Expr::Column(column) => type_at(types, *column as usize),
        Expr::Literal { kind, .. } => *kind,
        Expr::Null(kind) => *kind,
        Expr::Call { name, args } => kind_of_call(types, *name, args.as_slice()),
        Expr::Cast { kind, .. } => *kind,
        Expr::Case { other, .. } => kind_of(types, other),
    }
}

#[cycle(kinds)]
fn kind_of_call(types: &[SqlType], name: CallName, args: &[Expr]) -> SqlType
    ensures { result ≡ type_of_call name (arg_kinds types.now args.now) }
{
    match args {
        [] => call_type(name, SqlType::Boolean, SqlType::Boolean),
        [only] => call_type(name, kind_of(types, only), SqlType::Boolean),
        [first, second, ..] => call_type(name, kind_of(types, first), kind_of(types, second)),
    }
}

/// The type of the column at a place: boolean where there is none.
fn type_at(types: &[SqlType], at: usize) -> SqlType
    ensures { result ≡ type_at types.now at }
{
    match types.get(at) {
        Some(kind) => *kind,
        None => SqlType::Boolean,
    }
}
