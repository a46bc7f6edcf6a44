//! What follows from the definitions.
ghost use Rattle.std.specs.Prelude.{◌≡◌, IsTrue, is_ok, Ok, fold, true, false};
ghost use Rattle.sql_values.specs.ColumnRows.{fits_row};
ghost use Rattle.sql_functions.specs.Outcomes.{GivesType};
ghost use Rattle.sql_functions.specs.Truth.{truth_and, truth_or};
ghost use Rattle.sql_exprs.specs.Calm.{is_calm};
ghost use Rattle.sql_exprs.specs.Forms.{form_view};
ghost use Rattle.sql_exprs.specs.Laws.{found};
ghost use Rattle.sql_exprs.specs.Meaning.{kind_of, value_of};
ghost use Rattle.sql_exprs.specs.Typing.{form_type};
ghost use Rattle.sql_exprs.specs.Rows.{and_of, or_of};

use crate::expr::Expr;
use json_paths::Step;
use sql_values::{Row, SqlType, Value};

/// The law that the type of an expression that is typed is its kind.
#[tactic(auto, using(crate::proofs::TypingLemmas::kind_is))]
pub fn typed_kind(columns: &[SqlType], path: &[Step], expr: &Expr, kind: SqlType)
    requires { form_type columns.now path.now (form_view expr.now) ≡ Ok kind }
    ensures { kind_of columns.now (form_view expr.now) ≡ kind }
{}

/// The law that AND gives what the truth table gives where all its arguments have values.
#[tactic(auto, using(crate::proofs::TruthLemmas::and_of_found))]
pub fn and_is_by_the_truth_table(values: &[Value])
    ensures { and_of (found values.now) ≡ Ok (fold truth_and (Value.Boolean true) values.now) }
{}

/// The law that OR gives what the truth table gives where all its arguments have values.
#[tactic(auto, using(crate::proofs::TruthLemmas::or_of_found))]
pub fn or_is_by_the_truth_table(values: &[Value])
    ensures { or_of (found values.now) ≡ Ok (fold truth_or (Value.Boolean false) values.now) }
{}

/// The law that the value of a typed expression on a row that fits its columns' types, if there is
/// one, has the variant of the expression's type or is NULL.
#[tactic(auto, using(crate::proofs::FitLemmas::value_gives))]
pub fn typed_values_fit(columns: &[SqlType], row: &Row, path: &[Step], expr: &Expr, kind: SqlType)
    requires row { IsTrue (fits_row columns.now row.now) }
    requires typed { form_type columns.now path.now (form_view expr.now) ≡ Ok kind }
    ensures { GivesType kind (value_of columns.now (form_view expr.now) row.now) }
{}

/// The law that a typed expression in which nothing can fail has a value on each row that fits its
/// columns' types.
#[tactic(auto, using(crate::proofs::CalmLemmas::calm_value))]
pub fn calm_never_fails(columns: &[SqlType], row: &Row, path: &[Step], expr: &Expr, kind: SqlType)
    requires row { IsTrue (fits_row columns.now row.now) }
    requires typed { form_type columns.now path.now (form_view expr.now) ≡ Ok kind }
    requires calm { IsTrue (is_calm columns.now (form_view expr.now)) }
    ensures { IsTrue (is_ok (value_of columns.now (form_view expr.now) row.now)) }
{}
