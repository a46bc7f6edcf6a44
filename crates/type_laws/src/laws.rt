//! What follows from the definitions.
ghost use Rattle.std.specs.Prelude.{◌≡◌, ◌≢◌, IsTrue, Ok, map};
ghost use Rattle.sql_functions.specs.CallTypes.{call_type, can_cast, takes_one, takes_two};
ghost use Rattle.sql_functions.specs.Calls.{binary_of, unary_of};
ghost use Rattle.sql_functions.specs.Casts.{cast_of};
ghost use Rattle.sql_values.specs.Cells.{lent_value};
ghost use Rattle.sql_values.specs.ColumnRows.{fits_row};
ghost use Rattle.sql_values.specs.Types.{IsType, has_type, row_has_types};
ghost use Rattle.sql_exprs.specs.Forms.{call, cast, form_view, forms_of};
ghost use Rattle.sql_exprs.specs.Meaning.{arg_values, value_of};
ghost use Rattle.sql_exprs.specs.Typing.{form_type};
ghost use Rattle.type_laws.specs.Keeps.{ArgsCastToTypes, CastsToTypes, KeepsType, NoneIsNull};

use json_paths::Step;
use sql_exprs::Expr;
use sql_functions::CallName;
use sql_values::{Row, SqlType, Value, ValueRef};

/// The law that a call of one argument, of a value of the type, gives a value of the type of the call
/// where it gives one.
#[tactic(auto, using(crate::proofs::CallLemmas::unary_keeps))]
pub fn calls_of_one_keep_types(name: CallName, kind: SqlType, value: ValueRef<'_>)
    requires has_type { IsTrue (has_type kind (lent_value value)) }
    ensures { KeepsType (call_type name kind SqlType.Boolean) (unary_of name kind (lent_value value.entry)) }
{}

/// The law that a call of two arguments, of values of the types, gives a value of the type of the call
/// where it gives one.
#[tactic(auto, using(crate::proofs::CallLemmas::binary_keeps))]
pub fn calls_of_two_keep_types(
    name: CallName,
    left: SqlType,
    right: SqlType,
    first: ValueRef<'_>,
    second: ValueRef<'_>,
)
    requires left { IsTrue (has_type left (lent_value first)) }
    requires right { IsTrue (has_type right (lent_value second)) }
    ensures { KeepsType (call_type name left right)
        (binary_of name left right (lent_value first.entry) (lent_value second.entry)) }
{}

/// The law that a cast that there is, of a value of the one type, gives a value of the other where it
/// gives one.
#[tactic(auto, using(crate::proofs::CastLemmas::cast_keeps))]
pub fn casts_keep_types(from: SqlType, to: SqlType, value: ValueRef<'_>)
    requires is_type { IsType to }
    requires can_cast { IsTrue (can_cast from to) }
    requires has_type { IsTrue (has_type from (lent_value value)) }
    ensures { KeepsType to (cast_of from to (lent_value value.entry)) }
{}

/// The law that calls of values give values: where a call takes the types of its one or two arguments,
/// and these are of their types and not NULL, it does not give NULL.
#[tactic(auto, using(crate::proofs::ValueLemmas::unary_gives_value, crate::proofs::ValueLemmas::binary_gives_value))]
pub fn calls_of_values_give_values(
    name: CallName,
    left: SqlType,
    right: SqlType,
    first: ValueRef<'_>,
    second: ValueRef<'_>,
)
    requires has_type { IsTrue (has_type left (lent_value first)) }
    requires not_null { lent_value first ≢ Value.Null }
    ensures of_one { IsTrue (takes_one name left) →
        unary_of name left (lent_value first.entry) ≢ Ok Value.Null }
    ensures of_two { IsTrue (takes_two name left right) →
        IsTrue (has_type right (lent_value second.entry)) →
        lent_value second.entry ≢ Value.Null →
        binary_of name left right (lent_value first.entry) (lent_value second.entry)
        ≢ Ok Value.Null }
{}

/// The law that casts of values give values: a cast that there is, of a value of the one type that is
/// not NULL, does not give NULL.
#[tactic(auto, using(crate::proofs::ValueLemmas::cast_gives_value))]
pub fn casts_of_values_give_values(from: SqlType, to: SqlType, value: ValueRef<'_>)
    requires is_type { IsType to }
    requires can_cast { IsTrue (can_cast from to) }
    requires has_type { IsTrue (has_type from (lent_value value)) }
    requires not_null { lent_value value ≢ Value.Null }
    ensures { cast_of from to (lent_value value.entry) ≢ Ok Value.Null }
{}

/// The law that the value of a typed expression on a row that has its columns' types, if there is one,
/// has the expression's type, where each type that a cast names is a type.
#[tactic(auto, using(crate::proofs::FormLemmas::value_keeps))]
pub fn typed_expressions_keep_types(
    columns: &[SqlType],
    row: &Row,
    path: &[Step],
    expr: &Expr,
    kind: SqlType,
)
    requires row { IsTrue (row_has_types columns.now row.now) }
    requires casts { CastsToTypes (form_view expr.now) }
    requires typed { form_type columns.now path.now (form_view expr.now) ≡ Ok kind }
    ensures { KeepsType kind (value_of columns.now (form_view expr.now) row.now) }
{}

/// The law that a row which has types fits them: each of its values has the variant of its type, or is NULL.
#[tactic(auto, using(crate::proofs::FormLemmas::typed_row_fits))]
pub fn typed_rows_fit(types: &[SqlType], row: &Row)
    requires { IsTrue (row_has_types types.now row.now) }
    ensures { IsTrue (fits_row types.now row.now) }
{}

/// The law that a call in a typed expression, none of whose arguments is NULL on a row that has its columns' types, is
/// not NULL on it: so no definition answers NULL for want of a value of its type.
pub fn typed_calls_of_values_give_values(
    columns: &[SqlType],
    row: &Row,
    path: &[Step],
    name: CallName,
    args: &[Expr],
    kind: SqlType,
)
    requires row { IsTrue (row_has_types columns.now row.now) }
    requires casts { ArgsCastToTypes (forms_of (map form_view args.now)) }
    requires typed { form_type columns.now path.now (call name (forms_of (map form_view args.now))) ≡ Ok kind }
    requires none { NoneIsNull (arg_values columns.now args.now row.now) }
    ensures { value_of columns.now (call name (forms_of (map form_view args.now))) row.now ≢ Ok Value.Null }
{}

/// The law that a cast in a typed expression is not NULL on a row that has its columns' types, where its argument is not.
pub fn typed_casts_of_values_give_values(
    columns: &[SqlType],
    row: &Row,
    path: &[Step],
    arg: &Expr,
    to: SqlType,
    kind: SqlType,
)
    requires row { IsTrue (row_has_types columns.now row.now) }
    requires casts { CastsToTypes (cast (form_view arg.now) to) }
    requires typed { form_type columns.now path.now (cast (form_view arg.now) to) ≡ Ok kind }
    requires none { value_of columns.now (form_view arg.now) row.now ≢ Ok Value.Null }
    ensures { value_of columns.now (cast (form_view arg.now) to) row.now ≢ Ok Value.Null }
{}
