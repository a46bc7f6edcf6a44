ghost use Rattle.std.specs.Prelude.{◌≡◌, Option, option_map, map, MatchResult};
ghost use Rattle.sql_values.specs.Cells.{lent_value};
ghost use Rattle.sql_functions.specs.Outcomes.{FailsBy, and_then};
ghost use Rattle.sql_functions.specs.Calls.{binary_of, unary_of};
ghost use Rattle.sql_functions.specs.Casts.{cast_of};
ghost use Rattle.sql_functions.specs.Truth.{is_true, truth_and, truth_or};
ghost use Rattle.sql_values.specs.declared.value.Value.{Value};
ghost use Rattle.sql_exprs.specs.Forms.{form_view};
ghost use Rattle.sql_exprs.specs.Held.{held_value};
ghost use Rattle.sql_exprs.specs.Meaning.{arg_kinds, arg_values, branch_values, kind_of, value_of};
ghost use Rattle.sql_exprs.specs.Rows.{ChoiceFailsBy, and_of, call_of, chosen_of, coalesce_of, or_of, strict_of};

use crate::cells::Cells;
use crate::expr::{Branch, Expr};
use crate::held::Held;
use crate::kinds::kind_of;
use sql_functions::{
    CallName, binary, cast, is_false, is_null, is_true, truth_and, truth_or, unary,
};
use sql_values::{EvalFault, Row, SqlType, Value, ValueRef};
use std::alloc::Global;

/// The value of an expression on a row whose columns have the types.
pub fn eval_row(
    alloc: Global,
    expr: &Expr,
    types: &[SqlType],
    row: &Row,
) -> Result<Value, EvalFault>
    ensures { MatchResult result
        (λ v. value_of types.now (form_view expr.now) row.now ≡ Ok v)
        (FailsBy (value_of types.now (form_view expr.now) row.now)) }
{
    Ok(eval_cells(alloc, expr, types, row)?.into_value(alloc)?)
}

/// The value of an expression on cells whose columns have the types. Texts of cells and literals
/// are lent.
#[cycle(eval)]
pub fn eval_cells<'a, C: Cells>(
    alloc: Global,
    expr: &'a Expr,
    types: &[SqlType],
    row: &'a C,
) -> Result<Held<'a>, EvalFault>
    ensures { MatchResult result
        (λ h. value_of types.now (form_view expr.now) (C.values row.now) ≡ Ok (held_value h))
        (FailsBy (value_of types.now (form_view expr.now) (C.values row.now))) }
{
    match expr {
        Expr::Column(column) => Ok(Held::Lent(row.cell(*column))),
        Expr::Literal { value, .. } => Ok(Held::Lent(value.as_ref())),
        Expr::Null(_) => Ok(Held::Lent(ValueRef::Null)),
        Expr::Call { name, args } => eval_call(alloc, *name, args.as_slice(), types, row),
        Expr::Cast { arg, kind } => eval_cast(alloc, arg, *kind, types, row),
        Expr::Case { branches, other } => {
            match eval_branches(alloc, branches.as_slice(), types, row)? {
                Some(value) => Ok(value),
                None => eval_cells(alloc, other, types, row),
            }
        }
    }
}

#[cycle(eval)]
fn eval_cast<'a, C: Cells>(
    alloc: Global,
    arg: &'a Expr,
    kind: SqlType,
    types: &[SqlType],
    row: &'a C,
) -> Result<Held<'a>, EvalFault>
    ensures { MatchResult result
        (λ h. and_then (value_of types.now (form_view arg.now) (C.values row.now))
        (cast_of (kind_of types.now (form_view arg.now)) kind) ≡ Ok (held_value h))
        (FailsBy (and_then (value_of types.now (form_view arg.now) (C.values row.now))
        (cast_of (kind_of types.now (form_view arg.now)) kind))) }
{
    let value = eval_cells(alloc, arg, types, row)?;
    Ok(Held::Made(cast(alloc, kind_of(types, arg), kind, value.as_ref())?))
}

#[cycle(eval)]
fn eval_call<'a, C: Cells>(
    alloc: Global,
    name: CallName,
    args: &'a [Expr],
    types: &[SqlType],
    row: &'a C,
) -> Result<Held<'a>, EvalFault>
    ensures { MatchResult result
        (λ h. call_of name (arg_kinds types.now args.now)
        (arg_values types.now args.now (C.values row.now)) ≡ Ok (held_value h))
        (FailsBy (call_of name (arg_kinds types.now args.now)
        (arg_values types.now args.now (C.values row.now)))) }
{
    match name {
        CallName::And => eval_and(alloc, args, types, row),
        CallName::Or => eval_or(alloc, args, types, row),
        CallName::Coalesce => eval_coalesce(alloc, args, types, row),
        _ => eval_strict(alloc, name, args, types, row),
    }
}

/// Stops at the first FALSE.
#[tactic(auto, using(crate::proofs::TruthLemmas::and_of_from))]
#[cycle(eval)]
fn eval_and<'a, C: Cells>(
    alloc: Global,
    args: &'a [Expr],
    types: &[SqlType],
    row: &'a C,
) -> Result<Held<'a>, EvalFault>
    ensures { MatchResult result
        (λ h. and_of (arg_values types.now args.now (C.values row.now)) ≡ Ok (held_value h))
        (FailsBy (and_of (arg_values types.now args.now (C.values row.now)))) }
{
    let mut so_far = Value::Boolean(true);
    for arg in args {
        so_far = and_next(alloc, so_far.as_ref(), arg, types, row)?;
        if is_false(so_far.as_ref()) {
            return Ok(Held::Made(so_far));
        }
    }
    Ok(Held::Made(so_far))
}

/// What AND makes of a value so far and the value of an argument.
#[cycle(eval)]
fn and_next<C: Cells>(
    alloc: Global,
    so_far: ValueRef<'_>,
    arg: &Expr,
    types: &[SqlType],
    row: &C,
) -> Result<Value, EvalFault>
    ensures { MatchResult result
        (λ next. and_then (value_of types.now (form_view arg.now) (C.values row.now))
        (λ v. Ok (truth_and (lent_value so_far.entry) v)) ≡ Ok next)
        (FailsBy (and_then (value_of types.now (form_view arg.now) (C.values row.now))
        (λ v. Ok (truth_and (lent_value so_far.entry) v)))) }
{
    let value = eval_cells(alloc, arg, types, row)?;
    Ok(truth_and(so_far, value.as_ref()))
}

/// Stops at the first TRUE.
#[tactic(auto, using(crate::proofs::TruthLemmas::or_of_from))]
#[cycle(eval)]
fn eval_or<'a, C: Cells>(
    alloc: Global,
    args: &'a [Expr],
    types: &[SqlType],
    row: &'a C,
) -> Result<Held<'a>, EvalFault>
    ensures { MatchResult result
        (λ h. or_of (arg_values types.now args.now (C.values row.now)) ≡ Ok (held_value h))
        (FailsBy (or_of (arg_values types.now args.now (C.values row.now)))) }
{
    let mut so_far = Value::Boolean(false);
    for arg in args {
        so_far = or_next(alloc, so_far.as_ref(), arg, types, row)?;
        if is_true(so_far.as_ref()) {
            return Ok(Held::Made(so_far));
        }
    }
    Ok(Held::Made(so_far))
}

/// What OR makes of a value so far and the value of an argument.
#[cycle(eval)]
fn or_next<C: Cells>(
    alloc: Global,
    so_far: ValueRef<'_>,
    arg: &Expr,
    types: &[SqlType],
    row: &C,
) -> Result<Value, EvalFault>
    ensures { MatchResult result
        (λ next. and_then (value_of types.now (form_view arg.now) (C.values row.now))
        (λ v. Ok (truth_or (lent_value so_far.entry) v)) ≡ Ok next)
        (FailsBy (and_then (value_of types.now (form_view arg.now) (C.values row.now))
        (λ v. Ok (truth_or (lent_value so_far.entry) v)))) }
{
    let value = eval_cells(alloc, arg, types, row)?;
    Ok(truth_or(so_far, value.as_ref()))
}

/// Stops at the first value that is not NULL.
#[cycle(eval)]
fn eval_coalesce<'a, C: Cells>(
    alloc: Global,
    args: &'a [Expr],
    types: &[SqlType],
    row: &'a C,
) -> Result<Held<'a>, EvalFault>
    ensures { MatchResult result
        (λ h. coalesce_of (arg_values types.now args.now (C.values row.now)) ≡ Ok (held_value h))
        (FailsBy (coalesce_of (arg_values types.now args.now (C.values row.now)))) }
{
    for arg in args {
        let value = eval_cells(alloc, arg, types, row)?;
        if !is_null(value.as_ref()) {
            return Ok(value);
        }
    }
    Ok(Held::Lent(ValueRef::Null))
}

/// A call that takes the values of all its arguments.
#[tactic(auto, using(crate::proofs::EvalLemmas::strict_of_many))]
#[cycle(eval)]
fn eval_strict<'a, C: Cells>(
    alloc: Global,
    name: CallName,
    args: &'a [Expr],
    types: &[SqlType],
    row: &'a C,
) -> Result<Held<'a>, EvalFault>
    ensures { MatchResult result
        (λ h. strict_of name (arg_kinds types.now args.now)
        (arg_values types.now args.now (C.values row.now)) ≡ Ok (held_value h))
        (FailsBy (strict_of name (arg_kinds types.now args.now)
        (arg_values types.now args.now (C.values row.now)))) }
{
    match args {
        [arg] => eval_unary(alloc, name, arg, types, row),
        [left, right] => {
            let value = eval_cells(alloc, left, types, row)?;
            eval_second(
                alloc,
                name,
                kind_of(types, left),
                value.as_ref(),
                right,
                types,
                row,
            )
        }
        [] => Ok(Held::Lent(ValueRef::Null)),
        [_, _, _, ..] => Ok(Held::Lent(ValueRef::Null)),
    }
}

#[cycle(eval)]
fn eval_unary<'a, C: Cells>(
    alloc: Global,
    name: CallName,
    arg: &'a Expr,
    types: &[SqlType],
    row: &'a C,
) -> Result<Held<'a>, EvalFault>
    ensures { MatchResult result
        (λ h. and_then (value_of types.now (form_view arg.now) (C.values row.now))
        (unary_of name (kind_of types.now (form_view arg.now))) ≡ Ok (held_value h))
        (FailsBy (and_then (value_of types.now (form_view arg.now) (C.values row.now))
        (unary_of name (kind_of types.now (form_view arg.now))))) }
{
    let value = eval_cells(alloc, arg, types, row)?;
    Ok(Held::Made(unary(name, kind_of(types, arg), value.as_ref())?))
}

/// A call whose first argument has the value.
#[cycle(eval)]
fn eval_second<'a, C: Cells>(
    alloc: Global,
    name: CallName,
    left: SqlType,
    a: ValueRef<'_>,
    right: &'a Expr,
    types: &[SqlType],
    row: &'a C,
) -> Result<Held<'a>, EvalFault>
    ensures { MatchResult result
        (λ h. and_then (value_of types.now (form_view right.now) (C.values row.now))
        (binary_of name left (kind_of types.now (form_view right.now)) (lent_value a.entry))
        ≡ Ok (held_value h))
        (FailsBy (and_then (value_of types.now (form_view right.now) (C.values row.now))
        (binary_of name left (kind_of types.now (form_view right.now)) (lent_value a.entry)))) }
{
    let b = eval_cells(alloc, right, types, row)?;
    Ok(Held::Made(binary(alloc, name, left, a, kind_of(types, right), b.as_ref())?))
}

/// The result of the first branch whose test is TRUE, if there is one.
#[cycle(eval)]
fn eval_branches<'a, C: Cells>(
    alloc: Global,
    branches: &'a [Branch],
    types: &[SqlType],
    row: &'a C,
) -> Result<Option<Held<'a>>, EvalFault>
    ensures { MatchResult result
        (λ o. chosen_of (branch_values types.now branches.now (C.values row.now))
        ≡ option_map (λ h. Ok (held_value h)) o)
        (ChoiceFailsBy (chosen_of (branch_values types.now branches.now (C.values row.now)))) }
{
    for branch in branches {
        if holds(alloc, &branch.test, types, row)? {
            return Ok(Some(eval_cells(alloc, &branch.result, types, row)?));
        }
    }
    Ok(None)
}

/// Whether a test is TRUE.
#[cycle(eval)]
fn holds<C: Cells>(
    alloc: Global,
    test: &Expr,
    types: &[SqlType],
    row: &C,
) -> Result<bool, EvalFault>
    ensures { MatchResult result
        (λ b. (v : Value) × (value_of types.now (form_view test.now) (C.values row.now) ≡ Ok v)
        × (b ≡ is_true v))
        (FailsBy (value_of types.now (form_view test.now) (C.values row.now))) }
{
    let value = eval_cells(alloc, test, types, row)?;
    Ok(is_true(value.as_ref()))
}
