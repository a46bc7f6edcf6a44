ghost use Rattle.std.specs.Prelude.{◌≡◌, map, IfOk};
ghost use Rattle.serde_json.specs.View.{view};
ghost use Rattle.sql_exprs.specs.Forms.{branch_view, form_view};
ghost use Rattle.plan_grammar.specs.Json.{under};
ghost use Rattle.plan_grammar.specs.Words.{form_of};
ghost use Rattle.plan_docs.specs.Exprs.{branch_by, expr_form, expr_under, form_at, form_by, inner_form, literal_of, missing};

use crate::words::{call_named, small_under, type_under};
use json_paths::Key;
use plan_grammar::{FormWord, entries_under, form_of, text_under};
use serde_json::Value;
use sql_exprs::{Branch, BranchList, Expr, ExprList};
use sql_values::{Memory, ParseFault, SqlType, Value as Cell, parse_value};
use std::alloc::Global;

/// The expression that a value writes.
#[tactic(auto, unfolding(crate::specs::Exprs::expr_form))]
pub fn read_expr(alloc: Global, value: &Value) -> Result<Expr, Memory>
    ensures { IfOk result (λ e. form_view e ≡ expr_form (view value.now)) }
{
    read_levels(alloc, 24, value)
}

/// What stands for an expression that is missing: the first column.
fn missing() -> Expr
    ensures { form_view result ≡ missing }
{
    Expr::Column(0)
}

/// The expression under a key.
pub fn expr_under(alloc: Global, object: &Value, key: Key) -> Result<Expr, Memory>
    ensures { IfOk result (λ e. form_view e ≡ expr_under key (view object.now)) }
{
    match object.get(key.text()) {
        Some(value) => read_expr(alloc, value),
        None => Ok(missing()),
    }
}

/// The expressions that the entries of a list write.
pub fn read_all(alloc: Global, entries: &[Value]) -> Result<ExprList, Memory>
    ensures { IfOk result (λ es. map form_view es.items ≡ map expr_form (map view entries.now)) }
{
    let mut exprs = Vec::with_capacity(alloc, entries.len())?;
    for entry in entries {
        exprs.push(read_expr(alloc, entry)?)?;
    }
    Ok(exprs)
}

/// The expression with so many forms above one another.
#[cycle(exprs)]
#[tactic(auto, using(crate::proofs::LevelLemmas::form_levels))]
fn read_levels(alloc: Global, levels: u32, value: &Value) -> Result<Expr, Memory>
    ensures { IfOk result (λ e. form_view e ≡ form_at levels (view value.now)) }
{
    if levels == 0 {
        return Ok(missing());
    }
    read_form(alloc, levels - 1, value)
}

#[cycle(exprs)]
fn read_form(alloc: Global, levels: u32, value: &Value) -> Result<Expr, Memory>
    ensures { IfOk result (λ e. form_view e
        ≡ form_by (form_at levels) (view value.now) (form_of (view value.now))) }
{
    match form_of(value) {
        FormWord::Col => Ok(Expr::Column(small_under(value, Key::Col))),
        FormWord::Lit => {
            read_literal(
                alloc,
                type_under(value, Key::Type),
                text_under(value, Key::Lit),
            )
        }
        FormWord::Null => Ok(Expr::Null(type_under(value, Key::Null))),
        FormWord::Call => Ok(Expr::Call {
            name: call_named(text_under(value, Key::Call)),
            args: read_args(alloc, levels, entries_under(value, Key::Args))?,
        }),
        FormWord::Cast => Ok(Expr::Cast {
            arg: Box::new(alloc, read_member(alloc, levels, value, Key::Cast)?)?,
            kind: type_under(value, Key::Type),
        }),
        FormWord::Case => Ok(Expr::Case {
            branches: read_branches(alloc, levels, entries_under(value, Key::Case))?,
            other: Box::new(alloc, read_member(alloc, levels, value, Key::Else)?)?,
        }),
    }
}

fn read_literal(alloc: Global, kind: SqlType, text: &str) -> Result<Expr, Memory>
    ensures { IfOk result (λ e. form_view e ≡ literal_of kind text.now) }
{
    match parse_value(alloc, kind, text) {
        Ok(value) => Ok(Expr::Literal { kind, value }),
        Err(ParseFault::Malformed) => Ok(Expr::Literal {
            kind,
            value: Cell::Null,
        }),
        Err(ParseFault::Memory) => Err(Memory),
    }
}

#[cycle(exprs)]
fn read_member(alloc: Global, levels: u32, object: &Value, key: Key) -> Result<Expr, Memory>
    ensures { IfOk result (λ e. form_view e
        ≡ inner_form (form_at levels) (under key (view object.now))) }
{
    match object.get(key.text()) {
        Some(value) => read_levels(alloc, levels, value),
        None => Ok(missing()),
    }
}

#[cycle(exprs)]
fn read_args(alloc: Global, levels: u32, entries: &[Value]) -> Result<ExprList, Memory>
    ensures { IfOk result (λ es. map form_view es.items
        ≡ map (form_at levels) (map view entries.now)) }
{
    let mut args = Vec::with_capacity(alloc, entries.len())?;
    for entry in entries {
        args.push(read_levels(alloc, levels, entry)?)?;
    }
    Ok(args)
}

#[cycle(exprs)]
fn read_branches(alloc: Global, levels: u32, entries: &[Value]) -> Result<BranchList, Memory>
    ensures { IfOk result (λ bs. map branch_view bs.items
        ≡ map (branch_by (form_at levels)) (map view entries.now)) }
{
    let mut branches = Vec::with_capacity(alloc, entries.len())?;
    for entry in entries {
        branches.push(read_branch(alloc, levels, entry)?)?;
    }
    Ok(branches)
}

#[cycle(exprs)]
fn read_branch(alloc: Global, levels: u32, object: &Value) -> Result<Branch, Memory>
    ensures { IfOk result (λ b. branch_view b ≡ branch_by (form_at levels) (view object.now)) }
{
    Ok(Branch {
        test: read_member(alloc, levels, object, Key::When)?,
        result: read_member(alloc, levels, object, Key::Then)?,
    })
}
