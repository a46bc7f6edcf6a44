//! Rows worked out by hand. Filters are at node 7, over one column of whole numbers, and so are limits.
ghost use Rattle.std.specs.Prelude.{◌≡◌, [], ◌∷◌, IfOk, IfSome};
ghost use Rattle.sql_values.specs.declared.types.SqlType.TheVariants as kind;
ghost use Rattle.col_pages.specs.Pages.{TypedPage};
ghost use Rattle.col_pages.specs.Fits.{IsOfTypes};

use crate::steps::first_wrong;
use operator_core::Operator;
use row_ops::{FilterProject, LimitOp, are_typed};
use sql_exprs::{CallName, Expr};
use sql_values::{Memory, SqlType, Value};
use std::alloc::Global;
use std::sync::Wait;
use std::thread::Threads;

const WHOLE: SqlType = SqlType::Bigint;

fn number(n: i64) -> Expr {
    Expr::Literal {
        kind: WHOLE,
        value: Value::Bigint(n),
    }
}

fn call(alloc: Global, name: CallName, left: Expr, right: Expr) -> Result<Expr, Memory> {
    let mut args = Vec::new(alloc);
    args.push(left)?;
    args.push(right)?;
    Ok(Expr::Call { name, args })
}

/// Whether 12 divided by the number is more than 3.
fn predicate(alloc: Global) -> Result<Option<Expr>, Memory> {
    let quotient = call(alloc, CallName::Divide, number(12), Expr::Column(0))?;
    Ok(Some(call(alloc, CallName::Greater, quotient, number(3))?))
}

/// The number more than `least`.
fn columns(alloc: Global, least: i64) -> Result<Vec<Expr>, Memory> {
    let mut columns = Vec::new(alloc);
    columns.push(call(alloc, CallName::Add, number(least), Expr::Column(0))?)?;
    Ok(columns)
}

fn whole(alloc: Global) -> Result<Vec<SqlType>, Memory>
    ensures { IfOk result (λ types. types.items ≡ kind.Bigint ∷ []) }
{
    let mut types = Vec::new(alloc);
    types.push(WHOLE)?;
    Ok(types)
}

/// An operator of typed expressions takes each page of these types.
fn made(
    alloc: Global,
    types: Vec<SqlType>,
    predicate: Option<Expr>,
    columns: Vec<Expr>,
) -> Result<Option<FilterProject>, Memory>
    ensures { IfOk result (λ o. IfSome o (λ op. (page : TypedPage) → IsOfTypes types.items page
        → ⟦<FilterProject as Operator>⟧.takes op page)) }
{
    if !are_typed(alloc, types.as_slice(), &predicate, columns.as_slice())? {
        return Ok(None);
    }
    Ok(Some(FilterProject::new(alloc, 7, types, predicate, columns)))
}

fn operator(alloc: Global, least: i64) -> Result<Option<FilterProject>, Memory>
    ensures { IfOk result (λ o. IfSome o (λ op. (page : TypedPage) → IsOfTypes (kind.Bigint ∷ []) page
        → ⟦<FilterProject as Operator>⟧.takes op page)) }
{
    let types = whole(alloc)?;
    let predicate = predicate(alloc)?;
    let columns = columns(alloc, least)?;
    made(alloc, types, predicate, columns)
}

/// The number of the first line that a filter answers otherwise; 0 where there is none.
fn first_wrong_of<R: Threads + Wait + Sync>(
    rt: &R,
    alloc: Global,
    least: i64,
    lines: &str,
) -> Result<u32, Memory> {
    let Some(mut op) = operator(alloc, least)? else {
        return Ok(99);
    };
    first_wrong(rt, alloc, &mut op, lines)
}

#[test]
fn rows_are_kept_and_mapped_page_by_page(rt: HostRuntime) -> Result<(), Memory> {
    let lines = "1 4 2 | taken\n3 | refused\nget | 11,12,\n6 | taken\nget | none\n3 | taken\n\
        end | told\nget | 13,\nover | yes";
    assert!(rt; first_wrong_of(&rt, rt.alloc(), 10, lines)? == 0);
    Ok(())
}

#[test]
fn the_first_row_that_fails_is_told(rt: HostRuntime) -> Result<(), Memory> {
    let lines = "2 0 1 | node 7 failed: division by zero\nget | 2,\nend | told\n\
        get | node 7 failed: division by zero\nover | no";
    assert!(rt; first_wrong_of(&rt, rt.alloc(), 0, lines)? == 0);
    Ok(())
}

#[test]
fn a_column_fails_before_a_later_row_of_the_filter(rt: HostRuntime) -> Result<(), Memory> {
    let lines = "2 3 0 | node 7 failed: a number is out of its type's range\n\
        get | 9223372036854775807,";
    assert!(rt; first_wrong_of(&rt, rt.alloc(), 9_223_372_036_854_775_805, lines)? == 0);
    Ok(())
}

#[test]
fn a_limit_gives_the_first_rows_and_takes_in_the_rest(rt: HostRuntime) -> Result<(), Memory> {
    let mut op = LimitOp::new(rt.alloc(), 4);
    let lines = "1 2 3 | taken\n4 | refused\nget | 1,2,3,\n4 5 | taken\nget | 4,\n6 | taken\n\
        get | none\nover | no\nend | told\nover | yes";
    assert!(rt; first_wrong(&rt, rt.alloc(), &mut op, lines)? == 0);
    Ok(())
}

#[test]
fn a_limit_of_no_row_gives_none(rt: HostRuntime) -> Result<(), Memory> {
    let mut op = LimitOp::new(rt.alloc(), 0);
    let lines = "1 2 | taken\n3 | taken\nget | none";
    assert!(rt; first_wrong(&rt, rt.alloc(), &mut op, lines)? == 0);
    Ok(())
}
