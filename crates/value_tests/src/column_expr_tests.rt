//! Expressions a column at a time: their values, and the first position at which one fails.
use crate::expr_tests::{WHOLE, binary, literal};
use crate::typing_tests::show;
use CallName::{Add, Divide, Greater};
use col_pages::{Page, PageBuilder};
use column_exprs::eval_columns;
use sql_exprs::{CallName, Expr};
use sql_values::{Memory, ValueRef};
use std::alloc::Global;

fn put_pairs(builder: &mut PageBuilder, pairs: &[(i64, i64)]) -> Result<(), Memory> {
    for (a, b) in pairs {
        builder.put(ValueRef::Bigint(*a))?;
        builder.put(ValueRef::Bigint(*b))?;
        if !builder.is_full() {
            builder.end_row();
        }
    }
    Ok(())
}

/// Rows of two numbers.
fn page_of(alloc: Global, pairs: &[(i64, i64)]) -> Result<Page, Memory> {
    let mut builder = PageBuilder::new(alloc, &[WHOLE, WHOLE], 64)?;
    put_pairs(&mut builder, pairs)?;
    builder.build()
}

fn shows(
    alloc: Global,
    page: &Page,
    expr: &Expr,
    positions: &[u32],
    wanted: &str,
) -> Result<bool, Memory> {
    let mut text = String::new(alloc);
    show(&mut text, eval_columns(alloc, expr, page, positions))?;
    Ok(text.as_str() == wanted)
}

/// 10 / b.
fn quotient(alloc: Global) -> Result<Expr, Memory> {
    binary(alloc, Divide, literal(alloc, WHOLE, "10")?, Expr::Column(1))
}

/// (a + 1) > (10 / b).
fn sum_above_quotient(alloc: Global) -> Result<Expr, Memory> {
    let sum = binary(alloc, Add, Expr::Column(0), literal(alloc, WHOLE, "1")?)?;
    binary(alloc, Greater, sum, quotient(alloc)?)
}

fn quotients_hold(alloc: Global, expr: &Expr) -> Result<bool, Memory> {
    let page = page_of(alloc, &[(0, 1), (0, 0), (0, 2), (0, 0)])?;
    Ok(
        shows(alloc, &page, expr, &[0, 2], "10 5 ")?
            && shows(alloc, &page, expr, &[2, 3, 1], "DivisionByZero at 3")?,
    )
}

fn the_left_row_fails_first(alloc: Global, expr: &Expr) -> Result<bool, Memory> {
    let page = page_of(alloc, &[(1, 0), (9_223_372_036_854_775_807, 1)])?;
    shows(alloc, &page, expr, &[0, 1], "DivisionByZero at 0")
}

#[test]
fn values_or_the_first_failure(rt: HostRuntime) -> Result<(), Memory> {
    let alloc = rt.alloc();
    assert!(rt; quotients_hold(alloc, &quotient(alloc)?)?);
    assert!(rt; the_left_row_fails_first(alloc, &sum_above_quotient(alloc)?)?);
    Ok(())
}
