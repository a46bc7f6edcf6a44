//! Cases a column at a time: a condition counts only at the rows that no earlier one chose, and a result only at those that
//! its condition chose. Each answer is held against that of `eval_page` on the same rows too.
use crate::chain_tests::{DIVISORS, against_zero, is_large_quotient, numbers_are, quotient};
use crate::expr_tests::{WHOLE, binary, case_of, literal};
use crate::lane_tests::page_of;
use CallName::{Equal, Greater, Unequal};
use col_pages::Page;
use sql_exprs::{Branch, CallName, Expr};
use sql_values::Memory;
use std::alloc::Global;

const ALL: [u32; 5] = [0, 1, 2, 3, 4];

/// Rows in another order, one of them twice.
const SOME: [u32; 5] = [3, 1, 0, 3, 4];

fn is_above(alloc: Global, column: u32, number: &str) -> Result<Expr, Memory> {
    binary(
        alloc,
        Greater,
        Expr::Column(column),
        literal(alloc, WHOLE, number)?,
    )
}

fn branch(test: Result<Expr, Memory>, then: Result<Expr, Memory>) -> Result<Branch, Memory> {
    match (test, then) {
        (Ok(test), Ok(then)) => Ok(Branch { test, result: then }),
        _ => Err(Memory),
    }
}

/// A condition with a number as its result.
fn numbered(alloc: Global, test: Result<Expr, Memory>, number: &str) -> Result<Branch, Memory> {
    branch(test, literal(alloc, WHOLE, number))
}

fn one(alloc: Global, first: Result<Branch, Memory>) -> Result<Vec<Branch>, Memory> {
    let mut branches = Vec::new(alloc);
    branches.push(first?)?;
    Ok(branches)
}

fn with(
    branches: Result<Vec<Branch>, Memory>,
    next: Result<Branch, Memory>,
) -> Result<Vec<Branch>, Memory> {
    let mut branches = branches?;
    branches.push(next?)?;
    Ok(branches)
}

fn case_or(
    alloc: Global,
    branches: Result<Vec<Branch>, Memory>,
    other: Result<Expr, Memory>,
) -> Result<Expr, Memory> {
    match (branches, other) {
        (Ok(branches), Ok(other)) => Ok(Expr::Case {
            branches,
            other: Box::new(alloc, other)?,
        }),
        _ => Err(Memory),
    }
}

/// The quotient by the first column where this is not 0, else the second column.
fn quotient_or_second(alloc: Global) -> Result<Expr, Memory> {
    let first = branch(against_zero(alloc, Unequal), quotient(alloc));
    case_or(alloc, one(alloc, first), Ok(Expr::Column(1)))
}

#[test]
fn a_result_fails_only_where_its_condition_chose(rt: HostRuntime) -> Result<(), Memory> {
    let page = page_of(rt.alloc(), DIVISORS)?;
    let expr = quotient_or_second(rt.alloc())?;
    assert!(rt; numbers_are(rt.alloc(), &page, &expr, &ALL, "7 5 NULL 0 4 ")?);
    assert!(rt; numbers_are(rt.alloc(), &page, &expr, &SOME, "0 5 7 0 4 ")?);
    Ok(())
}

/// The second column where the first is above 0.
fn second_without_default(alloc: Global) -> Result<Expr, Memory> {
    let first = branch(is_above(alloc, 0, "0"), Ok(Expr::Column(1)));
    case_of(alloc, one(alloc, first)?, WHOLE, "NULL")
}

#[test]
fn without_default_a_case_is_null(rt: HostRuntime) -> Result<(), Memory> {
    let page = page_of(rt.alloc(), DIVISORS)?;
    let expr = second_without_default(rt.alloc())?;
    assert!(rt; numbers_are(rt.alloc(), &page, &expr, &ALL, "NULL NULL NULL 9 NULL ")?);
    assert!(rt; numbers_are(rt.alloc(), &page, &expr, &SOME, "9 NULL NULL 9 NULL ")?);
    Ok(())
}

/// 1 above 1, 2 above 10, 3 at 0, else 4.
fn three_branches(alloc: Global) -> Result<Expr, Memory> {
    let first = one(alloc, numbered(alloc, is_above(alloc, 0, "1"), "1"));
    let second = with(first, numbered(alloc, is_above(alloc, 0, "10"), "2"));
    let third = with(second, numbered(alloc, against_zero(alloc, Equal), "3"));
    case_or(alloc, third, literal(alloc, WHOLE, "4"))
}

#[test]
fn the_first_condition_that_is_true_chooses(rt: HostRuntime) -> Result<(), Memory> {
    let page = page_of(rt.alloc(), DIVISORS)?;
    let expr = three_branches(rt.alloc())?;
    assert!(rt; numbers_are(rt.alloc(), &page, &expr, &ALL, "3 1 3 1 4 ")?);
    assert!(rt; numbers_are(rt.alloc(), &page, &expr, &SOME, "1 1 3 1 4 ")?);
    Ok(())
}

/// 1 where the first column is 0, 2 where the quotient is large, else 3.
fn guarded(alloc: Global) -> Result<Expr, Memory> {
    let first = one(alloc, numbered(alloc, against_zero(alloc, Equal), "1"));
    let second = with(first, numbered(alloc, is_large_quotient(alloc), "2"));
    case_or(alloc, second, literal(alloc, WHOLE, "3"))
}

/// The other way round.
fn unguarded(alloc: Global) -> Result<Expr, Memory> {
    let first = one(alloc, numbered(alloc, is_large_quotient(alloc), "2"));
    let second = with(first, numbered(alloc, against_zero(alloc, Equal), "1"));
    case_or(alloc, second, literal(alloc, WHOLE, "3"))
}

#[test]
fn a_condition_fails_only_where_none_chose_before(rt: HostRuntime) -> Result<(), Memory> {
    let page = page_of(rt.alloc(), DIVISORS)?;
    let expr = guarded(rt.alloc())?;
    assert!(rt; numbers_are(rt.alloc(), &page, &expr, &ALL, "1 2 1 3 3 ")?);
    let other = unguarded(rt.alloc())?;
    assert!(rt;
        numbers_are(
            rt.alloc(),
            &page,
            &other,
            &[1, 3, 2, 0],
            "DivisionByZero at 2"
        )?
    );
    Ok(())
}

/// The second column where it is above 0, else the quotient by the first.
fn second_or_quotient(alloc: Global) -> Result<Expr, Memory> {
    let first = branch(is_above(alloc, 1, "0"), Ok(Expr::Column(1)));
    case_or(alloc, one(alloc, first), quotient(alloc))
}

#[test]
fn a_default_fails_only_where_none_chose(rt: HostRuntime) -> Result<(), Memory> {
    let page = page_of(rt.alloc(), DIVISORS)?;
    let expr = second_or_quotient(rt.alloc())?;
    assert!(rt; numbers_are(rt.alloc(), &page, &expr, &[0, 1, 3, 4], "7 5 9 4 ")?);
    assert!(rt; numbers_are(rt.alloc(), &page, &expr, &[1, 0, 2], "DivisionByZero at 2")?);
    Ok(())
}
