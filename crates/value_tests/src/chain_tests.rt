//! AND, OR and COALESCE a column at a time: a later argument counts only at the rows that need it. Each answer is held
//! against that of `eval_page` on the same rows too.
use crate::expr_tests::{WHOLE, binary, literal};
use crate::lane_tests::{page_of, show_truths};
use crate::typing_tests::show;
use CallName::{And, Coalesce, Divide, Equal, Greater, Or, Unequal};
use col_pages::Page;
use column_exprs::eval_columns;
use sql_exprs::{CallName, Expr, eval_page};
use sql_values::Memory;
use std::alloc::Global;

/// Each two of true, false and NULL, as numbers above 0, 0 and NULL.
const TRUTHS: &str = "1 1\n1 0\n1 NULL\n0 1\n0 0\n0 NULL\nNULL 1\nNULL 0\nNULL NULL";

/// Rows of which two have a 0 in the first column.
pub(crate) const DIVISORS: &str = "0 7\n2 NULL\n0 NULL\n20 9\nNULL 4";

const ALL: [u32; 9] = [0, 1, 2, 3, 4, 5, 6, 7, 8];

fn is_above_zero(alloc: Global, column: u32) -> Result<Expr, Memory> {
    binary(
        alloc,
        Greater,
        Expr::Column(column),
        literal(alloc, WHOLE, "0")?,
    )
}

/// A comparison of the first column with 0.
pub(crate) fn against_zero(alloc: Global, name: CallName) -> Result<Expr, Memory> {
    binary(alloc, name, Expr::Column(0), literal(alloc, WHOLE, "0")?)
}

/// 10 divided by the first column.
pub(crate) fn quotient(alloc: Global) -> Result<Expr, Memory> {
    binary(alloc, Divide, literal(alloc, WHOLE, "10")?, Expr::Column(0))
}

pub(crate) fn is_large_quotient(alloc: Global) -> Result<Expr, Memory> {
    binary(
        alloc,
        Greater,
        quotient(alloc)?,
        literal(alloc, WHOLE, "1")?,
    )
}

fn truths_are(
    alloc: Global,
    page: &Page,
    expr: &Expr,
    positions: &[u32],
    wanted: &str,
) -> Result<bool, Memory> {
    let mut text = String::new(alloc);
    show_truths(&mut text, eval_columns(alloc, expr, page, positions))?;
    show_truths(&mut text, eval_page(alloc, expr, page, positions))?;
    Ok(is_twice(text.as_str(), wanted))
}

pub(crate) fn numbers_are(
    alloc: Global,
    page: &Page,
    expr: &Expr,
    positions: &[u32],
    wanted: &str,
) -> Result<bool, Memory> {
    let mut text = String::new(alloc);
    show(&mut text, eval_columns(alloc, expr, page, positions))?;
    show(&mut text, eval_page(alloc, expr, page, positions))?;
    Ok(is_twice(text.as_str(), wanted))
}

/// Whether a text is another one twice.
fn is_twice(text: &str, wanted: &str) -> bool {
    match text.strip_prefix(wanted) {
        Some(rest) => rest == wanted,
        None => false,
    }
}

fn of_truths(alloc: Global, name: CallName) -> Result<Expr, Memory> {
    binary(
        alloc,
        name,
        is_above_zero(alloc, 0)?,
        is_above_zero(alloc, 1)?,
    )
}

fn table_holds(
    alloc: Global,
    page: &Page,
    name: CallName,
    all: &str,
    some: &str,
) -> Result<bool, Memory> {
    let expr = of_truths(alloc, name)?;
    Ok(
        truths_are(alloc, page, &expr, &ALL, all)?
            && truths_are(alloc, page, &expr, &[8, 1, 6, 1], some)?,
    )
}

#[test]
fn truth_tables_of_columns(rt: HostRuntime) -> Result<(), Memory> {
    let page = page_of(rt.alloc(), TRUTHS)?;
    assert!(rt; table_holds(rt.alloc(), &page, And, "tfnfffnfn", "nfnf")?);
    assert!(rt; table_holds(rt.alloc(), &page, Or, "ttttfntnn", "nttt")?);
    assert!(rt; table_holds(rt.alloc(), &page, Coalesce, "tttffftfn", "nttt")?);
    Ok(())
}

fn guards_hold(alloc: Global, page: &Page) -> Result<bool, Memory> {
    let both = binary(
        alloc,
        And,
        against_zero(alloc, Unequal)?,
        is_large_quotient(alloc)?,
    )?;
    Ok(
        truths_are(alloc, page, &both, &[0, 1, 2, 3, 4], "ftffn")?
            && truths_are(alloc, page, &both, &[3, 2, 1], "fft")?,
    )
}

fn either_holds(alloc: Global, page: &Page) -> Result<bool, Memory> {
    let either = binary(
        alloc,
        Or,
        against_zero(alloc, Equal)?,
        is_large_quotient(alloc)?,
    )?;
    Ok(
        truths_are(alloc, page, &either, &[0, 1, 2, 3, 4], "tttfn")?
            && truths_are(alloc, page, &either, &[2, 0], "tt")?,
    )
}

fn unguarded_fails(alloc: Global, page: &Page) -> Result<bool, Memory> {
    let both = binary(
        alloc,
        And,
        is_large_quotient(alloc)?,
        against_zero(alloc, Unequal)?,
    )?;
    truths_are(alloc, page, &both, &[1, 2, 0], "DivisionByZero at 2")
}

fn firsts_hold(alloc: Global, page: &Page) -> Result<bool, Memory> {
    let first = binary(alloc, Coalesce, Expr::Column(1), quotient(alloc)?)?;
    Ok(
        numbers_are(alloc, page, &first, &[0, 1, 3, 4], "7 5 9 4 ")?
            && numbers_are(alloc, page, &first, &[1, 0, 2], "DivisionByZero at 2")?,
    )
}

#[test]
fn a_later_argument_fails_only_where_it_is_needed(rt: HostRuntime) -> Result<(), Memory> {
    let page = page_of(rt.alloc(), DIVISORS)?;
    assert!(rt; guards_hold(rt.alloc(), &page)?);
    assert!(rt; either_holds(rt.alloc(), &page)?);
    assert!(rt; unguarded_fails(rt.alloc(), &page)?);
    assert!(rt; firsts_hold(rt.alloc(), &page)?);
    Ok(())
}

fn three(alloc: Global, first: Expr, second: Expr, third: Expr) -> Result<Vec<Expr>, Memory> {
    let mut args = Vec::new(alloc);
    args.push(first)?;
    args.push(second)?;
    args.push(third)?;
    Ok(args)
}

/// Both numbers are above 0, and the quotient is large.
fn all_three(alloc: Global) -> Result<Expr, Memory> {
    let first = is_above_zero(alloc, 0)?;
    let second = is_above_zero(alloc, 1)?;
    let args = three(alloc, first, second, is_large_quotient(alloc)?)?;
    Ok(Expr::Call { name: And, args })
}

#[test]
fn three_arguments(rt: HostRuntime) -> Result<(), Memory> {
    let page = page_of(rt.alloc(), DIVISORS)?;
    let expr = all_three(rt.alloc())?;
    assert!(rt; truths_are(rt.alloc(), &page, &expr, &[0, 1, 2, 3, 4], "fnffn")?);
    Ok(())
}
