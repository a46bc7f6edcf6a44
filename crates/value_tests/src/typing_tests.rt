//! Expressions: what does not fit its types, and values on the positions of a page.
use crate::expr_tests::{DATE, DEC_2_1, TRUTH, WHOLE, binary, case_of, literal, name_of, unary};
use CallName::{DaysBetween, Divide, Less, Not, Year};
use col_pages::{Block, Page, PageBuilder};
use sql_exprs::{Branch, CallName, Expr, PageFault, TypeFault, eval_page, typed};
use sql_values::{Memory, SqlType, Value, ValueRef};
use std::alloc::Global;

fn is_refused_at(alloc: Global, expr: &Expr, path: &str) -> Result<bool, Memory> {
    match typed(alloc, expr, &[WHOLE]) {
        Ok(_) => Ok(path == "none"),
        Err(TypeFault::Refused(found)) => Ok(found.as_str() == path),
        Err(TypeFault::Memory) => Err(Memory),
    }
}

/// The same of an expression that goes.
fn refused_at(alloc: Global, expr: Expr, path: &str) -> Result<bool, Memory> {
    is_refused_at(alloc, &expr, path)
}

fn less_than_five(alloc: Global) -> Result<Expr, Memory> {
    binary(alloc, Less, Expr::Column(0), literal(alloc, WHOLE, "5")?)
}

fn one_branch(alloc: Global) -> Result<Branch, Memory> {
    let test = less_than_five(alloc)?;
    let result = unary(alloc, Not, Expr::Column(1))?;
    Ok(Branch { test, result })
}

fn one_case(alloc: Global) -> Result<Expr, Memory> {
    let mut branches = Vec::new(alloc);
    branches.push(one_branch(alloc)?)?;
    case_of(alloc, branches, TRUTH, "true")
}

fn year_of_column(alloc: Global) -> Result<Expr, Memory> {
    let arg = Box::new(alloc, Expr::Column(0))?;
    unary(alloc, Year, Expr::Cast { arg, kind: DATE })
}

#[test]
fn paths_of_what_does_not_fit(rt: HostRuntime) -> Result<(), Memory> {
    let alloc = rt.alloc();
    assert!(rt; refused_at(alloc, one_case(alloc)?, "/case/0/then/args/0")?);
    assert!(rt; refused_at(alloc, year_of_column(alloc)?, "/args/0")?);
    assert!(rt; refused_at(alloc, Expr::Column(0), "none")?);
    Ok(())
}

/// Where a literal of the type that holds the value is refused.
fn literal_refused_at(
    alloc: Global,
    kind: SqlType,
    value: Value,
    path: &str,
) -> Result<bool, Memory> {
    refused_at(alloc, Expr::Literal { kind, value }, path)
}

fn days_to_late(alloc: Global) -> Result<Expr, Memory> {
    let late = Expr::Literal {
        kind: DATE,
        value: Value::Date(2_932_897),
    };
    binary(
        alloc,
        DaysBetween,
        literal(alloc, DATE, "1970-01-01")?,
        late,
    )
}

#[test]
fn literals_hold_values_of_their_types(rt: HostRuntime) -> Result<(), Memory> {
    let alloc = rt.alloc();
    assert!(rt; literal_refused_at(alloc, WHOLE, Value::Null, "/lit")?);
    assert!(rt; literal_refused_at(alloc, WHOLE, Value::Date(1), "/lit")?);
    assert!(rt; literal_refused_at(alloc, DEC_2_1, Value::Decimal(100), "/lit")?);
    assert!(rt; literal_refused_at(alloc, DEC_2_1, Value::Decimal(-99), "none")?);
    Ok(())
}

#[test]
fn a_literal_is_refused_at_its_place(rt: HostRuntime) -> Result<(), Memory> {
    let alloc = rt.alloc();
    assert!(rt; refused_at(alloc, days_to_late(alloc)?, "/args/1/lit")?);
    Ok(())
}

fn put_pairs(builder: &mut PageBuilder) -> Result<(), Memory> {
    for (a, b) in [(10, 2), (7, 0), (9, 3), (1, 0)] {
        builder.put(ValueRef::Bigint(a))?;
        builder.put(ValueRef::Bigint(b))?;
        if !builder.is_full() {
            builder.end_row();
        }
    }
    Ok(())
}

/// Four rows of two numbers.
fn pairs(alloc: Global) -> Result<Page, Memory> {
    let mut builder = PageBuilder::new(alloc, &[WHOLE, WHOLE], 4)?;
    put_pairs(&mut builder)?;
    builder.build()
}

fn show_cell(text: &mut String, cell: ValueRef<'_>) -> Result<(), Memory> {
    match cell {
        ValueRef::Bigint(number) => write!(text, "{number} ")?,
        _ => text.push_str("NULL ")?,
    }
    Ok(())
}

/// The numbers that an expression has at positions, or the position at which it fails.
pub(crate) fn show(text: &mut String, values: Result<Block, PageFault>) -> Result<(), Memory> {
    match values {
        Ok(block) => {
            for place in 0..block.len() {
                show_cell(text, block.cell(place))?;
            }
        }
        Err(PageFault::At { position, kind }) => write!(text, "{} at {position}", name_of(kind))?,
        Err(PageFault::Memory) => return Err(Memory),
    }
    Ok(())
}

fn shows(
    alloc: Global,
    page: &Page,
    expr: &Expr,
    positions: &[u32],
    wanted: &str,
) -> Result<bool, Memory> {
    let mut text = String::new(alloc);
    show(&mut text, eval_page(alloc, expr, page, positions))?;
    Ok(text.as_str() == wanted)
}

fn quotients_hold(alloc: Global, page: &Page, quotient: &Expr) -> Result<bool, Memory> {
    Ok(
        shows(alloc, page, quotient, &[2, 0, 2], "3 5 3 ")?
            && shows(alloc, page, quotient, &[], "")?
            && failures_hold(alloc, page, quotient)?,
    )
}

fn failures_hold(alloc: Global, page: &Page, quotient: &Expr) -> Result<bool, Memory> {
    Ok(
        shows(alloc, page, quotient, &[0, 3, 1], "DivisionByZero at 3")?
            && shows(alloc, page, quotient, &[2, 1, 0, 3], "DivisionByZero at 1")?
            && shows(alloc, page, quotient, &[4], "NULL ")?,
    )
}

fn quotients_on(alloc: Global, page: &Page) -> Result<bool, Memory> {
    let quotient = binary(alloc, Divide, Expr::Column(0), Expr::Column(1))?;
    quotients_hold(alloc, page, &quotient)
}

#[test]
fn positions_in_their_order(rt: HostRuntime) -> Result<(), Memory> {
    let page = pairs(rt.alloc())?;
    assert!(rt; quotients_on(rt.alloc(), &page)?);
    assert!(rt;
        shows(
            rt.alloc(),
            &page,
            &Expr::Column(0),
            &[3, 2, 1, 0],
            "1 9 7 10 "
        )?
    );
    Ok(())
}
