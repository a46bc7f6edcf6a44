//! Numbers compared eight at a time: their marks, the places of these, and what comparisons of columns answer.
use crate::expr_tests::{WHOLE, binary, literal, name_of};
use CallName::{And, Divide, Equal, Greater, GreaterEqual, Less, LessEqual, Unequal};
use col_pages::{Block, Page, PageBuilder};
use column_exprs::{Compare, compare_lanes, eval_columns, is_marked, places_of};
use scalar_texts::read_bigint;
use sql_exprs::{CallName, Expr, PageFault};
use sql_values::{Memory, ValueRef};
use std::alloc::Global;

/// Rows of two numbers.
const ROWS: &str = "-9223372036854775808 9223372036854775807\n\
9223372036854775807 -9223372036854775808\n\
0 0\n\
NULL 1\n\
1 NULL\n\
-1 1\n\
5 5\n\
-9223372036854775808 -9223372036854775808\n\
9223372036854775807 9223372036854775807\n\
NULL NULL\n\
7 8\n\
8 7\n\
-1 -1\n\
9223372036854775806 9223372036854775807\n\
-9223372036854775808 -9223372036854775807\n\
0 -1\n\
NULL 3";

const POSITIONS: [u32; 17] = [0, 1, 2, 3, 4, 5, 6, 7, 8, 9, 10, 11, 12, 13, 14, 15, 16];

const COMPARISONS: [CallName; 6] = [Equal, Unequal, Less, LessEqual, Greater, GreaterEqual];

/// For each comparison a line, with true, false or NULL for each row: of its two numbers,
const OF_COLUMNS: &str = "fftnnftttnfftfffn\n\
ttfnntfffnttftttn\n\
tffnntfffntffttfn\n\
tftnnttttntftttfn\n\
ftfnnffffnftffftn\n\
fttnnftttnfttfftn";

/// of the first and 5,
const OF_FIVE: &str = "fffnfftffnffffffn\n\
tttnttfttnttttttn\n\
tftnttftfnfftfttn\n\
tftnttttfnfftfttn\n\
ftfnfffftnttftffn\n\
ftfnfftftnttftffn";

/// and of the first and the least number.
const OF_LEAST: &str = "tffnffftfnfffftfn\n\
fttntttftnttttftn\n\
fffnfffffnffffffn\n\
tffnffftfnfffftfn\n\
fttntttftnttttftn\n\
tttntttttnttttttn";

/// NULL for a word that is no number.
fn put_word(builder: &mut PageBuilder, word: &str) -> Result<(), Memory> {
    match read_bigint(word.as_bytes()) {
        Some(number) => builder.put(ValueRef::Bigint(number))?,
        None => builder.put(ValueRef::Null)?,
    };
    Ok(())
}

fn put_line(builder: &mut PageBuilder, line: &str) -> Result<(), Memory> {
    if let Some((first, second)) = line.split_once(' ') {
        put_word(builder, first)?;
        put_word(builder, second)?;
    }
    if !builder.is_full() {
        builder.end_row();
    }
    Ok(())
}

fn put_lines(builder: &mut PageBuilder, lines: &str) -> Result<(), Memory> {
    for line in lines.lines() {
        put_line(builder, line)?;
    }
    Ok(())
}

pub(crate) fn page_of(alloc: Global, lines: &str) -> Result<Page, Memory> {
    let mut builder = PageBuilder::new(alloc, &[WHOLE, WHOLE], 32)?;
    put_lines(&mut builder, lines)?;
    builder.build()
}

fn letter_of(cell: ValueRef<'_>) -> &'static str {
    match cell {
        ValueRef::Boolean(true) => "t",
        ValueRef::Boolean(false) => "f",
        ValueRef::Null => "n",
        _ => "?",
    }
}

/// A letter for each truth, or the position of a failure.
pub(crate) fn show_truths(
    text: &mut String,
    values: Result<Block, PageFault>,
) -> Result<(), Memory> {
    match values {
        Ok(block) => {
            for place in 0..block.len() {
                text.push_str(letter_of(block.cell(place)))?;
            }
        }
        Err(PageFault::At { position, kind }) => write!(text, "{} at {position}", name_of(kind))?,
        Err(PageFault::Memory) => return Err(Memory),
    }
    Ok(())
}

/// Whether the truths at so many positions are the first of a line.
fn first_read(
    alloc: Global,
    page: &Page,
    expr: &Expr,
    count: usize,
    line: &str,
) -> Result<bool, Memory> {
    let Some(positions) = POSITIONS.get(..count) else {
        return Ok(false);
    };
    let mut text = String::new(alloc);
    show_truths(&mut text, eval_columns(alloc, expr, page, positions))?;
    Ok(text.len() == count && line.starts_with(text.as_str()))
}

fn all_read(alloc: Global, page: &Page, expr: &Expr, line: &str) -> Result<bool, Memory> {
    for count in [0, 7, 8, 9, 17] {
        if !first_read(alloc, page, expr, count, line)? {
            return Ok(false);
        }
    }
    Ok(true)
}

fn columns_read(alloc: Global, page: &Page) -> Result<bool, Memory> {
    for (name, line) in COMPARISONS.iter().zip(OF_COLUMNS.lines()) {
        let expr = binary(alloc, *name, Expr::Column(0), Expr::Column(1))?;
        if !all_read(alloc, page, &expr, line)? {
            return Ok(false);
        }
    }
    Ok(true)
}

#[test]
fn two_columns_are_compared(rt: HostRuntime) -> Result<(), Memory> {
    let page = page_of(rt.alloc(), ROWS)?;
    assert!(rt; columns_read(rt.alloc(), &page)?);
    Ok(())
}

fn value_reads(alloc: Global, page: &Page, value: &str, lines: &str) -> Result<bool, Memory> {
    for (name, line) in COMPARISONS.iter().zip(lines.lines()) {
        let expr = binary(alloc, *name, Expr::Column(0), literal(alloc, WHOLE, value)?)?;
        if !all_read(alloc, page, &expr, line)? {
            return Ok(false);
        }
    }
    Ok(true)
}

#[test]
fn a_column_is_compared_with_a_value(rt: HostRuntime) -> Result<(), Memory> {
    let page = page_of(rt.alloc(), ROWS)?;
    assert!(rt; value_reads(rt.alloc(), &page, "5", OF_FIVE)?);
    assert!(rt; value_reads(rt.alloc(), &page, "-9223372036854775808", OF_LEAST)?);
    Ok(())
}

/// Whether the marks of the numbers that are less are these.
fn marks_read(alloc: Global, a: &[i64], b: &[i64], wanted: &[u8]) -> Result<bool, Memory> {
    if b.len() != a.len() {
        return Ok(false);
    }
    let mut marks = vec![in alloc; 2u8; a.len()]?;
    compare_lanes(Compare::Less, a, b, marks.as_mut_slice());
    Ok(marks.as_slice() == wanted)
}

#[test]
fn ten_numbers_are_marked(rt: HostRuntime) -> Result<(), Memory> {
    assert!(rt;
        marks_read(
            rt.alloc(),
            &[0, 1, 2, 3, 4, 5, 6, 7, 8, 9],
            &[5, 5, 5, 5, 5, 5, 5, 5, 5, 5],
            &[1, 1, 1, 1, 1, 0, 0, 0, 0, 0],
        )?
    );
    Ok(())
}

fn rising(alloc: Global, count: u8) -> Result<Vec<i64>, Memory> {
    let mut numbers = Vec::new(alloc);
    for place in 0..count {
        numbers.push(i64::from(place % 5))?;
    }
    Ok(numbers)
}

fn falling(alloc: Global, count: u8) -> Result<Vec<i64>, Memory> {
    let mut numbers = Vec::new(alloc);
    for place in 0..count {
        numbers.push(2 - i64::from(place % 3))?;
    }
    Ok(numbers)
}

/// Whether each mark says that the first number is less.
fn are_less(a: &[i64], b: &[i64], marks: &[u8]) -> bool {
    for ((x, y), mark) in a.iter().zip(b).zip(marks) {
        if is_marked(*mark) != (x < y) {
            return false;
        }
    }
    true
}

fn marked_as_loop(alloc: Global, a: &[i64], b: &[i64]) -> Result<bool, Memory> {
    if b.len() != a.len() {
        return Ok(false);
    }
    let mut marks = vec![in alloc; 2u8; a.len()]?;
    compare_lanes(Compare::Less, a, b, marks.as_mut_slice());
    Ok(are_less(a, b, marks.as_slice()))
}

fn counts_agree(alloc: Global) -> Result<bool, Memory> {
    for count in [0, 1, 7, 8, 9, 64] {
        let a = rising(alloc, count)?;
        let b = falling(alloc, count)?;
        if !marked_as_loop(alloc, a.as_slice(), b.as_slice())? {
            return Ok(false);
        }
    }
    Ok(true)
}

#[test]
fn lanes_agree_with_a_loop(rt: HostRuntime) -> Result<(), Memory> {
    assert!(rt; counts_agree(rt.alloc())?);
    Ok(())
}

#[test]
fn places_whose_mark_is_set(rt: HostRuntime) -> Result<(), Memory> {
    let mut places = vec![in rt.alloc(); 9u32; 1]?;
    places_of(&[1, 0, 1], &[4, 5, 6], &mut places)?;
    assert!(rt; places.as_slice() == [9, 4, 6].as_slice());
    Ok(())
}

/// The first number is not 0.
fn is_some_number(alloc: Global) -> Result<Expr, Memory> {
    binary(alloc, Unequal, Expr::Column(0), literal(alloc, WHOLE, "0")?)
}

/// 10 divided by the first number is above 1.
fn is_small(alloc: Global) -> Result<Expr, Memory> {
    let quotient = binary(alloc, Divide, literal(alloc, WHOLE, "10")?, Expr::Column(0))?;
    binary(alloc, Greater, quotient, literal(alloc, WHOLE, "1")?)
}

fn first_shows(alloc: Global, page: &Page, expr: &Expr, wanted: &str) -> Result<bool, Memory> {
    let mut text = String::new(alloc);
    show_truths(&mut text, eval_columns(alloc, expr, page, &[0]))?;
    Ok(text.as_str() == wanted)
}

fn guarded_shows(alloc: Global, page: &Page) -> Result<bool, Memory> {
    let expr = binary(alloc, And, is_some_number(alloc)?, is_small(alloc)?)?;
    first_shows(alloc, page, &expr, "f")
}

fn unguarded_shows(alloc: Global, page: &Page) -> Result<bool, Memory> {
    let expr = binary(alloc, And, is_small(alloc)?, is_some_number(alloc)?)?;
    first_shows(alloc, page, &expr, "DivisionByZero at 0")
}

#[test]
fn a_guard_stands_before_a_division(rt: HostRuntime) -> Result<(), Memory> {
    let page = page_of(rt.alloc(), "0 0")?;
    assert!(rt; guarded_shows(rt.alloc(), &page)?);
    assert!(rt; unguarded_shows(rt.alloc(), &page)?);
    Ok(())
}
