//! Groups whose partial rows and results were worked out by hand, and each public call once. Cells stand between
//! blanks, and `-` is NULL.
ghost use Rattle.std.specs.Prelude.{[], ◌∷◌, ◌<◌, IsTrue, length};
ghost use Rattle.accumulators.specs.Limits.{are_allowed};
ghost use Rattle.sql_values.specs.declared.types.SqlType.TheVariants as kind;

use crate::cell_texts::show_value;
use accumulators::Accumulator;
use sql_values::{Call, ColumnRows, EvalFault, Memory, Row, SqlType, Text, Value};
use std::alloc::Global;

const WHOLE: SqlType = SqlType::Bigint;

const SUM: SqlType = SqlType::Decimal { p: 38, s: 0 };

const SHORT: SqlType = SqlType::Decimal { p: 3, s: 1 };

/// The value that a cell's text is: a number by its digits.
fn value(alloc: Global, kind: SqlType, text: &str) -> Result<Value, Memory> {
    if text == "-" {
        return Ok(Value::Null);
    }
    match kind {
        SqlType::Varchar => Ok(Value::Varchar(Text::copy_of(alloc, text)?)),
        SqlType::Bigint => Ok(Value::Bigint(text.parse::<i64>().unwrap_or(0))),
        _ => Ok(Value::Decimal(text.parse::<i128>().unwrap_or(0))),
    }
}

/// Adds a row of one cell, if the group can take it.
fn add_cell(
    alloc: Global,
    kind: SqlType,
    group: &mut Accumulator,
    text: &str,
) -> Result<(), Memory> {
    let row = Row::of(Vec::from_array(alloc, [value(alloc, kind, text)?])?);
    if group.takes(&row) {
        group.add(&row)?;
    }
    Ok(())
}

/// Adds a row of each cell.
fn add_cells(
    alloc: Global,
    kind: SqlType,
    group: &mut Accumulator,
    cells: &str,
) -> Result<(), Memory> {
    for text in cells.split(' ') {
        if !text.is_empty() {
            add_cell(alloc, kind, group, text)?;
        }
    }
    Ok(())
}

/// A group of rows of one column that it can take.
fn group(alloc: Global, kind: SqlType, calls: &[Call], cells: &str) -> Result<Accumulator, Memory>
    requires { IsTrue (are_allowed (kind ∷ []) calls.now) }
{
    let mut group = Accumulator::new(alloc, calls, &[kind])?;
    add_cells(alloc, kind, &mut group, cells)?;
    Ok(group)
}

/// Appends the values of a row, one behind the other.
fn show(text: &mut String, row: &Row) -> Result<(), Memory> {
    for value in row.as_slice() {
        show_value(text, value.as_ref())?;
    }
    Ok(())
}

fn show_part(text: &mut String, group: &Accumulator) -> Result<(), Memory> {
    show(text, &group.part()?)
}

/// Puts the group's partial row into columns, where each takes its cell, and appends the cells of the row.
fn show_put(text: &mut String, rows: &mut ColumnRows, group: &Accumulator) -> Result<(), Memory> {
    if group.put_part(rows).is_ok() && rows.end_row() {
        show_first(text, rows)?;
    }
    Ok(())
}

fn show_first(text: &mut String, rows: &ColumnRows) -> Result<(), Memory> {
    let Ok(width) = u32::try_from(rows.types().len()) else {
        return Err(Memory);
    };
    if 0 < rows.len() {
        for column in 0..width {
            show_value(text, rows.cell(0, column))?;
        }
    }
    Ok(())
}

/// Whether the group's partial row stands so in columns of these types.
fn stands_so(
    alloc: Global,
    types: &[SqlType],
    group: &Accumulator,
    wanted: &str,
) -> Result<bool, Memory>
    requires { 0 < length types.now }
{
    let mut text = String::new(alloc);
    let mut rows = ColumnRows::new(alloc, types)?;
    show_put(&mut text, &mut rows, group)?;
    Ok(text.as_str() == wanted)
}

fn show_outcome(text: &mut String, outcome: Result<Row, EvalFault>) -> Result<(), Memory> {
    match outcome {
        Ok(row) => show(text, &row),
        Err(EvalFault::Fail(_)) => Ok(text.push_str("fails")?),
        Err(EvalFault::Memory) => Ok(text.push_str("memory")?),
    }
}

/// Whether a group gives this partial row and these results.
fn tells(alloc: Global, group: &Accumulator, wanted: &str) -> Result<bool, Memory> {
    let mut text = String::new(alloc);
    show_part(&mut text, group)?;
    show_outcome(&mut text, group.result())?;
    Ok(text.as_str() == wanted)
}

fn has_case(alloc: Global, kind: SqlType, calls: &[Call], case: &str) -> Result<bool, Memory>
    requires { IsTrue (are_allowed (kind ∷ []) calls.now) }
{
    let (cells, wanted) = case.split_once('|').unwrap_or((case, ""));
    let group = group(alloc, kind, calls, cells)?;
    tells(alloc, &group, wanted)
}

/// Whether each line names the partial row and the results of a group of its cells.
fn are_told(alloc: Global, kind: SqlType, calls: &[Call], cases: &str) -> Result<bool, Memory>
    requires { IsTrue (are_allowed (kind ∷ []) calls.now) }
{
    for case in cases.lines() {
        if !has_case(alloc, kind, calls, case)? {
            return Ok(false);
        }
    }
    Ok(true)
}

#[test]
fn whole_numbers_are_counted_and_added(rt: HostRuntime) -> Result<(), Memory> {
    let calls = [Call::CountAll, Call::Count(0), Call::Sum(0)];
    let cases = "- 5 7|3d 2 12d 3 2 12 \n\
        -|1d 0 null 1 0 null \n\
        - 9223372036854775807 1 -5|4d 3 9223372036854775803d 4 3 9223372036854775803 \n\
        - 9223372036854775807 1|3d 2 9223372036854775808d fails";
    assert!(rt; are_told(rt.alloc(), WHOLE, &calls, cases)?);
    Ok(())
}

/// Whether a group of these cells puts this partial row into columns, and none into columns of other types.
fn is_put(alloc: Global, calls: &[Call], cells: &str, wanted: &str) -> Result<bool, Memory>
    requires { IsTrue (are_allowed (kind.Bigint ∷ []) calls.now) }
{
    let group = group(alloc, WHOLE, calls, cells)?;
    let told = stands_so(alloc, &[SUM, WHOLE, SUM, WHOLE], &group, wanted)?;
    let refused = stands_so(alloc, &[SUM, WHOLE, WHOLE, WHOLE], &group, "")?;
    Ok(told & refused)
}

#[test]
fn a_part_is_put_into_columns(rt: HostRuntime) -> Result<(), Memory> {
    let calls = [Call::CountAll, Call::Count(0), Call::Sum(0), Call::Max(0)];
    assert!(rt; is_put(rt.alloc(), &calls, "- 5 7", "3d 2 12d 7 ")?);
    Ok(())
}

#[test]
fn averages_are_rounded_away_from_zero(rt: HostRuntime) -> Result<(), Memory> {
    let cases = "1 2|2d 3d 2 3d 2d 3d \n\
        -1 -2|2d -3d 2 -3d -2d -3d \n\
        |0d null 0 null null null ";
    assert!(rt; are_told(rt.alloc(), SHORT, &[Call::Avg(0), Call::Sum(0)], cases)?);
    Ok(())
}

#[test]
fn the_first_and_the_last_text_are_kept(rt: HostRuntime) -> Result<(), Memory> {
    let calls = [Call::Min(0), Call::Max(0), Call::Count(0)];
    let cases = "- b a c|4d 'a' 'c' 3 'a' 'c' 3 ";
    assert!(rt; are_told(rt.alloc(), SqlType::Varchar, &calls, cases)?);
    Ok(())
}

/// Merges a part of another group in, if the group can take it.
fn merge(group: &mut Accumulator, part: &Row) -> Result<(), Memory> {
    if group.takes_part(part, 0) {
        group.merge(part)?;
    }
    Ok(())
}

fn merge_twice(all: &mut Accumulator, one: &Accumulator) -> Result<(), Memory> {
    let part = one.part()?;
    merge(all, &part)?;
    merge(all, &part)
}

/// Merges the part of a group of these cells in, twice.
fn merge_cells(
    alloc: Global,
    calls: &[Call],
    all: &mut Accumulator,
    cells: &str,
) -> Result<(), Memory>
    requires { IsTrue (are_allowed (kind.Bigint ∷ []) calls.now) }
{
    let one = group(alloc, WHOLE, calls, cells)?;
    merge_twice(all, &one)
}

/// Whether a group tells what two like parts make.
fn are_merged(alloc: Global, calls: &[Call], cells: &str, wanted: &str) -> Result<bool, Memory>
    requires { IsTrue (are_allowed (kind.Bigint ∷ []) calls.now) }
{
    let mut all = Accumulator::new(alloc, calls, &[WHOLE])?;
    merge_cells(alloc, calls, &mut all, cells)?;
    tells(alloc, &all, wanted)
}

#[test]
fn parts_are_merged(rt: HostRuntime) -> Result<(), Memory> {
    let calls = [Call::CountAll, Call::Count(0), Call::Sum(0), Call::Max(0)];
    assert!(rt; are_merged(rt.alloc(), &calls, "- 5 7", "6d 4 24d 7 6 4 24 7 ")?);
    Ok(())
}

fn takes_part_of(
    alloc: Global,
    group: &Accumulator,
    rows: i128,
    sum: i128,
) -> Result<bool, Memory> {
    let part = Vec::from_array(alloc, [Value::Decimal(rows), Value::Decimal(sum)])?;
    Ok(group.takes_part(&Row::of(part), 0))
}

/// Whether a group of too large a number tells only the first, and takes no part with such a sum.
fn is_bounded(alloc: Global) -> Result<bool, Memory> {
    let long = group(alloc, SHORT, &[Call::Sum(0)], "999 1000 -1000")?;
    let told = tells(alloc, &long, "1d 999d 999d ")?;
    let taken = takes_part_of(alloc, &long, 1, 1000)?;
    Ok(told & !taken)
}

#[test]
fn what_no_group_can_take_is_told(rt: HostRuntime) -> Result<(), Memory> {
    assert!(rt; is_bounded(rt.alloc())?);
    Ok(())
}
