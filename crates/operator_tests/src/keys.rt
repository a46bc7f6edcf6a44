//! Keys, found at the places where they stand.
use crate::cell_texts::number;
use group_index::GroupIndex;
use sql_values::{Memory, Row, Text, Value};
use std::alloc::Global;

/// A text; the empty one stands for NULL.
fn text_value(alloc: Global, text: &str) -> Result<Value, Memory> {
    if text.is_empty() {
        return Ok(Value::Null);
    }
    Ok(Value::Varchar(Text::copy_of(alloc, text)?))
}

fn number_value(number: i64) -> Value {
    match number {
        0 => Value::Null,
        other => Value::Bigint(other),
    }
}

/// A row of a number and a text; 0 and the empty text stand for NULL.
fn row(alloc: Global, number: i64, text: &str) -> Result<Row, Memory> {
    let text = text_value(alloc, text)?;
    let values = Vec::from_array(alloc, [number_value(number), text])?;
    Ok(Row::of(values))
}

/// The row of a line, as `1 a`.
fn row_of(alloc: Global, line: &str) -> Result<Row, Memory> {
    let (first, text) = line.split_once(' ').unwrap_or((line, ""));
    row(alloc, number(first), text)
}

fn push_all(
    alloc: Global,
    index: &mut GroupIndex,
    columns: &[u32],
    rows: &str,
) -> Result<(), Memory> {
    for line in rows.lines() {
        index.push(columns, &row_of(alloc, line)?)?;
    }
    Ok(())
}

/// Whether the key of a line's row stands at the place that stands before it, if there is one.
fn is_at(alloc: Global, index: &GroupIndex, columns: &[u32], line: &str) -> Result<bool, Memory> {
    let (place, row) = line.split_once('|').unwrap_or((line, ""));
    let found = index.find(columns, &row_of(alloc, row)?);
    Ok(found == place.parse::<usize>().ok())
}

fn are_at(alloc: Global, index: &GroupIndex, columns: &[u32], lines: &str) -> Result<bool, Memory> {
    for line in lines.lines() {
        if !is_at(alloc, index, columns, line)? {
            return Ok(false);
        }
    }
    Ok(true)
}

/// Whether rows that are pushed stand where they should, and nowhere by other columns.
fn are_nulls_keys(alloc: Global, index: &mut GroupIndex) -> Result<bool, Memory> {
    push_all(alloc, index, &[0, 1], "1 a\n1 \n0 a\n0 \n2 a")?;
    let places = "0|1 a\n1|1 \n2|0 a\n3|0 \n4|2 a\n-|2 \n-|1 A";
    let same = are_at(alloc, index, &[0, 1], places)?;
    let turned = are_at(alloc, index, &[1, 0], "-|1 a")?;
    let fewer = are_at(alloc, index, &[0], "-|1 a")?;
    Ok(same & turned & fewer & (index.len() == 5))
}

fn has_nulls(alloc: Global) -> Result<bool, Memory> {
    let mut index = GroupIndex::new(alloc)?;
    are_nulls_keys(alloc, &mut index)
}

#[test]
fn null_is_a_key_like_others(rt: HostRuntime) -> Result<(), Memory> {
    assert!(rt; has_nulls(rt.alloc())?);
    Ok(())
}

/// One of many rows, each with a number of its own.
fn numbered(alloc: Global, number: u32, step: i64, text: &str) -> Result<Row, Memory> {
    let number = i64::from(number).wrapping_mul(1_024);
    row(alloc, number.wrapping_add(step), text)
}

fn push_numbers(alloc: Global, index: &mut GroupIndex, count: u32) -> Result<(), Memory> {
    for number in 0..count {
        index.push(&[0], &numbered(alloc, number, 1, "x")?)?;
    }
    Ok(())
}

/// Where the number of a row stands.
fn place(
    alloc: Global,
    index: &GroupIndex,
    number: u32,
    step: i64,
    text: &str,
) -> Result<Option<usize>, Memory> {
    Ok(index.find(&[0], &numbered(alloc, number, step, text)?))
}

/// Whether the number is found at its place, and the one behind it nowhere.
fn is_number_found(alloc: Global, index: &GroupIndex, number: u32) -> Result<bool, Memory> {
    let held = place(alloc, index, number, 1, "y")?;
    let other = place(alloc, index, number, 2, "x")?;
    Ok(held == Some(number as usize) && other.is_none())
}

/// Whether so many numbers are.
fn are_numbers_found(alloc: Global, index: &GroupIndex, count: u32) -> Result<bool, Memory> {
    for number in 0..count {
        if !is_number_found(alloc, index, number)? {
            return Ok(false);
        }
    }
    Ok(true)
}

fn are_many_found(alloc: Global, index: &mut GroupIndex) -> Result<bool, Memory> {
    push_numbers(alloc, index, 3_000)?;
    are_numbers_found(alloc, index, 3_000)
}

fn has_many(alloc: Global) -> Result<bool, Memory> {
    let mut index = GroupIndex::new(alloc)?;
    are_many_found(alloc, &mut index)
}

#[test]
fn many_keys_are_found(rt: HostRuntime) -> Result<(), Memory> {
    assert!(rt; has_many(rt.alloc())?);
    Ok(())
}

/// Whether any row is found once one is there, and none before.
fn is_any_found(alloc: Global, index: &mut GroupIndex) -> Result<bool, Memory> {
    let before = are_at(alloc, index, &[], "-|1 a")?;
    push_all(alloc, index, &[], "1 a")?;
    let after = are_at(alloc, index, &[], "0|2 b")?;
    Ok(before & after)
}

fn has_any(alloc: Global) -> Result<bool, Memory> {
    let mut index = GroupIndex::new(alloc)?;
    is_any_found(alloc, &mut index)
}

#[test]
fn a_key_of_no_column_is_found(rt: HostRuntime) -> Result<(), Memory> {
    assert!(rt; has_any(rt.alloc())?);
    Ok(())
}
