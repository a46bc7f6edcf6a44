//! Columns of numbers and of texts: what is kept, cut, chosen, copied and joined.
ghost use Rattle.std.specs.Prelude.{◌≡◌, length};

use columns::{Nullable, Texts};
use std::alloc::{AllocError, Global};

fn numbers(alloc: Global, values: &[Option<i64>]) -> Result<Nullable<i64>, AllocError> {
    let mut column = Nullable::new(alloc);
    for value in values {
        column.push(*value)?;
    }
    Ok(column)
}

fn texts(alloc: Global, values: &[Option<&str>]) -> Result<Texts, AllocError> {
    let mut column = Texts::new(alloc);
    for value in values {
        column.push(*value)?;
    }
    Ok(column)
}

fn numbers_read(alloc: Global, column: &Nullable<i64>, wanted: &str) -> Result<bool, AllocError> {
    let mut line = String::new(alloc);
    for place in 0..column.len() {
        match column.get(place) {
            Some(number) => write!(line, "{number} ")?,
            None => line.push_str("null ")?,
        }
    }
    Ok(line.as_str() == wanted)
}

fn texts_read(alloc: Global, column: &Texts, wanted: &str) -> Result<bool, AllocError> {
    let mut line = String::new(alloc);
    for place in 0..column.len() {
        match column.get(place) {
            Some(text) => write!(line, "'{text}' ")?,
            None => line.push_str("null ")?,
        }
    }
    Ok(line.as_str() == wanted)
}

fn middle_numbers(alloc: Global, column: &Nullable<i64>) -> Result<bool, AllocError>
    requires { length column.now ≡ 4 }
{
    let middle = column.cut(alloc, 1, 3)?;
    numbers_read(alloc, &middle, "null -3 ")
}

fn chosen_numbers(alloc: Global, column: &Nullable<i64>) -> Result<bool, AllocError>
    requires { length column.now ≡ 4 }
{
    let chosen = column.select(alloc, &[3, 1, 3])?;
    numbers_read(alloc, &chosen, "0 null 0 ")
}

fn parts_of_numbers(alloc: Global, column: &Nullable<i64>) -> Result<bool, AllocError> {
    if column.len() != 4 {
        return Ok(false);
    }
    Ok(middle_numbers(alloc, column)? && chosen_numbers(alloc, column)?)
}

/// The first two, and all of them behind these.
fn joined_numbers(alloc: Global, column: &mut Nullable<i64>) -> Result<bool, AllocError> {
    let copy = column.copy(alloc)?;
    column.truncate(2);
    column.append(&copy)?;
    numbers_read(alloc, &copy, "7 null -3 0 ")
}

#[test]
fn numbers_are_kept_cut_and_joined(rt: HostRuntime) -> Result<(), AllocError> {
    let mut column = numbers(rt.alloc(), &[Some(7), None, Some(-3), Some(0)])?;
    assert!(rt; column.items().len() == 4);
    assert!(rt; column.nulls() == [false, true, false, false].as_slice());
    assert!(rt; parts_of_numbers(rt.alloc(), &column)?);
    assert!(rt; joined_numbers(rt.alloc(), &mut column)?);
    assert!(rt; numbers_read(rt.alloc(), &column, "7 null 7 null -3 0 ")?);
    column.clear();
    assert!(rt; column.is_empty());
    Ok(())
}

#[test]
fn a_column_is_made_of_items_and_marks(rt: HostRuntime) -> Result<(), AllocError> {
    let made = Nullable::of(
        vec![in rt.alloc(); 5, 6]?,
        vec![in rt.alloc(); true, false]?,
    );
    assert!(rt; numbers_read(rt.alloc(), &made, "null 6 ")?);
    Ok(())
}

#[test]
fn columns_with_room_are_empty(rt: HostRuntime) -> Result<(), AllocError> {
    assert!(rt; Nullable::<bool>::with_capacity(rt.alloc(), 8)?.is_empty());
    assert!(rt; Texts::with_capacity(rt.alloc(), 8)?.is_empty());
    Ok(())
}

fn middle_texts(alloc: Global, column: &Texts) -> Result<bool, AllocError>
    requires { length column.now ≡ 4 }
{
    let middle = column.cut(alloc, 1, 4)?;
    texts_read(alloc, &middle, "null '' 'é' ")
}

fn chosen_texts(alloc: Global, column: &Texts) -> Result<bool, AllocError>
    requires { length column.now ≡ 4 }
{
    let chosen = column.select(alloc, &[3, 0, 1])?;
    texts_read(alloc, &chosen, "'é' 'ab' null ")
}

fn parts_of_texts(alloc: Global, column: &Texts) -> Result<bool, AllocError> {
    if column.len() != 4 {
        return Ok(false);
    }
    Ok(middle_texts(alloc, column)? && chosen_texts(alloc, column)?)
}

/// The first, and all of them behind it.
fn joined_texts(alloc: Global, column: &mut Texts) -> Result<bool, AllocError> {
    let copy = column.copy(alloc)?;
    column.truncate(1);
    column.append(&copy)?;
    texts_read(alloc, &copy, "'ab' null '' 'é' ")
}

#[test]
fn texts_are_kept_cut_and_joined(rt: HostRuntime) -> Result<(), AllocError> {
    let mut column = texts(rt.alloc(), &[Some("ab"), None, Some(""), Some("é")])?;
    assert!(rt; parts_of_texts(rt.alloc(), &column)?);
    assert!(rt; joined_texts(rt.alloc(), &mut column)?);
    assert!(rt; texts_read(rt.alloc(), &column, "'ab' 'ab' null '' 'é' ")?);
    column.clear();
    assert!(rt; column.is_empty());
    Ok(())
}
