//! Blocks and the columns that they are made of and lend.
ghost use Rattle.std.specs.Prelude.{◌≡◌, IfOk, length};

use crate::page_tests::second_column;
use columns::{Nullable, Texts};
use sql_values::{Block, Memory, SqlType, ValueRef};
use std::alloc::Global;

/// An item, and behind it one that is missing.
fn with_null<T: Copy + Default + Drop>(alloc: Global, item: T) -> Result<Nullable<T>, Memory> {
    let mut column = Nullable::new(alloc);
    column.push(Some(item))?;
    column.push(None)?;
    Ok(column)
}

/// Whether a block has two cells, the second of which is NULL.
fn ends_with_null(block: &Block) -> bool {
    block.len() == 2 && matches!(block.cell(1), ValueRef::Null)
}

fn bigints_of(block: &Block) -> Option<&Nullable<i64>> {
    block.plain()?.bigints()
}

fn dates_of(block: &Block) -> Option<&Nullable<i32>> {
    block.plain()?.dates()
}

fn decimals_of(block: &Block) -> Option<&Nullable<i128>> {
    block.plain()?.decimals()
}

fn booleans_of(block: &Block) -> Option<&Nullable<bool>> {
    block.plain()?.booleans()
}

fn texts_of(block: &Block) -> Option<&Texts> {
    block.plain()?.texts()
}

fn is_seven(numbers: Option<&Nullable<i64>>) -> bool {
    match numbers {
        Some(numbers) => !numbers.is_empty() && matches!(numbers.get(0), Some(7)),
        None => false,
    }
}

fn is_day_seven(days: Option<&Nullable<i32>>) -> bool {
    match days {
        Some(days) => !days.is_empty() && matches!(days.get(0), Some(7)),
        None => false,
    }
}

fn is_seven_hundredths(numbers: Option<&Nullable<i128>>) -> bool {
    match numbers {
        Some(numbers) => !numbers.is_empty() && matches!(numbers.get(0), Some(7)),
        None => false,
    }
}

fn is_true(truths: Option<&Nullable<bool>>) -> bool {
    match truths {
        Some(truths) => !truths.is_empty() && matches!(truths.get(0), Some(true)),
        None => false,
    }
}

#[test]
fn a_block_lends_its_bigints(rt: HostRuntime) -> Result<(), Memory> {
    let block = Block::of_bigints(with_null(rt.alloc(), 7)?);
    assert!(rt; block.kind() == SqlType::Bigint);
    assert!(rt; ends_with_null(&block));
    assert!(rt; is_seven(bigints_of(&block)));
    assert!(rt; dates_of(&block).is_none());
    Ok(())
}

#[test]
fn a_block_lends_its_days(rt: HostRuntime) -> Result<(), Memory> {
    let block = Block::of_dates(with_null(rt.alloc(), 7)?);
    assert!(rt; block.kind() == SqlType::Date);
    assert!(rt; ends_with_null(&block));
    assert!(rt; is_day_seven(dates_of(&block)));
    assert!(rt; bigints_of(&block).is_none());
    Ok(())
}

#[test]
fn a_block_lends_its_decimals(rt: HostRuntime) -> Result<(), Memory> {
    let block = Block::of_decimals(3, 2, with_null(rt.alloc(), 7)?);
    assert!(rt; block.kind() == SqlType::Decimal { p: 3, s: 2 });
    assert!(rt; ends_with_null(&block));
    assert!(rt; is_seven_hundredths(decimals_of(&block)));
    assert!(rt; texts_of(&block).is_none());
    Ok(())
}

#[test]
fn a_block_lends_its_truths(rt: HostRuntime) -> Result<(), Memory> {
    let block = Block::of_booleans(with_null(rt.alloc(), true)?);
    assert!(rt; block.kind() == SqlType::Boolean);
    assert!(rt; ends_with_null(&block));
    assert!(rt; is_true(booleans_of(&block)));
    assert!(rt; decimals_of(&block).is_none());
    Ok(())
}

fn one_text(alloc: Global) -> Result<Block, Memory> {
    let mut block = Block::new(alloc, SqlType::Varchar);
    block.push(ValueRef::Varchar("é"))?;
    Ok(block)
}

#[test]
fn a_block_lends_its_texts(rt: HostRuntime) -> Result<(), Memory> {
    let block = one_text(rt.alloc())?;
    assert!(rt; matches!(texts_of(&block), Some(texts) if texts.len() == 1));
    assert!(rt; booleans_of(&block).is_none());
    Ok(())
}

#[test]
fn a_page_lends_its_columns(rt: HostRuntime) -> Result<(), Memory> {
    let page = second_column(rt.alloc())?;
    assert!(rt; matches!(page.block(0), Some(block) if block.len() == 1));
    assert!(rt; page.block(1).is_none());
    Ok(())
}
