//! Tables, lists of rows, and blocks.
ghost use Rattle.std.specs.Prelude.{◌≡◌, [], ◌∷◌, length, true, IfOk};

use crate::value_tests::{PRICE, row};
use sql_values::{
    Block, Column, ColumnRows, Columns, Memory, Row, RowBuilder, RowList, SqlType, Table, Text,
    Value, ValueRef,
};
use std::alloc::Global;

fn named(alloc: Global, name: &str, kind: SqlType) -> Result<Column, Memory> {
    Ok(Column {
        name: Text::copy_of(alloc, name)?,
        kind,
    })
}

fn one_column(alloc: Global) -> Result<Columns, Memory> {
    let mut columns = Columns::new(alloc);
    columns.push(named(alloc, "a", SqlType::Bigint)?)?;
    Ok(columns)
}

fn two_rows(alloc: Global) -> Result<RowList, Memory> {
    let mut rows = RowList::new(alloc);
    for value in [ValueRef::Bigint(1), ValueRef::Null] {
        rows.push(row(alloc, &[value])?)?;
    }
    Ok(rows)
}

fn table_of(alloc: Global, columns: Columns) -> Result<Table, Memory> {
    let rows = two_rows(alloc)?;
    Ok(Table { columns, rows })
}

fn table(alloc: Global) -> Result<Table, Memory> {
    table_of(alloc, one_column(alloc)?)
}

fn columns_hold(table: &Table) -> bool {
    table.columns.len() == 1 && !table.columns.is_empty()
}

fn cells_hold(rows: &RowList) -> bool {
    rows.len() == 2
        && matches!(rows.cell(0, 0), ValueRef::Bigint(1))
        && matches!(rows.cell(1, 0), ValueRef::Null)
        && matches!(rows.cell(1, 7), ValueRef::Null)
}

fn width_of_last(alloc: Global, rows: &RowList) -> Result<usize, Memory> {
    if rows.len() != 2 {
        return Ok(0);
    }
    Ok(rows.row(alloc, 1)?.len())
}

#[test]
fn tables_hold_rows(rt: HostRuntime) -> Result<(), Memory> {
    let table = table(rt.alloc())?;
    assert!(rt; columns_hold(&table));
    assert!(rt; cells_hold(&table.rows));
    assert!(rt; width_of_last(rt.alloc(), &table.rows)? == 1);
    Ok(())
}

fn same_as_copy(alloc: Global, name: &Text) -> Result<bool, Memory> {
    let copy = name.copy(alloc)?;
    Ok(name.same(&copy))
}

fn name_is_its_copy(alloc: Global) -> Result<bool, Memory> {
    let name = Text::copy_of(alloc, "a")?;
    same_as_copy(alloc, &name)
}

fn one_is(alloc: Global, other: &Value) -> Result<bool, Memory> {
    let one = ValueRef::Bigint(1).to_value(alloc)?;
    Ok(one.same(other))
}

#[test]
fn copies_are_the_same(rt: HostRuntime) -> Result<(), Memory> {
    assert!(rt; name_is_its_copy(rt.alloc())?);
    assert!(rt; one_is(rt.alloc(), &Value::Bigint(1))?);
    assert!(rt; !one_is(rt.alloc(), &Value::Date(1))?);
    Ok(())
}

fn show_cell(text: &mut String, cell: ValueRef<'_>) -> Result<(), Memory> {
    match cell {
        ValueRef::Null => text.push_str("null ")?,
        ValueRef::Boolean(truth) => write!(text, "{truth} ")?,
        ValueRef::Bigint(number) => write!(text, "{number} ")?,
        ValueRef::Decimal(unscaled) => write!(text, "{unscaled}d ")?,
        ValueRef::Varchar(value) => write!(text, "'{value}' ")?,
        ValueRef::Date(day) => write!(text, "day {day} ")?,
    }
    Ok(())
}

/// Whether the rows, so many columns of each, are written so.
fn rows_read(alloc: Global, rows: &RowList, columns: u32, wanted: &str) -> Result<bool, Memory> {
    let mut text = String::new(alloc);
    for place in 0..rows.len() {
        for column in 0..columns {
            show_cell(&mut text, rows.cell(place, column))?;
        }
        text.push_str("| ")?;
    }
    Ok(text.as_str() == wanted)
}

fn push_three(alloc: Global, rows: &mut RowList, last: ValueRef<'_>) -> Result<(), Memory> {
    for first in [ValueRef::Bigint(1), ValueRef::Null, last] {
        rows.push(row(alloc, &[first, ValueRef::Varchar("a")])?)?;
    }
    Ok(())
}

/// Whether three rows that are pushed to a list of types read so.
fn pushed_read(alloc: Global, last: ValueRef<'_>, wanted: &str) -> Result<bool, Memory> {
    let mut rows = RowList::of_types(alloc, &[SqlType::Bigint, SqlType::Varchar])?;
    push_three(alloc, &mut rows, last)?;
    rows_read(alloc, &rows, 2, wanted)
}

#[test]
fn lists_keep_columns_until_a_row_does_not_fit(rt: HostRuntime) -> Result<(), Memory> {
    let fits = "1 'a' | null 'a' | 3 'a' | ";
    assert!(rt; pushed_read(rt.alloc(), ValueRef::Bigint(3), fits)?);
    let fits_not = "1 'a' | null 'a' | 'x' 'a' | ";
    assert!(rt; pushed_read(rt.alloc(), ValueRef::Varchar("x"), fits_not)?);
    Ok(())
}

/// How many of the values were taken.
fn put_all(builder: &mut RowBuilder, values: &[ValueRef<'_>]) -> Result<u32, Memory> {
    let mut taken = 0u32;
    for value in values {
        if builder.put(*value)? {
            taken = taken.saturating_add(1);
        }
    }
    Ok(taken)
}

/// Whether five of the seven values make one row.
fn one_row_is_made(builder: &mut RowBuilder) -> Result<bool, Memory> {
    let values = [
        ValueRef::Boolean(true),
        ValueRef::Boolean(true),
        ValueRef::Bigint(-1),
        ValueRef::Decimal(250),
        ValueRef::Varchar("é"),
        ValueRef::Date(3),
        ValueRef::Null,
    ];
    let taken = put_all(builder, &values)?;
    Ok(taken == 5 && builder.end_row() && !builder.end_row() && builder.len() == 1)
}

#[test]
fn builders_make_rows_of_all_types(rt: HostRuntime) -> Result<(), Memory> {
    let types = [
        SqlType::Boolean,
        SqlType::Bigint,
        PRICE,
        SqlType::Varchar,
        SqlType::Date,
    ];
    let mut builder = RowBuilder::new(rt.alloc(), &types)?;
    assert!(rt; one_row_is_made(&mut builder)?);
    let rows = builder.finish();
    assert!(rt; rows_read(rt.alloc(), &rows, 5, "true -1 250d 'é' day 3 | ")?);
    Ok(())
}

fn push_numbers(block: &mut Block) -> Result<(), Memory> {
    for number in 0..3 {
        block.push(ValueRef::Bigint(number))?;
    }
    Ok(())
}

fn append_copy(alloc: Global, block: &mut Block) -> Result<(), Memory> {
    let twin = block.copy(alloc)?;
    block.append(&twin)?;
    Ok(())
}

/// The numbers below three, twice.
fn numbers(alloc: Global) -> Result<Block, Memory> {
    let mut block = Block::new(alloc, SqlType::Bigint);
    push_numbers(&mut block)?;
    append_copy(alloc, &mut block)?;
    Ok(block)
}

fn types_of(alloc: Global, block: &Block) -> Result<Vec<SqlType>, Memory>
    ensures { IfOk result (λ v. v.items ≡ block.now.kind ∷ []) }
{
    let mut types = Vec::new(alloc);
    types.push(block.kind())?;
    Ok(types)
}

fn blocks_of(alloc: Global, block: Block) -> Result<Vec<Block>, Memory>
    ensures { IfOk result (λ v. v.items ≡ block ∷ []) }
{
    let mut blocks = Vec::new(alloc);
    blocks.push(block)?;
    Ok(blocks)
}

/// The rows of a column.
fn rows_of(alloc: Global, block: Block) -> Result<ColumnRows, Memory> {
    let types = types_of(alloc, &block)?;
    let blocks = blocks_of(alloc, block)?;
    Ok(ColumnRows::of_columns(types, blocks))
}

/// The rows without the first.
fn cut_rows(alloc: Global, rows: &ColumnRows) -> Result<RowList, Memory> {
    if rows.len() == 0 {
        return Ok(RowList::new(alloc));
    }
    Ok(RowList::of_columns(alloc, rows.cut(alloc, 1, rows.len())?))
}

/// Whether the rows without the first read so.
fn cut_reads(alloc: Global, rows: &ColumnRows, wanted: &str) -> Result<bool, Memory> {
    let cut = cut_rows(alloc, rows)?;
    rows_read(alloc, &cut, 1, wanted)
}

#[test]
fn blocks_join_and_are_cut(rt: HostRuntime) -> Result<(), Memory> {
    let mut block = numbers(rt.alloc())?;
    block.truncate(5);
    assert!(rt; block.kind() == SqlType::Bigint);
    let rows = rows_of(rt.alloc(), block)?;
    assert!(rt; cut_reads(rt.alloc(), &rows, "1 | 2 | 0 | 1 | ")?);
    Ok(())
}

fn refuses_a_block(alloc: Global, block: &mut Block) -> Result<bool, Memory> {
    let other = Block::new(alloc, SqlType::Date);
    Ok(!block.append(&other)?)
}

#[test]
fn blocks_refuse_other_types(rt: HostRuntime) -> Result<(), Memory> {
    let mut block = numbers(rt.alloc())?;
    assert!(rt; !block.push(ValueRef::Date(1))?);
    assert!(rt; refuses_a_block(rt.alloc(), &mut block)?);
    assert!(rt; block.len() == 6);
    Ok(())
}

fn a_truth(alloc: Global) -> Result<Row, Memory>
    ensures { IfOk result (λ r. r ≡ Value.Boolean true ∷ []) }
{
    let mut values = Vec::new(alloc);
    values.push(Value::Boolean(true))?;
    Ok(Row::of(values))
}

/// Whether the one value of a list of one row comes in a block.
fn gives_a_block(alloc: Global, rows: &RowList) -> Result<bool, Memory>
    requires { rows.now ≡ (Value.Boolean true ∷ []) ∷ [] }
{
    let block = truths(alloc, rows)?;
    Ok(matches!(block.cell(0), ValueRef::Boolean(true)))
}

fn truths(alloc: Global, rows: &RowList) -> Result<Block, Memory>
    requires { rows.now ≡ (Value.Boolean true ∷ []) ∷ [] }
    ensures { IfOk result (λ b. length b.cells ≡ 1) }
{
    rows.block(alloc, SqlType::Boolean, 0, 0, 1)
}

/// Whether a list with no row gives a block once a truth is pushed.
fn gives_a_block_of(alloc: Global, rows: &mut RowList) -> Result<bool, Memory>
    requires { rows.old ≡ [] }
{
    rows.push(a_truth(alloc)?)?;
    gives_a_block(alloc, rows)
}

#[test]
fn lists_of_columns_give_blocks(rt: HostRuntime) -> Result<(), Memory> {
    let mut rows = RowList::of_types(rt.alloc(), &[SqlType::Boolean])?;
    assert!(rt; gives_a_block_of(rt.alloc(), &mut rows)?);
    Ok(())
}

#[test]
fn lists_of_rows_give_blocks(rt: HostRuntime) -> Result<(), Memory> {
    let mut rows = RowList::new(rt.alloc());
    assert!(rt; gives_a_block_of(rt.alloc(), &mut rows)?);
    Ok(())
}
