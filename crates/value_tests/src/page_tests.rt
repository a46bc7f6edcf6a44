//! Pages, their builder and lists.
ghost use Rattle.std.specs.Prelude.{◌≡◌, [], ◌∷◌, length, true, IfOk};
ghost use Rattle.sql_values.specs.declared.value.Value.TheVariants.{Null};

use col_pages::{Block, Page, PageBuilder, PageList};
use sql_values::{Memory, Row, RowList, SqlType, Value, ValueRef};
use std::alloc::Global;

fn show_cell(text: &mut String, cell: ValueRef<'_>) -> Result<(), Memory> {
    match cell {
        ValueRef::Null => text.push_str("null ")?,
        ValueRef::Bigint(number) => write!(text, "{number} ")?,
        ValueRef::Varchar(value) => write!(text, "'{value}' ")?,
        _ => text.push_str("? ")?,
    }
    Ok(())
}

/// Whether a page, so many columns of each row, is written so.
fn page_reads(alloc: Global, page: &Page, columns: u32, wanted: &str) -> Result<bool, Memory> {
    let mut text = String::new(alloc);
    for place in 0..page.len() {
        for column in 0..columns {
            show_cell(&mut text, page.cell(place, column))?;
        }
        text.push_str("| ")?;
    }
    Ok(text.as_str() == wanted)
}

fn put_three(builder: &mut PageBuilder) -> Result<(), Memory> {
    for (number, text) in [(1, "a"), (2, ""), (3, "c")] {
        builder.put(ValueRef::Bigint(number))?;
        builder.put(ValueRef::Varchar(text))?;
        if !builder.is_full() {
            builder.end_row();
        }
    }
    Ok(())
}

/// Three rows.
fn page(alloc: Global) -> Result<Page, Memory> {
    let mut builder = PageBuilder::new(alloc, &[SqlType::Bigint, SqlType::Varchar], 4)?;
    put_three(&mut builder)?;
    builder.build()
}

/// Whether the rows from one place up to another are written so.
fn cut_reads(
    alloc: Global,
    whole: &Page,
    from: u32,
    to: u32,
    wanted: &str,
) -> Result<bool, Memory> {
    if to < from || whole.len() < to {
        return Ok(false);
    }
    let cut = whole.slice(alloc, from, to)?;
    page_reads(alloc, &cut, 2, wanted)
}

#[test]
fn pages_are_cut(rt: HostRuntime) -> Result<(), Memory> {
    let whole = page(rt.alloc())?;
    assert!(rt; cut_reads(rt.alloc(), &whole, 0, 3, "1 'a' | 2 '' | 3 'c' | ")?);
    assert!(rt; cut_reads(rt.alloc(), &whole, 1, 2, "2 '' | ")?);
    assert!(rt; cut_reads(rt.alloc(), &whole, 2, 2, "")?);
    Ok(())
}

/// Whether the third row, the first and the third again are written so.
fn chosen_read(alloc: Global, page: &Page, wanted: &str) -> Result<bool, Memory>
    requires { length page.now.rows ≡ 3 }
{
    let chosen = page.select(alloc, &[2, 0, 2])?;
    page_reads(alloc, &chosen, 2, wanted)
}

fn width_of_second(alloc: Global, page: &Page) -> Result<usize, Memory>
    requires { length page.now.rows ≡ 3 }
{
    Ok(page.row(alloc, 1)?.len())
}

fn copied(alloc: Global) -> Result<Page, Memory> {
    let page = page(alloc)?;
    page.copy(alloc)
}

fn rows_hold(alloc: Global, whole: &Page) -> Result<bool, Memory> {
    if whole.len() != 3 || whole.types().len() != 2 {
        return Ok(false);
    }
    Ok(
        width_of_second(alloc, whole)? == 2
            && chosen_read(alloc, whole, "3 'c' | 1 'a' | 3 'c' | ")?,
    )
}

#[test]
fn rows_are_chosen_in_any_order(rt: HostRuntime) -> Result<(), Memory> {
    let whole = copied(rt.alloc())?;
    assert!(rt; rows_hold(rt.alloc(), &whole)?);
    Ok(())
}

fn null_row(alloc: Global) -> Result<Row, Memory>
    ensures { IfOk result (λ r. r ≡ Null ∷ []) }
{
    let mut values = Vec::new(alloc);
    values.push(Value::Null)?;
    Ok(Row::of(values))
}

fn push_null(alloc: Global, builder: &mut PageBuilder) -> Result<(), Memory>
    requires { builder.old
        ≡ record { types = SqlType.Bigint ∷ []; rows = []; begun = []; room = 1 } }
{
    let row = null_row(alloc)?;
    builder.push_row(&row)
}

fn built_reads(alloc: Global, builder: &mut PageBuilder, wanted: &str) -> Result<bool, Memory> {
    let page = builder.build()?;
    page_reads(alloc, &page, 1, wanted)
}

#[test]
fn builders_take_rows(rt: HostRuntime) -> Result<(), Memory> {
    let mut builder = PageBuilder::new(rt.alloc(), &[SqlType::Bigint], 1)?;
    push_null(rt.alloc(), &mut builder)?;
    assert!(rt; builder.is_full());
    assert!(rt; built_reads(rt.alloc(), &mut builder, "null | ")?);
    assert!(rt; builder.is_empty());
    Ok(())
}

#[test]
fn pages_come_apart(rt: HostRuntime) -> Result<(), Memory> {
    let blocks = page(rt.alloc())?.into_blocks();
    assert!(rt; blocks.len() == 2);
    Ok(())
}

fn bigints(alloc: Global) -> Result<Vec<SqlType>, Memory>
    ensures { IfOk result (λ v. v.items ≡ SqlType.Bigint ∷ []) }
{
    let mut types = Vec::new(alloc);
    types.push(SqlType::Bigint)?;
    Ok(types)
}

fn empty_block(alloc: Global) -> Result<Vec<Block>, Memory>
    ensures { IfOk result (λ v. v.items ≡ record { kind = SqlType.Bigint; cells = [] } ∷ []) }
{
    let mut blocks = Vec::new(alloc);
    blocks.push(Block::of_values(alloc, SqlType::Bigint, &[])?)?;
    Ok(blocks)
}

fn empty_page(alloc: Global) -> Result<Page, Memory> {
    let types = bigints(alloc)?;
    let blocks = empty_block(alloc)?;
    Ok(Page::of_blocks(types, blocks))
}

#[test]
fn blocks_become_pages(rt: HostRuntime) -> Result<(), Memory> {
    let page = empty_page(rt.alloc())?;
    assert!(rt; page.is_empty());
    assert!(rt; page.types().len() == 1);
    Ok(())
}

fn null_and_truth(alloc: Global) -> Result<Row, Memory>
    ensures { IfOk result (λ r. r ≡ Null ∷ Value.Boolean true ∷ []) }
{
    let mut values = Vec::new(alloc);
    values.push(Value::Null)?;
    values.push(Value::Boolean(true))?;
    Ok(Row::of(values))
}

/// A list of one row.
fn list(alloc: Global) -> Result<RowList, Memory>
    ensures { IfOk result (λ l. l ≡ (Null ∷ Value.Boolean true ∷ []) ∷ []) }
{
    let mut rows = RowList::new(alloc);
    rows.push(null_and_truth(alloc)?)?;
    Ok(rows)
}

/// The second column of a list.
fn truths(alloc: Global, rows: &RowList) -> Result<Page, Memory>
    requires { rows.now ≡ (Null ∷ Value.Boolean true ∷ []) ∷ [] }
    ensures { IfOk result (λ p. length p.rows ≡ 1) }
{
    Page::of_rows(alloc, rows, &[SqlType::Boolean], &[1], 0, 1)
}

pub(crate) fn second_column(alloc: Global) -> Result<Page, Memory>
    ensures { IfOk result (λ p. length p.rows ≡ 1) }
{
    let rows = list(alloc)?;
    truths(alloc, &rows)
}

#[test]
fn lists_give_pages(rt: HostRuntime) -> Result<(), Memory> {
    let page = second_column(rt.alloc())?;
    assert!(rt; matches!(page.cell(0, 0), ValueRef::Boolean(true)));
    Ok(())
}

fn one_page(alloc: Global) -> Result<PageList, Memory> {
    let mut pages = PageList::new(alloc);
    pages.push(second_column(alloc)?)?;
    Ok(pages)
}

#[test]
fn lists_of_pages_give_the_first(rt: HostRuntime) -> Result<(), Memory> {
    let mut pages = one_page(rt.alloc())?;
    assert!(rt; pages.len() == 1);
    assert!(rt; pages.take_first().is_some());
    assert!(rt; pages.take_first().is_none());
    assert!(rt; pages.is_empty());
    Ok(())
}
