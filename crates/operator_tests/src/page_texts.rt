//! Pages as texts: rows stand on lines, their cells between blanks, and `-` is NULL.
ghost use Rattle.std.specs.Prelude.{◌≡◌, ◌<◌, length, IfOk};
ghost use Rattle.col_pages.specs.Pages.{TypedPage};
ghost use Rattle.col_pages.specs.Fits.{IsOfTypes};

use col_pages::{Page, PageBuilder};
use operator_core::{OpFault, Operator};
use sql_values::{Memory, SqlType, ValueRef, parse_value};
use std::alloc::Global;

/// Two keys, a number, a decimal and a text.
pub(crate) const TYPES: [SqlType; 5] = [
    SqlType::Varchar,
    SqlType::Bigint,
    SqlType::Bigint,
    SqlType::Decimal { p: 18, s: 2 },
    SqlType::Varchar,
];

fn put_value(builder: &mut PageBuilder, value: ValueRef<'_>) -> Result<(), Memory>
    ensures { builder.new.types ≡ builder.old.types }
{
    let _taken = builder.put(value)?;
    Ok(())
}

/// Appends a cell.
fn put_cell(
    alloc: Global,
    builder: &mut PageBuilder,
    kind: SqlType,
    text: &str,
) -> Result<(), Memory>
    ensures { builder.new.types ≡ builder.old.types }
{
    if text == "-" {
        return put_value(builder, ValueRef::Null);
    }
    match parse_value(alloc, kind, text) {
        Ok(value) => put_value(builder, value.as_ref()),
        Err(_) => Err(Memory),
    }
}

/// Appends a row of cells.
fn put_row(
    alloc: Global,
    builder: &mut PageBuilder,
    types: &[SqlType],
    row: &str,
) -> Result<(), Memory>
    ensures { builder.new.types ≡ builder.old.types }
{
    for (kind, text) in types.iter().zip(row.split(' ')) {
        put_cell(alloc, builder, *kind, text)?;
    }
    if !builder.is_full() {
        builder.end_row();
    }
    Ok(())
}

fn put_rows(
    alloc: Global,
    builder: &mut PageBuilder,
    types: &[SqlType],
    rows: &str,
) -> Result<(), Memory>
    ensures { builder.new.types ≡ builder.old.types }
{
    for row in rows.lines() {
        put_row(alloc, builder, types, row)?;
    }
    Ok(())
}

pub(crate) fn page(alloc: Global, types: &[SqlType], rows: &str) -> Result<Page, Memory>
    requires { 0 < length types.now }
    ensures { IfOk result (IsOfTypes types.now) }
{
    let mut builder = PageBuilder::new(alloc, types, 8192)?;
    put_rows(alloc, &mut builder, types, rows)?;
    let page = builder.build()?;
    page.rows_fit();
    Ok(page)
}

/// The rows of a page, as a page of these types.
pub(crate) fn copied(alloc: Global, types: &[SqlType], page: &Page) -> Result<Page, Memory>
    requires { 0 < length types.now }
    ensures { IfOk result (IsOfTypes types.now) }
{
    let mut builder = PageBuilder::new(alloc, types, 8192)?;
    for row in 0..page.len() {
        copy_row(&mut builder, page, row)?;
    }
    let page = builder.build()?;
    page.rows_fit();
    Ok(page)
}

/// Appends the first sixteen cells of a row, as far as there are columns.
fn copy_row(builder: &mut PageBuilder, page: &Page, row: u32) -> Result<(), Memory>
    requires { row < length page.now.rows }
    ensures { builder.new.types ≡ builder.old.types }
{
    for column in 0..16 {
        put_value(builder, page.cell(row, column))?;
    }
    if !builder.is_full() {
        builder.end_row();
    }
    Ok(())
}

pub(crate) fn take_in<O: Operator>(op: &mut O, page: Page) -> Result<(), OpFault>
    requires { O.Operator.takes op.old page }
    ensures { (p : TypedPage) → p.types ≡ page.types → O.Operator.takes op.old p
        → O.Operator.takes op.new p }
{
    if !op.needs_input() {
        return Ok(());
    }
    op.add_input(page)
}

/// The pages that an operator gives once `finish` was called.
pub(crate) fn drained<O: Operator>(alloc: Global, op: &mut O) -> Result<Vec<Page>, OpFault> {
    let mut pages = Vec::new(alloc);
    op.finish();
    for _call in 0..10_000u32 {
        match op.get_output()? {
            Some(page) => pages.push(page)?,
            None => break,
        }
    }
    Ok(pages)
}

fn show_row(line: &mut String, width: u32, page: &Page, row: u32) -> Result<(), Memory>
    requires { row < length page.now.rows }
{
    for column in 0..width {
        if 0 < column {
            line.push_str(" ")?;
        }
        match page.cell(row, column) {
            ValueRef::Bigint(n) => write!(line, "{n}")?,
            ValueRef::Decimal(n) => write!(line, "{n}")?,
            ValueRef::Varchar(text) => line.push_str(text)?,
            _ => line.push_str("-")?,
        }
    }
    Ok(())
}

/// Appends a line for each row of a page.
fn add_lines(
    alloc: Global,
    lines: &mut Vec<String>,
    width: u32,
    page: &Page,
) -> Result<(), Memory> {
    for row in 0..page.len() {
        let mut line = String::new(alloc);
        show_row(&mut line, width, page, row)?;
        lines.push(line)?;
    }
    Ok(())
}

fn join_lines(text: &mut String, lines: &[String]) -> Result<(), Memory> {
    for (place, line) in lines.iter().enumerate() {
        if place > 0 {
            text.push_str("\n")?;
        }
        text.push_str(line.as_str())?;
    }
    Ok(())
}

/// Appends the rows in the order of their texts, a line each.
pub(crate) fn show(
    alloc: Global,
    text: &mut String,
    width: u32,
    pages: &[Page],
) -> Result<(), Memory> {
    let mut lines = Vec::new(alloc);
    for page in pages {
        add_lines(alloc, &mut lines, width, page)?;
    }
    lines.sort()?;
    join_lines(text, lines.as_slice())
}

/// Whether these are the rows of the pages.
pub(crate) fn are_rows(
    alloc: Global,
    width: u32,
    pages: &[Page],
    wanted: &str,
) -> Result<bool, Memory> {
    let mut text = String::new(alloc);
    show(alloc, &mut text, width, pages)?;
    Ok(text.as_str() == wanted)
}
