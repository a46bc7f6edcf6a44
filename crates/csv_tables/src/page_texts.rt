//! The records of pages, appended to a text.
ghost use Rattle.std.specs.Prelude.{◌≡◌, ◌<◌, ◌^◌, ◌++◌, List, [], length, slice_index_or, IfOk, OnOk};
ghost use Rattle.sql_values.specs.Cells.{cell, lent_value};
ghost use Rattle.csv_tables.specs.PageColumns.{AreColumnsFrom};
ghost use Rattle.csv_tables.specs.ResultTexts.{fields_from, record_text, rows_text};

use crate::field_texts::{end_record, put_cell, put_separator, type_at};
use col_pages::Page;
use sql_values::{Memory, PlainBlock, SqlType, ValueRef};
use std::alloc::Global;

/// The first columns of a page, at most so many, each in a vector of its own. The cells of a column that was picked out of
/// many rows lie far apart: one loop over a column fetches several of them at a time, and a walk along the rows would
/// wait for each.
fn plain_columns(alloc: Global, page: &Page, count: usize) -> Result<Vec<PlainBlock>, Memory>
    requires { count < 2 ^ 32 }
    ensures { IfOk result (λ columns. AreColumnsFrom 0 page.now.rows columns.items) }
{
    let mut columns = Vec::with_capacity(alloc, count)?;
    for column in 0..count {
        let Some(block) = page.block(column as u32) else {
            return Ok(columns);
        };
        columns.push(block.to_plain(alloc)?)?;
    }
    Ok(columns)
}

/// A cell of a page, some of whose columns stand beside it.
fn cell_of<'a>(page: &'a Page, columns: &'a [PlainBlock], place: u32, column: u32) -> ValueRef<'a>
    requires place { place < length page.now.rows }
    requires columns { AreColumnsFrom 0 page.now.rows columns.now }
    ensures { lent_value result ≡ cell (slice_index_or page.now.rows place []) column }
{
    match columns.get(column as usize) {
        Some(block) => block.cell(place as usize),
        None => page.cell(place, column),
    }
}

/// Appends the record of the row of a page at a place.
fn put_page_row(
    types: &[SqlType],
    page: &Page,
    columns: &[PlainBlock],
    place: u32,
    to: &mut Vec<u8>,
) -> Result<(), Memory>
    requires types { length types.now < 2 ^ 32 }
    requires place { place < length page.now.rows }
    requires columns { AreColumnsFrom 0 page.now.rows columns.now }
    ensures { OnOk result (to.new.items ≡ to.old.items
        ++ record_text (fields_from 0 types.now (slice_index_or page.now.rows place []))) }
{
    let start = to.len();
    for column in 0..types.len() {
        put_separator(column, to)?;
        let cell = cell_of(page, columns, place, column as u32);
        put_cell(type_at(types, column), cell, to)?;
    }
    end_record(start, to)
}

/// Appends the records of the rows of a page, with a field for each type. Where memory was wanting, some of them may stand
/// there.
pub fn append_page(types: &[SqlType], page: &Page, to: &mut Vec<u8>) -> Result<(), Memory>
    requires { length types.now < 2 ^ 32 }
    ensures { OnOk result (to.new.items ≡ to.old.items ++ rows_text types.now page.now.rows) }
{
    let columns = plain_columns(*to.allocator(), page, types.len())?;
    for place in 0..page.len() {
        put_page_row(types, page, columns.as_slice(), place, to)?;
    }
    Ok(())
}
