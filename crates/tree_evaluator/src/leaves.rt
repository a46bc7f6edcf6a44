ghost use Rattle.std.specs.Prelude.{◌≡◌, ◌<◌, length, map, All, IsTrue, IfOk};
ghost use Rattle.std.specs.List.{range_with_len};
ghost use Rattle.sql_values.specs.Cells.{cut};
ghost use Rattle.sql_values.specs.ColumnRows.{fits_row};
ghost use Rattle.plan_trees.specs.Allowed.{scanned};
ghost use Rattle.tree_evaluator.specs.Stops.{rows_of_table};
ghost use Rattle.col_pages.specs.Fits.{AllFit};

use crate::node_rows::NodeRows;
use col_pages::{MOST_ROWS, Page};
use sql_values::{Memory, RowList, SqlType, Table};
use std::alloc::Global;

/// The rows of a table, cut to the columns at these places: none where there is no such table.
pub fn scan_table(
    alloc: Global,
    tables: &[Table],
    table: u32,
    types: &[SqlType],
    columns: &[u32],
) -> Result<NodeRows, Memory>
    requires some { 0 < length types.now }
    requires beside { length types.now ≡ length columns.now }
    requires fits { AllFit types.now (scanned (map rows_of_table tables.now) table columns.now) }
    ensures { IfOk result
        (λ n. n ≡ record { types = types.now; rows = scanned (map rows_of_table tables.now) table columns.now }) }
{
    match tables.get(table as usize) {
        Some(table) => scan_rows(alloc, &table.rows, types, columns),
        None => NodeRows::new(alloc, types),
    }
}

/// The rows, cut to the columns at these places, which have these types.
pub fn scan_rows(
    alloc: Global,
    rows: &RowList,
    types: &[SqlType],
    columns: &[u32],
) -> Result<NodeRows, Memory>
    requires some { 0 < length types.now }
    requires beside { length types.now ≡ length columns.now }
    requires fits { All (λ row. IsTrue (fits_row types.now (cut columns.now row))) rows.now }
    ensures { IfOk result
        (λ n. n ≡ record { types = types.now; rows = map (cut columns.now) rows.now }) }
{
    let mut scanned = NodeRows::new(alloc, types)?;
    let mut low = 0;
    while low < rows.len() {
        let high = low + (rows.len() - low).min(MOST_ROWS as usize);
        let page = Page::of_rows(alloc, rows, types, columns, low, high)?;
        scanned.push(page)?;
        low = high;
    }
    Ok(scanned)
}

/// Rows that fit these types, as they are. More columns than a `u32` counts are `Memory`.
pub fn constant_rows(alloc: Global, rows: &RowList, types: &[SqlType]) -> Result<NodeRows, Memory>
    requires some { 0 < length types.now }
    requires fits { AllFit types.now rows.now }
    ensures { IfOk result (λ n. n ≡ record { types = types.now; rows = rows.now }) }
{
    if types.len() > u32::MAX as usize {
        return Err(Memory);
    }
    let columns = all_places(alloc, types.len() as u32)?;
    scan_rows(alloc, rows, types, columns.as_slice())
}

/// The places of so many columns.
fn all_places(alloc: Global, count: u32) -> Result<Vec<u32>, Memory>
    ensures { IfOk result (λ v. v.items ≡ range_with_len 0 count) }
{
    let mut places = Vec::with_capacity(alloc, count as usize)?;
    for place in 0..count {
        places.push(place)?;
    }
    Ok(places)
}
