ghost use Rattle.std.specs.Prelude.{◌≡◌, ◌<◌, ◌-◌, ◌/◌, ◌^◌, min, IfOk, IfSome, MatchResult, Ok};
ghost use Rattle.csv_tables.specs.Places.{IsFaultOf};
ghost use Rattle.csv_tables.specs.Tables.{IsTable, records_of, rows_from, TableRefusedFor};
ghost use Rattle.table_parts.specs.Reading.{IsPart, IsUnderHeader};

use crate::cut::{cut_behind, is_plain};
use crate::parts::read_parts;
use csv_tables::{TableFault, read_table};
use sql_values::{Column, Columns, RowList, Table};
use std::alloc::Global;
use std::thread::Threads;

/// A text has at most one part for so many bytes, so that a thread is worth its start.
const LEAST_PART: usize = 262_144;

/// The columns that a header names, and the text behind it.
#[derive(Drop)]
struct Headed<'a> {
    columns: Columns,
    rest: &'a [u8],
}

/// In how many parts a text of a length is read by so many workers.
pub fn part_count(workers: u32, len: usize) -> usize
    ensures { result ≡ min workers (len / 262144) }
{
    (workers as usize).min(len / LEAST_PART)
}

/// The header of a text and what stands behind it, where that can be cut into parts.
fn under_header<'a>(
    alloc: Global,
    columns: &[Column],
    limit: u32,
    text: &'a [u8],
) -> Option<Headed<'a>>
    requires { limit < 2 ^ 32 - 1 }
    ensures columns { IfSome result (λ headed. headed.columns ≡ columns.now) }
    ensures rest { IfSome result
        (λ headed. IsUnderHeader columns.now limit text.now headed.rest.now) }
{
    if columns.is_empty() || columns.len() > u32::MAX as usize || !is_plain(text) {
        return None;
    }
    let (header, rest) = cut_behind(text, 0)?;
    let Ok(table) = read_table(alloc, columns, limit, header) else {
        return None;
    };
    if !table.rows.is_empty() {
        return None;
    }
    Some(Headed {
        columns: table.columns,
        rest,
    })
}

/// The table under a header, whose rows are read as so many parts.
fn read_under_header<R: Threads + Sync>(
    rt: &R,
    alloc: Global,
    parts: usize,
    columns: &[Column],
    limit: u32,
    headed: Headed<'_>,
) -> Result<Table, TableFault>
    requires { IsPart columns.now limit headed.rest.now }
    ensures columns { IfOk result (λ t. t.columns ≡ headed.entry.columns) }
    ensures rows { MatchResult result
        (λ t. rows_from columns.now limit 1 (records_of headed.entry.rest.now) ≡ Ok t.rows)
        (IsFaultOf (rows_from columns.now limit 1 (records_of headed.entry.rest.now))) }
{
    let rows = read_parts(rt, alloc, parts, columns, limit, headed.rest)?;
    Ok(Table {
        columns: headed.columns,
        rows: RowList::of_columns(alloc, rows),
    })
}

/// The table that `read_table` reads. Where the text has no quotes, it is read as so many parts, side by side if there
/// are threads; any other text is read as one.
pub fn read_table_in_parts<R: Threads + Sync>(
    rt: &R,
    alloc: Global,
    parts: usize,
    columns: &[Column],
    limit: u32,
    bytes: &[u8],
) -> Result<Table, TableFault>
    requires { limit < 2 ^ 32 - 1 }
    ensures { MatchResult result
        (λ t. (t.columns ≡ columns.now) × IsTable columns.now limit bytes.now t.rows)
        (TableRefusedFor columns.now limit bytes.now) }
{
    if parts < 2 {
        return read_table(alloc, columns, limit, bytes);
    }
    match under_header(alloc, columns, limit, bytes) {
        Some(headed) => read_under_header(rt, alloc, parts, columns, limit, headed),
        None => read_table(alloc, columns, limit, bytes),
    }
}
