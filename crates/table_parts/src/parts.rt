ghost use Rattle.std.specs.Prelude.{◌++◌, ◌<◌};
ghost use Rattle.std.specs.Thread.{IsSync};
ghost use Rattle.csv_tables.specs.Parts.{IsCut};
ghost use Rattle.table_parts.specs.Reading.{IsPart, IsPartRead};

use crate::cut::cut_behind;
use crate::joined::{fault_behind, rows_of_both};
use csv_tables::{TableFault, read_part};
use sql_values::{Column, ColumnRows};
use std::alloc::Global;
use std::thread::{Threads, join};

/// The rows of a text that stands behind the header, read as so many parts side by side, at least one.
#[cycle(parts)]
pub(crate) fn read_parts<R: Threads + Sync>(
    rt: &R,
    alloc: Global,
    parts: usize,
    columns: &[Column],
    limit: u32,
    text: &[u8],
) -> Result<ColumnRows, TableFault>
    requires { IsPart columns.now limit text.now }
    ensures { IsPartRead columns.now limit text.now result }
{
    if parts < 2 {
        return read_part(alloc, columns, limit, text);
    }
    let from = text.len() / parts * (parts / 2);
    match cut_behind(text, from) {
        Some((front, back)) => read_both(rt, alloc, parts, columns, limit, front, back),
        None => read_part(alloc, columns, limit, text),
    }
}

/// The rows of two parts, each read as half of so many parts.
#[cycle(parts)]
fn read_both<R: Threads + Sync>(
    rt: &R,
    alloc: Global,
    parts: usize,
    columns: &[Column],
    limit: u32,
    front: &[u8],
    back: &[u8],
) -> Result<ColumnRows, TableFault>
    requires parts { 1 < parts }
    requires front { IsPart columns.now limit front.now }
    requires back { IsPart columns.now limit back.now }
    requires cut { IsCut front.now back.now }
    ensures { IsPartRead columns.now limit (front.now ++ back.now) result }
{
    let low = parts / 2;
    let high = parts - low;
    let (first, second) = join(
        rt,
        move || -> Result<ColumnRows, TableFault>
            requires { IsSync R.row × IsPart columns.now limit front.now }
            ensures { IsPartRead columns.entry.now limit front.entry.now result }
        { read_parts(rt, alloc, low, columns, limit, front) },
        move || -> Result<ColumnRows, TableFault>
            requires { IsSync R.row × IsPart columns.now limit back.now }
            ensures { IsPartRead columns.entry.now limit back.entry.now result }
        { read_parts(rt, alloc, high, columns, limit, back) },
    );
    let first = first?;
    match second {
        Ok(second) => rows_of_both(alloc, limit, first, second),
        Err(fault) => Err(fault_behind(limit, first.len(), fault)),
    }
}
