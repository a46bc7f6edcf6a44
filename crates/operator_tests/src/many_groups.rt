//! Groups past the number from which the keys of a page are sought together: they are as below it.
ghost use Rattle.std.specs.Prelude.{◌≡◌, IfOk};
ghost use Rattle.aggregation.specs.Tables.{TableState};

use crate::cell_texts::show_value;
use crate::page_texts::page;
use aggregation::GroupTable;
use col_pages::{Page, PageBuilder};
use sql_values::{Call, ColumnRows, EvalFault, Memory, SqlType, ValueRef};
use std::alloc::Global;

const TYPES: [SqlType; 2] = [SqlType::Bigint, SqlType::Bigint];

const KINDS: [SqlType; 3] = [SqlType::Bigint, SqlType::Bigint, SqlType::Bigint];

/// Keys that repeat within the page, NULL among them, and a number each.
const ROWS: &str = "7 1\n- 2\n7 3\n9 -\n- 4\n8 5\n7 6\n9 -";

/// The groups of these rows, each a key, how many rows there are and the sum, in the order in which they came.
const GROUPS: &str = "7 3 10 null 2 6 9 2 null 8 1 5 ";

/// No row yet, of groups by the first column, for the number of rows and the sum of the second.
fn no_row(alloc: Global) -> Result<GroupTable, Memory> {
    GroupTable::new(
        alloc,
        Vec::from_array(alloc, [0])?,
        Vec::from_array(alloc, [Call::CountAll, Call::Sum(1)])?,
        Vec::from_array(alloc, TYPES)?,
    )
}

fn put_number(builder: &mut PageBuilder, number: i64) -> Result<(), Memory> {
    let _taken = builder.put(ValueRef::Bigint(number))?;
    let _taken = builder.put(ValueRef::Bigint(1))?;
    if !builder.is_full() {
        builder.end_row();
    }
    Ok(())
}

/// A page of 5000 keys, from 1000 on, and a 1 each.
fn many(alloc: Global) -> Result<Page, Memory> {
    let mut builder = PageBuilder::new(alloc, &TYPES, 8192)?;
    for number in 1_000..6_000i64 {
        put_number(&mut builder, number)?;
    }
    builder.build()
}

fn take_many(alloc: Global, table: &mut GroupTable) -> Result<(), Memory> {
    let page = many(alloc)?;
    table.add_page(&page)
}

fn take_rows(alloc: Global, table: &mut GroupTable) -> Result<(), Memory> {
    let page = page(alloc, &TYPES, ROWS)?;
    table.add_page(&page)
}

fn show_group(text: &mut String, rows: &ColumnRows, place: usize) -> Result<(), Memory> {
    if place < rows.len() {
        for column in 0..3 {
            show_value(text, rows.cell(place, column))?;
        }
    }
    Ok(())
}

/// Appends the groups from a place on.
fn show_groups(text: &mut String, table: &GroupTable, from: usize) -> Result<(), EvalFault> {
    let rows = table.results(&KINDS)?;
    for place in from..rows.len() {
        show_group(text, &rows, place)?;
    }
    Ok(())
}

/// Whether the groups from a place on are these.
fn are_groups(
    alloc: Global,
    table: &GroupTable,
    from: usize,
    wanted: &str,
) -> Result<bool, EvalFault> {
    let mut text = String::new(alloc);
    show_groups(&mut text, table, from)?;
    Ok(text.as_str() == wanted)
}

#[test]
fn rows_are_grouped_where_there_are_few_groups(rt: HostRuntime) -> Result<(), EvalFault> {
    let mut table = no_row(rt.alloc())?;
    take_rows(rt.alloc(), &mut table)?;
    assert!(rt; are_groups(rt.alloc(), &table, 0, GROUPS)?);
    Ok(())
}

#[test]
fn rows_are_grouped_where_there_are_many_groups(rt: HostRuntime) -> Result<(), EvalFault> {
    let mut table = no_row(rt.alloc())?;
    take_many(rt.alloc(), &mut table)?;
    take_rows(rt.alloc(), &mut table)?;
    assert!(rt; are_groups(rt.alloc(), &table, 5_000, GROUPS)?);
    Ok(())
}

#[test]
fn many_groups_are_found_again(rt: HostRuntime) -> Result<(), EvalFault> {
    let mut table = no_row(rt.alloc())?;
    take_many(rt.alloc(), &mut table)?;
    take_many(rt.alloc(), &mut table)?;
    assert!(rt; table.len() == 5_000);
    assert!(rt;
        are_groups(
            rt.alloc(),
            &table,
            4_996,
            "5996 2 2 5997 2 2 5998 2 2 5999 2 2 "
        )?
    );
    Ok(())
}
