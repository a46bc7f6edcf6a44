ghost use Rattle.std.specs.Prelude.{◌<◌, length};

use crate::tables::{is_printed, names_of, number, push_column, types_of};
use col_pages::{Page, PageBuilder};
use csv_tables::{TableFault, read_table};
use sql_values::{Column, Memory, SqlType, Table, ValueRef, print_value};
use std::alloc::Global;
use std::thread::Threads;
use table_parts::{TextChunks, text_in_parts, text_part_count};

/// A column of each type, under names of which one calls for quotes.
fn each_type(alloc: Global) -> Result<Vec<Column>, Memory> {
    let mut columns = Vec::new(alloc);
    push_column(alloc, &mut columns, "truth", SqlType::Boolean)?;
    push_column(alloc, &mut columns, "a, \"b\"", SqlType::Bigint)?;
    push_column(alloc, &mut columns, "sum", SqlType::Decimal { p: 5, s: 2 })?;
    push_column(alloc, &mut columns, "text", SqlType::Varchar)?;
    push_column(alloc, &mut columns, "day", SqlType::Date)?;
    Ok(columns)
}

/// A text of these columns as it is printed.
const EACH_TYPE: &str = "truth,\"a, \"\"b\"\"\",sum,text,day
true,-7,-0.50,\"x, \"\"y\"\"\",2001-02-03
\\N,\\N,\\N,\\N,\\N
false,0,12.00,,0001-01-01
true,9223372036854775807,999.99,\"line\nline\",9999-12-31
true,-9223372036854775808,-999.99,\"carriage\rreturn\",1969-12-31
false,1,0.01,\\\\N,1970-01-01
false,2,0.00,\"\\\\,\",1970-01-02
";

#[test]
fn each_type_prints_as_it_is_read(rt: HostRuntime) -> Result<(), TableFault> {
    let alloc = rt.alloc();
    let columns = each_type(alloc)?;
    let table = read_table(alloc, columns.as_slice(), 9, EACH_TYPE.as_bytes())?;
    assert!(rt; is_printed(alloc, &table, EACH_TYPE)?);
    assert!(rt; prints_alike(&rt, alloc, &table, EACH_TYPE.as_bytes())?);
    Ok(())
}

/// A text in `c`.
fn text_alone(alloc: Global) -> Result<Vec<Column>, Memory> {
    let mut columns = Vec::new(alloc);
    push_column(alloc, &mut columns, "c", SqlType::Varchar)?;
    Ok(columns)
}

#[test]
fn an_empty_record_is_quoted(rt: HostRuntime) -> Result<(), TableFault> {
    let alloc = rt.alloc();
    let columns = text_alone(alloc)?;
    let table = read_table(alloc, columns.as_slice(), 9, b"c\n\"\"\n\\N\n")?;
    assert!(rt; is_printed(alloc, &table, "c\n\"\"\n\\N\n")?);
    Ok(())
}

/// The most rows of a page here.
const ROOM: u32 = 1000;

/// Puts a row into a builder, where it has room.
fn put_row(builder: &mut PageBuilder, table: &Table, place: usize) -> Result<(), Memory>
    requires { place < length table.now.rows }
{
    let Ok(width) = u32::try_from(table.columns.len()) else {
        return Err(Memory);
    };
    for column in 0..width {
        builder.put(table.rows.cell(place, column))?;
    }
    if !builder.is_full() {
        builder.end_row();
    }
    Ok(())
}

/// Moves what a builder holds to the pages, as columns that share their cells.
fn move_page(
    alloc: Global,
    builder: &mut PageBuilder,
    pages: &mut Vec<Page>,
) -> Result<(), Memory> {
    let page = builder.build()?;
    pages.push(page.into_dictionaries(alloc)?)?;
    Ok(())
}

fn put_rows(
    alloc: Global,
    builder: &mut PageBuilder,
    table: &Table,
    pages: &mut Vec<Page>,
) -> Result<(), Memory> {
    for place in 0..table.rows.len() {
        put_row(builder, table, place)?;
        if builder.is_full() {
            move_page(alloc, builder, pages)?;
        }
    }
    move_page(alloc, builder, pages)
}

/// The rows of a table that has a column, as pages.
fn pages_of(alloc: Global, table: &Table) -> Result<Vec<Page>, Memory> {
    let types = types_of(alloc, table.columns.as_slice())?;
    let mut pages = Vec::new(alloc);
    if !types.is_empty() {
        let mut builder = PageBuilder::new(alloc, types.as_slice(), ROOM)?;
        put_rows(alloc, &mut builder, table, &mut pages)?;
    }
    Ok(pages)
}

fn print_by<R: Threads + Sync>(
    rt: &R,
    alloc: Global,
    workers: u32,
    columns: &[Column],
    pages: &[Page],
) -> Result<TextChunks, Memory> {
    let names = names_of(alloc, columns)?;
    let types = types_of(alloc, columns)?;
    text_in_parts(
        rt,
        alloc,
        workers,
        names.as_slice(),
        types.as_slice(),
        pages,
    )
}

/// Whether chunks, one behind the other, are a text.
fn are_chunks_of(chunks: &[Vec<u8>], text: &[u8]) -> bool {
    let mut at: usize = 0;
    for chunk in chunks {
        let end = at.saturating_add(chunk.len());
        if text.get(at..end) != Some(chunk.as_slice()) {
            return false;
        }
        at = end;
    }
    at == text.len()
}

/// One for each part, and one for the header before them.
fn chunk_count(workers: u32, rows: usize) -> usize {
    match text_part_count(workers, rows) {
        1 => 1,
        parts => parts.saturating_add(1),
    }
}

/// Whether the rows of a table print as a text by none, one and three workers.
fn prints_alike<R: Threads + Sync>(
    rt: &R,
    alloc: Global,
    table: &Table,
    text: &[u8],
) -> Result<bool, Memory> {
    let pages = pages_of(alloc, table)?;
    for workers in [0, 1, 3] {
        let printed = print_by(
            rt,
            alloc,
            workers,
            table.columns.as_slice(),
            pages.as_slice(),
        )?;
        let chunks = printed.chunks();
        if chunks.len() != chunk_count(workers, table.rows.len()) || !are_chunks_of(chunks, text) {
            return Ok(false);
        }
    }
    Ok(true)
}

/// The text of so many numbers in `a`.
fn numbers(alloc: Global, count: u32) -> Result<Vec<u8>, Memory> {
    let mut text = Vec::new(alloc);
    text.extend_from_slice(b"a\n")?;
    for place in 0..count {
        print_value(
            SqlType::Bigint,
            ValueRef::Bigint(i64::from(place)),
            &mut text,
        )?;
        text.push(b'\n')?;
    }
    Ok(text)
}

/// Whether a text of so many numbers is printed as it stands.
fn numbers_print<R: Threads + Sync>(rt: &R, alloc: Global, count: u32) -> Result<bool, TableFault> {
    let text = numbers(alloc, count)?;
    let table = read_table(alloc, number(alloc)?.as_slice(), 50_000, text.as_slice())?;
    Ok(prints_alike(rt, alloc, &table, text.as_slice())?)
}

#[test]
fn parts_print_as_the_whole(rt: HostRuntime) -> Result<(), TableFault> {
    let alloc = rt.alloc();
    for count in [0, 1, 40_000, 50_000] {
        assert!(rt; numbers_print(&rt, alloc, count)?);
    }
    Ok(())
}

#[test]
fn a_printed_part_is_worth_a_thread(rt: HostRuntime) {
    assert_eq!(rt; text_part_count(4, 16_000), 1);
    assert_eq!(rt; text_part_count(4, 40_000), 2);
    assert_eq!(rt; text_part_count(3, 2_000_000_000), 3);
    assert_eq!(rt; text_part_count(0, 2_000_000_000), 1);
}
