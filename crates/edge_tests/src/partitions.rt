//! Pages that are split by one column, by two and by none, over one part and more. Which rows each part has
//! was computed in Python by the rule of the buckets.

use col_pages::{Page, PageBuilder};
use output_buffer::Partitioner;
use sql_values::{Memory, SqlType, ValueRef};
use std::alloc::Global;

/// Of each row a name, a number and a text; `-` is NULL.
const ROWS: &str = r"a|1|x
b|2|-
c|-1|\N
d|-|é
e|12345|
f|1|é
g|-|-
h|9223372036854775807|x
i|-9223372036854775808|long
j|2|x
k|1|x
l|-|x";

/// Columns, how many parts there are, and the names of the rows of each part. No row has a column 7.
const SPLITS: &str = "1|1|abcdefghijkl
1|2|bchij/adefgkl
1|3|bdghjl/ce/afik
1|7|///bdgijl/e/h/acfk
2|1|abcdefghijkl
2|2|cdefi/abghjkl
2|3|bg/e/acdfhijkl
2|7|/ahjkl/e/bgi/df//c
1,2|1|abcdefghijkl
1,2|2|bdefhj/acgikl
1,2|3|bdel/ghi/acfjk
1,2|7|ak/bd/ehj//fl/gi/c
2,1|1|abcdefghijkl
2,1|2|bdefhj/acgikl
2,1|3|befh/adgjkl/ci
2,1|7|hi/ak/cl/bdej//fg/
|3|//abcdefghijkl
2,7|3|cei/abdfghjkl/";

/// What a page of no rows gives.
const EMPTY_SPLITS: &str = "1|1|
1|3|//
1,2|2|/";

fn cell_of(place: usize, text: &str) -> ValueRef<'_> {
    if text == "-" {
        return ValueRef::Null;
    }
    match text.parse::<i64>() {
        Ok(number) if place == 1 => ValueRef::Bigint(number),
        _ => ValueRef::Varchar(text),
    }
}

fn put_row(builder: &mut PageBuilder, line: &str) -> Result<(), Memory> {
    for (place, text) in line.split('|').enumerate() {
        builder.put(cell_of(place, text))?;
    }
    if !builder.is_full() {
        builder.end_row();
    }
    Ok(())
}

fn put_rows(builder: &mut PageBuilder, rows: &str) -> Result<(), Memory> {
    for line in rows.lines() {
        put_row(builder, line)?;
    }
    Ok(())
}

fn page_of(alloc: Global, rows: &str) -> Result<Page, Memory> {
    let types = [SqlType::Varchar, SqlType::Bigint, SqlType::Varchar];
    let mut builder = PageBuilder::new(alloc, &types, 12)?;
    put_rows(&mut builder, rows)?;
    builder.build()
}

fn columns_of(alloc: Global, texts: &str) -> Result<Vec<u32>, Memory> {
    let mut columns = Vec::new(alloc);
    for text in texts.split(',') {
        if let Ok(column) = text.parse::<u32>() {
            columns.push(column)?;
        }
    }
    Ok(columns)
}

fn push_names(text: &mut String, page: &Page) -> Result<(), Memory> {
    for row in 0..page.len() {
        if let ValueRef::Varchar(name) = page.cell(row, 0) {
            text.push_str(name)?;
        }
    }
    Ok(())
}

/// Whether the pages have the rows of these names.
fn have_names(alloc: Global, pages: &[Page], wanted: &str) -> Result<bool, Memory> {
    let mut text = String::new(alloc);
    for (place, page) in pages.iter().enumerate() {
        if place > 0 {
            text.push_str("/")?;
        }
        push_names(&mut text, page)?;
    }
    Ok(text.as_str() == wanted)
}

fn splits_so(
    alloc: Global,
    partitioner: &Partitioner,
    page: &Page,
    wanted: &str,
) -> Result<bool, Memory> {
    let pages = partitioner.split(alloc, page)?;
    have_names(alloc, &pages, wanted)
}

/// Whether a page is split as a line says.
fn line_holds(alloc: Global, page: &Page, line: &str) -> Result<bool, Memory> {
    let Some((columns, rest)) = line.split_once('|') else {
        return Ok(false);
    };
    let Some((parts, wanted)) = rest.split_once('|') else {
        return Ok(false);
    };
    let parts = parts.parse::<u32>().unwrap_or(0);
    if parts == 0 {
        return Ok(false);
    }
    let partitioner = Partitioner::new(columns_of(alloc, columns)?, parts);
    splits_so(alloc, &partitioner, page, wanted)
}

/// How many lines there are, up to the first that does not hold.
fn lines_that_hold(alloc: Global, page: &Page, lines: &str) -> Result<u32, Memory> {
    let mut count = 0u32;
    for line in lines.lines() {
        if !line_holds(alloc, page, line)? {
            return Ok(count);
        }
        count = count.saturating_add(1);
    }
    Ok(count)
}

#[test]
fn rows_go_to_the_parts_of_their_buckets(rt: HostRuntime) -> Result<(), Memory> {
    let page = page_of(rt.alloc(), ROWS)?;
    assert!(rt; page.len() == 12 && lines_that_hold(rt.alloc(), &page, SPLITS)? == 18);
    Ok(())
}

#[test]
fn a_page_of_no_rows_gives_empty_pages(rt: HostRuntime) -> Result<(), Memory> {
    let page = page_of(rt.alloc(), "")?;
    assert!(rt; page.is_empty() && lines_that_hold(rt.alloc(), &page, EMPTY_SPLITS)? == 3);
    Ok(())
}
