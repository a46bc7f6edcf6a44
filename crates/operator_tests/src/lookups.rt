//! Rows found by their keys. Rows stand between strokes, their cells between blanks, and `-` is NULL.
ghost use Rattle.std.specs.Prelude.{◌≡◌, ◌<◌, length, IfOk};

use crate::cell_texts::show_place;
use col_pages::{MOST_ROWS, Page};
use join_index::{Key, KeyIndex};
use sql_values::{ColumnRows, Memory, ParseFault, SqlType, ValueRef, parse_value};
use std::alloc::Global;

const PRICE: SqlType = SqlType::Decimal { p: 4, s: 2 };

fn put_value(rows: &mut ColumnRows, value: ValueRef<'_>) -> Result<(), Memory> {
    let _taken = rows.put(value)?;
    Ok(())
}

fn put(alloc: Global, rows: &mut ColumnRows, kind: SqlType, text: &str) -> Result<(), ParseFault> {
    if text == "-" {
        return Ok(put_value(rows, ValueRef::Null)?);
    }
    let value = parse_value(alloc, kind, text)?;
    Ok(put_value(rows, value.as_ref())?)
}

fn put_row(
    alloc: Global,
    rows: &mut ColumnRows,
    types: &[SqlType],
    row: &str,
) -> Result<(), ParseFault> {
    for (kind, text) in types.iter().zip(row.split(' ')) {
        put(alloc, rows, *kind, text)?;
    }
    let _whole = rows.end_row();
    Ok(())
}

/// The rows; none of no text.
fn rows(alloc: Global, types: &[SqlType], texts: &str) -> Result<ColumnRows, ParseFault>
    requires { 0 < length types.now }
{
    let mut rows = ColumnRows::new(alloc, types)?;
    for row in texts.split(" | ") {
        if !row.is_empty() {
            put_row(alloc, &mut rows, types, row)?;
        }
    }
    Ok(rows)
}

/// An index of the rows by these columns.
fn index_of(
    alloc: Global,
    keys: &[u32],
    types: &[SqlType],
    texts: &str,
) -> Result<KeyIndex, ParseFault>
    requires { 0 < length types.now }
{
    let keys = Vec::from_slice(alloc, keys)?;
    let rows = rows(alloc, types, texts)?;
    Ok(KeyIndex::build(alloc, keys, rows)?)
}

/// A page of the rows; of more than a page holds there is none.
fn page_of(rows: ColumnRows) -> Result<Page, Memory> {
    if rows.len() > MOST_ROWS as usize {
        return Err(Memory);
    }
    Ok(Page::of_columns(rows))
}

fn page(alloc: Global, types: &[SqlType], texts: &str) -> Result<Page, ParseFault>
    requires { 0 < length types.now }
{
    Ok(page_of(rows(alloc, types, texts)?)?)
}

/// Appends the places of the matches of a row.
fn show_matches(
    text: &mut String,
    index: &KeyIndex,
    page: &Page,
    row: u32,
    columns: &[u32],
) -> Result<(), Memory>
    requires { row < length page.now.rows }
{
    for place in index.matches(Key::of(page, row, columns)) {
        show_place(text, place)?;
    }
    Ok(text.push_str("| ")?)
}

/// The places of the matches of each row of a page.
fn show_all(
    text: &mut String,
    index: &KeyIndex,
    page: &Page,
    columns: &[u32],
) -> Result<(), Memory> {
    for row in 0..page.len() {
        show_matches(text, index, page, row, columns)?;
    }
    Ok(())
}

/// Whether the matches of the rows of a page stand at the wanted places.
fn are_found(
    alloc: Global,
    index: &KeyIndex,
    page: &Page,
    columns: &[u32],
    wanted: &str,
) -> Result<bool, Memory> {
    let mut text = String::new(alloc);
    show_all(&mut text, index, page, columns)?;
    Ok(text.as_str() == wanted)
}

/// Whether those of texts of rows of one column do.
fn are_texts_found(
    alloc: Global,
    index: &KeyIndex,
    looked_for: &str,
    wanted: &str,
) -> Result<bool, ParseFault> {
    let page = page(alloc, &[SqlType::Varchar], looked_for)?;
    Ok(are_found(alloc, index, &page, &[0], wanted)?)
}

/// A case of one key column: the rows that are held, those that are looked for, and the places.
fn is_found_by_one(alloc: Global, case: &str) -> Result<bool, ParseFault> {
    let (held, rest) = case.split_once(';').unwrap_or((case, ""));
    let (looked_for, wanted) = rest.split_once(';').unwrap_or((rest, ""));
    let index = index_of(alloc, &[0], &[SqlType::Varchar, SqlType::Bigint], held)?;
    are_texts_found(alloc, &index, looked_for, wanted)
}

fn are_found_by_one(alloc: Global, cases: &str) -> Result<bool, ParseFault> {
    for case in cases.lines() {
        if !is_found_by_one(alloc, case)? {
            return Ok(false);
        }
    }
    Ok(true)
}

#[test]
fn rows_are_found_by_one_column(rt: HostRuntime) -> Result<(), ParseFault> {
    let cases = ";a | -;| | \n\
        a 1;a | b;0 | | \n\
        a 1 | b 2 | - 3 | a 4 | b 5 | a 6 | c 7;a | b | c | - | d;0 3 5 | 1 4 | 6 | | | ";
    assert!(rt; are_found_by_one(rt.alloc(), cases)?);
    Ok(())
}

/// Whether rows of a price and a text are found at the wanted places.
fn is_found_by(
    alloc: Global,
    index: &KeyIndex,
    columns: &[u32],
    looked_for: &str,
    wanted: &str,
) -> Result<bool, ParseFault> {
    let page = page(alloc, &[PRICE, SqlType::Varchar], looked_for)?;
    Ok(are_found(alloc, index, &page, columns, wanted)?)
}

fn are_found_by_two(alloc: Global, index: &KeyIndex) -> Result<bool, ParseFault> {
    let some = "1.50 a | 1.50 b | 2.50 b";
    let all = is_found_by(alloc, index, &[0, 1], some, "0 5 | 2 | | ")?;
    let nulls = is_found_by(alloc, index, &[0, 1], "1.50 - | - a | - -", "| | | ")?;
    let short = is_found_by(alloc, index, &[0], "1.50 a | - a", "| | ")?;
    Ok(all & nulls & short)
}

/// Whether they are found among these rows of a text and a price.
fn is_found_by_two(alloc: Global, held: &str) -> Result<bool, ParseFault> {
    let index = index_of(alloc, &[1, 0], &[SqlType::Varchar, PRICE], held)?;
    are_found_by_two(alloc, &index)
}

#[test]
fn rows_are_found_by_two_columns(rt: HostRuntime) -> Result<(), ParseFault> {
    let held = "a 1.50 | a 2.50 | b 1.50 | - 1.50 | a - | a 1.50";
    assert!(rt; is_found_by_two(rt.alloc(), held)?);
    Ok(())
}

fn all_alike(alloc: Global, count: u32) -> Result<ColumnRows, Memory> {
    let mut rows = ColumnRows::new(alloc, &[SqlType::Bigint])?;
    for _ in 0..count {
        let _taken = rows.put(ValueRef::Bigint(7))?;
        let _whole = rows.end_row();
    }
    Ok(rows)
}

/// Whether the matches of the first row stand at the first places, so many.
fn are_first_places(index: &KeyIndex, page: &Page, count: usize) -> bool
    requires { 0 < length page.now.rows }
{
    let mut places = 0;
    for place in index.matches(Key::of(page, 0, &[0])) {
        if place != places || place >= count {
            return false;
        }
        places = place + 1;
    }
    places == count
}

/// Whether it holds 5000 rows of one key and column, the last of 7.
fn is_of_one_key(index: &KeyIndex) -> bool {
    if index.len() != 5_000 {
        return false;
    }
    let is_last = matches!(index.cell(4_999, 0), ValueRef::Bigint(7));
    is_last & (index.keys().len() == 1) & (index.types().len() == 1)
}

fn many_alike(alloc: Global) -> Result<KeyIndex, Memory> {
    let keys = Vec::from_array(alloc, [0])?;
    let rows = all_alike(alloc, 5_000)?;
    KeyIndex::build(alloc, keys, rows)
}

/// Whether a row like them finds each.
fn are_alike_found(alloc: Global, index: &KeyIndex) -> Result<bool, Memory> {
    let page = page_of(all_alike(alloc, 1)?)?;
    Ok(page.len() == 1 && are_first_places(index, &page, 5_000))
}

fn have_one_key(alloc: Global) -> Result<bool, Memory> {
    let index = many_alike(alloc)?;
    let are_found = are_alike_found(alloc, &index)?;
    Ok(is_of_one_key(&index) & are_found)
}

#[test]
fn many_rows_have_one_key(rt: HostRuntime) -> Result<(), Memory> {
    assert!(rt; have_one_key(rt.alloc())?);
    Ok(())
}

/// Appends the first two matches of a row of a page.
fn show_two(text: &mut String, index: &KeyIndex, page: &Page, row: u32) -> Result<(), Memory>
    requires { row < length page.now.rows }
{
    let key = Key::of(page, row, &[0]);
    if let Some(place) = index.first_match(&key) {
        show_place(text, place as usize)?;
        if let Some(next) = index.next_match(&key, place) {
            show_place(text, next as usize)?;
        }
    }
    Ok(text.push_str("| ")?)
}

fn show_twos(text: &mut String, index: &KeyIndex, page: &Page) -> Result<(), Memory> {
    for row in 0..page.len() {
        show_two(text, index, page, row)?;
    }
    Ok(())
}

fn are_twos(alloc: Global, index: &KeyIndex, page: &Page, wanted: &str) -> Result<bool, Memory> {
    let mut text = String::new(alloc);
    show_twos(&mut text, index, page)?;
    Ok(text.as_str() == wanted)
}

/// Whether the first two matches of each day stand at the wanted places.
fn are_days_found(
    alloc: Global,
    index: &KeyIndex,
    looked_for: &str,
    wanted: &str,
) -> Result<bool, ParseFault> {
    let page = page(alloc, &[SqlType::Date], looked_for)?;
    Ok(are_twos(alloc, index, &page, wanted)?)
}

fn come_one_by_one(
    alloc: Global,
    held: &str,
    looked_for: &str,
    wanted: &str,
) -> Result<bool, ParseFault> {
    let index = index_of(alloc, &[0], &[SqlType::Date], held)?;
    are_days_found(alloc, &index, looked_for, wanted)
}

#[test]
fn matches_come_one_by_one(rt: HostRuntime) -> Result<(), ParseFault> {
    let held = "1998-09-02 | - | 1998-09-02 | 1970-01-01 | 1998-09-02";
    let days = "1998-09-02 | 1970-01-01 | - | 1969-12-31";
    assert!(rt; come_one_by_one(rt.alloc(), held, days, "0 2 | 3 | | | ")?);
    Ok(())
}
