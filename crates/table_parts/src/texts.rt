ghost use Rattle.std.specs.Prelude.{◌≡◌, ◌<◌, ◌/◌, ◌-◌, ◌^◌, ◌++◌, length, max, min, IfOk, OnOk};
ghost use Rattle.std.specs.Thread.{IsSync};
ghost use Rattle.col_pages.specs.Pages.{rows_in};
ghost use Rattle.csv_tables.specs.ResultTexts.{record_text, result_text, rows_text};
ghost use Rattle.table_parts.specs.Printing.{whole_text};

use crate::text_chunks::TextChunks;
use col_pages::Page;
use csv_tables::{append_header, append_page};
use sql_values::{Memory, SqlType, Text};
use std::alloc::Global;
use std::thread::{Threads, join};

/// A text has at most one part for so many rows, so that a thread is worth its start.
const LEAST_ROWS: usize = 16_384;

/// In how many parts the text of so many rows is printed by so many workers.
pub fn text_part_count(workers: u32, rows: usize) -> usize
    ensures { result ≡ max 1 (min workers (rows / 16384)) }
{
    (workers as usize).min(rows / LEAST_ROWS).max(1)
}

/// How many rows pages have.
fn row_count(pages: &[Page]) -> usize
    ensures { result ≡ min (length (rows_in pages.now)) (2 ^ 64 - 1) }
{
    let mut count: usize = 0;
    for page in pages {
        count = count.saturating_add(page.len() as usize);
    }
    count
}

/// The pages of half of so many parts, and then the others.
#[tactic(auto, using(crate::proofs::PrintLemmas::half_fits))]
fn halves(pages: &[Page], parts: usize) -> (&[Page], &[Page])
    requires { 0 < parts }
    ensures { result.0.now ++ result.1.now ≡ pages.now }
{
    let middle = pages.len() / parts * (parts / 2);
    pages.split_at(middle)
}

fn chunks_of_both(mut front: Vec<Vec<u8>>, mut back: Vec<Vec<u8>>) -> Result<Vec<Vec<u8>>, Memory>
    ensures { IfOk result (λ chunks. chunks.items ≡ front.items ++ back.items) }
{
    front.append(&mut back)?;
    Ok(front)
}

/// The one chunk of a text.
fn one_chunk(alloc: Global, text: Vec<u8>) -> Result<Vec<Vec<u8>>, Memory>
    ensures { IfOk result (λ chunks. whole_text chunks.items ≡ text.items) }
{
    let mut chunks = Vec::new(alloc);
    chunks.push(text)?;
    Ok(chunks)
}

/// Appends the records of pages.
fn append_pages(types: &[SqlType], pages: &[Page], to: &mut Vec<u8>) -> Result<(), Memory>
    requires { length types.now < 2 ^ 32 }
    ensures { OnOk result (to.new.items ≡ to.old.items ++ rows_text types.now (rows_in pages.now)) }
{
    for page in pages {
        append_page(types, page, to)?;
    }
    Ok(())
}

fn print_pages(alloc: Global, types: &[SqlType], pages: &[Page]) -> Result<Vec<Vec<u8>>, Memory>
    requires { length types.now < 2 ^ 32 }
    ensures { IfOk result
        (λ chunks. whole_text chunks.items ≡ rows_text types.now (rows_in pages.now)) }
{
    let mut text = Vec::new(alloc);
    append_pages(types, pages, &mut text)?;
    one_chunk(alloc, text)
}

/// The records of pages, printed as so many parts side by side, at least one.
#[cycle(texts)]
fn print_parts<R: Threads + Sync>(
    rt: &R,
    alloc: Global,
    parts: usize,
    types: &[SqlType],
    pages: &[Page],
) -> Result<Vec<Vec<u8>>, Memory>
    requires { length types.now < 2 ^ 32 }
    ensures { IfOk result
        (λ chunks. whole_text chunks.items ≡ rows_text types.now (rows_in pages.now)) }
{
    if parts < 2 {
        return print_pages(alloc, types, pages);
    }
    print_both(rt, alloc, parts, types, pages)
}

/// The records of pages, each half of them printed as half of so many parts.
#[cycle(texts)]
fn print_both<R: Threads + Sync>(
    rt: &R,
    alloc: Global,
    parts: usize,
    types: &[SqlType],
    pages: &[Page],
) -> Result<Vec<Vec<u8>>, Memory>
    requires parts { 1 < parts }
    requires types { length types.now < 2 ^ 32 }
    ensures { IfOk result
        (λ chunks. whole_text chunks.items ≡ rows_text types.now (rows_in pages.now)) }
{
    let (front, back) = halves(pages, parts);
    let low = parts / 2;
    let high = parts - low;
    let (first, second) = join(
        rt,
        move || -> Result<Vec<Vec<u8>>, Memory>
            requires { IsSync R.row × (length types.now < 2 ^ 32) }
            ensures { IfOk result (λ chunks.
                whole_text chunks.items ≡ rows_text types.entry.now (rows_in front.entry.now)) }
        { print_parts(rt, alloc, low, types, front) },
        move || -> Result<Vec<Vec<u8>>, Memory>
            requires { IsSync R.row × (length types.now < 2 ^ 32) }
            ensures { IfOk result (λ chunks.
                whole_text chunks.items ≡ rows_text types.entry.now (rows_in back.entry.now)) }
        { print_parts(rt, alloc, high, types, back) },
    );
    let first = first?;
    let second = second?;
    chunks_of_both(first, second)
}

fn header_text(alloc: Global, names: &[Text]) -> Result<Vec<u8>, Memory>
    ensures { IfOk result (λ text. text.items ≡ record_text names.now) }
{
    let mut text = Vec::new(alloc);
    append_header(names, &mut text)?;
    Ok(text)
}

/// The text as one chunk.
fn text_alone(
    alloc: Global,
    names: &[Text],
    types: &[SqlType],
    pages: &[Page],
) -> Result<Vec<Vec<u8>>, Memory>
    requires { length types.now < 2 ^ 32 }
    ensures { IfOk result (λ chunks.
        whole_text chunks.items ≡ result_text names.now types.now (rows_in pages.now)) }
{
    let mut text = header_text(alloc, names)?;
    append_pages(types, pages, &mut text)?;
    one_chunk(alloc, text)
}

/// The text as a chunk of the header, and one or more for each of so many parts.
fn text_of_parts<R: Threads + Sync>(
    rt: &R,
    alloc: Global,
    parts: usize,
    names: &[Text],
    types: &[SqlType],
    pages: &[Page],
) -> Result<Vec<Vec<u8>>, Memory>
    requires { length types.now < 2 ^ 32 }
    ensures { IfOk result (λ chunks.
        whole_text chunks.items ≡ result_text names.now types.now (rows_in pages.now)) }
{
    let header = one_chunk(alloc, header_text(alloc, names)?)?;
    let records = print_parts(rt, alloc, parts, types, pages)?;
    chunks_of_both(header, records)
}

/// The text that `csv_tables::text_of` gives of the pages' rows, printed in parts by at most so many workers, side by side
/// if there are threads. Each part is a chunk, and stays where it was printed. More types than a `u32` counts are `Memory`.
pub fn text_in_parts<R: Threads + Sync>(
    rt: &R,
    alloc: Global,
    workers: u32,
    names: &[Text],
    types: &[SqlType],
    pages: &[Page],
) -> Result<TextChunks, Memory>
    ensures { IfOk result (λ text. text ≡ result_text names.now types.now (rows_in pages.now)) }
{
    if types.len() > u32::MAX as usize {
        return Err(Memory);
    }
    let parts = text_part_count(workers, row_count(pages));
    let chunks = if parts < 2 {
        text_alone(alloc, names, types, pages)?
    } else {
        text_of_parts(rt, alloc, parts, names, types, pages)?
    };
    Ok(TextChunks::of(chunks))
}
