//! Pages behind each other as one page.
ghost use Rattle.std.specs.Prelude.{◌≡◌, [], ◌+◌, ◌≤◌, ◌++◌, ◌↔◌, IfErr, IfNone, IfOk, IfSome, IsNone, IsSome, IsTrue, OnErr, Some, length};
ghost use Rattle.col_pages.specs.Pages.{most_rows};
ghost use Rattle.driver_ends.specs.Outlets.{rows_of_held};
ghost use Rattle.driver_ends.specs.Joins.{FitTogether};

use col_pages::{MOST_ROWS, Page};
use column_moves::append_each;
use sql_values::{ColumnRows, Memory};
use std::alloc::Global;

/// Puts a page behind the rows that wait; where none wait, into the memory of a page that waited before. It is handed back
/// where they cannot be one page.
pub(crate) fn join_behind(
    alloc: Global,
    waiting: &mut Option<Page>,
    spare: &mut Option<Page>,
    page: Page,
) -> Result<Option<Page>, Memory>
    ensures joined { IfOk result (λ back. IfNone back
        (rows_of_held waiting.new ≡ rows_of_held waiting.old ++ page.rows)) }
    ensures back { IfOk result (λ back. IfSome back (λ back. (back ≡ page)
        × (waiting.new ≡ waiting.old) × IsSome waiting.old)) }
    ensures lost { OnErr result (waiting.new ≡ waiting.old) }
{
    match waiting.take() {
        None => {
            *waiting = Some(in_memory_of(alloc, spare.take(), page)?);
            Ok(None)
        }
        Some(first) if fit_together(&first, &page) => join_to(alloc, waiting, first, page),
        Some(first) => {
            *waiting = Some(first);
            Ok(Some(page))
        }
    }
}

/// The page's rows in the memory of another, whose rows are let go; the page itself where there is none of its types.
fn in_memory_of(alloc: Global, spare: Option<Page>, page: Page) -> Result<Page, Memory>
    ensures { IfOk result (λ p. p.rows ≡ page.rows) }
{
    let Some(spare) = spare else {
        return Ok(page);
    };
    let spare = cleared(alloc, spare)?;
    if !fit_together(&spare, &page) {
        return Ok(page);
    }
    match joined(alloc, spare, page) {
        Ok(all) => Ok(all),
        Err(_) => Err(Memory),
    }
}

/// A page without rows in the memory of another.
fn cleared(alloc: Global, page: Page) -> Result<Page, Memory>
    ensures { IfOk result (λ p. p ≡ record page { rows = [] }) }
{
    let types = Vec::from_slice(alloc, page.types())?;
    let mut rows = ColumnRows::of_columns(types, page.into_blocks());
    rows.truncate(0);
    Ok(Page::of_columns(rows))
}

/// Lets two pages wait as one.
fn join_to(
    alloc: Global,
    waiting: &mut Option<Page>,
    first: Page,
    page: Page,
) -> Result<Option<Page>, Memory>
    requires { FitTogether first page }
    ensures joined { IfOk result (λ back. IfNone back
        (rows_of_held waiting.new ≡ first.rows ++ page.rows)) }
    ensures back { IfOk result (λ back. IsNone back) }
    ensures lost { OnErr result (waiting.new ≡ Some first) }
{
    match joined(alloc, first, page) {
        Ok(all) => {
            *waiting = Some(all);
            Ok(None)
        }
        Err(first) => {
            *waiting = Some(first);
            Err(Memory)
        }
    }
}

/// Whether their rows can be those of one page.
fn fit_together(first: &Page, page: &Page) -> bool
    ensures { IsTrue result ↔ FitTogether first.now page.now }
{
    has_room(first, page) && first.types() == page.types()
}

fn has_room(first: &Page, page: &Page) -> bool
    ensures { IsTrue result ↔ (length first.now.rows + length page.now.rows ≤ most_rows) }
{
    first.len() + page.len() <= MOST_ROWS
}

/// The rows of both. For want of memory the first page is handed back.
fn joined(alloc: Global, first: Page, page: Page) -> Result<Page, Page>
    requires { FitTogether first page }
    ensures ok { IfOk result (λ p. p ≡ record first { rows = first.rows ++ page.rows }) }
    ensures err { IfErr result (λ p. p ≡ first) }
{
    let Ok(types) = Vec::from_slice(alloc, first.types()) else {
        return Err(first);
    };
    let len = first.len() as usize;
    let mut columns = first.into_blocks();
    match append_each(&mut columns, len, &page.into_blocks()) {
        Ok(_) => Ok(Page::of_blocks(types, columns)),
        Err(_) => Err(Page::of_blocks(types, columns)),
    }
}
