ghost use Rattle.std.specs.Prelude.{◌≡◌, ◌-◌, ◌++◌, take, length, IfOk, OnOk};
ghost use Rattle.sql_values.specs.ColumnRows.{kinds_of};
ghost use Rattle.col_pages.specs.Fits.{AllFit};
ghost use Rattle.tree_evaluator.specs.Pages.{joined};

use crate::node_rows::NodeRows;
use col_pages::{Block, Page};
use sql_values::{ColumnRows, Memory, RowList};
use std::alloc::Global;

/// Appends rows of the same types.
pub fn append_rows(rows: &mut NodeRows, mut more: NodeRows) -> Result<(), Memory>
    requires { more.types ≡ rows.old.types }
    ensures { OnOk result (rows.new ≡ record rows.old { rows = rows.old.rows ++ more.rows }) }
{
    while let Some(page) = more.take_first() {
        rows.push(page)?;
    }
    Ok(())
}

/// The first rows, at most so many.
pub fn limit_rows(alloc: Global, count: u32, mut rows: NodeRows) -> Result<NodeRows, Memory>
    ensures { IfOk result (λ n. n ≡ record { types = rows.types; rows = take count rows.rows }) }
{
    let mut kept = NodeRows::new(alloc, rows.types())?;
    let mut room = count;
    while room > 0 {
        let Some(page) = rows.take_first() else {
            return Ok(kept);
        };
        room = push_first(alloc, room, page, &mut kept)?;
    }
    Ok(kept)
}

/// Appends the first rows of a page, as many as there is room for, and gives the room that is left.
fn push_first(alloc: Global, room: u32, page: Page, kept: &mut NodeRows) -> Result<u32, Memory>
    requires types { page.types ≡ kept.old.types }
    requires fits { AllFit kept.old.types page.rows }
    ensures room { IfOk result (λ left. left ≡ room - length page.rows) }
    ensures kept { OnOk result
        (kept.new ≡ record kept.old { rows = kept.old.rows ++ take room page.rows }) }
{
    let len = page.len();
    if len <= room {
        kept.push(page)?;
        return Ok(room - len);
    }
    kept.push(page.slice(alloc, 0, room)?)?;
    Ok(0)
}

/// The rows as one list of columns. Those of the first page are not copied.
pub fn list_of(alloc: Global, mut rows: NodeRows) -> Result<RowList, Memory>
    ensures { IfOk result (λ list. list ≡ rows.rows) }
{
    let Some(first) = rows.take_first() else {
        return RowList::of_types(alloc, rows.types());
    };
    let mut blocks = first.into_blocks();
    while let Some(page) = rows.take_first() {
        append_each(&mut blocks, page.into_blocks())?;
    }
    let types = Vec::from_slice(alloc, rows.types())?;
    let columns = ColumnRows::of_columns(types, blocks);
    Ok(RowList::of_columns(alloc, columns))
}

/// Appends to each block the one at its place.
fn append_each(blocks: &mut Vec<Block>, more: Vec<Block>) -> Result<(), Memory>
    requires { kinds_of blocks.old.items ≡ kinds_of more.items }
    ensures { OnOk result
        (blocks.new.items ≡ joined (length blocks.old.items) blocks.old.items more.items) }
{
    for place in 0..more.len() {
        let block = &mut blocks[place];
        block.append(&more[place])?;
    }
    Ok(())
}
