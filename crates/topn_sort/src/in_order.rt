//! Rows in the order of their places, as columns that share their cells with the pages that are cut out of them.
ghost use Rattle.std.specs.Prelude.{◌≡◌, ◌<◌, [], length, map, All, IfOk};
ghost use Rattle.columns.specs.Present.{gather};
ghost use Rattle.sql_values.specs.Blocks.{with_cells};
ghost use Rattle.sql_values.specs.declared.value.Value.TheVariants.{Null};
ghost use Rattle.col_pages.specs.Fits.{AllFit};

use sql_values::{Block, ColumnRows, Dictionary, Memory};
use std::alloc::Global;

/// The cells of a column at their places, which are the ids of a dictionary of all of them.
fn column_in_order(alloc: Global, column: &Block, order: &[u32]) -> Result<Block, Memory>
    requires { All (λ p. p < length column.now.cells) order.now }
    ensures { IfOk result (λ b. b ≡ with_cells column.now (gather column.now.cells Null order.now)) }
{
    let ids = Vec::from_slice(alloc, order)?;
    let cells = column.to_plain(alloc)?;
    Ok(Block::of_dictionary(Dictionary::of(alloc, cells)?, ids))
}

fn columns_in_order(alloc: Global, columns: Vec<Block>, order: &[u32]) -> Result<Vec<Block>, Memory>
    requires { All (λ c. All (λ p. p < length c.cells) order.now) columns.items }
    ensures { IfOk result (λ v.
        v.items ≡ map (λ c. with_cells c (gather c.cells Null order.now)) columns.items) }
{
    let mut ordered = Vec::with_capacity(alloc, columns.len())?;
    for column in columns {
        ordered.push(column_in_order(alloc, &column, order)?)?;
    }
    Ok(ordered)
}

/// The rows at their places. Each column is given back as soon as its cells are shared.
pub(crate) fn in_order(alloc: Global, rows: ColumnRows, order: &[u32]) -> Result<ColumnRows, Memory>
    requires whole { rows.begun ≡ [] }
    requires within { All (λ p. p < length rows.rows) order.now }
    ensures rows { IfOk result
        (λ r. r ≡ record { types = rows.types; rows = gather rows.rows [] order.now; begun = [] }) }
    ensures fit { IfOk result (λ r. AllFit r.types r.rows) }
{
    let types = Vec::from_slice(alloc, rows.types())?;
    let columns = columns_in_order(alloc, rows.into_columns(), order)?;
    let ordered = ColumnRows::of_columns(types, columns);
    ordered.rows_fit();
    Ok(ordered)
}
