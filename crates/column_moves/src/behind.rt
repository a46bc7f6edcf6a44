ghost use Rattle.std.specs.Prelude.{◌≡◌, ◌↔◌, ◌++◌, [], if◌then◌else◌, map, take, IsTrue, IfOk, OnOk, OnErr};
ghost use Rattle.sql_values.specs.Blocks.{with_cells};
ghost use Rattle.sql_values.specs.ColumnRows.{AreFilled, kinds_of};
ghost use Rattle.column_moves.specs.Joined.{joined};

use sql_values::{Block, ColumnRows, Memory};
use std::alloc::Global;

/// The rows of both, which have the same types. Where the first has none, nothing is copied.
pub fn join_rows(alloc: Global, left: ColumnRows, right: ColumnRows) -> Result<ColumnRows, Memory>
    requires whole { (left.begun ≡ []) × (right.begun ≡ []) }
    requires types { left.types ≡ right.types }
    ensures { IfOk result
        (λ r. r ≡ record { types = left.types; rows = left.rows ++ right.rows; begun = [] }) }
{
    if left.len() == 0 {
        return Ok(right);
    }
    let types = Vec::from_slice(alloc, left.types())?;
    let mut columns = left.into_columns();
    append_all(&mut columns, right.into_columns())?;
    Ok(ColumnRows::of_columns(types, columns))
}

/// Appends cells to each of some columns. Each of the others gives its memory back before the next one is appended.
fn append_all(columns: &mut Vec<Block>, others: Vec<Block>) -> Result<(), Memory>
    requires { kinds_of columns.old.items ≡ kinds_of others.items }
    ensures { OnOk result (columns.new.items ≡ joined columns.old.items others.items) }
{
    let mut place = 0;
    for other in others {
        append_whole(&mut columns[place], other)?;
        place += 1;
    }
    Ok(())
}

fn append_whole(column: &mut Block, other: Block) -> Result<bool, Memory>
    ensures same { IfOk result (λ taken. IsTrue taken ↔ (column.old.kind ≡ other.kind)) }
    ensures ok { IfOk result (λ taken. column.new ≡ with_cells column.old
        (if taken then column.old.cells ++ other.cells else column.old.cells)) }
{
    column.append(&other)
}

/// Appends cells to each of some columns of a length. Where memory does not suffice they stay as
/// they are.
pub fn append_each(columns: &mut Vec<Block>, len: usize, others: &[Block]) -> Result<(), Memory>
    requires kinds { kinds_of columns.old.items ≡ kinds_of others.now }
    requires level { AreFilled len 0 columns.old.items }
    ensures ok { OnOk result (columns.new.items ≡ joined columns.old.items others.now) }
    ensures err { OnErr result (columns.new.items ≡ columns.old.items) }
{
    for (place, other) in others.iter().enumerate() {
        match columns[place].append(other) {
            Ok(_) => {}
            Err(error) => {
                truncate_each(columns, len);
                return Err(error);
            }
        }
    }
    Ok(())
}

fn truncate_each(columns: &mut Vec<Block>, len: usize)
    ensures { columns.new.items ≡ map (λ c. with_cells c (take len c.cells)) columns.old.items }
{
    for column in columns.iter_mut() {
        column.truncate(len);
    }
}
