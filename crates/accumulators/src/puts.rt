ghost use Rattle.std.specs.Prelude.{◌≡◌, ◌≤◌, ◌++◌, ◌∷◌, [], OnOk, pos, replicate};
ghost use Rattle.sql_values.specs.declared.value.Value.TheVariants as value_is;
ghost use Rattle.sql_values.specs.Cells.{lent_value};
ghost use Rattle.relation_laws.specs.Aggregates.{most_group_rows};
ghost use Rattle.accumulators.specs.Columns.{sum_cell};

use sql_values::{ColumnRows, Memory, ValueRef};

/// Puts a cell into a row. One that is not of the column's type is answered as want of memory.
pub fn put_cell(rows: &mut ColumnRows, cell: ValueRef<'_>) -> Result<(), Memory>
    ensures { OnOk result (rows.new ≡ record rows.old { begun = rows.old.begun ++ lent_value cell.entry ∷ [] }) }
{
    if rows.put(cell)? { Ok(()) } else { Err(Memory) }
}

/// Puts a sum into a row: NULL where nothing was added.
pub fn put_sum(rows: &mut ColumnRows, sum: Option<i128>) -> Result<(), Memory>
    ensures { OnOk result (rows.new ≡ record rows.old { begun = rows.old.begun ++ sum_cell sum ∷ [] }) }
{
    match sum {
        None => put_cell(rows, ValueRef::Null),
        Some(total) => put_cell(rows, ValueRef::Decimal(total)),
    }
}

/// Puts a count into a row.
pub fn put_count(rows: &mut ColumnRows, count: u64) -> Result<(), Memory>
    requires { count ≤ most_group_rows }
    ensures { OnOk result (rows.new ≡ record rows.old { begun = rows.old.begun ++ value_is.Bigint (pos count) ∷ [] }) }
{
    put_cell(rows, ValueRef::Bigint(count as i64))
}

/// Puts a number of rows into a row.
pub fn put_row_count(rows: &mut ColumnRows, count: u64) -> Result<(), Memory>
    ensures { OnOk result (rows.new ≡ record rows.old { begun = rows.old.begun ++ value_is.Decimal (pos count) ∷ [] }) }
{
    put_cell(rows, ValueRef::Decimal(i128::from(count)))
}

/// Puts so many NULLs into a row.
pub fn put_nulls(rows: &mut ColumnRows, count: usize) -> Result<(), Memory>
    ensures { OnOk result (rows.new ≡ record rows.old { begun = rows.old.begun ++ replicate count value_is.Null }) }
{
    for _place in 0..count {
        put_cell(rows, ValueRef::Null)?;
    }
    Ok(())
}
