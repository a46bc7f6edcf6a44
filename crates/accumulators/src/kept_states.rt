ghost use Rattle.std.specs.Prelude.{◌≡◌, ◌<◌, ◌≤◌, ◌+◌, ◌^◌, ◌++◌, ◌∷◌, [], IsTrue, None, OnOk, filter, length, map, pos, slice_index, slice_index_or, slice_set, take};
ghost use Rattle.sql_values.specs.declared.value.Value.TheVariants as value_is;
ghost use Rattle.sql_values.specs.Cells.{cell as cell_at, lent_value};
ghost use Rattle.relation_laws.specs.Aggregates.{count_of, earlier, most_group_rows};
ghost use Rattle.relation_laws.specs.Equality.{is_present};
ghost use Rattle.relation_laws.specs.Partials.{added_counts, added_sums, partial_sum};
ghost use Rattle.accumulators.specs.Columns.{count_in, magnitude, sum_cell, summand};
ghost use Rattle.accumulators.specs.HeldStates.{count_columns, sum_columns, value_columns};
ghost use Rattle.accumulators.specs.Limits.{is_number_of as is_number_of_type, is_short};

use crate::call_state::add_number;
use crate::firsts::keep_copy;
use crate::sums::{add_count, add_sum, count_cell};
use sql_values::{Memory, Order, SqlType, Value, ValueRef};
use std::alloc::Global;

/// Appends the state of a new group behind those of the first groups, so many. What else stood behind them is of a
/// group for which memory was wanting.
pub fn begin_at<T: Drop>(states: &mut Vec<T>, place: usize, none: T) -> Result<(), Memory>
    requires { place ≤ length states.old.items }
    ensures ok { OnOk result (states.new.items ≡ take place states.old.items ++ none ∷ []) }
    ensures first { take place states.new.items ≡ take place states.old.items }
    ensures long { place ≤ length states.new.items }
{
    states.truncate(place);
    states.push(none)?;
    Ok(())
}

/// Counts a cell, where it is not NULL, in the group at a place.
pub fn count_cell_at(counts: &mut Vec<u64>, place: usize, cell: ValueRef<'_>)
    requires within { place < length counts.old.items }
    requires room { slice_index counts.old.items place + length (filter is_present (lent_value cell ∷ [])) ≤ most_group_rows }
    ensures { map count_columns counts.new.items ≡ slice_set (map count_columns counts.old.items) place
        (added_counts (cell_at (slice_index_or (map count_columns counts.old.items) place []) 0)
        (count_of (filter is_present (lent_value cell.entry ∷ []))) ∷ []) }
{
    count_cell(&mut counts[place], cell);
}

/// Adds a stored count in the group at a place.
pub fn add_count_at(counts: &mut Vec<u64>, place: usize, value: ValueRef<'_>)
    requires within { place < length counts.old.items }
    requires room { slice_index counts.old.items place + count_in (lent_value value) ≤ most_group_rows }
    requires stored { value_is.Bigint (pos (count_in (lent_value value))) ≡ lent_value value }
    ensures { map count_columns counts.new.items ≡ slice_set (map count_columns counts.old.items) place
        (added_counts (cell_at (slice_index_or (map count_columns counts.old.items) place []) 0)
        (lent_value value.entry) ∷ []) }
{
    add_count(&mut counts[place], value);
}

/// Adds the number of a cell in the group at a place, where it is one of the type, and answers whether it is.
pub fn add_number_at(
    kind: SqlType,
    sums: &mut Vec<Option<i128>>,
    place: usize,
    cell: ValueRef<'_>,
) -> bool
    requires within { place < length sums.old.items }
    requires short { IsTrue (is_short kind) }
    requires room { IsTrue (is_number_of_type kind (lent_value cell))
        → magnitude (slice_index_or sums.old.items place None) + magnitude (summand (lent_value cell)) < 2 ^ 127 }
    ensures number { result ≡ is_number_of_type kind (lent_value cell.entry) }
    ensures value { IsTrue result → map sum_columns sums.new.items ≡ slice_set (map sum_columns sums.old.items) place
        (added_sums (cell_at (slice_index_or (map sum_columns sums.old.items) place []) 0)
        (partial_sum (filter is_present (lent_value cell.entry ∷ []))) ∷ []) }
    ensures others { slice_set (map sum_columns sums.new.items) place [] ≡ slice_set (map sum_columns sums.old.items) place [] }
{
    add_number(kind, &mut sums[place], cell)
}

/// Adds a stored sum in the group at a place.
pub fn add_sum_at(sums: &mut Vec<Option<i128>>, place: usize, value: ValueRef<'_>)
    requires within { place < length sums.old.items }
    requires room { magnitude (slice_index_or sums.old.items place None) + magnitude (summand (lent_value value)) < 2 ^ 127 }
    requires stored { sum_cell (summand (lent_value value)) ≡ lent_value value }
    ensures { map sum_columns sums.new.items ≡ slice_set (map sum_columns sums.old.items) place
        (added_sums (cell_at (slice_index_or (map sum_columns sums.old.items) place []) 0)
        (lent_value value.entry) ∷ []) }
{
    add_sum(&mut sums[place], value);
}

/// Keeps the one of the two that stands first in the order, in the group at a place: a copy of it, where that is the
/// cell.
pub fn keep_copy_at(
    alloc: Global,
    order: Order,
    firsts: &mut Vec<Value>,
    place: usize,
    cell: ValueRef<'_>,
) -> Result<(), Memory>
    requires { place < length firsts.old.items }
    ensures ok { OnOk result (map value_columns firsts.new.items
        ≡ slice_set (map value_columns firsts.old.items) place
        (earlier order (cell_at (slice_index_or (map value_columns firsts.old.items) place []) 0) (lent_value cell.entry) ∷ [])) }
    ensures others { slice_set (map value_columns firsts.new.items) place []
        ≡ slice_set (map value_columns firsts.old.items) place [] }
{
    keep_copy(alloc, order, &mut firsts[place], cell)
}
