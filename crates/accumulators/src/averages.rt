ghost use Rattle.std.specs.Prelude.{◌≡◌, ◌<◌, ◌≤◌, ◌++◌, ◌∷◌, [], Ok, OnOk, IsTrue, filter, length, map, pos, slice_index_or, slice_set};
ghost use Rattle.sql_values.specs.declared.value.Value.TheVariants as value_is;
ghost use Rattle.sql_values.specs.Cells.{lent_value};
ghost use Rattle.relation_laws.specs.Aggregates.{count_of, most_group_rows};
ghost use Rattle.relation_laws.specs.Equality.{is_present};
ghost use Rattle.relation_laws.specs.Partials.{average_from, partial_sum};
ghost use Rattle.accumulators.specs.Columns.{HasAverage, count_in, sum_cell, summand};
ghost use Rattle.accumulators.specs.HeldStates.{HasRoom, added_average, average_columns, no_average};
ghost use Rattle.accumulators.specs.Limits.{is_number_of as is_number_of_type, is_short};

use crate::call_state::add_counted;
use crate::puts::{put_count, put_sum};
use crate::sums::{add_count, add_sum, average_result};
use sql_values::{ColumnRows, Memory, SqlType, Value, ValueRef};

/// The sum of some numbers, beside their count.
#[derive(Clone, Copy)]
pub struct Average {
    pub sum: Option<i128>,
    pub count: u64,
}

impl Average {
    /// Puts the sum and the count into a row.
    pub fn put(self, rows: &mut ColumnRows) -> Result<(), Memory>
        requires { self.count ≤ most_group_rows }
        ensures { OnOk result (rows.new ≡ record rows.old { begun = rows.old.begun ++ average_columns self }) }
    {
        put_sum(rows, self.sum)?;
        put_count(rows, self.count)
    }

    /// The average, of which there is none where there is no number.
    pub fn result(self) -> Value
        requires { HasAverage self.sum self.count }
        ensures { average_from (sum_cell self.sum) (value_is.Bigint (pos self.count)) ≡ Ok result }
    {
        average_result(self.sum, self.count)
    }
}

/// The average of no number.
pub const NO_AVERAGE: Average = Average {
    sum: None,
    count: 0,
};

/// Adds the number of a cell in the group at a place, where it is one of the type, and answers whether it is.
pub fn add_counted_at(
    kind: SqlType,
    averages: &mut Vec<Average>,
    place: usize,
    cell: ValueRef<'_>,
) -> bool
    requires within { place < length averages.old.items }
    requires short { IsTrue (is_short kind) }
    requires room { IsTrue (is_number_of_type kind (lent_value cell))
        → HasRoom (slice_index_or averages.old.items place no_average) (summand (lent_value cell))
        (length (filter is_present (lent_value cell ∷ []))) }
    ensures number { result ≡ is_number_of_type kind (lent_value cell.entry) }
    ensures value { IsTrue result → map average_columns averages.new.items
        ≡ slice_set (map average_columns averages.old.items) place
        (added_average (slice_index_or (map average_columns averages.old.items) place [])
        (partial_sum (filter is_present (lent_value cell.entry ∷ [])))
        (count_of (filter is_present (lent_value cell.entry ∷ [])))) }
    ensures others { slice_set (map average_columns averages.new.items) place []
        ≡ slice_set (map average_columns averages.old.items) place [] }
{
    let average = &mut averages[place];
    add_counted(kind, &mut average.sum, &mut average.count, cell)
}

/// Adds a stored sum and its count in the group at a place.
pub fn add_average_at(
    averages: &mut Vec<Average>,
    place: usize,
    sum: ValueRef<'_>,
    count: ValueRef<'_>,
)
    requires within { place < length averages.old.items }
    requires room { HasRoom (slice_index_or averages.old.items place no_average) (summand (lent_value sum)) (count_in (lent_value count)) }
    requires sum { sum_cell (summand (lent_value sum)) ≡ lent_value sum }
    requires count { value_is.Bigint (pos (count_in (lent_value count))) ≡ lent_value count }
    ensures { map average_columns averages.new.items
        ≡ slice_set (map average_columns averages.old.items) place
        (added_average (slice_index_or (map average_columns averages.old.items) place [])
        (lent_value sum.entry) (lent_value count.entry)) }
{
    let average = &mut averages[place];
    add_sum(&mut average.sum, sum);
    add_count(&mut average.count, count);
}
