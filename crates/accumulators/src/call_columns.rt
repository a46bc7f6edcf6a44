ghost use Rattle.std.specs.Prelude.{◌≡◌, ◌≤◌, ◌<◌, ◌+◌, ◌^◌, ◌++◌, All, IfOk, IsTrue, OnOk, drop, length, map};
ghost use Rattle.relation_laws.specs.Aggregates.{most_group_rows};
ghost use Rattle.accumulators.specs.Groups.{AllAnswer, all_outcomes};
ghost use Rattle.accumulators.specs.Kept.{all_columns};
ghost use Rattle.accumulators.specs.KeptColumns.{CanMergeEachAt, CanTakeAt, IsKeptAt, IsLong, added_at, all_kept_at, begun_behind, but_kept, column_calls, column_kinds, first_kept, merged_each_at, no_kept};
ghost use Rattle.accumulators.specs.Limits.{are_allowed, takes_row};

use crate::call_column::CallColumn;
use sql_exprs::Cells;
use sql_values::{Call, ColumnRows, EvalFault, Memory, SqlType, Value};
use std::alloc::Global;

/// What is kept of no group, for calls over rows of these types.
pub fn no_columns(
    alloc: Global,
    types: &[SqlType],
    calls: &[Call],
) -> Result<Vec<CallColumn>, Memory>
    requires { IsTrue (are_allowed types.now calls.now) }
    ensures { IfOk result (λ v. v.items ≡ map (no_kept types.now) calls.now) }
{
    let mut columns = Vec::with_capacity(alloc, calls.len())?;
    for call in calls {
        columns.push(CallColumn::new(alloc, types, *call))?;
    }
    Ok(columns)
}

/// Begins a group of no row behind the first groups, so many.
pub fn begin_each_at(columns: &mut Vec<CallColumn>, place: usize) -> Result<(), Memory>
    requires long { All (IsLong place) columns.old.items }
    requires few { place < 2 ^ 32 }
    ensures ok { OnOk result (columns.new.items ≡ map (begun_behind place) columns.old.items) }
    ensures first { map (first_kept place) columns.new.items ≡ map (first_kept place) columns.old.items }
{
    for column in columns.iter_mut() {
        column.begin(place)?;
    }
    Ok(())
}

/// Takes a row into the group at a place where all calls can, and answers whether they did.
pub fn take_each_at<C: Cells>(
    alloc: Global,
    columns: &mut Vec<CallColumn>,
    place: usize,
    cells: &C,
) -> bool
    requires { All (CanTakeAt place (C.values cells.now)) columns.old.items }
    ensures value { IsTrue result → columns.new.items ≡ map (added_at place (C.values cells.now)) columns.old.items }
    ensures fits { IsTrue result
        → IsTrue (takes_row (column_calls columns.old.items) (column_kinds columns.old.items) (C.values cells.now)) }
    ensures others { map (but_kept place) columns.new.items ≡ map (but_kept place) columns.old.items }
{
    for column in columns.iter_mut() {
        if !column.take(alloc, place, cells) {
            return false;
        }
    }
    true
}

/// Merges columns into the group at a place, which stand one behind the other in a row, from a place on.
pub fn merge_each_at<C: Cells>(
    alloc: Global,
    columns: &mut Vec<CallColumn>,
    place: usize,
    cells: &C,
    first: u32,
) -> Result<(), Memory>
    requires few { length columns.old.items ≤ 2 ^ 20 }
    requires near { first ≤ 2 ^ 31 + 1 }
    requires can { CanMergeEachAt place columns.old.items (drop first (C.values cells.now)) }
    ensures ok { OnOk result (columns.new.items ≡ merged_each_at place columns.old.items (drop first (C.values cells.now))) }
    ensures others { map (but_kept place) columns.new.items ≡ map (but_kept place) columns.old.items }
{
    let mut from = first;
    for column in columns.iter_mut() {
        column.merge(alloc, place, cells, from)?;
        from += column.width();
    }
    Ok(())
}

/// Puts the columns of the group at a place, of so many rows, into a row.
pub fn put_each_at(
    columns: &[CallColumn],
    place: usize,
    count: u64,
    rows: &mut ColumnRows,
) -> Result<(), Memory>
    requires { All (IsKeptAt place count) columns.now }
    ensures { OnOk result (rows.new ≡ record rows.old { begun = rows.old.begun ++ all_columns (all_kept_at place columns.now) }) }
{
    for column in columns {
        column.put_columns(place, count, rows)?;
    }
    Ok(())
}

/// The results in the group at a place, of so many rows.
pub fn results_at(
    alloc: Global,
    columns: &[CallColumn],
    place: usize,
    rows: u64,
) -> Result<Vec<Value>, EvalFault>
    requires { rows ≤ most_group_rows → All (IsKeptAt place rows) columns.now }
    ensures { AllAnswer (all_outcomes rows (all_kept_at place columns.now)) result }
{
    let mut values = Vec::with_capacity(alloc, columns.len())?;
    for column in columns {
        values.push(column.outcome(alloc, place, rows)?)?;
    }
    Ok(values)
}
