ghost use Rattle.std.specs.Prelude.{◌≡◌, ◌≤◌, ◌++◌, All, IfOk, IsTrue, OnOk, drop, flat_map, map, replicate, sum_by, take, length, ◌^◌, ◌+◌, ◌<◌};
ghost use Rattle.sql_values.specs.declared.value.Value.TheVariants as value_is;
ghost use Rattle.std.specs.List.{list_all};
ghost use Rattle.sql_functions.specs.Truth.{is_null as is_null_value};
ghost use Rattle.relation_laws.specs.Aggregates.{most_group_rows};
ghost use Rattle.relation_laws.specs.Partials.{call_width};
ghost use Rattle.accumulators.specs.Firsts.{part_firsts, row_firsts};
ghost use Rattle.accumulators.specs.Kept.{added_row, all_columns, calls_of, kept_of_none, kinds_of, merged_each, outcome_in};
ghost use Rattle.accumulators.specs.Limits.{CanAdd, CanMergeEach, CanTake, IsKept, are_all_columns, are_allowed, are_null, takes_row};
ghost use Rattle.accumulators.specs.Groups.{AllAnswer, all_outcomes};

use crate::call_state::CallState;
use crate::puts::put_nulls;
use sql_exprs::Cells;
use sql_functions::is_null;
use sql_values::{Call, ColumnRows, EvalFault, Memory, SqlType, Value};
use std::alloc::Global;
use std::collections::VecDeque;

/// What is kept of no row, for calls over rows of these types.
pub fn empty_states(
    alloc: Global,
    types: &[SqlType],
    calls: &[Call],
) -> Result<Vec<CallState>, Memory>
    requires { IsTrue (are_allowed types.now calls.now) }
    ensures { IfOk result (λ v. v.items ≡ map (kept_of_none types.now) calls.now) }
{
    let mut states = Vec::with_capacity(alloc, calls.len())?;
    for call in calls {
        states.push(CallState::new(types, *call))?;
    }
    Ok(states)
}

/// Whether the calls can take a row.
pub fn take_row<C: Cells>(states: &[CallState], cells: &C) -> bool
    ensures { result ≡ takes_row (calls_of states.now) (kinds_of states.now) (C.values cells.now) }
{
    for state in states {
        if !state.takes(cells.cell(state.column())) {
            return false;
        }
    }
    true
}

/// Copies of the cells of a row that become a call's least or greatest, in the order of the calls.
pub fn firsts_of_row<C: Cells>(
    alloc: Global,
    states: &[CallState],
    cells: &C,
) -> Result<VecDeque<Value>, Memory>
    ensures { IfOk result (λ v. v.items ≡ row_firsts (C.values cells.now) states.now) }
{
    let mut firsts = VecDeque::new(alloc);
    for state in states {
        state.push_first(alloc, cells, state.column(), &mut firsts)?;
    }
    Ok(firsts)
}

/// Takes one more row, with the copies that were made of its cells.
pub fn add_each<C: Cells>(states: &mut Vec<CallState>, cells: &C, firsts: VecDeque<Value>)
    requires can { All (CanAdd (C.values cells.now)) states.old.items }
    requires firsts { firsts.items ≡ row_firsts (C.values cells.now) states.old.items }
    ensures { states.new.items ≡ map (added_row (C.values cells.now)) states.old.items }
{
    let mut left = firsts;
    for state in states.iter_mut() {
        state.add(cells.cell(state.column()), &mut left);
    }
}

/// Takes a row into each where all can, and answers whether they did.
pub fn take_each<C: Cells>(alloc: Global, states: &mut Vec<CallState>, cells: &C) -> bool
    requires { All (CanTake (C.values cells.now)) states.old.items }
    ensures value { IsTrue result → states.new.items ≡ map (added_row (C.values cells.now)) states.old.items }
    ensures fits { IsTrue result
        → IsTrue (takes_row (calls_of states.old.items) (kinds_of states.old.items) (C.values cells.now)) }
    ensures same { (calls_of states.new.items ≡ calls_of states.old.items)
        × (kinds_of states.new.items ≡ kinds_of states.old.items) }
{
    for state in states.iter_mut() {
        if !state.take(alloc, cells) {
            return false;
        }
    }
    true
}

/// Copies of the columns that become a call's least or greatest, of those that stand from a place on.
pub fn firsts_of_part<C: Cells>(
    alloc: Global,
    states: &[CallState],
    cells: &C,
    first: u32,
) -> Result<VecDeque<Value>, Memory>
    requires few { length states.now ≤ 2 ^ 20 }
    requires near { first ≤ 2 ^ 31 + 1 }
    ensures { IfOk result (λ v. v.items ≡ part_firsts (C.values cells.now) first states.now) }
{
    let mut place = first;
    let mut firsts = VecDeque::new(alloc);
    for state in states {
        state.push_first(alloc, cells, place, &mut firsts)?;
        place += state.width();
    }
    Ok(firsts)
}

/// Merges columns in, which stand one behind the other in a row, from a place on, with the copies that were made
/// of them.
pub fn merge_each<C: Cells>(
    states: &mut Vec<CallState>,
    cells: &C,
    first: u32,
    firsts: VecDeque<Value>,
)
    requires few { length states.old.items ≤ 2 ^ 20 }
    requires near { first ≤ 2 ^ 31 + 1 }
    requires can { CanMergeEach states.old.items (drop first (C.values cells.now)) }
    requires firsts { firsts.items ≡ part_firsts (C.values cells.now) first states.old.items }
    ensures { states.new.items ≡ merged_each states.old.items (drop first (C.values cells.now)) }
{
    let mut place = first;
    let mut left = firsts;
    for state in states.iter_mut() {
        state.merge(cells, place, &mut left);
        place += state.width();
    }
}

/// Whether a row has the columns of the calls from a place on, of a group of so many rows.
pub fn begin_each<C: Cells>(states: &[CallState], rows: u64, cells: &C, first: u32) -> bool
    requires few { length states.now ≤ 2 ^ 20 }
    requires near { first ≤ 2 ^ 31 + 1 }
    ensures { result ≡ are_all_columns rows (calls_of states.now) (kinds_of states.now) (drop first (C.values cells.now)) }
{
    let mut place = first;
    for state in states {
        if !state.begins(rows, cells, place) {
            return false;
        }
        place += state.width();
    }
    true
}

/// Whether NULL stands in place of each column.
pub fn are_each_null<C: Cells>(states: &[CallState], cells: &C, first: u32) -> bool
    requires few { length states.now ≤ 2 ^ 20 }
    requires near { first ≤ 2 ^ 31 + 1 }
    ensures { result ≡ are_null (calls_of states.now) (drop first (C.values cells.now)) }
{
    let mut place = first;
    for state in states {
        if !are_null_cells(cells, place, state.width()) {
            return false;
        }
        place += state.width();
    }
    true
}

/// Whether some cells from a place on are NULL.
fn are_null_cells<C: Cells>(cells: &C, first: u32, width: u32) -> bool
    requires { first + width < 2 ^ 32 }
    ensures { result ≡ list_all is_null_value (take width (drop first (C.values cells.now))) }
{
    for place in first..first + width {
        if !is_null(cells.cell(place)) {
            return false;
        }
    }
    true
}

/// Appends the columns of all.
pub fn push_all_columns(
    alloc: Global,
    states: &[CallState],
    values: &mut Vec<Value>,
) -> Result<(), Memory>
    ensures { OnOk result (values.new.items ≡ values.old.items ++ all_columns states.now) }
{
    for state in states {
        state.push_columns(alloc, values)?;
    }
    Ok(())
}

/// Puts the columns of all into a row.
pub fn put_all_columns(states: &[CallState], rows: &mut ColumnRows) -> Result<(), Memory>
    ensures { OnOk result (rows.new ≡ record rows.old { begun = rows.old.begun ++ all_columns states.now }) }
{
    for state in states {
        state.put_columns(rows)?;
    }
    Ok(())
}

/// Puts a NULL in place of each column into a row.
pub fn put_all_nulls(states: &[CallState], rows: &mut ColumnRows) -> Result<(), Memory>
    ensures { OnOk result (rows.new ≡ record rows.old {
      begun = rows.old.begun ++ replicate (sum_by call_width (calls_of states.now)) value_is.Null;
    }) }
{
    for state in states {
        put_nulls(rows, state.width() as usize)?;
    }
    Ok(())
}

/// Appends a NULL in place of each column.
pub fn push_all_nulls(states: &[CallState], values: &mut Vec<Value>) -> Result<(), Memory>
    ensures { OnOk result (values.new.items ≡ values.old.items ++ replicate (sum_by call_width (calls_of states.now)) value_is.Null) }
{
    for state in states {
        push_nulls(values, state.width() as usize)?;
    }
    Ok(())
}

fn push_nulls(values: &mut Vec<Value>, count: usize) -> Result<(), Memory>
    ensures { OnOk result (values.new.items ≡ values.old.items ++ replicate count value_is.Null) }
{
    for _place in 0..count {
        values.push(Value::Null)?;
    }
    Ok(())
}

/// The results in a group of so many rows.
pub fn all_results(alloc: Global, states: &[CallState], rows: u64) -> Result<Vec<Value>, EvalFault>
    requires { rows ≤ most_group_rows → All (IsKept rows) states.now }
    ensures { AllAnswer (all_outcomes rows states.now) result }
{
    let mut values = Vec::with_capacity(alloc, states.len())?;
    for state in states {
        values.push(state.outcome(alloc, rows)?)?;
    }
    Ok(values)
}
