ghost use Rattle.std.specs.Prelude.{◌≡◌, [], Ok, ◌++◌, ◌≤◌, ◌<◌, ◌+◌, ◌-◌, ◌^◌, IsTrue, OnOk, MatchResult, drop, length, slice_index_or};
ghost use Rattle.sql_values.specs.Cells.{cell};
ghost use Rattle.sql_functions.specs.CallTypes.{type_at as type_of};
ghost use Rattle.sql_functions.specs.Outcomes.{FailsBy};
ghost use Rattle.relation_laws.specs.Aggregates.{most_group_rows};
ghost use Rattle.relation_laws.specs.Partials.{call_width};
ghost use Rattle.accumulators.specs.Columns.{column_of};
ghost use Rattle.accumulators.specs.Kept.{outcome_from, outcome_in};
ghost use Rattle.accumulators.specs.KeptColumns.{CanMergeAt, CanTakeAt, IsKeptAt, IsLong, added_at, begun_behind, but_kept, first_kept, kept_at, merged_at, no_kept};
ghost use Rattle.accumulators.specs.Limits.{can_add, takes_cell};

use crate::averages::{Average, NO_AVERAGE, add_average_at, add_counted_at};
use crate::call_state::type_at;
use crate::kept_states::{
    add_count_at, add_number_at, add_sum_at, begin_at, count_cell_at, keep_copy_at,
};
use crate::limits::MOST_ROWS;
use crate::puts::{put_cell, put_count, put_sum};
use crate::sums::{count_value, sum_result};
use sql_exprs::Cells;
use sql_values::{Call, ColumnRows, EvalFault, Fail, Memory, Order, SqlType, Value};
use std::alloc::Global;
use std::marker::Model;

/// What all groups keep of one call, each at its place.
#[derive(Drop)]
pub struct CallColumn {
    held: HeldColumn,
}

#[derive(Drop)]
enum HeldColumn {
    CountAll {
        groups: usize,
    },
    Count {
        column: u32,
        counts: Vec<u64>,
    },
    Sum {
        column: u32,
        kind: SqlType,
        sums: Vec<Option<i128>>,
    },
    Min {
        column: u32,
        least: Vec<Value>,
    },
    Max {
        column: u32,
        most: Vec<Value>,
    },
    Avg {
        column: u32,
        kind: SqlType,
        averages: Vec<Average>,
    },
}

impl Model for CallColumn {
    ghost use Rattle.accumulators.specs.KeptColumns.{KeptColumn};

    ghost Value = { KeptColumn };

    ghost use Rattle.std.specs.Prelude.{IsTrue};
    ghost use Rattle.accumulators.specs.HeldColumns.{held_column};
    ghost use Rattle.accumulators.specs.Limits.{can_add};

    ghost view = { λ c. held_column c.held };

    ghost invariant = { λ c. IsTrue (can_add (held_column c.held).kind (held_column c.held).call) };
}

impl CallColumn {
    /// What is kept of no group, for a call over rows of these types.
    pub fn new(alloc: Global, types: &[SqlType], call: Call) -> CallColumn
        requires { IsTrue (can_add (type_of types.now (column_of call)) call) }
        ensures { result ≡ no_kept types.now call }
    {
        let held = match call {
            Call::CountAll => HeldColumn::CountAll { groups: 0 },
            Call::Count(column) => HeldColumn::Count {
                column,
                counts: Vec::new(alloc),
            },
            Call::Sum(column) => HeldColumn::Sum {
                column,
                kind: type_at(types, column),
                sums: Vec::new(alloc),
            },
            Call::Min(column) => HeldColumn::Min {
                column,
                least: Vec::new(alloc),
            },
            Call::Max(column) => HeldColumn::Max {
                column,
                most: Vec::new(alloc),
            },
            Call::Avg(column) => HeldColumn::Avg {
                column,
                kind: type_at(types, column),
                averages: Vec::new(alloc),
            },
        };
        CallColumn { held }
    }

    /// How many columns the call has in a partial row.
    pub fn width(&self) -> u32
        ensures { result ≡ call_width self.now.call }
    {
        match &self.held {
            HeldColumn::CountAll { .. } => 0,
            HeldColumn::Count { .. } => 1,
            HeldColumn::Sum { .. } => 1,
            HeldColumn::Min { .. } => 1,
            HeldColumn::Max { .. } => 1,
            HeldColumn::Avg { .. } => 2,
        }
    }

    /// Begins a group of no row behind the first groups, so many.
    pub fn begin(&mut self, place: usize) -> Result<(), Memory>
        requires long { IsLong place self.old }
        requires few { place < 2 ^ 32 }
        ensures ok { OnOk result (self.new ≡ begun_behind place self.old) }
        ensures first { first_kept place self.new ≡ first_kept place self.old }
        ensures long { IsLong place self.new }
    {
        match &mut self.held {
            HeldColumn::CountAll { groups } => {
                *groups = place + 1;
                Ok(())
            }
            HeldColumn::Count { counts, .. } => begin_at(counts, place, 0),
            HeldColumn::Sum { sums, .. } => begin_at(sums, place, None),
            HeldColumn::Min { least, .. } => begin_at(least, place, Value::Null),
            HeldColumn::Max { most, .. } => begin_at(most, place, Value::Null),
            HeldColumn::Avg { averages, .. } => begin_at(averages, place, NO_AVERAGE),
        }
    }

    /// Takes a row's cell into the group at a place where it can, and answers whether it did. It can not where the
    /// cell is no number of the call's type, or where memory is wanting for its copy.
    #[tactic(auto, using(crate::proofs::SlotRules::taking))]
    pub fn take<C: Cells>(&mut self, alloc: Global, place: usize, cells: &C) -> bool
        requires { CanTakeAt place (C.values cells.now) self.old }
        ensures value { IsTrue result → self.new ≡ added_at place (C.values cells.now) self.old }
        ensures fits { IsTrue result → IsTrue (takes_cell self.old.kind self.old.call
            (cell (C.values cells.now) (column_of self.old.call))) }
        ensures others { but_kept place self.new ≡ but_kept place self.old }
    {
        match &mut self.held {
            HeldColumn::CountAll { .. } => true,
            HeldColumn::Count { column, counts } => {
                count_cell_at(counts, place, cells.cell(*column));
                true
            }
            HeldColumn::Sum { column, kind, sums } => {
                add_number_at(*kind, sums, place, cells.cell(*column))
            }
            HeldColumn::Min { column, least } => {
                keep_copy_at(alloc, Order::Ascending, least, place, cells.cell(*column)).is_ok()
            }
            HeldColumn::Max { column, most } => {
                keep_copy_at(alloc, Order::Descending, most, place, cells.cell(*column)).is_ok()
            }
            HeldColumn::Avg {
                column,
                kind,
                averages,
            } => add_counted_at(*kind, averages, place, cells.cell(*column)),
        }
    }

    /// Merges the columns that a row has from a place on into the group at a place.
    #[tactic(auto, using(crate::proofs::SlotRules::merging))]
    pub fn merge<C: Cells>(
        &mut self,
        alloc: Global,
        place: usize,
        cells: &C,
        first: u32,
    ) -> Result<(), Memory>
        requires first { first < 2 ^ 32 - 1 }
        requires can { CanMergeAt place (drop first (C.values cells.now)) self.old }
        ensures ok { OnOk result (self.new ≡ merged_at place (drop first (C.values cells.now)) self.old) }
        ensures others { but_kept place self.new ≡ but_kept place self.old }
    {
        let value = cells.cell(first);
        match &mut self.held {
            HeldColumn::CountAll { .. } => Ok(()),
            HeldColumn::Count { counts, .. } => {
                add_count_at(counts, place, value);
                Ok(())
            }
            HeldColumn::Sum { sums, .. } => {
                add_sum_at(sums, place, value);
                Ok(())
            }
            HeldColumn::Min { least, .. } => {
                keep_copy_at(alloc, Order::Ascending, least, place, value)
            }
            HeldColumn::Max { most, .. } => {
                keep_copy_at(alloc, Order::Descending, most, place, value)
            }
            HeldColumn::Avg { averages, .. } => {
                add_average_at(averages, place, value, cells.cell(first + 1));
                Ok(())
            }
        }
    }

    /// Puts the columns of the group at a place, of so many rows, into a row.
    pub fn put_columns(&self, place: usize, count: u64, rows: &mut ColumnRows) -> Result<(), Memory>
        requires { IsKeptAt place count self.now }
        ensures { OnOk result (rows.new ≡ record rows.old { begun = rows.old.begun ++ slice_index_or self.now.kept place [] }) }
    {
        match &self.held {
            HeldColumn::CountAll { .. } => Ok(()),
            HeldColumn::Count { counts, .. } => put_count(rows, counts[place]),
            HeldColumn::Sum { sums, .. } => put_sum(rows, sums[place]),
            HeldColumn::Min { least, .. } => put_cell(rows, least[place].as_ref()),
            HeldColumn::Max { most, .. } => put_cell(rows, most[place].as_ref()),
            HeldColumn::Avg { averages, .. } => averages[place].put(rows),
        }
    }

    /// The call's result in the group at a place, of so many rows.
    pub fn outcome(&self, alloc: Global, place: usize, rows: u64) -> Result<Value, EvalFault>
        requires { rows ≤ most_group_rows → IsKeptAt place rows self.now }
        ensures { MatchResult result (λ v. outcome_in rows (kept_at place self.now) ≡ Ok v)
            (FailsBy (outcome_in rows (kept_at place self.now))) }
    {
        if MOST_ROWS < rows {
            return Err(EvalFault::Fail(Fail::OutOfRange));
        }
        self.outcome_of_few(alloc, place, rows)
    }

    fn outcome_of_few(&self, alloc: Global, place: usize, rows: u64) -> Result<Value, EvalFault>
        requires { IsKeptAt place rows self.now }
        ensures { MatchResult result
            (λ v. outcome_from self.now.kind rows (kept_at place self.now).columns self.now.call ≡ Ok v)
            (FailsBy (outcome_from self.now.kind rows (kept_at place self.now).columns self.now.call)) }
    {
        match &self.held {
            HeldColumn::CountAll { .. } => Ok(Value::Bigint(rows as i64)),
            HeldColumn::Count { counts, .. } => Ok(count_value(counts[place])),
            HeldColumn::Sum { kind, sums, .. } => Ok(sum_result(*kind, sums[place])?),
            HeldColumn::Min { least, .. } => Ok(least[place].copy(alloc)?),
            HeldColumn::Max { most, .. } => Ok(most[place].copy(alloc)?),
            HeldColumn::Avg { averages, .. } => Ok(averages[place].result()),
        }
    }
}
