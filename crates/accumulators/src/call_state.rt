ghost use Rattle.std.specs.Prelude.{◌≡◌, ◌++◌, ◌∷◌, [], ◌≤◌, ◌+◌, IsTrue, OnOk, MatchResult, drop, filter, length, pos, ◌<◌, ◌-◌, ◌^◌};
ghost use Rattle.sql_values.specs.declared.value.Value.TheVariants as value_is;
ghost use Rattle.sql_values.specs.Cells.{cell, lent_value};
ghost use Rattle.sql_functions.specs.CallTypes.{type_at as type_of};
ghost use Rattle.sql_functions.specs.Outcomes.{FailsBy};
ghost use Rattle.relation_laws.specs.Aggregates.{count_of, most_group_rows};
ghost use Rattle.relation_laws.specs.Equality.{is_present};
ghost use Rattle.relation_laws.specs.Partials.{added_counts, added_sums, call_width, partial_sum};
ghost use Rattle.accumulators.specs.Columns.{column_of, columns_of, magnitude, sum_cell, summand};
ghost use Rattle.accumulators.specs.Firsts.{BeginWith, kept_first};
ghost use Rattle.accumulators.specs.Kept.{added_cell, added_row, kept_of_none, merged_kept, outcome_from, outcome_in};
ghost use Rattle.accumulators.specs.Limits.{CanMerge, CanTake, IsKept, are_columns, can_add, is_number_of as is_number_of_type, is_short, takes_cell};

use crate::firsts::{keep_copy, keep_first, push_first};
use crate::limits::{MOST_ROWS, are_sum_and_count, greatest, is_count, is_number_of, is_sum};
use crate::puts::{put_cell, put_sum};
use crate::sums::{
    add_cell, add_count, add_sum, average_result, count_cell, sum_result, sum_value,
};
use sql_exprs::Cells;
use sql_values::{Call, ColumnRows, EvalFault, Fail, Memory, Order, SqlType, Value, ValueRef};
use std::alloc::Global;
use std::collections::VecDeque;
use std::marker::Model;

/// What a group keeps of one call.
#[derive(Drop)]
pub struct CallState {
    held: Held,
}

#[derive(Drop)]
enum Held {
    CountAll,
    Count {
        column: u32,
        count: u64,
    },
    Sum {
        column: u32,
        kind: SqlType,
        sum: Option<i128>,
    },
    Min {
        column: u32,
        least: Value,
    },
    Max {
        column: u32,
        most: Value,
    },
    Avg {
        column: u32,
        kind: SqlType,
        sum: Option<i128>,
        count: u64,
    },
}

impl Model for CallState {
    ghost use Rattle.accumulators.specs.Kept.{Kept};

    ghost Value = { Kept };

    ghost use Rattle.std.specs.Prelude.{◌≤◌, IsTrue};
    ghost use Rattle.relation_laws.specs.Aggregates.{most_group_rows};
    ghost use Rattle.accumulators.specs.Held.{count_held, kept};
    ghost use Rattle.accumulators.specs.Limits.{can_add};

    ghost view = { λ s. kept s.held };

    ghost invariant = { λ s.
        IsTrue (can_add (kept s.held).kind (kept s.held).call) × (count_held s.held ≤ most_group_rows) };
}

impl CallState {
    /// What is kept of no row, for a call over rows of these types.
    pub fn new(types: &[SqlType], call: Call) -> CallState
        requires { IsTrue (can_add (type_of types.now (column_of call)) call) }
        ensures { result ≡ kept_of_none types.now call }
    {
        let held = match call {
            Call::CountAll => Held::CountAll,
            Call::Count(column) => Held::Count { column, count: 0 },
            Call::Sum(column) => Held::Sum {
                column,
                kind: type_at(types, column),
                sum: None,
            },
            Call::Min(column) => Held::Min {
                column,
                least: Value::Null,
            },
            Call::Max(column) => Held::Max {
                column,
                most: Value::Null,
            },
            Call::Avg(column) => Held::Avg {
                column,
                kind: type_at(types, column),
                sum: None,
                count: 0,
            },
        };
        CallState { held }
    }

    /// The column whose cells the call takes.
    pub fn column(&self) -> u32
        ensures { result ≡ column_of self.now.call }
    {
        match &self.held {
            Held::CountAll => 0,
            Held::Count { column, .. } => *column,
            Held::Sum { column, .. } => *column,
            Held::Min { column, .. } => *column,
            Held::Max { column, .. } => *column,
            Held::Avg { column, .. } => *column,
        }
    }

    /// How many columns the call has in a partial row.
    pub fn width(&self) -> u32
        ensures { result ≡ call_width self.now.call }
    {
        match &self.held {
            Held::CountAll => 0,
            Held::Count { .. } => 1,
            Held::Sum { .. } => 1,
            Held::Min { .. } => 1,
            Held::Max { .. } => 1,
            Held::Avg { .. } => 2,
        }
    }

    /// Whether the call can take a cell.
    pub fn takes(&self, cell: ValueRef<'_>) -> bool
        ensures { result ≡ takes_cell self.now.kind self.now.call (lent_value cell.entry) }
    {
        match &self.held {
            Held::CountAll => true,
            Held::Count { .. } => true,
            Held::Sum { kind, .. } => is_number_of(*kind, cell),
            Held::Min { .. } => true,
            Held::Max { .. } => true,
            Held::Avg { kind, .. } => is_number_of(*kind, cell),
        }
    }

    /// Whether a row has columns of the call from a place on, of a group of so many rows.
    #[tactic(auto, using(crate::proofs::CellRules::from_place))]
    pub fn begins<C: Cells>(&self, rows: u64, cells: &C, place: u32) -> bool
        requires { place < 2 ^ 32 - 1 }
        ensures { result ≡ are_columns rows self.now.kind self.now.call (drop place (C.values cells.now)) }
    {
        let first = cells.cell(place);
        match &self.held {
            Held::CountAll => true,
            Held::Count { .. } => is_count(rows, first),
            Held::Sum { kind, .. } => is_sum(u128::from(rows) * greatest(*kind), first),
            Held::Min { .. } => true,
            Held::Max { .. } => true,
            Held::Avg { kind, .. } => {
                are_sum_and_count(rows, greatest(*kind), first, cells.cell(place + 1))
            }
        }
    }

    /// Appends a copy of the cell at a place, where it becomes the call's least or greatest.
    pub fn push_first<C: Cells>(
        &self,
        alloc: Global,
        cells: &C,
        place: u32,
        firsts: &mut VecDeque<Value>,
    ) -> Result<(), Memory>
        ensures { OnOk result (firsts.new.items
            ≡ firsts.old.items ++ kept_first self.now (cell (C.values cells.now) place)) }
    {
        match &self.held {
            Held::CountAll => Ok(()),
            Held::Count { .. } => Ok(()),
            Held::Sum { .. } => Ok(()),
            Held::Min { least, .. } => {
                push_first(alloc, Order::Ascending, least, cells.cell(place), firsts)
            }
            Held::Max { most, .. } => {
                push_first(alloc, Order::Descending, most, cells.cell(place), firsts)
            }
            Held::Avg { .. } => Ok(()),
        }
    }

    /// Takes one more cell. Where it becomes the least or greatest, its copy is taken from the front.
    #[tactic(auto, using(crate::proofs::HeldRules::adding))]
    pub fn add(&mut self, cell: ValueRef<'_>, firsts: &mut VecDeque<Value>)
        requires can { CanMerge self.old (columns_of self.old.call (lent_value cell ∷ [])) }
        requires firsts { BeginWith (kept_first self.old (lent_value cell)) firsts.old.items }
        ensures value { self.new ≡ added_cell self.old (lent_value cell.entry) }
        ensures rest { firsts.new.items ≡ drop (length (kept_first self.old (lent_value cell.entry))) firsts.old.items }
    {
        match &mut self.held {
            Held::CountAll => {}
            Held::Count { count, .. } => count_cell(count, cell),
            Held::Sum { sum, .. } => add_cell(sum, cell),
            Held::Min { least, .. } => keep_first(Order::Ascending, least, cell, firsts),
            Held::Max { most, .. } => keep_first(Order::Descending, most, cell, firsts),
            Held::Avg { sum, count, .. } => {
                add_cell(sum, cell);
                count_cell(count, cell);
            }
        }
    }

    /// Takes a row's cell where it can, and answers whether it did. It can not where the cell is no number of the
    /// call's type, or where memory is wanting for its copy.
    #[tactic(auto, using(crate::proofs::HeldRules::adding))]
    pub fn take<C: Cells>(&mut self, alloc: Global, cells: &C) -> bool
        requires { CanTake (C.values cells.now) self.old }
        ensures value { IsTrue result → self.new ≡ added_row (C.values cells.now) self.old }
        ensures fits { IsTrue result → IsTrue (takes_cell self.old.kind self.old.call
            (cell (C.values cells.now) (column_of self.old.call))) }
        ensures same { (self.new.call ≡ self.old.call) × (self.new.kind ≡ self.old.kind) }
    {
        match &mut self.held {
            Held::CountAll => true,
            Held::Count { column, count } => {
                count_cell(count, cells.cell(*column));
                true
            }
            Held::Sum { column, kind, sum } => add_number(*kind, sum, cells.cell(*column)),
            Held::Min { column, least } => {
                keep_copy(alloc, Order::Ascending, least, cells.cell(*column)).is_ok()
            }
            Held::Max { column, most } => {
                keep_copy(alloc, Order::Descending, most, cells.cell(*column)).is_ok()
            }
            Held::Avg {
                column,
                kind,
                sum,
                count,
            } => add_counted(*kind, sum, count, cells.cell(*column)),
        }
    }

    /// Merges the columns in that a row has from a place on. What becomes the least or greatest is taken from the
    /// front.
    #[tactic(auto, using(crate::proofs::CellRules::from_place))]
    pub fn merge<C: Cells>(&mut self, cells: &C, place: u32, firsts: &mut VecDeque<Value>)
        requires place { place < 2 ^ 32 - 1 }
        requires can { CanMerge self.old (drop place (C.values cells.now)) }
        requires firsts { BeginWith (kept_first self.old (cell (C.values cells.now) place)) firsts.old.items }
        ensures value { self.new ≡ merged_kept self.old (drop place (C.values cells.now)) }
        ensures rest { firsts.new.items
            ≡ drop (length (kept_first self.old (cell (C.values cells.now) place))) firsts.old.items }
    {
        let first = cells.cell(place);
        match &mut self.held {
            Held::CountAll => {}
            Held::Count { count, .. } => add_count(count, first),
            Held::Sum { sum, .. } => add_sum(sum, first),
            Held::Min { least, .. } => keep_first(Order::Ascending, least, first, firsts),
            Held::Max { most, .. } => keep_first(Order::Descending, most, first, firsts),
            Held::Avg { sum, count, .. } => {
                add_sum(sum, first);
                add_count(count, cells.cell(place + 1));
            }
        }
    }

    /// Appends the call's columns.
    pub fn push_columns(&self, alloc: Global, values: &mut Vec<Value>) -> Result<(), Memory>
        ensures { OnOk result (values.new.items ≡ values.old.items ++ self.now.columns) }
    {
        match &self.held {
            Held::CountAll => {}
            Held::Count { count, .. } => values.push(Value::Bigint(*count as i64))?,
            Held::Sum { sum, .. } => values.push(sum_value(*sum))?,
            Held::Min { least, .. } => values.push(least.copy(alloc)?)?,
            Held::Max { most, .. } => values.push(most.copy(alloc)?)?,
            Held::Avg { sum, count, .. } => {
                values.push(sum_value(*sum))?;
                values.push(Value::Bigint(*count as i64))?;
            }
        }
        Ok(())
    }

    /// Puts the call's columns into a row.
    pub fn put_columns(&self, rows: &mut ColumnRows) -> Result<(), Memory>
        ensures { OnOk result (rows.new ≡ record rows.old { begun = rows.old.begun ++ self.now.columns }) }
    {
        match &self.held {
            Held::CountAll => Ok(()),
            Held::Count { count, .. } => put_cell(rows, ValueRef::Bigint(*count as i64)),
            Held::Sum { sum, .. } => put_sum(rows, *sum),
            Held::Min { least, .. } => put_cell(rows, least.as_ref()),
            Held::Max { most, .. } => put_cell(rows, most.as_ref()),
            Held::Avg { sum, count, .. } => {
                put_sum(rows, *sum)?;
                put_cell(rows, ValueRef::Bigint(*count as i64))
            }
        }
    }

    /// The call's result in a group of so many rows.
    pub fn outcome(&self, alloc: Global, rows: u64) -> Result<Value, EvalFault>
        requires { rows ≤ most_group_rows → IsKept rows self.now }
        ensures { MatchResult result (λ v. outcome_in rows self.now ≡ Ok v) (FailsBy (outcome_in rows self.now)) }
    {
        if MOST_ROWS < rows {
            return Err(EvalFault::Fail(Fail::OutOfRange));
        }
        self.outcome_of_few(alloc, rows)
    }

    fn outcome_of_few(&self, alloc: Global, rows: u64) -> Result<Value, EvalFault>
        requires few { rows ≤ most_group_rows }
        requires kept { IsKept rows self.now }
        ensures { MatchResult result
            (λ v. outcome_from self.now.kind rows self.now.columns self.now.call ≡ Ok v)
            (FailsBy (outcome_from self.now.kind rows self.now.columns self.now.call)) }
    {
        match &self.held {
            Held::CountAll => Ok(Value::Bigint(rows as i64)),
            Held::Count { count, .. } => Ok(Value::Bigint(*count as i64)),
            Held::Sum { kind, sum, .. } => Ok(sum_result(*kind, *sum)?),
            Held::Min { least, .. } => Ok(least.copy(alloc)?),
            Held::Max { most, .. } => Ok(most.copy(alloc)?),
            Held::Avg { sum, count, .. } => Ok(average_result(*sum, *count)),
        }
    }
}

/// Adds the number of a cell, where it is one of the type, and answers whether it is.
pub fn add_number(kind: SqlType, sum: &mut Option<i128>, cell: ValueRef<'_>) -> bool
    requires short { IsTrue (is_short kind) }
    requires room { IsTrue (is_number_of_type kind (lent_value cell))
        → magnitude sum.old + magnitude (summand (lent_value cell)) < 2 ^ 127 }
    ensures number { result ≡ is_number_of_type kind (lent_value cell.entry) }
    ensures value { IsTrue result → sum_cell sum.new
        ≡ added_sums (sum_cell sum.old) (partial_sum (filter is_present (lent_value cell.entry ∷ []))) }
{
    let taken = is_number_of(kind, cell);
    if taken {
        add_cell(sum, cell);
    }
    taken
}

/// The same beside a count of the numbers.
pub fn add_counted(
    kind: SqlType,
    sum: &mut Option<i128>,
    count: &mut u64,
    cell: ValueRef<'_>,
) -> bool
    requires short { IsTrue (is_short kind) }
    requires room { IsTrue (is_number_of_type kind (lent_value cell))
        → (magnitude sum.old + magnitude (summand (lent_value cell)) < 2 ^ 127)
        × (count.old + length (filter is_present (lent_value cell ∷ [])) ≤ most_group_rows) }
    ensures number { result ≡ is_number_of_type kind (lent_value cell.entry) }
    ensures sum { IsTrue result → sum_cell sum.new
        ≡ added_sums (sum_cell sum.old) (partial_sum (filter is_present (lent_value cell.entry ∷ []))) }
    ensures count { IsTrue result → value_is.Bigint (pos count.new)
        ≡ added_counts (value_is.Bigint (pos count.old)) (count_of (filter is_present (lent_value cell.entry ∷ []))) }
    ensures few { count.old ≤ most_group_rows → count.new ≤ most_group_rows }
{
    let taken = add_number(kind, sum, cell);
    if taken {
        count_cell(count, cell);
    }
    taken
}

/// The type of the column at a place: boolean where there is none.
pub fn type_at(types: &[SqlType], column: u32) -> SqlType
    ensures { result ≡ type_of types.now column }
{
    match types.get(column as usize) {
        Some(kind) => *kind,
        None => SqlType::Boolean,
    }
}
