ghost use Rattle.std.specs.Prelude.{◌≡◌, ◌≤◌, ◌^◌, [], ◌∷◌, ◌++◌, List, IfOk, IsTrue, OnOk, OnErr, map, nat_abs, drop, replicate, sum_by};
ghost use Rattle.sql_values.specs.declared.types.SqlType.{SqlType};
ghost use Rattle.sql_values.specs.declared.value.Value.TheVariants as value_is;
ghost use Rattle.sql_values.specs.Cells.{lent_value};
ghost use Rattle.sql_values.specs.Order.{number_in};
ghost use Rattle.relation_laws.specs.Aggregates.{aggregates_of};
ghost use Rattle.relation_laws.specs.Partials.{call_width, partial_of, results_from};
ghost use Rattle.accumulators.specs.Columns.{kind_in};
ghost use Rattle.accumulators.specs.Groups.{Answers, HasTaken, empty_group, with_part, with_row};
ghost use Rattle.accumulators.specs.Limits.{are_allowed, is_partial, is_row_count as is_row_count_value, takes_row};

use crate::call_state::CallState;
use crate::call_states::{
    add_each, all_results, are_each_null, begin_each, empty_states, firsts_of_part, firsts_of_row,
    merge_each, push_all_columns, push_all_nulls, put_all_columns, put_all_nulls, take_each,
    take_row,
};
use crate::limits::MOST_ROWS;
use crate::puts::put_cell;
use sql_exprs::Cells;
use sql_values::{Call, ColumnRows, EvalFault, Memory, Row, RowList, SqlType, Value, ValueRef};
use std::alloc::Global;
use std::marker::Model;

/// The most calls of a group, so that 32 bits count the columns of a partial row.
pub const MOST_CALLS: usize = 1_048_576;

/// The state of one group.
#[derive(Drop)]
pub struct Accumulator {
    alloc: Global,
    rows: u64,
    states: Vec<CallState>,
}

impl Model for Accumulator {
    ghost use Rattle.accumulators.specs.Groups.{Group, IsGroup, group_kept};

    ghost Value = { Group };

    ghost view = { λ a. group_kept a.rows a.states.items };

    ghost invariant = { λ a. IsGroup a.rows a.states.items };
}

impl Accumulator {
    /// A group of no row, for calls over rows of these types. More than 2^20 calls are answered with want of
    /// memory.
    pub fn new(alloc: Global, calls: &[Call], types: &[SqlType]) -> Result<Accumulator, Memory>
        requires { IsTrue (are_allowed types.now calls.now) }
        ensures { IfOk result (λ a. a ≡ empty_group types.now calls.now) }
    {
        if MOST_CALLS < calls.len() {
            return Err(Memory);
        }
        Ok(Accumulator {
            alloc,
            rows: 0,
            states: empty_states(alloc, types, calls)?,
        })
    }

    /// Whether the group can take a row. It can take each whose values have the types.
    pub fn takes<C: Cells>(&self, cells: &C) -> bool
        ensures { result ≡ takes_row self.now.calls self.now.kinds (C.values cells.now) }
    {
        take_row(&self.states, cells)
    }

    /// Takes one more row. Where memory is wanting the group is as it was.
    pub fn add<C: Cells>(&mut self, cells: &C) -> Result<(), Memory>
        requires { IsTrue (takes_row self.old.calls self.old.kinds (C.values cells.now)) }
        ensures ok { OnOk result (self.new ≡ with_row self.old (C.values cells.now)) }
        ensures err { OnErr result (self.new ≡ self.old) }
        ensures same { (self.new.calls ≡ self.old.calls) × (self.new.kinds ≡ self.old.kinds) }
    {
        let rows = (self.rows + 1).min(MOST_ROWS + 1);
        if MOST_ROWS < rows {
            self.rows = rows;
            return Ok(());
        }
        let firsts = firsts_of_row(self.alloc, &self.states, cells)?;
        self.rows = rows;
        add_each(&mut self.states, cells, firsts);
        Ok(())
    }

    /// Takes one more row where it can: where its numbers have the types, and memory does not want. Else the group has
    /// as many rows as no group may.
    pub fn take<C: Cells>(&mut self, cells: &C) -> Result<(), Memory>
        ensures ok { OnOk result (self.new ≡ with_row self.old (C.values cells.now)) }
        ensures same { (self.new.calls ≡ self.old.calls) × (self.new.kinds ≡ self.old.kinds) }
    {
        let rows = self.rows;
        self.rows = MOST_ROWS + 1;
        if MOST_ROWS <= rows {
            return Ok(());
        }
        if !take_each(self.alloc, &mut self.states, cells) {
            return Err(Memory);
        }
        self.rows = rows + 1;
        Ok(())
    }

    /// Whether what a row has from a column on is a partial row that the group can take. It is asked of cells
    /// that have the types of such a row; `part` gives no others.
    pub fn takes_part<C: Cells>(&self, cells: &C, first: u32) -> bool
        requires { first ≤ 2 ^ 31 }
        ensures { result ≡ is_partial self.now.calls self.now.kinds (drop first (C.values cells.now)) }
    {
        let count = cells.cell(first);
        if !is_row_count(count) {
            return false;
        }
        let rows = row_count(count);
        if rows <= MOST_ROWS {
            return begin_each(&self.states, rows, cells, first + 1);
        }
        are_each_null(&self.states, cells, first + 1)
    }

    /// Takes the rows of another part of the group, by their partial row. Where memory is wanting the group is as it
    /// was.
    pub fn merge(&mut self, part: &Row) -> Result<(), Memory>
        requires { IsTrue (is_partial self.old.calls self.old.kinds part.now) }
        ensures ok { OnOk result (self.new ≡ with_part self.old part.now) }
        ensures err { OnErr result (self.new ≡ self.old) }
        ensures same { (self.new.calls ≡ self.old.calls) × (self.new.kinds ≡ self.old.kinds) }
    {
        self.merge_cells(part, 0)
    }

    /// The same, for what a row has from a column on.
    pub fn merge_cells<C: Cells>(&mut self, cells: &C, first: u32) -> Result<(), Memory>
        requires near { first ≤ 2 ^ 31 }
        requires takes { IsTrue (is_partial self.old.calls self.old.kinds (drop first (C.values cells.now))) }
        ensures ok { OnOk result (self.new ≡ with_part self.old (drop first (C.values cells.now))) }
        ensures err { OnErr result (self.new ≡ self.old) }
        ensures same { (self.new.calls ≡ self.old.calls) × (self.new.kinds ≡ self.old.kinds) }
    {
        let more = row_count(cells.cell(first));
        let rows = self.rows.saturating_add(more).min(MOST_ROWS + 1);
        if MOST_ROWS < rows {
            self.rows = rows;
            return Ok(());
        }
        let firsts = firsts_of_part(self.alloc, &self.states, cells, first + 1)?;
        self.rows = rows;
        merge_each(&mut self.states, cells, first + 1, firsts);
        Ok(())
    }

    /// The group's partial row.
    pub fn part(&self) -> Result<Row, Memory>
        ensures { IfOk result (λ r. r ≡ self.now.partial) }
    {
        let mut values = Vec::new(self.alloc);
        values.push(Value::Decimal(i128::from(self.rows)))?;
        if MOST_ROWS < self.rows {
            push_all_nulls(&self.states, &mut values)?;
            return Ok(Row::of(values));
        }
        push_all_columns(self.alloc, &self.states, &mut values)?;
        Ok(Row::of(values))
    }

    /// Puts the group's partial row behind the first cells of a row. A cell that is not of its column's type is
    /// answered as want of memory.
    pub fn put_part(&self, rows: &mut ColumnRows) -> Result<(), Memory>
        ensures { OnOk result (rows.new ≡ record rows.old { begun = rows.old.begun ++ self.now.partial }) }
    {
        put_cell(rows, ValueRef::Decimal(i128::from(self.rows)))?;
        if MOST_ROWS < self.rows {
            return put_all_nulls(&self.states, rows);
        }
        put_all_columns(&self.states, rows)
    }

    /// Puts a NULL in place of each column of the calls into a row.
    pub(crate) fn put_nulls(&self, rows: &mut ColumnRows) -> Result<(), Memory>
        ensures { OnOk result (rows.new ≡ record rows.old {
          begun = rows.old.begun ++ replicate (sum_by call_width self.now.calls) value_is.Null;
        }) }
    {
        put_all_nulls(&self.states, rows)
    }

    /// The law that another group of these calls can take the group's partial row.
    pub fn part_fits(&self)
        ensures { IsTrue (is_partial self.now.calls self.now.kinds self.now.partial) }
    {
        let _ = &self.alloc;
    }

    /// The law that the partial row of no row adds nothing.
    pub fn none_adds_nothing(&self)
        ensures { with_part self.now (partial_of self.now.calls []) ≡ self.now }
    {
        let _ = &self.alloc;
    }

    /// The law of which rows a group took: none at first, and then those that it had and the row, or the rows of
    /// the part.
    pub fn rows_are_taken(&self, types: &[SqlType], rows: &RowList, row: &Row, others: &RowList)
        requires { HasTaken self.now rows.now }
        ensures none { HasTaken (empty_group types.now self.now.calls) [] }
        ensures row { HasTaken (with_row self.now row.now) (rows.now ++ row.now ∷ []) }
        ensures part { HasTaken (with_part self.now (partial_of self.now.calls others.now)) (rows.now ++ others.now) }
    {}

    /// The law that the results of a group that took these rows are the aggregates of the rows.
    pub fn results_are_aggregates(&self, types: &[SqlType], rows: &RowList)
        requires { HasTaken self.now rows.now }
        ensures { results_from types.now self.now.calls self.now.partial ≡ aggregates_of types.now self.now.calls rows.now }
    {}

    /// The results of the calls over the group's rows as a whole.
    pub fn result(&self) -> Result<Row, EvalFault>
        ensures { (types : List SqlType) → self.now.kinds ≡ map (kind_in types) self.now.calls →
            Answers (results_from types self.now.calls self.now.partial) result }
    {
        match all_results(self.alloc, &self.states, self.rows) {
            Ok(values) => Ok(Row::of(values)),
            Err(fault) => Err(fault),
        }
    }
}

/// Whether a value is a number of rows, up to one more than a group may have.
fn is_row_count(value: ValueRef<'_>) -> bool
    ensures { result ≡ is_row_count_value (lent_value value.entry) }
{
    match value {
        ValueRef::Decimal(rows) => { 0 <= rows && rows.unsigned_abs() <= 9_223_372_036_854_775_808 }
        _ => false,
    }
}

/// How many rows a partial row stands for.
pub fn row_count(value: ValueRef<'_>) -> u64
    requires { IsTrue (is_row_count_value (lent_value value)) }
    ensures number { result ≡ nat_abs (number_in (lent_value value.entry)) }
    ensures few { result ≤ 2 ^ 63 }
{
    match value {
        ValueRef::Decimal(rows) => rows.unsigned_abs() as u64,
        _ => 0,
    }
}
