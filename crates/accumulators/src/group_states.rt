ghost use Rattle.std.specs.Prelude.{◌≡◌, ◌≤◌, ◌<◌, ◌+◌, ◌^◌, ◌++◌, ◌∷◌, [], List, IfOk, IsTrue, OnErr, OnOk, drop, length, map, take};
ghost use Rattle.sql_values.specs.declared.types.SqlType.{SqlType};
ghost use Rattle.relation_laws.specs.Partials.{partial_of, results_from};
ghost use Rattle.accumulators.specs.Columns.{kind_in};
ghost use Rattle.accumulators.specs.GroupLists.{IsSameBut, group_at, no_groups, none_in};
ghost use Rattle.accumulators.specs.Groups.{Answers, with_part, with_row};
ghost use Rattle.accumulators.specs.Limits.{are_allowed, is_partial};

use crate::accumulator::{Accumulator, MOST_CALLS, row_count};
use crate::call_column::CallColumn;
use crate::call_columns::{
    begin_each_at, merge_each_at, no_columns, put_each_at, results_at, take_each_at,
};
use crate::limits::MOST_ROWS;
use crate::puts::put_row_count;
use sql_exprs::Cells;
use sql_values::{Call, ColumnRows, EvalFault, Memory, Row, SqlType};
use std::alloc::Global;
use std::marker::Model;

/// The most groups, so that 32 bits count them.
const MOST_GROUPS: usize = 4_294_967_295;

/// The states of groups of the same calls. A group has no memory of its own: how many rows it has and what it keeps
/// of each call are items of vectors that all groups share.
#[derive(Drop)]
pub struct GroupStates {
    alloc: Global,
    /// A group of no row.
    none: Accumulator,
    rows: Vec<u64>,
    columns: Vec<CallColumn>,
}

impl Model for GroupStates {
    ghost use Rattle.accumulators.specs.GroupLists.{AreGroups, GroupList, group_list};

    ghost Value = { GroupList };

    ghost view = { λ s. group_list s.rows.items s.columns.items };

    ghost invariant = { λ s. AreGroups s.none s.rows.items s.columns.items };
}

impl GroupStates {
    /// No group yet, for calls over rows of these types. More than 2^20 calls are answered with want of memory.
    pub fn new(alloc: Global, calls: &[Call], types: &[SqlType]) -> Result<GroupStates, Memory>
        requires { IsTrue (are_allowed types.now calls.now) }
        ensures { IfOk result (λ s. s ≡ no_groups types.now calls.now) }
    {
        let none = Accumulator::new(alloc, calls, types)?;
        if MOST_CALLS < calls.len() {
            return Err(Memory);
        }
        Ok(GroupStates {
            alloc,
            none,
            rows: Vec::new(alloc),
            columns: no_columns(alloc, types, calls)?,
        })
    }

    /// How many groups there are.
    pub fn len(&self) -> usize
        ensures { result ≡ length self.now.groups }
    {
        self.rows.len()
    }

    /// Forgets the groups from a place on.
    pub fn truncate(&mut self, place: usize)
        ensures { self.new ≡ record self.old { groups = take place self.old.groups } }
    {
        self.rows.truncate(place);
    }

    /// Begins a group of no row.
    pub fn push(&mut self) -> Result<(), Memory>
        ensures ok { OnOk result (self.new ≡ record self.old {
          groups = self.old.groups ++ none_in self.old ∷ [];
        }) }
        ensures err { OnErr result (self.new ≡ self.old) }
    {
        let place = self.rows.len();
        if MOST_GROUPS <= place {
            return Err(Memory);
        }
        begin_each_at(&mut self.columns, place)?;
        self.rows.push(0)?;
        Ok(())
    }

    /// Takes one more row into the group at a place where it can: where its numbers have the types, and memory does
    /// not want. Else that group has as many rows as no group may.
    pub fn take<C: Cells>(&mut self, place: usize, cells: &C) -> Result<(), Memory>
        requires { place < length self.old.groups }
        ensures ok { OnOk result (group_at self.new place ≡ with_row (group_at self.old place) (C.values cells.now)) }
        ensures same { IsSameBut place self.old self.new }
    {
        let rows = self.rows[place];
        if MOST_ROWS <= rows {
            self.rows[place] = MOST_ROWS + 1;
            return Ok(());
        }
        if !take_each_at(self.alloc, &mut self.columns, place, cells) {
            self.rows[place] = MOST_ROWS + 1;
            return Err(Memory);
        }
        self.rows[place] = rows + 1;
        Ok(())
    }

    /// Whether what a row has from a column on is a partial row that a group can take. It is asked of cells that have
    /// the types of such a row.
    pub fn takes_part<C: Cells>(&self, cells: &C, first: u32) -> bool
        requires { first ≤ 2 ^ 31 }
        ensures { result ≡ is_partial self.now.calls self.now.kinds (drop first (C.values cells.now)) }
    {
        self.none.takes_part(cells, first)
    }

    /// Merges what a row has from a column on, a partial row, into the group at a place. Where memory is wanting that
    /// group has as many rows as no group may.
    pub fn merge<C: Cells>(&mut self, place: usize, cells: &C, first: u32) -> Result<(), Memory>
        requires within { place < length self.old.groups }
        requires near { first ≤ 2 ^ 31 }
        requires takes { IsTrue (is_partial self.old.calls self.old.kinds (drop first (C.values cells.now))) }
        ensures ok { OnOk result (group_at self.new place ≡ with_part (group_at self.old place) (drop first (C.values cells.now))) }
        ensures same { IsSameBut place self.old self.new }
    {
        let more = row_count(cells.cell(first));
        let rows = self.rows[place].saturating_add(more).min(MOST_ROWS + 1);
        if MOST_ROWS < rows {
            self.rows[place] = rows;
            return Ok(());
        }
        match merge_each_at(self.alloc, &mut self.columns, place, cells, first + 1) {
            Ok(()) => {
                self.rows[place] = rows;
                Ok(())
            }
            Err(fault) => {
                self.rows[place] = MOST_ROWS + 1;
                Err(fault)
            }
        }
    }

    /// Puts the partial row of the group at a place behind the first cells of a row. A cell that is not of its
    /// column's type is answered as want of memory.
    pub fn put_part(&self, place: usize, rows: &mut ColumnRows) -> Result<(), Memory>
        requires { place < length self.now.groups }
        ensures { OnOk result (rows.new ≡ record rows.old { begun = rows.old.begun ++ (group_at self.now place).partial }) }
    {
        let count = self.rows[place];
        put_row_count(rows, count)?;
        if MOST_ROWS < count {
            return self.none.put_nulls(rows);
        }
        put_each_at(&self.columns, place, count, rows)
    }

    /// The results of the calls over the rows of the group at a place as a whole.
    pub fn result(&self, place: usize) -> Result<Row, EvalFault>
        requires { place < length self.now.groups }
        ensures { (types : List SqlType) → self.now.kinds ≡ map (kind_in types) self.now.calls →
            Answers (results_from types self.now.calls (group_at self.now place).partial) result }
    {
        match results_at(self.alloc, &self.columns, place, self.rows[place]) {
            Ok(values) => Ok(Row::of(values)),
            Err(fault) => Err(fault),
        }
    }

    /// The law that the partial row of no row adds nothing to the group at a place.
    pub fn none_adds_nothing(&self, place: usize)
        requires { place < length self.now.groups }
        ensures { with_part (group_at self.now place) (partial_of (group_at self.now place).calls []) ≡ group_at self.now place }
    {
        let _ = &self.alloc;
    }
}
