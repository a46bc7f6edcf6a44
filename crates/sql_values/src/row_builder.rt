ghost use Rattle.std.specs.Prelude.{◌≡◌, ◌<◌, ◌≤◌, [], ◌∷◌, ◌++◌, length, if◌then◌else◌, ◌↔◌, IsTrue, IfOk, OnErr};
ghost use Rattle.sql_values.specs.Cells.{lent_value};
ghost use Rattle.sql_values.specs.Blocks.{offered};
ghost use Rattle.sql_values.specs.ColumnRows.{fits_at};

use crate::column_rows::ColumnRows;
use crate::memory::Memory;
use crate::row_list::RowList;
use crate::types::SqlType;
use crate::value::ValueRef;
use std::alloc::Global;
use std::marker::Model;

/// Makes a list of rows cell by cell, with no row between.
#[derive(Drop)]
pub struct RowBuilder {
    alloc: Global,
    held: ColumnRows,
}

impl Model for RowBuilder {
    ghost use Rattle.sql_values.specs.ColumnRows.{TypedRows};

    ghost Value = { TypedRows };

    ghost view = { λ b. b.held };
}

impl RowBuilder {
    /// No rows yet, of some types.
    pub fn new(alloc: Global, types: &[SqlType]) -> Result<RowBuilder, Memory>
        requires { 0 < length types.now }
        ensures { IfOk result (λ b. b ≡ record { types = types.now; rows = []; begun = [] }) }
    {
        Ok(RowBuilder {
            alloc,
            held: ColumnRows::new(alloc, types)?,
        })
    }

    /// How many rows were ended.
    pub fn len(&self) -> usize
        ensures { result ≡ length self.now.rows }
    {
        self.held.len()
    }

    /// Puts the next cell of the row that is begun, or answers false where that row is full or the
    /// value has not the type of its column.
    pub fn put(&mut self, value: ValueRef<'_>) -> Result<bool, Memory>
        ensures fits { IfOk result (λ taken.
            taken ≡ fits_at self.old.types (length self.old.begun) (lent_value value.entry)) }
        ensures ok { IfOk result (λ taken. self.new ≡ record self.old {
          begun = offered taken self.old.begun (lent_value value.entry);
        }) }
        ensures err { OnErr result (self.new ≡ self.old) }
    {
        self.held.put(value)
    }

    /// Ends the row that is begun, or answers false where cells are wanting.
    pub fn end_row(&mut self) -> bool
        ensures full { IsTrue result ↔ (length self.old.types ≤ length self.old.begun) }
        ensures ok { self.new ≡ (if result
            then record self.old { rows = self.old.rows ++ self.old.begun ∷ []; begun = [] }
            else self.old) }
    {
        self.held.end_row()
    }

    /// The rows that were ended.
    pub fn finish(self) -> RowList
        ensures { result ≡ self.rows }
    {
        RowList::of_columns(self.alloc, self.held)
    }
}
