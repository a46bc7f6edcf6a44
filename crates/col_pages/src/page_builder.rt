ghost use Rattle.std.specs.Prelude.{◌≡◌, ◌<◌, ◌≤◌, ◌↔◌, [], ◌∷◌, ◌++◌, length, if◌then◌else◌, IsTrue, IfOk, OnOk, OnErr};
ghost use Rattle.sql_values.specs.Cells.{lent_value};
ghost use Rattle.sql_values.specs.Blocks.{offered};
ghost use Rattle.sql_values.specs.ColumnRows.{fits_at, fits_row};
ghost use Rattle.col_pages.specs.Pages.{most_rows};

use crate::page::Page;
use sql_values::{ColumnRows, Memory, Row, SqlType, ValueRef};
use std::alloc::Global;
use std::marker::Model;
use std::mem;

/// Makes pages of at most `room` rows, row by row or cell by cell.
#[derive(Drop)]
pub struct PageBuilder {
    alloc: Global,
    held: ColumnRows,
    room: u32,
}

impl Model for PageBuilder {
    ghost use Rattle.col_pages.specs.Pages.{PageInMaking};

    ghost Value = { PageInMaking };

    ghost use Rattle.col_pages.specs.Pages.{in_making, HasRoom};

    ghost view = { λ b. in_making b.held b.room };

    ghost invariant = { λ b. HasRoom b.held b.room };
}

impl PageBuilder {
    pub fn new(alloc: Global, types: &[SqlType], room: u32) -> Result<PageBuilder, Memory>
        requires some { 0 < length types.now }
        requires room { room ≤ most_rows }
        ensures { IfOk result (λ b.
            b ≡ record { types = types.now; rows = []; begun = []; room = room }) }
    {
        Ok(PageBuilder {
            alloc,
            held: ColumnRows::new(alloc, types)?,
            room,
        })
    }

    /// Appends a row; one that was begun is forgotten.
    pub fn push_row(&mut self, row: &Row) -> Result<(), Memory>
        requires room { length self.old.rows < self.old.room }
        requires fits { IsTrue (fits_row self.old.types row.now) }
        ensures ok { OnOk result
            (self.new ≡ record self.old { rows = self.old.rows ++ row.now ∷ []; begun = [] }) }
        ensures err { OnErr result (self.new ≡ record self.old { begun = [] }) }
    {
        self.held.push(row)?;
        Ok(())
    }

    /// Puts the next cell of the row that is begun, or answers false where that row is full or the
    /// value has not the type of its column.
    pub fn put(&mut self, value: ValueRef<'_>) -> Result<bool, Memory>
        ensures fits { IfOk result (λ taken.
            taken ≡ fits_at self.old.types (length self.old.begun) (lent_value value.entry)) }
        ensures ok { IfOk result (λ taken. self.new ≡ record self.old {
          begun = offered taken self.old.begun (lent_value value.entry);
        }) }
        ensures err { OnErr result (self.new ≡ self.old) }
    {
        self.held.put(value)
    }

    /// Ends the row that is begun, or answers false where cells are wanting.
    pub fn end_row(&mut self) -> bool
        requires { length self.old.rows < self.old.room }
        ensures full { IsTrue result ↔ (length self.old.types ≤ length self.old.begun) }
        ensures ok { self.new ≡ (if result
            then record self.old { rows = self.old.rows ++ self.old.begun ∷ []; begun = [] }
            else self.old) }
    {
        self.held.end_row()
    }

    /// How many rows are held.
    pub fn len(&self) -> u32
        ensures len { result ≡ length self.now.rows }
        ensures room { result ≤ self.now.room }
    {
        self.held.len() as u32
    }

    pub fn is_empty(&self) -> bool
        ensures { IsTrue result ↔ (self.now.rows ≡ []) }
    {
        self.len() == 0
    }

    pub fn is_full(&self) -> bool
        ensures { IsTrue result ↔ (self.now.room ≤ length self.now.rows) }
    {
        self.len() >= self.room
    }

    /// Gives the rows as a page and leaves the builder empty.
    pub fn build(&mut self) -> Result<Page, Memory>
        ensures page { IfOk result (λ p.
            p ≡ record { types = self.old.types; rows = self.old.rows }) }
        ensures ok { OnOk result (self.new ≡ record self.old { rows = []; begun = [] }) }
        ensures err { OnErr result (self.new ≡ self.old) }
    {
        let empty = ColumnRows::new(self.alloc, self.held.types())?;
        Ok(Page::of_columns(mem::replace(&mut self.held, empty)))
    }
}
