ghost use Rattle.std.specs.Prelude.{◌≡◌, ◌-◌, List, [], ◌∷◌, ◌++◌, ◌<◌, ◌≤◌, ◌↔◌, length, map, take, drop, slice_index_or, IsTrue, IfOk, OnOk, OnErr, All};
ghost use Rattle.sql_values.specs.Cells.{cell, lent_value};
ghost use Rattle.sql_values.specs.Blocks.{fits};

use crate::block::Block;
use crate::column_rows::ColumnRows;
use crate::memory::Memory;
use crate::row::Row;
use crate::types::SqlType;
use crate::value::ValueRef;
use std::alloc::Global;
use std::marker::Model;

/// A list of rows. It lends cells and never a row, so that it may keep columns.
#[derive(Drop)]
pub struct RowList {
    alloc: Global,
    kept: Kept,
}

/// Columns while each row has had their types; from the first that has not, rows.
#[derive(Drop)]
enum Kept {
    Columns(ColumnRows),
    Rows(Vec<Row>),
}

impl Model for RowList {
    ghost use Rattle.std.specs.Prelude.{List};
    ghost use Rattle.sql_values.specs.declared.value.Value.{Value as Cell};

    ghost Value = { List (List Cell) };

    ghost use Rattle.sql_values.specs.RowLists.{rows_kept};

    ghost view = { λ l. rows_kept l.kept };
}

fn cell_of(rows: &[Row], place: usize, column: u32) -> ValueRef<'_>
    requires { place < length rows.now }
    ensures { lent_value result ≡ cell (slice_index_or rows.now place []) column }
{
    rows[place].cell(column)
}

fn copy_of(alloc: Global, rows: &[Row], place: usize) -> Result<Row, Memory>
    requires { place < length rows.now }
    ensures { IfOk result (λ r. r ≡ slice_index_or rows.now place []) }
{
    rows[place].copy(alloc)
}

impl RowList {
    pub fn new(alloc: Global) -> RowList
        ensures { result ≡ [] }
    {
        RowList {
            alloc,
            kept: Kept::Rows(Vec::new(alloc)),
        }
    }

    /// No rows, with a column for each of the types. Any row may be pushed, but only those with a
    /// value of each type stay in the columns.
    pub fn of_types(alloc: Global, types: &[SqlType]) -> Result<RowList, Memory>
        ensures { IfOk result (λ l. l ≡ []) }
    {
        if types.is_empty() {
            return Ok(RowList::new(alloc));
        }
        Ok(RowList::of_columns(alloc, ColumnRows::new(alloc, types)?))
    }

    /// The rows of columns, without taking memory.
    pub fn of_columns(alloc: Global, columns: ColumnRows) -> RowList
        ensures { result ≡ columns.rows }
    {
        RowList {
            alloc,
            kept: Kept::Columns(columns),
        }
    }

    pub fn push(&mut self, row: Row) -> Result<(), Memory>
        ensures ok { OnOk result (self.new ≡ self.old ++ row ∷ []) }
        ensures err { OnErr result (self.new ≡ self.old) }
    {
        match &mut self.kept {
            Kept::Columns(columns) => {
                if columns.push(&row)? {
                    return Ok(());
                }
            }
            Kept::Rows(rows) => {
                rows.push(row)?;
                return Ok(());
            }
        }
        self.push_to_rows(row)
    }

    /// Appends a row after giving the columns up.
    fn push_to_rows(&mut self, row: Row) -> Result<(), Memory>
        ensures ok { OnOk result (self.new ≡ self.old ++ row ∷ []) }
        ensures err { OnErr result (self.new ≡ self.old) }
    {
        let mut rows = self.to_rows()?;
        rows.push(row)?;
        self.kept = Kept::Rows(rows);
        Ok(())
    }

    fn to_rows(&self) -> Result<Vec<Row>, Memory>
        ensures { IfOk result (λ rows. rows.items ≡ self.now) }
    {
        let mut rows = Vec::new(self.alloc);
        for place in 0..self.len() {
            rows.push(self.row(self.alloc, place)?)?;
        }
        Ok(rows)
    }

    /// How many rows there are.
    pub fn len(&self) -> usize
        ensures { result ≡ length self.now }
    {
        match &self.kept {
            Kept::Columns(columns) => columns.len(),
            Kept::Rows(rows) => rows.len(),
        }
    }

    pub fn is_empty(&self) -> bool
        ensures { IsTrue result ↔ (self.now ≡ []) }
    {
        self.len() == 0
    }

    /// The value in a column of the row at a place: NULL past the row's last column.
    pub fn cell(&self, place: usize, column: u32) -> ValueRef<'_>
        requires { place < length self.now }
        ensures { lent_value result ≡ cell (slice_index_or self.now place []) column }
    {
        match &self.kept {
            Kept::Columns(columns) => columns.cell(place, column),
            Kept::Rows(rows) => cell_of(rows.as_slice(), place, column),
        }
    }

    /// A copy of the row at a place.
    pub fn row(&self, alloc: Global, place: usize) -> Result<Row, Memory>
        requires { place < length self.now }
        ensures { IfOk result (λ r. r ≡ slice_index_or self.now place []) }
    {
        match &self.kept {
            Kept::Columns(columns) => columns.row(alloc, place),
            Kept::Rows(rows) => copy_of(alloc, rows.as_slice(), place),
        }
    }

    /// The cells of a column, from one row up to, and without, another: cut out of the columns
    /// where one of the type is kept, and else taken one by one.
    pub fn block(
        &self,
        alloc: Global,
        kind: SqlType,
        column: u32,
        low: usize,
        high: usize,
    ) -> Result<Block, Memory>
        requires order { low ≤ high }
        requires within { high ≤ length self.now }
        requires fits { All (λ row. IsTrue (fits kind (cell row column))) self.now }
        ensures { IfOk result (λ b. b ≡ record {
          kind = kind;
          cells = map (λ row. cell row column) (take (high - low) (drop low self.now));
        }) }
    {
        if let Kept::Columns(columns) = &self.kept {
            if let Some(block) = columns.column(alloc, kind, column, low, high)? {
                return Ok(block);
            }
        }
        self.gather(alloc, kind, column, low, high)
    }

    fn gather(
        &self,
        alloc: Global,
        kind: SqlType,
        column: u32,
        low: usize,
        high: usize,
    ) -> Result<Block, Memory>
        requires order { low ≤ high }
        requires within { high ≤ length self.now }
        requires fits { All (λ row. IsTrue (fits kind (cell row column))) self.now }
        ensures { IfOk result (λ b. b ≡ record {
          kind = kind;
          cells = map (λ row. cell row column) (take (high - low) (drop low self.now));
        }) }
    {
        let mut block = Block::new(alloc, kind);
        for place in low..high {
            block.push(self.cell(place, column))?;
        }
        Ok(block)
    }
}
