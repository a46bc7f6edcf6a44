ghost use Rattle.std.specs.Prelude.{◌≡◌, ◌-◌, ◌<◌, ◌≤◌, ◌↔◌, [], length, take, drop, map, option_map, slice_get, slice_index_or, Some, IsSome, IsTrue, IfOk, IfSome, All};
ghost use Rattle.columns.specs.Present.{gather};
ghost use Rattle.sql_values.specs.Buckets.{GoOnBy};
ghost use Rattle.sql_values.specs.Cells.{cell, cut, lent_value};
ghost use Rattle.sql_values.specs.ColumnRows.{rows_of, kinds_of, common_length, AreFilled, fits_row};
ghost use Rattle.col_pages.specs.Pages.{most_rows, blocks_of};

use sql_values::{Block, ColumnRows, Memory, Row, RowList, SqlType, ValueRef};
use std::alloc::Global;
use std::marker::Model;

/// The most rows that a page has.
pub const MOST_ROWS: u32 = 8192;

/// At most `MOST_ROWS` rows of some types, in columns.
#[derive(Drop)]
pub struct Page {
    held: ColumnRows,
}

impl Model for Page {
    ghost use Rattle.col_pages.specs.Pages.{TypedPage};

    ghost Value = { TypedPage };

    ghost use Rattle.col_pages.specs.Pages.{page_of, IsPage};

    ghost view = { λ p. page_of p.held };

    ghost invariant = { λ p. IsPage p.held };
}

impl Page {
    /// The page of these rows, without a copy; a row that is only begun is forgotten.
    pub fn of_columns(mut held: ColumnRows) -> Page
        requires { length held.rows ≤ most_rows }
        ensures { result ≡ record { types = held.types; rows = held.rows } }
    {
        held.forget_begun();
        Page { held }
    }

    /// Joins columns of these types and of one length, without taking memory.
    pub fn of_blocks(types: Vec<SqlType>, blocks: Vec<Block>) -> Page
        requires some { 0 < length blocks.items }
        requires kinds { kinds_of blocks.items ≡ types.items }
        requires level { AreFilled (common_length blocks.items) 0 blocks.items }
        requires few { common_length blocks.items ≤ most_rows }
        ensures { result ≡ record {
          types = types.items;
          rows = rows_of (common_length blocks.items) blocks.items;
        } }
    {
        Page::of_columns(ColumnRows::of_columns(types, blocks))
    }

    /// The columns, without taking memory.
    pub fn into_blocks(self) -> Vec<Block>
        ensures kinds { kinds_of result.items ≡ self.types }
        ensures level { AreFilled (length self.rows) 0 result.items }
        ensures rows { rows_of (length self.rows) result.items ≡ self.rows }
    {
        self.held.into_columns()
    }

    /// Cuts columns out of a list of rows, from one row up to, and without, another.
    pub fn of_rows(
        alloc: Global,
        rows: &RowList,
        types: &[SqlType],
        columns: &[u32],
        low: usize,
        high: usize,
    ) -> Result<Page, Memory>
        requires some { 0 < length types.now }
        requires beside { length types.now ≡ length columns.now }
        requires order { low ≤ high }
        requires within { high ≤ length rows.now }
        requires few { high - low ≤ most_rows }
        requires fits { All (λ row. IsTrue (fits_row types.now (cut columns.now row))) rows.now }
        ensures { IfOk result (λ p. p ≡ record {
          types = types.now;
          rows = map (cut columns.now) (take (high - low) (drop low rows.now));
        }) }
    {
        let blocks = blocks(alloc, rows, types, columns, low, high)?;
        Ok(Page::of_blocks(Vec::from_slice(alloc, types)?, blocks))
    }

    /// How many rows there are.
    pub fn len(&self) -> u32
        ensures len { result ≡ length self.now.rows }
        ensures few { result ≤ most_rows }
    {
        self.held.len() as u32
    }

    pub fn is_empty(&self) -> bool
        ensures { IsTrue result ↔ (self.now.rows ≡ []) }
    {
        self.len() == 0
    }

    pub fn types(&self) -> &[SqlType]
        ensures types { result.now ≡ self.now.types }
        ensures some { 0 < length self.now.types }
    {
        self.held.types()
    }

    /// The law that each row has a value of each type, or NULL.
    pub fn rows_fit(&self)
        ensures { All (λ row. IsTrue (fits_row self.now.types row)) self.now.rows }
    {
        self.held.rows_fit();
    }

    /// The value in a column of the row at a place.
    pub fn cell(&self, row: u32, column: u32) -> ValueRef<'_>
        requires { row < length self.now.rows }
        ensures { lent_value result ≡ cell (slice_index_or self.now.rows row []) column }
    {
        self.held.cell(row as usize, column)
    }

    /// Goes on in each bucket hash by the value that the row at its place has in a column: NULL past the last column.
    pub fn hash_column(&self, column: u32, hashes: &mut [u64])
        requires { length hashes.old ≡ length self.now.rows }
        ensures { GoOnBy (λ k. cell (slice_index_or self.now.rows k []) column) hashes.old hashes.new }
    {
        self.held.hash_column(column, hashes);
    }

    /// A column, where one stands there.
    pub fn block(&self, column: u32) -> Option<&Block>
        ensures there { option_map (λ b. b.now.kind) result ≡ slice_get self.now.types column }
        ensures cells { IfSome result (λ b. b.now.cells ≡ map (λ row. cell row column) self.now.rows) }
    {
        self.held.block(column)
    }

    /// A copy of a column, or none where no column of that type stands there.
    pub fn column(&self, alloc: Global, kind: SqlType, column: u32) -> Result<Option<Block>, Memory>
        ensures there { IfOk result
            (λ found. IsSome found ↔ (slice_get self.now.types column ≡ Some kind)) }
        ensures cells { IfOk result (λ found. IfSome found
            (λ b. b ≡ record { kind = kind; cells = map (λ row. cell row column) self.now.rows })) }
    {
        let count = self.held.len();
        self.held.column(alloc, kind, column, 0, count)
    }

    /// A copy of the row at a place.
    pub fn row(&self, alloc: Global, at: u32) -> Result<Row, Memory>
        requires { at < length self.now.rows }
        ensures { IfOk result (λ r. r ≡ slice_index_or self.now.rows at []) }
    {
        self.held.row(alloc, at as usize)
    }

    pub fn copy(&self, alloc: Global) -> Result<Page, Memory>
        ensures { IfOk result (λ p. p ≡ self.now) }
    {
        self.slice(alloc, 0, self.len())
    }

    /// The rows at the places, in the places' order.
    pub fn select(&self, alloc: Global, positions: &[u32]) -> Result<Page, Memory>
        requires within { All (λ p. p < length self.now.rows) positions.now }
        requires few { length positions.now ≤ most_rows }
        ensures { IfOk result (λ p.
            p ≡ record self.now { rows = gather self.now.rows [] positions.now }) }
    {
        Ok(Page {
            held: self.held.select(alloc, positions)?,
        })
    }

    /// The same rows, with each plain column as a dictionary: what is selected from it shares its cells.
    pub fn into_dictionaries(self, alloc: Global) -> Result<Page, Memory>
        ensures { IfOk result (λ p. p ≡ self) }
    {
        Ok(Page {
            held: self.held.into_dictionaries(alloc)?,
        })
    }

    /// The rows from one place up to, and without, another.
    pub fn slice(&self, alloc: Global, from: u32, to: u32) -> Result<Page, Memory>
        requires order { from ≤ to }
        requires within { to ≤ length self.now.rows }
        ensures { IfOk result (λ p.
            p ≡ record self.now { rows = take (to - from) (drop from self.now.rows) }) }
    {
        Ok(Page {
            held: self.held.cut(alloc, from as usize, to as usize)?,
        })
    }
}

/// The columns; one whose cells are all the same is a run.
fn blocks(
    alloc: Global,
    rows: &RowList,
    types: &[SqlType],
    columns: &[u32],
    low: usize,
    high: usize,
) -> Result<Vec<Block>, Memory>
    requires beside { length types.now ≡ length columns.now }
    requires order { low ≤ high }
    requires within { high ≤ length rows.now }
    requires fits { All (λ row. IsTrue (fits_row types.now (cut columns.now row))) rows.now }
    ensures { IfOk result (λ v. v.items
        ≡ blocks_of types.now columns.now (take (high - low) (drop low rows.now))) }
{
    let mut blocks = Vec::with_capacity(alloc, columns.len())?;
    for (place, column) in columns.iter().enumerate() {
        let block = rows.block(alloc, types[place], *column, low, high)?;
        blocks.push(block.into_run())?;
    }
    Ok(blocks)
}
