ghost use Rattle.std.specs.Prelude.{◌≡◌, ◌<◌, ◌≤◌, ◌++◌, [], true, false, length, IfOk, OnOk, OnErr};
ghost use Rattle.col_pages.specs.Pages.{most_rows};
ghost use Rattle.operator_core.specs.Samples.{has_row};
ghost use Rattle.col_pages.specs.Fits.{AllFit, IsOfTypes};
ghost use Rattle.topn_sort.specs.Sorting.{AreTop, BeganRows, IsCutTo, IsGiven, IsKeptOrLost, IsNextPage, last_row, rows_ahead_of};

use crate::in_order::in_order;
use crate::places::{places_before, sorted_places};
use col_pages::Page;
use column_moves::join_rows;
use sql_values::{ColumnRows, KeySpec, Memory, SqlType};
use std::alloc::Global;
use std::marker::Model;
use std::mem;

/// Rows in typed columns: first they are taken in, then they are put in the order of keys and given in pages.
#[derive(Drop)]
pub struct SortBuffer {
    alloc: Global,
    keys: Vec<KeySpec>,
    page: u32,
    /// In their order, once the output has begun.
    rows: ColumnRows,
    /// How many of them were given.
    given: usize,
    has_begun: bool,
}

impl Model for SortBuffer {
    ghost use Rattle.std.specs.Prelude.{drop};
    ghost use Rattle.topn_sort.specs.Sorting.{BufferState, IsBuffer};

    ghost Value = { BufferState };

    ghost view = { λ b. record {
      keys = b.keys.items;
      types = b.rows.types;
      page = b.page;
      rows = drop b.given b.rows.rows;
      begun = b.has_begun;
    } };

    ghost invariant = { λ b. IsBuffer b.rows b.given b.page b.has_begun };
}

impl SortBuffer {
    /// No rows, of these types, to be given in pages of at most `page` rows.
    pub fn new(
        alloc: Global,
        keys: Vec<KeySpec>,
        types: &[SqlType],
        page: u32,
    ) -> Result<SortBuffer, Memory>
        requires some { 0 < length types.now }
        requires page { (0 < page) × (page ≤ most_rows) }
        ensures { IfOk result (λ b. b ≡ record { keys = keys.items; types = types.now; page = page; rows = []; begun = false }) }
    {
        Ok(SortBuffer {
            alloc,
            keys,
            page,
            rows: ColumnRows::new(alloc, types)?,
            given: 0,
            has_begun: false,
        })
    }

    pub fn types_of_rows(&self) -> &[SqlType]
        ensures { result.now ≡ self.now.types }
    {
        self.rows.types()
    }

    /// How many rows there are, before the output has begun.
    pub fn len(&self) -> usize
        requires { self.now.begun ≡ false }
        ensures { result ≡ length self.now.rows }
    {
        self.rows.len()
    }

    /// Whether it has a row to be given, once the output begins.
    pub fn holds_row(&self) -> bool
        ensures { result ≡ has_row self.now.rows }
    {
        self.given < self.rows.len()
    }

    /// The rows of a page as columns.
    pub fn columns_of(&self, page: Page) -> Result<ColumnRows, Memory>
        requires { IsOfTypes self.now.types page }
        ensures rows { IfOk result
            (λ r. r ≡ record { types = self.now.types; rows = page.rows; begun = [] }) }
        ensures fit { IfOk result (λ r. AllFit r.types r.rows) }
    {
        let types = Vec::from_slice(self.alloc, page.types())?;
        Ok(ColumnRows::of_columns(types, page.into_blocks()))
    }

    /// Takes the rows out, so that they can be changed without a copy.
    fn take_rows(&mut self) -> Result<ColumnRows, Memory>
        requires { self.old.begun ≡ false }
        ensures ok { OnOk result (self.new ≡ record self.old { rows = [] }) }
        ensures rows { IfOk result (λ r. r ≡ record { types = self.old.types; rows = self.old.rows; begun = [] }) }
        ensures fit { IfOk result (λ r. AllFit r.types r.rows) }
        ensures err { OnErr result (self.new ≡ self.old) }
    {
        let empty = ColumnRows::new(self.alloc, self.rows.types())?;
        Ok(mem::replace(&mut self.rows, empty))
    }

    /// Puts rows into its place where it has none.
    fn put_rows(&mut self, rows: ColumnRows)
        requires begun { self.old.begun ≡ false }
        requires types { rows.types ≡ self.old.types }
        requires whole { rows.begun ≡ [] }
        requires fit { AllFit rows.types rows.rows }
        ensures { self.new ≡ record self.old { rows = rows.rows } }
    {
        self.rows = rows;
    }

    /// Takes rows in. Where memory does not suffice, none may be left.
    pub fn add(&mut self, rows: ColumnRows) -> Result<(), Memory>
        requires begun { self.old.begun ≡ false }
        requires types { rows.types ≡ self.old.types }
        requires whole { rows.begun ≡ [] }
        requires fit { AllFit rows.types rows.rows }
        ensures same { self.new ≡ record self.old { rows = self.new.rows } }
        ensures ok { OnOk result (self.new.rows ≡ self.old.rows ++ rows.rows) }
    {
        let held = self.take_rows()?;
        let all = join_rows(self.alloc, held, rows)?;
        self.put_rows(all);
        Ok(())
    }

    /// Takes rows in, and keeps of all only the first `count` in the order of the keys. Where memory does not
    /// suffice, none may be left.
    pub fn add_first(&mut self, rows: ColumnRows, count: u32) -> Result<(), Memory>
        requires some { 0 < count }
        requires begun { self.old.begun ≡ false }
        requires types { rows.types ≡ self.old.types }
        requires whole { rows.begun ≡ [] }
        requires fit { AllFit rows.types rows.rows }
        ensures same { self.new ≡ record self.old { rows = self.new.rows } }
        ensures ok { OnOk result
            (IsCutTo self.old.keys count (self.old.rows ++ rows.rows) self.new.rows) }
        ensures top { AreTop self.old.keys count self.old.rows
            → AreTop self.old.keys count self.new.rows }
    {
        let held = self.take_rows()?;
        let all = join_rows(self.alloc, held, rows)?;
        let kept = self.cut(all, count)?;
        self.put_rows(kept);
        Ok(())
    }

    /// Cuts rows to the first `count` in the order of the keys, and puts these in order, where they are as many.
    fn cut(&self, rows: ColumnRows, count: u32) -> Result<ColumnRows, Memory>
        requires whole { rows.begun ≡ [] }
        requires fit { AllFit rows.types rows.rows }
        ensures same { IfOk result (λ r. (r.types ≡ rows.types) × (r.begun ≡ [])) }
        ensures fit { IfOk result (λ r. AllFit r.types r.rows) }
        ensures cut { IfOk result (λ r. IsCutTo self.now.keys count rows.rows r.rows) }
        ensures top { IfOk result (λ r. AreTop self.now.keys count r.rows) }
    {
        if rows.len() < count as usize {
            return Ok(rows);
        }
        let mut order = sorted_places(self.alloc, &self.keys, &rows)?;
        order.truncate(count as usize);
        let first = rows.select(self.alloc, &order)?;
        Ok(first)
    }

    /// Of some rows those that stand before its last one.
    pub fn before_last(&self, rows: ColumnRows) -> Result<ColumnRows, Memory>
        requires begun { self.now.begun ≡ false }
        requires some { 0 < length self.now.rows }
        requires few { length rows.rows ≤ most_rows }
        ensures { IfOk result (λ r. r ≡ record {
          types = rows.types;
          rows = rows_ahead_of self.now.keys (last_row self.now.rows) rows.rows;
          begun = [];
        }) }
    {
        let last = self.rows.len() - 1;
        let places = places_before(self.alloc, &self.keys, &rows, &self.rows, last)?;
        rows.select(self.alloc, &places)
    }

    /// Puts the rows in the order of the keys, unless that was done before. From then on pages share the rows' cells.
    /// Where memory does not suffice, none may be left.
    fn begin(&mut self) -> Result<(), Memory>
        ensures same { self.new ≡ record self.old { rows = self.new.rows; begun = self.new.begun } }
        ensures ok { OnOk result (self.new.begun ≡ true) }
        ensures order { OnOk result
            (BeganRows self.old.begun self.old.keys self.old.rows self.new.rows) }
        ensures err { OnErr result (IsKeptOrLost self.old self.new) }
    {
        if self.has_begun {
            return Ok(());
        }
        let order = sorted_places(self.alloc, &self.keys, &self.rows)?;
        let rows = self.take_rows()?;
        self.has_begun = true;
        self.rows = in_order(self.alloc, rows, &order)?;
        Ok(())
    }

    /// Gives the next page of the rows in their order, where there is one.
    pub fn give(&mut self) -> Result<Option<Page>, Memory>
        ensures same { self.new ≡ record self.old { rows = self.new.rows; begun = self.new.begun } }
        ensures fewer { length self.new.rows ≤ length self.old.rows }
        ensures idle { self.new.begun ≡ false → self.new ≡ self.old }
        ensures page { IfOk result (λ o. IsGiven self.old o self.new) }
        ensures done { self.old.rows ≡ [] → self.new.rows ≡ [] }
    {
        if !self.holds_row() {
            return Ok(None);
        }
        self.begin()?;
        Ok(Some(self.next_page()?))
    }

    /// Gives the next page.
    fn next_page(&mut self) -> Result<Page, Memory>
        requires begun { self.old.begun ≡ true }
        requires some { 0 < length self.old.rows }
        ensures same { self.new ≡ record self.old { rows = self.new.rows } }
        ensures page { IfOk result (λ p. IsNextPage self.old p self.new) }
        ensures err { OnErr result (self.new ≡ self.old) }
    {
        let high = self.given + (self.rows.len() - self.given).min(self.page as usize);
        let rows = self.rows.cut(self.alloc, self.given, high)?;
        self.given = high;
        Ok(Page::of_columns(rows))
    }
}
