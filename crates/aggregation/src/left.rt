ghost use Rattle.std.specs.Prelude.{◌≡◌, ◌<◌, ◌≤◌, [], length, IfOk, OnErr};
ghost use Rattle.col_pages.specs.Pages.{most_rows};
ghost use Rattle.operator_core.specs.Samples.{has_row};
ghost use Rattle.aggregation.specs.Giving.{IsNextPage};

use col_pages::Page;
use sql_values::{ColumnRows, Memory, SqlType};
use std::alloc::Global;
use std::marker::Model;

/// Rows that are still to be given, in pages.
#[derive(Drop)]
pub struct LeftRows {
    alloc: Global,
    rows: ColumnRows,
    /// How many of these were given.
    given: usize,
    page: u32,
}

impl Model for LeftRows {
    ghost use Rattle.std.specs.Prelude.{drop};
    ghost use Rattle.aggregation.specs.Giving.{RowsLeft, AreLeft};

    ghost Value = { RowsLeft };

    ghost view = { λ l. record { types = l.rows.types; page = l.page; rows = drop l.given l.rows.rows } };

    ghost invariant = { λ l. AreLeft l.rows l.given l.page };
}

impl LeftRows {
    pub fn new(alloc: Global, rows: ColumnRows, page: u32) -> LeftRows
        requires whole { rows.begun ≡ [] }
        requires page { (0 < page) × (page ≤ most_rows) }
        ensures { result ≡ record { types = rows.types; page = page; rows = rows.rows } }
    {
        LeftRows {
            alloc,
            rows,
            given: 0,
            page,
        }
    }

    pub fn types(&self) -> &[SqlType]
        ensures { result.now ≡ self.now.types }
    {
        self.rows.types()
    }

    /// Rows of the same types in place of those that were left.
    pub fn fill(&mut self, rows: ColumnRows)
        requires types { rows.types ≡ self.old.types }
        requires whole { rows.begun ≡ [] }
        ensures { self.new ≡ record self.old { rows = rows.rows } }
    {
        self.rows = rows;
        self.given = 0;
    }

    pub fn holds_row(&self) -> bool
        ensures { result ≡ has_row self.now.rows }
    {
        self.given < self.rows.len()
    }

    /// Gives the next page.
    pub fn next_page(&mut self) -> Result<Page, Memory>
        requires some { 0 < length self.old.rows }
        ensures same { self.new ≡ record self.old { rows = self.new.rows } }
        ensures page { IfOk result (λ p. IsNextPage self.old p self.new) }
        ensures err { OnErr result (self.new ≡ self.old) }
    {
        self.rows.rows_fit();
        let high = self.given + (self.rows.len() - self.given).min(self.page as usize);
        let rows = self.rows.cut(self.alloc, self.given, high)?;
        self.given = high;
        Ok(Page::of_columns(rows))
    }
}
