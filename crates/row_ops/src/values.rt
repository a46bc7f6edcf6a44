ghost use Rattle.std.specs.Prelude.{◌≡◌, ◌<◌, ◌≤◌, ◌↔◌, ◌++◌, ℕ, List, true, false, length, IfOk, IsOk, OnErr};
ghost use Rattle.std.specs.List.{range_with_len};
ghost use Rattle.sql_values.specs.declared.fail.Fail.{Fail as Kind};
ghost use Rattle.col_pages.specs.Pages.{TypedPage, most_rows};
ghost use Rattle.operator_core.specs.Rows.{Row};
ghost use Rattle.operator_core.specs.Calls.{IsFresh};
ghost use Rattle.col_pages.specs.Fits.{AllFit, IsOfTypes};
ghost use Rattle.row_ops.specs.ValueRows.{rows_to_give};

use blocked::{Bells, BlockedOn};
use col_pages::Page;
use operator_core::{OpFault, Operator};
use sql_values::{Memory, RowList, SqlType};
use std::alloc::Global;
use std::marker::Model;
use std::sync::Wait;
use std::thread::Threads;

/// Gives rows of its own, in pages. It needs no input, and makes nothing of pages that come.
#[derive(Drop)]
pub struct ValuesOp {
    alloc: Global,
    rows: RowList,
    types: Vec<SqlType>,
    page: u32,
    /// How many rows were given.
    given: usize,
    is_told: bool,
}

impl Model for ValuesOp {
    ghost use Rattle.row_ops.specs.ValueRows.{ValuesState, IsValues};

    ghost Value = { ValuesState };

    ghost view = { λ s. record { rows = s.rows; types = s.types.items; page = s.page; given = s.given; is_told = s.is_told } };

    ghost invariant = { λ s. IsValues (record { rows = s.rows; types = s.types.items; page = s.page; given = s.given; is_told = s.is_told }) };
}

impl ValuesOp {
    /// That of rows of these types, in pages of at most `page` rows.
    pub fn new(alloc: Global, rows: RowList, types: Vec<SqlType>, page: u32) -> ValuesOp
        requires some { 0 < length types.items }
        requires fit { AllFit types.items rows }
        requires page { (0 < page) × (page ≤ most_rows) }
        ensures fresh { IsFresh ⟦<ValuesOp as Operator>⟧ result }
        ensures gives { (X B : List Row)
            → ⟦<ValuesOp as Operator>⟧.may_give result X B ↔ (B ≡ rows) }
        ensures fails { (X : List Row) (node : ℕ) (kind : Kind)
            → ⟦<ValuesOp as Operator>⟧.may_still_fail result X node kind → ⊥ }
        ensures takes { (page : TypedPage) → ⟦<ValuesOp as Operator>⟧.takes result page }
        ensures full { ⟦<ValuesOp as Operator>⟧.is_full result ≡ true }
        ensures size { ⟦<ValuesOp as Operator>⟧.page_size result ≡ page }
        ensures late { ⟦<ValuesOp as Operator>⟧.gives_late result ≡ false }
        ensures waits { ⟦<ValuesOp as Operator>⟧.waits result ≡ false }
        ensures knows { ⟦<ValuesOp as Operator>⟧.knows result ≡ true }
        ensures learns { (m : _) → ⟦<ValuesOp as Operator>⟧.may_learn result m → ⊥ }
    {
        ValuesOp {
            alloc,
            rows,
            types,
            page,
            given: 0,
            is_told: false,
        }
    }

    /// Cuts the next page out of the rows. More columns than a `u32` counts are `Memory`.
    fn next_page(&mut self) -> Result<Page, Memory>
        requires { self.old.given < length self.old.rows }
        ensures same { self.new ≡ record self.old { given = self.new.given } }
        ensures rows { IfOk result (λ p. rows_to_give self.old ≡ p.rows ++ rows_to_give self.new) }
        ensures of { IfOk result (λ p. IsOfTypes self.old.types p) }
        ensures size { IfOk result
            (λ p. (0 < length p.rows) × (length p.rows ≤ self.old.page)) }
        ensures err { OnErr result (self.new ≡ self.old) }
    {
        let high = self.given + (self.rows.len() - self.given).min(self.page as usize);
        let columns = all_places(self.alloc, &self.types)?;
        let page = Page::of_rows(
            self.alloc,
            &self.rows,
            &self.types,
            &columns,
            self.given,
            high,
        )?;
        self.given = high;
        Ok(page)
    }
}

/// The places of the columns of these types. More than a `u32` counts are `Memory`.
fn all_places(alloc: Global, types: &[SqlType]) -> Result<Vec<u32>, Memory>
    ensures { IfOk result (λ v. v.items ≡ range_with_len 0 (length types.now)) }
{
    if types.len() > u32::MAX as usize {
        return Err(Memory);
    }
    let mut places = Vec::with_capacity(alloc, types.len())?;
    for place in 0..types.len() as u32 {
        places.push(place)?;
    }
    Ok(places)
}

impl Operator for ValuesOp {
    ghost use Rattle.std.specs.Prelude.{◌≡◌, true, false, not, ◌&&◌, nat_lt, length, refl};
    ghost use Rattle.operator_core.specs.LawGroups.{no_note};
    ghost use Rattle.row_ops.specs.ValueRows.{rows_to_give};
    ghost use Rattle.row_ops.specs.ValueLaws.{values-rest, values-finished};

    ghost may_give = { λ s _ B. B ≡ rows_to_give s };

    ghost may_still_fail = { λ _ _ _ _. ⊥ };

    ghost takes = { λ _ _. Unit {0} };

    ghost page_size = { λ s. s.page };

    ghost is_full = { λ _. true };

    ghost gives_late = { λ _. false };

    ghost needs_input = { λ _. false };

    ghost holds_row = { λ s. nat_lt s.given (length s.rows) };

    ghost is_told = { λ s. s.is_told };

    ghost is_finished = { λ s. s.is_told && not (nat_lt s.given (length s.rows)) };

    ghost as_made = { λ s. record s { given = 0; is_told = false } };

    fn needs_input(&self) -> bool {
        false
    }

    /// Drops the page. That it needs none is no condition here.
    fn add_input(&mut self, _page: Page) -> Result<(), OpFault>
        ensures ok { IsOk result }
        ensures same { self.new ≡ self.old }
    {
        Ok(())
    }

    fn get_output(&mut self) -> Result<Option<Page>, OpFault> {
        if self.given < self.rows.len() {
            return Ok(Some(self.next_page()?));
        }
        Ok(None)
    }

    fn finish(&mut self) {
        self.is_told = true;
    }

    fn is_finished(&self) -> bool {
        self.is_told && !(self.given < self.rows.len())
    }

    fn blocked<R: Threads + Wait + Sync, B: Bells>(
        &mut self,
        _rt: &R,
        _bells: &mut B,
    ) -> Result<Option<BlockedOn>, Memory> {
        Ok(None)
    }

    ghost some_rows = { λ s X coming. (_, refl) };

    ghost holds_rest = { λ s B _ e. values-rest s.given s.rows B e };

    ghost late_holds_none = { λ s late told. Prim.cc };

    ghost finished = { λ s. values-finished s.is_told (nat_lt s.given (length s.rows)) };

    ghost needs_untold = { λ s needs. Prim.cc };

    ghost full = { record {
      full_needs_none = λ s full. refl;
      full_gives = λ s X B full. ((λ e. e), (λ e. e));
      full_fails = λ s X node kind full. ((λ e. e), (λ e. e));
    } };

    ghost needs = { λ s told held _ wanted. Prim.cc };

    ghost made_untold = { λ s. refl };

    ghost made_again = { λ s. refl };

    ghost note = { no_note };
}
