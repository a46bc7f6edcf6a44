ghost use Rattle.std.specs.Prelude.{◌≡◌, ◌<◌, ◌≤◌, [], false, length, IfOk};
ghost use Rattle.col_pages.specs.Pages.{most_rows};
ghost use Rattle.bag_laws.specs.Firsts.{IsTopOf};
ghost use Rattle.operator_core.specs.Lates.{IsLate, NoFailure};
ghost use Rattle.col_pages.specs.Fits.{AllFit, IsOfTypes};
ghost use Rattle.topn_sort.specs.Sorting.{AreCandidates};

use crate::buffer::SortBuffer;
use col_pages::Page;
use operator_core::{Kernel, Late, OpFault, Operator};
use sql_values::{ColumnRows, KeySpec, Memory, SqlType};
use std::alloc::Global;
use std::marker::Model;

/// Gives the first rows in the order of keys, as many as its count, once `finish` was called.
pub type TopNOp = Late<TopRows>;

/// The first rows of those of these types, in pages of at most `page` rows.
pub fn topn_op(
    alloc: Global,
    count: u32,
    keys: Vec<KeySpec>,
    types: Vec<SqlType>,
    page: u32,
) -> Result<TopNOp, Memory>
    requires some { 0 < length types.items }
    requires page { (0 < page) × (page ≤ most_rows) }
    ensures { IfOk result (λ op. IsLate ⟦<Late<TopRows> as Operator>⟧ op
        (IsTopOf keys.items count) NoFailure types.items page) }
{
    let buffer = SortBuffer::new(alloc, keys, &types, page)?;
    Ok(Late::new(TopRows { count, buffer }))
}

/// The first rows in the order of keys, as many as the count. No more rows are held than these beside the page
/// that is taken in.
#[derive(Drop)]
pub struct TopRows {
    count: u32,
    buffer: SortBuffer,
}

impl Model for TopRows {
    ghost use Rattle.topn_sort.specs.Sorting.{TopState, IsTop};

    ghost Value = { TopState };

    ghost view = { λ s. record { count = s.count; buffer = s.buffer } };

    ghost invariant = { λ s. IsTop s.count s.buffer };
}

impl TopRows {
    /// The rows of a page, or where there are as many rows as are wanted those that stand before the last one.
    fn candidates(&self, page: Page) -> Result<ColumnRows, Memory>
        requires some { 0 < self.now.count }
        requires begun { self.now.buffer.begun ≡ false }
        requires fit { IsOfTypes self.now.buffer.types page }
        ensures types { IfOk result (λ r. (r.types ≡ self.now.buffer.types) × (r.begun ≡ [])) }
        ensures fit { IfOk result (λ r. AllFit r.types r.rows) }
        ensures rows { IfOk result (λ r.
            AreCandidates self.now.buffer.keys self.now.count self.now.buffer.rows page.rows r.rows) }
    {
        let rows = self.buffer.columns_of(page)?;
        if self.buffer.len() < self.count as usize {
            return Ok(rows);
        }
        let earlier = self.buffer.before_last(rows)?;
        Ok(earlier)
    }
}

impl Kernel for TopRows {
    ghost use Rattle.std.specs.Prelude.{[], false, not, refl};
    ghost use Rattle.operator_core.specs.Samples.{has_row};
    ghost use Rattle.topn_sort.specs.Sorting.{TopGives, top_rows};
    ghost use Rattle.topn_sort.specs.SortingLaws.{held-done, top-some, top-rest};

    ghost may_give = { λ s X B. TopGives s.buffer.begun s.buffer.keys s.count s.buffer.rows X B };

    ghost may_fail = { λ _ _ _ _. ⊥ };

    ghost pages = { λ s. record { takes = s.buffer.types; size = s.buffer.page } };

    ghost holds_row = { λ s. has_row (top_rows s.buffer.begun s.count s.buffer.rows) };

    ghost is_done = { λ s. not (has_row (top_rows s.buffer.begun s.count s.buffer.rows)) };

    ghost has_begun = { λ s. s.buffer.begun };

    ghost as_made = { λ s. record s { buffer = record s.buffer { rows = []; begun = false } } };

    fn types(&self) -> &[SqlType] {
        self.buffer.types_of_rows()
    }

    fn take_in(&mut self, page: Page) -> Result<(), Memory> {
        if self.count == 0 {
            return Ok(());
        }
        let rows = self.candidates(page)?;
        if rows.len() > 0 {
            self.buffer.add_first(rows, self.count)?;
        }
        Ok(())
    }

    fn give_out(&mut self) -> Result<Option<Page>, OpFault> {
        Ok(self.buffer.give()?)
    }

    fn is_done(&self) -> bool {
        !self.buffer.holds_row()
    }

    ghost some_rows = { λ s X. top-some s.buffer.begun s.buffer.keys s.count s.buffer.rows X };

    ghost holds_rest = { λ s B g.
        top-rest s.buffer.begun s.buffer.keys s.count s.buffer.rows B g };

    ghost done = { λ s. held-done (has_row (top_rows s.buffer.begun s.count s.buffer.rows)) };

    ghost made_again = { λ s. refl };
}
