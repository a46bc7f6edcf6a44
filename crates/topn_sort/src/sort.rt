ghost use Rattle.std.specs.Prelude.{◌≡◌, ◌<◌, ◌≤◌, length, IfOk};
ghost use Rattle.col_pages.specs.Pages.{most_rows};
ghost use Rattle.relation_laws.specs.Sorts.{IsSortOf};
ghost use Rattle.operator_core.specs.Lates.{IsLate, NoFailure};

use crate::buffer::SortBuffer;
use col_pages::Page;
use operator_core::{Kernel, Late, OpFault, Operator};
use sql_values::{KeySpec, Memory, SqlType};
use std::alloc::Global;

/// Gives all rows in the order of keys, once `finish` was called.
pub type SortOp = Late<SortBuffer>;

/// The sort of rows of these types, in pages of at most `page` rows.
pub fn sort_op(
    alloc: Global,
    keys: Vec<KeySpec>,
    types: Vec<SqlType>,
    page: u32,
) -> Result<SortOp, Memory>
    requires some { 0 < length types.items }
    requires page { (0 < page) × (page ≤ most_rows) }
    ensures { IfOk result (λ op. IsLate ⟦<Late<SortBuffer> as Operator>⟧ op
        (IsSortOf keys.items) NoFailure types.items page) }
{
    Ok(Late::new(SortBuffer::new(alloc, keys, &types, page)?))
}

impl Kernel for SortBuffer {
    ghost use Rattle.std.specs.Prelude.{[], false, not, refl};
    ghost use Rattle.operator_core.specs.Samples.{has_row};
    ghost use Rattle.topn_sort.specs.Sorting.{SortGives};
    ghost use Rattle.topn_sort.specs.SortingLaws.{held-done, sort-some, sort-rest};

    ghost may_give = { λ s X B. SortGives s.begun s.keys s.rows X B };

    ghost may_fail = { λ _ _ _ _. ⊥ };

    ghost pages = { λ s. record { takes = s.types; size = s.page } };

    ghost holds_row = { λ s. has_row s.rows };

    ghost is_done = { λ s. not (has_row s.rows) };

    ghost has_begun = { λ s. s.begun };

    ghost as_made = { λ s. record s { rows = []; begun = false } };

    fn types(&self) -> &[SqlType] {
        self.types_of_rows()
    }

    fn take_in(&mut self, page: Page) -> Result<(), Memory> {
        let rows = self.columns_of(page)?;
        self.add(rows)
    }

    fn give_out(&mut self) -> Result<Option<Page>, OpFault> {
        Ok(self.give()?)
    }

    fn is_done(&self) -> bool {
        !self.holds_row()
    }

    ghost some_rows = { λ s X. sort-some s.begun s.keys s.rows X };

    ghost holds_rest = { λ s B g. sort-rest s.begun s.keys s.rows B g };

    ghost done = { λ s. held-done (has_row s.rows) };

    ghost made_again = { λ s. refl };
}
