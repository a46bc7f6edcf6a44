ghost use Rattle.std.specs.Prelude.{◌≡◌, ◌<◌, ◌≤◌, List, [], IfOk, IsTrue};
ghost use Rattle.sql_values.specs.Bags.{SameBag};
ghost use Rattle.col_pages.specs.Pages.{most_rows};
ghost use Rattle.bag_laws.specs.Pieces.{partials_of};
ghost use Rattle.operator_core.specs.Lates.{IsLate, NoFailure};
ghost use Rattle.accumulators.specs.Limits.{are_allowed};

use crate::group_rows::GroupRows;
use col_pages::Page;
use operator_core::{Kernel, Late, OpFault, Operator};
use plan_trees::partial_types;
use sql_values::{Call, Memory, SqlType};
use std::alloc::Global;

/// Gives a row for each group of the rows that came, its key and its partial row, once `finish`
/// was called.
pub type PartialAgg = Late<PartialGroups>;

/// The first half of an aggregate, of groups by these columns of rows of some types.
pub fn partial_op(
    alloc: Global,
    keys: Vec<u32>,
    calls: Vec<Call>,
    types: Vec<SqlType>,
    page: u32,
) -> Result<PartialAgg, Memory>
    requires allowed { IsTrue (are_allowed types.items calls.items) }
    requires page { (0 < page) × (page ≤ most_rows) }
    ensures { IfOk result (λ op. IsLate ⟦<Late<PartialGroups> as Operator>⟧ op
        (λ X B. SameBag (partials_of keys.items calls.items X) B) NoFailure types.items page) }
{
    let given = partial_types(alloc, &types, &keys, &calls)?;
    let groups = GroupRows::new(alloc, keys, calls, types, given.as_slice(), page)?;
    Ok(Late::new(PartialGroups { groups }))
}

/// Groups of rows, of which the partial rows are given.
#[derive(Drop)]
pub struct PartialGroups {
    groups: GroupRows,
}

impl Kernel for PartialGroups {
    ghost use Rattle.std.specs.Prelude.{[], refl};
    ghost use Rattle.operator_core.specs.Samples.{has_row};
    ghost use Rattle.aggregation.specs.Giving.{GroupsGive, groups_made, is_over, to_give, parts_with};
    ghost use Rattle.aggregation.specs.GivingLaws.{groups-some, groups-rest, partial-done};

    ghost may_give = { λ s X B. GroupsGive s.groups.begun s.groups.left.rows (parts_with s.groups.table X) B };

    ghost may_fail = { λ _ _ _ _. ⊥ };

    ghost pages = { λ s. record { takes = s.groups.table.types; size = s.groups.left.page } };

    ghost holds_row = { λ s.
        has_row (to_give s.groups.begun s.groups.left.rows (parts_with s.groups.table [])) };

    ghost is_done = { λ s. is_over s.groups (parts_with s.groups.table []) };

    ghost has_begun = { λ s. s.groups.begun };

    ghost as_made = { λ s. record s { groups = groups_made s.groups } };

    fn types(&self) -> &[SqlType] {
        self.groups.types()
    }

    fn take_in(&mut self, page: Page) -> Result<(), Memory> {
        self.groups.add_page(&page)?;
        Ok(())
    }

    fn give_out(&mut self) -> Result<Option<Page>, OpFault> {
        Ok(self.groups.give_parts()?)
    }

    fn is_done(&self) -> bool {
        !self.groups.has_more()
    }

    ghost some_rows = { λ s X. groups-some s.groups.begun s.groups.left.rows (parts_with s.groups.table X) };

    ghost holds_rest = { λ s. groups-rest s.groups.begun s.groups.left.rows (parts_with s.groups.table []) };

    ghost done = { λ s. partial-done s.groups };

    ghost made_again = { λ s. refl };
}
