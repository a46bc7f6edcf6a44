ghost use Rattle.std.specs.Prelude.{◌≡◌, ◌<◌, ◌≤◌, ◌+◌, ℕ, List, [], flat_map, length, Contains, IfOk, IsTrue};
ghost use Rattle.sql_values.specs.declared.fail.Fail.{Fail as Kind};
ghost use Rattle.sql_values.specs.Bags.{SameBag};
ghost use Rattle.col_pages.specs.Pages.{most_rows};
ghost use Rattle.relation_laws.specs.Verdicts.{fails, kept};
ghost use Rattle.relation_laws.specs.Groups.{groups_of};
ghost use Rattle.operator_core.specs.Rows.{Row};
ghost use Rattle.operator_core.specs.Lates.{IsLate};
ghost use Rattle.accumulators.specs.Limits.{are_allowed};

use crate::group_rows::GroupRows;
use col_pages::Page;
use operator_core::{Kernel, Late, OpFault, Operator};
use plan_trees::{append_call_types, append_key_types};
use sql_values::{Call, Memory, SqlType, Types};
use std::alloc::Global;

/// Gives a row for each group of the rows that came, its key and the results of the calls, once
/// `finish` was called.
pub type SingleAgg = Late<SingleGroups>;

/// The aggregate of groups by these columns of rows of some types.
pub fn single_op(
    alloc: Global,
    node: u32,
    keys: Vec<u32>,
    calls: Vec<Call>,
    types: Vec<SqlType>,
    page: u32,
) -> Result<SingleAgg, Memory>
    requires allowed { IsTrue (are_allowed types.items calls.items) }
    requires some { 0 < length keys.items + length calls.items }
    requires page { (0 < page) × (page ≤ most_rows) }
    ensures { IfOk result (λ op. IsLate ⟦<Late<SingleGroups> as Operator>⟧ op
        (λ X B. SameBag (flat_map kept (groups_of types.items keys.items calls.items X)) B)
        (λ X n kind. (n ≡ node)
        × Contains (groups_of types.items keys.items calls.items X) (fails kind))
        types.items page) }
{
    let mut given = Types::new(alloc);
    append_key_types(&mut given, &types, &keys)?;
    append_call_types(&mut given, &types, &calls)?;
    let groups = GroupRows::new(alloc, keys, calls, types, given.as_slice(), page)?;
    Ok(Late::new(SingleGroups { node, groups }))
}

/// Groups of rows, of which the results are given.
#[derive(Drop)]
pub struct SingleGroups {
    node: u32,
    groups: GroupRows,
}

impl Kernel for SingleGroups {
    ghost use Rattle.std.specs.Prelude.{[], refl};
    ghost use Rattle.operator_core.specs.Samples.{has_row};
    ghost use Rattle.aggregation.specs.Giving.{GroupsFail, GroupsGive, groups_made, is_over, to_give, verdicts_with};
    ghost use Rattle.aggregation.specs.GivingLaws.{groups-some, groups-rest, single-done};

    ghost may_give = { λ s X B. GroupsGive s.groups.begun s.groups.left.rows (verdicts_with s.groups.table X) B };

    ghost may_fail = { λ s X node kind. GroupsFail s.groups.begun s.node (verdicts_with s.groups.table X) node kind };

    ghost pages = { λ s. record { takes = s.groups.table.types; size = s.groups.left.page } };

    ghost holds_row = { λ s.
        has_row (to_give s.groups.begun s.groups.left.rows (verdicts_with s.groups.table [])) };

    ghost is_done = { λ s. is_over s.groups (verdicts_with s.groups.table []) };

    ghost has_begun = { λ s. s.groups.begun };

    ghost as_made = { λ s. record s { groups = groups_made s.groups } };

    fn types(&self) -> &[SqlType] {
        self.groups.types()
    }

    fn take_in(&mut self, page: Page) -> Result<(), Memory> {
        self.groups.add_page(&page)?;
        Ok(())
    }

    fn give_out(&mut self) -> Result<Option<Page>, OpFault> {
        self.groups.give_results(self.node)
    }

    fn is_done(&self) -> bool {
        !self.groups.has_more()
    }

    ghost some_rows = { λ s X. groups-some s.groups.begun s.groups.left.rows (verdicts_with s.groups.table X) };

    ghost holds_rest = { λ s. groups-rest s.groups.begun s.groups.left.rows (verdicts_with s.groups.table []) };

    ghost done = { λ s. single-done s.groups s.node };

    ghost made_again = { λ s. refl };
}
