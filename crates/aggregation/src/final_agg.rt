ghost use Rattle.std.specs.Prelude.{◌≡◌, ◌<◌, ◌≤◌, ◌+◌, ℕ, List, [], flat_map, length, Contains, IfOk, IsTrue};
ghost use Rattle.std.specs.List.{list_all, range_with_len};
ghost use Rattle.sql_values.specs.Bags.{SameBag};
ghost use Rattle.col_pages.specs.Pages.{most_rows};
ghost use Rattle.relation_laws.specs.Verdicts.{fails, kept};
ghost use Rattle.bag_laws.specs.Pieces.{finals_of};
ghost use Rattle.operator_core.specs.Lates.{IsLate};
ghost use Rattle.accumulators.specs.Limits.{are_allowed};
ghost use Rattle.aggregation.specs.Finals.{layout_in};
ghost use Rattle.aggregation.specs.Layouts.{is_layout_row};
ghost use Rattle.plan_trees.specs.Layouts.{layout_types};

use crate::group_rows::GroupRows;
use crate::table::first_behind;
use accumulators::Accumulator;
use col_pages::Page;
use operator_core::{Kernel, Late, OpFault, Operator};
use plan_trees::{append_call_types, layout_of};
use sql_exprs::PageRow;
use sql_values::{Call, Memory, SqlType, Types};
use std::alloc::Global;
use std::marker::Model;

/// Takes rows of keys and partial rows, and gives a row for each group, its key and the results of the calls
/// over all rows of the group, once `finish` was called.
pub type FinalAgg = Late<FinalGroups>;

/// The second half of an aggregate, of groups by first columns of the types `keys`, of calls that were made over
/// rows of the types `types`. More than 2^31 keys are answered with want of memory.
pub fn final_op(
    alloc: Global,
    node: u32,
    keys: Vec<SqlType>,
    calls: Vec<Call>,
    types: Vec<SqlType>,
    page: u32,
) -> Result<FinalAgg, Memory>
    requires allowed { IsTrue (are_allowed types.items calls.items) }
    requires some { 0 < length keys.items + length calls.items }
    requires page { (0 < page) × (page ≤ most_rows) }
    ensures late { IfOk result (λ op. IsLate ⟦<Late<FinalGroups> as Operator>⟧ op
        (λ X B. SameBag (flat_map kept (finals_of types.items (length keys.items) calls.items X)) B)
        (λ X n kind. (n ≡ node)
        × Contains (finals_of types.items (length keys.items) calls.items X) (fails kind))
        (layout_types keys.items types.items calls.items) page) }
    ensures layout { IfOk result (λ op. layout_in op.kernel
        ≡ record { width = length keys.items; types = types.items; calls = calls.items }) }
{
    let width = first_behind(keys.len())?;
    let taken = layout_of(alloc, &keys, &types, &calls)?;
    let columns = first_columns(alloc, width)?;
    let mut given = Types::of(keys);
    append_call_types(&mut given, &types, &calls)?;
    let part = Accumulator::new(alloc, &calls, &types)?;
    let groups = GroupRows::new(alloc, columns, calls, types, given.as_slice(), page)?;
    Ok(Late::new(FinalGroups {
        node,
        groups,
        part,
        width,
        taken,
    }))
}

/// Groups of keys and partial rows, of which the results are given.
#[derive(Drop)]
pub struct FinalGroups {
    node: u32,
    groups: GroupRows,
    /// A group of no row.
    part: Accumulator,
    /// How many key columns there are.
    width: u32,
    /// The types of the rows that it takes.
    taken: Types,
}

impl Model for FinalGroups {
    ghost use Rattle.aggregation.specs.Finals.{FinalState, IsFinal};

    ghost Value = { FinalState };

    ghost view = { λ f. record { node = f.node; groups = f.groups; taken = f.taken } };

    ghost invariant = { λ f. IsFinal f.width f.part f.taken f.groups };
}

impl FinalGroups {
    /// Whether each row of a page has a partial row behind its key. It is asked of pages that have the layout's
    /// types.
    pub fn is_layout(&self, page: &Page) -> bool
        ensures { result ≡ list_all (is_layout_row (layout_in self.now)) page.now.rows }
    {
        for position in 0..page.len() {
            if !self
                .part
                .takes_part(&PageRow { page, position }, self.width)
            {
                return false;
            }
        }
        true
    }
}

/// The first columns of rows, so many.
fn first_columns(alloc: Global, count: u32) -> Result<Vec<u32>, Memory>
    ensures { IfOk result (λ v. v.items ≡ range_with_len 0 count) }
{
    let mut columns = Vec::with_capacity(alloc, count as usize)?;
    for column in 0..count {
        columns.push(column)?;
    }
    Ok(columns)
}

impl Kernel for FinalGroups {
    ghost use Rattle.std.specs.Prelude.{[], refl};
    ghost use Rattle.operator_core.specs.Samples.{has_row};
    ghost use Rattle.aggregation.specs.Giving.{GroupsFail, GroupsGive, groups_made, is_over, to_give, merged_with};
    ghost use Rattle.aggregation.specs.GivingLaws.{groups-some, groups-rest, single-done};

    ghost may_give = { λ s X B. GroupsGive s.groups.begun s.groups.left.rows (merged_with s.groups.table X) B };

    ghost may_fail = { λ s X node kind. GroupsFail s.groups.begun s.node (merged_with s.groups.table X) node kind };

    ghost pages = { λ s. record { takes = s.taken; size = s.groups.left.page } };

    ghost holds_row = { λ s.
        has_row (to_give s.groups.begun s.groups.left.rows (merged_with s.groups.table [])) };

    ghost is_done = { λ s. is_over s.groups (merged_with s.groups.table []) };

    ghost has_begun = { λ s. s.groups.begun };

    ghost as_made = { λ s. record s { groups = groups_made s.groups } };

    fn types(&self) -> &[SqlType] {
        self.taken.as_slice()
    }

    fn take_in(&mut self, page: Page) -> Result<(), Memory> {
        let _ = &self.part;
        self.groups.merge_page(&page)?;
        Ok(())
    }

    fn give_out(&mut self) -> Result<Option<Page>, OpFault> {
        self.groups.give_results(self.node)
    }

    fn is_done(&self) -> bool {
        !self.groups.has_more()
    }

    ghost some_rows = { λ s X. groups-some s.groups.begun s.groups.left.rows (merged_with s.groups.table X) };

    ghost holds_rest = { λ s. groups-rest s.groups.begun s.groups.left.rows (merged_with s.groups.table []) };

    ghost done = { λ s. single-done s.groups s.node };

    ghost made_again = { λ s. refl };
}
