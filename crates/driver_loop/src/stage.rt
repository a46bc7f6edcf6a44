//! The steps of a pipeline, one variant each.
ghost use Rattle.std.specs.Prelude.{◌≡◌, true, IsTrue};
ghost use Rattle.std.specs.List.{list_all};
ghost use Rattle.aggregation.specs.Finals.{layout_in};
ghost use Rattle.aggregation.specs.Layouts.{is_layout_row};

use aggregation::{FinalAgg, PartialAgg, SingleAgg};
use blocked::{Bells, BlockedOn};
use col_pages::Page;
use dyn_filter::FilterOp;
use hash_join::ProbeOp;
use operator_core::{OpFault, Operator};
use plan_trees::are_same;
use row_ops::{FilterProject, LimitOp};
use sql_values::{Memory, Types};
use stage_moves::TypedOperator;
use std::sync::Wait;
use std::thread::Threads;
use topn_sort::{SortOp, TopNOp};

/// A step of a pipeline. It behaves as its operator does. Where the operator does not keep the types of the
/// rows that it is given, they stand beside it.
#[derive(Drop)]
pub enum Stage<'w> {
    Filter(FilterProject),
    Limit(LimitOp, Types),
    Sort(SortOp),
    TopN(TopNOp),
    Single(SingleAgg),
    Partial(PartialAgg),
    Final(FinalAgg),
    Probe(ProbeOp<'w>, Types),
    /// Drops rows without a partner in a join above.
    Dynamic(FilterOp<'w>, Types),
}

impl<'w> Operator for Stage<'w> {
    ghost use Rattle.operator_core.specs.LawGroups.{never_full};
    ghost use Rattle.driver_loop.specs.Operators.{stage_ghosts};
    ghost use Rattle.driver_loop.specs.StageLaws.{laws_of, learns_of};

    ghost may_give = { stage_ghosts.may_give };

    ghost may_still_fail = { stage_ghosts.may_still_fail };

    ghost takes = { stage_ghosts.takes };

    ghost page_size = { stage_ghosts.page_size };

    ghost gives_late = { stage_ghosts.gives_late };

    ghost needs_input = { stage_ghosts.needs_input };

    ghost holds_row = { stage_ghosts.holds_row };

    ghost is_told = { stage_ghosts.is_told };

    ghost is_finished = { stage_ghosts.is_finished };

    ghost waits = { stage_ghosts.waits };

    ghost bell = { stage_ghosts.bell };

    ghost knows = { stage_ghosts.knows };

    ghost empty_looks = { stage_ghosts.empty_looks };

    ghost looked_at = { stage_ghosts.looked_at };

    ghost went = { stage_ghosts.went };

    ghost counted = { stage_ghosts.counted };

    ghost as_made = { stage_ghosts.as_made };

    ghost may_learn = { stage_ghosts.may_learn };

    fn needs_input(&self) -> bool {
        match self {
            Stage::Filter(op) => op.needs_input(),
            Stage::Limit(op, _) => op.needs_input(),
            Stage::Sort(op) => op.needs_input(),
            Stage::TopN(op) => op.needs_input(),
            Stage::Single(op) => op.needs_input(),
            Stage::Partial(op) => op.needs_input(),
            Stage::Final(op) => op.needs_input(),
            Stage::Probe(op, _) => op.needs_input(),
            Stage::Dynamic(op, _) => op.needs_input(),
        }
    }

    fn add_input(&mut self, page: Page) -> Result<(), OpFault> {
        match self {
            Stage::Filter(op) => op.add_input(page),
            Stage::Limit(op, _) => op.add_input(page),
            Stage::Sort(op) => op.add_input(page),
            Stage::TopN(op) => op.add_input(page),
            Stage::Single(op) => op.add_input(page),
            Stage::Partial(op) => op.add_input(page),
            Stage::Final(op) => op.add_input(page),
            Stage::Probe(op, _) => op.add_input(page),
            Stage::Dynamic(op, _) => op.add_input(page),
        }
    }

    fn get_output(&mut self) -> Result<Option<Page>, OpFault> {
        match self {
            Stage::Filter(op) => op.get_output(),
            Stage::Limit(op, _) => op.get_output(),
            Stage::Sort(op) => op.get_output(),
            Stage::TopN(op) => op.get_output(),
            Stage::Single(op) => op.get_output(),
            Stage::Partial(op) => op.get_output(),
            Stage::Final(op) => op.get_output(),
            Stage::Probe(op, _) => op.get_output(),
            Stage::Dynamic(op, _) => op.get_output(),
        }
    }

    fn finish(&mut self) {
        match self {
            Stage::Filter(op) => op.finish(),
            Stage::Limit(op, _) => op.finish(),
            Stage::Sort(op) => op.finish(),
            Stage::TopN(op) => op.finish(),
            Stage::Single(op) => op.finish(),
            Stage::Partial(op) => op.finish(),
            Stage::Final(op) => op.finish(),
            Stage::Probe(op, _) => op.finish(),
            Stage::Dynamic(op, _) => op.finish(),
        }
    }

    fn is_finished(&self) -> bool {
        match self {
            Stage::Filter(op) => op.is_finished(),
            Stage::Limit(op, _) => op.is_finished(),
            Stage::Sort(op) => op.is_finished(),
            Stage::TopN(op) => op.is_finished(),
            Stage::Single(op) => op.is_finished(),
            Stage::Partial(op) => op.is_finished(),
            Stage::Final(op) => op.is_finished(),
            Stage::Probe(op, _) => op.is_finished(),
            Stage::Dynamic(op, _) => op.is_finished(),
        }
    }

    fn blocked<R: Threads + Wait + Sync, B: Bells>(
        &mut self,
        rt: &R,
        bells: &mut B,
    ) -> Result<Option<BlockedOn>, Memory> {
        match self {
            Stage::Filter(op) => op.blocked(rt, bells),
            Stage::Limit(op, _) => op.blocked(rt, bells),
            Stage::Sort(op) => op.blocked(rt, bells),
            Stage::TopN(op) => op.blocked(rt, bells),
            Stage::Single(op) => op.blocked(rt, bells),
            Stage::Partial(op) => op.blocked(rt, bells),
            Stage::Final(op) => op.blocked(rt, bells),
            Stage::Probe(op, _) => op.blocked(rt, bells),
            Stage::Dynamic(op, _) => op.blocked(rt, bells),
        }
    }

    ghost some_rows = { λ t. (laws_of t).some_rows };

    ghost holds_rest = { λ t. (laws_of t).holds_rest };

    ghost late_holds_none = { λ t. (laws_of t).late_holds_none };

    ghost finished = { λ t. (laws_of t).finished };

    ghost needs_untold = { λ t. (laws_of t).needs_untold };

    ghost full = { never_full };

    ghost needs = { λ t. (laws_of t).needs };

    ghost made_untold = { λ t. (laws_of t).made_untold };

    ghost made_again = { λ t. (learns_of t).made_again };

    ghost note = { record {
      waiting_needs_none = λ t. (laws_of t).waiting_needs_none;
      waiting_went = λ t. (laws_of t).waiting_went;
      made_knows = λ t. (laws_of t).made_knows;
      made_went = λ t. (laws_of t).made_went;
      made_counted = λ t. (laws_of t).made_counted;
      learns_as_made = λ t. (learns_of t).learns_as_made;
      learns_made = λ t. (learns_of t).learns_made;
      any_note = λ t. (learns_of t).any_note;
    } };
}

impl<'w> TypedOperator for Stage<'w> {
    fn expects(&self, page: &Page) -> bool {
        page.rows_fit();
        match self {
            Stage::Filter(op) => are_same(page.types(), op.types()),
            Stage::Limit(_, types) => are_same(page.types(), types.as_slice()),
            Stage::Sort(op) => are_same(page.types(), op.types()),
            Stage::TopN(op) => are_same(page.types(), op.types()),
            Stage::Single(op) => are_same(page.types(), op.types()),
            Stage::Partial(op) => are_same(page.types(), op.types()),
            Stage::Final(op) => is_of_layout(op, page),
            Stage::Probe(_, types) => are_same(page.types(), types.as_slice()),
            Stage::Dynamic(_, types) => are_same(page.types(), types.as_slice()),
        }
    }
}

/// Whether a page has the layout of the rows between the halves of an aggregate: its types, and a partial row behind each
/// key.
fn is_of_layout(op: &FinalAgg, page: &Page) -> bool
    ensures types { result ≡ true → page.now.types ≡ op.now.kernel.taken }
    ensures rows { result ≡ true
        → IsTrue (list_all (is_layout_row (layout_in op.now.kernel)) page.now.rows) }
{
    are_same(page.types(), op.types()) && op.kernel().is_layout(page)
}
