//! Stages that put rows in order, or leave some out.
ghost use Rattle.std.specs.Prelude.{◌≡◌, ◌<◌, ◌≤◌, ℕ, length, IfOk};
ghost use Rattle.plan_trees.specs.Steps.{limit, sort, topn};
ghost use Rattle.plan_run_laws.specs.Stages.{does};
ghost use Rattle.stage_meanings.specs.Pipelines.{at_node};
ghost use Rattle.driver_net_laws.specs.Stages.{IsStageOf};

use driver_loop::Stage;
use operator_core::Operator;
use row_ops::LimitOp;
use sql_values::{KeySpec, Memory, SqlType, Types};
use std::alloc::Global;
use topn_sort::{sort_op, topn_op};

/// A sort of rows of these types.
pub(crate) fn sort_stage<'w>(
    alloc: Global,
    keys: &[KeySpec],
    between: &[SqlType],
    page: u32,
) -> Result<Stage<'w>, Memory>
    requires some { 0 < length between.now }
    requires page { (0 < page) × (page ≤ 8192) }
    ensures is { IfOk result (λ stage. (id : ℕ)
        → IsStageOf (at_node id (does between.now (sort keys.now))) between.now between.now stage) }
    ensures fresh { IfOk result (λ stage. ⟦<Stage<'w> as Operator>⟧.as_made stage ≡ stage) }
{
    let types = Vec::from_slice(alloc, between)?;
    let keys = Vec::from_slice(alloc, keys)?;
    Ok(Stage::Sort(sort_op(alloc, keys, types, page)?))
}

/// The first so many of rows of these types, in order.
pub(crate) fn topn_stage<'w>(
    alloc: Global,
    count: u32,
    keys: &[KeySpec],
    between: &[SqlType],
    page: u32,
) -> Result<Stage<'w>, Memory>
    requires some { 0 < length between.now }
    requires page { (0 < page) × (page ≤ 8192) }
    ensures is { IfOk result (λ stage. (id : ℕ)
        → IsStageOf (at_node id (does between.now (topn count keys.now))) between.now between.now stage) }
    ensures fresh { IfOk result (λ stage. ⟦<Stage<'w> as Operator>⟧.as_made stage ≡ stage) }
{
    let types = Vec::from_slice(alloc, between)?;
    let keys = Vec::from_slice(alloc, keys)?;
    Ok(Stage::TopN(topn_op(alloc, count, keys, types, page)?))
}

/// So many of rows of these types.
pub(crate) fn limit_stage<'w>(
    alloc: Global,
    count: u32,
    between: &[SqlType],
) -> Result<Stage<'w>, Memory>
    ensures is { IfOk result (λ stage. (id : ℕ)
        → IsStageOf (at_node id (does between.now (limit count))) between.now between.now stage) }
    ensures fresh { IfOk result (λ stage. ⟦<Stage<'w> as Operator>⟧.as_made stage ≡ stage) }
{
    let types = Types::of(Vec::from_slice(alloc, between)?);
    Ok(Stage::Limit(LimitOp::new(alloc, count), types))
}
