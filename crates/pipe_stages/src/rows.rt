//! Stages that look at rows one by one.
ghost use Rattle.std.specs.Prelude.{◌≡◌, ◌<◌, map, length, IfOk};
ghost use Rattle.sql_exprs.specs.Forms.{form_view};
ghost use Rattle.sql_exprs.specs.Meaning.{kind_of};
ghost use Rattle.page_processor.specs.Typed.{AllTyped, IsTyped};
ghost use Rattle.plan_run_laws.specs.Stages.{filter, project};
ghost use Rattle.stage_meanings.specs.Pipelines.{at_node};
ghost use Rattle.driver_net_laws.specs.Stages.{IsStageOf};

use driver_loop::Stage;
use operator_core::Operator;
use plan_reader::copy_exprs;
use sql_exprs::{Expr, copy_expr};
use sql_values::{Memory, SqlType};
use stage_meanings::{filter_of, project_of};
use std::alloc::Global;

/// A filter of rows of these types. More columns than 32 bits count are answered with want of memory.
pub(crate) fn filter_stage<'w>(
    alloc: Global,
    id: u32,
    predicate: &Expr,
    between: &[SqlType],
) -> Result<Stage<'w>, Memory>
    requires some { 0 < length between.now }
    requires typed { IsTyped between.now (form_view predicate.now) }
    ensures is { IfOk result (IsStageOf
        (at_node id (filter between.now (form_view predicate.now))) between.now between.now) }
    ensures fresh { IfOk result (λ stage. ⟦<Stage<'w> as Operator>⟧.as_made stage ≡ stage) }
{
    if u32::try_from(between.len()).is_err() {
        return Err(Memory);
    }
    let types = Vec::from_slice(alloc, between)?;
    let predicate = copy_expr(alloc, predicate)?;
    Ok(Stage::Filter(filter_of(alloc, id, types, predicate)?))
}

/// A project of rows of these types.
pub(crate) fn project_stage<'w>(
    alloc: Global,
    id: u32,
    columns: &[Expr],
    between: &[SqlType],
) -> Result<Stage<'w>, Memory>
    requires some { 0 < length columns.now }
    requires typed { AllTyped between.now (map form_view columns.now) }
    ensures is { IfOk result (IsStageOf
        (at_node id (project between.now (map form_view columns.now))) between.now
        (map (kind_of between.now) (map form_view columns.now))) }
    ensures fresh { IfOk result (λ stage. ⟦<Stage<'w> as Operator>⟧.as_made stage ≡ stage) }
{
    let types = Vec::from_slice(alloc, between)?;
    let columns = copy_exprs(alloc, columns)?;
    Ok(Stage::Filter(project_of(alloc, id, types, columns)))
}
