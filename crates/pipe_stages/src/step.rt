//! The stage of a step.
ghost use Rattle.std.specs.Prelude.{◌≡◌, ◌<◌, ◌≤◌, IfOk};
ghost use Rattle.plan_layout.specs.Pipes.{step_view};
ghost use Rattle.driver_net_laws.specs.Makes.{StepFits};
ghost use Rattle.driver_net_laws.specs.Nets.{IsStageFor, NetForm};
ghost use Rattle.driver_net_laws.specs.Types.{types_after};
ghost use Rattle.pipe_stages.specs.Tables.{types_in};
ghost use Rattle.pipe_stages.specs.Cells.{HasCells};

use crate::PipeTypes;
use crate::cells::JoinCells;
use crate::groups::{final_stage, partial_stage, single_stage};
use crate::orders::{limit_stage, sort_stage, topn_stage};
use crate::probes::probe_stage;
use crate::rows::{filter_stage, project_stage};
use driver_loop::Stage;
use operator_core::Operator;
use plan_layout::PipeStep;
use sql_values::{Memory, SqlType};
use std::alloc::Global;

/// The stage of a step, in a task, over rows of some types. Pages have at most `page` rows. Where a cell is not there,
/// that is answered with want of memory.
pub(crate) fn stage_of<'w>(
    alloc: Global,
    table: &[PipeTypes],
    cells: &JoinCells<'w>,
    task: u32,
    halved: &[SqlType],
    step: PipeStep<'_>,
    between: &[SqlType],
    page: u32,
) -> Result<Stage<'w>, Memory>
    requires fits { StepFits halved.now (step_view step) between.now }
    requires page { (0 < page) × (page ≤ 8192) }
    ensures is { IfOk result (λ stage. (net : NetForm) → net.types ≡ types_in table.now
        → HasCells net.links cells.now → IsStageFor net task halved.now (step_view step.entry) between.now
        (types_after net.types halved.now (step_view step.entry) between.now) stage) }
    ensures fresh { IfOk result (λ stage. ⟦<Stage<'w> as Operator>⟧.as_made stage ≡ stage) }
{
    match step {
        PipeStep::Filter(id, predicate) => filter_stage(alloc, id, predicate, between),
        PipeStep::Project(id, columns) => project_stage(alloc, id, columns.as_slice(), between),
        PipeStep::Probe(_, kind, on, at) => match cells.get(at, task as usize) {
            Some(cell) => probe_stage(alloc, kind, on.as_slice(), cell, between, page),
            None => Err(Memory),
        },
        PipeStep::Aggregate(id, keys, calls) => single_stage(
            alloc,
            id,
            keys.as_slice(),
            calls.as_slice(),
            between,
            page,
        ),
        PipeStep::Partial(_, keys, calls) => partial_stage(
            alloc,
            keys.as_slice(),
            calls.as_slice(),
            between,
            page,
        ),
        PipeStep::Final(id, keys, calls) => final_stage(
            alloc,
            id,
            keys.as_slice(),
            calls.as_slice(),
            halved,
            page,
        ),
        PipeStep::Sort(_, keys) => sort_stage(alloc, keys.as_slice(), between, page),
        PipeStep::TopN(_, count, keys) => topn_stage(alloc, count, keys.as_slice(), between, page),
        PipeStep::Limit(_, count) => limit_stage(alloc, count, between),
    }
}
