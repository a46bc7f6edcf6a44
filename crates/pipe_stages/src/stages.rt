//! The stages of a driver.
ghost use Rattle.std.specs.Prelude.{◌≡◌, ◌<◌, ◌≤◌, map, IfOk};
ghost use Rattle.plan_layout.specs.Pipes.{step_view};
ghost use Rattle.driver_net_laws.specs.Makes.{StepsFit};
ghost use Rattle.driver_net_laws.specs.Nets.{AreStagesFor, NetForm};
ghost use Rattle.pipe_stages.specs.Tables.{types_in};
ghost use Rattle.pipe_stages.specs.Cells.{HasCells};

use crate::cells::JoinCells;
use crate::step::stage_of;
use crate::{PipeTypes, halved_at, taken_at, types_after};
use driver_loop::Stage;
use operator_core::Operator;
use plan_layout::PipeStep;
use plan_trees::copy_types;
use sql_values::Memory;
use std::alloc::Global;

/// The stages of the steps of the pipe at the place `own`, in a task, with pages of at most `page` rows.
pub fn stages_of<'w>(
    alloc: Global,
    table: &[PipeTypes],
    cells: &JoinCells<'w>,
    own: usize,
    task: u32,
    steps: &[PipeStep<'_>],
    page: u32,
) -> Result<Vec<Stage<'w>>, Memory>
    requires fits { StepsFit (types_in table.now) (types_in table.now own).halved
        (map step_view steps.now) (types_in table.now own).taken }
    requires page { (0 < page) × (page ≤ 8192) }
    ensures are { IfOk result (λ stages. (net : NetForm) → net.types ≡ types_in table.now
        → HasCells net.links cells.now → AreStagesFor net task (types_in table.now own).halved
        (map step_view steps.now) (types_in table.now own).taken stages.items) }
    ensures fresh { IfOk result
        (λ stages. map ⟦<Stage<'w> as Operator>⟧.as_made stages.items ≡ stages.items) }
{
    let halved = halved_at(table, own);
    let mut between = copy_types(alloc, taken_at(table, own))?;
    let mut stages = Vec::new(alloc);
    for step in steps {
        stages.push(stage_of(
            alloc,
            table,
            cells,
            task,
            halved,
            *step,
            between.as_slice(),
            page,
        )?)?;
        between = types_after(alloc, table, halved, *step, between.as_slice())?;
    }
    Ok(stages)
}
