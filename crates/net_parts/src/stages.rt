//! The stages of a driver.
ghost use Rattle.std.specs.Prelude.{◌≡◌, map, IfOk};
ghost use Rattle.plan_layout.specs.Pipes.{step_view};
ghost use Rattle.pipe_stages.specs.Makes.{StepsFit};
ghost use Rattle.pipe_stages.specs.Nets.{NetForm};
ghost use Rattle.seat_stocks.specs.Labels.{Labels};
ghost use Rattle.net_parts.specs.Makings.{AreStagesOf, CanMake, IsNetFor, typing_in};

use crate::making::Making;
use driver_loop::Stage;
use operator_core::Operator;
use pipe_stages::{front_stages, stages_of, taken_at};
use plan_layout::{PipeStep, PlacedFilter};
use sql_values::Memory;

/// The stages of a driver of the pipe at the place `own`, in a task: one for each filter of its scan, and behind them
/// one for each step.
pub fn stages_for<'w>(
    making: &Making<'_, 'w>,
    own: usize,
    task: u32,
    filters: &[PlacedFilter],
    steps: &[PipeStep<'_>],
) -> Result<Vec<Stage<'w>>, Memory>
    requires can { CanMake making.now }
    requires fits { StepsFit (typing_in making.now) (typing_in making.now own).halved
        (map step_view steps.now) (typing_in making.now own).taken }
    ensures are { IfOk result (λ stages. (labels : Labels) (net : NetForm) → IsNetFor making.now labels net
        → AreStagesOf net own task filters.now (map step_view steps.now) stages.items) }
    ensures fresh { IfOk result
        (λ stages. map ⟦<Stage<'w> as Operator>⟧.as_made stages.items ≡ stages.items) }
{
    let taken = taken_at(making.types, own);
    let mut stages = front_stages(making.alloc, making.filters, filters, taken)?;
    let mut own_stages = stages_of(
        making.alloc,
        making.types,
        making.cells,
        own,
        task,
        steps,
        making.page,
    )?;
    stages.append(&mut own_stages)?;
    Ok(stages)
}
