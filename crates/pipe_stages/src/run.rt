//! The types behind the steps of a pipe.
ghost use Rattle.std.specs.Prelude.{◌≡◌, List, [], ◌∷◌, ◌++◌, map, IfOk};
ghost use Rattle.plan_layout.specs.Pipes.{StepForm, step_view};
ghost use Rattle.driver_net_laws.specs.Types.{types_through};
ghost use Rattle.pipe_stages.specs.Tables.{types_in};

use crate::steps::types_after;
use crate::table::PipeTypes;
use plan_layout::PipeStep;
use plan_trees::copy_types;
use sql_values::{Memory, SqlType, Types};
use std::alloc::Global;

/// The types before the last of some steps, and behind it.
#[derive(Drop)]
pub(crate) struct LastTypes {
    pub before: Types,
    pub given: Types,
}

/// The types behind these steps over rows of some types.
fn types_through(
    alloc: Global,
    table: &[PipeTypes],
    halved: &[SqlType],
    steps: &[PipeStep<'_>],
    taken: &[SqlType],
) -> Result<Types, Memory>
    ensures { IfOk result (λ types. types
        ≡ types_through (types_in table.now) halved.now (map step_view steps.now) taken.now) }
{
    let mut between = copy_types(alloc, taken)?;
    for step in steps {
        between = types_after(alloc, table, halved, *step, between.as_slice())?;
    }
    Ok(between)
}

/// The types before the last of these steps, and behind it. Where there is no step, they are those of the rows.
pub(crate) fn last_types(
    alloc: Global,
    table: &[PipeTypes],
    halved: &[SqlType],
    steps: &[PipeStep<'_>],
    taken: &[SqlType],
) -> Result<LastTypes, Memory>
    ensures before { IfOk result (λ types. (first : List StepForm) (step : StepForm)
        → map step_view steps.now ≡ first ++ step ∷ []
        → types.before ≡ types_through (types_in table.now) halved.now first taken.now) }
    ensures given { IfOk result (λ types. types.given
        ≡ types_through (types_in table.now) halved.now (map step_view steps.now) taken.now) }
{
    let Some((last, first)) = steps.split_last() else {
        return Ok(LastTypes {
            before: copy_types(alloc, taken)?,
            given: copy_types(alloc, taken)?,
        });
    };
    let before = types_through(alloc, table, halved, first, taken)?;
    let given = types_after(alloc, table, halved, *last, before.as_slice())?;
    Ok(LastTypes { before, given })
}
