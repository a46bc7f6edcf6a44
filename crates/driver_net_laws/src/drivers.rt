//! The stages of a driver that were made for the nodes of a plan, as they stand, are a lane of its pipe.
ghost use Rattle.std.specs.Prelude.{ℕ, List, Bool, Contains};
ghost use Rattle.sql_values.specs.declared.types.SqlType.{SqlType as Typed};
ghost use Rattle.col_pages.specs.Fits.{AllFit};
ghost use Rattle.operator_core.specs.Rows.{Row};
ghost use Rattle.operator_core.specs.Stages.{Linked, ToldInTurn, last_finished};
ghost use Rattle.driver_loop.specs.contracts.stage.StageOperator.TheImpl.{ghosts};
ghost use Rattle.driver_loop.specs.declared.stage.Stage.{Stage as StageState};
ghost use Rattle.plan_run_laws.specs.RunPlans.{RunPlan};
ghost use Rattle.pipe_laws.specs.Pipelines.{NodeStage};
ghost use Rattle.pipe_laws.specs.Operators.{types_of_source};
ghost use Rattle.pipe_laws.specs.Lanes.{IsHalved, IsLane};
ghost use Rattle.driver_net_laws.specs.Cells.{Names};
ghost use Rattle.driver_net_laws.specs.Made.{AreMadeFor, Behind, KnowSources, notes_known};

use driver_loop::Stage;
use std::marker::PhantomData;

/// The law that stages of a driver which were made for a node's pipeline are a lane of it, wherever they stand: where what
/// its probes know are sources for their joins, and the rows that came to them have their types.
pub fn drivers_are_lanes<'w>(_of: PhantomData<Stage<'w>>)
    ensures { (names : Names) (run : RunPlan) (bells : List ℕ) (given : List Typed)
        (stages : List StageState) (took gave : List Row) (ended : Bool)
        → Linked ghosts stages took gave → ToldInTurn ghosts ended stages
        → AreMadeFor names run bells stages given → KnowSources run bells (Contains stages)
        → AllFit (types_of_source run) took
        → IsLane ghosts run (notes_known stages) stages took gave ended (last_finished ghosts ended stages) }
{
    operator_core::laws::laws::<Stage<'w>>(PhantomData);
}

/// The law that so it is where the first half of an operator stands behind the node's stages.
pub fn drivers_are_halved<'w>(_of: PhantomData<Stage<'w>>)
    ensures { (names : Names) (run : RunPlan) (half : NodeStage) (bells : List ℕ)
        (given : List Typed) (stages : List StageState) (took gave : List Row) (ended : Bool)
        → Linked ghosts stages took gave → ToldInTurn ghosts ended stages
        → Behind (AreMadeFor names run bells) half stages given
        → KnowSources run bells (Contains stages) → AllFit (types_of_source run) took
        → IsHalved ghosts run (notes_known stages) half stages took gave ended (last_finished ghosts ended stages) }
{
    operator_core::laws::laws::<Stage<'w>>(PhantomData);
}

/// The law that what they gave has the types that they were made to give.
pub fn drivers_give_typed_rows<'w>(_of: PhantomData<Stage<'w>>)
    ensures lanes { (names : Names) (run : RunPlan) (bells : List ℕ) (given : List Typed)
        (stages : List StageState) (took gave : List Row) (ended : Bool)
        → Linked ghosts stages took gave → ToldInTurn ghosts ended stages
        → AreMadeFor names run bells stages given → KnowSources run bells (Contains stages)
        → AllFit (types_of_source run) took → AllFit given gave }
    ensures halves { (names : Names) (run : RunPlan) (half : NodeStage) (bells : List ℕ)
        (given : List Typed) (stages : List StageState) (took gave : List Row) (ended : Bool)
        → Linked ghosts stages took gave → ToldInTurn ghosts ended stages
        → Behind (AreMadeFor names run bells) half stages given
        → KnowSources run bells (Contains stages) → AllFit (types_of_source run) took
        → AllFit given gave }
{
    operator_core::laws::laws::<Stage<'w>>(PhantomData);
}
