//! The drivers of a layout as lanes of its pipes: their types, their stages, their notes, and what turns leave of them.
ghost use Rattle.std.specs.Prelude.{◌≡◌, ℕ, All, List, None, Some, slice_get};
ghost use Rattle.plan_trees.specs.TreeTypes.{types_of};
ghost use Rattle.plan_run_laws.specs.RunPlans.{RunPlan, tree_of_run};
ghost use Rattle.driver_net_laws.specs.Operators.{types_of_source};
ghost use Rattle.driver_net_laws.specs.Pipelines.{at_node};
ghost use Rattle.driver_loop.specs.contracts.stage.StageOperator.TheImpl.{ghosts};
ghost use Rattle.driver_loop.specs.declared.stage.Stage.{Stage as StageState};
ghost use Rattle.driver_loop.specs.Drivers.{DriverState, IsWhole};
ghost use Rattle.driver_net_laws.specs.Pipes.{GaveTyped, IsHalfPipeOf, IsPipeOf, TookTyped};
ghost use Rattle.driver_net_laws.specs.Made.{AreMadeFor, Behind};
ghost use Rattle.plan_layout.specs.Pipes.{PipeForm};
ghost use Rattle.net_laws.specs.RunPipes.{Into, RunsAs};
ghost use Rattle.driver_net_laws.specs.Nets.{AreDriversOf, AreStagesFor, IsDriverOf, NetForm};
ghost use Rattle.driver_net_laws.specs.Settled.{AreSettled};
ghost use Rattle.driver_net_laws.specs.States.{Flow, IsFlowOf, pipe_states_of};
ghost use Rattle.driver_net_laws.specs.Types.{PipesAreTyped, PipeTypes};
ghost use Rattle.net_laws.specs.Along.{Along, BuiltTyped, Follows, bells_in};
ghost use Rattle.plan_run_laws.specs.HalvedSteps.{HalvedForm};
ghost use Rattle.net_laws.specs.Halves.{half_stage, half_step, half_types};
ghost use Rattle.net_laws.specs.Later.{AreLater, IsLaterDriver};
ghost use Rattle.net_laws.specs.Typed.{HasHalfTypes, HasTypes};

use driver_loop::Stage;
use std::marker::PhantomData;

/// The law that in a typed layout a pipe that runs a plan takes rows of the types of the plan's source, and gives rows of
/// the plan's types; and that so it is where the first half of an operator stands behind the plan.
pub fn pipes_are_typed()
    ensures pipes { (layout : List PipeForm) (types : ℕ → PipeTypes) → PipesAreTyped layout types
        → (n : ℕ) (run : RunPlan) (own : ℕ) (pipe : PipeForm) → slice_get layout own ≡ Some pipe
        → RunsAs layout n run own pipe.drivers pipe.source pipe.steps → HasTypes run (types own) }
    ensures halves { (layout : List PipeForm) (types : ℕ → PipeTypes) → PipesAreTyped layout types
        → (n : ℕ) (run : RunPlan) (half : HalvedForm) (own : ℕ) (pipe : PipeForm)
        → slice_get layout own ≡ Some pipe
        → Into (half_step half) (RunsAs layout n run) own pipe.drivers pipe.source pipe.steps
        → HasHalfTypes run half (types own) }
{}

/// The law that the stages of a driver whose pipe runs a plan were made for the nodes of the plan.
pub fn stages_are_made()
    ensures pipes { (net : NetForm) → PipesAreTyped net.layout net.types
        → (n : ℕ) (run : RunPlan) (own : ℕ) (pipe : PipeForm) → slice_get net.layout own ≡ Some pipe
        → (r : RunsAs net.layout n run own pipe.drivers pipe.source pipe.steps)
        → (task : ℕ) (stages : List StageState)
        → AreStagesFor net task (net.types own).halved pipe.steps (net.types own).taken stages
        → AreMadeFor net.links.names run
        (bells_in net.links task net.layout n run own pipe.drivers pipe.source pipe.steps r) stages
        (types_of (tree_of_run run)) }
    ensures halves { (net : NetForm) → PipesAreTyped net.layout net.types
        → (n : ℕ) (run : RunPlan) (half : HalvedForm) (own : ℕ) (pipe : PipeForm)
        → slice_get net.layout own ≡ Some pipe
        → (r : Into (half_step half) (RunsAs net.layout n run)
        own pipe.drivers pipe.source pipe.steps)
        → (task : ℕ) (stages : List StageState)
        → AreStagesFor net task (net.types own).halved pipe.steps (net.types own).taken stages
        → Behind (AreMadeFor net.links.names run
        (bells_in net.links task net.layout n run own pipe.drivers pipe.source r.1.0 r.1.2))
        (at_node r.0 (half_stage half (types_of (tree_of_run run)))) stages (half_types half (types_of (tree_of_run run))) }
{}

/// The law that where a note of a driver knows rows, the drivers of its join's right side are done in its task, and gave
/// these rows.
pub fn notes_follow()
    ensures pipes { (net : NetForm) (drivers : List DriverState) → AreDriversOf net drivers
        → AreSettled net drivers → (flow : Flow) → IsFlowOf net.layout drivers flow
        → (n : ℕ) (run : RunPlan) (own : ℕ) (pipe : PipeForm)
        → slice_get net.layout own ≡ Some pipe → pipe.tasks ≡ n
        → (r : RunsAs net.layout n run own pipe.drivers pipe.source pipe.steps)
        → Along (Follows (pipe_states_of net.layout drivers flow) own n) net.layout n run
        own pipe.drivers pipe.source pipe.steps r
        (pipe_states_of net.layout drivers flow own).notes }
    ensures halves { (net : NetForm) (drivers : List DriverState) → AreDriversOf net drivers
        → AreSettled net drivers → (flow : Flow) → IsFlowOf net.layout drivers flow
        → (n : ℕ) (run : RunPlan) (half : HalvedForm) (own : ℕ) (pipe : PipeForm)
        → slice_get net.layout own ≡ Some pipe → pipe.tasks ≡ n
        → (r : Into (half_step half) (RunsAs net.layout n run)
        own pipe.drivers pipe.source pipe.steps)
        → Along (Follows (pipe_states_of net.layout drivers flow) own n) net.layout n run
        own pipe.drivers pipe.source r.1.0 r.1.2
        (pipe_states_of net.layout drivers flow own).notes }
{}

/// The law that the drivers of a pipe that runs a plan are its lanes, with the first half of an operator behind it or
/// with none: where what came to the stages of its steps has the types of the source, and what the right sides of its joins gave has theirs.
pub fn pipes_stand<'w>(_of: PhantomData<Stage<'w>>)
    ensures pipes { (net : NetForm) (drivers : List DriverState) → AreDriversOf net drivers
        → AreSettled net drivers → (flow : Flow) → IsFlowOf net.layout drivers flow
        → (n : ℕ) (run : RunPlan) (own : ℕ) (pipe : PipeForm)
        → slice_get net.layout own ≡ Some pipe → pipe.tasks ≡ n
        → (r : RunsAs net.layout n run own pipe.drivers pipe.source pipe.steps)
        → TookTyped (types_of_source run) n (pipe_states_of net.layout drivers flow own)
        → Along (BuiltTyped (pipe_states_of net.layout drivers flow) n) net.layout n run
        own pipe.drivers pipe.source pipe.steps r
        (pipe_states_of net.layout drivers flow own).notes
        → IsPipeOf ghosts n run (pipe_states_of net.layout drivers flow own) }
    ensures halves { (net : NetForm) (drivers : List DriverState) → AreDriversOf net drivers
        → AreSettled net drivers → (flow : Flow) → IsFlowOf net.layout drivers flow
        → (n : ℕ) (run : RunPlan) (half : HalvedForm) (own : ℕ) (pipe : PipeForm)
        → slice_get net.layout own ≡ Some pipe → pipe.tasks ≡ n
        → (r : Into (half_step half) (RunsAs net.layout n run)
        own pipe.drivers pipe.source pipe.steps)
        → TookTyped (types_of_source run) n (pipe_states_of net.layout drivers flow own)
        → Along (BuiltTyped (pipe_states_of net.layout drivers flow) n) net.layout n run
        own pipe.drivers pipe.source r.1.0 r.1.2
        (pipe_states_of net.layout drivers flow own).notes
        → IsHalfPipeOf ghosts n run (at_node r.0 (half_stage half (types_of (tree_of_run run)))) (pipe_states_of net.layout drivers flow own) }
{
    operator_core::laws::laws::<Stage<'w>>(PhantomData);
}

/// The law that what they gave then has the types of the plan, or of the half.
pub fn pipes_give_typed_rows<'w>(_of: PhantomData<Stage<'w>>)
    ensures pipes { (net : NetForm) (drivers : List DriverState) → AreDriversOf net drivers
        → AreSettled net drivers → (flow : Flow) → IsFlowOf net.layout drivers flow
        → (n : ℕ) (run : RunPlan) (own : ℕ) (pipe : PipeForm)
        → slice_get net.layout own ≡ Some pipe → pipe.tasks ≡ n
        → (r : RunsAs net.layout n run own pipe.drivers pipe.source pipe.steps)
        → TookTyped (types_of_source run) n (pipe_states_of net.layout drivers flow own)
        → Along (BuiltTyped (pipe_states_of net.layout drivers flow) n) net.layout n run
        own pipe.drivers pipe.source pipe.steps r
        (pipe_states_of net.layout drivers flow own).notes
        → GaveTyped (types_of (tree_of_run run)) n (pipe_states_of net.layout drivers flow own) }
    ensures halves { (net : NetForm) (drivers : List DriverState) → AreDriversOf net drivers
        → AreSettled net drivers → (flow : Flow) → IsFlowOf net.layout drivers flow
        → (n : ℕ) (run : RunPlan) (half : HalvedForm) (own : ℕ) (pipe : PipeForm)
        → slice_get net.layout own ≡ Some pipe → pipe.tasks ≡ n
        → (r : Into (half_step half) (RunsAs net.layout n run)
        own pipe.drivers pipe.source pipe.steps)
        → TookTyped (types_of_source run) n (pipe_states_of net.layout drivers flow own)
        → Along (BuiltTyped (pipe_states_of net.layout drivers flow) n) net.layout n run
        own pipe.drivers pipe.source r.1.0 r.1.2
        (pipe_states_of net.layout drivers flow own).notes
        → GaveTyped (half_types half (types_of (tree_of_run run))) n (pipe_states_of net.layout drivers flow own) }
{
    operator_core::laws::laws::<Stage<'w>>(PhantomData);
}

/// The law that turns keep a driver of its pipe, task and lane, and all drivers of a layout.
pub fn turns_keep_drivers()
    ensures one { (net : NetForm) (at : ℕ) (pipe : PipeForm) (task lane : ℕ)
        (before after : DriverState) → IsDriverOf net at pipe task lane before
        → IsLaterDriver before after → IsWhole after.fault → IsDriverOf net at pipe task lane after }
    ensures all { (net : NetForm) (drivers now : List DriverState) → AreDriversOf net drivers
        → AreLater drivers now → All (λ d. IsWhole d.fault) now → AreDriversOf net now }
{}

/// The law of turns one after the other, and of none.
pub fn turns_follow_turns()
    ensures none { (d : DriverState) → IsLaterDriver d d }
    ensures more { (a b c : DriverState) → b.fault ≡ None → IsLaterDriver a b → IsLaterDriver b c
        → IsLaterDriver a c }
{}
