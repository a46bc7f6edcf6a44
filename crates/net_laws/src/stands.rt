//! How the pipes of a layout stand, and what follows for the plan. In each law the drivers are those of the layout, and all
//! of them were taken apart.
ghost use Rattle.std.specs.Prelude.{◌≡◌, ◌<◌, ℕ, [], All, List, Some, slice_get, true};
ghost use Rattle.sql_values.specs.declared.fail.Fail.{Fail};
ghost use Rattle.driver_loop.specs.Drivers.{DriverState, HasFailed};
ghost use Rattle.driver_loop.specs.declared.run_fault.RunFault.TheVariants.{ExprFailed};
ghost use Rattle.driver_loop.specs.Ends.{rows_handed};
ghost use Rattle.plan_trees.specs.Allowed.{Gives, strict};
ghost use Rattle.plan_trees.specs.Stopped.{MayFail};
ghost use Rattle.tree_evaluator.specs.Fits.{FitsTables};
ghost use Rattle.plan_run_laws.specs.Nets.{IsAlone};
ghost use Rattle.plan_run_laws.specs.Placements.{Placed};
ghost use Rattle.plan_run_laws.specs.RunPlans.{RunPlan, tree_of_run};
ghost use Rattle.plan_run_laws.specs.Spreads.{whole};
ghost use Rattle.plan_layout.specs.Filters.{scan_filters};
ghost use Rattle.plan_layout.specs.Layouts.{drivers_in};
ghost use Rattle.plan_layout.specs.Pipes.{PipeForm, driver_number};
ghost use Rattle.plan_layout.specs.Pipes as pipes;
ghost use Rattle.net_laws.specs.Numbers.{AreNumbered};
ghost use Rattle.net_laws.specs.Reached.{AreReached};
ghost use Rattle.net_laws.specs.RunPipes.{PipeIn, RunsAs};
ghost use Rattle.driver_net_laws.specs.Nets.{AreDriversOf, NetForm};
ghost use Rattle.driver_net_laws.specs.Settled.{AreSettled};
ghost use Rattle.driver_net_laws.specs.States.{Flow, IsFlowOf, pipe_states_of};
ghost use Rattle.lost_row_laws.specs.Sieves.{Sieve};
ghost use Rattle.net_laws.specs.Filtered.{FiltersReach};
ghost use Rattle.net_laws.specs.Sifted.{AreSiftedBy};
ghost use Rattle.net_laws.specs.Standing.{IsStanding};
ghost use Rattle.net_laws.specs.Tidy.{IsTidy};

use driver_loop::Stage;
use std::marker::PhantomData;

/// The law that a pipe that runs a plan stands, with all pipes below it, as a net of pipes: its drivers are the lanes of
/// the plan, and what they took of their source, and know of right sides, is what the pipes below gave; but for rows that
/// stages in front of those of scans dropped by sieves of joins above.
pub fn pipes_stand_together<'w>(_of: PhantomData<Stage<'w>>)
    ensures { (net : NetForm) (drivers : List DriverState) → AreDriversOf net drivers
        → AreSettled net drivers → (flow : Flow) → IsFlowOf net.layout drivers flow
        → IsTidy net.layout → (of_join due : ℕ → List Sieve) (sieves : List Sieve)
        → (n : ℕ) (run : RunPlan) (own : ℕ) (pipe : PipeForm)
        → slice_get net.layout own ≡ Some pipe → pipe.tasks ≡ n
        → (r : RunsAs net.layout n run own pipe.drivers pipe.source pipe.steps)
        → AreSiftedBy drivers (pipe_states_of net.layout drivers flow) of_join due net.layout sieves
        n run own pipe.drivers pipe.source pipe.steps r
        → FitsTables (tree_of_run run) net.tables
        → IsStanding (pipe_states_of net.layout drivers flow) of_join net.tables net.layout sieves
        n run own pipe r }
{
    operator_core::laws::laws::<Stage<'w>>(PhantomData);
    crate::sources::tables_pass();
    crate::sources::rows_pass();
    crate::sources::unions_pass();
    crate::sources::fragments_pass();
}

/// The law that where all drivers are finished, the rows of the one of the result are a list that the plan's tree allows.
pub fn nets_give<'w>(_of: PhantomData<Stage<'w>>)
    ensures { (net : NetForm) (drivers : List DriverState) → AreDriversOf net drivers
        → AreSettled net drivers → IsTidy net.layout
        → (run : RunPlan) → FitsTables (tree_of_run run) net.tables → Placed 1 run whole
        → (at : ℕ) (root : PipeIn net.layout 1 pipes.result at (RunsAs net.layout 1 run))
        → IsAlone root.pipe.drivers → FiltersReach net.layout run
        → All (λ d. d.is_finished ≡ true) drivers
        → (d : DriverState) → slice_get drivers (driver_number root.pipe 0 0) ≡ Some d
        → Gives strict (tree_of_run run) net.tables (rows_handed d.target) }
{
    operator_core::laws::laws::<Stage<'w>>(PhantomData);
    crate::sources::tables_pass();
    crate::sources::rows_pass();
    crate::sources::unions_pass();
    crate::sources::fragments_pass();
    crate::sources::rows_flowed();
}

/// The law that where a driver failed at a node, wherever the others stand, the plan's tree may fail with this kind. The
/// stage at which it failed is one for a step of its pipe: what filters in front of those let through, it failed on.
pub fn nets_fail<'w>(_of: PhantomData<Stage<'w>>)
    ensures { (net : NetForm) (drivers : List DriverState) → AreDriversOf net drivers
        → AreSettled net drivers → IsTidy net.layout
        → (run : RunPlan) → FitsTables (tree_of_run run) net.tables → Placed 1 run whole
        → (reached : AreReached net.layout run) → IsAlone reached.root.pipe.drivers
        → FiltersReach net.layout run
        → AreNumbered (λ pipe. pipe.drivers) (λ pipe. pipe.numbers) net.layout (drivers_in net.layout)
        → (number : ℕ) (d : DriverState) → slice_get drivers number ≡ Some d
        → (node : ℕ) (kind : Fail) → d.fault ≡ Some (ExprFailed node kind)
        → MayFail (tree_of_run run) net.tables node kind }
{
    operator_core::laws::laws::<Stage<'w>>(PhantomData);
    crate::sources::tables_pass();
    crate::sources::rows_pass();
    crate::sources::unions_pass();
    crate::sources::fragments_pass();
    crate::sources::rows_flowed();
}

/// The law that so it is of a driver whose pipe has no dynamic filter, where one of its stages fails on what the stages before
/// it gave of what it took.
pub fn nets_without_filters_fail<'w>(_of: PhantomData<Stage<'w>>)
    ensures { (net : NetForm) (drivers : List DriverState) → AreDriversOf net drivers
        → AreSettled net drivers → IsTidy net.layout
        → (run : RunPlan) → FitsTables (tree_of_run run) net.tables → Placed 1 run whole
        → (reached : AreReached net.layout run) → IsAlone reached.root.pipe.drivers
        → FiltersReach net.layout run
        → (at : ℕ) (pipe : PipeForm) → slice_get net.layout at ≡ Some pipe
        → scan_filters net.layout pipe ≡ []
        → (task lane : ℕ) → task < pipe.tasks → lane < pipe.drivers
        → (d : DriverState) → slice_get drivers (driver_number pipe task lane) ≡ Some d
        → (node : ℕ) (kind : Fail) → HasFailed d node kind
        → MayFail (tree_of_run run) net.tables node kind }
{
    operator_core::laws::laws::<Stage<'w>>(PhantomData);
    crate::sources::tables_pass();
    crate::sources::rows_pass();
    crate::sources::unions_pass();
    crate::sources::fragments_pass();
    crate::sources::rows_flowed();
}
