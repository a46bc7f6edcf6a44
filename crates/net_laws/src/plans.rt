//! What `stands` says, of the layout of a consistent plan.
ghost use Rattle.std.specs.Prelude.{◌≡◌, ◌<◌, ℕ, [], All, List, Some, slice_get, true};
ghost use Rattle.sql_values.specs.declared.fail.Fail.{Fail};
ghost use Rattle.driver_loop.specs.Drivers.{DriverState, HasFailed};
ghost use Rattle.driver_loop.specs.declared.run_fault.RunFault.TheVariants.{ExprFailed};
ghost use Rattle.driver_loop.specs.Ends.{rows_handed};
ghost use Rattle.plan_docs.specs.Plans.{FragmentForm, plan_view};
ghost use Rattle.plan_reader.specs.Trees.{tree_of};
ghost use Rattle.plan_trees.specs.Allowed.{Gives, strict};
ghost use Rattle.plan_trees.specs.Stopped.{MayFail};
ghost use Rattle.tree_evaluator.specs.Fits.{FitsTables};
ghost use Rattle.plan_link_laws.specs.Consistent.{IsConsistent};
ghost use Rattle.plan_layout.specs.declared.pipe.Parallelism.{Parallelism};
ghost use Rattle.plan_layout.specs.Filters.{scan_filters};
ghost use Rattle.plan_layout.specs.Layouts.{layout_of};
ghost use Rattle.plan_layout.specs.Pipes.{PipeForm, driver_number};
ghost use Rattle.plan_spreads.specs.Runs.{plan_run};
ghost use Rattle.driver_net_laws.specs.Nets.{AreDriversOf, NetForm};
ghost use Rattle.driver_net_laws.specs.Settled.{AreSettled};
ghost use Rattle.net_laws.specs.Filtered.{FiltersReach};
ghost use Rattle.net_laws.specs.Roots.{IsLoneRoot};
ghost use Rattle.net_laws.specs.Tidy.{IsTidy};

use crate::stands::{nets_fail, nets_give, nets_without_filters_fail};
use driver_loop::Stage;
use plan_docs::Plan;
use std::marker::PhantomData;

/// The law that of such a layout is known who gives to whom, and that what fetches does no more.
pub fn layouts_are_tidy(plan: &Plan)
    ensures { IsConsistent (plan_view plan.now) → (p : Parallelism)
        → IsTidy (layout_of p (plan_view plan.now)) }
{
    crate::pipes::unions_have_two_sides(plan);
    crate::pipes::readers_have_one_root(plan);
    plan_layout::sources_are_fetched(plan);
}

/// The law that each dynamic filter of such a plan is one of a join of its run, and reaches the scan that it names.
pub fn plan_filters_reach(plan: &Plan)
    ensures { IsConsistent (plan_view plan.now) → (p : Parallelism)
        → FiltersReach (layout_of p (plan_view plan.now)) (plan_run p.tasks (plan_view plan.now)) }
{
    crate::joins::scans_are_apart(plan);
    crate::joins::built_filters_reach(plan);
}

/// The law that where all drivers are finished, the rows of the one of the result are a list that the plan allows.
pub fn plans_give<'w>(plan: &Plan, of: PhantomData<Stage<'w>>)
    ensures { IsConsistent (plan_view plan.now) → (p : Parallelism) → 0 < p.tasks
        → (f : FragmentForm) → slice_get (plan_view plan.now).fragments 0 ≡ Some f
        → (net : NetForm) (drivers : List DriverState)
        → net.layout ≡ layout_of p (plan_view plan.now)
        → AreDriversOf net drivers → AreSettled net drivers
        → FitsTables (tree_of (plan_view plan.now)) net.tables
        → (root : PipeForm) → IsLoneRoot net.layout root
        → All (λ d. d.is_finished ≡ true) drivers
        → (d : DriverState) → slice_get drivers (driver_number root 0 0) ≡ Some d
        → Gives strict (tree_of (plan_view plan.now)) net.tables (rows_handed d.target) }
{
    layouts_are_tidy(plan);
    crate::pipes::pipes_are_reached(plan);
    plan_link_laws::consistent_plans_are_placed(plan);
    plan_filters_reach(plan);
    nets_give(of);
}

/// The law that where a driver failed at a node, wherever the others stand, the plan may fail with this kind.
pub fn plans_fail<'w>(plan: &Plan, of: PhantomData<Stage<'w>>)
    ensures { IsConsistent (plan_view plan.now) → (p : Parallelism) → 0 < p.tasks
        → (f : FragmentForm) → slice_get (plan_view plan.now).fragments 0 ≡ Some f
        → (net : NetForm) (drivers : List DriverState)
        → net.layout ≡ layout_of p (plan_view plan.now)
        → AreDriversOf net drivers → AreSettled net drivers
        → FitsTables (tree_of (plan_view plan.now)) net.tables
        → (root : PipeForm) → IsLoneRoot net.layout root
        → (number : ℕ) (d : DriverState) → slice_get drivers number ≡ Some d
        → (node : ℕ) (kind : Fail) → d.fault ≡ Some (ExprFailed node kind)
        → MayFail (tree_of (plan_view plan.now)) net.tables node kind }
{
    layouts_are_tidy(plan);
    crate::pipes::pipes_are_reached(plan);
    crate::pipes::drivers_are_numbered(plan);
    plan_link_laws::consistent_plans_are_placed(plan);
    plan_filters_reach(plan);
    nets_fail(of);
}

/// The law that so it is of a driver whose pipe has no dynamic filter, where one of its stages fails on what the stages before
/// it gave of what it took.
pub fn plans_without_filters_fail<'w>(plan: &Plan, of: PhantomData<Stage<'w>>)
    ensures { IsConsistent (plan_view plan.now) → (p : Parallelism) → 0 < p.tasks
        → (f : FragmentForm) → slice_get (plan_view plan.now).fragments 0 ≡ Some f
        → (net : NetForm) (drivers : List DriverState)
        → net.layout ≡ layout_of p (plan_view plan.now)
        → AreDriversOf net drivers → AreSettled net drivers
        → FitsTables (tree_of (plan_view plan.now)) net.tables
        → (root : PipeForm) → IsLoneRoot net.layout root
        → (at : ℕ) (pipe : PipeForm) → slice_get net.layout at ≡ Some pipe
        → scan_filters net.layout pipe ≡ []
        → (task lane : ℕ) → task < pipe.tasks → lane < pipe.drivers
        → (d : DriverState) → slice_get drivers (driver_number pipe task lane) ≡ Some d
        → (node : ℕ) (kind : Fail) → HasFailed d node kind
        → MayFail (tree_of (plan_view plan.now)) net.tables node kind }
{
    layouts_are_tidy(plan);
    crate::pipes::pipes_are_reached(plan);
    plan_link_laws::consistent_plans_are_placed(plan);
    plan_filters_reach(plan);
    nets_without_filters_fail(of);
}
