//! How many rows the dynamic filters of a plan let through.
ghost use Rattle.std.specs.Prelude.{◌≡◌, ◌<◌, ℕ, All, List, Some, slice_get, true};
ghost use Rattle.driver_loop.specs.Drivers.{DriverState};
ghost use Rattle.plan_docs.specs.declared.node.DynamicFilter.{DynamicFilter};
ghost use Rattle.plan_docs.specs.Plans.{FragmentForm, plan_view};
ghost use Rattle.plan_trees.specs.declared.tree.Pair.{Pair};
ghost use Rattle.plan_reader.specs.Trees.{tree_of};
ghost use Rattle.tree_evaluator.specs.Fits.{FitsTables};
ghost use Rattle.plan_link_laws.specs.Consistent.{IsConsistent};
ghost use Rattle.plan_layout.specs.declared.filters.PlacedFilter.{PlacedFilter};
ghost use Rattle.plan_layout.specs.declared.pipe.Parallelism.{Parallelism};
ghost use Rattle.plan_layout.specs.Filters.{scan_filters};
ghost use Rattle.plan_layout.specs.Layouts.{layout_of};
ghost use Rattle.plan_layout.specs.Pipes.{PipeForm};
ghost use Rattle.driver_net_laws.specs.Nets.{AreDriversOf, NetForm};
ghost use Rattle.driver_net_laws.specs.Settled.{AreSettled};
ghost use Rattle.net_laws.specs.PlanCounts.{AreCountable, HasCounts, rows_passed};
ghost use Rattle.net_laws.specs.PlanFilters.{HasPlace, IsCountOfFilter, IsFilterOfPlan};

use driver_loop::Stage;
use plan_docs::Plan;
use std::marker::PhantomData;

/// The law that where all drivers of the layout of a consistent plan are finished, what a dynamic filter counted in
/// the drivers of its scan's pipe, in all tasks, is at most the number of the scanned rows that pass each filter of the
/// scan with an id up to its own that is waited for, and at least the number of those that pass each filter with such
/// an id. What passes a filter is a key of a list of rows that the right side of the filter's join may list, or lies
/// between such keys where they are many.
pub fn plans_count<'w>(plan: &Plan, _of: PhantomData<Stage<'w>>)
    ensures { IsConsistent (plan_view plan.now) → (p : Parallelism) → 0 < p.tasks
        → (f : FragmentForm) → slice_get (plan_view plan.now).fragments 0 ≡ Some f
        → (net : NetForm) (drivers : List DriverState)
        → net.layout ≡ layout_of p (plan_view plan.now)
        → AreDriversOf net drivers → AreSettled net drivers
        → FitsTables (tree_of (plan_view plan.now)) net.tables
        → All (λ d. d.is_finished ≡ true) drivers
        → AreCountable net.tables
        → (at : ℕ) (pipe : PipeForm) → slice_get net.layout at ≡ Some pipe
        → HasCounts (tree_of (plan_view plan.now)) net.tables net.layout drivers pipe }
{
    operator_core::laws::laws::<Stage<'w>>(PhantomData);
    crate::pipes::pipes_are_reached(plan);
    plan_link_laws::consistent_plans_are_placed(plan);
    crate::joins::filter_ids_rise(plan);
    crate::plans::layouts_are_tidy(plan);
    crate::plans::plan_filters_reach(plan);
    crate::sources::tables_pass();
    crate::sources::rows_pass();
    crate::sources::unions_pass();
    crate::sources::fragments_pass();
    crate::sources::rows_flowed();
}

/// The law that so it is said of the plan alone: the number is a count of its filter, over the rows of the table that
/// its scan reads and all filters that the plan has for this scan.
pub fn filters_are_counted<'w>(plan: &Plan, of: PhantomData<Stage<'w>>)
    ensures { IsConsistent (plan_view plan.now) → (p : Parallelism) → 0 < p.tasks
        → (f : FragmentForm) → slice_get (plan_view plan.now).fragments 0 ≡ Some f
        → (net : NetForm) (drivers : List DriverState)
        → net.layout ≡ layout_of p (plan_view plan.now)
        → AreDriversOf net drivers → AreSettled net drivers
        → FitsTables (tree_of (plan_view plan.now)) net.tables
        → All (λ d. d.is_finished ≡ true) drivers
        → AreCountable net.tables
        → (at : ℕ) (pipe : PipeForm) → slice_get net.layout at ≡ Some pipe
        → (place : ℕ) (placed : PlacedFilter) → slice_get (scan_filters net.layout pipe) place ≡ Some placed
        → IsCountOfFilter (plan_view plan.now) (tree_of (plan_view plan.now)) net.tables placed.filter
        (rows_passed drivers pipe place) }
{
    plans_count(plan, of);
    crate::pipes::pipes_are_reached(plan);
    plan_link_laws::consistent_plans_are_placed(plan);
    crate::plans::plan_filters_reach(plan);
    crate::joins::filter_ids_rise(plan);
    crate::joins::scan_filters_reach(plan);
}

/// The law that each dynamic filter of a consistent plan has its place in the plan's layout: it stands among the
/// filters of a pipe that reads the scan which it is for.
pub fn filters_have_places(plan: &Plan)
    ensures { IsConsistent (plan_view plan.now) → (p : Parallelism)
        → (f : FragmentForm) → slice_get (plan_view plan.now).fragments 0 ≡ Some f
        → (join : ℕ) (on : List Pair) (filter : DynamicFilter) → IsFilterOfPlan (plan_view plan.now) join on filter
        → HasPlace (layout_of p (plan_view plan.now)) filter }
{
    crate::pipes::pipes_are_reached(plan);
    crate::joins::filters_reach_in_runs(plan);
    crate::joins::scan_filters_reach(plan);
}
