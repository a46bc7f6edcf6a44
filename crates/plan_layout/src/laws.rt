//! What follows from the definitions.
ghost use Rattle.std.specs.Prelude.{◌≡◌, ℕ, List, Some, slice_get};
ghost use Rattle.plan_docs.specs.Plans.{FragmentForm, plan_view};
ghost use Rattle.plan_layout.specs.declared.pipe.Parallelism.{Parallelism};
ghost use Rattle.plan_layout.specs.Filters.{AreFiltersFor, scan_filters};
ghost use Rattle.plan_layout.specs.Layouts.{layout_of};
ghost use Rattle.plan_layout.specs.Pipes.{PipeForm};
ghost use Rattle.plan_layout.specs.Runs.{AreFetched, IsLaid};

use plan_docs::Plan;

/// The law that each fragment is laid out: the pipe of its root runs its nodes along inputs and left sides, and each
/// right side of a join and each side of a union has a pipe that gives its rows there.
pub fn fragments_are_laid(plan: &Plan)
    ensures { (p : Parallelism) (number : ℕ) (f : FragmentForm)
        → slice_get (plan_view plan.now).fragments number ≡ Some f
        → IsLaid (layout_of p (plan_view plan.now)) p (plan_view plan.now).fragments number f }
{}

/// The law that for each pipe that reads a fragment there is one that fetches, by one driver in each of its tasks.
pub fn sources_are_fetched(plan: &Plan)
    ensures { (p : Parallelism) → AreFetched (layout_of p (plan_view plan.now)) }
{}

/// The law that the filters of a pipe's scan are those of the layout that are for it, by ascending id.
pub fn filters_are_for_scans()
    ensures { (layout : List PipeForm) (pipe : PipeForm) (scan : ℕ) → pipe.scan ≡ Some scan
        → AreFiltersFor layout scan (scan_filters layout pipe) }
{}
