//! What follows from the definitions, of a plan as it runs with any number of tasks.
ghost use Rattle.std.specs.Prelude.{◌≡◌, ℕ, List, Contains, Some, map};
ghost use Rattle.std.specs.List.Sorted.{IsStrictlyIncreasing};
ghost use Rattle.plan_docs.specs.declared.node.DynamicFilter.{DynamicFilter};
ghost use Rattle.plan_docs.specs.Plans.{plan_view};
ghost use Rattle.plan_run_laws.specs.RunPlans.{RunPlan};
ghost use Rattle.dyn_filter.specs.declared.domain.Domain.{Domain};
ghost use Rattle.sieve_laws.specs.Arrivals.{arriving};
ghost use Rattle.sieve_laws.specs.Domains.{sieve_of};
ghost use Rattle.sieve_laws.specs.Sieves.{Sieve};
ghost use Rattle.plan_link_laws.specs.Consistent.{IsConsistent};
ghost use Rattle.plan_spreads.specs.Runs.{plan_run};
ghost use Rattle.sieve_laws.specs.ComingDown.{ScansApart};
ghost use Rattle.sieve_laws.specs.KnownDomains.{JoinFilter, sieves_of};
ghost use Rattle.plan_layout.specs.declared.filters.PlacedFilter.{PlacedFilter};
ghost use Rattle.plan_layout.specs.declared.pipe.Parallelism.{Parallelism};
ghost use Rattle.plan_layout.specs.Filters.{scan_filters};
ghost use Rattle.plan_layout.specs.Layouts.{layout_of};
ghost use Rattle.plan_layout.specs.Pipes.{PipeForm};
ghost use Rattle.net_laws.specs.BuiltFilters.{AreOfPlan, BuiltFiltersReach, JoinsAreBuilt, PipesApart};
ghost use Rattle.net_laws.specs.JoinIds.{JoinsApart};
ghost use Rattle.net_laws.specs.RunJoins.{FiltersReachIn, HasJoins, ReachesIn};

use plan_docs::Plan;
use sieve_laws::known_domains_arrive;

/// The law that no two scans of a consistent plan have one id: its document gives an id once, and each fragment is read by
/// one source.
pub fn scans_are_apart(plan: &Plan)
    ensures { IsConsistent (plan_view plan.now) → (tasks : ℕ)
        → ScansApart (plan_run tasks (plan_view plan.now)) }
{}

/// The law that no two joins of it have one either, so that what each has of its own can be named by its id.
pub fn joins_are_apart(plan: &Plan)
    ensures { IsConsistent (plan_view plan.now) → (tasks : ℕ)
        → JoinsApart (plan_run tasks (plan_view plan.now)) }
{}

/// The law that such a plan runs each join of each of its fragments, with its id and its kind, over a left side that means
/// the tree of the join's.
pub fn joins_are_in_runs(plan: &Plan)
    ensures { IsConsistent (plan_view plan.now) → (tasks : ℕ)
        → HasJoins (plan_run tasks (plan_view plan.now)) (plan_view plan.now) }
{}

/// The law that each dynamic filter of such a plan is one of an inner join of the run, and the left column of its pair comes
/// there from the column of the scan that the filter names.
pub fn filters_reach_in_runs(plan: &Plan)
    ensures { IsConsistent (plan_view plan.now) → (tasks : ℕ)
        → FiltersReachIn (plan_run tasks (plan_view plan.now)) (plan_view plan.now) }
{}

/// The law that the domain which is known of such a filter arrives, as `sieve_laws` has it, at the scan that the filter names
/// and stands there over the column that it names.
pub fn named_scans_are_reached()
    ensures { (run : RunPlan) (id : ℕ) (on : List (ℕ × ℕ)) (f : DynamicFilter) → ReachesIn run id on f
        → (own : ℕ → List Sieve) (filters : List JoinFilter) → own id ≡ sieves_of on filters
        → (known : JoinFilter) → Contains filters known → known.pair ≡ f.key
        → (domain : Domain) → known.known ≡ Some domain → (sieves : List Sieve)
        → Contains (arriving own sieves run f.scan)
        (sieve_of (record { column = f.column; domain = domain })) }
{
    known_domains_arrive();
}

/// The law that in the layout of such a plan what a pipe builds is the right side of a join of the run, by whose id, pairs and
/// filters.
pub fn built_filters_reach(plan: &Plan)
    ensures { IsConsistent (plan_view plan.now) → (p : Parallelism) (tasks : ℕ)
        → BuiltFiltersReach (plan_run tasks (plan_view plan.now)) (layout_of p (plan_view plan.now)) }
{}

/// The law that in the layout of a plan a pipe builds the right side of each join of the plan.
pub fn joins_are_built(plan: &Plan)
    ensures { (p : Parallelism) → JoinsAreBuilt (layout_of p (plan_view plan.now)) (plan_view plan.now) }
{}

/// The law that the filters which the layout of a consistent plan gives a pipe that scans are those of joins of the run that
/// reach this scan, and all that the plan has for it.
pub fn scan_filters_reach(plan: &Plan)
    ensures { IsConsistent (plan_view plan.now) → (p : Parallelism) (tasks : ℕ)
        → (pipe : PipeForm) (scan : ℕ) → pipe.scan ≡ Some scan
        → AreOfPlan (plan_run tasks (plan_view plan.now)) (layout_of p (plan_view plan.now)) (plan_view plan.now)
        scan (scan_filters (layout_of p (plan_view plan.now)) pipe) }
{}

/// The law that in such a layout no two pipes build the right side of one join, and no two read one scan: so either is found by
/// its id.
pub fn pipes_are_apart(plan: &Plan)
    ensures { IsConsistent (plan_view plan.now) → (p : Parallelism)
        → PipesApart (layout_of p (plan_view plan.now)) }
{}

/// The law that the filters of a scan in such a layout have ids that rise: no two of the plan's filters have one id.
pub fn filter_ids_rise(plan: &Plan)
    ensures { IsConsistent (plan_view plan.now) → (p : Parallelism) (pipe : PipeForm)
        → IsStrictlyIncreasing (map (λ (f : PlacedFilter). f.filter.id) (scan_filters (layout_of p (plan_view plan.now)) pipe)) }
{}
