//! What follows from the definitions.
ghost use Rattle.std.specs.Prelude.{◌≡◌, ◌<◌, ℕ, List, None, Ok, Some, slice_get};
ghost use Rattle.plan_docs.specs.Plans.{FragmentForm, plan_view};
ghost use Rattle.plan_reader.specs.Judgement.{IsPlan};
ghost use Rattle.plan_reader.specs.Reaches.{FiltersReach};
ghost use Rattle.plan_reader.specs.Trees.{tree_of};
ghost use Rattle.plan_run_laws.specs.Placements.{Placed};
ghost use Rattle.plan_run_laws.specs.RunPlans.{tree_of_run};
ghost use Rattle.plan_run_laws.specs.Spreads.{whole};
ghost use Rattle.plan_spreads.specs.declared.spread.RowSpread.{RowSpread};
ghost use Rattle.plan_spreads.specs.Halves.{HalvesMeet, half};
ghost use Rattle.plan_spreads.specs.Plans.{plan_spreads};
ghost use Rattle.plan_spreads.specs.Reading.{AllReadOn, AreReadOnce};
ghost use Rattle.plan_spreads.specs.Runs.{fragment_parts, part_read, plan_run, row_spread_view, tasks_of};
ghost use Rattle.plan_trees.specs.Widths.{FitsWidths};
ghost use Rattle.plan_link_laws.specs.Consistent.{IsConsistent};

use plan_docs::Plan;

/// The law that a plan that was read is consistent.
pub fn read_plans_are_consistent(plan: &Plan)
    ensures { (bytes : List ℕ) → IsPlan bytes (plan_view plan.now)
        → IsConsistent (plan_view plan.now) }
{}

/// The law that in a consistent plan the halves of operators meet, each source reads a fragment after its own, and each
/// fragment but the first is read by one source.
pub fn halves_meet(plan: &Plan)
    ensures meet { IsConsistent (plan_view plan.now) → HalvesMeet (plan_view plan.now).fragments }
    ensures read_on { IsConsistent (plan_view plan.now) → AllReadOn 0 (plan_view plan.now).fragments }
    ensures read_once { IsConsistent (plan_view plan.now) → AreReadOnce (plan_view plan.now).fragments }
{}

/// The law that such a plan means the tree of the plan as it runs, with any number of tasks; that this tree, and that of
/// each fragment, has the columns that its parts ask for; and that as it runs the plan is placed as a whole in the one
/// task of fragment 0, and each fragment at the spread that is given for it, where its root is no PARTIAL node.
pub fn consistent_plans_are_placed(plan: &Plan)
    ensures tree { IsConsistent (plan_view plan.now) → (tasks : ℕ)
        → tree_of (plan_view plan.now) ≡ tree_of_run (plan_run tasks (plan_view plan.now)) }
    ensures widths { IsConsistent (plan_view plan.now) → (tasks : ℕ) → 0 < tasks
        → FitsWidths (tree_of_run (plan_run tasks (plan_view plan.now))) }
    ensures parts { IsConsistent (plan_view plan.now) → (tasks : ℕ) → 0 < tasks → (i : ℕ)
        → FitsWidths
        (tree_of_run (part_read 0 (fragment_parts tasks 0 (plan_view plan.now).fragments) i).root) }
    ensures placed { IsConsistent (plan_view plan.now) → (tasks : ℕ) → 0 < tasks
        → Placed 1 (plan_run tasks (plan_view plan.now)) whole }
    ensures roots { IsConsistent (plan_view plan.now) → (spreads : List RowSpread)
        → plan_spreads (plan_view plan.now) ≡ Ok spreads → (tasks : ℕ) → 0 < tasks
        → (i : ℕ) (f : FragmentForm) (s : RowSpread)
        → slice_get (plan_view plan.now).fragments i ≡ Some f → slice_get spreads i ≡ Some s
        → half f.root ≡ None
        → Placed (tasks_of tasks f.placement)
        (part_read 0 (fragment_parts tasks 0 (plan_view plan.now).fragments) i).root
        (row_spread_view s) }
{}

/// The law that in such a plan each dynamic filter is one of an inner join and names the column of a scan from which the
/// left column of its pair comes, through nothing that can fail.
pub fn filters_reach_their_scans(plan: &Plan)
    ensures { IsConsistent (plan_view plan.now) → FiltersReach (plan_view plan.now) }
{}
