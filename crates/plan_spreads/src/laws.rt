//! What follows from the definitions.
ghost use Rattle.std.specs.Prelude.{◌≡◌, ℕ, ◌<◌, List, None, Ok, Some, slice_get};
ghost use Rattle.plan_docs.specs.Plans.{FragmentForm, plan_view};
ghost use Rattle.plan_run_laws.specs.Placements.{Placed};
ghost use Rattle.plan_run_laws.specs.RunPlans.{tree_of_run};
ghost use Rattle.plan_run_laws.specs.Spreads.{whole};
ghost use Rattle.plan_trees.specs.Widths.{FitsWidths};
ghost use Rattle.plan_types.specs.declared.row_types.RowTypes.{RowTypes};
ghost use Rattle.plan_types.specs.Plans.{plan_types};
ghost use Rattle.plan_spreads.specs.declared.spread.RowSpread.{RowSpread};
ghost use Rattle.plan_spreads.specs.Halves.{HalvesMeet, half};
ghost use Rattle.plan_spreads.specs.Plans.{plan_spreads};
ghost use Rattle.plan_spreads.specs.Reading.{AllReadOn};
ghost use Rattle.plan_spreads.specs.Runs.{fragment_parts, part_read, plan_run, row_spread_view, tasks_of};
ghost use Rattle.plan_spreads.specs.Widths.{AllLeavesFit};

use plan_docs::Plan;

/// The law that a typed plan whose halves meet and whose placement is not broken is placed as it runs, with any
/// number of tasks: as a whole in the one task of fragment 0.
pub fn plans_are_placed(plan: &Plan)
    ensures { (types : List RowTypes) (spreads : List RowSpread)
        → plan_types (plan_view plan.now) ≡ Ok types
        → plan_spreads (plan_view plan.now) ≡ Ok spreads
        → HalvesMeet (plan_view plan.now).fragments → (tasks : ℕ) → 0 < tasks
        → Placed 1 (plan_run tasks (plan_view plan.now)) whole }
{}

/// The law that the tree of such a plan as it runs, and that of each of its fragments, has the columns that its parts ask
/// for, where its scans have a type for each column and its constant rows a value for each type.
pub fn plans_fit_widths(plan: &Plan)
    ensures whole { (types : List RowTypes) (spreads : List RowSpread)
        → plan_types (plan_view plan.now) ≡ Ok types
        → plan_spreads (plan_view plan.now) ≡ Ok spreads
        → HalvesMeet (plan_view plan.now).fragments → AllLeavesFit (plan_view plan.now).fragments
        → (tasks : ℕ) → 0 < tasks
        → FitsWidths (tree_of_run (plan_run tasks (plan_view plan.now))) }
    ensures parts { (types : List RowTypes) (spreads : List RowSpread)
        → plan_types (plan_view plan.now) ≡ Ok types
        → plan_spreads (plan_view plan.now) ≡ Ok spreads
        → HalvesMeet (plan_view plan.now).fragments → AllLeavesFit (plan_view plan.now).fragments
        → (tasks : ℕ) → 0 < tasks → (i : ℕ)
        → FitsWidths
        (tree_of_run (part_read 0 (fragment_parts tasks 0 (plan_view plan.now).fragments) i).root) }
{}

/// The law that each fragment of such a plan is placed at the spread that `spread_plan` answers for it, where its root
/// is no PARTIAL node: such a root is one with the FINAL node that reads it.
pub fn roots_are_placed(plan: &Plan)
    ensures { (types : List RowTypes) (spreads : List RowSpread)
        → plan_types (plan_view plan.now) ≡ Ok types
        → plan_spreads (plan_view plan.now) ≡ Ok spreads
        → HalvesMeet (plan_view plan.now).fragments → (tasks : ℕ) → 0 < tasks
        → (i : ℕ) (f : FragmentForm) (s : RowSpread)
        → slice_get (plan_view plan.now).fragments i ≡ Some f → slice_get spreads i ≡ Some s
        → half f.root ≡ None
        → Placed (tasks_of tasks f.placement)
        (part_read 0 (fragment_parts tasks 0 (plan_view plan.now).fragments) i).root
        (row_spread_view s) }
{}

/// The law that in a plan whose halves meet each source reads a fragment after its own.
pub fn halves_read_on(plan: &Plan)
    ensures { HalvesMeet (plan_view plan.now).fragments
        → AllReadOn 0 (plan_view plan.now).fragments }
{}
