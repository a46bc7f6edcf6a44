//! What follows from the definitions.
ghost use Rattle.std.specs.Prelude.{◌≡◌, ◌<◌, ℕ, Some, length, slice_get};
ghost use Rattle.plan_docs.specs.Plans.{FragmentForm, plan_view};
ghost use Rattle.plan_layout.specs.declared.pipe.Parallelism.{Parallelism};
ghost use Rattle.plan_layout.specs.Edges.{edges_in, reader_of};
ghost use Rattle.plan_layout.specs.Layouts.{drivers_in, layout_of};
ghost use Rattle.plan_layout.specs.Pipes as pipes;
ghost use Rattle.plan_link_laws.specs.Consistent.{IsConsistent};
ghost use Rattle.plan_spreads.specs.Runs.{plan_run};
ghost use Rattle.net_laws.specs.Givers.{GiveToReaders, GiveToUnions, HasOneResult};
ghost use Rattle.net_laws.specs.Lanes.{AreManned};
ghost use Rattle.net_laws.specs.Numbers.{AreNumbered, edges_of, series_of};
ghost use Rattle.net_laws.specs.Reached.{AreReached};
ghost use Rattle.net_laws.specs.Readers.{AreFetchedOnce, IsReader, IsRootAt};
ghost use Rattle.net_laws.specs.RunPipes.{PipeIn, RunsAs};

use plan_docs::Plan;

/// The law that the drivers of a plan are numbered from 0 on: fragment by fragment, in it task by task, and in a task
/// pipe by pipe.
pub fn drivers_are_numbered(plan: &Plan)
    ensures { (p : Parallelism) → AreNumbered (λ pipe. pipe.drivers) (λ pipe. pipe.numbers)
        (layout_of p (plan_view plan.now)) (drivers_in (layout_of p (plan_view plan.now))) }
{}

/// The law that the edges of a plan, of which a pipe that fetches has one in each task, are numbered in the same order.
pub fn edges_are_numbered(plan: &Plan)
    ensures { (p : Parallelism) → AreNumbered edges_of (λ pipe. series_of pipe.source)
        (layout_of p (plan_view plan.now)) (edges_in (layout_of p (plan_view plan.now))) }
{}

/// The law that each pipe has the tasks of its fragment, and in each so many drivers as may run it.
pub fn pipes_have_drivers(plan: &Plan)
    ensures { (p : Parallelism)
        → AreManned p (plan_view plan.now).fragments (layout_of p (plan_view plan.now)) }
{}

/// The law that for each pipe of a layout at most one fetches: with `plan_layout::sources_are_fetched`, one for each that
/// reads a fragment.
pub fn sources_are_fetched_once(plan: &Plan)
    ensures { (p : Parallelism) → AreFetchedOnce (layout_of p (plan_view plan.now)) }
{}

/// The law that what gives to a union is one of its two sides.
pub fn unions_have_two_sides(plan: &Plan)
    ensures { (p : Parallelism) → GiveToUnions (layout_of p (plan_view plan.now)) }
{}

/// The law that what gives to a pipe that reads a fragment is the one pipe of the fragment's root.
pub fn readers_have_one_root(plan: &Plan)
    ensures { IsConsistent (plan_view plan.now) → (p : Parallelism)
        → GiveToReaders (layout_of p (plan_view plan.now)) }
{}

/// The law that one pipe gives the result, by one driver in one task.
pub fn results_have_one_driver(plan: &Plan)
    ensures { IsConsistent (plan_view plan.now) → (p : Parallelism)
        → HasOneResult (layout_of p (plan_view plan.now)) }
{}

/// The law that in a consistent plan each fragment but the first is read by one pipe of the layout, of a fragment
/// before it, and that the pipe of its root gives its rows to this one.
pub fn fragments_are_read(plan: &Plan)
    ensures readers { IsConsistent (plan_view plan.now) → (p : Parallelism) (number : ℕ)
        → 0 < number → number < length (plan_view plan.now).fragments
        → IsReader (layout_of p (plan_view plan.now)) number
        (reader_of number (layout_of p (plan_view plan.now))) }
    ensures roots { IsConsistent (plan_view plan.now) → (p : Parallelism) (number : ℕ)
        (f : FragmentForm) → slice_get (plan_view plan.now).fragments number ≡ Some f
        → (at : ℕ) × IsRootAt (layout_of p (plan_view plan.now)) p
        (plan_view plan.now).fragments number f at }
{}

/// The law that the pipes of the layout of a consistent plan run the plan as it runs, from the pipe that gives the
/// result, in the one task of fragment 0.
pub fn pipes_run_plans(plan: &Plan)
    ensures { IsConsistent (plan_view plan.now) → (p : Parallelism) (f : FragmentForm)
        → slice_get (plan_view plan.now).fragments 0 ≡ Some f
        → (at : ℕ) × PipeIn (layout_of p (plan_view plan.now)) 1 pipes.result at
        (RunsAs (layout_of p (plan_view plan.now)) 1 (plan_run p.tasks (plan_view plan.now))) }
{}

/// The law that they run it in all pipes: each pipe of the layout of a consistent plan that does not fetch for another is
/// the one that gives the result, or begins below it where the plan has a source, a right side of a join, or a side of a
/// union.
pub fn pipes_are_reached(plan: &Plan)
    ensures { IsConsistent (plan_view plan.now) → (p : Parallelism) (f : FragmentForm)
        → slice_get (plan_view plan.now).fragments 0 ≡ Some f
        → AreReached (layout_of p (plan_view plan.now)) (plan_run p.tasks (plan_view plan.now)) }
{}
