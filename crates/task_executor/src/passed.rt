//! How many rows passed the dynamic filters of a plan.
ghost use Rattle.std.specs.Prelude.{List};
ghost use Rattle.operator_core.specs.Rows.{Row};
ghost use Rattle.plan_docs.specs.Plans.{plan_view};
ghost use Rattle.net_closing.specs.declared.counts.FilterPassed.{FilterPassed};
ghost use Rattle.net_laws.specs.PlanCounts.{AreCountable};
ghost use Rattle.task_executor.specs.Nets.{IsNetOf, NetState};
ghost use Rattle.task_executor.specs.Passed.{AreCountsIn, HavePassed};

use driver_loop::Stage;
use net_laws::{filters_are_counted, filters_have_places};
use plan_reader::Plan;
use std::marker::PhantomData;

/// The law that the rows that passed the dynamic filters of a net's drivers are as many as the plan allows: for each filter that
/// is waited for, at most those of its scan that pass each filter with an id up to its own that is waited for, and at least
/// those that pass each filter with such an id.
pub fn counts_are_allowed<'w>(plan: &Plan, of: PhantomData<Stage<'w>>)
    ensures { (tables : List (List Row)) (net : NetState) → IsNetOf (plan_view plan.now) tables net
        → AreCountable tables → (counts : List FilterPassed) → HavePassed net counts
        → AreCountsIn (plan_view plan.now) tables counts }
{
    filters_are_counted(plan, of);
    filters_have_places(plan);
}
