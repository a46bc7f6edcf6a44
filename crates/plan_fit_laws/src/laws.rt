ghost use Rattle.std.specs.Prelude.{ℕ, List, map};
ghost use Rattle.plan_docs.specs.Plans.{plan_view};
ghost use Rattle.plan_link_laws.specs.Consistent.{IsConsistent};
ghost use Rattle.plan_link_laws.specs.Trees.{tree_of};
ghost use Rattle.sql_values.specs.declared.table.Table.{Table as TableForm};
ghost use Rattle.plan_run_laws.specs.RunPlans.{tree_of_run};
ghost use Rattle.plan_spreads.specs.Runs.{plan_run};
ghost use Rattle.tree_evaluator.specs.Fits.{FitsTables, TablesFit};
ghost use Rattle.tree_evaluator.specs.Stops.{rows_of_table};
ghost use Rattle.plan_fit_laws.specs.Reads.{ReadsTables};
ghost use Rattle.plan_fit_laws.specs.Tables.{HaveColumns};

use plan_docs::Plan;

/// The law that the tree of a consistent plan, of any number of fragments and with all nodes, fits tables of the columns
/// that the plan declares; also as it runs, with any number of tasks, and that the tables which it reads are there, with
/// their columns.
pub fn consistent_plans_fit(plan: &Plan)
    ensures tree { IsConsistent (plan_view plan.now) → (tables : List TableForm)
        → HaveColumns (plan_view plan.now).tables tables → TablesFit tables
        → FitsTables (tree_of (plan_view plan.now)) (map rows_of_table tables) }
    ensures run { IsConsistent (plan_view plan.now) → (tables : List TableForm)
        → HaveColumns (plan_view plan.now).tables tables → TablesFit tables → (tasks : ℕ)
        → FitsTables (tree_of_run (plan_run tasks (plan_view plan.now))) (map rows_of_table tables)
        × ReadsTables tables (plan_run tasks (plan_view plan.now)) }
{}
