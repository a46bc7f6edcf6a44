ghost use Rattle.std.specs.Prelude.{All, map};
ghost use Rattle.sql_values.specs.Types.{IsType};
ghost use Rattle.plan_docs.specs.Plans.{plan_view};
ghost use Rattle.plan_reader.specs.Trees.{tree_of};
ghost use Rattle.tree_evaluator.specs.Stops.{rows_of_table};
ghost use Rattle.plan_fit_laws.specs.Tables.{HaveColumns, WasRead};
ghost use Rattle.tree_type_laws.specs.TypedTrees.{TypedTables};
ghost use Rattle.plan_type_laws.specs.Tables.{TablesTyped};

use plan_reader::Plan;
use sql_values::Table;

/// The law that the tree of a plan that was read is typed over tables whose rows have the types of the
/// columns that the plan declares: so are its scans and its constants, and each cast names a type.
#[tactic(auto, using(crate::proofs::PlanLemmas::plan_typed))]
pub fn tree_of_a_plan_is_typed(plan: &Plan, tables: &[Table])
    requires read { WasRead (plan_view plan.now) }
    requires columns { HaveColumns (plan_view plan.now).tables tables.now }
    requires typed { TablesTyped tables.now }
    ensures { TypedTables (tree_of (plan_view plan.now)) (map rows_of_table tables.now) }
{}

/// The law that each column of a table that a plan declares has a type: a decimal of 1 to 38 digits, and
/// no more of them after the point, or a type of another kind.
pub fn declared_types_are_types(plan: &Plan)
    requires { WasRead (plan_view plan.now) }
    ensures { All (λ doc. All (λ column. IsType column.kind) doc.columns) (plan_view plan.now).tables }
{}
