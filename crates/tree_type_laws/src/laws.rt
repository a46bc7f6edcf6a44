//! What follows from the definitions.
ghost use Rattle.std.specs.Prelude.{map};
ghost use Rattle.plan_trees.specs.Allowed.{Allows, AllowsSkipping};
ghost use Rattle.plan_trees.specs.Stopped.{MayHaveGiven};
ghost use Rattle.plan_trees.specs.TreeForms.{tree_view};
ghost use Rattle.plan_trees.specs.TreeTypes.{types_of};
ghost use Rattle.tree_evaluator.specs.Fits.{FitsTables};
ghost use Rattle.tree_evaluator.specs.Stops.{rows_of_table};
ghost use Rattle.tree_type_laws.specs.TypedTrees.{HaveTypes, TypedTables};

use plan_trees::Tree;
use sql_values::{RowList, Table};

/// The law that rows which a tree allows have the types of its columns.
pub fn rows_of_a_tree_have_types(tree: &Tree, tables: &[Table], rows: &RowList)
    requires fit { FitsTables (tree_view tree.now) (map rows_of_table tables.now) }
    requires typed { TypedTables (tree_view tree.now) (map rows_of_table tables.now) }
    requires allowed { Allows (tree_view tree.now) (map rows_of_table tables.now) rows.now }
    ensures { HaveTypes (types_of (tree_view tree.now)) rows.now }
{}

/// The law that rows which a tree allows with failing rows and groups left out have the types of its columns.
pub fn rows_of_a_tree_skipping_failures_have_types(tree: &Tree, tables: &[Table], rows: &RowList)
    requires fit { FitsTables (tree_view tree.now) (map rows_of_table tables.now) }
    requires typed { TypedTables (tree_view tree.now) (map rows_of_table tables.now) }
    requires allowed { AllowsSkipping (tree_view tree.now) (map rows_of_table tables.now) rows.now }
    ensures { HaveTypes (types_of (tree_view tree.now)) rows.now }
{}

/// The law that rows which a run of a tree may have given by the time that something stopped it have the
/// types of its columns.
pub fn rows_of_a_stopped_tree_have_types(tree: &Tree, tables: &[Table], rows: &RowList)
    requires fit { FitsTables (tree_view tree.now) (map rows_of_table tables.now) }
    requires typed { TypedTables (tree_view tree.now) (map rows_of_table tables.now) }
    requires given { MayHaveGiven (tree_view tree.now) (map rows_of_table tables.now) rows.now }
    ensures { HaveTypes (types_of (tree_view tree.now)) rows.now }
{}
