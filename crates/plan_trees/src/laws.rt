//! What follows from the definitions. Each is about all lists of rows, allowed or not.
ghost use Rattle.std.specs.Prelude.{◌≡◌, ◌↔◌, List};
ghost use Rattle.relation_laws.specs.Sorts.{IsBeginning};
ghost use Rattle.plan_trees.specs.Allowed.{Allows, AllowsSkipping, width_of};
ghost use Rattle.plan_trees.specs.Laws.{AllowsSome, CannotFail, SameTables};
ghost use Rattle.plan_trees.specs.Stopped.{MayHaveGiven};
ghost use Rattle.plan_trees.specs.TreeForms.{tree_view};
ghost use Rattle.plan_trees.specs.Widths.{FitsWidths};
ghost use Rattle.relation_laws.specs.Widths.{HaveWidth};

use crate::tree::Tree;
use sql_values::RowList;

/// The law that what is allowed is allowed with failures left out.
pub fn skipping_allows_what_is_allowed(tree: &Tree, tables: &[RowList], rows: &RowList)
    requires { Allows (tree_view tree.now) tables.now rows.now }
    ensures { AllowsSkipping (tree_view tree.now) tables.now rows.now }
{}

/// The law that where nothing can fail, nothing is left out.
pub fn nothing_is_left_out_where_nothing_fails(tree: &Tree, tables: &[RowList], rows: &RowList)
    requires calm { CannotFail (tree_view tree.now) tables.now }
    requires allowed { AllowsSkipping (tree_view tree.now) tables.now rows.now }
    ensures { Allows (tree_view tree.now) tables.now rows.now }
{}

/// The law that with failures left out there is always a list.
pub fn skipping_allows_some_list(tree: &Tree, tables: &[RowList])
    ensures { AllowsSome (tree_view tree.now) tables.now }
{}

/// The law that a list that is allowed with failures left out may have been given.
pub fn whole_lists_may_have_been_given(tree: &Tree, tables: &[RowList], rows: &RowList)
    requires { AllowsSkipping (tree_view tree.now) tables.now rows.now }
    ensures { MayHaveGiven (tree_view tree.now) tables.now rows.now }
{}

/// The law that the beginning of what may have been given may have been given.
pub fn beginnings_may_have_been_given(
    tree: &Tree,
    tables: &[RowList],
    rows: &RowList,
    more: &RowList,
)
    requires begins { IsBeginning rows.now more.now }
    requires given { MayHaveGiven (tree_view tree.now) tables.now more.now }
    ensures { MayHaveGiven (tree_view tree.now) tables.now rows.now }
{}

/// The law that the order of the tables' rows changes nothing that is allowed.
pub fn tables_have_no_order(tree: &Tree, tables: &[RowList], others: &[RowList], rows: &RowList)
    requires { SameTables tables.now others.now }
    ensures strict { Allows (tree_view tree.now) tables.now rows.now → Allows (tree_view tree.now) others.now rows.now }
    ensures skipping { AllowsSkipping (tree_view tree.now) tables.now rows.now → AllowsSkipping (tree_view tree.now) others.now rows.now }
{}

/// The law that the rows that are allowed have as many values as the tree has columns.
pub fn rows_have_the_width_of_the_tree(tree: &Tree, tables: &[RowList], rows: &RowList)
    requires { FitsWidths (tree_view tree.now) }
    ensures strict { Allows (tree_view tree.now) tables.now rows.now → HaveWidth (width_of (tree_view tree.now)) rows.now }
    ensures skipping { AllowsSkipping (tree_view tree.now) tables.now rows.now → HaveWidth (width_of (tree_view tree.now)) rows.now }
{}
