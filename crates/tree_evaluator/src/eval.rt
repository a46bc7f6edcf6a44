ghost use Rattle.std.specs.Prelude.{◌<◌, length, map, MatchResult};
ghost use Rattle.plan_trees.specs.Allowed.{Allows};
ghost use Rattle.plan_trees.specs.TreeForms.{step_view, tree_view};
ghost use Rattle.tree_evaluator.specs.Fits.{FitsTables, StepFits};
ghost use Rattle.tree_evaluator.specs.Stops.{IsEvaluated, IsStepped, StepStops, StopsFor, rows_of_table};

use crate::groups::group_rows;
use crate::joins::join_rows;
use crate::judges::{filter_rows, project_rows};
use crate::leaves::{constant_rows, scan_table};
use crate::lists::{append_rows, limit_rows, list_of};
use crate::node_rows::NodeRows;
use crate::sorts::sort_rows;
use crate::stop::EvalStop;
use plan_trees::{Tree, TreeStep, types_after};
use sql_values::{RowList, Table};
use std::alloc::Global;

/// A list of rows that the tree allows over the tables. The tree of a plan that was read fits the
/// plan's tables; `fits_tables` says whether any other does.
pub fn evaluate(alloc: Global, tree: &Tree, tables: &[Table]) -> Result<RowList, EvalStop>
    requires { FitsTables (tree_view tree.now) (map rows_of_table tables.now) }
    ensures { MatchResult result
        (Allows (tree_view tree.now) (map rows_of_table tables.now))
        (StopsFor (tree_view tree.now) (map rows_of_table tables.now)) }
{
    let rows = evaluate_node(alloc, tree, tables)?;
    Ok(list_of(alloc, rows)?)
}

/// The rows of a node, from its inputs up.
fn evaluate_node(alloc: Global, tree: &Tree, tables: &[Table]) -> Result<NodeRows, EvalStop>
    requires { FitsTables (tree_view tree.now) (map rows_of_table tables.now) }
    ensures { MatchResult result
        (IsEvaluated (tree_view tree.now) (map rows_of_table tables.now))
        (StopsFor (tree_view tree.now) (map rows_of_table tables.now)) }
{
    match tree {
        Tree::Scan {
            table,
            columns,
            types,
            ..
        } => Ok(scan_table(alloc, tables, *table, types.as_slice(), columns.as_slice())?),
        Tree::Values { types, rows, .. } => Ok(constant_rows(alloc, rows, types.as_slice())?),
        Tree::Remote { input, .. } => evaluate_node(alloc, input, tables),
        Tree::Step { id, step, input } => {
            let rows = evaluate_node(alloc, input, tables)?;
            over_step(alloc, *id, step, rows)
        }
        Tree::Join {
            kind,
            on,
            left,
            right,
            ..
        } => {
            let left = evaluate_node(alloc, left, tables)?;
            let right = evaluate_node(alloc, right, tables)?;
            Ok(join_rows(alloc, *kind, on.as_slice(), left, right)?)
        }
        Tree::Union { left, right, .. } => {
            let mut rows = evaluate_node(alloc, left, tables)?;
            let more = evaluate_node(alloc, right, tables)?;
            append_rows(&mut rows, more)?;
            Ok(rows)
        }
    }
}

/// The rows of the node of the number over those of its one input.
fn over_step(alloc: Global, id: u32, step: &TreeStep, rows: NodeRows) -> Result<NodeRows, EvalStop>
    requires some { 0 < length rows.types }
    requires fits { StepFits rows.types (step_view step.now) }
    ensures { MatchResult result
        (IsStepped (step_view step.now) rows) (StepStops id (step_view step.now) rows) }
{
    match step {
        TreeStep::Filter { predicate } => filter_rows(alloc, id, predicate, rows),
        TreeStep::Project { columns } => {
            let types = types_after(alloc, step, rows.types())?;
            project_rows(alloc, id, columns.as_slice(), types.as_slice(), rows)
        }
        TreeStep::Aggregate { keys, calls } => {
            group_rows(alloc, id, keys.as_slice(), calls.as_slice(), rows)
        }
        TreeStep::Sort { keys } => Ok(sort_rows(alloc, keys.as_slice(), rows)?),
        TreeStep::TopN { count, keys } => {
            let sorted = sort_rows(alloc, keys.as_slice(), rows)?;
            Ok(limit_rows(alloc, *count, sorted)?)
        }
        TreeStep::Limit { count } => Ok(limit_rows(alloc, *count, rows)?),
    }
}
