ghost use Rattle.std.specs.Prelude.{◌≡◌, length, map, option_map, IfOk};
ghost use Rattle.sql_exprs.specs.Calm.{are_calm, is_calm};
ghost use Rattle.sql_exprs.specs.Forms.{form_view, forms_of};
ghost use Rattle.plan_trees.specs.TreeForms.{step_view, tree_view};
ghost use Rattle.plan_trees.specs.TreeTypes.{types_of};
ghost use Rattle.column_origins.specs.Origins.{left_column, named_column, origin_of, passed_by, passed_column};

use plan_trees::{Tree, TreeStep, types_of_tree};
use sql_exprs::{Expr, is_calm_over};
use sql_values::{JoinKind, Memory, SqlType};
use std::alloc::Global;

/// A column of a scan.
#[derive(Clone, Copy)]
pub struct Origin {
    /// The scan, by its number.
    pub scan: u32,
    /// The column, by its place in the scan.
    pub column: u32,
}

/// The column of a scan from which the column at a place comes, if any. It is not asked whether the scan has so many
/// columns: of a column that the tree's rows have it has.
pub fn origin_of(alloc: Global, tree: &Tree, place: u32) -> Result<Option<Origin>, Memory>
    ensures { IfOk result (λ origin. origin ≡ origin_of (tree_view tree.now) place) }
{
    match tree {
        Tree::Scan { id, .. } => Ok(Some(Origin {
            scan: *id,
            column: place,
        })),
        Tree::Remote { input, .. } => origin_of(alloc, input, place),
        Tree::Step { step, input, .. } => match passed_by(alloc, input, step, place)? {
            Some(place) => origin_of(alloc, input, place),
            None => Ok(None),
        },
        Tree::Join { kind, left, .. } => match left_column(alloc, *kind, left, place)? {
            Some(place) => origin_of(alloc, left, place),
            None => Ok(None),
        },
        Tree::Values { .. } | Tree::Union { .. } => Ok(None),
    }
}

/// The column of the input that a step passes on at the place.
fn passed_by(
    alloc: Global,
    input: &Tree,
    step: &TreeStep,
    place: u32,
) -> Result<Option<u32>, Memory>
    ensures { IfOk result (λ passed. passed
        ≡ passed_by (step_view step.now) (types_of (tree_view input.now)) place) }
{
    match step {
        TreeStep::Filter { predicate } => {
            let calm = is_calm_filter(alloc, input, predicate)?;
            Ok(if calm { Some(place) } else { None })
        }
        TreeStep::Project { columns } => passed_column(alloc, input, columns.as_slice(), place),
        _ => Ok(None),
    }
}

fn is_calm_filter(alloc: Global, input: &Tree, predicate: &Expr) -> Result<bool, Memory>
    ensures { IfOk result
        (λ calm. calm ≡ is_calm (types_of (tree_view input.now)) (form_view predicate.now)) }
{
    let types = types_of_tree(alloc, input)?;
    Ok(is_calm_over(types.as_slice(), predicate))
}

/// The column of the input that a project passes on at the place.
fn passed_column(
    alloc: Global,
    input: &Tree,
    columns: &[Expr],
    place: u32,
) -> Result<Option<u32>, Memory>
    ensures { IfOk result (λ passed. passed
        ≡ passed_column (types_of (tree_view input.now)) (map form_view columns.now) place) }
{
    let types = types_of_tree(alloc, input)?;
    if !are_calm(types.as_slice(), columns) {
        return Ok(None);
    }
    Ok(named_column(columns.get(place as usize)))
}

/// Whether nothing in the expressions can fail, over columns of these types.
fn are_calm(types: &[SqlType], exprs: &[Expr]) -> bool
    ensures { result ≡ are_calm types.now (forms_of (map form_view exprs.now)) }
{
    for expr in exprs {
        if !is_calm_over(types, expr) {
            return false;
        }
    }
    true
}

fn named_column(expr: Option<&Expr>) -> Option<u32>
    ensures { result ≡ named_column (option_map (λ e. form_view e.now) expr.entry) }
{
    match expr {
        Some(Expr::Column(column)) => Some(*column),
        _ => None,
    }
}

/// The column of the left side that a join passes on at the place.
fn left_column(
    alloc: Global,
    kind: JoinKind,
    left: &Tree,
    place: u32,
) -> Result<Option<u32>, Memory>
    ensures { IfOk result
        (λ passed. passed ≡ left_column kind (length (types_of (tree_view left.now))) place) }
{
    if matches!(kind, JoinKind::Left) {
        return Ok(None);
    }
    let types = types_of_tree(alloc, left)?;
    if types.len() <= place as usize {
        return Ok(None);
    }
    Ok(Some(place))
}
