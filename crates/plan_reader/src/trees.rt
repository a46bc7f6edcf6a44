ghost use Rattle.std.specs.Prelude.{◌≡◌, map, option_map, IfOk};
ghost use Rattle.plan_docs.specs.Nodes.{node_view};
ghost use Rattle.plan_docs.specs.Plans.{fragment_view, plan_view};
ghost use Rattle.plan_docs.specs.Operators.{operator_view};
ghost use Rattle.plan_trees.specs.Steps.{aggregate};
ghost use Rattle.plan_trees.specs.TreeForms.{join, pair_view, remote, scan, step as step_node, step_view, tree_view, union, values};
ghost use Rattle.plan_reader.specs.Trees.{fragment_tree, has_halves, node_tree, nothing, step_of, step_over, tree_of, whole, whole_over};

use crate::copies::{copy_exprs, copy_items, copy_rows};
use plan_docs::{Fragment, Node, NodeOperator, Plan};
use plan_trees::{Pair, Tree, TreeStep};
use sql_exprs::copy_expr;
use sql_values::{Call, JoinKind, Memory, RowList, SqlType, Types};
use std::alloc::Global;

/// What a plan means, as one tree.
#[tactic(auto, unfolding(crate::specs::Trees::tree_of))]
pub fn tree(alloc: Global, plan: &Plan) -> Result<Tree, Memory>
    ensures { IfOk result (λ t. tree_view t ≡ tree_of (plan_view plan.now)) }
{
    let fragments = plan.fragments.as_slice();
    fragment_tree(alloc, fragments, fragments.len(), 0)
}

/// What stands for a fragment that is missing: no rows of no columns.
fn nothing(alloc: Global) -> Tree
    ensures { tree_view result ≡ nothing }
{
    Tree::Values {
        id: 0,
        types: Types::new(alloc),
        rows: RowList::new(alloc),
    }
}

/// The tree of a fragment, through so many fragments at most.
#[cycle(trees)]
#[tactic(auto, using(crate::proofs::SizeLemmas::fragments))]
fn fragment_tree(
    alloc: Global,
    fragments: &[Fragment],
    most: usize,
    at: usize,
) -> Result<Tree, Memory>
    ensures { IfOk result
        (λ t. tree_view t ≡ fragment_tree most (map fragment_view fragments.now) at) }
{
    if most == 0 || fragments.len() <= at {
        return Ok(nothing(alloc));
    }
    node_tree(alloc, fragments, most - 1, &fragments[at].root)
}

#[cycle(trees)]
fn inner(
    alloc: Global,
    fragments: &[Fragment],
    most: usize,
    node: &Node,
) -> Result<Box<Tree>, Memory>
    ensures { IfOk result (λ b. tree_view b.value
        ≡ node_tree (fragment_tree most (map fragment_view fragments.now)) (node_view node.now)) }
{
    Ok(Box::new(alloc, node_tree(alloc, fragments, most, node)?)?)
}

/// The tree of a node.
#[cycle(trees)]
pub fn node_tree(
    alloc: Global,
    fragments: &[Fragment],
    most: usize,
    node: &Node,
) -> Result<Tree, Memory>
    ensures { IfOk result (λ t. tree_view t
        ≡ node_tree (fragment_tree most (map fragment_view fragments.now)) (node_view node.now)) }
{
    match node {
        Node::Scan {
            id,
            table,
            columns,
            types,
        } => scan_tree(alloc, *id, *table, columns.as_slice(), types.as_slice()),
        Node::Values { id, types, rows } => values_tree(alloc, *id, types.as_slice(), rows),
        Node::Remote { id, fragment } => {
            let read = fragment_tree(alloc, fragments, most, *fragment as usize)?;
            remote(alloc, *id, read)
        }
        Node::Step {
            id,
            operator,
            input,
        } => {
            let step = tree_step(alloc, operator)?;
            let input = node_tree(alloc, fragments, most, input)?;
            step_over(alloc, *id, step, input)
        }
        Node::Join {
            id,
            kind,
            on,
            left,
            right,
            ..
        } => {
            let left = inner(alloc, fragments, most, left)?;
            let right = inner(alloc, fragments, most, right)?;
            join_tree(alloc, *id, *kind, on.as_slice(), left, right)
        }
        Node::Union { id, left, right } => {
            let left = inner(alloc, fragments, most, left)?;
            let right = inner(alloc, fragments, most, right)?;
            Ok(union_tree(*id, left, right))
        }
    }
}

fn scan_tree(
    alloc: Global,
    id: u32,
    table: u32,
    columns: &[u32],
    types: &[SqlType],
) -> Result<Tree, Memory>
    ensures { IfOk result (λ t. tree_view t ≡ scan id table columns.now types.now) }
{
    let columns = copy_items(alloc, columns)?;
    let types = copy_items(alloc, types)?;
    Ok(Tree::Scan {
        id,
        table,
        columns,
        types,
    })
}

fn values_tree(alloc: Global, id: u32, types: &[SqlType], rows: &RowList) -> Result<Tree, Memory>
    ensures { IfOk result (λ t. tree_view t ≡ values id types.now rows.now) }
{
    let rows = copy_rows(alloc, types, rows)?;
    let types = copy_items(alloc, types)?;
    Ok(Tree::Values { id, types, rows })
}

fn join_tree(
    alloc: Global,
    id: u32,
    kind: JoinKind,
    on: &[Pair],
    left: Box<Tree>,
    right: Box<Tree>,
) -> Result<Tree, Memory>
    ensures { IfOk result (λ t. tree_view t
        ≡ join id kind (map pair_view on.now) (tree_view left.value) (tree_view right.value)) }
{
    let on = copy_items(alloc, on)?;
    Ok(Tree::Join {
        id,
        kind,
        on,
        left,
        right,
    })
}

/// The step that an operator is, but for a FINAL one.
fn tree_step(alloc: Global, operator: &NodeOperator) -> Result<Option<TreeStep>, Memory>
    ensures { IfOk result (λ s. option_map step_view s ≡ step_of (operator_view operator.now)) }
{
    Ok(Some(match operator {
        NodeOperator::Filter { predicate } => TreeStep::Filter {
            predicate: copy_expr(alloc, predicate)?,
        },
        NodeOperator::Project { columns } => TreeStep::Project {
            columns: copy_exprs(alloc, columns.as_slice())?,
        },
        NodeOperator::Aggregate { keys, calls, .. } => {
            grouping(alloc, keys.as_slice(), calls.as_slice())?
        }
        NodeOperator::Sort { keys } => TreeStep::Sort {
            keys: copy_items(alloc, keys.as_slice())?,
        },
        NodeOperator::TopN { count, keys, .. } => TreeStep::TopN {
            count: *count,
            keys: copy_items(alloc, keys.as_slice())?,
        },
        NodeOperator::Limit { count, .. } => TreeStep::Limit { count: *count },
        NodeOperator::AggregateFinal | NodeOperator::TopNFinal | NodeOperator::LimitFinal => {
            return Ok(None);
        }
    }))
}

fn grouping(alloc: Global, keys: &[u32], calls: &[Call]) -> Result<TreeStep, Memory>
    ensures { IfOk result (λ s. step_view s ≡ aggregate keys.now calls.now) }
{
    let keys = copy_items(alloc, keys)?;
    let calls = copy_items(alloc, calls)?;
    Ok(TreeStep::Aggregate { keys, calls })
}

/// The tree of a step over that of its input, or of a FINAL node over what it reads.
fn step_over(alloc: Global, id: u32, step: Option<TreeStep>, input: Tree) -> Result<Tree, Memory>
    ensures { IfOk result (λ t. tree_view t
        ≡ step_over id (option_map step_view step) (tree_view input)) }
{
    match step {
        Some(step) => Ok(Tree::Step {
            id,
            step,
            input: Box::new(alloc, input)?,
        }),
        None => whole(alloc, id, input),
    }
}

fn union_tree(id: u32, left: Box<Tree>, right: Box<Tree>) -> Tree
    ensures { tree_view result ≡ union id (tree_view left.value) (tree_view right.value) }
{
    Tree::Union { id, left, right }
}

fn remote(alloc: Global, id: u32, input: Tree) -> Result<Tree, Memory>
    ensures { IfOk result (λ t. tree_view t ≡ remote id (tree_view input)) }
{
    Ok(Tree::Remote {
        id,
        input: Box::new(alloc, input)?,
    })
}

fn remote_box(alloc: Global, id: u32, input: Box<Tree>) -> Result<Box<Tree>, Memory>
    ensures { IfOk result (λ b. tree_view b.value ≡ remote id (tree_view input.value)) }
{
    Ok(Box::new(alloc, Tree::Remote { id, input })?)
}

/// The whole of a FINAL node over what it reads.
fn whole(alloc: Global, id: u32, read: Tree) -> Result<Tree, Memory>
    ensures { IfOk result (λ t. tree_view t ≡ whole id (tree_view read)) }
{
    match read {
        Tree::Remote { id: source, input } => {
            whole_over(alloc, id, source, Box::into_inner(input))
        }
        Tree::Scan { .. } => Ok(read),
        Tree::Values { .. } => Ok(read),
        Tree::Step { .. } => Ok(read),
        Tree::Join { .. } => Ok(read),
        Tree::Union { .. } => Ok(read),
    }
}

fn has_halves(step: &TreeStep) -> bool
    ensures { result ≡ has_halves (step_view step.now) }
{
    match step {
        TreeStep::Aggregate { .. } | TreeStep::TopN { .. } | TreeStep::Limit { .. } => true,
        TreeStep::Filter { .. } | TreeStep::Project { .. } | TreeStep::Sort { .. } => false,
    }
}

/// The whole of a step of which one half may stand below a remote source.
fn whole_step_over(
    alloc: Global,
    id: u32,
    source: u32,
    half: u32,
    step: TreeStep,
    input: Box<Tree>,
) -> Result<Tree, Memory>
    ensures { IfOk result (λ t. tree_view t ≡ whole_over id source
        (step_node half (step_view step) (tree_view input.value))) }
{
    if has_halves(&step) {
        let input = remote_box(alloc, source, input)?;
        return Ok(Tree::Step { id, step, input });
    }
    remote(
        alloc,
        source,
        Tree::Step {
            id: half,
            step,
            input,
        },
    )
}

/// The whole of a node of which one half stands below a remote source.
fn whole_over(alloc: Global, id: u32, source: u32, half: Tree) -> Result<Tree, Memory>
    ensures { IfOk result (λ t. tree_view t ≡ whole_over id source (tree_view half)) }
{
    match half {
        Tree::Step {
            id: half,
            step,
            input,
        } => whole_step_over(alloc, id, source, half, step, input),
        Tree::Scan { .. } => remote(alloc, source, half),
        Tree::Values { .. } => remote(alloc, source, half),
        Tree::Remote { .. } => remote(alloc, source, half),
        Tree::Join { .. } => remote(alloc, source, half),
        Tree::Union { .. } => remote(alloc, source, half),
    }
}
