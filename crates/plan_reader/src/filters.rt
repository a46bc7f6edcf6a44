ghost use Rattle.std.specs.Prelude.{◌≡◌, ◌+◌, ◌^◌, ◌<◌, length, map, None, IfOk, MatchResult};
ghost use Rattle.std.specs.List.{position_from};
ghost use Rattle.plan_docs.specs.Nodes.{node_view};
ghost use Rattle.plan_docs.specs.Plans.{fragment_view, plan_view};
ghost use Rattle.plan_trees.specs.TreeForms.{tree_view};
ghost use Rattle.plan_types.specs.Faults.{StandsIn, entry_fault};
ghost use Rattle.plan_types.specs.Plans.{root_path};
ghost use Rattle.plan_reader.specs.Filters.{first_misdirected, fragments_fault, is_misdirected, is_named, join_fault, node_fault, pair_origin, trees_of};
ghost use Rattle.plan_reader.specs.Trees.{node_tree};

use crate::trees::node_tree;
use column_origins::{Origin, origin_of};
use json_paths::{Key, Step, then};
use plan_docs::{DynamicFilter, Fragment, Node, Pair, Plan};
use plan_trees::Tree;
use plan_types::root_path;
use sql_exprs::Misfit;
use sql_values::{JoinKind, Memory};
use std::alloc::Global;

/// Passes where each dynamic filter of a plan names the column of a scan from which its own comes, and else refuses the
/// first that does not.
pub fn pass_filters(alloc: Global, plan: &Plan) -> Result<(), Misfit>
    ensures { MatchResult result (λ _. first_misdirected (plan_view plan.now) ≡ None)
        (StandsIn (first_misdirected (plan_view plan.now))) }
{
    let fragments = plan.fragments.as_slice();
    pass_fragments(alloc, fragments, 0, fragments)
}

/// The same of the fragments from one on, which are among all that may be read.
fn pass_fragments(
    alloc: Global,
    all: &[Fragment],
    at: usize,
    fragments: &[Fragment],
) -> Result<(), Misfit>
    requires { at + length fragments.now < 2 ^ 64 }
    ensures { MatchResult result
        (λ _. fragments_fault (trees_of (map fragment_view all.now)) at
        (map fragment_view fragments.now) ≡ None)
        (StandsIn (fragments_fault (trees_of (map fragment_view all.now)) at
        (map fragment_view fragments.now))) }
{
    match fragments {
        [] => Ok(()),
        [fragment, rest @ ..] => {
            let path = root_path(alloc, at)?;
            pass_node(alloc, all, path.as_slice(), &fragment.root)?;
            pass_fragments(alloc, all, at + 1, rest)
        }
    }
}

fn pass_node(alloc: Global, all: &[Fragment], path: &[Step], node: &Node) -> Result<(), Misfit>
    ensures { MatchResult result
        (λ _. node_fault (trees_of (map fragment_view all.now)) path.now (node_view node.now) ≡ None)
        (StandsIn (node_fault (trees_of (map fragment_view all.now)) path.now (node_view node.now))) }
{
    match node {
        Node::Scan { .. } | Node::Values { .. } | Node::Remote { .. } => Ok(()),
        Node::Join {
            kind,
            on,
            left,
            right,
            filters,
            ..
        } => {
            let inner = then(alloc, path, Step::Key(Key::Left))?;
            pass_node(alloc, all, inner.as_slice(), left)?;
            let inner = then(alloc, path, Step::Key(Key::Right))?;
            pass_node(alloc, all, inner.as_slice(), right)?;
            pass_join(
                alloc,
                all,
                path,
                *kind,
                on.as_slice(),
                left,
                filters.as_slice(),
            )
        }
        Node::Union { left, right, .. } => {
            let inner = then(alloc, path, Step::Key(Key::Left))?;
            pass_node(alloc, all, inner.as_slice(), left)?;
            let inner = then(alloc, path, Step::Key(Key::Right))?;
            pass_node(alloc, all, inner.as_slice(), right)
        }
        Node::Step { input, .. } => {
            let inner = then(alloc, path, Step::Key(Key::Input))?;
            pass_node(alloc, all, inner.as_slice(), input)
        }
    }
}

/// Passes where the filters of a join with this left side do. The tree of that side is made only where there are some.
fn pass_join(
    alloc: Global,
    all: &[Fragment],
    path: &[Step],
    kind: JoinKind,
    on: &[Pair],
    left: &Node,
    filters: &[DynamicFilter],
) -> Result<(), Misfit>
    ensures { MatchResult result
        (λ _. join_fault path.now kind on.now
        (node_tree (trees_of (map fragment_view all.now)) (node_view left.now)) filters.now ≡ None)
        (StandsIn (join_fault path.now kind on.now
        (node_tree (trees_of (map fragment_view all.now)) (node_view left.now)) filters.now)) }
{
    if filters.is_empty() {
        return Ok(());
    }
    let left = node_tree(alloc, all, all.len(), left)?;
    let found = first_misdirected(alloc, kind, on, &left, filters)?;
    pass_found(alloc, path, found)
}

/// Passes where no filter of the join at the path was found, and else refuses that one.
fn pass_found(alloc: Global, path: &[Step], found: Option<usize>) -> Result<(), Misfit>
    ensures { MatchResult result (λ _. entry_fault path.now Key.Filters found ≡ None)
        (StandsIn (entry_fault path.now Key.Filters found)) }
{
    match found {
        Some(index) => {
            let list = then(alloc, path, Step::Key(Key::Filters))?;
            Err(Misfit::At(then(alloc, list.as_slice(), Step::Index(index))?))
        }
        None => Ok(()),
    }
}

/// The first of a join's filters that does not name the column of a scan from which its own comes.
fn first_misdirected(
    alloc: Global,
    kind: JoinKind,
    on: &[Pair],
    left: &Tree,
    filters: &[DynamicFilter],
) -> Result<Option<usize>, Memory>
    ensures { IfOk result (λ found. found
        ≡ position_from (is_misdirected kind on.now (tree_view left.now)) 0 filters.now) }
{
    for (i, filter) in filters.iter().enumerate() {
        if is_misdirected(alloc, kind, on, left, filter)? {
            return Ok(Some(i));
        }
    }
    Ok(None)
}

fn is_misdirected(
    alloc: Global,
    kind: JoinKind,
    on: &[Pair],
    left: &Tree,
    filter: &DynamicFilter,
) -> Result<bool, Memory>
    ensures { IfOk result
        (λ misdirected. misdirected ≡ is_misdirected kind on.now (tree_view left.now) filter.now) }
{
    let origin = pair_origin(alloc, kind, on, left, filter.key)?;
    Ok(!is_named(filter, origin))
}

/// The column of a scan from which the left column of the pair at a place comes.
fn pair_origin(
    alloc: Global,
    kind: JoinKind,
    on: &[Pair],
    left: &Tree,
    key: u32,
) -> Result<Option<Origin>, Memory>
    ensures { IfOk result (λ origin. origin ≡ pair_origin kind on.now (tree_view left.now) key) }
{
    if matches!(kind, JoinKind::Left) {
        return Ok(None);
    }
    match on.get(key as usize) {
        Some(pair) => origin_of(alloc, left, pair.left),
        None => Ok(None),
    }
}

fn is_named(filter: &DynamicFilter, origin: Option<Origin>) -> bool
    ensures { result ≡ is_named filter.now origin }
{
    match origin {
        Some(origin) => origin.scan == filter.scan && origin.column == filter.column,
        None => false,
    }
}
