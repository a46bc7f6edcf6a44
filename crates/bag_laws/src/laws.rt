//! What follows from the definitions. Tasks are numbered from 0; their lists are a function of the number.
ghost use Rattle.std.specs.Prelude.{◌≡◌, ◌↔◌, ◌<◌, All, Contains, List, length};
ghost use Rattle.bag_laws.specs.Buckets.{AllBelow, SitByBucket, at_places, key_bucket};
ghost use Rattle.bag_laws.specs.Buckets.{lefts, of_bucket, rights};
ghost use Rattle.bag_laws.specs.Firsts.{IsFirstOf, IsTopOf};
ghost use Rattle.bag_laws.specs.Gather.{gather};
ghost use Rattle.bag_laws.specs.Laws.{AreFirstsOf, AreTopsOf, JoinTogether, TaskRows};
ghost use Rattle.bag_laws.specs.Pieces.{finals_of, partials_of};
ghost use Rattle.bag_laws.specs.Weights.{SameWeights};
ghost use Rattle.relation_laws.specs.Groups.{groups_of};
ghost use Rattle.relation_laws.specs.Joins.{join_of};
ghost use Rattle.relation_laws.specs.Partials.{merged};
ghost use Rattle.sql_values.specs.Bags.{SameBag};

use sql_values::{Call, JoinKind, KeySpec, Row, RowList, SqlType, Value};

/// The law that rows weigh the same, whatever each weighs, exactly where they are permutations of one
/// another.
pub fn same_weights_are_same_bags(rows: &RowList, others: &RowList)
    ensures { SameWeights rows.now others.now ↔ SameBag rows.now others.now }
{}

/// The law that the buckets of some rows hold these rows together.
pub fn buckets_hold_all_rows(rows: &RowList, columns: &[u32], buckets: usize)
    requires { 0 < buckets }
    ensures { SameBag
        (gather buckets (λ k. of_bucket (key_bucket buckets columns.now) k rows.now))
        rows.now }
{}

/// The law that a join does not depend on the order of either side.
pub fn joins_have_no_order(
    kind: JoinKind,
    on: &[(u32, u32)],
    left_width: usize,
    right_width: usize,
    left: &RowList,
    other_left: &RowList,
    right: &RowList,
    other_right: &RowList,
)
    requires left { SameBag left.now other_left.now }
    requires right { SameBag right.now other_right.now }
    ensures { SameBag
        (join_of kind on.now left_width right_width left.now right.now)
        (join_of kind on.now left_width right_width other_left.now other_right.now) }
{}

/// The law that tasks that each have the whole right side make the join together.
pub fn join_with_a_whole_right_side_is_the_join(
    kind: JoinKind,
    on: &[(u32, u32)],
    left_width: usize,
    right_width: usize,
    tasks: usize,
    right: &RowList,
)
    ensures { (left : TaskRows) →
        gather tasks (λ k. join_of kind on.now left_width right_width (left k) right.now)
        ≡ join_of kind on.now left_width right_width (gather tasks left) right.now }
{}

/// The law that tasks make the join together where each has, of both sides, the rows of its bucket by
/// columns that the join makes equal.
pub fn join_of_buckets_is_the_join(
    kind: JoinKind,
    on: &[(u32, u32)],
    pairs: &[(u32, u32)],
    left_width: usize,
    right_width: usize,
    tasks: usize,
)
    requires { All (Contains on.now) pairs.now }
    ensures { (left right : TaskRows) →
        SitByBucket (key_bucket tasks (lefts pairs.now)) tasks left →
        SitByBucket (key_bucket tasks (rights pairs.now)) tasks right →
        JoinTogether kind on.now left_width right_width tasks left right }
{}

/// The law that groups do not depend on the order of the rows.
pub fn groups_have_no_order(
    types: &[SqlType],
    keys: &[u32],
    calls: &[Call],
    rows: &RowList,
    others: &RowList,
)
    requires { SameBag rows.now others.now }
    ensures { SameWeights
        (groups_of types.now keys.now calls.now rows.now)
        (groups_of types.now keys.now calls.now others.now) }
{}

/// The law that tasks make the groups together where each has the rows of its bucket by some of the keys.
pub fn groups_of_buckets_are_the_groups(
    types: &[SqlType],
    keys: &[u32],
    calls: &[Call],
    places: &[u32],
    tasks: usize,
)
    requires some { 0 < tasks }
    requires keyed { 0 < length keys.now }
    requires among { AllBelow (length keys.now) places.now }
    ensures { (lists : TaskRows) →
        SitByBucket (key_bucket tasks (at_places keys.now places.now)) tasks lists →
        SameWeights
        (gather tasks (λ k. groups_of types.now keys.now calls.now (lists k)))
        (groups_of types.now keys.now calls.now (gather tasks lists)) }
{}

/// The law that partial rows merge in any grouping, whatever they hold.
pub fn merging_is_associative(calls: &[Call], row: &Row, second: &Row, third: &Row)
    ensures { merged calls.now (merged calls.now row.now second.now) third.now
        ≡ merged calls.now row.now (merged calls.now second.now third.now) }
{}

/// The law that the partial rows of all pieces give the groups of all rows.
pub fn merges_of_pieces_are_the_groups(
    types: &[SqlType],
    keys: &[u32],
    calls: &[Call],
    tasks: usize,
)
    ensures { (pieces : TaskRows) →
        finals_of types.now (length keys.now) calls.now
        (gather tasks (λ k. partials_of keys.now calls.now (pieces k)))
        ≡ groups_of types.now keys.now calls.now (gather tasks pieces) }
{}

/// The law that what partial rows give does not depend on their order, whatever they hold.
pub fn final_rows_have_no_order(
    types: &[SqlType],
    width: usize,
    calls: &[Call],
    rows: &RowList,
    others: &RowList,
)
    requires { SameBag rows.now others.now }
    ensures { SameWeights
        (finals_of types.now width calls.now rows.now)
        (finals_of types.now width calls.now others.now) }
{}

/// The law that tasks merge together what one would where each has the partial rows of its bucket by some
/// of the keys.
pub fn merges_of_buckets_are_the_merges(
    types: &[SqlType],
    width: usize,
    calls: &[Call],
    columns: &[u32],
    tasks: usize,
)
    requires some { 0 < tasks }
    requires keyed { 0 < width }
    requires among { AllBelow width columns.now }
    ensures { (lists : TaskRows) →
        SitByBucket (key_bucket tasks columns.now) tasks lists →
        SameWeights
        (gather tasks (λ k. finals_of types.now width calls.now (lists k)))
        (finals_of types.now width calls.now (gather tasks lists)) }
{}

/// The law that the first rows of the first rows of all pieces are first rows of the whole.
pub fn firsts_of_firsts_are_the_firsts(count: usize, tasks: usize)
    ensures { (pieces firsts : TaskRows) → AreFirstsOf count tasks pieces firsts →
        (first : List (List Value)) → IsFirstOf count (gather tasks firsts) first →
        IsFirstOf count (gather tasks pieces) first }
{}

/// The law that the top rows of the top rows of all pieces are top rows of the whole.
pub fn tops_of_tops_are_the_tops(keys: &[KeySpec], count: usize, tasks: usize)
    ensures { (pieces tops : TaskRows) → AreTopsOf keys.now count tasks pieces tops →
        (top : List (List Value)) → IsTopOf keys.now count (gather tasks tops) top →
        IsTopOf keys.now count (gather tasks pieces) top }
{}
