//! Laws of lists of rows that many tasks share: what the pieces of a join, of a grouping, of a limit or
//! of a top n make together. Plain lists: no plan, and nothing of how anything is computed. The crates
//! that put the tasks of a run together are proved from the lemmas.
//!
//! - `specs/Weights.antt`: lists seen as bags, by weights, which add up and cancel
//! - `specs/Gather.antt`: the lists of all tasks, one behind the other
//! - `specs/Buckets.antt`: the items of a bucket, and tasks that have only rows of their own
//! - `specs/Grouping.antt`, `specs/Pieces.antt`: groups by any key; the partial rows of pieces, and what
//!   they give together
//! - `specs/Firsts.antt`: the first rows of some order, and of a sorted one
//! - `laws`: what follows from these definitions
#![tactic(auto)]

mod laws;

pub use laws::{
    buckets_hold_all_rows, final_rows_have_no_order, firsts_of_firsts_are_the_firsts,
    groups_have_no_order, groups_of_buckets_are_the_groups, join_of_buckets_is_the_join,
    join_with_a_whole_right_side_is_the_join, joins_have_no_order,
    merges_of_buckets_are_the_merges, merges_of_pieces_are_the_groups, merging_is_associative,
    same_weights_are_same_bags, tops_of_tops_are_the_tops,
};
