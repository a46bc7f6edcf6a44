//! Joins, groups, aggregates and sorts, as relations between lists of rows. No plan, and nothing of
//! how they are computed: the crates that compute are proved against them.
//!
//! - `specs/Equality.antt`: when values and rows are the same
//! - `specs/Joins.antt`: the rows of a join on the equality of columns
//! - `specs/Aggregates.antt`, `specs/Groups.antt`: the results of calls over a group as a whole, and
//!   the groups of a list of rows
//! - `specs/Partials.antt`: the partial row of a group, how two are merged, and what results it gives
//! - `specs/Sorts.antt`: the sorted lists of some rows
//! - `specs/Verdicts.antt`: what an operator says of a row or of a group
//! - `laws`: what follows from these definitions
#![tactic(auto)]

mod laws;

pub use laws::{
    each_list_can_be_sorted, join_with_nothing, no_row_is_no_group, no_row_is_one_group,
    null_has_no_partner, partials_have_no_order, partials_merge, partials_tell_results,
    results_have_no_order, same_rows_are_equal, same_values_are_equal,
};
