//! What a plan means, as one tree of operators with nothing on where they run.
//!
//! Contracts see a tree as its form, without memory (`specs/TreeForms.antt`). `specs/Allowed.antt`
//! says which lists of rows a tree allows over the rows of the tables, with failures not allowed or
//! left out; `specs/Stopped.antt` what may be seen of a run that was stopped.
//!
//! - `tree`: the tree, and the lists that its nodes hold
//! - `tree_types`: the types of the columns of a tree's rows, by `specs/TreeTypes.antt`
//! - `layouts`: those of rows between the halves of an aggregate, by `specs/Layouts.antt`
//! - `type_lists`: lists of types, copied, joined and compared
//! - `laws`: what follows from the definitions
#![tactic(auto)]

mod laws;
mod layouts;
mod tree;
mod tree_types;
mod type_lists;

pub use laws::{
    beginnings_may_have_been_given, nothing_is_left_out_where_nothing_fails,
    rows_have_the_width_of_the_tree, skipping_allows_some_list, skipping_allows_what_is_allowed,
    tables_have_no_order, whole_lists_may_have_been_given,
};
pub use layouts::{layout_of, partial_types};
pub use tree::{CallList, KeyList, Pair, Pairs, Tree, TreeStep};
pub use tree_types::{
    append_call_types, append_key_types, grouped_types, types_after, types_of_tree,
};
pub use type_lists::{append_types, are_same, copy_types, type_at};
