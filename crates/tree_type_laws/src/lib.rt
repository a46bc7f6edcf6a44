//! Values keep to their types in trees: the rows that a tree gives, or that a run which was stopped may have
//! given, have the types of its columns, where its tables and constants have the types that it says.
//!
//! - `specs/TypedTrees.antt`: lists of rows that have types, and tables that have the types of a tree
//! - `laws`: what follows from the definitions
#![tactic(auto)]

mod laws;

pub use laws::{
    rows_of_a_stopped_tree_have_types, rows_of_a_tree_have_types,
    rows_of_a_tree_skipping_failures_have_types,
};
