//! The laws that groups keep to their types: no code, and no operator.
//!
//! Of rows that have their types, the rows of the groups have the types of their keys and of the
//! results of the calls, and the partial rows between the halves of an aggregate have the types of
//! their layout. A sum of decimals and an average never outgrow theirs; a sum of bigints that would
//! is a failure and no value. Each row that has its types, and each partial row of such rows, passes
//! what a group asks of it before it is taken.
//!
//! - `laws`: what is promised
#![tactic(auto)]

mod laws;

pub use laws::{
    partial_rows_have_types, results_of_groups_have_types, typed_partial_rows_are_taken,
    typed_rows_are_taken,
};
