//! What was read has its types: the tree of a plan that was read, in any number of fragments, over
//! tables that were read for it.
//!
//! - `laws`: `tree_of_a_plan_is_typed`: each row that a scan gives and each constant has the types that
//!   the plan declares, their ranges included, and each cast names a type. `declared_types_are_types`:
//!   each column that the plan declares has a type.
#![tactic(auto)]

mod laws;

pub use laws::{declared_types_are_types, tree_of_a_plan_is_typed};
