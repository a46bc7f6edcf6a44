//! The types of a plan's rows, or the first place of the document that does not fit them.
//!
//! Nodes are typed from their inputs up and fragments from the last to the first, since a fragment
//! is read by those before it. `specs/Nodes.antt` and `specs/Plans.antt` say so as one fold, whose
//! parts are the operators of `specs/Operators.antt`.
//!
//! - `row_types`: the types of the rows of a node
//! - `faults`: the entry of a list that does not fit, by `specs/Faults.antt`
//! - `cells`, `aggregates`, `operators`: what each operator makes of the types of its inputs
//! - `nodes`, `plans`: nodes, fragments and the plan
#![tactic(auto)]

mod aggregates;
mod cells;
mod faults;
mod nodes;
mod operators;
mod plans;
mod row_types;

pub use faults::refused_at;
pub use plans::{root_path, type_plan};
pub use row_types::RowTypes;
