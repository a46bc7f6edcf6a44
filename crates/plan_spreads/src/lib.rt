//! How the rows of a plan's nodes are spread over tasks, or the first place at which the placement of the plan is
//! broken.
//!
//! Fragment 0 is one task, the reader of a fragment decides where its rows go, and in a fragment that several tasks
//! run each node has a spread: each row in one task (`Any`), in the task that is the bucket of some columns (`By`), or
//! all rows in each task (`Every`). `spread_plan` finds a place exactly where `specs/Plans.antt` has one, and it is
//! the first.
//!
//! - `spread`, `fault`: the types
//! - `given_columns`: where an operator gives on columns, by `specs/Columns.antt`
//! - `operators`: the spread of each operator, by `specs/Operators.antt`
//! - `sources`: what remote sources read, by `specs/Sources.antt`
//! - `nodes`, `plans`: nodes, fragments and the plan, by `specs/Nodes.antt` and `specs/Plans.antt`
#![tactic(auto)]

mod fault;
mod given_columns;
mod laws;
mod nodes;
mod operators;
mod plans;
mod sources;
mod spread;

pub use fault::SpreadFault;
pub use laws::{halves_read_on, plans_are_placed, plans_fit_widths, roots_are_placed};
pub use plans::spread_plan;
pub use spread::RowSpread;
