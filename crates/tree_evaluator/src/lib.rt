//! The plain evaluator of a tree over tables: node by node over whole lists, each as pages of the
//! node's types.
//!
//! It is the reference that operators on pages are compared with. The list that it gives is one
//! that the tree allows, and it stops only on a node that may fail with this kind (`specs/Stops.antt`). The
//! tables fit the tree and its expressions are typed (`specs/Fits.antt`): this is asked for, and
//! that the tree of a plan that was read has it is the law of `plan_fit_laws`.
//!
//! - `eval`: `evaluate`
//! - `fit`: `fits_tables`, whether a tree fits the tables. `calls`: whether aggregate calls can be made
//! - `stop`: why it stops
//! - `node_rows`: the rows of a node, as pages. `list_of` makes one list of them
//! - `leaves`: the rows of scans and constants
//! - `judges`: filters and projects
//! - `joins`: joins, by a look at each pair of rows
//! - `groups`: aggregates
//! - `sorts`: sorts, and with a limit top rows
//! - `lists`: unions and limits
#![tactic(auto)]

mod calls;
mod eval;
mod fit;
mod groups;
mod joins;
mod judges;
mod leaves;
mod lists;
mod node_rows;
mod sorts;
mod stop;

pub use eval::evaluate;
pub use fit::fits_tables;
pub use lists::list_of;
pub use node_rows::NodeRows;
pub use stop::EvalStop;
