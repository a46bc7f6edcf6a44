//! The plan that a document means, for every document.
//!
//! The conversion is total: what is missing is the number 0, an empty text or list, or a leaf, so
//! that only memory can be wanting. Documents that say less than a plan are refused by the checks
//! of the document's places. Names are numbers from here on. A text that writes no value of its
//! type is kept as a value that the type does not have, for the check of types to refuse.
//!
//! Contracts see a plan as its form, without memory (`specs/Nodes.antt`, `specs/Plans.antt`), and
//! `plan_of` of `specs/Documents.antt` is the form that a document means.
//!
//! - `node`, `plan`: the types
//! - `words`, `names`: what a word or a name says, by `specs/Words.antt` and `specs/Names.antt`
//! - `exprs`, `cells`, `parts`: expressions, values and the lists of a node, by `specs/Exprs.antt`,
//!   `specs/Cells.antt` and `specs/Parts.antt`
//! - `leaves`, `inner`, `read_nodes`: nodes, by `specs/ReadNodes.antt`
//! - `tables`, `read`: the plan
#![tactic(auto)]

mod cells;
mod exprs;
mod inner;
mod leaves;
mod names;
mod node;
mod parts;
mod plan;
mod read;
mod read_nodes;
mod tables;
mod words;

pub use node::{DynamicFilter, DynamicFilters, Node, NodeOperator, NodeStep};
pub use plan::{Fragment, Fragments, Output, Placement, Plan, TableDoc, TableDocs};
pub use plan_trees::{CallList, KeyList, Pair, Pairs};
pub use read::read_plan_doc;
