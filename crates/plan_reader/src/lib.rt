//! Plans: a document is read into a plan, or the first check that fails is reported with its place.
//!
//! `specs/Judgement.antt` has the order of the checks as one definition: those of the document's
//! own places, then the types, then the placement (`plan_spreads`), then the paths of dynamic filters
//! (`specs/Filters.antt`). The plan of a document that passes is the one that the document means.
//! `specs/Trees.antt` says which tree of operators a plan is.
//!
//! - `filters`: what dynamic filters name
//! - `judge`: the checks of a plan
//! - `read`: `read_plan`
//! - `copies`: copies of a plan's parts
//! - `trees`: the tree of a plan
#![tactic(auto)]

mod copies;
mod filters;
mod judge;
mod read;
mod trees;

pub use copies::{copy_exprs, copy_rows};
pub use plan_checks::PlanFault;
pub use plan_docs::{
    CallList, DynamicFilter, DynamicFilters, Fragment, Fragments, KeyList, Node, NodeStep, Output,
    Pair, Pairs, Placement, Plan, TableDoc, TableDocs,
};
pub use plan_trees::Tree;
pub use read::read_plan;
pub use trees::tree;
