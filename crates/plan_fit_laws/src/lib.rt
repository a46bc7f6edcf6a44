//! The laws of a plan that was read, over the tables that are read for it, in any number of fragments.
//!
//! - `laws`: `consistent_plans_fit`: its tree fits the tables: each column that a scan takes has the
//!   type that the plan declares, each constant the type of its column, each expression has a type,
//!   each aggregate call can be made, and each node has a column. So an evaluator may ask for it, and
//!   no run refuses a plan that was read. So it is of the plan as it runs, and each table that it
//!   reads is there, with its columns.
//!
//! `specs/Tables.antt` says which plans were read, and which tables have the columns that are declared.
#![tactic(auto)]

mod laws;

pub use laws::consistent_plans_fit;
