//! What follows from the checks of a document for its plan, in any number of fragments: as laws.
//!
//! A plan is consistent where it is that of a document of which no check fails (`specs/Consistent.antt`). A plan that was
//! read is.
//!
//! - `laws`: `halves_meet`: a PARTIAL node is the root of a fragment that a FINAL node of its operator reads, and a
//!   FINAL node reads such a root; and each fragment but the first is read by one source.
//!   `consistent_plans_are_placed`: the plan means the tree of the plan as it runs, and that is placed.
//!   `filters_reach_their_scans`: each dynamic filter names the column of a scan from which its own comes.
#![tactic(auto)]

mod laws;

pub use laws::{
    consistent_plans_are_placed, filters_reach_their_scans, halves_meet, read_plans_are_consistent,
};
