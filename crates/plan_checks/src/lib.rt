//! The checks of a plan document that need only its own places, each with its place and its code.
//!
//! `specs/Documents.antt` has the one definition of the order: by codes, and for each code the
//! first place of the walk at which the check fails.
//!
//! - `shapes`: code 2, kinds of JSON, keys and words
//! - `limits`: code 3
//! - `names`, `types`: code 4, names that nothing has or that are given twice
//! - `fragments`: code 6, which fragment reads which
//! - `halves`: code 7, the two halves of an operator
//! - `refusal`, `fault`: the first of all, and as the answer
//! - `read`: `read_document`
#![tactic(auto)]

mod fault;
mod fragments;
mod halves;
mod limits;
mod names;
mod read;
mod refusal;
mod shapes;
mod types;

pub use fault::PlanFault;
pub use read::{documents_are_one, read_document};
