//! What a filter and a project make of a page.
//!
//! Rows are judged in order. The answer is the page of the rows that are kept and mapped before
//! the first row that fails, and that failure where there is one (`specs/Judged.antt`). The judges
//! are those of the tree, `filter_judge` and `project_judge`. Expressions are evaluated a column at
//! a time over positions of the page; no row is made, and no cell is copied where a block can be
//! moved.
//!
//! - `judged`: the answer, and the law that says it of the rows before a place
//! - `values`: the values of an expression before its first failure
//! - `filter`, `project`: the two judges on a page
#![tactic(auto)]

mod filter;
mod judged;
mod project;
mod values;

pub use filter::filter_page;
pub use judged::{Judged, rows_are_judged_up_to_a_place};
pub use project::project_page;
