//! The state of one group of an aggregation. An `Accumulator` takes the group's rows one by one, or partial
//! rows of other pieces of the group, and gives the group's partial row and the results of the calls.
//!
//! To contracts a group is its calls, the types of what they add, and the partial row (`specs/Groups.antt`).
//! A row is taken as its own partial row is, and the laws of `relation_laws` on partial rows say what came of all
//! rows, in whatever order and in whatever pieces: `rows_are_taken` says which rows a group took, and
//! `results_are_aggregates` that its results are theirs.
//!
//! Sums are held at 128 bits, which no sum that a group may have can pass, and are judged in the result alone.
//!
//! What a row or a part changes in a least or greatest is copied before the group changes (`specs/Firsts.antt`), so
//! that a group which wants memory is as it was.
//!
//! - `accumulator`: the group
//! - `group_states`: the groups of a table together (`specs/GroupLists.antt`)
//! - `call_column`, `call_columns`: what all groups keep of one call, each at its place, and of all calls
//! - `kept_states`, `averages`: the state at a place, and sums beside their counts
//! - `call_state`, `call_states`: what a group keeps of one call, and of all. `specs/Columns.antt` says which
//!   columns the cells of a group make, `specs/Kept.antt` how cells and columns are merged in
//! - `sums`, `firsts`: sums, counts and averages, and the first of some values
//! - `puts`: cells of a row that is written into columns
//! - `limits`: which cells and which columns a state can take, by `specs/Limits.antt`
#![tactic(auto)]

mod accumulator;
mod averages;
mod call_column;
mod call_columns;
mod call_state;
mod call_states;
mod firsts;
mod group_states;
mod kept_states;
mod limits;
mod puts;
mod sums;

pub use accumulator::Accumulator;
pub use group_states::GroupStates;
