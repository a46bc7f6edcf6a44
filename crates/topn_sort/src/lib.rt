//! Operators that give their rows in the order of keys, once no row comes any more.
//!
//! - `sort`: `SortOp` gives all rows
//! - `topn`: `TopNOp` gives as many of the first rows as its count says, and keeps no more of them
//!   beside the page that it takes in
//! - `buffer`: `SortBuffer`, the rows of either, in typed columns. No cell is moved when they are put in
//!   order: their places are, and become the ids of dictionaries, out of which pages are cut
//! - `in_order`: rows at their places, as such columns
//! - `places`: places of rows by the order of keys
//! - `numbers`: the same where the first key is a number, a date or a truth: what its cells rank by stands beside the
//!   places, so that most pairs are compared without a look at the rows
//! - `words`: the same where it is the only key and its ranks fit in 32 bits: a place and its rank are one word
//! - `buckets`: words in order. Many are first put into buckets, each of which the nearest cache holds
//!
//! `specs/Sorting.antt` says what the operators may give. NULL is last, ascending and descending, and rows
//! that the keys do not tell apart stand in any order.
#![tactic(auto)]

mod buckets;
mod buffer;
mod in_order;
mod numbers;
mod places;
mod sort;
mod topn;
mod words;

pub use buffer::SortBuffer;
pub use sort::{SortOp, sort_op};
pub use topn::{TopNOp, TopRows, topn_op};
