//! Finds the group of a row: the distinct keys of groups, each at a place, and an index of them by a hash
//! of their cells. NULL is a key like any other, and is the same as NULL.
//!
//! - `index`: `GroupIndex`, the keys
//! - `chains`: `HashChains`, places of one hash behind one another, from the last to the first
//! - `hashes`: hashes of the cells of a row, and of each row of a page
//!
//! No row is made and no text is copied to find a key; a key that is new is copied. Keys can stand in columns.
//! `seek_rows` finds the keys of a page together, for indexes that are larger than what is near the processor.
#![tactic(auto)]

mod chains;
mod hashes;
mod index;

pub use chains::HashChains;
pub use index::GroupIndex;
