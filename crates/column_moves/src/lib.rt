//! Rows in columns put together with rows in columns, without a row or a value on its own.
//!
//! - `behind`: the rows of one behind those of another of the same types, column by column. Where
//!   memory does not suffice the columns are as they were
//! - `beside`: to each row the cells of another at its place: the columns of one, and then those of
//!   the other
//!
//! `specs/Joined.antt` says what either makes of lists.
#![tactic(auto)]

mod behind;
mod beside;

pub use behind::{append_each, join_rows};
pub use beside::rows_beside;
