//! The hash of values, for tables that find rows by their cells. Any function of the values would do; it says
//! nothing of the tasks to which rows are sent (`bucket` of `sql_values` does).
//!
//! `hash_value` goes on from a hash by one more value, from `NO_VALUE` on (`specs/Hashes.antt`).
#![tactic(auto)]

mod hashes;

pub use hashes::{NO_VALUE, hash_value};
