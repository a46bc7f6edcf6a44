//! The places of a plan document: its keys, paths of keys and indices, and their JSON Pointers.
//!
//! `specs/Places.antt` has the text of each key and of a path.
//!
//! - `key`: the keys
//! - `step`: a step of a path
//! - `path`: paths, one step longer, and as a pointer
#![tactic(auto)]

mod key;
mod path;
mod step;

pub use key::Key;
pub use path::{pointer_of, then};
pub use step::Step;
