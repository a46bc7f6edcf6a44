//! Four small operators, as patterns and as tests of what an operator promises.
//!
//! - `not_null`: `NotNull` gives at once, and may fail
//! - `at_end`: `AtEnd` gives only once `finish` was called
//! - `noted_limit`: `NotedLimit` waits for what its note learns, and is full once as many rows passed
//! - `while_wanted`: `WhileWanted` has a note and does not wait for it
//! - `note`: `Note`, which stands in for the note of a cell that is set once
//! - `typed`: two of them as stages of a driver. Their types are of no account
//!
//! `specs/Samples.antt` says what they may give.
#![tactic(auto)]

mod at_end;
mod not_null;
mod note;
mod noted_limit;
mod typed;
mod while_wanted;

pub use at_end::AtEnd;
pub use not_null::NotNull;
pub use note::Note;
pub use noted_limit::NotedLimit;
pub use while_wanted::WhileWanted;
