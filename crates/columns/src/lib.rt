//! Vectors of values that may be missing, in flat buffers.
//!
//! A `Nullable` keeps numbers or flags, a `Texts` keeps texts as one buffer with their ends; both
//! mark beside it which values are missing. Contracts see either as the list of its values, and
//! every call equals its function on lists: `take`, `drop`, `map`, `++`. No call takes memory for a
//! single value, and a call that wants memory and gets none leaves what it was given as it was.
//!
//! - `nullable`: `Nullable`
//! - `texts`: `Texts`
#![tactic(auto)]

mod gather;
mod nullable;
mod texts;

pub use gather::items_at;
pub use nullable::Nullable;
pub use texts::Texts;
