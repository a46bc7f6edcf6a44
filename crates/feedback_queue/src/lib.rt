//! Who of those that are ready gets the next turn: five levels by the work that was done so far.
//!
//! A level weighs as much as its turns, and a turn of level n weighs 2^n: so of levels that always have work each gets
//! about half as many turns as the one below it. The lightest level in which somebody waits comes next, and in it who did the
//! least work, at a tie who came first. A level in which nobody waited catches up when one comes, so that it does not
//! take all turns that it left out. `specs/Queue.antt` says what an offer and a take make of a queue, and contracts
//! are these equations.
//!
//! - `queue`: `Feedback`. A take costs time by what waits in the level that it takes from, an offer none
//! - `level`: the levels and their numbers, `level_of`
//! - `levels`, `best`: the lightest level, and one level changed
//! - `laws`: who is picked is the first of the least; an offer and a take keep the weights of any two levels as near
//!   as they were, or within 16
//!
//! A take counts turns up to 2^59; catching up may set more.
#![tactic(auto)]

mod best;
pub mod laws;
mod level;
mod levels;
mod queue;

pub use level::level_of;
pub use queue::{Feedback, OfferMemory};
