//! Moves of pages along the stages of a driver, for any operators and any number of them, none too.
//!
//! A driver takes pages from its source, moves them from stage to stage and gives what the last one gives
//! to its target. Each move here is one step of that. What it promises is said over any operators:
//!
//! - `Linked` goes on: what the stages took and gave before the move, with the page that the move took or
//!   gave, is what they took and gave after it
//! - `ToldInTurn` stays: a stage is told to finish only where its giver is finished
//! - each stage was made as before
//! - the rows that it answers are those that entered a stage or the target, no more and no fewer, also where a
//!   stage failed on them: `LinkedBy` counts them, and `Counted` says that the count rose by the answer
//!   (`specs/Counts.antt`)
//! - where a pass moved no row and has no page for the target, nothing could move: no stage holds a row that the next
//!   one would take, nor the last one a row for a target that wants a page (`IsQuiet`, `specs/Quiet.antt`)
//! - a failure is one of a stage here, whatever rows still come to it (`specs/Moves.antt`)
//!
//! After want of memory nothing is said of the stages. A page of other types than a stage expects counts as want
//! of memory: the wiring never makes one.
//!
//! - `typed_operator`: `TypedOperator`, an operator that knows the types of the rows that it expects
//! - `moves`: the moves
//! - `ends`: `PageSource` and `PageTarget`, where pages come from and go to. What may wait at an end is a call of
//!   its own, apart from the pass (`specs/Looks.antt`)
//! - `one_pass`: one pass over all stages, up to the page that comes out for the target. `Passed`
//!   (`specs/Passes.antt`) says that what the stages took and gave goes on as what the source gave and the target
//!   was given
#![tactic(auto)]

mod ends;
mod moves;
mod one_pass;
mod typed_operator;

pub use ends::{PageSource, PageTarget, Ready};
pub use moves::{Moving, are_finished, drain, feed, move_page, pass_end, takes_input};
pub use one_pass::{Passing, give_page, move_pages, pass, take_page};
pub use typed_operator::TypedOperator;
