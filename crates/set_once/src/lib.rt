//! Cells that are set once, between threads and with no lock.
//!
//! One driver makes a value, and others wait for it. `SetOnce` holds it: the first set stays, and each
//! later one is refused and handed back. Who sets or looks passes a note of its own, which keeps what
//! it learned: the value once it was seen, how often a set was refused, how often a look found nothing,
//! and the count that the last such set or look was handed; no clause asks whose count that is. A note that
//! knows the value never learns another, and all notes of one cell that know a value know the same one,
//! whichever threads made them.
//!
//! - `cell`: `SetOnce`, over a box of `once_cell`. No call waits, and only `set` takes memory
//! - `note`: `SetNote`. Contracts see it as what it knows (`specs/Notes.antt`)
//! - `fault`: `SetFault`, why a value was not kept. `specs/Answers.antt` says what a set answers
//!
//! What a cell holds no clause knows. So it is tested, and not proved, that an empty cell takes a value
//! and that a look finds it; and it is trusted that the two counts rise only where the cell refused or
//! showed nothing.
#![tactic(auto)]

mod cell;
mod fault;
mod note;

pub use cell::SetOnce;
pub use fault::SetFault;
pub use note::SetNote;
