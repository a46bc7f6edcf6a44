//! What an operator is, and what it promises, for any operator of a pipeline.
//!
//! An operator takes pages in and gives pages out. A driver asks `needs_input` before each
//! `add_input`, takes what `get_output` gives, calls `finish` once no page comes any more, and is
//! through with it once `is_finished` holds. Where an operator waits for a value that another
//! driver publishes, as a join for its build side, `blocked` says at which bell.
//!
//! What it computes is not a function of one call, since it may hold rows back, give them in any
//! size of page, and learn from its note in between. So the trait speaks of what is still to come.
//! With the rows `X` still to come, `may_give` holds of each list `B` that the operator may still
//! give, and `may_still_fail` of each failure that a row or a group of what it holds, or of `X`,
//! has. Each call keeps both, for every `X`, and for no rows once `finish` was called:
//!
//! - `add_input(page)`: what it may now give for `X`, it could give before for `page` and then `X`;
//!   what may now fail on `X` is what could fail on `page` and then `X`
//! - `get_output` with a page: with what it may now give after it, that page is what it could give
//!   before; what may fail stays
//! - `get_output` with none, `finish` and `blocked`: it may give nothing that it could not before;
//!   what may fail stays
//! - a failure of an expression is answered only where it could come whatever rows follow, and what
//!   the operator may give is kept as where all was well
//! - for every state and `X` there is something that it may give
//! - it is finished exactly where it was told to finish, holds nothing to give, and nothing may fail. It
//!   then gives nothing more
//!
//! `get_output` gives none exactly where it holds no row that it may give now and, once it
//! was told to finish, nothing of it may fail. It refuses input before `finish` only where it holds such a row,
//! waits, or is full: what still comes changes nothing. It says that it must wait only where a look
//! of the call found nothing, and names the bell that it then waits at with the count which this look
//! was handed, and which that bell showed. A page that it gives has a row, and no more than its page
//! size. Want of memory is never tied to a cause.
//!
//! Laws of a full state and of a note come in a group each (`specs/LawGroups.antt`): an operator that
//! is never full, or has no note, takes `never_full` or `no_note` for it, and the ghosts' defaults.
//!
//! An operator with a note also says what it took and gave while the note knew nothing (`went`).
//! When it learns its value, it is from then on as if it had been made with it (`as_made`), and
//! while it has not, it can go on for any value that it may come to know.
//!
//! A pipeline is a list of operators, its stages. `Linked stages X Y` says that they took the rows
//! `X` and gave `Y`, one to the next, and `ToldInTurn` that each was told to finish only where it
//! might be: where its giver was finished (`specs/Stages.antt`). What follows holds of any operators
//! and any number of them, none too, and is proved once:
//!
//! - `laws::follows`: what they may still give continues `Y` to what they, as made, may give
//! - `laws::finished`: where the last is finished, `Y` is what they, as made, may give for `X`, and
//!   nothing failed
//! - `laws::can_go_on`: they can go on, whatever comes and whatever their notes come to know
//! - `laws::failure`: a failure is one of a stage, as made, on what the stages before it gave
//!
//! The modules:
//!
//! - `operator`: the trait `Operator`. `specs/Rows.antt` and `specs/Answers.antt` define what it cites
//! - `stage`: its calls, each with one fact that says what it leaves (`specs/Calls.antt`). A driver
//!   keeps `Linked` and `ToldInTurn` over these by the lemmas of `proofs/LinkLemmas.antt` and
//!   `proofs/TurnLemmas.antt`
//! - `laws`: what follows for a list of stages
//! - `fault`: `OpFault`
//! - `held_pages`: `HeldPages`, the rows that an operator has still to give
//! - `late`: `Late`, the operator made of a `Kernel`: it gives no row before it was told to finish, has no note
//!   and is never full. `specs/Lates.antt` says what one promises that was just made
//!
//! `operator_examples` has four small operators that keep these promises.
#![tactic(auto)]

mod fault;
mod held_pages;
mod late;
pub mod laws;
mod operator;
pub mod stage;

pub use fault::OpFault;
pub use held_pages::HeldPages;
pub use late::{Kernel, Late};
pub use operator::Operator;
