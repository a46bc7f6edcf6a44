//! Items that are given turns by several workers, who share them.
//!
//! An item (`TakesTurns`) works a turn at a time, and says what a turn came to. `run_on_workers` takes items, and gives
//! turns until all are finished or one has failed; then all come back, each at the place at which it came. What runs
//! is up to the item's type: `follows` says what stays of an item over its turns, and what comes back follows what came.
//!
//! A worker takes the item that the queue picks, gives it a turn with no lock held, and puts it where it belongs: back into
//! the queue, at a bell, or to those that have no more turns. A ring of a bell makes those ready who are parked there. A
//! worker that finds none ready sleeps, and is over where nobody can make one ready. After a fault no turn begins.
//!
//! - `turning`: the trait `TakesTurns`, and what a turn comes to (`specs/Turns.antt`)
//! - `runner`: items as they go through the pool. Of what lies behind a lock only its type is known, so each is
//!   tied by its type to the one that came: `Roster` names the items that came, and each run picks them
//! - `turned`: one turn, with what becomes of the item
//! - `pool`: `Pool`, what lies behind the lock. Each pick and put is an equation of states (`specs/Pools.antt`)
//! - `shared`: the pool behind its lock, the bells, and who sleeps
//! - `pool_bells`: the bells as a turn sees them
//! - `gather`, `end`: the items in the order in which they came, and how the run ended
//! - `run`: `run_on_workers`
//!
//! Not promised: that a run ends, that two workers work at once, and which item has its turn when.
#![tactic(auto)]

mod end;
mod gather;
mod pool;
mod pool_bells;
mod run;
mod runner;
mod shared;
mod turned;
mod turning;

pub use end::RunEnd;
pub use run::{Done, run_on_workers};
pub use turning::{TakesTurns, Turn};
