//! The seats of what the drivers of a layout share, in lanes, from which each driver takes its own.
//!
//! All seats of one side of an edge are alike but for their numbers, so whoever is to have one takes the last that is
//! left. A lane that has none answers want of memory.
//!
//! - `shelf`: `Shelf`, lanes of seats of one kind (`specs/Shelves.antt`)
//! - `stock`: `Stock`, a shelf of each kind (`specs/Stocks.antt`), made of the seats that a wiring hands out
//! - `lanes`: `Lanes`, which lane a pipe and a task have (`specs/Lanes.antt`)
//! - `laws`: `stocks_are_labelled`: the seats of a lane are of one edge, or claims, and new (`specs/Labels.antt`), and so
//!   they stay while some are taken
#![tactic(auto)]

mod lanes;
mod laws;
mod shelf;
mod stock;

pub use lanes::Lanes;
pub use laws::stocks_are_labelled;
pub use stock::Stock;
