//! What the drivers of a laid out plan share, made from the layout: claims of the splits of a table, edges, and cells
//! of joins.
//!
//! - `bells`: numbers of bells, by `specs/Bells.antt`
//! - `counts`: how many put to an edge, and how many splits there are to claim, by `specs/Shares.antt`
//! - `laws`: `new_seats_are_all`: the seats that are handed out are all those of their claims or edge
//! - `seats`: the seats of what all have, by `specs/Handed.antt`
//! - `shared`: what a pipe has
//! - `wiring`: what all have, by `specs/Wirings.antt`
#![tactic(auto)]

mod bells;
mod counts;
mod laws;
mod seats;
mod shared;
mod wiring;

pub use laws::new_seats_are_all;
pub use seats::{GatherSeats, Seats, SpreadSeats};
pub use shared::Shared;
pub use wiring::Wiring;
