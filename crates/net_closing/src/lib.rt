//! The end of a run of a laid out plan: its drivers are taken apart, and all that they shared comes back.
//!
//! `close` promises (`AreSettled` of `driver_net_laws`) that each driver stands as it says; that of each table, and of each edge
//! in each task, all seats came back, so that what was taken is known to be a part of what was put, and all of it where it
//! ended; and that what one driver learned of a cell, or of a part of one, another one published there. It gives the rows
//! that the driver of the result was given, and how many rows passed each dynamic filter that is waited for. Nothing is
//! believed that cannot be known: where a seat is not there, or there are not as many as their edge has, memory counts as
//! wanting.
//!
//! - `held`: what drivers hand back, by the numbers of the drivers, until it is taken (`specs/Held.antt`)
//! - `parts`: drivers are taken apart (`specs/Left.antt`)
//! - `notes`: what they know of cells, of joins and of dynamic filters. `follow`: it is compared
//! - `counts`: how many rows passed the dynamic filters, in all drivers of their scans (`specs/Counts.antt`)
//! - `collect`: the seats of one edge, or of one table, are taken, in the order of `driver_net_laws`
//! - `settle`: they are given back (`specs/Back.antt`)
//! - `cover`: each driver is one of a pipe
//! - `result`: the rows that the driver of the result was given (`specs/Results.antt`)
//! - `closing`: the whole
#![tactic(auto)]

mod closing;
mod collect;
mod counts;
mod cover;
mod follow;
mod held;
mod notes;
mod parts;
mod result;
mod settle;

pub use closing::{Closed, close};
pub use counts::{FilterPassed, PassedList};
