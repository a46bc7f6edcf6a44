//! The drivers of a laid out plan, made from its layout and the seats of what they share.
//!
//! `drivers_of` promises: there is a net of the layout over the tables of which these are all drivers, each at its number
//! and with the parts of its pipe in its task (`AreDriversOf` of `driver_net_laws`), and no turn of any was over. It asks that
//! expressions, calls and sources of the layout fit whatever types its pipes have (`LayoutFits`), and that the wiring was
//! made for it and no seat was handed out.
//!
//! What a driver is made of, with a stage for each dynamic filter of its scan and a part for each filter that it publishes,
//! comes from `net_parts`. What is not there, and a pipe of no task, are answered with want of memory.
//!
//! A slot for each number is filled by the driver that has it; a slot that is filled twice, or stays empty, is answered
//! with want of memory. So each address has its driver, and nothing of how numbers are given is to be known.
//!
//! - `driver`: a driver of its parts
//! - `pipes`: the drivers of all pipes, by their numbers (`specs/Slots.antt`)
//! - `cells`: the cells of a wiring
//! - `nets`: `drivers_of`, the whole (`specs/Nets.antt`)
#![tactic(auto)]

mod cells;
mod driver;
mod nets;
mod pipes;

pub use nets::drivers_of;
