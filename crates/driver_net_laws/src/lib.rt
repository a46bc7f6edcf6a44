//! Drivers that were made for the nodes of a plan, and all drivers of a laid out plan by number: what each is made of, and
//! what is known of all of them once they were taken apart. Definitions and laws: no code and no thread.
//!
//! - `specs/Cells.antt`: the cells that drivers look into and publish in, by the numbers of their bells
//! - `specs/FilterCells.antt`: so it is of the parts of the cells of dynamic filters
//! - `specs/Stages.antt`, `specs/Made.antt`: the stages of a driver, each made for its node, and what the notes of its probes
//!   know
//! - `drivers`: such stages, wherever they stand, are a lane of the pipe (`IsLane` of `pipe_laws`), and what they gave has the
//!   types that they were made to give
//! - `specs/Types.antt`: the types of the rows of each pipe
//! - `specs/Nets.antt`: the parts of each driver (`AreDriversOf`), with what drivers share (`Links`)
//! - `specs/Makes.antt`: what a layout has to be so that its drivers can be made (`LayoutFits`)
//! - `specs/Settled.antt`: what is known once the seats of all that they shared came back (`AreSettled`)
//! - `specs/States.antt`: the pipes as their drivers stand, as the laws of pipes see them
#![tactic(auto)]

mod drivers;

pub use drivers::{drivers_are_halved, drivers_are_lanes, drivers_give_typed_rows};
