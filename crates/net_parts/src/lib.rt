//! What a driver of a laid out plan is made of: its source, its stages and its target, with the seats that it takes of what
//! the drivers share.
//!
//! `source_of`, `stages_for` and `target_of` promise that what they give is that of the pipe, in its task, in each net whose
//! drivers share what the seats of the stock are of (`IsSourceFor`, `AreStagesOf`, `IsTargetFor`), and that it stands as it
//! was made. A stock gains no seat by them (`AreLeft`). They ask that drivers can be made of the layout (`CanMake`), that its
//! seats are as they were handed out (`IsStocked`), and that what the pipe reads, and its steps, fit its types
//! (`SourceFits`, `StepsFit`), each for what it makes.
//!
//! In front of the stages for its steps a driver has one for each dynamic filter of its scan, and a target that builds
//! the right side of a join publishes, for each filter of the join, in the part of its task. A filter without a cell, or
//! without its pair of columns, and a seat that is not there are answered with want of memory.
//!
//! `Slots` keeps items by their numbers. A slot that is filled twice, or stays empty, is answered with want of memory.
//!
//! - `making`: `Making`, what all drivers are made of (`specs/Makings.antt`)
//! - `source`: the source of a driver. `stages`: its stages. `target`: its target, of which `builds` makes that which
//!   builds the right side of a join
//! - `slots`: `Slots`
//!
//! It passes on what of the crates below a net is made of beside them: the layout and its pipes, their types, the cells,
//! the stock and its lanes, and drivers.
#![tactic(auto)]

mod builds;
mod making;
mod slots;
mod source;
mod stages;
mod target;

pub use driver_loop::Driver;
pub use making::Making;
pub use pipe_stages::{FilterCells, JoinCells, types_of_pipes};
pub use plan_layout::{Layout, Pipe, PlacedFilter, scan_filters};
pub use seat_stocks::{Lanes, Stock};
pub use slots::Slots;
pub use source::source_of;
pub use stages::stages_for;
pub use target::target_of;
