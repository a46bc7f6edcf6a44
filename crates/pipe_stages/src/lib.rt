//! The types of the rows of all pipes of a layout, and the stages of a driver, made from the steps of its pipe.
//!
//! A pipe reads, or is given rows by, pipes at later places, so the types are worked out from the last pipe on. Then each
//! is held against those of the others: what is answered is right whatever was worked out, and a layout whose pipes do
//! not fit together is answered with want of memory.
//!
//! - `table`: `PipeTypes`, and the types of a pipe by its place (`specs/Tables.antt`)
//! - `steps`: `types_after`, the types behind a step
//! - `run`: the types behind all steps of a pipe
//! - `agree`: whether those that give to a pipe give what it takes
//! - `pipes`: `types_of_pipes`, the whole
//!
//! Each stage stands as it was made, and is that of its step over rows of the types that come there: `AreStagesFor` of
//! `driver_net_laws`, for whatever net has these types and these cells.
//!
//! - `cells`: the cells of joins, and of dynamic filters (`specs/Cells.antt`)
//! - `rows`: filters and projects. `orders`: sorts, top rows and limits. `groups`: aggregates and their halves. `probes`: the
//!   probes of joins
//! - `step`: the stage of a step
//! - `stages`: `stages_of`, those of all steps
//! - `fronts`: `front_stages`, those in front of them: one for each dynamic filter of the scan, `AreInFront` of
//!   `driver_net_laws`
#![tactic(auto)]

mod agree;
mod cells;
mod fronts;
mod groups;
mod orders;
mod pipes;
mod probes;
mod rows;
mod run;
mod stages;
mod step;
mod steps;
mod table;

pub use cells::{CellTable, FilterCells, JoinCells};
pub use fronts::front_stages;
pub use pipes::types_of_pipes;
pub use stages::stages_of;
pub use steps::types_after;
pub use table::{PipeTypes, given_at, halved_at, taken_at};
