//! The drivers of a plan, and runs of them.
//!
//! - `shape`: how the tables and the work of a run are cut
//! - `wiring`: the pipes of a plan, and what their drivers share
//! - `net`: the drivers of a plan over its tables (`specs/Nets.antt`)
//! - `alone`: `run_alone`, a run on one thread
//! - `workers`: `run_workers`, a run on several, which share the drivers
//! - `pooled`: a driver as workers share it, which meets another when it has its first turn
//! - `run_bells`: the bells of a run on one thread, which count their rings
//! - `answer`: what a net gives whose drivers had their turns. Where it is rows, the plan's tree allows them over the
//!   tables, and with them comes how many rows passed the dynamic filters (`specs/Passed.antt`); where an expression failed,
//!   its node may fail with this kind
//! - `result`: the rows of a result, in the pages in which they came
//! - `passed`: the law that these counts are what the plan's filters allow
//!
//! A run is of any plan that was read, in any number of fragments, tasks and drivers. What its drivers are made of stands
//! below (`net_making`), and so does how they are taken apart (`net_closing`) and why that is the plan's answer
//! (`net_laws`).
#![tactic(auto)]

mod alone;
mod answer;
mod net;
mod passed;
mod pooled;
mod result;
mod run_bells;
mod shape;
mod wiring;
mod workers;

pub use alone::run_alone;
pub use answer::RunDone;
pub use driver_loop::RunFault;
pub use net::Net;
pub use net_closing::{FilterPassed, PassedList};
pub use passed::counts_are_allowed;
pub use result::ResultPages;
pub use shape::Shape;
pub use wiring::Wiring;
pub use workers::run_workers;
