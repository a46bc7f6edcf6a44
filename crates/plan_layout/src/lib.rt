//! How a plan is laid out on drivers: a flat list of pipes.
//!
//! A pipe is one pipeline of a fragment in all tasks of that fragment: its source, the steps of the nodes along inputs
//! and left sides, and its target. It has so many drivers in each task, and says their numbers. What pipes share is
//! named by the place of a pipe in the list: a cell by the pipe that builds it, an edge by the pipe that takes from it.
//!
//! - `pipe`: the types, by `specs/Pipes.antt`
//! - `steps`: what runs in the pipe of a node, by `specs/Steps.antt`
//! - `sides`: the pipes that begin below a node, by `specs/Sides.antt`
//! - `edges`: the pipes that fetch what others read, by `specs/Edges.antt`
//! - `filters`: the dynamic filters of a scan, by `specs/Filters.antt`
//! - `sums`: sums of numbers
//! - `layout`: the whole, by `specs/Layouts.antt`
#![tactic(auto)]

mod edges;
mod filters;
mod laws;
mod layout;
mod pipe;
mod sides;
mod steps;
mod sums;

pub use filters::{PlacedFilter, scan_filters};
pub use laws::{filters_are_for_scans, fragments_are_laid, sources_are_fetched};
pub use layout::Layout;
pub use pipe::{BuildSide, Parallelism, Pipe, PipeSource, PipeStep, PipeTarget, Series};
