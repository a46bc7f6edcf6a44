//! How the pieces of a run make the answer of its plan, as laws of plain lists: no code, no
//! thread and no operator.
//!
//! - `specs/RunPlans.antt`: a plan as it runs, with the edges between tasks, and the tree that
//!   it means
//! - `specs/Spreads.antt`: how a node's rows are spread over tasks, and what these then say of
//!   the tree
//! - `specs/Placements.antt`: which spread a node has, rule by rule
//! - `specs/Runs.antt`: what the tasks gave at each node
//! - `specs/Stages.antt`: the stages of drivers; what a step is as a stage, and in halves
//! - `specs/Nets.antt`: the drivers of the tasks, which stages they have, and what passes between
//!   them
//! - `specs/Stops.antt`, `specs/Faults.antt`: a run that something stopped, and a driver that
//!   failed in it
//! - `specs/Wholes.antt`: the whole run that a stopped one is the beginning of
//! - `laws`: what follows
#![tactic(auto)]

mod laws;

pub use laws::{
    drivers_compose, failures_compose, spreads_hold, stopped_runs_go_on, tasks_compose,
};
