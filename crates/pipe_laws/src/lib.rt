//! The pipes of a plan that runs, from the operators of one driver up, as laws of lists: no code and no thread.
//!
//! A pipeline goes along inputs and left sides. The right side of a join is a pipeline of its own, whose driver builds
//! what the join looks into, so what it built is a parameter of the pipeline above it.
//!
//! - `operators`: the operators of a driver as the stages of a pipeline, for every node of a plan as it runs: halves, remote
//!   sources and unions too. `operators_go_on`, `operators_make`, `operators_finish`, `operators_fail`: operators that are
//!   the stages (`Operate` of `specs/Operators.antt`, over `stages_over` of `specs/Trees.antt`) go on as these can, make
//!   what these make, and fail as one of these does, as a driver knows of them (`specs/Stopped.antt`). `probes_look_up`: an
//!   operator that gives the join with what its note knows (`specs/Lookups.antt`) is the stage of that join, and
//!   `probe_ops_probe`: `ProbeOp` is such an operator
//! - `lanes`: the drivers of a pipeline in all tasks of its fragment. Each has operators of its own, which are the stages of
//!   the nodes from its source up (`IsLane` of `specs/Lanes.antt`); those of a fragment whose root is the first half of an
//!   operator have one more (`IsHalved`). What follows for all of them together is what the laws of whole runs ask for: that
//!   they can go on wherever they stand, what they gave where they are finished, and that a failing operator is a failure
//!   of its node
//! - `pipes`: a pipe stands at its place in the plan's layout, with so many drivers in each task of its fragment. Of a net of
//!   pipes it is said what each took of its sources (`Stands` in `specs/Pipes.antt`): of a table, of rows of the plan, of an
//!   edge, of the sides of a union; and that what a note knows of a join's right side is what the pipe of that side gave.
//!   What follows is the plan's answer: where all are over, the rows of the root are a list that the plan's tree allows, and
//!   where an operator failed, its node may fail with this kind
#![tactic(auto)]

mod lanes;
mod operators;
mod pipes;

pub use lanes::{
    halves_fail, halves_go_on, halves_make, lanes_fail, lanes_fit, lanes_go_on, lanes_make,
};
pub use operators::{
    operators_fail, operators_finish, operators_go_on, operators_make, probe_ops_probe,
    probes_look_up,
};
pub use pipes::{pipes_fail, pipes_give};
