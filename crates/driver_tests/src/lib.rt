//! Tests of drivers: what a contract does not say of their moves and turns, and values worked out by hand.
//!
//! - `fixtures`: a source without a page, a target that keeps its pages, bells, and stages of `operator_examples`
//! - `moves`: the moves of `stage_moves`
//! - `turns`: the turns of `driver_turns`
//! - `parts`: types, rows and results
//! - `runs`: turns of drivers, and what they gave
//! - `drivers`: of `driver_loop`, drivers that scan a table
//! - `joins`: a driver that builds the right side of a join, and one that probes it
//! - `filters`: a driver that drops rows by a dynamic filter, and one that publishes the domains
//! - `edge_drivers`: drivers that put to edges, and drivers that take from them
//! - `edges`: turns of drivers that wait for one another at edges
//! - `slow`: a courier that misses turns
//! - `fetches`: a driver puts rows to an edge, one fetches them and deals them to another edge, and a third takes them
//! - `halves`: two drivers that give partial rows of an aggregate to an edge, and one that merges them
#![tactic(auto)]

#[cfg(test)]
mod drivers;
#[cfg(test)]
mod edge_drivers;
#[cfg(test)]
mod edges;
#[cfg(test)]
mod fetches;
#[cfg(test)]
mod filters;
#[cfg(test)]
mod fixtures;
#[cfg(test)]
mod halves;
#[cfg(test)]
mod joins;
#[cfg(test)]
mod moves;
#[cfg(test)]
mod parts;
#[cfg(test)]
mod runs;
#[cfg(test)]
mod slow;
#[cfg(test)]
mod turns;
