//! Tests of `query_runner`: whole runs over the objects in memory, and what a plan gives under every cutting; and of the types
//! of a plan's pipes.
//!
//! Plans are written with `'` for the quotation mark, and tables and answers with `~` for the line feed. A case is
//! a line `tables | names | root | rows | answer`: the tables of the plan by their short name (none: the root is the
//! whole document), the names of its output, its root with `@x` for the scans, the rows of the tables with a `;`
//! between two, and the answer: the exit status, what was written and what was written to the errors, with a `|` between them.
//!
//! - `plans`: the plan of a case
//! - `answers`: runs of `run`
//! - `plain`: texts under given arguments and picks, and those of the plain evaluator
//! - `scans`, `orders`, `aggregates`, `joins`: the cases of one fragment
//! - `demos`: runs of a demo
//! - `filters`: how many rows dynamic filters let through
//! - `fragments`: the cases of several, and `couriers`: couriers for them
//! - `workers`: runs on one worker and on more
//! - `outside`: a failing outside, and input that is cut
//! - `types`: the types of the pipes of plans, of `pipe_stages`
#![tactic(auto)]

#[cfg(test)]
mod aggregates;
#[cfg(test)]
mod answers;
#[cfg(test)]
mod couriers;
#[cfg(test)]
mod demos;
#[cfg(test)]
mod filters;
#[cfg(test)]
mod fragments;
#[cfg(test)]
mod joins;
#[cfg(test)]
mod orders;
#[cfg(test)]
mod outside;
#[cfg(test)]
mod plain;
#[cfg(test)]
mod plans;
#[cfg(test)]
mod scans;
#[cfg(test)]
mod types;
#[cfg(test)]
mod workers;
