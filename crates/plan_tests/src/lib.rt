//! Tests of the crates that read a plan document: a module for each, over its public items alone.
//!
//! - `places`: paths and pointers of `json_paths`
//! - `grammar`: the places of a document, of `plan_grammar`
//! - `trees`: the types of a tree's rows, of `plan_trees`
//! - `checks`: the first check that fails, of `plan_checks`
//! - `docs`: the plan that a document means, of `plan_docs`
//! - `types`: the types of a plan's rows, of `plan_types`
//! - `spreads`: the spreads of a plan's rows over tasks, of `plan_spreads`
//! - `layouts`: the pipes of a plan, of `plan_layout`
//! - `reader`: `read_plan` and the tree of a plan, of `plan_reader`
//! - `lines`: what the modules share: cases that are written as lines
#![tactic(auto)]

#[cfg(test)]
mod checks;
#[cfg(test)]
mod docs;
#[cfg(test)]
mod grammar;
#[cfg(test)]
mod layouts;
#[cfg(test)]
mod lines;
#[cfg(test)]
mod places;
#[cfg(test)]
mod reader;
#[cfg(test)]
mod spreads;
#[cfg(test)]
mod trees;
#[cfg(test)]
mod types;
