//! Tests of operators, of what they stand on and of the plain evaluator: what a contract does not say of them, and values that
//! were worked out by hand or elsewhere.
//!
//! - `steps`: calls of any operator and what each must answer, one call a line
//! - `operators`: the four operators of `operator_examples`, by the calls of `operator_core`, and its laws
//! - `rows`: the filters, projects and limits of `row_ops`
//! - `values`: its rows of the plan
//! - `states`: the groups of `accumulators`
//! - `keys`: the index of `group_index`
//! - `many_groups`: the groups of `aggregation`, below and past the number from which keys are sought together
//! - `halves`: the operators of `aggregation`, in one and by the halves of `stage_meanings`; `page_texts` makes pages of texts
//!   and texts of pages, and `python_groups` has rows and their groups
//! - `lookups`: the index of `join_index`
//! - `joins`: the operator, the builder and the cells of `hash_join`
//! - `domains`: what `dyn_filter` keeps of values, of few and of many, and which pass
//! - `filters`: its cells of two parts, and what its operator lets through
//! - `trees`: small trees over constants, by `tree_evaluator`
//! - `cell_texts`: values as texts, and two results as one
//! - `sorts`: rows by one key, through `topn_sort`; `many_sorts` has more rows than are sorted without buckets
//! - `exprs`: expressions over a column of whole numbers
#![tactic(auto)]

#[cfg(test)]
mod cell_texts;
#[cfg(test)]
mod domains;
#[cfg(test)]
mod exprs;
#[cfg(test)]
mod filters;
#[cfg(test)]
mod halves;
#[cfg(test)]
mod joins;
#[cfg(test)]
mod keys;
#[cfg(test)]
mod lookups;
#[cfg(test)]
mod many_groups;
#[cfg(test)]
mod many_sorts;
#[cfg(test)]
mod operators;
#[cfg(test)]
mod page_texts;
#[cfg(test)]
mod python_groups;
#[cfg(test)]
mod rows;
#[cfg(test)]
mod sorts;
#[cfg(test)]
mod states;
#[cfg(test)]
mod steps;
#[cfg(test)]
mod trees;
#[cfg(test)]
mod values;
