//! Tests of the crates of values and of expressions, a module for each, and more for `sql_values` and for `sql_exprs`. What
//! they want is what PostgreSQL and Trino document, or was computed outside or by hand.
//!
//! - `column_tests`, `decimal_tests`, `scalar_tests`, `list_tests`, `block_tests`, `form_tests`, `value_tests`, `page_tests`: `columns`,
//!   `decimals`, `scalar_texts`, `sql_values` and `col_pages`
//! - `function_tests`: `sql_functions`
//! - `expr_tests`, with its `expr_cases`, and `typing_tests`: `sql_exprs`
//! - `column_expr_tests`, `lane_tests`, `chain_tests`, `choice_tests`: `column_exprs`
#![tactic(auto)]

#[cfg(test)]
mod block_tests;
#[cfg(test)]
mod chain_tests;
#[cfg(test)]
mod choice_tests;
#[cfg(test)]
mod column_expr_tests;
#[cfg(test)]
mod column_tests;
#[cfg(test)]
mod decimal_tests;
#[cfg(test)]
mod expr_cases;
#[cfg(test)]
mod expr_tests;
#[cfg(test)]
mod form_tests;
#[cfg(test)]
mod function_tests;
#[cfg(test)]
mod lane_tests;
#[cfg(test)]
mod list_tests;
#[cfg(test)]
mod page_tests;
#[cfg(test)]
mod scalar_tests;
#[cfg(test)]
mod typing_tests;
#[cfg(test)]
mod value_tests;
