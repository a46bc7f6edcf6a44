//! The values of an expression at positions of a page, a column at a time.
//!
//! `eval_columns` promises what `eval_page` of `sql_exprs` does: the values at the positions, in their order, or the first
//! position at which the expression fails, and how. Each part of the expression becomes an operand, the values that it has at
//! all positions (`specs/Operands.antt`): a column of the page is lent where the positions are those of all rows, a literal
//! stays one value, and a call makes one block. A later argument of AND, OR and COALESCE is evaluated at the positions that
//! need it alone (`specs/Chains.antt`), and so are the conditions, results and default of a case (`specs/Choices.antt`). Where
//! a row fails, or a part is not covered, there is no operand, and `eval_page` decides, row after row. So here only the values
//! have to be right, and failures are told in one place.
//!
//! - `eval`: `eval_columns`
//! - `parts`: the operands of the parts of an expression
//! - `rows`, `operand`: rows at positions, and operands
//! - `kept`: the rows that need a part of an expression (`specs/Kept.antt`)
//! - `chain`: AND, OR and COALESCE
//! - `choice`: what the conditions of a case chose, and its values
//! - `made`: the operand of a call or a cast, by those of its arguments
//! - `strict`: the values of a call or a cast, at one place after the other
//! - `compare`: comparisons of two columns of numbers, and of a column of numbers or days with a literal
//! - `lanes`: numbers compared eight at a time, and the places whose mark is set
//! - `decimal_cells`, `decimal`: sums, differences and products of decimals, with the powers of ten taken once
#![tactic(auto)]

mod chain;
mod choice;
mod compare;
mod decimal;
mod decimal_cells;
mod eval;
mod kept;
mod lanes;
mod made;
mod operand;
mod parts;
mod rows;
mod strict;

pub use compare::Compare;
pub use eval::eval_columns;
pub use lanes::{compare_lanes, is_marked, places_of};
