//! Expressions over the columns of a row: what they are, their types and their values.
//!
//! Contracts see an expression as its form, without memory (`specs/Forms.antt`). The value of a
//! form on a row, or its failure, is `value_of` of `specs/Meaning.antt`.
//!
//! - `expr`, `copy`: expressions and their copies
//! - `cells`, `held`: the cells of a row, and values that are lent or made
//! - `eval`, `kinds`: the value of an expression on a row, and its type, by `specs/Rows.antt`
//! - `page`, `page_row`: the values of an expression at positions of a page, by `specs/Pages.antt`
//! - `typing`, `literal`: which expressions have a type, and the path of the first part that does
//!   not fit, by `specs/Typing.antt` and `specs/Literals.antt`
//! - `calm`: expressions in which nothing can fail, by `specs/Calm.antt`
//! - `laws`: what follows from the definitions
#![tactic(auto)]

mod calm;
mod cells;
mod copy;
mod eval;
mod expr;
mod held;
mod kinds;
mod laws;
mod literal;
mod page;
mod page_row;
mod typing;

pub use calm::{is_calm, is_calm_over};
pub use cells::Cells;
pub use copy::copy_expr;
pub use eval::{eval_cells, eval_row};
pub use expr::{Branch, BranchList, Expr, ExprList};
pub use held::Held;
pub use json_paths::{Key, Step, pointer_of, then};
pub use kinds::kind_of;
pub use laws::{
    and_is_by_the_truth_table, calm_never_fails, or_is_by_the_truth_table, typed_kind,
    typed_values_fit,
};
pub use literal::is_value_of;
pub use page::{PageFault, eval_page};
pub use page_row::PageRow;
pub use sql_functions::CallName;
pub use typing::{BranchType, Misfit, TypeFault, type_at, typed};
