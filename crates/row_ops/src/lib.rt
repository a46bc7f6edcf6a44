//! Operators that keep no more of their rows than a page: filters and projects, limits, and constant rows.
//!
//! - `filter_project`: `FilterProject` keeps the rows on which its predicate is TRUE and gives the
//!   values of its columns. It judges a page as it comes in, up to the first row that fails, gives
//!   the rows before that one, and then fails as that row does
//! - `typing`: `are_typed`, whether expressions can be those of an operator over some input
//! - `expressions`: the expressions of a `FilterProject`, in a form that may go to another thread
//! - `judge_page`: what the expressions make of a page, by the judges of `page_processor`
//!
//! - `limit`: `LimitOp` gives as many of the first rows as its count says. It takes all pages in
//! - `values`: `ValuesOp` gives rows of its own in pages, each cut column by column. It needs no input
//!
//! `specs/RowJudges.antt` says what becomes of a row under a filter and a project, and
//! `specs/RowsHeld.antt`, `specs/Limits.antt` and `specs/ValueRows.antt` what the operators may still
//! give and fail on.
#![tactic(auto)]

mod expressions;
mod filter_project;
mod judge_page;
mod limit;
mod typing;
mod values;

pub use filter_project::FilterProject;
pub use limit::LimitOp;
pub use typing::are_typed;
pub use values::ValuesOp;
