//! Pages: rows in columns, at most 8 192 of them, and their builders.
//!
//! Contracts see a page as its types and its list of rows, and a list of pages as that list. Each
//! call is that of lists of rows: `slice` is `take` and `drop`, `select` takes the rows at the
//! places in the places' order, `copy` equals its source. A page's columns are the blocks of
//! `sql_values`: plain, runs or dictionaries; they go in and out of a page without a copy, and a
//! table that keeps columns gives pages column by column, a column of one value as a run.
//!
//! - `page`: `Page`
//! - `page_builder`: `PageBuilder`
//! - `page_list`: `PageList`
#![tactic(auto)]

mod page;
mod page_builder;
mod page_list;

pub use page::{MOST_ROWS, Page};
pub use page_builder::PageBuilder;
pub use page_list::PageList;
pub use sql_values::{Block, Dictionary, Form, PlainBlock};
