//! What tests of several crates are made of.
//!
//! - `numbers`: rows and tables of one column of whole numbers
//! - `number_texts`: pages of a number and a text, written as `1 a,2 b`
//! - `scripts`: a courier that follows a text
//! - `still_bells`: bells that always show one count
#![tactic(auto)]

mod number_texts;
mod numbers;
mod scripts;
mod still_bells;

pub use number_texts::{number_text_page, number_text_types, write_rows};
pub use numbers::{number_row, number_table, push_number, seven_table};
pub use scripts::Script;
pub use still_bells::{StillBells, ring_nobody};
