//! A text in CSV read as a table, or printed, by several threads, a part of it each.
//!
//! `read_table_in_parts` gives what `csv_tables::read_table` gives, and `text_in_parts`, of pages, what
//! `csv_tables::text_of` gives of their rows, by the same definitions. The text comes in chunks, so that no part of it is
//! copied behind another.
//!
//! - `cut`: where a text without quotes is cut
//! - `joined`: the rows of two parts, and where a fault of the second stands
//! - `parts`: parts read side by side
//! - `table`: the table, whose header is read first
//! - `texts`: the text of a result, whose pages are printed side by side
//! - `text_chunks`: such a text
#![tactic(auto)]

mod cut;
mod joined;
mod parts;
mod table;
mod text_chunks;
mod texts;

pub use table::{part_count, read_table_in_parts};
pub use text_chunks::TextChunks;
pub use texts::{text_in_parts, text_part_count};
