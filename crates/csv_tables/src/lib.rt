//! Tables from CSV and the result's text.
//!
//! `read_table` gives the table that `specs/Tables.antt` says a text is, or the first place in which
//! it is none; `text_of` gives the text of `specs/ResultTexts.antt`, and `append_page` the records of a page of it. Records are those of the crate
//! `csv` with its default settings. `specs/Fields.antt` has what a field says of a cell, both ways,
//! and `specs/Parts.antt` where a text may be cut so that its records are those of its parts.
//!
//! - `fault`: why a text is refused
//! - `records`: the records of a text, one after the other
//! - `header`, `field`, `rows`, `table`: the parts of `read_table`, and `read_part`, which reads records behind a header
//! - `lines`, `line_rows`: a text without quotes, read line by line
//! - `laws`: what follows from the definitions
//! - `field_texts`: the records of a result, appended to a text, and `page_texts`: those of its pages
//! - `result_text`: `text_of`
#![tactic(auto)]

mod fault;
mod field;
mod field_texts;
mod header;
mod laws;
mod line_rows;
mod lines;
mod page_texts;
mod records;
mod result_text;
mod rows;
mod table;

pub use fault::{MALFORMED, NOT_UTF8, TOO_MANY_ROWS, TableFault, WRONG_HEADER, WRONG_WIDTH};
pub use field_texts::append_header;
pub use laws::{
    field_reads_back, line_feeds_cut, records_are_one, records_of_parts, rows_of_a_table_are_few,
    rows_of_a_table_fit, rows_of_a_table_have_types, rows_of_parts,
};
pub use page_texts::append_page;
pub use result_text::text_of;
pub use table::{read_part, read_table};
