//! The ground floor: types, values, rows, and what is done with a value alone.
//!
//! Contracts see a text as its bytes, a row as its list of values and every list of this crate as
//! that list. Each public call equals its definition:
//!
//! - `text`, `types`, `value`, `items`, `row`, `row_list`, `table`: the types. `specs/Cells.antt`
//!   says what stands in a column of a row, `specs/Types.antt` which values have a type,
//!   `specs/Bags.antt` what it means that two lists hold the same rows
//! - `plain_block`, `dictionary`, `block`, `column_rows`: cells of one type in one vector with their
//!   nulls; such cells shared by many; a column of cells, which is plain, a run of one cell or a
//!   dictionary (`specs/Shared.antt`), and nothing but its time tells which; and columns of one
//!   length seen as their rows, by `specs/Blocks.antt` and `specs/ColumnRows.antt`. A list of rows
//!   of known types keeps such columns (`RowList::of_types`, `RowBuilder`), and falls back to rows
//!   where a row does not fit; nothing above can tell the two apart, but by their time
//! - `value_texts`, `type_texts`: values and types as texts, by `specs/Texts.antt` and
//!   `specs/TypeTexts.antt`; what is printed reads back as the value
//! - `order`: rows by sort keys, by `specs/Order.antt`
//! - `hash`: the bucket of a key, value by value where its values stand in columns, by `specs/Buckets.antt`
//! - `relational`, `fail`, `memory`: types that the crates above share
#![tactic(auto)]

mod block;
mod block_cells;
mod column_rows;
mod dictionary;
mod fail;
mod hash;
mod items;
mod memory;
mod order;
mod plain_block;
mod relational;
mod row;
mod row_builder;
mod row_list;
mod table;
mod text;
mod type_texts;
mod types;
mod value;
mod value_texts;

pub use block::{Block, Form, typed_values_fit_blocks};
pub use column_rows::ColumnRows;
pub use decimals::{Decimal, OutOfRange};
pub use dictionary::Dictionary;
pub use fail::{EvalFault, Fail};
pub use hash::{EMPTY_HASH, bucket};
pub use items::Items;
pub use memory::Memory;
pub use order::{
    KeySpec, Order, compare_cells, compare_rows, compare_values, equal_values_are_the_same,
    rows_are_ordered,
};
pub use plain_block::PlainBlock;
pub use relational::{Call, JoinKind};
pub use row::Row;
pub use row_builder::RowBuilder;
pub use row_list::RowList;
pub use table::Table;
pub use text::Text;
pub use type_texts::{parse_type, print_type, type_reads_back};
pub use types::{Column, Columns, Names, Places, SqlType, Types};
pub use value::{Value, ValueRef};
pub use value_texts::{LONGEST_TEXT, ParseFault, parse_value, print_value, text_reads_back};
