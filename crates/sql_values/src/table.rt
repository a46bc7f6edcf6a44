use crate::row_list::RowList;
use crate::types::Columns;

/// A table: its columns and its rows.
#[derive(Drop)]
pub struct Table {
    pub columns: Columns,
    pub rows: RowList,
}
