ghost use Rattle.std.specs.Prelude.{◌≡◌, ◌↔◌, IsTrue};

use crate::items::Items;
use crate::text::Text;

/// The type of a column.
#[derive(Clone, Copy, Debug, PartialEq, Eq)]
pub enum SqlType {
    Boolean,
    /// Whole numbers of 64 bits with a sign.
    Bigint,
    /// Numbers of at most `p` digits, `s` of them after the point.
    Decimal { p: u8, s: u8 },
    /// UTF-8 texts of at most 1 000 000 bytes.
    Varchar,
    /// Days of the calendar from 0001-01-01 to 9999-12-31.
    Date,
}

impl SqlType {
    /// Whether the types are one and the same, digits and places after the point included.
    pub fn same(self, other: SqlType) -> bool
        ensures { IsTrue result ↔ (self ≡ other) }
    {
        self == other
    }
}

/// A column of a table: its name and its type.
#[derive(Drop)]
pub struct Column {
    pub name: Text,
    pub kind: SqlType,
}

/// The columns of a table, in order.
pub type Columns = Items<Column>;

/// The types of the columns of a row, in order.
pub type Types = Items<SqlType>;

/// Places of columns, from 0.
pub type Places = Items<u32>;

/// Names of columns.
pub type Names = Items<Text>;
