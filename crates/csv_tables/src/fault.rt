use sql_values::Memory;
use std::alloc::{AllocError, AllocFailed};

/// The header is not the names of the columns, or there is no record.
pub const WRONG_HEADER: u8 = 1;

/// A record has more or fewer fields than there are columns.
pub const WRONG_WIDTH: u8 = 2;

/// A field is not UTF-8.
pub const NOT_UTF8: u8 = 3;

/// A field is no text of its column's type.
pub const MALFORMED: u8 = 4;

/// There is a row more than the limit.
pub const TOO_MANY_ROWS: u8 = 5;

/// Why a text was not read as a table: it is refused at a row, the header being row 0, and a column
/// of it, for one of the reasons above, or memory was wanting.
#[derive(Clone, Copy, Debug, PartialEq, Eq)]
pub enum TableFault {
    Refused { row: u32, column: u32, why: u8 },
    Memory,
}

impl From<Memory> for TableFault {
    ghost use Rattle.csv_tables.specs.declared.fault.TableFault.TheVariants as fault;
    ghost use Rattle.std.specs.Prelude.{◌≡◌};

    ghost from_gives = { λ _ e. e ≡ fault.Memory };

    fn from(_: Memory) -> TableFault {
        TableFault::Memory
    }
}

impl From<AllocError> for TableFault {
    ghost use Rattle.csv_tables.specs.declared.fault.TableFault.TheVariants as fault;
    ghost use Rattle.std.specs.Prelude.{◌≡◌};

    ghost from_gives = { λ _ e. e ≡ fault.Memory };

    fn from(_: AllocError) -> TableFault {
        TableFault::Memory
    }
}

impl<T: Drop> From<AllocFailed<T>> for TableFault {
    ghost use Rattle.csv_tables.specs.declared.fault.TableFault.TheVariants as fault;
    ghost use Rattle.std.specs.Prelude.{◌≡◌};

    ghost from_gives = { λ _ e. e ≡ fault.Memory };

    fn from(_: AllocFailed<T>) -> TableFault {
        TableFault::Memory
    }
}
