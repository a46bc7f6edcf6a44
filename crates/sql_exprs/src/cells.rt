ghost use Rattle.std.specs.Prelude.{◌≡◌, List};
ghost use Rattle.sql_values.specs.declared.value.Value.{Value};
ghost use Rattle.sql_values.specs.Cells.{cell, lent_value};

use sql_values::{Row, ValueRef};

/// What has the cells of a row.
pub trait Cells {
    ghost values: { Self → List Value };

    /// The value in a column: NULL past the row's last one.
    fn cell(&self, column: u32) -> ValueRef<'_>
        ensures { lent_value result ≡ cell (values self.now) column };
}

impl Cells for Row {
    ghost values = { λ r. r };

    fn cell(&self, column: u32) -> ValueRef<'_> {
        Row::cell(self, column)
    }
}
