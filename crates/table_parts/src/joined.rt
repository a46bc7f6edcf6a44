ghost use Rattle.std.specs.Prelude.{◌≡◌, ◌⊎◌, ◌+◌, ◌-◌, ◌^◌, ◌<◌, ◌≤◌, ◌++◌, [], length, IfOk, IfErr};
ghost use Rattle.csv_tables.specs.declared.fault.TableFault.TheVariants as fault_is;
ghost use Rattle.csv_tables.specs.Places.{too_many_rows};
ghost use Rattle.table_parts.specs.Reading.{fault_behind};

use column_moves::join_rows;
use csv_tables::{TOO_MANY_ROWS, TableFault};
use sql_values::ColumnRows;
use std::alloc::Global;

fn too_many_rows(limit: u32) -> TableFault
    requires { limit < 2 ^ 32 - 1 }
    ensures { result ≡ fault_is.Refused (limit + 1) 0 too_many_rows }
{
    TableFault::Refused {
        row: limit + 1,
        column: 0,
        why: TOO_MANY_ROWS,
    }
}

/// A fault of a part as one of the whole text, in which so many rows stand before the part.
#[tactic(auto, using(crate::proofs::FaultLemmas::moves))]
pub(crate) fn fault_behind(limit: u32, before: usize, fault: TableFault) -> TableFault
    requires { limit < 2 ^ 32 - 1 }
    ensures { result ≡ fault_behind limit before fault }
{
    let TableFault::Refused { row, column, why } = fault else {
        return TableFault::Memory;
    };
    let row = before.saturating_add(row as usize);
    if row > limit as usize {
        return too_many_rows(limit);
    }
    TableFault::Refused {
        row: row as u32,
        column,
        why,
    }
}

/// The rows of two parts, if they are no more than may be.
pub(crate) fn rows_of_both(
    alloc: Global,
    limit: u32,
    front: ColumnRows,
    back: ColumnRows,
) -> Result<ColumnRows, TableFault>
    requires limit { limit < 2 ^ 32 - 1 }
    requires whole { (front.begun ≡ []) × (back.begun ≡ []) }
    requires types { front.types ≡ back.types }
    ensures few { IfOk result (λ _. length front.rows + length back.rows ≤ limit) }
    ensures rows { IfOk result
        (λ r. r ≡ record { types = front.types; rows = front.rows ++ back.rows; begun = [] }) }
    ensures fault { IfErr result (λ fault. (fault ≡ fault_is.Memory)
        ⊎ ((limit < length front.rows + length back.rows)
        × (fault ≡ fault_is.Refused (limit + 1) 0 too_many_rows))) }
{
    if front.len().saturating_add(back.len()) > limit as usize {
        return Err(too_many_rows(limit));
    }
    Ok(join_rows(alloc, front, back)?)
}
