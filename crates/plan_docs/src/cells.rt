ghost use Rattle.std.specs.Prelude.{◌≡◌, map, IfOk};
ghost use Rattle.serde_json.specs.View.{view};
ghost use Rattle.sql_functions.specs.CallTypes.{type_at};
ghost use Rattle.plan_docs.specs.Cells.{cell_of, cells_from, misfit, row_of_entries, rows_of_node};

use plan_grammar::entries_in;
use serde_json::Value;
use sql_values::{Memory, ParseFault, Row, RowList, SqlType, Value as Cell, parse_value};
use std::alloc::Global;

/// A value that the type does not have.
fn misfit(kind: SqlType) -> Cell
    ensures { result ≡ misfit kind }
{
    match kind {
        SqlType::Boolean => Cell::Bigint(0),
        _ => Cell::Boolean(false),
    }
}

fn read_cell(alloc: Global, kind: SqlType, value: &Value) -> Result<Cell, Memory>
    ensures { IfOk result (λ c. c ≡ cell_of kind (view value.now)) }
{
    match value.as_str() {
        Some(text) => match parse_value(alloc, kind, text) {
            Ok(cell) => Ok(cell),
            Err(ParseFault::Malformed) => Ok(misfit(kind)),
            Err(ParseFault::Memory) => Err(Memory),
        },
        None => Ok(Cell::Null),
    }
}

/// The type at a place of a list: boolean where there is none.
fn type_at(types: &[SqlType], at: usize) -> SqlType
    ensures { result ≡ type_at types.now at }
{
    match types.get(at) {
        Some(kind) => *kind,
        None => SqlType::Boolean,
    }
}

fn read_cells(alloc: Global, types: &[SqlType], entries: &[Value]) -> Result<Vec<Cell>, Memory>
    ensures { IfOk result (λ cs. cs.items ≡ cells_from types.now 0 (map view entries.now)) }
{
    let mut cells = Vec::with_capacity(alloc, entries.len())?;
    for (i, entry) in entries.iter().enumerate() {
        cells.push(read_cell(alloc, type_at(types, i), entry)?)?;
    }
    Ok(cells)
}

fn read_row(alloc: Global, types: &[SqlType], row: &Value) -> Result<Row, Memory>
    ensures { IfOk result (λ r. r ≡ row_of_entries types.now (view row.now)) }
{
    Ok(Row::of(read_cells(alloc, types, entries_in(row))?))
}

/// The rows that the entries of a list write, with a cell of each type.
pub fn read_rows(alloc: Global, types: &[SqlType], entries: &[Value]) -> Result<RowList, Memory>
    ensures { IfOk result (λ rs. rs ≡ rows_of_node types.now (map view entries.now)) }
{
    let mut rows = RowList::of_types(alloc, types)?;
    for entry in entries {
        rows.push(read_row(alloc, types, entry)?)?;
    }
    Ok(rows)
}
