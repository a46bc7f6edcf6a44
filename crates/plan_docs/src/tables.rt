ghost use Rattle.std.specs.Prelude.{◌≡◌, map, IfOk};
ghost use Rattle.serde_json.specs.View.{view};
ghost use Rattle.plan_docs.specs.Documents.{table_of};

use crate::parts::columns_of;
use crate::plan::{TableDoc, TableDocs};
use json_paths::Key;
use plan_grammar::{entries_under, text_under};
use serde_json::Value;
use sql_values::{Memory, Text};
use std::alloc::Global;

fn read_table(alloc: Global, table: &Value) -> Result<TableDoc, Memory>
    ensures { IfOk result (λ t. t ≡ table_of (view table.now)) }
{
    Ok(TableDoc {
        name: Text::copy_of(alloc, text_under(table, Key::Name))?,
        columns: columns_of(alloc, entries_under(table, Key::Columns))?,
    })
}

pub fn read_tables(alloc: Global, entries: &[Value]) -> Result<TableDocs, Memory>
    ensures { IfOk result (λ ts. ts ≡ map table_of (map view entries.now)) }
{
    let mut tables = TableDocs::new(alloc);
    for entry in entries {
        tables.push(read_table(alloc, entry)?)?;
    }
    Ok(tables)
}
