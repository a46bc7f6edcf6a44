ghost use Rattle.std.specs.Prelude.{◌≡◌, map, option_map, IfOk};
ghost use Rattle.std.specs.List.{find};
ghost use Rattle.serde_json.specs.View.{view};
ghost use Rattle.plan_docs.specs.Names.{column_place, column_type, has_name, place_named, places_of, scanned_columns, table_of, types_named};

use crate::words::{small, type_under};
use json_paths::Key;
use plan_grammar::{entries_under, text_of, text_under};
use serde_json::Value;
use sql_values::{Memory, Places, SqlType, Types};
use std::alloc::Global;

fn has_name(name: &str, object: &Value) -> bool
    ensures { result ≡ has_name name.now (view object.now) }
{
    text_under(object, Key::Name) == name
}

/// The place of the first object with the name: past the last where none has it.
fn place_named(name: &str, objects: &[Value]) -> usize
    ensures { result ≡ place_named name.now (map view objects.now) }
{
    for (i, object) in objects.iter().enumerate() {
        if has_name(name, object) {
            return i;
        }
    }
    objects.len()
}

fn first_named<'v>(name: &str, objects: &'v [Value]) -> Option<&'v Value>
    ensures { option_map (λ v. view v.now) result
        ≡ find (has_name name.now) (map view objects.now) }
{
    for object in objects {
        if has_name(name, object) {
            return Some(object);
        }
    }
    None
}

/// The place of the table that a scan names.
pub fn table_of(document: &Value, scan: &Value) -> usize
    ensures { result ≡ table_of (view document.now) (view scan.now) }
{
    place_named(
        text_under(scan, Key::Table),
        entries_under(document, Key::Tables),
    )
}

/// The columns of the table that a scan names.
pub fn scanned_columns<'v>(document: &'v Value, scan: &Value) -> &'v [Value]
    ensures { map view result.now ≡ scanned_columns (view document.now) (view scan.now) }
{
    let tables = entries_under(document, Key::Tables);
    let table = table_of(document, scan);
    if table < tables.len() {
        entries_under(&tables[table], Key::Columns)
    } else {
        &[]
    }
}

fn column_place(columns: &[Value], name: &Value) -> u32
    ensures { result ≡ column_place (map view columns.now) (view name.now) }
{
    small(place_named(text_of(name), columns) as u64)
}

fn column_type(columns: &[Value], name: &Value) -> SqlType
    ensures { result ≡ column_type (map view columns.now) (view name.now) }
{
    match first_named(text_of(name), columns) {
        Some(column) => type_under(column, Key::Type),
        None => SqlType::Boolean,
    }
}

/// The places of the columns with these names.
pub fn places_of(alloc: Global, columns: &[Value], names: &[Value]) -> Result<Places, Memory>
    ensures { IfOk result (λ ps. ps ≡ places_of (map view columns.now) (map view names.now)) }
{
    let mut places = Places::new(alloc);
    for name in names {
        places.push(column_place(columns, name))?;
    }
    Ok(places)
}

/// The types of the columns with these names.
pub fn types_named(alloc: Global, columns: &[Value], names: &[Value]) -> Result<Types, Memory>
    ensures { IfOk result (λ ts. ts ≡ types_named (map view columns.now) (map view names.now)) }
{
    let mut types = Types::new(alloc);
    for name in names {
        types.push(column_type(columns, name))?;
    }
    Ok(types)
}
