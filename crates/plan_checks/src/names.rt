ghost use Rattle.std.specs.Prelude.{slice_get, ◌≡◌, [], map, option_map};
ghost use Rattle.std.specs.List.{find, list_any};
ghost use Rattle.serde_json.specs.View.{view};
ghost use Rattle.plan_grammar.specs.Spots.{spot_of};
ghost use Rattle.json_paths.specs.declared.key.Key.TheVariants as key;
ghost use Rattle.plan_grammar.specs.Json.{entries_under};
ghost use Rattle.plan_checks.specs.Names.{columns_before, columns_of, first_misnamed, has_name, is_aggregate, is_call, is_misnamed, names_table, numbers_filter, numbers_node, part_index, scan_has, step_index, table_named};

use crate::types::is_type;
use json_paths::{Key, Step};
use plan_grammar::{Kind, Place, entries_under, number_of, text_of, text_under};
use serde_json::Value;

/// The first place whose name nothing has, or whose name or id a place before it has too.
pub fn first_misnamed<'p, 'v>(document: &Value, places: &'p [Place<'v>]) -> Option<&'p Place<'v>>
    ensures { option_map (λ p. spot_of p.now) result
        ≡ first_misnamed (view document.now) [] (map spot_of places.now) }
{
    for (i, place) in places.iter().enumerate() {
        if is_misnamed(document, &places[..i], place) {
            return Some(place);
        }
    }
    None
}

fn is_misnamed(document: &Value, before: &[Place<'_>], place: &Place<'_>) -> bool
    ensures { result ≡ is_misnamed (view document.now) (map spot_of before.now) (spot_of place.now) }
{
    let value = place.value;
    match place.kind {
        Kind::TableName => table_is_named(text_of(value), before),
        Kind::ColumnName => any_has_name(text_of(value), columns_before(place, document)),
        Kind::NodeId => node_is_numbered(number_of(value), before),
        Kind::FilterId => filter_is_numbered(number_of(value), before),
        Kind::Type => !is_type(text_of(value)),
        Kind::ScanTable => table_named(text_of(value), document).is_none(),
        Kind::ScanColumn => !scan_has(text_of(value), place.owner, document),
        Kind::CallName => !is_call(text_of(value)),
        Kind::AggregateName => !is_aggregate(text_of(value)),
        _ => false,
    }
}

fn table_is_named(name: &str, before: &[Place<'_>]) -> bool
    ensures { result ≡ list_any (names_table name.now) (map spot_of before.now) }
{
    for place in before {
        if names_table(name, place) {
            return true;
        }
    }
    false
}

fn names_table(name: &str, place: &Place<'_>) -> bool
    ensures { result ≡ names_table name.now (spot_of place.now) }
{
    matches!(place.kind, Kind::TableName) && text_of(place.value) == name
}

/// The columns of the table that come before the one that the place is in.
fn columns_before<'v>(place: &Place<'_>, document: &'v Value) -> &'v [Value]
    ensures { map view result.now ≡ columns_before place.now.path.items (view document.now) }
{
    let columns = columns_at(part_index(place), document);
    let index = step_index(place, 3);
    if index < columns.len() {
        &columns[..index]
    } else {
        columns
    }
}

fn columns_at(table: usize, document: &Value) -> &[Value]
    ensures { map view result.now
        ≡ columns_of (slice_get (entries_under key.Tables (view document.now)) table) }
{
    let tables = entries_under(document, Key::Tables);
    if table < tables.len() {
        entries_under(&tables[table], Key::Columns)
    } else {
        &[]
    }
}

fn node_is_numbered(id: u64, before: &[Place<'_>]) -> bool
    ensures { result ≡ list_any (numbers_node id) (map spot_of before.now) }
{
    for place in before {
        if numbers_node(id, place) {
            return true;
        }
    }
    false
}

fn numbers_node(id: u64, place: &Place<'_>) -> bool
    ensures { result ≡ numbers_node id (spot_of place.now) }
{
    matches!(place.kind, Kind::NodeId) && number_of(place.value) == id
}

fn filter_is_numbered(id: u64, before: &[Place<'_>]) -> bool
    ensures { result ≡ list_any (numbers_filter id) (map spot_of before.now) }
{
    for place in before {
        if numbers_filter(id, place) {
            return true;
        }
    }
    false
}

fn numbers_filter(id: u64, place: &Place<'_>) -> bool
    ensures { result ≡ numbers_filter id (spot_of place.now) }
{
    matches!(place.kind, Kind::FilterId) && number_of(place.value) == id
}

/// The index of the table, or fragment, that the place is in.
pub fn part_index(place: &Place<'_>) -> usize
    ensures { result ≡ part_index place.now.path.items }
{
    step_index(place, 1)
}

fn step_index(place: &Place<'_>, at: usize) -> usize
    ensures { result ≡ step_index at place.now.path.items }
{
    match place.path.as_slice().get(at) {
        Some(Step::Index(index)) => *index,
        _ => 0,
    }
}

fn has_name(name: &str, value: &Value) -> bool
    ensures { result ≡ has_name name.now (view value.now) }
{
    text_under(value, Key::Name) == name
}

fn table_named<'v>(name: &str, document: &'v Value) -> Option<&'v Value>
    ensures { option_map (λ t. view t.now) result ≡ table_named name.now (view document.now) }
{
    first_has_name(name, entries_under(document, Key::Tables))
}

fn first_has_name<'v>(name: &str, values: &'v [Value]) -> Option<&'v Value>
    ensures { option_map (λ v. view v.now) result
        ≡ find (has_name name.now) (map view values.now) }
{
    for value in values {
        if has_name(name, value) {
            return Some(value);
        }
    }
    None
}

fn any_has_name(name: &str, values: &[Value]) -> bool
    ensures { result ≡ list_any (has_name name.now) (map view values.now) }
{
    for value in values {
        if has_name(name, value) {
            return true;
        }
    }
    false
}

fn scan_has(name: &str, scan: &Value, document: &Value) -> bool
    ensures { result ≡ scan_has name.now (view scan.now) (view document.now) }
{
    match table_named(text_under(scan, Key::Table), document) {
        Some(table) => any_has_name(name, entries_under(table, Key::Columns)),
        None => false,
    }
}

fn is_call(text: &str) -> bool
    ensures { result ≡ is_call text.now }
{
    match text {
        "+" | "-" | "*" | "/" | "%" | "neg" => true,
        "=" | "<>" | "<" | "<=" | ">" | ">=" => true,
        "is_distinct" | "is_null" | "not" | "and" | "or" | "coalesce" => true,
        "like" | "length" | "concat" => true,
        "add_days" | "days_between" | "year" | "month" | "day" => true,
        _ => false,
    }
}

fn is_aggregate(text: &str) -> bool
    ensures { result ≡ is_aggregate text.now }
{
    match text {
        "count_all" | "count" | "sum" | "min" | "max" | "avg" => true,
        _ => false,
    }
}
