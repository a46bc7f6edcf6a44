ghost use Rattle.std.specs.Prelude.{◌≡◌, map, IfOk};
ghost use Rattle.serde_json.specs.View.{view};
ghost use Rattle.plan_docs.specs.Parts.{call_of, calls_of, column_of, columns_of, filter_of, filters_of, kinds_of, names_of, number_at, numbers_of, pair_of, pairs_of, sort_key_of, sort_keys_of};

use crate::node::{DynamicFilter, DynamicFilters};
use crate::words::{
    aggregate_named, order_named, small_number, small_under, truth_under, type_of, type_under,
};
use json_paths::Key;
use plan_grammar::{entries_in, text_of, text_under};
use plan_trees::{CallList, KeyList, Pair, Pairs};
use serde_json::Value;
use sql_values::{Call, Column, Columns, KeySpec, Memory, Names, Places, Text, Types};
use std::alloc::Global;

fn number_at(at: usize, entries: &[Value]) -> u32
    ensures { result ≡ number_at at (map view entries.now) }
{
    if at < entries.len() {
        small_number(&entries[at])
    } else {
        0
    }
}

fn pair_of(value: &Value) -> Pair
    ensures { result ≡ pair_of (view value.now) }
{
    let entries = entries_in(value);
    Pair {
        left: number_at(0, entries),
        right: number_at(1, entries),
    }
}

fn filter_of(value: &Value) -> DynamicFilter
    ensures { result ≡ filter_of (view value.now) }
{
    DynamicFilter {
        id: small_under(value, Key::Id),
        key: small_under(value, Key::Key),
        scan: small_under(value, Key::Scan),
        column: small_under(value, Key::Column),
        wait: truth_under(value, Key::Wait),
    }
}

fn sort_key_of(value: &Value) -> KeySpec
    ensures { result ≡ sort_key_of (view value.now) }
{
    KeySpec {
        column: small_under(value, Key::Column),
        order: order_named(text_under(value, Key::Order)),
    }
}

fn call_of(value: &Value) -> Call
    ensures { result ≡ call_of (view value.now) }
{
    aggregate_named(
        text_under(value, Key::Name),
        small_under(value, Key::Column),
    )
}

fn column_of(alloc: Global, value: &Value) -> Result<Column, Memory>
    ensures { IfOk result (λ c. c ≡ column_of (view value.now)) }
{
    Ok(Column {
        name: Text::copy_of(alloc, text_under(value, Key::Name))?,
        kind: type_under(value, Key::Type),
    })
}

pub fn names_of(alloc: Global, entries: &[Value]) -> Result<Names, Memory>
    ensures { IfOk result (λ list. list ≡ names_of (map view entries.now)) }
{
    let mut names = Names::new(alloc);
    for entry in entries {
        names.push(Text::copy_of(alloc, text_of(entry))?)?;
    }
    Ok(names)
}

pub fn kinds_of(alloc: Global, entries: &[Value]) -> Result<Types, Memory>
    ensures { IfOk result (λ list. list ≡ kinds_of (map view entries.now)) }
{
    let mut kinds = Types::new(alloc);
    for entry in entries {
        kinds.push(type_of(entry))?;
    }
    Ok(kinds)
}

pub fn numbers_of(alloc: Global, entries: &[Value]) -> Result<Places, Memory>
    ensures { IfOk result (λ list. list ≡ numbers_of (map view entries.now)) }
{
    let mut numbers = Places::new(alloc);
    for entry in entries {
        numbers.push(small_number(entry))?;
    }
    Ok(numbers)
}

pub fn pairs_of(alloc: Global, entries: &[Value]) -> Result<Pairs, Memory>
    ensures { IfOk result (λ list. list ≡ pairs_of (map view entries.now)) }
{
    let mut pairs = Pairs::new(alloc);
    for entry in entries {
        pairs.push(pair_of(entry))?;
    }
    Ok(pairs)
}

pub fn filters_of(alloc: Global, entries: &[Value]) -> Result<DynamicFilters, Memory>
    ensures { IfOk result (λ list. list ≡ filters_of (map view entries.now)) }
{
    let mut filters = DynamicFilters::new(alloc);
    for entry in entries {
        filters.push(filter_of(entry))?;
    }
    Ok(filters)
}

pub fn sort_keys_of(alloc: Global, entries: &[Value]) -> Result<KeyList, Memory>
    ensures { IfOk result (λ list. list ≡ sort_keys_of (map view entries.now)) }
{
    let mut keys = KeyList::new(alloc);
    for entry in entries {
        keys.push(sort_key_of(entry))?;
    }
    Ok(keys)
}

pub fn calls_of(alloc: Global, entries: &[Value]) -> Result<CallList, Memory>
    ensures { IfOk result (λ list. list ≡ calls_of (map view entries.now)) }
{
    let mut calls = CallList::new(alloc);
    for entry in entries {
        calls.push(call_of(entry))?;
    }
    Ok(calls)
}

pub fn columns_of(alloc: Global, entries: &[Value]) -> Result<Columns, Memory>
    ensures { IfOk result (λ list. list ≡ columns_of (map view entries.now)) }
{
    let mut columns = Columns::new(alloc);
    for entry in entries {
        columns.push(column_of(alloc, entry)?)?;
    }
    Ok(columns)
}
