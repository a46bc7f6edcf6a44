ghost use Rattle.std.specs.Prelude.{◌≡◌, map, IfOk, option_map};
ghost use Rattle.std.specs.List.{list_any, position_from};
ghost use Rattle.sql_exprs.specs.Forms.{form_view};
ghost use Rattle.plan_spreads.specs.Columns.{add_place, are_paired, is_column, is_key, is_pair, first_places};

use plan_docs::Pair;
use sql_exprs::Expr;
use sql_values::{Memory, Places};
use std::alloc::Global;

fn is_column(expr: &Expr, column: u32) -> bool
    ensures { result ≡ is_column column (form_view expr.now) }
{
    match expr {
        Expr::Column(at) => *at == column,
        _ => false,
    }
}

/// The first of the expressions that is the column.
fn column_place(exprs: &[Expr], column: u32) -> Option<usize>
    ensures { result ≡ position_from (is_column column) 0 (map form_view exprs.now) }
{
    for (i, expr) in exprs.iter().enumerate() {
        if is_column(expr, column) {
            return Some(i);
        }
    }
    None
}

/// The first of the keys that is the column.
fn key_place(keys: &[u32], column: u32) -> Option<usize>
    ensures { result ≡ position_from (is_key column) 0 keys.now }
{
    for (i, key) in keys.iter().enumerate() {
        if *key == column {
            return Some(i);
        }
    }
    None
}

/// The place before the others. A list of 2^32 entries is want of memory: its places have no numbers.
fn add_place(place: Option<usize>, places: Option<Vec<u32>>) -> Result<Option<Vec<u32>>, Memory>
    ensures { IfOk result (λ found. option_map (λ v. v.items) found
        ≡ add_place place (option_map (λ v. v.items) places)) }
{
    match (place, places) {
        (Some(place), Some(mut places)) => {
            if place >= 1 << 32 {
                return Err(Memory);
            }
            places.insert(0, place as u32)?;
            Ok(Some(places))
        }
        _ => Ok(None),
    }
}

/// The places at which expressions give on the columns, where they give on all.
pub fn column_places(
    alloc: Global,
    exprs: &[Expr],
    columns: &[u32],
) -> Result<Option<Vec<u32>>, Memory>
    ensures { IfOk result (λ found. option_map (λ v. v.items) found
        ≡ first_places is_column (map form_view exprs.now) columns.now) }
{
    match columns {
        [] => Ok(Some(Vec::new(alloc))),
        [column, rest @ ..] => {
            let places = column_places(alloc, exprs, rest)?;
            add_place(column_place(exprs, *column), places)
        }
    }
}

/// The places at which keys are the columns, where each is a key.
pub fn key_places(alloc: Global, keys: &[u32], columns: &[u32]) -> Result<Option<Vec<u32>>, Memory>
    ensures { IfOk result (λ found. option_map (λ v. v.items) found
        ≡ first_places is_key keys.now columns.now) }
{
    match columns {
        [] => Ok(Some(Vec::new(alloc))),
        [column, rest @ ..] => {
            let places = key_places(alloc, keys, rest)?;
            add_place(key_place(keys, *column), places)
        }
    }
}

fn has_pair(on: &[Pair], left: u32, right: u32) -> bool
    ensures { result ≡ list_any (is_pair left right) on.now }
{
    for pair in on {
        if pair.left == left && pair.right == right {
            return true;
        }
    }
    false
}

/// Whether the columns are equally many, and those at each place a pair of a join.
pub fn are_paired(on: &[Pair], left: &[u32], right: &[u32]) -> bool
    ensures { result ≡ are_paired on.now left.now right.now }
{
    match left {
        [] => right.is_empty(),
        [column, rest @ ..] => match right {
            [] => false,
            [other, others @ ..] => {
                has_pair(on, *column, *other) && are_paired(on, rest, others)
            }
        },
    }
}
