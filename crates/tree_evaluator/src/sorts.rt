ghost use Rattle.std.specs.Prelude.{◌≡◌, ◌<◌, length, IfOk};
ghost use Rattle.relation_laws.specs.Sorts.{IsSortOf};

use crate::leaves::constant_rows;
use crate::lists::list_of;
use crate::node_rows::NodeRows;
use sql_values::{KeySpec, Memory, Row, RowList, compare_rows};
use std::alloc::Global;

/// The rows in an order of the keys.
pub fn sort_rows(alloc: Global, keys: &[KeySpec], rows: NodeRows) -> Result<NodeRows, Memory>
    requires { 0 < length rows.types }
    ensures types { IfOk result (λ sorted. sorted.types ≡ rows.types) }
    ensures sorted { IfOk result (λ sorted. IsSortOf keys.now rows.rows sorted.rows) }
{
    rows.rows_fit_types();
    let types = Vec::from_slice(alloc, rows.types())?;
    let list = list_of(alloc, rows)?;
    let sorted = sorted_list(alloc, keys, &list)?;
    constant_rows(alloc, &sorted, types.as_slice())
}

/// The list in an order of the keys.
fn sorted_list(alloc: Global, keys: &[KeySpec], list: &RowList) -> Result<RowList, Memory>
    ensures { IfOk result (λ sorted. IsSortOf keys.now list.now sorted) }
{
    let mut rows = copied_rows(alloc, list)?;
    rows.sort_by(|a, b| compare_rows(keys, a, b))?;
    listed_rows(alloc, rows)
}

/// The rows one by one.
pub fn copied_rows(alloc: Global, list: &RowList) -> Result<Vec<Row>, Memory>
    ensures { IfOk result (λ rows. rows.items ≡ list.now) }
{
    let mut rows = Vec::with_capacity(alloc, list.len())?;
    for place in 0..list.len() {
        rows.push(list.row(alloc, place)?)?;
    }
    Ok(rows)
}

fn listed_rows(alloc: Global, rows: Vec<Row>) -> Result<RowList, Memory>
    ensures { IfOk result (λ list. list ≡ rows.items) }
{
    let mut list = RowList::new(alloc);
    for row in rows {
        list.push(row)?;
    }
    Ok(list)
}
