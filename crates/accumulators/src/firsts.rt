ghost use Rattle.std.specs.Prelude.{◌≡◌, ◌++◌, OnOk, drop, length};
ghost use Rattle.sql_values.specs.Cells.{lent_value};
ghost use Rattle.relation_laws.specs.Aggregates.{earlier};
ghost use Rattle.accumulators.specs.Firsts.{BeginWith, first_over};

use sql_values::{Memory, Order, Value, ValueRef, compare_cells};
use std::alloc::Global;
use std::collections::VecDeque;

/// Appends a copy of the cell, where it stands before what is held in the order, with NULL as the last.
pub fn push_first(
    alloc: Global,
    order: Order,
    held: &Value,
    cell: ValueRef<'_>,
    firsts: &mut VecDeque<Value>,
) -> Result<(), Memory>
    ensures { OnOk result (firsts.new.items ≡ firsts.old.items ++ first_over order held.now (lent_value cell.entry)) }
{
    if compare_cells(order, held.as_ref(), cell).is_le() {
        return Ok(());
    }
    firsts.push_back(cell.to_value(alloc)?)?;
    Ok(())
}

/// Keeps the one of the two that stands first in the order. The copy of the cell is taken from the front.
pub fn keep_first(order: Order, held: &mut Value, cell: ValueRef<'_>, firsts: &mut VecDeque<Value>)
    requires { BeginWith (first_over order held.old (lent_value cell)) firsts.old.items }
    ensures held { held.new ≡ earlier order held.old (lent_value cell.entry) }
    ensures rest { firsts.new.items
        ≡ drop (length (first_over order held.old (lent_value cell.entry))) firsts.old.items }
{
    if firsts.is_empty() || compare_cells(order, held.as_ref(), cell).is_le() {
        return;
    }
    if let Some(first) = firsts.pop_front() {
        *held = first;
    }
}

/// Keeps the one of the two that stands first in the order: a copy of it, where that is the cell.
pub fn keep_copy(
    alloc: Global,
    order: Order,
    first: &mut Value,
    cell: ValueRef<'_>,
) -> Result<(), Memory>
    ensures { OnOk result (first.new ≡ earlier order first.old (lent_value cell.entry)) }
{
    if compare_cells(order, first.as_ref(), cell).is_le() {
        return Ok(());
    }
    *first = cell.to_value(alloc)?;
    Ok(())
}
