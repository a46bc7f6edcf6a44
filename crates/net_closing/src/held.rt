//! What drivers hand back, until it is taken: a row for each of them, by number, and in it a place for each seat.
ghost use Rattle.std.specs.Prelude.{◌≡◌, ◌++◌, ◌∷◌, [], ℕ, Some, IfOk, OnOk, map, slice_get};
ghost use Rattle.net_closing.specs.Held.{HoldsNoMore, held, lists_of, seat_at};
ghost use Rattle.driver_net_laws.specs.Settled.{listed};
ghost use Rattle.net_closing.specs.Left.{counts_held};

use sql_values::Memory;
use std::alloc::Global;

/// Takes the seat at a place of the row of a driver.
pub(crate) fn take_seat<T>(
    rows: &mut Vec<Vec<Option<T>>>,
    number: u32,
    place: u32,
) -> Result<T, Memory>
    ensures seat { IfOk result (λ seat. seat_at rows.old.items number place ≡ Some seat) }
    ensures rest { HoldsNoMore rows.old.items rows.new.items }
{
    let number = number as usize;
    if number >= rows.len() {
        return Err(Memory);
    }
    take_in(&mut rows[number], place as usize)
}

/// Takes what is at a place of a row.
fn take_in<T>(row: &mut Vec<Option<T>>, place: usize) -> Result<T, Memory>
    ensures seat { IfOk result (λ seat. held (slice_get row.old.items place) ≡ Some seat) }
    ensures rest { (at : ℕ) (seat : T) → held (slice_get row.new.items at) ≡ Some seat
        → held (slice_get row.old.items at) ≡ Some seat }
{
    if place >= row.len() {
        return Err(Memory);
    }
    row[place].take().ok_or(Memory)
}

/// Holds the seat of one more driver, if it has one.
pub(crate) fn hold_one<T: Drop>(
    alloc: Global,
    rows: &mut Vec<Vec<Option<T>>>,
    seat: Option<T>,
) -> Result<(), Memory>
    ensures { OnOk result (lists_of rows.new.items ≡ lists_of rows.old.items ++ map Some (listed seat) ∷ []) }
{
    let mut row = Vec::new(alloc);
    if seat.is_some() {
        row.push(seat)?;
    }
    rows.push(row)?;
    Ok(())
}

/// Holds how many rows passed each dynamic filter of one more driver.
pub(crate) fn hold_counts(rows: &mut Vec<Vec<u64>>, counts: Vec<u64>) -> Result<(), Memory>
    ensures { OnOk result (counts_held rows.new.items ≡ counts_held rows.old.items ++ counts.items ∷ []) }
{
    rows.push(counts)?;
    Ok(())
}

/// Holds the seats of one more driver.
pub(crate) fn hold_all<T: Drop>(
    alloc: Global,
    rows: &mut Vec<Vec<Option<T>>>,
    seats: Vec<T>,
) -> Result<(), Memory>
    ensures { OnOk result (lists_of rows.new.items ≡ lists_of rows.old.items ++ map Some seats.items ∷ []) }
{
    let mut row = Vec::with_capacity(alloc, seats.len())?;
    for seat in seats {
        row.push(Some(seat))?;
    }
    rows.push(row)?;
    Ok(())
}
