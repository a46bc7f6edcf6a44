//! Drivers that put to edges, and drivers that take from them.
ghost use Rattle.std.specs.Prelude.{◌≡◌, [], All, IfOk};
ghost use Rattle.output_buffer.specs.Seats.{new_gather_put, new_spread_put};
ghost use Rattle.driver_loop.specs.Ends.{rows_taken, target_made};

use crate::parts::{driver_of, numbers, result, whole};
use crate::slow::Slow;
use driver_ends::{DealTarget, LocalSource, PutKind, PutTarget, RemoteSource};
use driver_loop::{Driver, Source, Target};
use output_buffer::{GatherPut, GatherTake, SpreadPut, SpreadTake};
use sql_values::Memory;
use std::alloc::Global;

/// Puts to an edge of one taker.
pub(crate) fn put_target<'w>(alloc: Global, seat: GatherPut<'w>) -> Result<Target<'w>, Memory>
    requires { seat ≡ new_gather_put seat.edge seat.number }
    ensures { IfOk result (λ t. target_made t ≡ t) }
{
    let seats = Vec::from_array(alloc, [seat])?;
    Ok(Target::Put(PutTarget::new(alloc, PutKind::One, seats)?))
}

/// Puts to an edge of many takers.
pub(crate) fn deal_target(seat: SpreadPut<'_>) -> Target<'_>
    requires { seat ≡ new_spread_put seat.edge seat.takers }
    ensures { target_made result ≡ result }
{
    Target::Deal(DealTarget::new(seat))
}

/// Takes from an edge of its own.
pub(crate) fn local(seat: GatherTake<'_>) -> Source<'_, Slow>
    requires { seat.took ≡ [] }
    ensures { rows_taken result ≡ [] }
{
    Source::local(LocalSource::new(seat))
}

/// Takes from an edge of many takers.
pub(crate) fn remote(seat: SpreadTake<'_>) -> Source<'_, Slow>
    requires { seat.took ≡ [] }
    ensures { rows_taken result ≡ [] }
{
    Source::remote(RemoteSource::new(seat))
}

/// Puts what was made behind the others.
pub(crate) fn add<T: Drop>(items: &mut Vec<T>, made: Result<T, Memory>) -> Result<(), Memory> {
    Ok(items.push(made?)?)
}

/// Adds a driver for each seat, which puts a row of each number to the edge, in pages of one row.
pub(crate) fn add_putters<'w>(
    alloc: Global,
    rows: &[i64],
    seats: Vec<GatherPut<'w>>,
    drivers: &mut Vec<Driver<'w, Slow>>,
) -> Result<(), Memory>
    requires { All (λ seat. seat ≡ new_gather_put seat.edge seat.number) seats.items }
{
    for seat in seats {
        add(drivers, putter(alloc, rows, seat))?;
    }
    Ok(())
}

fn putter<'w>(alloc: Global, rows: &[i64], seat: GatherPut<'w>) -> Result<Driver<'w, Slow>, Memory>
    requires { seat ≡ new_gather_put seat.edge seat.number }
{
    driver_of(
        alloc,
        1,
        numbers(alloc, rows, 1),
        Ok(Vec::new(alloc)),
        put_target(alloc, seat),
    )
}

/// A driver that gives the whole numbers of its source.
pub(crate) fn taker<'w>(alloc: Global, source: Source<'w, Slow>) -> Result<Driver<'w, Slow>, Memory>
    requires { rows_taken source ≡ [] }
{
    let target = result(alloc, whole(alloc));
    driver_of(alloc, 2, Ok(source), Ok(Vec::new(alloc)), target)
}

/// Adds a driver for each seat, which gives the whole numbers that it takes.
pub(crate) fn add_takers<'w>(
    alloc: Global,
    seats: Vec<SpreadTake<'w>>,
    drivers: &mut Vec<Driver<'w, Slow>>,
) -> Result<(), Memory>
    requires { All (λ seat. seat.took ≡ []) seats.items }
{
    for seat in seats {
        add(drivers, taker(alloc, remote(seat)))?;
    }
    Ok(())
}
