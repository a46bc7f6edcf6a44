//! Edges on one thread.
ghost use Rattle.std.specs.Prelude.{◌≡◌, ◌<◌, length};
ghost use Rattle.output_buffer.specs.Edges.{end_count};

use crate::numbered::numbered;
use crate::pieces::{END, gathered, seen, shared, told};
use output_buffer::{Gather, GatherPut, GatherTake, Piece, Spread, SpreadPut, SpreadTake};
use sql_values::Memory;
use std::alloc::Global;
use std::sync::Wait;
use std::thread::Threads;

/// The bells of the edges here.
const PIECE: u32 = 7;

const SPACE: u32 = 8;

/// Puts a page of one number.
fn put_number<R: Threads + Wait + Sync>(
    rt: &R,
    alloc: Global,
    put: &mut GatherPut<'_>,
    number: u32,
) -> Result<Result<u32, i64>, Memory>
    requires { end_count put.old.put ≡ 0 }
    ensures { end_count put.new.put ≡ 0 }
{
    let page = numbered(alloc, number)?;
    let seen = seen(rt, alloc, put.space_bell());
    Ok(told(alloc, put.put(rt, seen, Piece::Rows(page))))
}

/// Whether an empty edge with room for one piece answers Empty, takes a piece, hands the next one back, gives the
/// first, and is empty again.
fn has_room_for_one<R: Threads + Wait + Sync>(
    rt: &R,
    alloc: Global,
    put: &mut GatherPut<'_>,
    take: &mut GatherTake<'_>,
) -> Result<bool, Memory>
    requires { end_count put.old.put ≡ 0 }
{
    let was_empty = gathered(rt, alloc, take).is_none();
    let first = put_number(rt, alloc, put, 10)? == Ok(PIECE);
    let second = put_number(rt, alloc, put, 11)? == Err(11);
    let given = gathered(rt, alloc, take) == Some((10, SPACE));
    let is_empty = gathered(rt, alloc, take).is_none();
    let are_counted = (put.fulls() == 1) & (take.empties() == 2);
    Ok(was_empty & first & second & given & is_empty & are_counted)
}

#[test]
fn a_gather_with_room_for_one_hands_the_second_piece_back(rt: HostRuntime) -> Result<(), Memory> {
    let mut edge = Gather::new(rt.alloc(), 1, 1, PIECE, SPACE)?;
    let (mut puts, mut take) = edge.seats()?;
    assert!(rt; has_room_for_one(&rt, rt.alloc(), &mut puts[0], &mut take)?);
    Ok(())
}

/// Whether the put of an End rings.
fn puts_its_end<R: Threads + Wait + Sync>(rt: &R, alloc: Global, put: &mut GatherPut<'_>) -> bool
    requires { end_count put.old.put ≡ 0 }
{
    let end = Piece::End(put.number());
    let seen = seen(rt, alloc, put.space_bell());
    told(alloc, put.put(rt, seen, end)) == Ok(PIECE)
}

/// Whether an End was taken, and the edge has ended exactly where `has_ended` says it.
fn takes_an_end<R: Threads + Wait + Sync>(
    rt: &R,
    alloc: Global,
    take: &mut GatherTake<'_>,
    has_ended: bool,
) -> bool {
    (gathered(rt, alloc, take) == Some((END, SPACE))) & (take.ended() == has_ended)
}

#[test]
fn a_gather_ends_with_the_end_of_its_last_putter(rt: HostRuntime) -> Result<(), Memory> {
    let mut edge = Gather::new(rt.alloc(), 2, 4, PIECE, SPACE)?;
    let (mut puts, mut take) = edge.seats()?;
    let second = puts_its_end(&rt, rt.alloc(), &mut puts[1]);
    let goes_on = takes_an_end(&rt, rt.alloc(), &mut take, false);
    let first = puts_its_end(&rt, rt.alloc(), &mut puts[0]);
    let ends = takes_an_end(&rt, rt.alloc(), &mut take, true);
    assert!(rt; second & goes_on & first & ends);
    Ok(())
}

/// Puts a page of one number.
fn spread_number<R: Threads + Wait + Sync>(
    rt: &R,
    alloc: Global,
    put: &mut SpreadPut<'_>,
    number: u32,
) -> Result<Result<u32, i64>, Memory>
    requires { end_count put.old.put ≡ 0 }
    ensures { end_count put.new.put ≡ 0 }
{
    let page = numbered(alloc, number)?;
    let seen = seen(rt, alloc, put.space_bell());
    Ok(told(alloc, put.put(rt, seen, Piece::Rows(page))))
}

/// The same of a spread, with an End at last.
fn shares_room_for_one<R: Threads + Wait + Sync>(
    rt: &R,
    alloc: Global,
    put: &mut SpreadPut<'_>,
    take: &mut SpreadTake<'_>,
) -> Result<bool, Memory>
    requires going { end_count put.old.put ≡ 0 }
    requires takers { 0 < put.old.takers }
{
    let was_empty = shared(rt, alloc, take).is_none();
    let first = spread_number(rt, alloc, put, 10)? == Ok(PIECE);
    let second = spread_number(rt, alloc, put, 11)? == Err(11);
    let given = shared(rt, alloc, take) == Some((10, SPACE));
    let is_empty = shared(rt, alloc, take).is_none();
    let are_counted = (put.fulls() == 1) & (take.empties() == 2);
    Ok(was_empty & first & second & given & is_empty & are_counted & !take.ended())
}

#[test]
fn a_spread_with_room_for_one_hands_the_second_piece_back(rt: HostRuntime) -> Result<(), Memory> {
    let mut edge = Spread::new(rt.alloc(), 1, 1, PIECE, SPACE)?;
    let (mut put, mut takes) = edge.seats()?;
    assert!(rt; shares_room_for_one(&rt, rt.alloc(), &mut put, &mut takes[0])?);
    Ok(())
}

/// Whether each of two takers ends with an End of its own.
fn ends_with_its_own<R: Threads + Wait + Sync>(
    rt: &R,
    alloc: Global,
    put: &mut SpreadPut<'_>,
    takes: &mut [SpreadTake<'_>],
) -> bool
    requires none { end_count put.old.put ≡ 0 }
    requires takers { put.old.takers ≡ 2 }
    requires seats { length takes.old ≡ 2 }
{
    let seen = seen(rt, alloc, put.space_bell());
    let first = told(alloc, put.put(rt, seen, Piece::End(0))) == Ok(PIECE);
    let second = told(alloc, put.put(rt, seen, Piece::End(0))) == Ok(PIECE);
    let given = shared(rt, alloc, &mut takes[1]) == Some((END, SPACE));
    let is_one = takes[1].ended() & !takes[0].ended();
    let rest = shared(rt, alloc, &mut takes[0]) == Some((END, SPACE));
    first & second & given & is_one & rest & takes[0].ended()
}

#[test]
fn a_spread_has_an_end_for_each_taker(rt: HostRuntime) -> Result<(), Memory> {
    let mut edge = Spread::new(rt.alloc(), 2, 4, PIECE, SPACE)?;
    let (mut put, mut takes) = edge.seats()?;
    let are_named = (put.takers() == 2) & (put.piece_bell() == PIECE) & (put.space_bell() == SPACE);
    assert!(rt; are_named & ends_with_its_own(&rt, rt.alloc(), &mut put, &mut takes));
    Ok(())
}
