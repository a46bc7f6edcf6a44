//! Four threads over one edge, whose seats are settled behind them.
ghost use Rattle.std.specs.Prelude.{◌≡◌, ◌∷◌, ◌++◌, [], All, IfOk, false};
ghost use Rattle.std.specs.Thread.{IsSync};
ghost use Rattle.output_buffer.specs.Edges.{end_count};
ghost use Rattle.output_buffer.specs.Seats.{AreGatherPutsOf, EdgeId, MayPut};

use crate::numbered::numbered;
use crate::pieces::{gathered, rung, seen};
use output_buffer::{Gather, GatherPut, GatherTake, Piece, PutFault, settle_gather, stop_gather};
use sql_values::Memory;
use std::alloc::{AllocError, Global};
use std::sync::Wait;
use std::thread::{self, Threads};

/// How many pages a putter puts.
const PAGES: u32 = 500;

/// Puts a piece, as soon as there is room.
fn put_surely<R: Threads + Wait + Sync>(
    rt: &R,
    alloc: Global,
    put: &mut GatherPut<'_>,
    piece: Piece,
)
    requires { MayPut put.old piece }
    ensures put { put.new.put ≡ put.old.put ++ piece ∷ [] }
    ensures number { put.new.number ≡ put.old.number }
    ensures edge { put.new.edge ≡ put.old.edge }
{
    let mut piece = piece;
    for _ in rt.forever() {
        let seen = seen(rt, alloc, put.space_bell());
        match put.put(rt, seen, piece) {
            Ok(due) => {
                rung(alloc, due);
                return;
            }
            Err(PutFault::Full(back)) => piece = back,
        }
        thread::yield_now();
    }
    unreachable!()
}

/// Puts a page of each of some numbers.
fn put_pages<R: Threads + Wait + Sync>(
    rt: &R,
    alloc: Global,
    put: &mut GatherPut<'_>,
    first: u32,
) -> Result<(), Memory>
    requires { end_count put.old.put ≡ 0 }
    ensures going { end_count put.new.put ≡ 0 }
    ensures number { put.new.number ≡ put.old.number }
    ensures edge { put.new.edge ≡ put.old.edge }
{
    for number in 0..PAGES {
        let page = numbered(alloc, first.wrapping_add(number))?;
        put_surely(rt, alloc, put, Piece::Rows(page));
    }
    Ok(())
}

/// Puts the putter's pages, and then its End.
fn put_all<'e, R: Threads + Wait + Sync>(
    rt: &R,
    alloc: Global,
    mut put: GatherPut<'e>,
) -> GatherPut<'e>
    requires { end_count put.put ≡ 0 }
    ensures { result.edge ≡ put.entry.edge }
{
    let number = put.number();
    let first = number.wrapping_mul(PAGES);
    let _ = put_pages(rt, alloc, &mut put, first);
    put_surely(rt, alloc, &mut put, Piece::End(number));
    put
}

/// The putters' work, each in a thread of its own.
fn put_each<'e, R: Threads + Wait + Sync>(
    rt: &R,
    alloc: Global,
    puts: Vec<GatherPut<'e>>,
) -> Result<Vec<GatherPut<'e>>, AllocError>
    requires { All (λ s. end_count s.put ≡ 0) puts.items }
    ensures { (edge : EdgeId) → AreGatherPutsOf edge puts.entry.items → IfOk result (λ v. AreGatherPutsOf edge v.items) }
{
    thread::map_vec(
        rt,
        puts,
        &|put|
            requires sync { IsSync R.row }
            requires new { end_count put.put ≡ 0 }
        { put_all(rt, alloc, put) },
    )
}

/// A taker's seat, and the sum of the numbers that it took.
#[derive(Drop)]
struct Gathered<'e> {
    take: GatherTake<'e>,
    sum: i64,
}

/// Takes until every End was taken.
fn take_all<'e, R: Threads + Wait + Sync>(
    rt: &R,
    alloc: Global,
    mut take: GatherTake<'e>,
) -> Gathered<'e>
    ensures { result.take.edge ≡ take.entry.edge }
{
    let mut sum: i64 = 0;
    for _ in rt.forever() {
        if take.ended() {
            return Gathered { take, sum };
        }
        match gathered(rt, alloc, &mut take) {
            Some((number, _)) => sum = sum.wrapping_add(number),
            None => thread::yield_now(),
        }
    }
    unreachable!()
}

/// The sum, where all seats are there and every End was taken.
fn settle(puts: Vec<GatherPut<'_>>, take: GatherTake<'_>, sum: i64) -> Option<i64>
    requires { AreGatherPutsOf take.edge puts.items }
{
    if puts.len() != take.putters() as usize {
        return None;
    }
    if !take.ended() {
        stop_gather(puts, take);
        return None;
    }
    settle_gather(puts, take);
    Some(sum)
}

/// The work of takers, each in a thread of its own.
fn take_each<'e, R: Threads + Wait + Sync>(
    rt: &R,
    alloc: Global,
    takes: Vec<GatherTake<'e>>,
) -> Result<Vec<Gathered<'e>>, AllocError>
    ensures { (edge : EdgeId) → All (λ s. s.edge ≡ edge) takes.entry.items → IfOk result (λ v. All (λ g. g.take.edge ≡ edge) v.items) }
{
    thread::map_vec(rt, takes, &|take| take_all(rt, alloc, take))
}

/// Three putters and a taker, each in a thread of its own.
fn run_gather<'e, R: Threads + Wait + Sync>(
    rt: &R,
    alloc: Global,
    edge: &'e mut Gather,
) -> Result<Option<i64>, Memory>
    requires { edge.old.is_handed_out ≡ false }
{
    let (puts, take) = edge.seats()?;
    let mut takes = Vec::new(alloc);
    takes.push(take)?;
    let (puts, gathered) = thread::join(
        rt,
        move || -> Result<Vec<GatherPut<'_>>, AllocError>
            requires sync { IsSync R.row }
            requires new { All (λ s. end_count s.put ≡ 0) puts.items }
            ensures { (edge : EdgeId) → AreGatherPutsOf edge puts.entry.items → IfOk result (λ v. AreGatherPutsOf edge v.items) }
        { put_each(rt, alloc, puts) },
        move || -> Result<Vec<Gathered<'_>>, AllocError>
            requires sync { IsSync R.row }
            ensures { (edge : EdgeId) → All (λ s. s.edge ≡ edge) takes.entry.items → IfOk result (λ v. All (λ g. g.take.edge ≡ edge) v.items) }
        { take_each(rt, alloc, takes) },
    );
    let puts = puts?;
    let mut gathered = gathered?;
    let Some(last) = gathered.pop() else {
        return Ok(None);
    };
    Ok(settle(puts, last.take, last.sum))
}

#[test]
fn three_putters_and_a_taker_lose_nothing(rt: HostRuntime) -> Result<(), Memory> {
    let mut edge = Gather::new(rt.alloc(), 3, 4, 7, 8)?;
    // the numbers below 1500, and an End for each putter
    assert!(rt; run_gather(&rt, rt.alloc(), &mut edge)? == Some(1_124_250 - 3));
    Ok(())
}
