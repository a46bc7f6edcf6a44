//! Four threads over one spread, whose seats are settled behind them.
ghost use Rattle.std.specs.Prelude.{◌≡◌, ◌∷◌, ◌++◌, [], All, IfOk, false};
ghost use Rattle.std.specs.Thread.{IsSync};
ghost use Rattle.output_buffer.specs.Edges.{end_count};
ghost use Rattle.output_buffer.specs.Seats.{AreSpreadTakesOf, EdgeId, MaySpread};

use crate::numbered::numbered;
use crate::pieces::{rung, seen, shared};
use output_buffer::{Piece, PutFault, Spread, SpreadPut, SpreadTake, settle_spread, stop_spread};
use sql_values::Memory;
use std::alloc::{AllocError, Global};
use std::sync::Wait;
use std::sync::atomic::{AtomicI64, Ordering};
use std::thread::{self, Threads};

/// How many pages the putter puts.
const PAGES: u32 = 1500;

/// Puts a piece, as soon as there is room.
fn put_surely<R: Threads + Wait + Sync>(
    rt: &R,
    alloc: Global,
    put: &mut SpreadPut<'_>,
    piece: Piece,
)
    requires { MaySpread put.old piece }
    ensures put { put.new.put ≡ put.old.put ++ piece ∷ [] }
    ensures takers { put.new.takers ≡ put.old.takers }
    ensures edge { put.new.edge ≡ put.old.edge }
{
    let mut piece = piece;
    for _ in rt.forever() {
        let seen = seen(rt, alloc, put.space_bell());
        match put.put(rt, seen, piece) {
            Ok(due) => {
                rung(alloc, due);
                return;
            }
            Err(PutFault::Full(back)) => piece = back,
        }
        thread::yield_now();
    }
    unreachable!()
}

/// Puts a page of each of the numbers from 0.
fn put_pages<R: Threads + Wait + Sync>(
    rt: &R,
    alloc: Global,
    put: &mut SpreadPut<'_>,
) -> Result<(), Memory>
    requires { end_count put.old.put ≡ 0 }
    ensures going { end_count put.new.put ≡ 0 }
    ensures takers { put.new.takers ≡ put.old.takers }
    ensures edge { put.new.edge ≡ put.old.edge }
{
    for number in 0..PAGES {
        let page = numbered(alloc, number)?;
        put_surely(rt, alloc, put, Piece::Rows(page));
    }
    Ok(())
}

/// Puts an End for each taker.
#[tactic(auto, using(crate::proofs::Ends::one_end_more))]
fn put_ends<R: Threads + Wait + Sync>(rt: &R, alloc: Global, put: &mut SpreadPut<'_>)
    requires { end_count put.old.put ≡ 0 }
    ensures edge { put.new.edge ≡ put.old.edge }
{
    for number in 0..put.takers() {
        put_surely(rt, alloc, put, Piece::End(number));
    }
}

fn put_all<'e, R: Threads + Wait + Sync>(
    rt: &R,
    alloc: Global,
    mut put: SpreadPut<'e>,
) -> SpreadPut<'e>
    requires { end_count put.put ≡ 0 }
    ensures { result.edge ≡ put.entry.edge }
{
    let _ = put_pages(rt, alloc, &mut put);
    put_ends(rt, alloc, &mut put);
    put
}

/// The work of putters, each in a thread of its own.
fn put_each<'e, R: Threads + Wait + Sync>(
    rt: &R,
    alloc: Global,
    puts: Vec<SpreadPut<'e>>,
) -> Result<Vec<SpreadPut<'e>>, AllocError>
    requires { All (λ s. end_count s.put ≡ 0) puts.items }
    ensures { (edge : EdgeId) → All (λ s. s.edge ≡ edge) puts.entry.items → IfOk result (λ v. All (λ s. s.edge ≡ edge) v.items) }
{
    thread::map_vec(
        rt,
        puts,
        &|put|
            requires sync { IsSync R.row }
            requires new { end_count put.put ≡ 0 }
        { put_all(rt, alloc, put) },
    )
}

/// Takes until an End was taken, and adds what it took to the total.
fn take_all<'e, R: Threads + Wait + Sync>(
    rt: &R,
    alloc: Global,
    mut take: SpreadTake<'e>,
    total: &AtomicI64,
) -> SpreadTake<'e>
    ensures { result.edge ≡ take.entry.edge }
{
    for _ in rt.forever() {
        if take.ended() {
            return take;
        }
        match shared(rt, alloc, &mut take) {
            Some((number, _)) => {
                total.fetch_add(number, Ordering::SeqCst);
            }
            None => thread::yield_now(),
        }
    }
    unreachable!()
}

/// The work of takers, each in a thread of its own.
fn take_each<'e, R: Threads + Wait + Sync>(
    rt: &R,
    alloc: Global,
    takes: Vec<SpreadTake<'e>>,
    total: &AtomicI64,
) -> Result<Vec<SpreadTake<'e>>, AllocError>
    ensures { (edge : EdgeId) → AreSpreadTakesOf edge takes.entry.items → IfOk result (λ v. AreSpreadTakesOf edge v.items) }
{
    thread::map_vec(rt, takes, &|take| take_all(rt, alloc, take, total))
}

/// Whether each taker took an End, where all of them are there.
#[tactic(auto, using(output_buffer::proofs::SeatLemmas::ends_taken))]
fn settle(put: SpreadPut<'_>, takes: Vec<SpreadTake<'_>>) -> bool
    requires { AreSpreadTakesOf put.edge takes.items }
{
    if takes.len() != put.takers() as usize {
        return false;
    }
    if !takes.iter().all(|take| take.ended()) {
        stop_spread(put, takes);
        return false;
    }
    settle_spread(put, takes);
    true
}

/// A putter and three takers, each in a thread of its own.
fn run_spread<'e, R: Threads + Wait + Sync>(
    rt: &R,
    alloc: Global,
    edge: &'e mut Spread,
    total: &AtomicI64,
) -> Result<bool, Memory>
    requires { edge.old.is_handed_out ≡ false }
{
    let (put, takes) = edge.seats()?;
    let mut puts = Vec::new(alloc);
    puts.push(put)?;
    let (puts, takes) = thread::join(
        rt,
        move || -> Result<Vec<SpreadPut<'_>>, AllocError>
            requires sync { IsSync R.row }
            requires new { All (λ s. end_count s.put ≡ 0) puts.items }
            ensures { (edge : EdgeId) → All (λ s. s.edge ≡ edge) puts.entry.items → IfOk result (λ v. All (λ s. s.edge ≡ edge) v.items) }
        { put_each(rt, alloc, puts) },
        move || -> Result<Vec<SpreadTake<'_>>, AllocError>
            requires sync { IsSync R.row }
            ensures { (edge : EdgeId) → AreSpreadTakesOf edge takes.entry.items → IfOk result (λ v. AreSpreadTakesOf edge v.items) }
        { take_each(rt, alloc, takes, total) },
    );
    let takes = takes?;
    let mut puts = puts?;
    let Some(put) = puts.pop() else {
        return Ok(false);
    };
    Ok(settle(put, takes))
}

#[test]
fn a_putter_and_three_takers_lose_nothing(rt: HostRuntime) -> Result<(), Memory> {
    let total = AtomicI64::new(0);
    let mut edge = Spread::new(rt.alloc(), 3, 4, 7, 8)?;
    let is_settled = run_spread(&rt, rt.alloc(), &mut edge, &total)?;
    // the numbers below 1500, and an End for each taker
    assert!(rt; is_settled & (total.load(Ordering::SeqCst) == 1_124_250 - 3));
    Ok(())
}
