//! Pieces of one row of one number, and what calls of seats answer.
ghost use Rattle.std.specs.Prelude.{◌≡◌};

use blocked::{Bell, Bells, Due, ReadBell, Seen};
use col_pages::Page;
use output_buffer::{GatherTake, Piece, PutFault, SpreadTake, Took};
use sql_values::{Memory, ValueRef};
use std::alloc::Global;
use std::sync::Wait;
use std::thread::Threads;

/// What stands for an End where numbers are written.
pub(crate) const END: i64 = -1;

/// The number of a piece, or `END`.
pub(crate) fn number_of(piece: &Piece) -> i64 {
    match piece {
        Piece::Rows(page) => number_in(page),
        Piece::End(_) => END,
    }
}

fn number_in(page: &Page) -> i64 {
    if page.len() != 1 {
        return -2;
    }
    match page.cell(0, 0) {
        ValueRef::Bigint(number) => number,
        _ => -3,
    }
}

/// Bells that never rang.
#[derive(Drop)]
struct SilentBells {
    alloc: Global,
}

impl Bells for SilentBells {
    ghost shown = { λ _ _ _. Unit {0} };

    ghost rang = { λ _ _ _. Unit {0} };

    fn seen<R: Threads + Wait + Sync>(&mut self, _rt: &R, _bell: u32) -> u64 {
        0
    }

    fn ring<R: Threads + Wait + Sync>(&mut self, _rt: &R, due: Due) -> Result<(), Memory> {
        rung(self.alloc, due);
        Ok(())
    }
}

/// The count of a bell that never rang.
pub(crate) fn seen<R: Threads + Wait + Sync>(rt: &R, alloc: Global, bell: u32) -> Seen
    ensures { result.bell ≡ bell }
{
    let mut bells = SilentBells { alloc };
    Seen::read(rt, &mut bells, bell)
}

/// Rings, and answers the bell.
pub(crate) fn rung(alloc: Global, due: Due) -> u32 {
    let number = due.bell();
    Bell::<u8>::new(alloc).ring(due);
    number
}

/// The bell that rang at a put, or the number of the piece that came back.
pub(crate) fn told(alloc: Global, answer: Result<Due, PutFault>) -> Result<u32, i64> {
    match answer {
        Ok(due) => Ok(rung(alloc, due)),
        Err(PutFault::Full(piece)) => Err(number_of(&piece)),
    }
}

/// The number that a take gave, and the bell that rang.
pub(crate) fn gathered<R: Threads + Wait + Sync>(
    rt: &R,
    alloc: Global,
    take: &mut GatherTake<'_>,
) -> Option<(i64, u32)>
    ensures { take.new.edge ≡ take.old.edge }
{
    let seen = seen(rt, alloc, take.piece_bell());
    let Ok(Took { piece, due }) = take.take(rt, seen) else {
        return None;
    };
    Some((number_of(&piece), rung(alloc, due)))
}

/// The same of a spread.
pub(crate) fn shared<R: Threads + Wait + Sync>(
    rt: &R,
    alloc: Global,
    take: &mut SpreadTake<'_>,
) -> Option<(i64, u32)>
    ensures { take.new.edge ≡ take.old.edge }
{
    let seen = seen(rt, alloc, take.piece_bell());
    let Ok(Took { piece, due }) = take.take(rt, seen) else {
        return None;
    };
    Some((number_of(&piece), rung(alloc, due)))
}
