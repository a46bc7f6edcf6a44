//! What all seats of some claims drew.
ghost use Rattle.std.specs.Prelude.{◌≡◌, ◌<◌, []};
ghost use Rattle.std.specs.List.{range_with_len};
ghost use Rattle.sql_values.specs.Bags.{SameBag};
ghost use Rattle.split_source.specs.Claims.{together};
ghost use Rattle.split_source.specs.Gathered.{drawn_by, Joined, AreDrawn};
ghost use Rattle.split_source.specs.Gathered.{IsCount, AreDistinct, AreWhole};
ghost use Rattle.split_source.specs.Seats.{AreAll, AllOf, AllEnded, numbers_of};

use crate::claim_seat::ClaimSeat;
use crate::draws::{ClaimWord, Pen, Settle, Together};

/// Gives back all seats of some claims, each of which met the end: their numbers are the numbers
/// below the count, each once, and the answer is the count.
pub fn settle_claims(seats: Vec<ClaimSeat<'_>>) -> u32
    requires all { AreAll seats.items }
    requires ended { AllEnded seats.items }
    ensures count { IsCount seats.entry.items result }
    ensures drawn { SameBag (numbers_of seats.entry.items) (range_with_len 0 result) }
{
    gather(seats)
}

/// Gives back all seats of some claims, wherever they stand: their numbers are distinct and below
/// the count, and where each seat met the end they are the numbers below the count, each once.
pub fn stop_claims(seats: Vec<ClaimSeat<'_>>)
    requires { AreAll seats.items }
    ensures drawn { AreDistinct seats.entry.items }
    ensures ended { AreWhole seats.entry.items }
{
    gather(seats);
}

/// The count, once the word showed what all seats drew.
fn gather(mut seats: Vec<ClaimSeat<'_>>) -> u32
    requires { AreAll seats.items }
    ensures count { IsCount seats.entry.items result }
    ensures drawn { AreDrawn result seats.entry.items }
{
    let Some(last) = seats.pop() else {
        unreachable!()
    };
    let ClaimSeat {
        word,
        mut pen,
        count,
        is_ended: _,
    } = last;
    join_all(word, &mut pen, seats);
    word.load::<Settle>(&mut pen, 0);
    count
}

fn join_all(word: &ClaimWord, pen: &mut Pen, mut seats: Vec<ClaimSeat<'_>>)
    requires seats { AllOf (record { table = word.now.table_id; of = word.now.key }) seats.items }
    requires place { (pen.old.table_id ≡ word.now.table_id) × (word.now.table_id.words ≡ 1) }
    requires pen { (0 < pen.old.me.0.seats) × (pen.old.me.1 ≡ []) }
    ensures place { pen.new.table_id ≡ pen.old.table_id }
    ensures joined { Joined pen.old.me.0 seats.entry.items pen.new.me.0 }
    ensures hands { pen.new.me.1 ≡ [] }
{
    while let Some(seat) = seats.pop() {
        join(word, pen, seat);
    }
}

fn join(word: &ClaimWord, pen: &mut Pen, seat: ClaimSeat<'_>)
    requires seat { seat.claims ≡ record { table = word.now.table_id; of = word.now.key } }
    requires place { (pen.old.table_id ≡ word.now.table_id) × (word.now.table_id.words ≡ 1) }
    requires pen { (0 < pen.old.me.0.seats) × (pen.old.me.1 ≡ []) }
    ensures place { pen.new.table_id ≡ pen.old.table_id }
    ensures joined { pen.new.me ≡ (together pen.old.me.0 (drawn_by seat.entry), []) }
{
    word.join_seat::<Together>(pen, seat.pen);
}
