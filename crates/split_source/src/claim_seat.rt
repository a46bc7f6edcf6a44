//! One reader's right to draw numbers.
ghost use Rattle.std.specs.Prelude.{◌≡◌, ◌<◌, [], ◌∷◌, ◌++◌, true, false, ◌↔◌, IfSome, IfNone, OnSome, IsNone};
ghost use Rattle.split_source.specs.Claims.{one_seat, unshared};
ghost use Rattle.split_source.specs.Seats.{new_seat, HasDrawn};

use crate::draws::{ClaimWord, Draw, Pen};
use std::marker::Model;

/// Draws numbers of some claims. It can go to another thread.
#[derive(Drop)]
pub struct ClaimSeat<'c> {
    pub(crate) word: &'c ClaimWord,
    pub(crate) pen: Pen,
    pub(crate) count: u32,
    pub(crate) is_ended: bool,
}

impl<'c> Model for ClaimSeat<'c> {
    ghost use Rattle.split_source.specs.Seats.{SeatState};

    ghost Value = { SeatState };

    ghost use Rattle.split_source.specs.InClaimSeat.{seat_view, IsSeat};

    ghost view = { seat_view };

    ghost invariant = { IsSeat };
}

impl<'c> ClaimSeat<'c> {
    pub(crate) fn new(word: &'c ClaimWord, pen: Pen, count: u32) -> ClaimSeat<'c>
        requires place { (pen.table_id ≡ word.now.table_id) × (word.now.table_id.words ≡ 1) }
        requires count { count ≡ word.now.key.count }
        requires pen { pen.me ≡ (one_seat (unshared word.now.key), []) }
        ensures { result ≡ new_seat (record { table = word.now.table_id; of = word.now.key }) }
    {
        ClaimSeat {
            word,
            pen,
            count,
            is_ended: false,
        }
    }

    /// How many numbers there are to draw.
    pub fn count(&self) -> u32
        ensures { result ≡ self.now.claims.of.count }
    {
        self.count
    }

    /// Whether a claim answered None.
    pub fn is_ended(&self) -> bool
        ensures { result ≡ self.now.is_ended }
    {
        self.is_ended
    }

    /// Draws the next number, in one atomic step. None comes once the numbers are drawn, and the
    /// seat then draws no more.
    pub fn claim(&mut self) -> Option<u32>
        ensures same { self.new.claims ≡ self.old.claims }
        ensures number { IfSome result (λ n. HasDrawn self.old n self.new) }
        ensures going { OnSome result ((self.old.is_ended ≡ false) × (self.new.is_ended ≡ false)) }
        ensures none { IsNone result → self.new ≡ record self.old { is_ended = true } }
    {
        if self.is_ended {
            return None;
        }
        let found = self.word.fetch_add::<Draw>(&mut self.pen, 0, 1);
        if found < self.count as u64 {
            return Some(found as u32);
        }
        self.is_ended = true;
        None
    }
}
