ghost use Rattle.std.specs.Prelude.{◌≡◌, ◌≤◌, [], ◌∷◌, map, IfErr, MatchOption, OnOk};
ghost use Rattle.feedback_queue.specs.Queue.{IsTaken, empty_queue, all_waiting, after_offer, turns_at};

use crate::level::{Level, level_of};
use crate::levels::{next, offer_at, take_at};
use std::alloc::Global;
use std::marker::Model;

/// Who waits for a turn, in five levels by the work that was done for them.
#[derive(Drop)]
pub struct Feedback<W> {
    levels: [Level<W>; 5],
}

impl<W> Model for Feedback<W> {
    ghost use Rattle.feedback_queue.specs.Queue.{FeedbackState};

    ghost Value = { FeedbackState W };

    ghost view = { λ q. record { levels = q.levels } };

    ghost use Rattle.std.specs.Prelude.{◌≡◌, map, ◌∷◌, []};

    ghost invariant = { λ q. map (λ level. level.number) q.levels ≡ 0 ∷ 1 ∷ 2 ∷ 3 ∷ 4 ∷ [] };
}

impl<W> Feedback<W> {
    /// Nobody waits, and no level had a turn. Takes no memory.
    pub fn new(alloc: Global) -> Feedback<W>
        ensures { result ≡ empty_queue }
    {
        Feedback {
            levels: [
                Level::new(alloc, 0),
                Level::new(alloc, 1),
                Level::new(alloc, 2),
                Level::new(alloc, 3),
                Level::new(alloc, 4),
            ],
        }
    }

    /// Takes in who is ready, with the work that was done for it. A level in which nobody waited catches up in
    /// turns with the level that comes next.
    pub fn offer(&mut self, work: u64, waiter: W) -> Result<(), OfferMemory<W>>
        ensures ok { OnOk result (self.new ≡ after_offer work waiter self.old) }
        ensures err { IfErr result (λ failed. (failed.waiter ≡ waiter) × (self.new ≡ self.old)) }
    {
        let best = next(&self.levels);
        let level = usize::from(level_of(work));
        match offer_at(&mut self.levels, level, best, work, waiter) {
            Ok(()) => Ok(()),
            Err(failed) => Err(OfferMemory {
                waiter: failed.value,
            }),
        }
    }

    /// Gives the next turn, or none where nobody waits. Answers the work that was done, and who has the turn.
    /// Takes no memory.
    pub fn take(&mut self) -> Option<(u64, W)>
        ensures { MatchOption result ((all_waiting self.old ≡ []) × (self.new ≡ self.old))
            (λ taken. IsTaken self.old taken self.new) }
    {
        match next(&self.levels) {
            Some(best) => take_at(&mut self.levels, best.place),
            None => None,
        }
    }

    /// The law that there are five levels, with the numbers 0 to 4 in this order.
    pub fn levels_are_numbered(&self)
        ensures { map (λ level. level.number) self.now.levels ≡ 0 ∷ 1 ∷ 2 ∷ 3 ∷ 4 ∷ [] }
    {
        let _ = &self.levels;
    }

    /// How many turns a level had.
    pub fn turns(&self, level: u8) -> u64
        requires { level ≤ 4 }
        ensures { result ≡ turns_at self.now.levels level }
    {
        self.levels[usize::from(level)].turns()
    }
}

/// Want of memory. It has who was to wait.
#[derive(Drop)]
pub struct OfferMemory<W> {
    pub waiter: W,
}
