ghost use Rattle.std.specs.Prelude.{◌≡◌, ◌<◌, ◌≤◌, ◌*◌, ◌^◌, ◌↔◌, [], length, OnErr, OnOk, IfErr, IfSome, MatchOption, Some, slice_get};
ghost use Rattle.feedback_queue.specs.Levels.{level_of, weight, weight_waited};
ghost use Rattle.feedback_queue.specs.Queue.{IsNext, TakenFrom, caught_up, gave_turn, offered_to, with_turn};

use crate::best::{Best, better};
use std::alloc::{AllocFailed, Global};
use std::marker::Model;

/// Turns are counted up to here.
const MOST_TURNS: u64 = 1 << 59;

/// The level of so much work: levels 0 to 4 begin at 0, 1, 10, 60 and 300 million units.
pub fn level_of(work: u64) -> u8
    ensures { result ≡ level_of work }
{
    match work {
        0..=999_999 => 0,
        1_000_000..=9_999_999 => 1,
        10_000_000..=59_999_999 => 2,
        60_000_000..=299_999_999 => 3,
        _ => 4,
    }
}

/// One who waits for a turn, and the work that was done for it.
#[derive(Drop)]
pub(crate) struct Entry<W> {
    pub(crate) work: u64,
    pub(crate) waiter: W,
}

/// How many turns a level had, and who waits in it.
#[derive(Drop)]
pub(crate) struct Level<W> {
    number: u8,
    turns: u64,
    waiting: Vec<Entry<W>>,
}

impl<W> Model for Level<W> {
    ghost use Rattle.feedback_queue.specs.Levels.{LevelState};

    ghost Value = { LevelState W };

    ghost view = { λ l. record { number = l.number; turns = l.turns; waiting = l.waiting.items } };

    ghost use Rattle.std.specs.Prelude.{◌≤◌, ◌*◌, ◌^◌};

    // So that no weight is out of range.
    ghost invariant = { λ l. (l.number ≤ 4) × (l.turns * 2 ^ l.number ≤ 2 ^ 63) };
}

impl<W> Level<W> {
    /// Nobody waits in it, and it had no turn.
    pub(crate) fn new(alloc: Global, number: u8) -> Level<W>
        requires { number ≤ 4 }
        ensures { result ≡ record { number = number; turns = 0; waiting = [] } }
    {
        Level {
            number,
            turns: 0,
            waiting: Vec::new(alloc),
        }
    }

    pub(crate) fn turns(&self) -> u64
        ensures { result ≡ self.now.turns }
    {
        self.turns
    }

    /// Its weight, if somebody waits in it.
    pub(crate) fn weight(&self) -> Option<u64>
        ensures value { result ≡ weight_waited self.now }
        ensures within { IfSome result (λ weight. weight ≤ 2 ^ 63) }
    {
        if self.waiting.is_empty() {
            return None;
        }
        Some(self.turns * self.turn_weight())
    }

    /// What each of its turns weighs.
    fn turn_weight(&self) -> u64
        ensures value { result ≡ 2 ^ self.now.number }
        ensures few { result ≤ 16 }
        ensures all { self.now.turns * result ≤ 2 ^ 63 }
    {
        1 << self.number
    }

    /// Gives a turn to who comes next, if somebody waits.
    pub(crate) fn take(&mut self) -> Option<(u64, W)>
        ensures { MatchOption result ((self.old.waiting ≡ []) × (self.new ≡ self.old))
            (λ taken. TakenFrom self.old taken self.new) }
    {
        match self.next() {
            Some(place) => Some(self.give_turn(place)),
            None => None,
        }
    }

    /// Gives a turn to the one at a place.
    fn give_turn(&mut self, place: usize) -> (u64, W)
        requires { place < length self.old.waiting }
        ensures level { self.new ≡ gave_turn place self.old }
        ensures taken { slice_get self.old.waiting place ≡ Some (record { work = result.0; waiter = result.1 }) }
    {
        let Entry { work, waiter } = self.waiting.remove(place);
        self.turns = with_turn(self.turns, self.number);
        (work, waiter)
    }

    /// The place of who comes next.
    #[tactic(auto, using(crate::proofs::PickLemmas::some_is_next, crate::proofs::PickLemmas::next_within))]
    fn next(&self) -> Option<usize>
        ensures { MatchOption result (self.now.waiting ≡ [])
            (λ place. (place < length self.now.waiting) × IsNext self.now.waiting place) }
    {
        let mut best = None;
        let mut place = self.waiting.len();
        while place > 0 {
            place -= 1;
            best = better(place, Some(self.waiting[place].work), best);
        }
        match best {
            Some(best) => Some(best.place),
            None => None,
        }
    }

    /// Takes one more in, where the best of all levels is known.
    pub(crate) fn offer(
        &mut self,
        best: Option<Best>,
        work: u64,
        waiter: W,
    ) -> Result<(), AllocFailed<W>>
        requires { IfSome best (λ best. best.measure ≤ 2 ^ 63) }
        ensures ok { OnOk result (self.new ≡ offered_to best (record { work = work; waiter = waiter }) self.old) }
        ensures err { IfErr result (λ failed. (failed.value ≡ waiter) × (self.new ≡ self.old)) }
    {
        let was_empty = self.waiting.is_empty();
        if let Err(failed) = self.waiting.push(Entry { work, waiter }) {
            return Err(AllocFailed {
                value: failed.value.waiter,
            });
        }
        if was_empty {
            self.catch_up(best);
        }
        Ok(())
    }

    /// Raises the turns to those with which the level weighs as much as the best one.
    fn catch_up(&mut self, best: Option<Best>)
        requires { IfSome best (λ best. best.measure ≤ 2 ^ 63) }
        ensures { self.new ≡ caught_up best self.old }
    {
        if let Some(best) = best {
            let turn = self.turn_weight();
            self.turns = self.turns.max((best.measure + (turn - 1)) / turn);
        }
    }
}

/// One turn more, up to the most that are counted.
#[tactic(auto, using(crate::proofs::LevelLemmas::turn_within))]
fn with_turn(turns: u64, number: u8) -> u64
    requires few { number ≤ 4 }
    requires within { turns * 2 ^ number ≤ 2 ^ 63 }
    ensures value { result ≡ with_turn turns }
    ensures within { result * 2 ^ number ≤ 2 ^ 63 }
{
    if turns < MOST_TURNS { turns + 1 } else { turns }
}
