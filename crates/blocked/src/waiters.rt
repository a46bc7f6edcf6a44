ghost use Rattle.std.specs.Prelude.{◌≡◌, ◌∷◌, [], ◌↔◌, length, map, IsTrue, MatchOption};
ghost use Rattle.blocked.specs.Bells.{waiters_of};

use std::collections::VecDeque;
use std::marker::Model;

/// One who waits, and the count of the bell that it had read.
#[derive(Drop)]
pub(crate) struct Parked<W> {
    pub(crate) seen: u64,
    pub(crate) waiter: W,
}

/// A list of waiters, in the order in which they parked.
#[derive(Drop)]
pub struct Waiters<W> {
    parked: VecDeque<Parked<W>>,
}

impl<W> Model for Waiters<W> {
    ghost use Rattle.std.specs.Prelude.{List};

    ghost Value = { List W };

    ghost use Rattle.blocked.specs.Bells.{waiters_of};

    ghost view = { λ w. waiters_of w.parked.items };
}

impl<W> Waiters<W> {
    pub(crate) fn of(parked: VecDeque<Parked<W>>) -> Waiters<W>
        ensures { result ≡ waiters_of parked.items }
    {
        Waiters { parked }
    }

    /// Takes the first waiter, or none where there is none.
    pub fn take_first(&mut self) -> Option<W>
        ensures { MatchOption result ((self.old ≡ []) × (self.new ≡ [])) (λ w. self.old ≡ w ∷ self.new) }
    {
        match self.parked.pop_front() {
            None => None,
            Some(Parked { seen: _, waiter }) => Some(waiter),
        }
    }

    /// How many waiters there are.
    pub fn len(&self) -> usize
        ensures { result ≡ length self.now }
    {
        self.parked.len()
    }

    pub fn is_empty(&self) -> bool
        ensures { IsTrue result ↔ (self.now ≡ []) }
    {
        self.parked.is_empty()
    }
}
