ghost use Rattle.std.specs.Prelude.{◌≡◌, [], ◌∷◌, ◌++◌, ◌↔◌, true, false, IsTrue, IfErr, OnOk, OnErr, MatchResult};
ghost use Rattle.count_laws.specs.Counts.{next_count};
ghost use Rattle.blocked.specs.Bells.{waiters_of, IsResting};
ghost use Rattle.blocked.specs.Refusals.{IsRefusal, handed_back};

use crate::due::Due;
use crate::waiters::{Parked, Waiters};
use std::alloc::Global;
use std::collections::VecDeque;
use std::marker::Model;
use std::mem;

/// A count of rings, and who waits for the next one.
#[derive(Drop)]
pub struct Bell<W> {
    alloc: Global,
    count: u64,
    is_closed: bool,
    parked: VecDeque<Parked<W>>,
}

/// Why a waiter was not kept. It is handed back.
#[derive(Drop)]
pub enum NotParked<W> {
    Rung(W),
    Closed(W),
    Memory(W),
}

impl<W> Model for Bell<W> {
    ghost use Rattle.blocked.specs.Bells.{BellState};

    ghost Value = { BellState W };

    ghost use Rattle.blocked.specs.Bells.{IsResting};

    ghost view = { λ b. record { count = b.count; is_closed = b.is_closed; parked = b.parked.items } };

    ghost invariant = { λ b. IsResting (record { count = b.count; is_closed = b.is_closed; parked = b.parked.items }) };
}

impl<W> Bell<W> {
    /// Open, with no ring yet and nobody waiting. Takes no memory.
    pub fn new(alloc: Global) -> Bell<W>
        ensures { result ≡ record { count = 0; is_closed = false; parked = [] } }
    {
        Bell {
            alloc,
            count: 0,
            is_closed: false,
            parked: VecDeque::new(alloc),
        }
    }

    /// How often it rang.
    pub fn seen(&self) -> u64
        ensures { result ≡ self.now.count }
    {
        self.count
    }

    /// Keeps the waiter until the next ring, unless the bell is closed or rang since the count was
    /// read. At the last count nobody is kept, since no ring would show.
    pub fn park(&mut self, seen: u64, waiter: W) -> Result<(), NotParked<W>>
        ensures ok { OnOk result (self.new ≡ record self.old { parked = self.old.parked ++ record { seen = seen; waiter = waiter } ∷ [] }) }
        ensures err { OnErr result (self.new ≡ self.old) }
        ensures cause { IsRefusal self.old seen waiter result }
        ensures back { IfErr result (λ refusal. handed_back refusal ≡ waiter) }
    {
        if self.is_closed {
            return Err(NotParked::Closed(waiter));
        }
        if seen != self.count || self.count == u64::MAX {
            return Err(NotParked::Rung(waiter));
        }
        match self.parked.push_back(Parked { seen, waiter }) {
            Ok(()) => Ok(()),
            Err(full) => Err(NotParked::Memory(full.value.waiter)),
        }
    }

    /// Counts one more, up to the most that the count holds, and hands out all who wait. Takes no
    /// memory.
    pub fn ring(&mut self, due: Due) -> Waiters<W>
        ensures waiters { result ≡ waiters_of self.old.parked }
        ensures rung { self.new ≡ record self.old { count = next_count self.old.count; parked = [] } }
    {
        due.spend();
        let waiters = self.take_all();
        self.count = self.count.saturating_add(1);
        waiters
    }

    /// Closes the bell for good, and hands out all who wait. Takes no memory.
    pub fn close(&mut self) -> Waiters<W>
        ensures waiters { result ≡ waiters_of self.old.parked }
        ensures shut { self.new ≡ record self.old { is_closed = true; parked = [] } }
    {
        let waiters = self.take_all();
        self.is_closed = true;
        waiters
    }

    fn take_all(&mut self) -> Waiters<W>
        ensures waiters { result ≡ waiters_of self.old.parked }
        ensures rest { self.new ≡ record self.old { parked = [] } }
    {
        let none = VecDeque::new(self.alloc);
        Waiters::of(mem::replace(&mut self.parked, none))
    }

    /// Each waiter parked at the count that the bell has, and nobody waits at a closed bell.
    pub fn rests(&self)
        ensures { IsResting self.now }
    {
        let _count = self.count;
    }
}
