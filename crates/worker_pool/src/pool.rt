//! Who is ready for a turn, and who has come back: what workers share behind one lock.
ghost use Rattle.std.specs.Prelude.{◌≡◌, [], true, false, Some, None, ℕ, IfOk, MatchResult, OnOk, slice_get, sum_by};
ghost use Rattle.feedback_queue.specs.Queue.{all_waiting, empty_queue};
ghost use Rattle.worker_pool.specs.Items.{PlacedItem};
ghost use Rattle.worker_pool.specs.Pools.{IsPicked, admitted, all_admitted, all_offered, all_returned, fell_short, first_of, left_work, offered, stops, weigh, with_returned};

use crate::runner::{Returned, Roster, Runner, Waiter};
use crate::turning::TakesTurns;
use blocked::Waiters;
use feedback_queue::Feedback;
use sql_values::Memory;
use std::alloc::Global;
use std::marker::Model;

/// One that is having a turn. It has no `Drop`: who picked has to say what became of the one picked.
pub(crate) struct AtWork(());

/// What a worker does next.
pub(crate) enum Next<W> {
    /// Gives this one a turn.
    Turn(W, AtWork),
    /// Sleeps until one is ready.
    Wait,
    /// Leaves.
    Over,
}

#[derive(Drop)]
pub(crate) struct Pool<T: TakesTurns, J: Roster<T>> {
    ready: Feedback<Runner<T, J>>,
    returned: Vec<Returned<T, J>>,
    at_work: u64,
    first_failed: Option<usize>,
    is_short: bool,
}

impl<T: TakesTurns, J: Roster<T>> Model for Pool<T, J> {
    ghost use Rattle.worker_pool.specs.Pools.{PoolState};

    ghost Value = { PoolState T };

    ghost view = { λ p. record {
      ready = p.ready;
      returned = p.returned.items;
      at_work = p.at_work;
      first_failed = p.first_failed;
      is_short = p.is_short;
    } };
}

impl<T: TakesTurns, J: Roster<T>> Pool<T, J> {
    pub(crate) fn new(alloc: Global) -> Pool<T, J>
        ensures { result ≡ record { ready = empty_queue; returned = []; at_work = 0; first_failed = None; is_short = false } }
    {
        Pool {
            ready: Feedback::new(alloc),
            returned: Vec::new(alloc),
            at_work: 0,
            first_failed: None,
            is_short: false,
        }
    }

    fn stops(&self) -> bool
        ensures { result ≡ stops self.now }
    {
        self.first_failed.is_some() || self.is_short
    }

    /// Picks the one that has the next turn.
    pub(crate) fn next(&mut self) -> Next<Runner<T, J>>
        ensures { IsPicked self.old result self.new }
    {
        if self.stops() {
            return Next::Over;
        }
        match self.ready.take() {
            Some((_work, runner)) => {
                self.at_work = self.at_work.saturating_add(1);
                Next::Turn(runner, AtWork(()))
            }
            None if self.at_work == 0 => Next::Over,
            None => Next::Wait,
        }
    }

    /// The one that had a turn is parked.
    pub(crate) fn leave(&mut self, turn: AtWork)
        ensures { self.new ≡ left_work self.old }
    {
        let AtWork(()) = turn;
        self.at_work = self.at_work.saturating_sub(1);
    }

    /// Takes the one that had a turn in again.
    pub(crate) fn put_back(&mut self, turn: AtWork, runner: Runner<T, J>) -> Result<(), Memory>
        ensures { MatchResult result (λ _. self.new ≡ offered T.work runner (left_work self.old)) (λ _. self.new ≡ fell_short (left_work self.old)) }
    {
        self.leave(turn);
        self.offer(runner)
    }

    /// Keeps the one that had a turn and has no more.
    pub(crate) fn take_back(&mut self, turn: AtWork, returned: Returned<T, J>) -> Result<(), Memory>
        ensures { MatchResult result (λ _. self.new ≡ with_returned T.has_failed returned (left_work self.old)) (λ _. self.new.is_short ≡ true) }
    {
        self.leave(turn);
        self.keep(returned)
    }

    /// Gives the one that had a turn up, for want of memory.
    pub(crate) fn give_up(&mut self, turn: AtWork)
        ensures { self.new ≡ fell_short (left_work self.old) }
    {
        self.leave(turn);
        self.fall_short();
    }

    /// One was given up for want of memory, so no more turns are given.
    pub(crate) fn fall_short(&mut self)
        ensures { self.new ≡ fell_short self.old }
    {
        self.is_short = true;
    }

    /// Takes in one that is ready, at the place of the work that was done for it.
    pub(crate) fn offer(&mut self, runner: Runner<T, J>) -> Result<(), Memory>
        ensures { MatchResult result (λ _. self.new ≡ offered T.work runner self.old) (λ _. self.new ≡ fell_short self.old) }
    {
        let work = runner.work();
        if self.ready.offer(work, runner).is_ok() {
            return Ok(());
        }
        self.is_short = true;
        Err(Memory)
    }

    /// Takes in all who waited for a ring.
    pub(crate) fn offer_all(&mut self, mut waiters: Waiters<Waiter<T, J>>) -> Result<(), Memory>
        ensures { MatchResult result (λ _. self.new ≡ all_offered T.work waiters self.old) (λ _. self.new.is_short ≡ true) }
    {
        while let Some(waiter) = waiters.take_first() {
            self.offer(waiter.wake())?;
        }
        Ok(())
    }

    /// Takes in one that comes: it is ready, unless it needs no turn.
    pub(crate) fn admit(&mut self, place: usize, item: T) -> Result<(), Memory>
        requires { slice_get J.came place ≡ Some item }
        ensures { OnOk result (self.new ≡ admitted T.work T.is_finished T.has_failed (record { place = place; item = item }) self.old) }
    {
        let came = Returned::first(place, item);
        if came.is_over() {
            return self.keep(came);
        }
        self.offer(came.run())
    }

    /// Takes in all that come, in their order.
    #[tactic(auto, using(crate::proofs::AdmitLemmas::comes_next, crate::proofs::AdmitLemmas::come_behind))]
    pub(crate) fn admit_all(&mut self, items: Vec<T>) -> Result<(), Memory>
        requires { items.items ≡ J.came }
        ensures { OnOk result (self.new ≡ all_admitted T.work T.is_finished T.has_failed 0 items.items self.old) }
    {
        let mut place = 0;
        for item in items {
            self.admit(place, item)?;
            place += 1;
        }
        Ok(())
    }

    /// Keeps all who waited for a ring.
    pub(crate) fn keep_waiters(&mut self, mut waiters: Waiters<Waiter<T, J>>) -> Result<(), Memory>
        ensures { OnOk result (self.new ≡ all_returned T.has_failed waiters self.old) }
    {
        while let Some(waiter) = waiters.take_first() {
            self.keep(waiter.wake().give_back())?;
        }
        Ok(())
    }

    /// Keeps all that are ready.
    #[tactic(auto, using(crate::proofs::RecallLemmas::kept_weighs, crate::proofs::RecallLemmas::fewer_wait))]
    fn recall(&mut self) -> Result<(), Memory>
        ensures all { OnOk result ((h : PlacedItem T → ℕ) → weigh h self.new ≡ weigh h self.old) }
        ensures none { OnOk result (all_waiting self.new.ready ≡ []) }
    {
        while let Some((_work, runner)) = self.ready.take() {
            self.keep(runner.give_back())?;
        }
        Ok(())
    }

    /// Hands out all that came back or are ready, and the place of the one that failed first.
    pub(crate) fn close(mut self) -> Result<(Vec<Returned<T, J>>, Option<usize>), Memory>
        ensures { IfOk result (λ r. (h : PlacedItem T → ℕ) → sum_by h r.0.items ≡ weigh h self) }
    {
        self.recall()?;
        if self.is_short {
            return Err(Memory);
        }
        Ok((self.returned, self.first_failed))
    }

    /// Keeps one that has no more turns.
    pub(crate) fn keep(&mut self, returned: Returned<T, J>) -> Result<(), Memory>
        ensures { MatchResult result (λ _. self.new ≡ with_returned T.has_failed returned self.old) (λ _. self.new.is_short ≡ true) }
    {
        self.first_failed = first_of(self.first_failed, returned.has_failed(), returned.place());
        if self.returned.push(returned).is_ok() {
            return Ok(());
        }
        self.is_short = true;
        Err(Memory)
    }
}

/// Who failed first, where one more came back.
fn first_of(first: Option<usize>, has_failed: bool, place: usize) -> Option<usize>
    ensures { result ≡ first_of first has_failed place }
{
    match (first, has_failed) {
        (Some(first), _) => Some(first),
        (None, true) => Some(place),
        (None, false) => None,
    }
}
