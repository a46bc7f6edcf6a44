//! What the workers of a run share: the pool behind a lock, and the bells.
ghost use Rattle.std.specs.Prelude.{◌≡◌, ◌<◌, nat_lt, IfOk};

use crate::pool::{AtWork, Next, Pool};
use crate::runner::{Returned, Roster, Runner, Waiter};
use crate::turned::AfterTurn;
use crate::turning::TakesTurns;
use blocked::{Board, Due, NotParked};
use sql_values::Memory;
use std::alloc::Global;
use std::sync::{Condvar, Mutex, Wait};

#[derive(Drop)]
pub(crate) struct Shared<T: TakesTurns, J: Roster<T>> {
    pool: Mutex<Pool<T, J>>,
    bells: Board<Waiter<T, J>>,
    // Notified when one becomes ready in the turn of another, and when it is over.
    moved: Condvar,
}

impl<T: TakesTurns, J: Roster<T>> Shared<T, J> {
    pub(crate) fn new(alloc: Global, pool: Pool<T, J>, bells: u32) -> Result<Shared<T, J>, Memory>
        ensures { IfOk result (λ shared. shared.bells ≡ bells) }
    {
        Ok(Shared {
            pool: Mutex::new(pool),
            bells: Board::new(alloc, bells)?,
            moved: Condvar::new(),
        })
    }

    /// The one that has the next turn, or none where it is over. Sleeps while none is ready.
    pub(crate) fn next<R: Wait>(&self, rt: &R) -> Option<(Runner<T, J>, AtWork)> {
        let mut pool = self.pool.lock(rt);
        for _ in rt.forever() {
            match pool.next() {
                Next::Turn(runner, turn) => return Some((runner, turn)),
                Next::Wait => pool = self.moved.wait(rt, pool),
                Next::Over => break,
            }
        }
        self.moved.notify_all();
        None
    }

    /// Puts the one that had a turn where it belongs. Nobody is woken, since this worker picks next.
    pub(crate) fn settle<R: Wait>(
        &self,
        rt: &R,
        turn: AtWork,
        turned: AfterTurn<Runner<T, J>, Waiter<T, J>, Returned<T, J>>,
    ) {
        match turned {
            AfterTurn::Ready(runner) => self.put_back(rt, turn, runner),
            AfterTurn::Waits(waiter) => self.park(rt, turn, waiter),
            AfterTurn::Over(returned) => self.take_back(rt, turn, returned),
        }
    }

    // Of want of memory the pool keeps that one was given up.

    fn put_back<R: Wait>(&self, rt: &R, turn: AtWork, runner: Runner<T, J>) {
        let _ = self.pool.lock(rt).put_back(turn, runner);
    }

    fn take_back<R: Wait>(&self, rt: &R, turn: AtWork, returned: Returned<T, J>) {
        let _ = self.pool.lock(rt).take_back(turn, returned);
    }

    /// Parks it at its bell. One whose bell rang meanwhile is ready; one whose bell is not there waits for good.
    fn park<R: Wait>(&self, rt: &R, turn: AtWork, waiter: Waiter<T, J>) {
        let on = waiter.waits_for();
        if !self.has(on.bell) {
            return self.take_back(rt, turn, waiter.wake().give_back());
        }
        match self.bells.park(rt, &on, waiter) {
            Ok(()) => self.pool.lock(rt).leave(turn),
            Err(NotParked::Rung(waiter)) => self.put_back(rt, turn, waiter.wake()),
            Err(NotParked::Closed(waiter)) => self.put_back(rt, turn, waiter.wake()),
            Err(NotParked::Memory(_)) => self.pool.lock(rt).give_up(turn),
        }
    }

    pub(crate) fn fall_short<R: Wait>(&self, rt: &R) {
        self.pool.lock(rt).fall_short();
        self.moved.notify_all();
    }

    /// How often the bell rang.
    pub(crate) fn seen<R: Wait>(&self, rt: &R, bell: u32) -> u64 {
        if !self.has(bell) {
            return 0;
        }
        self.bells.seen(rt, bell)
    }

    /// Rings the bell of the due, and takes in all who waited at it.
    pub(crate) fn ring<R: Wait>(&self, rt: &R, due: Due) -> Result<(), Memory>
        requires { due.number < self.now.bells }
    {
        let waiters = self.bells.ring(rt, due);
        if waiters.is_empty() {
            return Ok(());
        }
        let offered = self.pool.lock(rt).offer_all(waiters);
        self.moved.notify_all();
        offered
    }

    pub(crate) fn has(&self, bell: u32) -> bool
        ensures { result ≡ nat_lt bell self.now.bells }
    {
        (bell as usize) < self.bells.len()
    }

    /// Hands out all that came back, are ready or are parked, and the place of the one that failed first.
    pub(crate) fn close<R: Wait>(
        self,
        rt: &R,
        bells: u32,
    ) -> Result<(Vec<Returned<T, J>>, Option<usize>), Memory>
        requires { bells ≡ self.bells }
    {
        let Shared {
            pool,
            bells: board,
            moved: _,
        } = self;
        let mut pool = pool.into_inner();
        for bell in 0..bells {
            pool.keep_waiters(board.close(rt, bell))?;
        }
        pool.close()
    }
}
