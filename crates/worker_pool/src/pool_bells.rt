//! The bells of a pool, as a turn sees them.
ghost use Rattle.std.specs.Prelude.{◌≤◌, min};
ghost use Rattle.count_laws.specs.Counts.{most_count};

use crate::runner::Roster;
use crate::shared::Shared;
use crate::turning::TakesTurns;
use blocked::{Bell, Bells, Due};
use sql_values::Memory;
use std::alloc::Global;
use std::sync::Wait;
use std::thread::Threads;

/// The bells during one turn. A ring makes those ready who waited for it.
#[derive(Drop)]
pub(crate) struct PoolBells<'p, T: TakesTurns, J: Roster<T>> {
    shared: &'p Shared<T, J>,
    alloc: Global,
    // The greatest count that was read, and how many dues were taken.
    greatest: u64,
    rings: u64,
}

impl<'p, T: TakesTurns, J: Roster<T>> PoolBells<'p, T, J> {
    pub(crate) fn new(alloc: Global, shared: &'p Shared<T, J>) -> PoolBells<'p, T, J> {
        PoolBells {
            shared,
            alloc,
            greatest: 0,
            rings: 0,
        }
    }
}

impl<T: TakesTurns, J: Roster<T>> Bells for PoolBells<'_, T, J> {
    ghost shown = { λ bells _ count. count ≤ bells.greatest };

    ghost rang = { λ bells _ times. min times most_count ≤ bells.rings };

    fn seen<R: Threads + Wait + Sync>(&mut self, rt: &R, bell: u32) -> u64 {
        let count = self.shared.seen(rt, bell);
        self.greatest = self.greatest.max(count);
        count
    }

    fn ring<R: Threads + Wait + Sync>(&mut self, rt: &R, due: Due) -> Result<(), Memory> {
        self.rings = self.rings.saturating_add(1);
        if self.shared.has(due.bell()) {
            return self.shared.ring(rt, due);
        }
        Bell::<u8>::new(self.alloc).ring(due);
        Ok(())
    }
}
