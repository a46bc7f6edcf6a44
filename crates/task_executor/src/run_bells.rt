//! The bells of a run on one thread.
ghost use Rattle.std.specs.Prelude.{◌≡◌, IfOk, replicate};
ghost use Rattle.task_executor.specs.RunBells.{has_rung, has_shown};

use blocked::{Bell, Bells, Due};
use sql_values::Memory;
use std::alloc::Global;
use std::sync::Wait;
use std::thread::Threads;

/// Bells that count, at which nobody is parked: a driver that waits is asked again in its order, so a ring wakes
/// nobody.
#[derive(Drop)]
pub(crate) struct RunBells {
    alloc: Global,
    rings: Vec<u64>,
}

impl RunBells {
    /// Bells 0 to `count - 1`, none of which rang.
    pub(crate) fn new(alloc: Global, count: u32) -> Result<RunBells, Memory>
        ensures { IfOk result (λ bells. bells.rings.items ≡ replicate count 0) }
    {
        let rings = Vec::from_elem(alloc, 0u64, count as usize)?;
        Ok(RunBells { alloc, rings })
    }
}

impl Bells for RunBells {
    ghost use Rattle.task_executor.specs.RunBells.{has_rung, has_shown};

    ghost shown = { λ bells bell count. has_shown bells.rings.items bell count };

    ghost rang = { λ bells bell times. has_rung bells.rings.items bell times };

    fn seen<R: Threads + Wait + Sync>(&mut self, _rt: &R, bell: u32) -> u64 {
        match self.rings.get(bell as usize) {
            Some(count) => *count,
            None => 0,
        }
    }

    fn ring<R: Threads + Wait + Sync>(&mut self, _rt: &R, due: Due) -> Result<(), Memory> {
        let bell = due.bell() as usize;
        Bell::<u8>::new(self.alloc).ring(due);
        if bell < self.rings.len() {
            self.rings[bell] = self.rings[bell].saturating_add(1);
        }
        Ok(())
    }
}
