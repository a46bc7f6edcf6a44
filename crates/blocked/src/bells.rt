ghost use Rattle.std.specs.Prelude.{ℕ, ◌+◌};
ghost use Rattle.blocked.specs.Rings.{rings_at};

use crate::due::Due;
use sql_values::Memory;
use std::sync::Wait;
use std::thread::Threads;

/// The bells of a run, as one turn of a driver sees them. A number that no bell has rings nothing.
pub trait Bells {
    // This count was answered for this bell. Nothing else is known of a count, so a turn that names
    // one has read it.
    ghost shown: { Self → ℕ → ℕ → Type 0 };

    // This bell was rung so often. Only `ring` adds to it, one for a due of that bell. So a turn which says
    // that a bell was rung twice more has spent two dues of it here.
    ghost rang: { Self → ℕ → ℕ → Type 0 };

    /// How often the bell rang.
    fn seen<R: Threads + Wait + Sync>(&mut self, rt: &R, bell: u32) -> u64
        ensures shown { shown self.new bell result }
        ensures kept { (bell count : ℕ) → shown self.old bell count → shown self.new bell count }
        ensures rang { (bell times : ℕ) → rang self.old bell times → rang self.new bell times };

    /// Rings the bell of the due.
    fn ring<R: Threads + Wait + Sync>(&mut self, rt: &R, due: Due) -> Result<(), Memory>
        ensures kept { (bell count : ℕ) → shown self.old bell count → shown self.new bell count }
        ensures rang { (bell times : ℕ) → rang self.old bell times
            → rang self.new bell (times + rings_at bell due.number) };
}
