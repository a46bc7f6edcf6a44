ghost use Rattle.std.specs.Prelude.{◌≡◌, ℕ};

use crate::bells::Bells;
use std::sync::Wait;
use std::thread::Threads;

/// What a read of a bell makes. The read is a method of a trait, since its caller need not show then that
/// the handle of the runtime is `Sync`: an operator's method, which reads, has no proof of that to give.
pub trait ReadBell {
    /// Reads how often the bell of this number rang.
    fn read<R: Threads + Wait + Sync, B: Bells>(rt: &R, bells: &mut B, bell: u32) -> Self
        ensures kept { (bell count : ℕ) → B.shown bells.old bell count
            → B.shown bells.new bell count }
        ensures rang { (bell times : ℕ) → B.rang bells.old bell times
            → B.rang bells.new bell times };
}

/// A count of a bell as it was read. Only `Seen::read` makes one, so a look that is handed one comes
/// after a read of that bell.
#[derive(Clone, Copy)]
pub struct Seen {
    bell: u32,
    count: u64,
}

impl ReadBell for Seen {
    fn read<R: Threads + Wait + Sync, B: Bells>(rt: &R, bells: &mut B, bell: u32) -> Seen
        ensures bell { result.bell ≡ bell }
        ensures shown { B.shown bells.new result.bell result.count }
        ensures kept { (bell count : ℕ) → B.shown bells.old bell count
            → B.shown bells.new bell count }
        ensures rang { (bell times : ℕ) → B.rang bells.old bell times
            → B.rang bells.new bell times }
    {
        let count = bells.seen(rt, bell);
        Seen { bell, count }
    }
}

impl Seen {
    /// The number of the bell.
    pub fn bell(&self) -> u32
        ensures { result ≡ self.now.bell }
    {
        self.bell
    }

    /// The count that the bell showed.
    pub fn count(&self) -> u64
        ensures { result ≡ self.now.count }
    {
        self.count
    }
}
