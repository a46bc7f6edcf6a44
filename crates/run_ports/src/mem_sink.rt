ghost use Rattle.std.specs.Prelude.{◌≡◌, ◌<◌, ◌≤◌, Some, None, length, IfOk, OnErr, MatchResult};
ghost use Rattle.std.specs.Io.{WritesAtMost};
ghost use Rattle.std.specs.Io.KnownBytes.{WriteAppends};
ghost use Rattle.count_laws.specs.Counts.{Rose};
ghost use Rattle.run_ports.specs.MemSink.{written_to, faults_of, IsUnused, taken_of, FollowsWrite};

use crate::bounded_bytes::BoundedBytes;
use crate::failing_calls::FailingCalls;
use crate::sink::{Sink, SinkFailed};
use sql_values::Memory;
use std::alloc::Global;

/// A sink in memory, with a room that is reserved at once.
#[derive(Drop)]
pub struct MemSink {
    held: BoundedBytes,
    calls: FailingCalls,
    faults: u64,
}

impl MemSink {
    /// A sink that takes at most `most` bytes at a write, and fails at the writes whose numbers,
    /// from 1, are in `failing`.
    pub fn new(
        alloc: Global,
        room: usize,
        most: usize,
        failing: Vec<u32>,
    ) -> Result<MemSink, Memory>
        requires { 0 < most }
        ensures { IfOk result (IsUnused room most failing) }
    {
        Ok(MemSink {
            held: BoundedBytes::new(alloc, room, most)?,
            calls: FailingCalls::of(failing),
            faults: 0,
        })
    }

    /// What was written so far.
    pub fn written(&self) -> &[u8]
        ensures { result.now ≡ written_to self.now }
    {
        self.held.as_slice()
    }

    /// How many writes failed.
    pub fn faults(&self) -> u64
        ensures { result ≡ faults_of self.now }
    {
        self.faults
    }
}

impl Sink for MemSink {
    ghost use Rattle.std.specs.Prelude.{Some};
    ghost use Rattle.run_ports.specs.MemSink.{written_to, faults_of};

    ghost written = { λ s. Some (written_to s) };

    ghost faults = { faults_of };

    /// Takes no memory.
    fn write(&mut self, piece: &[u8]) -> Result<usize, SinkFailed>
        ensures takes { MatchResult result (λ n. taken_of self.old piece.now ≡ Some n)
            (λ _. taken_of self.old piece.now ≡ None) }
        ensures follows { FollowsWrite self.old self.new result }

        ensures bound { WritesAtMost result piece.now }
        ensures some { IfOk result (λ n. 0 < length piece.now → 0 < n) }
        ensures bytes { WriteAppends (Some (written_to self.old)) (Some (written_to self.new))
            result piece.now }
        ensures later { faults_of self.old ≤ faults_of self.new }
        ensures cause { OnErr result (Rose (faults_of self.old) (faults_of self.new)) }
    {
        let fails = self.calls.count_one();
        if fails || self.held.room_left() == 0 && !piece.is_empty() {
            self.faults = self.faults.saturating_add(1);
            return Err(SinkFailed);
        }
        Ok(self.held.append(piece))
    }
}
