ghost use Rattle.std.specs.Prelude.{◌≡◌, ◌<◌, ◌≤◌, ◌-◌, ◌++◌, [], length, take, min, vec_len, vec_capacity, IfOk};

use sql_values::Memory;
use std::alloc::Global;

/// Bytes in a room that was reserved at once.
#[derive(Drop)]
pub(crate) struct BoundedBytes {
    bytes: Vec<u8>,
    room: usize,
    most: usize,
    ghost within: { vec_len bytes ≤ room },
    ghost reserved: { room ≤ vec_capacity bytes },
    ghost takes_some: { 0 < most },
}

impl BoundedBytes {
    pub(crate) fn new(alloc: Global, room: usize, most: usize) -> Result<BoundedBytes, Memory>
        requires { 0 < most }
        ensures bytes { IfOk result (λ b. b.bytes.items ≡ []) }
        ensures room { IfOk result (λ b. b.room ≡ room) }
        ensures most { IfOk result (λ b. b.most ≡ most) }
    {
        Ok(BoundedBytes {
            bytes: Vec::with_capacity(alloc, room)?,
            room,
            most,
        })
    }

    pub(crate) fn as_slice(&self) -> &[u8]
        ensures { result.now ≡ self.now.bytes.items }
    {
        self.bytes.as_slice()
    }

    /// How many more bytes find room.
    pub(crate) fn room_left(&self) -> usize
        ensures { result ≡ self.now.room - vec_len self.now.bytes }
    {
        self.room - self.bytes.len()
    }

    /// Takes the first bytes of a piece, at most `most`, and says how many. Takes no memory.
    pub(crate) fn append(&mut self, piece: &[u8]) -> usize
        ensures count { result ≡ min (length piece.now)
            (min self.old.most (self.old.room - vec_len self.old.bytes)) }
        ensures bytes { self.new.bytes.items ≡ self.old.bytes.items ++ take result piece.now }
        ensures room { self.new.room ≡ self.old.room }
        ensures most { self.new.most ≡ self.old.most }
    {
        let count = piece.len().min(self.most.min(self.room_left()));
        match self.bytes.extend_from_slice(&piece[..count]) {
            Ok(()) => count,
            Err(_) => 0,
        }
    }
}
