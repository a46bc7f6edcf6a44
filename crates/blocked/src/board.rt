ghost use Rattle.std.specs.Prelude.{◌≡◌, ◌<◌, OnOk, OnErr, IfOk, IfErr};
ghost use Rattle.blocked.specs.Refusals.{handed_back};

use crate::bell::{Bell, NotParked};
use crate::blocked_on::BlockedOn;
use crate::due::Due;
use crate::waiters::Waiters;
use sql_values::Memory;
use std::alloc::Global;
use std::marker::Model;
use std::sync::{Mutex, Wait};

/// The bells of a run that several threads ring: each behind a lock of its own.
#[derive(Drop)]
pub struct Board<W> {
    bells: Vec<Mutex<Bell<W>>>,
}

impl<W> Model for Board<W> {
    ghost use Rattle.std.specs.Prelude.{ℕ, length};

    // How many bells there are. What a bell is like is known only while its lock is held.
    ghost Value = { ℕ };

    ghost view = { λ b. length b.bells.items };
}

impl<W: Drop> Board<W> {
    /// Bells 0 to `bells - 1`, each as `Bell::new` makes it.
    pub fn new(alloc: Global, bells: u32) -> Result<Board<W>, Memory>
        ensures { IfOk result (λ board. board ≡ bells) }
    {
        let mut list = Vec::with_capacity(alloc, bells as usize)?;
        for _ in 0..bells {
            list.push(Mutex::new(Bell::new(alloc)))?;
        }
        Ok(Board { bells: list })
    }

    /// How many bells there are.
    pub fn len(&self) -> usize
        ensures { result ≡ self.now }
    {
        self.bells.len()
    }

    /// How often the bell of this number rang.
    pub fn seen<R: Wait>(&self, rt: &R, bell: u32) -> u64
        requires { bell < self.now }
    {
        self.bells[bell as usize].lock(rt).seen()
    }

    /// Keeps the waiter at the bell and the count that `on` names.
    pub fn park<R: Wait>(&self, rt: &R, on: &BlockedOn, waiter: W) -> Result<(), NotParked<W>>
        requires { on.now.bell < self.now }
        ensures { IfErr result (λ refusal. handed_back refusal ≡ waiter) }
    {
        self.bells[on.bell as usize].lock(rt).park(on.seen, waiter)
    }

    /// Rings the bell of the due, and hands out all who waited at it.
    pub fn ring<R: Wait>(&self, rt: &R, due: Due) -> Waiters<W>
        requires { due.number < self.now }
    {
        let bell = due.bell() as usize;
        self.bells[bell].lock(rt).ring(due)
    }

    /// Closes the bell of this number, and hands out all who waited at it.
    pub fn close<R: Wait>(&self, rt: &R, bell: u32) -> Waiters<W>
        requires { bell < self.now }
    {
        self.bells[bell as usize].lock(rt).close()
    }
}
