//! Bells: how what waits is found again by what it waits for.
//!
//! A bell stands for one thing that can move, as the pieces of an edge or the value of a cell. It
//! counts its rings. Who wants to wait reads the count, looks, finds nothing, and parks with the
//! count that it read: where the bell rang meanwhile, or was closed, `park` hands the waiter back.
//! So a ring between the look and the park is never slept through. A ring hands out all waiters.
//!
//! - `due`: `Due`, the duty to ring one bell. It has no `Drop`: who holds one has to ring
//! - `bell`: `Bell`. At rest each of its waiters parked at the very count that the bell has, and a
//!   closed bell has no waiter (`specs/Bells.antt`)
//! - `waiters`: `Waiters`, what a ring hands out, in the order in which they parked
//! - `board`: `Board`, the bells of a run that several threads ring, each behind a lock of its own. What a
//!   locked bell keeps is all that is known of it
//! - `bells`: the trait `Bells`, what a turn of a driver sees of the bells of its run
//! - `seen`: `Seen`, the count of a bell as it was read (`ReadBell`). A look that takes one comes after
//!   a read
//! - `blocked_on`: `BlockedOn`, the future of one who waits. A poll that is pending has registered
//!   at the future's own source
#![tactic(auto)]

mod bell;
mod bells;
mod blocked_on;
mod board;
mod due;
mod seen;
mod waiters;

pub use bell::{Bell, NotParked};
pub use bells::Bells;
pub use blocked_on::BlockedOn;
pub use board::Board;
pub use due::Due;
pub use seen::{ReadBell, Seen};
pub use waiters::Waiters;
