//! The outside of a run: the files that it reads, the sinks that it writes to, the courier between
//! its parts and the meeting of its drivers.
//!
//! A fault of the outside is counted where it happens, and an answer that names a fault comes only
//! where its count rose in that call: so no caller can blame the outside for a fault that it did
//! not have. Where an object says what it holds, its clauses pin the bytes. `count_laws`
//! says what it means that a count rose, `specs/Reading.antt`, `specs/Writing.antt` and
//! `specs/Delivering.antt` what the calls leave behind, and `specs/Replays.antt` what a `ReplayCourier` delivers.
//!
//! - `files`, `sink`, `courier`, `meet`: the traits, and the couriers and meetings of this crate
//! - `hold_until`: a meeting for tests, which keeps one driver back until another has come
//! - `mem_files`, `mem_sink`: files and sinks in memory, which fail where they are told to
//! - `disk_files`, `std_sink`: thin adapters over the files and writers of std, which say nothing
//! - `bounded_bytes`: bytes up to a length; `failing_calls`: which calls fail
#![tactic(auto)]

mod bounded_bytes;
mod courier;
mod disk_files;
mod failing_calls;
mod files;
mod hold_until;
mod meet;
mod mem_files;
mod mem_sink;
mod sink;
mod std_sink;

pub use courier::{Courier, Delivery, ReplayCourier};
pub use disk_files::DiskFiles;
pub use files::{FileFault, Files};
pub use hold_until::HoldUntil;
pub use meet::{Meet, NoMeet};
pub use mem_files::{MemFiles, NamedBytes};
pub use mem_sink::MemSink;
pub use sink::{Sink, SinkFailed, write_whole};
pub use std_sink::StdSink;
