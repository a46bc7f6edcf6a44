ghost use Rattle.std.specs.Prelude.{◌≡◌, ℕ, ◌≤◌, List, Option, IfOk};
ghost use Rattle.count_laws.specs.Counts.{Rose};
ghost use Rattle.run_ports.specs.Reading.{AreBytesOf, IfFailed, refused_after, faults_after};

use sql_values::{Memory, Text};
use std::alloc::{AllocError, AllocFailed, Global};
use std::error::Error;
use std::fmt;

/// Why a read gave nothing.
#[derive(Clone, Copy, Debug)]
pub enum FileFault {
    Failed,
    Memory,
}

impl fmt::Display for FileFault {
    fn fmt<W: fmt::Write>(&self, f: &mut fmt::Formatter<W>) -> fmt::Result {
        match self {
            FileFault::Failed => f.write_str("cannot read the file"),
            FileFault::Memory => f.write_str("out of memory"),
        }
    }
}

impl Error for FileFault {}

impl From<Memory> for FileFault {
    ghost use Rattle.run_ports.specs.declared.files.FileFault.TheVariants as fault;

    ghost from_gives = { λ _ e. e ≡ fault.Memory };

    fn from(_: Memory) -> FileFault {
        FileFault::Memory
    }
}

impl From<AllocError> for FileFault {
    ghost use Rattle.run_ports.specs.declared.files.FileFault.TheVariants as fault;

    ghost from_gives = { λ _ e. e ≡ fault.Memory };

    fn from(_: AllocError) -> FileFault {
        FileFault::Memory
    }
}

impl<T: Drop> From<AllocFailed<T>> for FileFault {
    ghost use Rattle.run_ports.specs.declared.files.FileFault.TheVariants as fault;

    ghost from_gives = { λ _ e. e ≡ fault.Memory };

    fn from(_: AllocFailed<T>) -> FileFault {
        FileFault::Memory
    }
}

/// Files that are read by their names.
pub trait Files {
    // What each name stands for, where that is known: no call changes it.
    ghost holds: { Self → Option (List ℕ → Option (List ℕ)) };

    // How many reads were answered Failed, and the name of the latest.
    ghost faults: { Self → ℕ };

    ghost refused: { Self → Option (List ℕ) };

    /// A name that is not held is a fault. An implementation copies the name before it reads, and a
    /// copy that is refused is `Memory`.
    fn read(&mut self, alloc: Global, name: &str) -> Result<Vec<u8>, FileFault>
        ensures same { holds self.new ≡ holds self.old }
        ensures bytes { IfOk result (λ bytes. AreBytesOf (holds self.old) name.now bytes.items) }
        ensures later { faults self.old ≤ faults self.new }
        ensures cause { IfFailed result (Rose (faults self.old) (faults self.new)) }
        ensures latest { refused self.new ≡ refused_after (refused self.old) result name.now };
}

/// How many reads failed, and the name of the latest.
#[derive(Drop)]
pub(crate) struct Refusals {
    pub(crate) count: u64,
    pub(crate) latest: Option<Text>,
}

impl Refusals {
    pub(crate) fn new() -> Refusals
        ensures count { result.count ≡ 0 }
        ensures latest { result.latest ≡ None }
    {
        Refusals {
            count: 0,
            latest: None,
        }
    }

    /// Notes the answer of a read of a name.
    pub(crate) fn note(&mut self, answer: &Result<Vec<u8>, FileFault>, name: Text)
        ensures count { self.new.count ≡ faults_after self.old.count answer.now }
        ensures later { self.old.count ≤ self.new.count }
        ensures latest { self.new.latest ≡ refused_after self.old.latest answer.now name }
    {
        if let Err(FileFault::Failed) = answer {
            self.count = self.count.saturating_add(1);
            self.latest = Some(name);
        }
    }
}
