ghost use Rattle.std.specs.Prelude.{◌≡◌};
ghost use Rattle.query_runner.specs.Statuses.{exit_code};

use run_ports::SinkFailed;
use sql_values::{Fail, Memory, Text};
use std::alloc::{AllocError, AllocFailed};

/// The answer of a run.
#[derive(Drop)]
pub enum Status {
    /// The result was written.
    Ok,
    /// Memory was wanting.
    Memory,
    /// The arguments do not have the form of a command line.
    BadWords,
    /// A file could not be read: 0 is the plan's, and the others are counted from 1 in the order of
    /// the arguments.
    ReadFault {
        file: u32,
    },
    /// The plan failed a check, at a place of the document.
    PlanRefused {
        code: u8,
        path: Text,
    },
    /// A table failed a check. Its place is that in the plan, and row 0 is its header.
    TableRefused {
        table: u32,
        row: u32,
        column: u32,
        why: u8,
    },
    /// An expression failed on a row, or an aggregate on a group.
    ExprFailed {
        node: u32,
        kind: Fail,
    },
    /// The result could not be written whole.
    WriteFault,
}

impl Status {
    /// The exit status of the program.
    pub fn exit_code(&self) -> u8
        ensures { result ≡ exit_code self.now }
    {
        match self {
            Status::Ok => 0,
            Status::Memory => 1,
            Status::BadWords => 2,
            Status::ReadFault { .. } => 3,
            Status::PlanRefused { .. } => 4,
            Status::TableRefused { .. } => 5,
            Status::ExprFailed { .. } => 6,
            Status::WriteFault => 7,
        }
    }
}

impl From<Memory> for Status {
    ghost use Rattle.std.specs.Prelude.{◌≡◌};
    ghost use Rattle.query_runner.specs.declared.status.Status.TheVariants as status;

    ghost from_gives = { λ _ s. s ≡ status.Memory };

    fn from(_: Memory) -> Status {
        Status::Memory
    }
}

impl From<AllocError> for Status {
    ghost use Rattle.std.specs.Prelude.{◌≡◌};
    ghost use Rattle.query_runner.specs.declared.status.Status.TheVariants as status;

    ghost from_gives = { λ _ s. s ≡ status.Memory };

    fn from(_: AllocError) -> Status {
        Status::Memory
    }
}

impl<T: Drop> From<AllocFailed<T>> for Status {
    ghost use Rattle.std.specs.Prelude.{◌≡◌};
    ghost use Rattle.query_runner.specs.declared.status.Status.TheVariants as status;

    ghost from_gives = { λ _ s. s ≡ status.Memory };

    fn from(_: AllocFailed<T>) -> Status {
        Status::Memory
    }
}

impl From<SinkFailed> for Status {
    ghost use Rattle.std.specs.Prelude.{◌≡◌};
    ghost use Rattle.query_runner.specs.declared.status.Status.TheVariants as status;

    ghost from_gives = { λ _ s. s ≡ status.WriteFault };

    fn from(_: SinkFailed) -> Status {
        Status::WriteFault
    }
}
