use sql_values::{Memory, Text};
use std::alloc::{AllocError, AllocFailed};
use std::error::Error;
use std::fmt;

/// Why no plan was read.
#[derive(Debug, Drop)]
pub enum PlanFault {
    /// The document was refused. The code says by which check, and the path, a JSON Pointer, at
    /// which place: code 1 is no JSON.
    Refused { code: u8, path: Text },
    /// Memory was wanting.
    Memory,
}

impl fmt::Display for PlanFault {
    fn fmt<W: fmt::Write>(&self, f: &mut fmt::Formatter<W>) -> fmt::Result {
        match self {
            PlanFault::Refused { code, path } => {
                write!(
                    f,
                    "plan refused with code {} at \"{}\"",
                    code,
                    path.as_str()
                )
            }
            PlanFault::Memory => f.write_str("out of memory"),
        }
    }
}

impl Error for PlanFault {}

impl From<Memory> for PlanFault {
    ghost use Rattle.std.specs.Prelude.{◌≡◌};
    ghost use Rattle.plan_checks.specs.declared.fault.PlanFault.TheVariants as fault;

    ghost from_gives = { λ _ e. e ≡ fault.Memory };

    fn from(_: Memory) -> PlanFault {
        PlanFault::Memory
    }
}

impl From<AllocError> for PlanFault {
    ghost use Rattle.std.specs.Prelude.{◌≡◌};
    ghost use Rattle.plan_checks.specs.declared.fault.PlanFault.TheVariants as fault;

    ghost from_gives = { λ _ e. e ≡ fault.Memory };

    fn from(_: AllocError) -> PlanFault {
        PlanFault::Memory
    }
}

impl<T: Drop> From<AllocFailed<T>> for PlanFault {
    ghost use Rattle.std.specs.Prelude.{◌≡◌};
    ghost use Rattle.plan_checks.specs.declared.fault.PlanFault.TheVariants as fault;

    ghost from_gives = { λ _ e. e ≡ fault.Memory };

    fn from(_: AllocFailed<T>) -> PlanFault {
        PlanFault::Memory
    }
}
