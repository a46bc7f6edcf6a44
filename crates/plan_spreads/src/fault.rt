use sql_values::{Memory, Text};
use thiserror::Error;

/// Why a plan has no spreads.
#[derive(Debug, Drop, Error)]
pub enum SpreadFault {
    /// The first place at which the placement is broken, as a JSON Pointer.
    #[error("a fragment cannot be placed so")]
    Refused(Text),
    #[error("out of memory")]
    Memory,
}

impl From<Memory> for SpreadFault {
    ghost use Rattle.std.specs.Prelude.{◌≡◌};
    ghost use Rattle.plan_spreads.specs.declared.fault.SpreadFault.TheVariants as fault;

    ghost from_gives = { λ _ e. e ≡ fault.Memory };

    fn from(_: Memory) -> SpreadFault {
        SpreadFault::Memory
    }
}
