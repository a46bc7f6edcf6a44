use sql_values::{Fail, Memory};
use std::alloc::{AllocError, AllocFailed};
use thiserror::Error;

/// Why a call of an operator gave up. After either the operator is not used again.
#[derive(Clone, Copy, Debug, PartialEq, Eq, Error)]
pub enum OpFault {
    /// An expression or an aggregate of the plan's node has no value.
    #[error("node {node} failed: {kind}")]
    Expr { node: u32, kind: Fail },
    #[error("out of memory")]
    Memory,
}

impl From<Memory> for OpFault {
    ghost use Rattle.operator_core.specs.declared.fault.OpFault.TheVariants as fault;
    ghost use Rattle.std.specs.Prelude.{◌≡◌};

    ghost from_gives = { λ _ e. e ≡ fault.Memory };

    fn from(_: Memory) -> OpFault {
        OpFault::Memory
    }
}

impl From<AllocError> for OpFault {
    ghost use Rattle.operator_core.specs.declared.fault.OpFault.TheVariants as fault;
    ghost use Rattle.std.specs.Prelude.{◌≡◌};

    ghost from_gives = { λ _ e. e ≡ fault.Memory };

    fn from(_: AllocError) -> OpFault {
        OpFault::Memory
    }
}

impl<T: Drop> From<AllocFailed<T>> for OpFault {
    ghost use Rattle.operator_core.specs.declared.fault.OpFault.TheVariants as fault;
    ghost use Rattle.std.specs.Prelude.{◌≡◌};

    ghost from_gives = { λ _ e. e ≡ fault.Memory };

    fn from(_: AllocFailed<T>) -> OpFault {
        OpFault::Memory
    }
}
