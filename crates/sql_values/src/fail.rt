use crate::memory::Memory;
use std::alloc::{AllocError, AllocFailed};
use thiserror::Error;

/// Why an expression or an aggregate has no value.
#[derive(Clone, Copy, Debug, PartialEq, Eq, Error)]
pub enum Fail {
    #[error("a number is out of its type's range")]
    OutOfRange,
    #[error("division by zero")]
    DivisionByZero,
    #[error("a text is no value of the type that it is cast to")]
    BadCast,
    #[error("a text is too long")]
    TextTooLong,
}

/// Why no value was found.
#[derive(Clone, Copy, Debug, PartialEq, Eq, Error)]
pub enum EvalFault {
    #[error(transparent)]
    Fail(Fail),
    #[error("out of memory")]
    Memory,
}

impl From<Fail> for EvalFault {
    ghost use Rattle.sql_values.specs.declared.fail.EvalFault.TheVariants as fault;
    ghost use Rattle.std.specs.Prelude.{◌≡◌};

    ghost from_gives = { λ fail e. e ≡ fault.Fail fail };

    fn from(fail: Fail) -> EvalFault {
        EvalFault::Fail(fail)
    }
}

impl From<Memory> for EvalFault {
    ghost use Rattle.sql_values.specs.declared.fail.EvalFault.TheVariants as fault;
    ghost use Rattle.std.specs.Prelude.{◌≡◌};

    ghost from_gives = { λ _ e. e ≡ fault.Memory };

    fn from(_: Memory) -> EvalFault {
        EvalFault::Memory
    }
}

impl From<AllocError> for EvalFault {
    ghost use Rattle.sql_values.specs.declared.fail.EvalFault.TheVariants as fault;
    ghost use Rattle.std.specs.Prelude.{◌≡◌};

    ghost from_gives = { λ _ e. e ≡ fault.Memory };

    fn from(_: AllocError) -> EvalFault {
        EvalFault::Memory
    }
}

impl<T: Drop> From<AllocFailed<T>> for EvalFault {
    ghost use Rattle.sql_values.specs.declared.fail.EvalFault.TheVariants as fault;
    ghost use Rattle.std.specs.Prelude.{◌≡◌};

    ghost from_gives = { λ _ e. e ≡ fault.Memory };

    fn from(_: AllocFailed<T>) -> EvalFault {
        EvalFault::Memory
    }
}
