use sql_values::{Fail, Memory};
use std::alloc::{AllocError, AllocFailed};
use thiserror::Error;

/// Why a tree was not evaluated.
#[derive(Clone, Copy, Debug, PartialEq, Eq, Error)]
pub enum EvalStop {
    /// An expression or an aggregate of the plan's node has no value.
    #[error("node {node} failed: {kind}")]
    ExprFailed { node: u32, kind: Fail },
    #[error("out of memory")]
    Memory,
}

impl From<Memory> for EvalStop {
    ghost use Rattle.tree_evaluator.specs.declared.stop.EvalStop.TheVariants as stop;
    ghost use Rattle.std.specs.Prelude.{◌≡◌};

    ghost from_gives = { λ _ e. e ≡ stop.Memory };

    fn from(_: Memory) -> EvalStop {
        EvalStop::Memory
    }
}

impl From<AllocError> for EvalStop {
    ghost use Rattle.tree_evaluator.specs.declared.stop.EvalStop.TheVariants as stop;
    ghost use Rattle.std.specs.Prelude.{◌≡◌};

    ghost from_gives = { λ _ e. e ≡ stop.Memory };

    fn from(_: AllocError) -> EvalStop {
        EvalStop::Memory
    }
}

impl<T: Drop> From<AllocFailed<T>> for EvalStop {
    ghost use Rattle.tree_evaluator.specs.declared.stop.EvalStop.TheVariants as stop;
    ghost use Rattle.std.specs.Prelude.{◌≡◌};

    ghost from_gives = { λ _ e. e ≡ stop.Memory };

    fn from(_: AllocFailed<T>) -> EvalStop {
        EvalStop::Memory
    }
}
