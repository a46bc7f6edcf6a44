ghost use Rattle.std.specs.Prelude.{◌≡◌};
ghost use Rattle.driver_loop.specs.Faults.{run_fault};

use operator_core::OpFault;
use sql_values::Fail;
use thiserror::Error;

/// Why a run gave up.
#[derive(Clone, Copy, Debug, PartialEq, Eq, Error)]
pub enum RunFault {
    /// An expression or an aggregate of the plan's node has no value.
    #[error("node {node} failed: {kind}")]
    ExprFailed { node: u32, kind: Fail },
    #[error("out of memory")]
    Memory,
}

impl RunFault {
    pub(crate) fn of(fault: OpFault) -> RunFault
        ensures { result ≡ run_fault fault }
    {
        match fault {
            OpFault::Expr { node, kind } => RunFault::ExprFailed { node, kind },
            OpFault::Memory => RunFault::Memory,
        }
    }
}
