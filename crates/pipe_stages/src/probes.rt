//! Stages that look into cells.
ghost use Rattle.std.specs.Prelude.{◌≡◌, ◌<◌, ◌≤◌, map, IfOk};
ghost use Rattle.plan_trees.specs.TreeForms.{pair_view};
ghost use Rattle.driver_net_laws.specs.Cells.{IsNamed, Names};
ghost use Rattle.driver_net_laws.specs.Stages.{ProbesFor};

use driver_loop::Stage;
use hash_join::{LookupCell, ProbeOp};
use operator_core::Operator;
use plan_docs::Pair;
use sql_values::{JoinKind, Memory, SqlType, Types};
use std::alloc::Global;

/// The probe of a join of rows of these types on its left side.
pub(crate) fn probe_stage<'w>(
    alloc: Global,
    kind: JoinKind,
    on: &[Pair],
    cell: &'w LookupCell,
    between: &[SqlType],
    page: u32,
) -> Result<Stage<'w>, Memory>
    requires page { (0 < page) × (page ≤ 8192) }
    ensures is { IfOk result (λ stage. (names : Names) → IsNamed names cell.now
        → ProbesFor names cell.now.bell kind (map pair_view on.now) stage) }
    ensures fresh { IfOk result (λ stage. ⟦<Stage<'w> as Operator>⟧.as_made stage ≡ stage) }
{
    let types = Types::of(Vec::from_slice(alloc, between)?);
    let probe = ProbeOp::new(alloc, kind, left_columns(alloc, on)?, cell, page);
    Ok(Stage::Probe(probe, types))
}

/// The left columns of pairs.
fn left_columns(alloc: Global, on: &[Pair]) -> Result<Vec<u32>, Memory>
    ensures { IfOk result (λ v. v.items ≡ map (λ (pair : Pair). pair.left) on.now) }
{
    let mut columns = Vec::with_capacity(alloc, on.len())?;
    for pair in on {
        columns.push(pair.left)?;
    }
    Ok(columns)
}
