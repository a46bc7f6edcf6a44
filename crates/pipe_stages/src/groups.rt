//! Stages that group rows.
ghost use Rattle.std.specs.Prelude.{◌≡◌, ◌<◌, ◌≤◌, ◌+◌, ◌++◌, ℕ, map, length, IfOk, IsTrue};
ghost use Rattle.accumulators.specs.Limits.{are_allowed};
ghost use Rattle.sql_functions.specs.CallTypes.{type_at};
ghost use Rattle.plan_trees.specs.TreeTypes.{call_kind};
ghost use Rattle.plan_run_laws.specs.Stages.{final, grouping, partial};
ghost use Rattle.plan_trees.specs.Layouts.{partial_types};
ghost use Rattle.stage_meanings.specs.Pipelines.{at_node};
ghost use Rattle.driver_net_laws.specs.Stages.{IsStageOf};

use driver_loop::Stage;
use operator_core::Operator;
use plan_trees::append_key_types;
use sql_values::{Call, Memory, SqlType, Types};
use stage_meanings::{final_of, partial_of, single_of};
use std::alloc::Global;

/// An aggregate of rows of these types.
pub(crate) fn single_stage<'w>(
    alloc: Global,
    id: u32,
    keys: &[u32],
    calls: &[Call],
    between: &[SqlType],
    page: u32,
) -> Result<Stage<'w>, Memory>
    requires some { 0 < length keys.now + length calls.now }
    requires allowed { IsTrue (are_allowed between.now calls.now) }
    requires page { (0 < page) × (page ≤ 8192) }
    ensures is { IfOk result (IsStageOf (at_node id (grouping between.now keys.now calls.now)) between.now
        (map (type_at between.now) keys.now ++ map (call_kind between.now) calls.now)) }
    ensures fresh { IfOk result (λ stage. ⟦<Stage<'w> as Operator>⟧.as_made stage ≡ stage) }
{
    let types = Vec::from_slice(alloc, between)?;
    let keys = Vec::from_slice(alloc, keys)?;
    let calls = Vec::from_slice(alloc, calls)?;
    Ok(Stage::Single(single_of(alloc, id, keys, calls, types, page)?))
}

/// The first half of an aggregate of rows of these types.
pub(crate) fn partial_stage<'w>(
    alloc: Global,
    keys: &[u32],
    calls: &[Call],
    between: &[SqlType],
    page: u32,
) -> Result<Stage<'w>, Memory>
    requires allowed { IsTrue (are_allowed between.now calls.now) }
    requires page { (0 < page) × (page ≤ 8192) }
    ensures is { IfOk result (λ stage. (id : ℕ) → IsStageOf (at_node id (partial keys.now calls.now))
        between.now (partial_types between.now keys.now calls.now) stage) }
    ensures fresh { IfOk result (λ stage. ⟦<Stage<'w> as Operator>⟧.as_made stage ≡ stage) }
{
    let types = Vec::from_slice(alloc, between)?;
    let keys = Vec::from_slice(alloc, keys)?;
    let calls = Vec::from_slice(alloc, calls)?;
    Ok(Stage::Partial(partial_of(alloc, keys, calls, types, page)?))
}

/// The second half of an aggregate of rows of these types.
pub(crate) fn final_stage<'w>(
    alloc: Global,
    id: u32,
    keys: &[u32],
    calls: &[Call],
    halved: &[SqlType],
    page: u32,
) -> Result<Stage<'w>, Memory>
    requires some { 0 < length keys.now + length calls.now }
    requires allowed { IsTrue (are_allowed halved.now calls.now) }
    requires page { (0 < page) × (page ≤ 8192) }
    ensures is { IfOk result (IsStageOf (at_node id (final halved.now (length keys.now) calls.now))
        (partial_types halved.now keys.now calls.now)
        (map (type_at halved.now) keys.now ++ map (call_kind halved.now) calls.now)) }
    ensures fresh { IfOk result (λ stage. ⟦<Stage<'w> as Operator>⟧.as_made stage ≡ stage) }
{
    let types = Vec::from_slice(alloc, halved)?;
    let kinds = key_types(alloc, keys, halved)?;
    let calls = Vec::from_slice(alloc, calls)?;
    Ok(Stage::Final(final_of(alloc, id, kinds, calls, types, page)?))
}

/// The types of keys of rows of these types.
fn key_types(alloc: Global, keys: &[u32], types: &[SqlType]) -> Result<Vec<SqlType>, Memory>
    ensures { IfOk result (λ kinds. kinds.items ≡ map (type_at types.now) keys.now) }
{
    let mut kinds = Types::new(alloc);
    append_key_types(&mut kinds, types, keys)?;
    Ok(kinds.into_vec())
}
