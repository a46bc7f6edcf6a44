//! The operators of aggregates.
ghost use Rattle.std.specs.Prelude.{◌≡◌, ◌<◌, ◌≤◌, ◌↔◌, ◌+◌, ◌++◌, ℕ, [], ◌∷◌, length, map, IfOk, IsTrue};
ghost use Rattle.sql_functions.specs.CallTypes.{type_at};
ghost use Rattle.col_pages.specs.Pages.{TypedPage, most_rows};
ghost use Rattle.operator_core.specs.Calls.{IsFresh};
ghost use Rattle.col_pages.specs.Fits.{IsOfTypes};
ghost use Rattle.plan_trees.specs.TreeTypes.{call_kind};
ghost use Rattle.plan_run_laws.specs.Stages.{final, grouping, partial};
ghost use Rattle.accumulators.specs.Limits.{are_allowed};
ghost use Rattle.plan_trees.specs.Layouts.{layout_types};
ghost use Rattle.stage_meanings.specs.Meanings.{Means};
ghost use Rattle.stage_meanings.specs.Pipelines.{at_node};

use aggregation::{FinalAgg, PartialAgg, SingleAgg, final_op, partial_op, single_op};
use operator_core::Operator;
use sql_values::{Call, Memory, SqlType};
use std::alloc::Global;

/// The operator of an aggregate of whole groups, over input of these types.
pub fn single_of(
    alloc: Global,
    node: u32,
    keys: Vec<u32>,
    calls: Vec<Call>,
    types: Vec<SqlType>,
    page: u32,
) -> Result<SingleAgg, Memory>
    requires allowed { IsTrue (are_allowed types.items calls.items) }
    requires some { 0 < length keys.items + length calls.items }
    requires page { (0 < page) × (page ≤ most_rows) }
    ensures fresh { IfOk result (λ op. IsFresh ⟦<SingleAgg as Operator>⟧ op) }
    ensures takes { IfOk result (λ op. (page : TypedPage)
        → ⟦<SingleAgg as Operator>⟧.takes op page ↔ IsOfTypes types.items page) }
    ensures means { IfOk result (λ op. Means ⟦<SingleAgg as Operator>⟧ op types.items
        (at_node node (grouping types.items keys.items calls.items) ∷ [])
        (map (type_at types.items) keys.items ++ map (call_kind types.items) calls.items)) }
{
    single_op(alloc, node, keys, calls, types, page)
}

/// The operator of the first half of an aggregate, over input of these types.
pub fn partial_of(
    alloc: Global,
    keys: Vec<u32>,
    calls: Vec<Call>,
    types: Vec<SqlType>,
    page: u32,
) -> Result<PartialAgg, Memory>
    requires allowed { IsTrue (are_allowed types.items calls.items) }
    requires page { (0 < page) × (page ≤ most_rows) }
    ensures fresh { IfOk result (λ op. IsFresh ⟦<PartialAgg as Operator>⟧ op) }
    ensures takes { IfOk result (λ op. (page : TypedPage)
        → ⟦<PartialAgg as Operator>⟧.takes op page ↔ IsOfTypes types.items page) }
    ensures means { IfOk result (λ op. (node : ℕ) → Means ⟦<PartialAgg as Operator>⟧ op types.items
        (at_node node (partial keys.items calls.items) ∷ [])
        (layout_types (map (type_at types.items) keys.items) types.items calls.items)) }
{
    partial_op(alloc, keys, calls, types, page)
}

/// The operator of the second half of an aggregate, by keys of the types `kinds`, of calls that were made over
/// rows of the types `types`.
pub fn final_of(
    alloc: Global,
    node: u32,
    kinds: Vec<SqlType>,
    calls: Vec<Call>,
    types: Vec<SqlType>,
    page: u32,
) -> Result<FinalAgg, Memory>
    requires allowed { IsTrue (are_allowed types.items calls.items) }
    requires some { 0 < length kinds.items + length calls.items }
    requires page { (0 < page) × (page ≤ most_rows) }
    ensures fresh { IfOk result (λ op. IsFresh ⟦<FinalAgg as Operator>⟧ op) }
    ensures takes { IfOk result (λ op. (page : TypedPage)
        → ⟦<FinalAgg as Operator>⟧.takes op page
        ↔ IsOfTypes (layout_types kinds.items types.items calls.items) page) }
    ensures means { IfOk result (λ op. Means ⟦<FinalAgg as Operator>⟧ op
        (layout_types kinds.items types.items calls.items)
        (at_node node (final types.items (length kinds.items) calls.items) ∷ [])
        (kinds.items ++ map (call_kind types.items) calls.items)) }
{
    final_op(alloc, node, kinds, calls, types, page)
}
