ghost use Rattle.std.specs.Prelude.{◌≡◌, None, MatchResult};
ghost use Rattle.plan_checks.specs.Documents.{RefusedAs};
ghost use Rattle.plan_docs.specs.Plans.{plan_view};
ghost use Rattle.plan_spreads.specs.Plans.{plan_spreads};
ghost use Rattle.plan_types.specs.Plans.{plan_types};
ghost use Rattle.plan_reader.specs.Filters.{first_misdirected};
ghost use Rattle.plan_reader.specs.Judgement.{misdirected, misplaced, plan_refusal, refused_at, untyped};

use crate::filters::pass_filters;
use json_paths::{Step, pointer_of};
use plan_checks::PlanFault;
use plan_docs::Plan;
use plan_spreads::{SpreadFault, spread_plan};
use plan_types::type_plan;
use sql_exprs::Misfit;
use sql_values::Memory;
use std::alloc::Global;

/// Whether every check of a plan passes.
pub fn judge(alloc: Global, plan: &Plan) -> Result<(), PlanFault>
    ensures { MatchResult result (λ _. plan_refusal (plan_view plan.now) ≡ None)
        (RefusedAs (plan_refusal (plan_view plan.now))) }
{
    pass_types(alloc, plan)?;
    pass_placement(alloc, plan)?;
    pass_paths(alloc, plan)
}

fn pass_types(alloc: Global, plan: &Plan) -> Result<(), PlanFault>
    ensures { MatchResult result (λ _. untyped (plan_types (plan_view plan.now)) ≡ None)
        (RefusedAs (untyped (plan_types (plan_view plan.now)))) }
{
    match type_plan(alloc, plan) {
        Ok(_types) => Ok(()),
        Err(Misfit::At(path)) => Err(refused_at(alloc, 5, path.as_slice())),
        Err(Misfit::Memory) => Err(PlanFault::Memory),
    }
}

fn refused_at(alloc: Global, code: u8, path: &[Step]) -> PlanFault
    ensures { RefusedAs (refused_at code path.now) result }
{
    match pointer_of(alloc, path) {
        Ok(path) => PlanFault::Refused { code, path },
        Err(Memory) => PlanFault::Memory,
    }
}

fn pass_placement(alloc: Global, plan: &Plan) -> Result<(), PlanFault>
    ensures { MatchResult result (λ _. misplaced (plan_spreads (plan_view plan.now)) ≡ None)
        (RefusedAs (misplaced (plan_spreads (plan_view plan.now)))) }
{
    match spread_plan(alloc, plan) {
        Ok(_spreads) => Ok(()),
        Err(SpreadFault::Refused(path)) => Err(PlanFault::Refused { code: 8, path }),
        Err(SpreadFault::Memory) => Err(PlanFault::Memory),
    }
}

fn pass_paths(alloc: Global, plan: &Plan) -> Result<(), PlanFault>
    ensures { MatchResult result (λ _. misdirected (first_misdirected (plan_view plan.now)) ≡ None)
        (RefusedAs (misdirected (first_misdirected (plan_view plan.now)))) }
{
    match pass_filters(alloc, plan) {
        Ok(()) => Ok(()),
        Err(Misfit::At(path)) => Err(refused_at(alloc, 9, path.as_slice())),
        Err(Misfit::Memory) => Err(PlanFault::Memory),
    }
}
