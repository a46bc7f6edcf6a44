ghost use Rattle.std.specs.Prelude.{◌≡◌, MatchResult};
ghost use Rattle.plan_docs.specs.Plans.{plan_view};
ghost use Rattle.plan_reader.specs.Judgement.{IsPlan, RefusedFor};

use crate::judge::judge;
use plan_checks::{PlanFault, read_document};
use plan_docs::{Plan, read_plan_doc};
use std::alloc::Global;

/// The plan that the bytes write, where no check of the document fails. Else the first check that
/// fails is reported by its code and its place.
#[tactic(auto, using(crate::proofs::JudgeLemmas::judged))]
pub fn read_plan(alloc: Global, bytes: &[u8]) -> Result<Plan, PlanFault>
    ensures { MatchResult result (λ plan. IsPlan bytes.now (plan_view plan))
        (RefusedFor bytes.now) }
{
    let document = match read_document(alloc, bytes) {
        Ok(document) => document,
        Err(fault) => return Err(fault),
    };
    let plan = read_plan_doc(alloc, &document)?;
    match judge(alloc, &plan) {
        Ok(()) => Ok(plan),
        Err(fault) => Err(fault),
    }
}
