ghost use Rattle.std.specs.Prelude.{◌≡◌, ◌≤◌, [], IfOk, MatchResult};
ghost use Rattle.serde_json.specs.Data.{Data, depth};
ghost use Rattle.serde_json.specs.View.{view};
ghost use Rattle.plan_checks.specs.Documents.{IsDocument, IsJson, NotJsonFor, RefusedFor};

use crate::fault::PlanFault;
use crate::refusal::judge;
use serde_json::Value;
use sql_values::Text;
use std::alloc::Global;

/// The document that the bytes are, where no check fails at any of its places.
#[tactic(auto, using(crate::proofs::RefusalLemmas::not_json))]
pub fn read_document(alloc: Global, bytes: &[u8]) -> Result<Value, PlanFault>
    ensures result { MatchResult result (λ document. IsDocument bytes.now (view document))
        (RefusedFor bytes.now) }
    ensures nests { IfOk result (λ document. depth (view document) ≤ 127) }
{
    let document = match parse(alloc, bytes) {
        Ok(document) => document,
        Err(fault) => return Err(fault),
    };
    match judge(alloc, &document) {
        Ok(()) => Ok(document),
        Err(fault) => Err(fault),
    }
}

/// The value that the bytes write, where they are JSON.
fn parse(alloc: Global, bytes: &[u8]) -> Result<Value, PlanFault>
    ensures result { MatchResult result (λ document. IsJson bytes.now (view document))
        (NotJsonFor bytes.now) }
    ensures nests { IfOk result (λ document. depth (view document) ≤ 127) }
{
    match Value::from_slice(alloc, bytes) {
        Ok(document) => Ok(document),
        Err(fault) if fault.is_memory() => Err(PlanFault::Memory),
        Err(_) => Err(not_json(alloc)),
    }
}

fn not_json(alloc: Global) -> PlanFault
    ensures { result ≡ PlanFault.Refused 1 [] }
{
    PlanFault::Refused {
        code: 1,
        path: Text::of(String::new(alloc)),
    }
}

/// Bytes are JSON of one document, so that a document, code 1 and every other code exclude each
/// other.
pub fn documents_are_one(_bytes: &[u8])
    ensures { (a b : Data) → IsJson _bytes.now a → IsJson _bytes.now b → a ≡ b }
{}
