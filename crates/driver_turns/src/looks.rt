//! Looks at the source and the stages of a driver, for what they wait for.
ghost use Rattle.std.specs.Prelude.{◌≡◌, ◌+◌, ◌<◌, ◌≤◌, ℕ, List, Bool, length, IsOk, IfOk, IfSome};
ghost use Rattle.count_laws.specs.Counts.{most_count};
ghost use Rattle.operator_core.specs.Rows.{Row};
ghost use Rattle.stage_moves.specs.Counts.{Counted};
ghost use Rattle.driver_turns.specs.Turns.{WentOn, StageBlocked, IsHeldUp};

use blocked::{Bells, BlockedOn};
use operator_core::laws;
use operator_core::stage::look;
use sql_values::Memory;
use stage_moves::{PageSource, Ready, TypedOperator};
use std::marker::PhantomData;
use std::sync::Wait;
use std::thread::Threads;

/// Looks for the value that the stage at a place waits for.
fn look_at<S: TypedOperator, R: Threads + Wait + Sync, B: Bells>(
    rt: &R,
    stages: &mut Vec<S>,
    place: usize,
    bells: &mut B,
) -> Result<Option<BlockedOn>, Memory>
    requires { place < length stages.old.items }
    ensures went { IsOk result → (X Y : List Row) (ended : Bool)
        → WentOn S.Operator stages.old.items stages.new.items X X Y Y ended ended }
    ensures counts { IsOk result → (X Y : List Row)
        → Counted S.Operator stages.old.items stages.new.items X X Y Y 0 }
    ensures blocked { IfOk result (λ o. IfSome o (λ on. StageBlocked S.Operator
        stages.old.items stages.new.items (B.shown bells.new) on)) }
    ensures len { length stages.new.items ≡ length stages.old.items }
    ensures bells { (bell count : ℕ) → B.shown bells.old bell count
        → B.shown bells.new bell count }
    ensures rang { (bell times : ℕ) → B.rang bells.old bell times
        → B.rang bells.new bell times }
{
    laws::laws::<S>(PhantomData);
    look(&mut stages[place], rt, bells)
}

/// Looks for the values that the stages wait for, up to the first stage that does not find its own.
pub fn look_at_stages<S: TypedOperator, R: Threads + Wait + Sync, B: Bells>(
    rt: &R,
    stages: &mut Vec<S>,
    bells: &mut B,
) -> Result<Option<BlockedOn>, Memory>
    ensures went { IsOk result → (X Y : List Row) (ended : Bool)
        → WentOn S.Operator stages.old.items stages.new.items X X Y Y ended ended }
    ensures counts { IsOk result → (X Y : List Row)
        → Counted S.Operator stages.old.items stages.new.items X X Y Y 0 }
    ensures blocked { IfOk result (λ o. IfSome o (λ on. StageBlocked S.Operator
        stages.old.items stages.new.items (B.shown bells.new) on)) }
    ensures bells { (bell count : ℕ) → B.shown bells.old bell count
        → B.shown bells.new bell count }
    ensures rang { (bell times : ℕ) → B.rang bells.old bell times
        → B.rang bells.new bell times }
{
    for place in 0..stages.len() {
        match look_at(rt, stages, place, bells) {
            Ok(None) => {}
            Ok(Some(on)) => return Ok(Some(on)),
            Err(memory) => return Err(memory),
        }
    }
    Ok(None)
}

/// What the source and the stages found when they looked.
#[derive(Drop)]
pub(crate) struct Ahead {
    /// How often the source asked in vain where nobody rings: once at the most.
    pub(crate) again: u32,
    /// Who waits, where nobody asked in vain.
    pub(crate) waits: Option<BlockedOn>,
}

/// Looks for what the source and the stages wait for.
pub(crate) fn look_ahead<I: PageSource, S: TypedOperator, R: Threads + Wait + Sync, B: Bells>(
    rt: &R,
    source: &mut I,
    stages: &mut Vec<S>,
    bells: &mut B,
) -> Result<Ahead, Memory>
    ensures went { IsOk result → (Y : List Row) → WentOn S.Operator stages.old.items stages.new.items
        (I.taken source.old) (I.taken source.new) Y Y (I.is_ended source.old) (I.is_ended source.new) }
    ensures counts { IsOk result → (Y : List Row) → Counted S.Operator stages.old.items
        stages.new.items (I.taken source.old) (I.taken source.new) Y Y 0 }
    ensures made { I.as_made source.new ≡ I.as_made source.old }
    ensures looks { (I.looks source.old).in_vain ≤ (I.looks source.new).in_vain }
    ensures misses { I.misses source.old ≤ I.misses source.new }
    ensures again { IfOk result (λ l. (l.again ≤ 1) × (I.misses source.new < most_count
        → I.misses source.old + l.again ≤ I.misses source.new)) }
    ensures waits { IfOk result (λ l. IfSome l.waits (IsHeldUp S.Operator stages.old.items
        stages.new.items (I.looks source.old) (I.looks source.new) (B.shown bells.new))) }
    ensures bells { (bell count : ℕ) → B.shown bells.old bell count
        → B.shown bells.new bell count }
    ensures rang { IsOk result → (bell times : ℕ)
        → B.rang bells.old bell (times + I.dues source.old bell)
        → B.rang bells.new bell (times + I.dues source.new bell) }
{
    let found = match source.ready(rt, bells) {
        Ok(found) => found,
        Err(memory) => return Err(memory),
    };
    let waits = match look_at_stages(rt, stages, bells) {
        Ok(waits) => waits,
        Err(memory) => return Err(memory),
    };
    match found {
        Ready::Now => Ok(Ahead { again: 0, waits }),
        Ready::Missed => Ok(Ahead {
            again: 1,
            waits: None,
        }),
        Ready::Blocked(on) => Ok(Ahead {
            again: 0,
            waits: Some(waits.unwrap_or(on)),
        }),
    }
}
