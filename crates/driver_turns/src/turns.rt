//! A turn of a driver: it looks and passes, until it is to yield, has to wait, or is through.
ghost use Rattle.std.specs.Prelude.{◌≡◌, ◌+◌, ◌<◌, ℕ, List, true, false, IsOk, IfOk};
ghost use Rattle.sql_values.specs.declared.fail.Fail.{Fail as Kind};
ghost use Rattle.col_pages.specs.Pages.{most_rows};
ghost use Rattle.operator_core.specs.Rows.{Row};
ghost use Rattle.operator_core.specs.Answers.{NotMemory};
ghost use Rattle.operator_core.specs.Stages.{Linked, ToldInTurn, last_finished};
ghost use Rattle.stage_moves.specs.Looks.{HasWaited};
ghost use Rattle.stage_moves.specs.Moves.{SomeFails};
ghost use Rattle.stage_moves.specs.Places.{AllLater};
ghost use Rattle.driver_turns.specs.Turns.{WorkedTo, StageFailed, TurnedSo, IsBlocked, IsHalted, RangDues, WhereBlocked};

use crate::steps::{Step, take_step, tell};
use blocked::{Bells, BlockedOn};
use operator_core::OpFault;
use stage_moves::{PageSource, PageTarget, TypedOperator};
use std::sync::Wait;
use std::thread::Threads;

/// What a turn came to.
#[derive(Drop)]
pub struct Turning {
    /// How many units it counted, also where it failed.
    pub units: u64,
    pub outcome: Result<Turned, OpFault>,
}

/// Why a turn ended that did not fail.
#[derive(Drop)]
pub enum Turned {
    /// It counted its quantum of units.
    Yield,
    /// A stage, the source or the target waits, and nothing else moved.
    Blocked(BlockedOn),
    /// The target is finished.
    Finished,
}

/// A turn: it looks and passes until the target is finished, it counted `quantum` units, or nothing moved in a
/// whole step and a stage, the source or the target waits. A unit is a row that entered a stage or the target,
/// or an ask of the source in vain. No move begins once `quantum` units were counted, and a turn does not yield
/// once the target was told to finish.
///
/// Where nothing moves and nobody waits it goes on for ever: a full stage that was never told to finish is such
/// a case, so a source that has nothing for its stages is ended from the start.
pub fn turn<I: PageSource, S: TypedOperator, T: PageTarget, R: Threads + Wait + Sync, B: Bells>(
    rt: &R,
    source: &mut I,
    stages: &mut Vec<S>,
    target: &mut T,
    quantum: u32,
    bells: &mut B,
) -> Turning
    ensures worked { NotMemory result.outcome → (Y : List Row) → T.was_given target.old Y
        → WorkedTo S.Operator (T.was_given target.new) stages.old.items stages.new.items
        (I.taken source.old) (I.taken source.new) Y (I.is_ended source.old) (I.is_ended source.new)
        (I.misses source.old) (I.misses source.new) result.units }
    ensures later { NotMemory result.outcome → AllLater S.Operator stages.old.items stages.new.items }
    ensures answer { IfOk result.outcome (λ turned. TurnedSo (IsBlocked S.Operator stages.old.items
        stages.new.items (T.is_told target.new) (I.looks source.old) (I.looks source.new)
        (T.looks target.old) (T.looks target.new) (B.shown bells.new)) (T.is_told target.new)
        (T.is_finished target.new) quantum result.units turned) }
    ensures quiet { IfOk result.outcome (WhereBlocked (λ on. T.is_told target.new ≡ false
        → IsHalted S.Operator stages.new.items
        (HasWaited (T.looks target.old) (T.looks target.new) (B.shown bells.new) on))) }
    ensures made { I.as_made source.new ≡ I.as_made source.old }
    ensures target { NotMemory result.outcome → T.as_made target.new ≡ T.as_made target.old }
    ensures told { NotMemory result.outcome → (T.is_told target.old ≡ true
        → last_finished S.Operator (I.is_ended source.old) stages.old.items ≡ true)
        → T.is_told target.new ≡ true
        → last_finished S.Operator (I.is_ended source.new) stages.new.items ≡ true }
    ensures tells { IsOk result.outcome
        → last_finished S.Operator (I.is_ended source.new) stages.new.items ≡ true
        → T.is_told target.new ≡ true }
    ensures finished { IfOk result.outcome (λ turned. turned ≡ Turned.Finished
        → T.is_told target.new ≡ true) }
    ensures few { result.units < quantum + most_rows }
    ensures bells { (bell count : ℕ) → B.shown bells.old bell count
        → B.shown bells.new bell count }
    ensures rang { NotMemory result.outcome → RangDues (B.rang bells.old) (B.rang bells.new)
        (λ bell. I.dues source.old bell + T.dues target.old bell)
        (λ bell. I.dues source.new bell + T.dues target.new bell) }
    ensures failed { (node : ℕ) (kind : Kind) → result.outcome ≡ Err (OpFault.Expr node kind)
        → T.is_finished target.new ≡ false }
    ensures fault { (node : ℕ) (kind : Kind) → result.outcome ≡ Err (OpFault.Expr node kind)
        → SomeFails S.Operator stages.new.items node kind }
    ensures failure { (node : ℕ) (kind : Kind) → result.outcome ≡ Err (OpFault.Expr node kind)
        → (Y : List Row) → T.was_given target.old Y
        → Linked S.Operator stages.old.items (I.taken source.old) Y
        → ToldInTurn S.Operator (I.is_ended source.old) stages.old.items
        → StageFailed S.Operator stages.new.items (I.is_ended source.new) (I.taken source.new)
        node kind }
{
    let mut units: u64 = 0;
    tell(source, stages, target);
    for _ in rt.forever() {
        if target.is_finished() {
            return Turning {
                units,
                outcome: Ok(Turned::Finished),
            };
        }
        let room = u64::from(quantum).saturating_sub(units) as u32;
        if room == 0 && !target.is_told() {
            break;
        }
        let Step {
            units: more,
            outcome,
        } = take_step(rt, source, stages, target, room, bells);
        units += more;
        match outcome {
            Ok(None) => {}
            Ok(Some(on)) => return Turning {
                units,
                outcome: Ok(Turned::Blocked(on)),
            },
            Err(fault) => return Turning {
                units,
                outcome: Err(fault),
            },
        }
    }
    Turning {
        units,
        outcome: Ok(Turned::Yield),
    }
}
