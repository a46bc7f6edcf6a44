//! A step of a turn: it looks, passes, and gives the target what comes out.
ghost use Rattle.std.specs.Prelude.{◌≡◌, ◌⊎◌, ◌+◌, ◌++◌, ◌<◌, ◌≤◌, ℕ, List, true, false, None, Some, Ok, IsOk, IfOk, IfSome, MatchOption};
ghost use Rattle.sql_values.specs.declared.fail.Fail.{Fail as Kind};
ghost use Rattle.col_pages.specs.Pages.{most_rows};
ghost use Rattle.operator_core.specs.Rows.{Row};
ghost use Rattle.operator_core.specs.Answers.{NotMemory, gave};
ghost use Rattle.operator_core.specs.Stages.{last_finished};
ghost use Rattle.stage_moves.specs.Looks.{HasWaited};
ghost use Rattle.stage_moves.specs.Moves.{SomeFails};
ghost use Rattle.stage_moves.specs.Places.{AllStay, AllLater};
ghost use Rattle.stage_moves.specs.Quiet.{IsQuiet};
ghost use Rattle.driver_turns.specs.Turns.{WorkedTo, IsBlocked, IsHalted, RangDues};

use crate::looks::{Ahead, look_ahead};
use blocked::{Bells, BlockedOn};
use col_pages::Page;
use operator_core::OpFault;
use sql_values::Memory;
use stage_moves::{PageSource, PageTarget, Passing, TypedOperator, are_finished, pass};
use std::sync::Wait;
use std::thread::Threads;

/// What a step came to.
#[derive(Drop)]
pub(crate) struct Step {
    /// How many units it counted, also where it failed.
    pub(crate) units: u64,
    /// Who waits, where no unit was counted.
    pub(crate) outcome: Result<Option<BlockedOn>, OpFault>,
}

impl Step {
    /// One after which memory was wanting.
    fn lacking(units: u64) -> Step
        ensures { result ≡ record { units = units; outcome = Err OpFault.Memory } }
    {
        Step {
            units,
            outcome: Err(OpFault::Memory),
        }
    }
}

/// Tells the target that no page comes any more, where the last stage is finished.
pub(crate) fn tell<I: PageSource, S: TypedOperator, T: PageTarget>(
    source: &I,
    stages: &[S],
    target: &mut T,
)
    ensures rows { (Y : List Row) → T.was_given target.old Y → T.was_given target.new Y }
    ensures made { T.as_made target.new ≡ T.as_made target.old }
    ensures looks { (T.looks target.old).in_vain ≤ (T.looks target.new).in_vain }
    ensures dues { (bell : ℕ) → T.dues target.new bell ≡ T.dues target.old bell }
    ensures told { T.is_told target.new ≡ true → (T.is_told target.old ≡ true)
        ⊎ (last_finished S.Operator (I.is_ended source.now) stages.now ≡ true) }
    ensures stays { T.is_told target.old ≡ true → target.new ≡ target.old }
    ensures tells { last_finished S.Operator (I.is_ended source.now) stages.now ≡ true
        → T.is_told target.new ≡ true }
    ensures untold { T.is_told target.new ≡ false
        → T.is_finished target.new ≡ T.is_finished target.old }
{
    if !target.is_told() && are_finished(stages, source.is_ended()) {
        target.finish();
    }
}

/// Passes, puts what comes out into the target, and closes it where the last stage is finished. Answers how many
/// rows moved.
fn move_on<I: PageSource, S: TypedOperator, T: PageTarget>(
    source: &mut I,
    stages: &mut Vec<S>,
    target: &mut T,
    room: u32,
) -> Step
    requires room { 0 < room }
    requires untold { T.is_told target.old ≡ false }
    ensures worked { NotMemory result.outcome → (Y : List Row) → T.was_given target.old Y
        → WorkedTo S.Operator (T.was_given target.new) stages.old.items stages.new.items
        (I.taken source.old) (I.taken source.new) Y (I.is_ended source.old) (I.is_ended source.new)
        (I.misses source.old) (I.misses source.new) result.units }
    ensures same { NotMemory result.outcome → AllStay S.Operator stages.old.items stages.new.items }
    ensures made { I.as_made source.new ≡ I.as_made source.old }
    ensures source_looks { I.looks source.new ≡ I.looks source.old }
    ensures misses { I.misses source.new ≡ I.misses source.old }
    ensures source_dues { (bell : ℕ) → I.dues source.new bell ≡ I.dues source.old bell }
    ensures target { NotMemory result.outcome → T.as_made target.new ≡ T.as_made target.old }
    ensures target_looks { (T.looks target.old).in_vain ≤ (T.looks target.new).in_vain }
    ensures target_dues { NotMemory result.outcome
        → (bell : ℕ) → T.dues target.new bell ≡ T.dues target.old bell }
    ensures told { NotMemory result.outcome → T.is_told target.new ≡ true
        → last_finished S.Operator (I.is_ended source.new) stages.new.items ≡ true }
    ensures tells { IsOk result.outcome
        → last_finished S.Operator (I.is_ended source.new) stages.new.items ≡ true
        → T.is_told target.new ≡ true }
    ensures untold { NotMemory result.outcome → T.is_told target.new ≡ false
        → T.is_finished target.new ≡ T.is_finished target.old }
    ensures quiet { IsOk result.outcome → result.units ≡ 0
        → IsQuiet S.Operator (T.wants target.old) stages.new.items }
    ensures none { IfOk result.outcome (λ waits. waits ≡ None) }
    ensures few { result.units < room + most_rows }
    ensures failed { (node : ℕ) (kind : Kind) → result.outcome ≡ Err (OpFault.Expr node kind)
        → T.is_finished target.new ≡ T.is_finished target.old }
    ensures fault { (node : ℕ) (kind : Kind) → result.outcome ≡ Err (OpFault.Expr node kind)
        → SomeFails S.Operator stages.new.items node kind }
{
    let wants = target.wants();
    let Passing { rows, outcome } = pass(source, stages, wants, room);
    let out = match outcome {
        Ok(out) => out,
        Err(fault) => return Step {
            units: rows,
            outcome: Err(fault),
        },
    };
    match give(target, wants, out) {
        Ok(()) => {}
        Err(_) => return Step {
            units: rows,
            outcome: Err(OpFault::Memory),
        },
    }
    tell(source, stages, target);
    Step {
        units: rows,
        outcome: Ok(None),
    }
}

/// Puts a page into the target, where there is one.
fn give<T: PageTarget>(target: &mut T, wants: bool, out: Option<Page>) -> Result<(), Memory>
    requires wants { wants ≡ T.wants target.old }
    requires out { wants ≡ false → out ≡ None }
    ensures rows { IsOk result → (Y : List Row) → T.was_given target.old Y
        → T.was_given target.new (Y ++ gave (Ok out)) }
    ensures made { IsOk result → T.as_made target.new ≡ T.as_made target.old }
    ensures told { IsOk result → T.is_told target.new ≡ T.is_told target.old }
    ensures finished { IsOk result → T.is_finished target.new ≡ T.is_finished target.old }
    ensures looks { (T.looks target.old).in_vain ≤ (T.looks target.new).in_vain }
    ensures dues { IsOk result → (bell : ℕ) → T.dues target.new bell ≡ T.dues target.old bell }
{
    match out {
        Some(page) => target.put(page),
        None => Ok(()),
    }
}

/// A step while the target takes pages: it looks at the source and the stages, passes, and looks at the target.
/// Where the target did not want a page before the pass, no source and no stage keeps the driver waiting.
fn work<I: PageSource, S: TypedOperator, T: PageTarget, R: Threads + Wait + Sync, B: Bells>(
    rt: &R,
    source: &mut I,
    stages: &mut Vec<S>,
    target: &mut T,
    room: u32,
    bells: &mut B,
) -> Step
    requires room { 0 < room }
    requires going { T.is_finished target.old ≡ false }
    requires untold { T.is_told target.old ≡ false }
    ensures worked { NotMemory result.outcome → (Y : List Row) → T.was_given target.old Y
        → WorkedTo S.Operator (T.was_given target.new) stages.old.items stages.new.items
        (I.taken source.old) (I.taken source.new) Y (I.is_ended source.old) (I.is_ended source.new)
        (I.misses source.old) (I.misses source.new) result.units }
    ensures later { NotMemory result.outcome → AllLater S.Operator stages.old.items stages.new.items }
    ensures made { I.as_made source.new ≡ I.as_made source.old }
    ensures source_looks { (I.looks source.old).in_vain ≤ (I.looks source.new).in_vain }
    ensures misses { I.misses source.old ≤ I.misses source.new }
    ensures target { NotMemory result.outcome → T.as_made target.new ≡ T.as_made target.old }
    ensures target_looks { (T.looks target.old).in_vain ≤ (T.looks target.new).in_vain }
    ensures told { NotMemory result.outcome → T.is_told target.new ≡ true
        → last_finished S.Operator (I.is_ended source.new) stages.new.items ≡ true }
    ensures tells { IsOk result.outcome
        → last_finished S.Operator (I.is_ended source.new) stages.new.items ≡ true
        → T.is_told target.new ≡ true }
    ensures blocked { IfOk result.outcome (λ waits. IfSome waits (λ on. IsBlocked S.Operator
        stages.old.items stages.new.items (T.is_told target.new) (I.looks source.old) (I.looks source.new)
        (T.looks target.old) (T.looks target.new) (B.shown bells.new) on)) }
    ensures wanted { IfOk result.outcome (λ waits. IfSome waits (λ on. (T.wants target.old ≡ true)
        ⊎ HasWaited (T.looks target.old) (T.looks target.new) (B.shown bells.new) on)) }
    ensures quiet { IfOk result.outcome (λ waits. IfSome waits (λ on. IsHalted S.Operator stages.new.items
        (HasWaited (T.looks target.old) (T.looks target.new) (B.shown bells.new) on))) }
    ensures unfinished { IfOk result.outcome (λ waits. IfSome waits
        (λ _. T.is_finished target.new ≡ false)) }
    ensures few { result.units < room + most_rows }
    ensures bells { (bell count : ℕ) → B.shown bells.old bell count
        → B.shown bells.new bell count }
    ensures rang { NotMemory result.outcome → RangDues (B.rang bells.old) (B.rang bells.new)
        (λ bell. I.dues source.old bell + T.dues target.old bell)
        (λ bell. I.dues source.new bell + T.dues target.new bell) }
    ensures failed { (node : ℕ) (kind : Kind) → result.outcome ≡ Err (OpFault.Expr node kind)
        → T.is_finished target.new ≡ false }
    ensures fault { (node : ℕ) (kind : Kind) → result.outcome ≡ Err (OpFault.Expr node kind)
        → SomeFails S.Operator stages.new.items node kind }
{
    let Ahead { again, waits } = match look_ahead(rt, source, stages, bells) {
        Ok(ahead) => ahead,
        Err(_) => return Step::lacking(0),
    };
    if again >= room {
        tell(source, stages, target);
        return Step {
            units: u64::from(again),
            outcome: Ok(None),
        };
    }
    let wanted = target.wants();
    let Step { units, outcome } = move_on(source, stages, target, room - again);
    let units = units + u64::from(again);
    match outcome {
        Ok(_) => {}
        Err(fault) => return Step {
            units,
            outcome: Err(fault),
        },
    }
    let full = match target.ready(rt, bells) {
        Ok(full) => full,
        Err(_) => return Step::lacking(units),
    };
    if units > 0 {
        return Step {
            units,
            outcome: Ok(None),
        };
    }
    let who = who_waits(full, target.is_told(), wanted, waits);
    Step {
        units: 0,
        outcome: Ok(who),
    }
}

/// Who waits after a step in which nothing moved: the target, or who waits before it, where the target was not
/// told to finish and had wanted a page.
fn who_waits(
    full: Option<BlockedOn>,
    told: bool,
    wanted: bool,
    waits: Option<BlockedOn>,
) -> Option<BlockedOn>
    ensures { MatchOption result
        ((full ≡ None) × ((told ≡ true) ⊎ (wanted ≡ false) ⊎ (waits ≡ None)))
        (λ on. (full ≡ Some on) ⊎ ((told ≡ false) × (wanted ≡ true) × (waits ≡ Some on))) }
{
    match full {
        Some(on) => Some(on),
        None if told || !wanted => None,
        None => waits,
    }
}

/// A step. Once the target was told to finish, nothing but its end is left.
pub(crate) fn take_step<
    I: PageSource,
    S: TypedOperator,
    T: PageTarget,
    R: Threads + Wait + Sync,
    B: Bells,
>(rt: &R, source: &mut I, stages: &mut Vec<S>, target: &mut T, room: u32, bells: &mut B) -> Step
    requires room { T.is_told target.old ≡ false → 0 < room }
    requires going { T.is_finished target.old ≡ false }
    ensures worked { NotMemory result.outcome → (Y : List Row) → T.was_given target.old Y
        → WorkedTo S.Operator (T.was_given target.new) stages.old.items stages.new.items
        (I.taken source.old) (I.taken source.new) Y (I.is_ended source.old) (I.is_ended source.new)
        (I.misses source.old) (I.misses source.new) result.units }
    ensures later { NotMemory result.outcome → AllLater S.Operator stages.old.items stages.new.items }
    ensures made { I.as_made source.new ≡ I.as_made source.old }
    ensures source_looks { (I.looks source.old).in_vain ≤ (I.looks source.new).in_vain }
    ensures misses { I.misses source.old ≤ I.misses source.new }
    ensures target { NotMemory result.outcome → T.as_made target.new ≡ T.as_made target.old }
    ensures target_looks { (T.looks target.old).in_vain ≤ (T.looks target.new).in_vain }
    ensures told { NotMemory result.outcome → (T.is_told target.old ≡ true
        → last_finished S.Operator (I.is_ended source.old) stages.old.items ≡ true)
        → T.is_told target.new ≡ true
        → last_finished S.Operator (I.is_ended source.new) stages.new.items ≡ true }
    ensures tells { IsOk result.outcome
        → last_finished S.Operator (I.is_ended source.new) stages.new.items ≡ true
        → T.is_told target.new ≡ true }
    ensures blocked { IfOk result.outcome (λ waits. IfSome waits (λ on. IsBlocked S.Operator
        stages.old.items stages.new.items (T.is_told target.new) (I.looks source.old) (I.looks source.new)
        (T.looks target.old) (T.looks target.new) (B.shown bells.new) on)) }
    ensures quiet { IfOk result.outcome (λ waits. IfSome waits (λ on. T.is_told target.new ≡ false
        → IsHalted S.Operator stages.new.items
        (HasWaited (T.looks target.old) (T.looks target.new) (B.shown bells.new) on))) }
    ensures unfinished { IfOk result.outcome (λ waits. IfSome waits
        (λ _. T.is_finished target.new ≡ false)) }
    ensures still { room ≡ 0 → result.units ≡ 0 }
    ensures few { result.units < room + most_rows }
    ensures bells { (bell count : ℕ) → B.shown bells.old bell count
        → B.shown bells.new bell count }
    ensures rang { NotMemory result.outcome → RangDues (B.rang bells.old) (B.rang bells.new)
        (λ bell. I.dues source.old bell + T.dues target.old bell)
        (λ bell. I.dues source.new bell + T.dues target.new bell) }
    ensures failed { (node : ℕ) (kind : Kind) → result.outcome ≡ Err (OpFault.Expr node kind)
        → T.is_finished target.new ≡ false }
    ensures fault { (node : ℕ) (kind : Kind) → result.outcome ≡ Err (OpFault.Expr node kind)
        → SomeFails S.Operator stages.new.items node kind }
{
    if !target.is_told() {
        return work(rt, source, stages, target, room, bells);
    }
    match target.ready(rt, bells) {
        Ok(full) => Step {
            units: 0,
            outcome: Ok(full),
        },
        Err(_) => Step::lacking(0),
    }
}
