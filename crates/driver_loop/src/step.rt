//! A turn of the parts of a driver.
ghost use Rattle.std.specs.Prelude.{◌≡◌, ◌+◌, ◌<◌, ℕ, List, true, false, IfOk, IsErr, IsOk};
ghost use Rattle.sql_values.specs.declared.fail.Fail.{Fail as Kind};
ghost use Rattle.col_pages.specs.Pages.{most_rows};
ghost use Rattle.operator_core.specs.Answers.{NotMemory};
ghost use Rattle.operator_core.specs.Rows.{Row};
ghost use Rattle.operator_core.specs.Stages.{Linked, ToldInTurn, last_finished};
ghost use Rattle.stage_moves.specs.Moves.{SomeFails};
ghost use Rattle.stage_moves.specs.Places.{AllLater};
ghost use Rattle.driver_turns.specs.Turns.{IsBlocked, RangDues, StageFailed, TurnedSo, WorkedTo};
ghost use Rattle.driver_loop.specs.Ends.{has_ended, is_told, rows_taken, source_dues, source_looks, source_made, source_misses, target_dues, target_finished, target_looks, target_made_or_lost, was_given};
ghost use Rattle.driver_loop.specs.Seats.{KnowsEnds};

use crate::source::Source;
use crate::stage::Stage;
use crate::target::Target;
use blocked::Bells;
use driver_turns::{Turned, Turning, turn};
use operator_core::{OpFault, Operator};
use run_ports::Courier;
use std::sync::Wait;
use std::thread::Threads;

/// A turn.
pub(crate) fn take_turn<'w, C: Courier, R: Threads + Wait + Sync, B: Bells>(
    rt: &R,
    source: &mut Source<'w, C>,
    stages: &mut Vec<Stage<'w>>,
    target: &mut Target<'w>,
    quantum: u32,
    bells: &mut B,
) -> Turning
    ensures worked { NotMemory result.outcome → (Y : List Row) → was_given target.old Y
        → WorkedTo ⟦<Stage<'w> as Operator>⟧ (was_given target.new) stages.old.items stages.new.items
        (rows_taken source.old) (rows_taken source.new) Y (has_ended source.old) (has_ended source.new)
        (source_misses source.old) (source_misses source.new) result.units }
    ensures later { NotMemory result.outcome
        → AllLater ⟦<Stage<'w> as Operator>⟧ stages.old.items stages.new.items }
    ensures answer { IfOk result.outcome (λ turned. TurnedSo (IsBlocked ⟦<Stage<'w> as Operator>⟧
        stages.old.items stages.new.items (is_told target.new) (source_looks source.old)
        (source_looks source.new) (target_looks target.old) (target_looks target.new)
        (B.shown bells.new)) (is_told target.new) (target_finished target.new)
        quantum result.units turned) }
    ensures source { source_made source.new ≡ source_made source.old }
    ensures target { NotMemory result.outcome
        → target_made_or_lost target.new ≡ target_made_or_lost target.old }
    ensures ends { KnowsEnds target.new }
    ensures told { NotMemory result.outcome → (is_told target.old ≡ true
        → last_finished ⟦<Stage<'w> as Operator>⟧ (has_ended source.old) stages.old.items ≡ true)
        → is_told target.new ≡ true
        → last_finished ⟦<Stage<'w> as Operator>⟧ (has_ended source.new) stages.new.items ≡ true }
    ensures tells { IsOk result.outcome
        → last_finished ⟦<Stage<'w> as Operator>⟧ (has_ended source.new) stages.new.items ≡ true
        → is_told target.new ≡ true }
    ensures finished { IfOk result.outcome (λ turned. turned ≡ Turned.Finished
        → is_told target.new ≡ true) }
    ensures unfinished { IsErr result.outcome → NotMemory result.outcome
        → target_finished target.new ≡ false }
    ensures few { result.units < quantum + most_rows }
    ensures bells { (bell count : ℕ) → B.shown bells.old bell count
        → B.shown bells.new bell count }
    ensures rang { NotMemory result.outcome → RangDues (B.rang bells.old) (B.rang bells.new)
        (λ bell. source_dues source.old bell + target_dues target.old bell)
        (λ bell. source_dues source.new bell + target_dues target.new bell) }
    ensures fault { (node : ℕ) (kind : Kind) → result.outcome ≡ Err (OpFault.Expr node kind)
        → SomeFails ⟦<Stage<'w> as Operator>⟧ stages.new.items node kind }
    ensures failure { (node : ℕ) (kind : Kind) → result.outcome ≡ Err (OpFault.Expr node kind)
        → (Y : List Row) → was_given target.old Y
        → Linked ⟦<Stage<'w> as Operator>⟧ stages.old.items (rows_taken source.old) Y
        → ToldInTurn ⟦<Stage<'w> as Operator>⟧ (has_ended source.old) stages.old.items
        → StageFailed ⟦<Stage<'w> as Operator>⟧ stages.new.items (has_ended source.new)
        (rows_taken source.new) node kind }
{
    let turned = turn(rt, source, stages, target, quantum, bells);
    target.keeps();
    turned
}
