//! The calls of an operator, with what they leave as one fact each.
ghost use Rattle.std.specs.Prelude.{◌≡◌, ℕ, ◌≤◌, ◌↔◌, [], true, false, None, IfOk, IsOk, MatchOption};
ghost use Rattle.sql_values.specs.declared.fail.Fail.{Fail as Kind};
ghost use Rattle.count_laws.specs.Counts.{Rose};
ghost use Rattle.operator_core.specs.Answers.{NotMemory, gave, IsFit};
ghost use Rattle.operator_core.specs.Calls.{Took, Gave, WasTold, Looked, FailsNow};

use crate::{OpFault, Operator};
use blocked::{Bells, BlockedOn};
use col_pages::Page;
use sql_values::Memory;
use std::sync::Wait;
use std::thread::Threads;

/// `add_input`. After a failure the page counts as taken, and the operator fails with this kind whatever
/// follows.
pub fn take_in<O: Operator>(op: &mut O, page: Page) -> Result<(), OpFault>
    requires needs { O.needs_input op.old ≡ true }
    requires takes { O.takes op.old page }
    ensures took { NotMemory result → Took O.Operator op.old op.new page }
    ensures fault { (node : ℕ) (kind : Kind) → result ≡ Err (OpFault.Expr node kind)
        → FailsNow O.Operator op.new node kind }
{
    op.add_input(page)
}

/// `get_output`. After a failure no row counts as given, and the operator fails with this kind whatever
/// follows.
pub fn give_out<O: Operator>(op: &mut O) -> Result<Option<Page>, OpFault>
    ensures gave { NotMemory result → Gave O.Operator op.old op.new (gave result) }
    ensures fault { (node : ℕ) (kind : Kind) → result ≡ Err (OpFault.Expr node kind)
        → FailsNow O.Operator op.new node kind }
    ensures none { NotMemory result → (result ≡ Ok None) ↔ ((O.holds_row op.old ≡ false)
        × (O.is_told op.old ≡ true → (node : ℕ) (kind : Kind)
        → O.may_still_fail op.old [] node kind → ⊥)) }
    ensures size { IsFit result (O.page_size op.old) }
{
    op.get_output()
}

/// `finish`.
pub fn tell<O: Operator>(op: &mut O)
    ensures { WasTold O.Operator op.old op.new }
{
    op.finish();
}

/// `blocked`.
pub fn look<O: Operator, R: Threads + Wait + Sync, B: Bells>(
    op: &mut O,
    rt: &R,
    bells: &mut B,
) -> Result<Option<BlockedOn>, Memory>
    ensures looked { IsOk result → Looked O.Operator op.old op.new }
    ensures answer { IfOk result (λ on. MatchOption on
        (O.waits op.old ≡ true → O.knows op.new ≡ true)
        (λ on. (O.waits op.old ≡ true) × (O.knows op.new ≡ false)
        × Rose (O.empty_looks op.old) (O.empty_looks op.new) × (O.looked_at op.new ≡ on.seen)
        × (on.bell ≡ O.bell op.new) × B.shown bells.new on.bell on.seen
        × (on.rung ≡ false))) }
    ensures looks { O.empty_looks op.old ≤ O.empty_looks op.new }
    ensures bells { (bell count : ℕ) → B.shown bells.old bell count
        → B.shown bells.new bell count }
    ensures rang { (bell times : ℕ) → B.rang bells.old bell times
        → B.rang bells.new bell times }
{
    op.blocked(rt, bells)
}
