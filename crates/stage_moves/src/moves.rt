//! The moves of a driver. A driver keeps `Linked` and `ToldInTurn` of its stages over each of them.
ghost use Rattle.std.specs.Prelude.{◌≡◌, ◌+◌, ◌<◌, ◌≤◌, ◌++◌, ℕ, List, [], true, false, None, length, map, IfOk, IfSome, IsOk};
ghost use Rattle.sql_values.specs.declared.fail.Fail.{Fail as Kind};
ghost use Rattle.col_pages.specs.Pages.{most_rows};
ghost use Rattle.operator_core.specs.Answers.{NotMemory, gave};
ghost use Rattle.operator_core.specs.Rows.{Row};
ghost use Rattle.operator_core.specs.Stages.{Linked, ToldInTurn, last_finished, giver_finished};
ghost use Rattle.stage_moves.specs.Counts.{Counted};
ghost use Rattle.stage_moves.specs.Moves.{Moved, SomeFails, first_needs, takes_page};
ghost use Rattle.stage_moves.specs.Places.{AllStay};
ghost use Rattle.stage_moves.specs.Quiet.{AreStill, IsQuiet, NeedsLaws};

use crate::typed_operator::TypedOperator;
use col_pages::Page;
use operator_core::stage::{give_out, take_in, tell};
use operator_core::{OpFault, Operator, laws};
use std::marker::PhantomData;

/// What a move came to.
#[derive(Drop)]
pub struct Moving {
    /// How many rows entered a stage, also where that failed on them.
    pub rows: u32,
    pub outcome: Result<(), OpFault>,
}

/// The laws of an operator of the rows that it holds and the pages that it takes, as one fact.
fn needs_laws<O: Operator>(_of: PhantomData<O>)
    ensures { NeedsLaws O.Operator }
{}

/// Whether a page of the source can be taken now: the first stage takes one or, where there is no stage, the
/// target wants one.
pub fn takes_input<S: TypedOperator>(stages: &[S], wants: bool) -> bool
    ensures takes { result ≡ takes_page S.Operator wants stages.now }
    ensures needs { result ≡ true → first_needs S.Operator stages.now ≡ true }
    ensures some { result ≡ true → wants ≡ false → 0 < length stages.now }
{
    match stages.first() {
        Some(stage) => stage.needs_input(),
        None => wants,
    }
}

/// Whether the last stage is finished, or the source where there is no stage.
pub fn are_finished<S: TypedOperator>(stages: &[S], ended: bool) -> bool
    ensures { result ≡ last_finished S.Operator ended stages.now }
{
    let count = stages.len();
    if count == 0 {
        return ended;
    }
    stages[count - 1].is_finished()
}

/// Whether the giver of a stage is finished: the stage before it, or the source.
fn is_giver_finished<S: TypedOperator>(stages: &[S], place: usize, ended: bool) -> bool
    requires { place < length stages.now }
    ensures { result ≡ giver_finished S.Operator ended stages.now place }
{
    if place == 0 {
        return ended;
    }
    stages[place - 1].is_finished()
}

/// Gives a page of the source to the first stage; without a stage the page comes back.
pub fn feed<S: TypedOperator>(stages: &mut Vec<S>, page: Page) -> Result<Option<Page>, OpFault>
    requires { first_needs S.Operator stages.old.items ≡ true }
    ensures moved { NotMemory result
        → Moved S.Operator stages.old.items stages.new.items page.rows (gave result) }
    ensures counts { NotMemory result → (X Y : List Row) → Counted S.Operator stages.old.items
        stages.new.items X (X ++ page.rows) Y (Y ++ gave result) (length page.rows) }
    ensures none { 0 < length stages.old.items → IfOk result (λ o. o ≡ None) }
    ensures past { IfOk result (λ o. IfSome o (λ _. length stages.new.items ≡ 0)) }
    ensures fault { (node : ℕ) (kind : Kind) → result ≡ Err (OpFault.Expr node kind)
        → SomeFails S.Operator stages.new.items node kind }
{
    let count = stages.len();
    if count == 0 {
        return Ok(Some(page));
    }
    if !stages[0].expects(&page) {
        return Err(OpFault::Memory);
    }
    match take_in(&mut stages[0], page) {
        Ok(()) => Ok(None),
        Err(fault) => Err(fault),
    }
}

/// Moves a page from a stage to the next one, where that takes one now.
pub fn move_page<S: TypedOperator>(stages: &mut Vec<S>, place: usize) -> Moving
    requires { place + 1 < length stages.old.items }
    ensures moved { NotMemory result.outcome
        → Moved S.Operator stages.old.items stages.new.items [] [] }
    ensures counts { NotMemory result.outcome → (X Y : List Row)
        → Counted S.Operator stages.old.items stages.new.items X X Y Y result.rows }
    ensures len { length stages.new.items ≡ length stages.old.items }
    ensures few { result.rows ≤ most_rows }
    ensures still { IsOk result.outcome → result.rows ≡ 0
        → AreStill S.Operator place stages.old.items
        → AreStill S.Operator (place + 1) stages.new.items }
    ensures fault { (node : ℕ) (kind : Kind) → result.outcome ≡ Err (OpFault.Expr node kind)
        → SomeFails S.Operator stages.new.items node kind }
{
    laws::laws::<S>(PhantomData);
    needs_laws::<S>(PhantomData);
    if !stages[place + 1].needs_input() {
        return Moving {
            rows: 0,
            outcome: Ok(()),
        };
    }
    let page = match give_out(&mut stages[place]) {
        Ok(Some(page)) => page,
        Ok(None) => return Moving {
            rows: 0,
            outcome: Ok(()),
        },
        Err(fault) => return Moving {
            rows: 0,
            outcome: Err(fault),
        },
    };
    if !stages[place + 1].expects(&page) {
        return Moving {
            rows: 0,
            outcome: Err(OpFault::Memory),
        };
    }
    let rows = page.len();
    let outcome = take_in(&mut stages[place + 1], page);
    Moving { rows, outcome }
}

/// Tells a stage to finish, where its giver is finished.
pub fn pass_end<S: TypedOperator>(stages: &mut Vec<S>, place: usize, ended: bool)
    requires { place < length stages.old.items }
    ensures links { (X Y : List Row) → Linked S.Operator stages.old.items X Y
        → Linked S.Operator stages.new.items X Y }
    ensures counts { (X Y : List Row)
        → Counted S.Operator stages.old.items stages.new.items X X Y Y 0 }
    ensures turns { ToldInTurn S.Operator ended stages.old.items
        → ToldInTurn S.Operator ended stages.new.items }
    ensures made { map S.as_made stages.new.items ≡ map S.as_made stages.old.items }
    ensures same { AllStay S.Operator stages.old.items stages.new.items }
    ensures len { length stages.new.items ≡ length stages.old.items }
    ensures still { AreStill S.Operator place stages.old.items
        → AreStill S.Operator place stages.new.items }
{
    needs_laws::<S>(PhantomData);
    if is_giver_finished(stages, place, ended) {
        tell(&mut stages[place]);
    }
}

/// What the last stage gives. Without a stage it is nothing.
pub fn drain<S: TypedOperator>(stages: &mut Vec<S>) -> Result<Option<Page>, OpFault>
    ensures moved { NotMemory result
        → Moved S.Operator stages.old.items stages.new.items [] (gave result) }
    ensures counts { NotMemory result → (X Y : List Row) → Counted S.Operator stages.old.items
        stages.new.items X X Y (Y ++ gave result) (length (gave result)) }
    ensures quiet { IsOk result → length (gave result) ≡ 0
        → AreStill S.Operator (length stages.old.items) stages.old.items
        → IsQuiet S.Operator true stages.new.items }
    ensures fault { (node : ℕ) (kind : Kind) → result ≡ Err (OpFault.Expr node kind)
        → SomeFails S.Operator stages.new.items node kind }
{
    let count = stages.len();
    if count == 0 {
        return Ok(None);
    }
    laws::laws::<S>(PhantomData);
    needs_laws::<S>(PhantomData);
    give_out(&mut stages[count - 1])
}
