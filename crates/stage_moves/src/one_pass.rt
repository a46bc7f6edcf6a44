//! One pass over the stages of a driver: a page comes from the source, pages move on, and one comes out for
//! the target.
ghost use Rattle.std.specs.Prelude.{◌≡◌, ◌↔◌, ◌+◌, ◌++◌, ◌<◌, ◌≤◌, ℕ, List, Bool, true, false, None, Ok, length, IfOk, IfSome, IsOk, IsTrue};
ghost use Rattle.sql_values.specs.declared.fail.Fail.{Fail as Kind};
ghost use Rattle.col_pages.specs.Pages.{most_rows};
ghost use Rattle.operator_core.specs.Rows.{Row};
ghost use Rattle.operator_core.specs.Answers.{NotMemory, gave};
ghost use Rattle.stage_moves.specs.Counts.{Counted};
ghost use Rattle.stage_moves.specs.Moves.{SomeFails};
ghost use Rattle.stage_moves.specs.Passes.{Passed};
ghost use Rattle.stage_moves.specs.Outs.{rows_out};
ghost use Rattle.stage_moves.specs.Quiet.{AreStill, IsQuiet};

use crate::ends::PageSource;
use crate::moves::{Moving, drain, feed, move_page, pass_end, takes_input};
use crate::typed_operator::TypedOperator;
use col_pages::Page;
use operator_core::OpFault;

/// What a pass came to.
#[derive(Drop)]
pub struct Passing {
    /// How many rows entered a stage or go to the target, also where a stage failed on them.
    pub rows: u64,
    /// The page that goes to the target.
    pub outcome: Result<Option<Page>, OpFault>,
}

impl Passing {
    /// Whether it did not fail, has no page for the target, and moved fewer rows than `room`.
    fn goes_on(&self, room: u32) -> bool
        ensures { IsTrue result ↔ ((self.now.outcome ≡ Ok None) × (self.now.rows < room)) }
    {
        matches!(self.outcome, Ok(None)) && self.rows < u64::from(room)
    }
}

/// Feeds a page of the source, where there is one and the first stage takes it. Without a stage the page goes
/// to the target, where that wants one.
pub fn take_page<I: PageSource, S: TypedOperator>(
    source: &mut I,
    stages: &mut Vec<S>,
    wants: bool,
) -> Passing
    ensures passed { NotMemory result.outcome → (Y : List Row) → Passed S.Operator stages.old.items
        stages.new.items (I.taken source.old) (I.taken source.new) Y (Y ++ rows_out result)
        (I.is_ended source.old) (I.is_ended source.new) }
    ensures counts { NotMemory result.outcome → (Y : List Row) → Counted S.Operator stages.old.items
        stages.new.items (I.taken source.old) (I.taken source.new) Y (Y ++ rows_out result)
        result.rows }
    ensures made { I.as_made source.new ≡ I.as_made source.old }
    ensures looks { I.looks source.new ≡ I.looks source.old }
    ensures misses { I.misses source.new ≡ I.misses source.old }
    ensures dues { (bell : ℕ) → I.dues source.new bell ≡ I.dues source.old bell }
    ensures few { result.rows ≤ most_rows }
    ensures out { wants ≡ false → IfOk result.outcome (λ o. o ≡ None) }
    ensures past { IfOk result.outcome (λ o. IfSome o (λ _. length stages.new.items ≡ 0)) }
    ensures fault { (node : ℕ) (kind : Kind) → result.outcome ≡ Err (OpFault.Expr node kind)
        → SomeFails S.Operator stages.new.items node kind }
{
    if source.is_ended() || !takes_input(stages, wants) {
        return Passing {
            rows: 0,
            outcome: Ok(None),
        };
    }
    let page = match source.take() {
        Ok(Some(page)) => page,
        Ok(None) => return Passing {
            rows: 0,
            outcome: Ok(None),
        },
        Err(_) => return Passing {
            rows: 0,
            outcome: Err(OpFault::Memory),
        },
    };
    let rows = u64::from(page.len());
    let outcome = feed(stages, page);
    Passing { rows, outcome }
}

/// Tells a stage where its giver is finished and, where there is room, moves a page from it to the next one.
fn serve_stage<S: TypedOperator>(
    stages: &mut Vec<S>,
    place: usize,
    ended: bool,
    has_room: bool,
) -> Moving
    requires { place < length stages.old.items }
    ensures passed { NotMemory result.outcome → (X Y : List Row)
        → Passed S.Operator stages.old.items stages.new.items X X Y Y ended ended }
    ensures counts { NotMemory result.outcome → (X Y : List Row)
        → Counted S.Operator stages.old.items stages.new.items X X Y Y result.rows }
    ensures fault { (node : ℕ) (kind : Kind) → result.outcome ≡ Err (OpFault.Expr node kind)
        → SomeFails S.Operator stages.new.items node kind }
    ensures len { length stages.new.items ≡ length stages.old.items }
    ensures few { result.rows ≤ most_rows }
    ensures still { has_room ≡ true → IsOk result.outcome → result.rows ≡ 0
        → AreStill S.Operator place stages.old.items
        → AreStill S.Operator (place + 1) stages.new.items }
    ensures none { has_room ≡ false → result.rows ≡ 0 }
{
    pass_end(stages, place, ended);
    if !has_room || place + 1 >= stages.len() {
        return Moving {
            rows: 0,
            outcome: Ok(()),
        };
    }
    move_page(stages, place)
}

/// Moves pages from stage to stage, the first ones first, as long as fewer than `room` rows were moved. Each
/// stage is told to finish where its giver is finished. Nothing goes to the target.
pub fn move_pages<S: TypedOperator>(stages: &mut Vec<S>, ended: bool, room: u32) -> Passing
    ensures passed { NotMemory result.outcome → (X Y : List Row)
        → Passed S.Operator stages.old.items stages.new.items X X Y Y ended ended }
    ensures counts { NotMemory result.outcome → (X Y : List Row)
        → Counted S.Operator stages.old.items stages.new.items X X Y Y result.rows }
    ensures fault { (node : ℕ) (kind : Kind) → result.outcome ≡ Err (OpFault.Expr node kind)
        → SomeFails S.Operator stages.new.items node kind }
    ensures few { result.rows < room + most_rows }
    ensures still { 0 < room → IsOk result.outcome → result.rows ≡ 0
        → AreStill S.Operator (length stages.new.items) stages.new.items }
    ensures out { IfOk result.outcome (λ o. o ≡ None) }
{
    let mut moved: u64 = 0;
    for place in 0..stages.len() {
        let Moving { rows, outcome } = serve_stage(stages, place, ended, moved < u64::from(room));
        moved += u64::from(rows);
        match outcome {
            Ok(()) => {}
            Err(fault) => return Passing {
                rows: moved,
                outcome: Err(fault),
            },
        }
    }
    Passing {
        rows: moved,
        outcome: Ok(None),
    }
}

/// How many rows a page has that goes to the target.
fn out_len(out: &Result<Option<Page>, OpFault>) -> u64
    ensures len { result ≡ length (gave out.now) }
    ensures few { result ≤ most_rows }
{
    match out {
        Ok(Some(page)) => u64::from(page.len()),
        Ok(None) | Err(_) => 0,
    }
}

/// The page that the last stage gives, where there is one and the target wants it.
pub fn give_page<S: TypedOperator>(stages: &mut Vec<S>, wants: bool) -> Passing
    ensures passed { NotMemory result.outcome → (X Y : List Row) (ended : Bool)
        → Passed S.Operator stages.old.items stages.new.items X X Y (Y ++ rows_out result)
        ended ended }
    ensures counts { NotMemory result.outcome → (X Y : List Row) → Counted S.Operator stages.old.items
        stages.new.items X X Y (Y ++ rows_out result) result.rows }
    ensures few { result.rows ≤ most_rows }
    ensures out { wants ≡ false → IfOk result.outcome (λ o. o ≡ None) }
    ensures quiet { IsOk result.outcome → result.rows ≡ 0
        → AreStill S.Operator (length stages.old.items) stages.old.items
        → IsQuiet S.Operator wants stages.new.items }
    ensures fault { (node : ℕ) (kind : Kind) → result.outcome ≡ Err (OpFault.Expr node kind)
        → SomeFails S.Operator stages.new.items node kind }
{
    if !wants {
        return Passing {
            rows: 0,
            outcome: Ok(None),
        };
    }
    let outcome = drain(stages);
    Passing {
        rows: out_len(&outcome),
        outcome,
    }
}

/// A page of the source is fed, pages move on, and one comes out for the target, where that wants one. No move
/// begins once `room` rows were moved.
pub fn pass<I: PageSource, S: TypedOperator>(
    source: &mut I,
    stages: &mut Vec<S>,
    wants: bool,
    room: u32,
) -> Passing
    ensures passed { NotMemory result.outcome → (Y : List Row) → Passed S.Operator stages.old.items
        stages.new.items (I.taken source.old) (I.taken source.new) Y (Y ++ rows_out result)
        (I.is_ended source.old) (I.is_ended source.new) }
    ensures counts { NotMemory result.outcome → (Y : List Row) → Counted S.Operator stages.old.items
        stages.new.items (I.taken source.old) (I.taken source.new) Y (Y ++ rows_out result)
        result.rows }
    ensures made { I.as_made source.new ≡ I.as_made source.old }
    ensures looks { I.looks source.new ≡ I.looks source.old }
    ensures misses { I.misses source.new ≡ I.misses source.old }
    ensures dues { (bell : ℕ) → I.dues source.new bell ≡ I.dues source.old bell }
    ensures few { 0 < room → result.rows < room + most_rows }
    ensures out { wants ≡ false → IfOk result.outcome (λ o. o ≡ None) }
    ensures quiet { 0 < room → IsOk result.outcome → result.rows ≡ 0
        → IsQuiet S.Operator wants stages.new.items }
    ensures fault { (node : ℕ) (kind : Kind) → result.outcome ≡ Err (OpFault.Expr node kind)
        → SomeFails S.Operator stages.new.items node kind }
{
    let taken = take_page(source, stages, wants);
    if !taken.goes_on(room) {
        return taken;
    }
    let Passing { rows, outcome } = move_pages(stages, source.is_ended(), room - taken.rows as u32);
    let moved = Passing {
        rows: taken.rows + rows,
        outcome,
    };
    if !moved.goes_on(room) {
        return moved;
    }
    let given = give_page(stages, wants);
    Passing {
        rows: moved.rows + given.rows,
        outcome: given.outcome,
    }
}
