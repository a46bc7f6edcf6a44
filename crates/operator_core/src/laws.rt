//! What follows from the promises of operators for a list of them, one after the other.
ghost use Rattle.std.specs.Prelude.{◌≡◌, ℕ, ◌<◌, List, Bool, true, length, get_or, take, map};
ghost use Rattle.sql_values.specs.declared.fail.Fail.{Fail as Kind};
ghost use Rattle.operator_core.specs.Rows.{Row, Coming};
ghost use Rattle.operator_core.specs.Calls.{IsLawful, FailsNow};
ghost use Rattle.operator_core.specs.Stages.{Linked, ToldInTurn, last_finished, Chain, Follows, AreMadeOf, GoesOn, FailsAfter};

use crate::Operator;
use std::marker::PhantomData;

/// The laws of an operator, as one fact.
pub fn laws<O: Operator>(_of: PhantomData<O>)
    ensures { IsLawful O.Operator }
{}

/// Whatever rows still come, what the stages of a pipeline may still give continues what they gave
/// to what they, as they were made, may give for all the rows.
pub fn follows<O: Operator>(stages: &[O])
    ensures { (ended : Bool) (X Y : List Row) → ToldInTurn O.Operator ended stages.now
        → Linked O.Operator stages.now X Y → Follows O.Operator stages.now X Y }
{
    laws::<O>(PhantomData);
}

/// Where the last stage is finished, the source had ended, and what the stages gave is what they,
/// as they were made, may give for the rows that came. Nothing of it fails.
pub fn finished<O: Operator>(stages: &[O])
    ensures { (ended : Bool) (X Y : List Row) → ToldInTurn O.Operator ended stages.now
        → last_finished O.Operator ended stages.now ≡ true → Linked O.Operator stages.now X Y
        → (ended ≡ true) × Chain O.Operator true (map O.as_made stages.now) X Y }
{
    laws::<O>(PhantomData);
}

/// Whatever rows still come, and whatever the notes come to know, the stages can go on from what
/// they gave; and they give no more once the last is finished.
pub fn can_go_on<O: Operator>(stages: &[O])
    ensures { (ended : Bool) (made : List O) (X Y Z : List Row)
        → AreMadeOf O.Operator stages.now made → ToldInTurn O.Operator ended stages.now
        → Linked O.Operator stages.now X Y → Coming ended Z
        → GoesOn O.Operator made X Y Z (last_finished O.Operator ended stages.now) }
{
    laws::<O>(PhantomData);
}

/// A failure comes from what the stages before gave, whatever rows still come.
pub fn failure<O: Operator>(stages: &[O])
    ensures { (ended : Bool) (i : ℕ) (s : O) (X Y : List Row) (node : ℕ) (kind : Kind)
        → i < length stages.now → s ≡ get_or stages.now i s → ToldInTurn O.Operator ended stages.now
        → Linked O.Operator stages.now X Y → FailsNow O.Operator s node kind
        → FailsAfter O.Operator (take i stages.now) (O.as_made s) ended X node kind }
{}
