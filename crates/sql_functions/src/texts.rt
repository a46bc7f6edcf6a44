ghost use Rattle.std.specs.Prelude.{◌≡◌, ◌<◌, ◌^◌, ◌+◌, length, chars, pos, MatchResult};
ghost use Rattle.sql_values.specs.Cells.{lent_value};
ghost use Rattle.sql_functions.specs.Outcomes.{FailsBy};
ghost use Rattle.sql_functions.specs.TextCalls.{concat_of, joined, length_of};

use sql_values::{EvalFault, Fail, LONGEST_TEXT, Text, Value, ValueRef};
use std::alloc::Global;

/// How many code points a text has.
#[tactic(auto, using(std::proofs::lemmas::Str::chars_from_encodes))]
fn code_points(text: &str) -> usize
    ensures count { result ≡ length (chars text.now) }
    ensures bound { result < 2 ^ 63 }
{
    text.chars().count()
}

fn count_of(text: &str) -> i64
    ensures { result ≡ pos (length (chars text.now)) }
{
    code_points(text) as i64
}

pub fn length(value: ValueRef<'_>) -> Value
    ensures { result ≡ length_of (lent_value value.entry) }
{
    match value {
        ValueRef::Varchar(text) => Value::Bigint(count_of(text)),
        _ => Value::Null,
    }
}

fn join(alloc: Global, a: &str, b: &str) -> Result<Value, EvalFault>
    ensures { MatchResult result (λ v. joined a.now b.now ≡ Ok v) (FailsBy (joined a.now b.now)) }
{
    if a.len() > LONGEST_TEXT || LONGEST_TEXT - a.len() < b.len() {
        return Err(EvalFault::Fail(Fail::TextTooLong));
    }
    let mut text = String::from_str(alloc, a)?;
    text.push_str(b)?;
    Ok(Value::Varchar(Text::of(text)))
}

pub fn concat(alloc: Global, a: ValueRef<'_>, b: ValueRef<'_>) -> Result<Value, EvalFault>
    ensures { MatchResult result (λ v. concat_of (lent_value a.entry) (lent_value b.entry) ≡ Ok v) (FailsBy (concat_of (lent_value a.entry) (lent_value b.entry))) }
{
    match (a, b) {
        (ValueRef::Varchar(a), ValueRef::Varchar(b)) => join(alloc, a, b),
        _ => Ok(Value::Null),
    }
}
