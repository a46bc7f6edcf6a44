//! LIKE by outside rows, and each public call of `sql_functions` once.
use sql_functions::{
    CallName, binary, call_type, can_cast, cast, takes_types, truth_and, truth_or, unary,
};
use sql_values::{EvalFault, Fail, SqlType, Value, ValueRef};
use std::alloc::Global;

const TEXT: SqlType = SqlType::Varchar;

const WHOLE: SqlType = SqlType::Bigint;

/// A text, a pattern, and whether the pattern matches the text.
const LIKES: &str = "|%é|false\n\
|日%|false\n\
%|é_|false\n\
_|_é|false\n\
a|%é|false\n\
a|日%|false\n\
a%b|é_|false\n\
a\\b|_é|false\n\
aaa|%é|false\n\
aaa|日%|false\n\
ab|é_|false\n\
abab|_é|false\n\
abc|%é|false\n\
abc|日%|false\n\
aé|%%|true\n\
aé|%a%a%|false\n\
aé|%b|false\n\
aé|_|false\n\
aé|a|false\n\
aé|a\\%|false\n\
aé|日%|false\n\
é|%%|true\n\
é|%a%a%|false\n\
é|%b|false\n\
é|___|false\n\
é|a|false\n\
é|a\\%|false\n\
é|é_|false\n\
日本|%|true\n\
日本|%a|false\n\
|%%|true\n\
|%b|false\n\
|a|false\n\
%||false\n\
%|%ab%|false\n\
%|__|false\n\
%|a\\b|false\n\
_|%a|false\n\
_|_|true\n\
_|a%|false\n\
a|%|true\n\
a|%b|false\n\
a|a|true\n\
a%b||false\n\
a%b|%ab%|false\n\
a%b|__|false\n\
a%b|a\\%|false\n\
a\\b|%_|true\n\
a\\b|A%|false\n\
a\\b|a|false\n\
aaa|%%|true\n\
aaa|A%|false\n\
aaa|a%b|false\n\
ab|%%|true\n\
ab|%b|true\n\
ab|a%b|true\n\
abab|%%|true\n\
abab|_|false\n\
abab|a%|true\n\
abc|%%|true";

fn is_like(alloc: Global, text: &str, pattern: &str) -> Result<bool, EvalFault> {
    let text = ValueRef::Varchar(text);
    let pattern = ValueRef::Varchar(pattern);
    let value = binary(alloc, CallName::Like, TEXT, text, TEXT, pattern)?;
    Ok(matches!(value, Value::Boolean(true)))
}

fn like_holds(alloc: Global, line: &str) -> Result<bool, EvalFault> {
    let Some((text, rest)) = line.split_once('|') else {
        return Ok(false);
    };
    match rest.split_once('|') {
        Some((pattern, "true")) => is_like(alloc, text, pattern),
        Some((pattern, "false")) => Ok(!is_like(alloc, text, pattern)?),
        _ => Ok(false),
    }
}

/// How many lines there are, up to the first that does not hold.
fn likes_that_hold(alloc: Global, lines: &str) -> Result<u32, EvalFault> {
    let mut count = 0u32;
    for line in lines.lines() {
        if !like_holds(alloc, line)? {
            return Ok(count);
        }
        count = count.saturating_add(1);
    }
    Ok(count)
}

#[test]
fn patterns_match_whole_texts(rt: HostRuntime) -> Result<(), EvalFault> {
    assert!(rt; likes_that_hold(rt.alloc(), LIKES)? == 60);
    Ok(())
}

fn least_modulo_minus_one(alloc: Global) -> Result<bool, EvalFault> {
    let least = ValueRef::Bigint(i64::MIN);
    let minus_one = ValueRef::Bigint(-1);
    let rest = binary(alloc, CallName::Modulo, WHOLE, least, WHOLE, minus_one)?;
    Ok(matches!(rest, Value::Bigint(0)))
}

fn least_has_no_opposite() -> bool {
    let opposite = unary(CallName::Neg, WHOLE, ValueRef::Bigint(i64::MIN));
    matches!(opposite, Err(Fail::OutOfRange))
}

#[test]
fn least_numbers(rt: HostRuntime) -> Result<(), EvalFault> {
    assert!(rt; least_modulo_minus_one(rt.alloc())?);
    assert!(rt; least_has_no_opposite());
    Ok(())
}

fn cast_to_whole(alloc: Global) -> Result<bool, EvalFault> {
    let price = SqlType::Decimal { p: 3, s: 1 };
    let value = cast(alloc, price, WHOLE, ValueRef::Decimal(-25))?;
    Ok(matches!(value, Value::Bigint(-3)))
}

fn cast_to_text(alloc: Global) -> Result<bool, EvalFault> {
    let price = SqlType::Decimal { p: 3, s: 1 };
    let value = cast(alloc, price, TEXT, ValueRef::Decimal(-25))?;
    Ok(matches!(&value, Value::Varchar(text) if text.as_str() == "-2.5"))
}

#[test]
fn casts_round(rt: HostRuntime) -> Result<(), EvalFault> {
    assert!(rt; cast_to_whole(rt.alloc())?);
    assert!(rt; cast_to_text(rt.alloc())?);
    Ok(())
}

#[test]
fn types_of_calls(rt: HostRuntime) {
    let price = SqlType::Decimal { p: 12, s: 2 };
    let rate = SqlType::Decimal { p: 5, s: 4 };
    let product = call_type(CallName::Multiply, price, rate);
    assert!(rt; product == SqlType::Decimal { p: 17, s: 6 });
    assert!(rt; takes_types(CallName::Add, &[price, rate]));
    assert!(rt; !takes_types(CallName::Add, &[price, WHOLE]));
    assert!(rt; can_cast(price, WHOLE) && !can_cast(WHOLE, SqlType::Date));
}

fn null_and_false() -> bool {
    let both = truth_and(ValueRef::Null, ValueRef::Boolean(false));
    matches!(both, Value::Boolean(false))
}

fn null_or_false() -> bool {
    let either = truth_or(ValueRef::Null, ValueRef::Boolean(false));
    matches!(either, Value::Null)
}

#[test]
fn null_in_truth_tables(rt: HostRuntime) {
    assert!(rt; null_and_false() && null_or_false());
}
