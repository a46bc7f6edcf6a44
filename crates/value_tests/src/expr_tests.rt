//! Expressions: their values, and their failures.
use crate::expr_cases::{CASTS, LIKES, OF_PAIRS, OF_SINGLES, PAIRS, SINGLES};
use CallName::{Add, And, Coalesce, Divide, IsNull, Like, Neg, Or};
use sql_exprs::{Branch, CallName, Expr, TypeFault, copy_expr, eval_row, is_calm, typed};
use sql_values::{
    EvalFault, Fail, Memory, Row, SqlType, Value, parse_type, parse_value, print_value,
};
use std::alloc::Global;

pub(crate) const TRUTH: SqlType = SqlType::Boolean;

pub(crate) const WHOLE: SqlType = SqlType::Bigint;

pub(crate) const DATE: SqlType = SqlType::Date;

pub(crate) const DEC_2_1: SqlType = SqlType::Decimal { p: 2, s: 1 };

/// NULL for the text NULL.
pub(crate) fn literal(alloc: Global, kind: SqlType, text: &str) -> Result<Expr, Memory> {
    if text == "NULL" {
        return Ok(Expr::Null(kind));
    }
    match parse_value(alloc, kind, text) {
        Ok(value) => Ok(Expr::Literal { kind, value }),
        Err(_) => Err(Memory),
    }
}

/// The literal that a line writes as its type and its text.
fn written(alloc: Global, text: &str) -> Result<Expr, Memory> {
    let Some((kind, value)) = text.split_once(' ') else {
        return Err(Memory);
    };
    match parse_type(kind) {
        Some(kind) => literal(alloc, kind, value),
        None => Err(Memory),
    }
}

pub(crate) fn unary(alloc: Global, name: CallName, arg: Expr) -> Result<Expr, Memory> {
    let mut args = Vec::new(alloc);
    args.push(arg)?;
    Ok(Expr::Call { name, args })
}

pub(crate) fn binary(
    alloc: Global,
    name: CallName,
    left: Expr,
    right: Expr,
) -> Result<Expr, Memory> {
    let mut args = Vec::new(alloc);
    args.push(left)?;
    args.push(right)?;
    Ok(Expr::Call { name, args })
}

pub(crate) fn name_of(fail: Fail) -> &'static str {
    match fail {
        Fail::OutOfRange => "OutOfRange",
        Fail::DivisionByZero => "DivisionByZero",
        Fail::BadCast => "BadCast",
        Fail::TextTooLong => "TextTooLong",
    }
}

fn printed(alloc: Global, kind: SqlType, value: &Value, wanted: &str) -> Result<bool, Memory> {
    if matches!(value, Value::Null) {
        return Ok(wanted == "NULL");
    }
    let mut bytes = Vec::new(alloc);
    print_value(kind, value.as_ref(), &mut bytes)?;
    Ok(bytes.as_slice() == wanted.as_bytes())
}

/// Whether the expression of a type has the value of this text, NULL, or the failure of this name.
fn has_value(alloc: Global, kind: SqlType, expr: &Expr, wanted: &str) -> Result<bool, Memory> {
    match eval_row(alloc, expr, &[], &Row::of(Vec::new(alloc))) {
        Ok(value) => printed(alloc, kind, &value, wanted),
        Err(EvalFault::Fail(fail)) => Ok(name_of(fail) == wanted),
        Err(EvalFault::Memory) => Err(Memory),
    }
}

/// The same, or whether it has no type.
fn gives(alloc: Global, expr: &Expr, wanted: &str) -> Result<bool, Memory> {
    match typed(alloc, expr, &[]) {
        Ok(kind) => has_value(alloc, kind, expr, wanted),
        Err(TypeFault::Refused(_)) => Ok(wanted == "no type"),
        Err(TypeFault::Memory) => Err(Memory),
    }
}

fn push_written(alloc: Global, args: &mut Vec<Expr>, text: &str) -> Result<(), Memory> {
    args.push(written(alloc, text)?)?;
    Ok(())
}

/// The call of the arguments that a line writes, a `|` between them.
fn call(alloc: Global, name: CallName, texts: &str) -> Result<Expr, Memory> {
    let mut args = Vec::new(alloc);
    for text in texts.split('|') {
        push_written(alloc, &mut args, text)?;
    }
    Ok(Expr::Call { name, args })
}

/// Whether a call gives what the line wants behind its arguments.
fn call_holds(alloc: Global, name: CallName, line: &str) -> Result<bool, Memory> {
    let Some((args, wanted)) = line.rsplit_once('|') else {
        return Ok(false);
    };
    let expr = call(alloc, name, args)?;
    gives(alloc, &expr, wanted)
}

/// How many lines of a call hold.
fn lines_that_hold(alloc: Global, name: CallName, lines: &str) -> Result<u32, Memory> {
    let mut count = 0u32;
    for line in lines.lines() {
        if call_holds(alloc, name, line)? {
            count = count.saturating_add(1);
        }
    }
    Ok(count)
}

/// How many lines of all calls hold.
fn calls_that_hold(alloc: Global, names: &[CallName], lines: &str) -> Result<u32, Memory> {
    let mut count = 0u32;
    for (name, lines) in names.iter().zip(lines.split('#')) {
        count = count.saturating_add(lines_that_hold(alloc, *name, lines)?);
    }
    Ok(count)
}

#[test]
fn calls_of_two(rt: HostRuntime) -> Result<(), Memory> {
    assert!(rt; calls_that_hold(rt.alloc(), &PAIRS, OF_PAIRS)? == 44);
    Ok(())
}

#[test]
fn calls_of_one(rt: HostRuntime) -> Result<(), Memory> {
    assert!(rt; calls_that_hold(rt.alloc(), &SINGLES, OF_SINGLES)? == 14);
    Ok(())
}

fn cast(alloc: Global, from: &str, kind: SqlType) -> Result<Expr, Memory> {
    let arg = Box::new(alloc, written(alloc, from)?)?;
    Ok(Expr::Cast { arg, kind })
}

fn cast_gives(alloc: Global, from: &str, kind: SqlType, wanted: &str) -> Result<bool, Memory> {
    let expr = cast(alloc, from, kind)?;
    gives(alloc, &expr, wanted)
}

/// Whether a cast gives what the line wants.
fn cast_holds(alloc: Global, line: &str) -> Result<bool, Memory> {
    let Some((from, rest)) = line.split_once('|') else {
        return Ok(false);
    };
    let Some((to, wanted)) = rest.split_once('|') else {
        return Ok(false);
    };
    match parse_type(to) {
        Some(kind) => cast_gives(alloc, from, kind, wanted),
        None => Ok(false),
    }
}

/// How many lines there are, up to the first that does not hold.
fn casts_that_hold(alloc: Global, lines: &str) -> Result<u32, Memory> {
    let mut count = 0u32;
    for line in lines.lines() {
        if !cast_holds(alloc, line)? {
            return Ok(count);
        }
        count = count.saturating_add(1);
    }
    Ok(count)
}

#[test]
fn casts(rt: HostRuntime) -> Result<(), Memory> {
    assert!(rt; casts_that_hold(rt.alloc(), CASTS)? == 32);
    Ok(())
}

fn push_text(alloc: Global, args: &mut Vec<Expr>, text: &str) -> Result<(), Memory> {
    args.push(literal(alloc, SqlType::Varchar, text)?)?;
    Ok(())
}

/// The text and the pattern of a line.
fn like(alloc: Global, texts: &str) -> Result<Expr, Memory> {
    let mut args = Vec::new(alloc);
    for text in texts.split('|') {
        push_text(alloc, &mut args, text)?;
    }
    Ok(Expr::Call { name: Like, args })
}

/// Whether a text is like a pattern where the line wants it.
fn like_holds(alloc: Global, line: &str) -> Result<bool, Memory> {
    let Some((texts, wanted)) = line.rsplit_once('|') else {
        return Ok(false);
    };
    let expr = like(alloc, texts)?;
    gives(alloc, &expr, wanted)
}

/// How many lines there are, up to the first that does not hold.
fn likes_that_hold(alloc: Global, lines: &str) -> Result<u32, Memory> {
    let mut count = 0u32;
    for line in lines.lines() {
        if !like_holds(alloc, line)? {
            return Ok(count);
        }
        count = count.saturating_add(1);
    }
    Ok(count)
}

#[test]
fn likes(rt: HostRuntime) -> Result<(), Memory> {
    assert!(rt; likes_that_hold(rt.alloc(), LIKES)? == 30);
    Ok(())
}

/// A call of a name on the letters' truths, and what is wanted; a `#` between the names.
const DECIDED: [CallName; 3] = [And, Or, Coalesce];

const LETTERS: &str = "FX|false\n\
XF|DivisionByZero\n\
NX|DivisionByZero\n\
NF|false\n\
NT|NULL\n\
TTT|true\n\
T|no type\n\
#TX|true\n\
XT|DivisionByZero\n\
NX|DivisionByZero\n\
NT|true\n\
NF|NULL\n\
FFF|false\n\
#NTX|true\n\
XT|DivisionByZero\n\
NN|NULL";

fn failing(alloc: Global) -> Result<Expr, Memory> {
    call(alloc, Divide, "bigint 1|bigint 0")
}

/// TRUE, FALSE, NULL, or a test that divides by zero.
fn truth(alloc: Global, letter: u8) -> Result<Expr, Memory> {
    match letter {
        b'T' => literal(alloc, TRUTH, "true"),
        b'F' => literal(alloc, TRUTH, "false"),
        b'N' => literal(alloc, TRUTH, "NULL"),
        _ => unary(alloc, IsNull, failing(alloc)?),
    }
}

fn push_truth(alloc: Global, args: &mut Vec<Expr>, letter: u8) -> Result<(), Memory> {
    args.push(truth(alloc, letter)?)?;
    Ok(())
}

fn decided(alloc: Global, name: CallName, letters: &str) -> Result<Expr, Memory> {
    let mut args = Vec::new(alloc);
    for letter in letters.as_bytes() {
        push_truth(alloc, &mut args, *letter)?;
    }
    Ok(Expr::Call { name, args })
}

fn letters_hold(alloc: Global, name: CallName, line: &str) -> Result<bool, Memory> {
    let Some((letters, wanted)) = line.split_once('|') else {
        return Ok(false);
    };
    let expr = decided(alloc, name, letters)?;
    gives(alloc, &expr, wanted)
}

/// How many lines of letters hold.
fn letters_that_hold(alloc: Global, name: CallName, lines: &str) -> Result<u32, Memory> {
    let mut count = 0u32;
    for line in lines.lines() {
        if letters_hold(alloc, name, line)? {
            count = count.saturating_add(1);
        }
    }
    Ok(count)
}

/// How many lines of letters hold, of all names.
fn decided_that_hold(alloc: Global, lines: &str) -> Result<u32, Memory> {
    let mut count = 0u32;
    for (name, lines) in DECIDED.iter().zip(lines.split('#')) {
        count = count.saturating_add(letters_that_hold(alloc, *name, lines)?);
    }
    Ok(count)
}

#[test]
fn arguments_after_the_deciding_one(rt: HostRuntime) -> Result<(), Memory> {
    assert!(rt; decided_that_hold(rt.alloc(), LETTERS)? == 16);
    Ok(())
}

/// The tests of two branches by their letters, the place of the result that fails, and what is wanted.
const CHOICES: &str = "FT 0 2\n\
TX 1 1\n\
NT 0 2\n\
NF 0 3\n\
XT 0 DivisionByZero\n\
FT 1 DivisionByZero";

/// The first result is 1 and the second 2, but for one that fails.
fn result_at(alloc: Global, at: usize, fails: bool) -> Result<Expr, Memory> {
    if fails {
        return failing(alloc);
    }
    literal(alloc, WHOLE, if at == 0 { "1" } else { "2" })
}

fn branch(alloc: Global, at: usize, letter: u8, fails: bool) -> Result<Branch, Memory> {
    let test = truth(alloc, letter)?;
    let result = result_at(alloc, at, fails)?;
    Ok(Branch { test, result })
}

fn branches(alloc: Global, tests: &[u8], failing_place: usize) -> Result<Vec<Branch>, Memory> {
    let mut branches = Vec::new(alloc);
    for (at, letter) in tests.iter().enumerate() {
        branches.push(branch(alloc, at, *letter, at == failing_place)?)?;
    }
    Ok(branches)
}

pub(crate) fn case_of(
    alloc: Global,
    branches: Vec<Branch>,
    kind: SqlType,
    other: &str,
) -> Result<Expr, Memory> {
    let other = Box::new(alloc, literal(alloc, kind, other)?)?;
    Ok(Expr::Case { branches, other })
}

/// A case of two branches, else 3.
fn case(alloc: Global, tests: &str, failing_place: usize) -> Result<Expr, Memory> {
    let branches = branches(alloc, tests.as_bytes(), failing_place)?;
    case_of(alloc, branches, WHOLE, "3")
}

/// Whether a case gives what is wanted, and is not calm.
fn case_gives(alloc: Global, tests: &str, place: usize, wanted: &str) -> Result<bool, Memory> {
    let expr = case(alloc, tests, place)?;
    Ok(!is_calm(&expr) && gives(alloc, &expr, wanted)?)
}

fn case_holds(alloc: Global, line: &str) -> Result<bool, Memory> {
    let Some((tests, rest)) = line.split_once(' ') else {
        return Ok(false);
    };
    match rest.split_once(' ') {
        Some(("0", wanted)) => case_gives(alloc, tests, 0, wanted),
        Some(("1", wanted)) => case_gives(alloc, tests, 1, wanted),
        _ => Ok(false),
    }
}

/// How many lines there are, up to the first that does not hold.
fn cases_that_hold(alloc: Global, lines: &str) -> Result<u32, Memory> {
    let mut count = 0u32;
    for line in lines.lines() {
        if !case_holds(alloc, line)? {
            return Ok(count);
        }
        count = count.saturating_add(1);
    }
    Ok(count)
}

#[test]
fn cases_evaluate_what_they_choose(rt: HostRuntime) -> Result<(), Memory> {
    assert!(rt; cases_that_hold(rt.alloc(), CHOICES)? == 6);
    Ok(())
}

fn overflow(alloc: Global) -> Result<Expr, Memory> {
    call(alloc, Neg, "bigint -9223372036854775808")
}

fn added(alloc: Global, left: Expr, right: Result<Expr, Memory>) -> Result<Expr, Memory> {
    binary(alloc, Add, left, right?)
}

fn overflow_then_failing(alloc: Global) -> Result<bool, Memory> {
    let expr = added(alloc, overflow(alloc)?, failing(alloc))?;
    gives(alloc, &expr, "OutOfRange")
}

/// The sum with a copy of an expression that fails as well.
fn failing_then(alloc: Global, second: &Expr) -> Result<bool, Memory> {
    let expr = added(alloc, failing(alloc)?, copy_expr(alloc, second))?;
    gives(alloc, &expr, "DivisionByZero")
}

fn failing_then_overflow(alloc: Global) -> Result<bool, Memory> {
    let expr = added(alloc, overflow(alloc)?, failing(alloc))?;
    failing_then(alloc, &expr)
}

#[test]
fn the_first_failure_counts(rt: HostRuntime) -> Result<(), Memory> {
    assert!(rt; overflow_then_failing(rt.alloc())?);
    assert!(rt; failing_then_overflow(rt.alloc())?);
    Ok(())
}
