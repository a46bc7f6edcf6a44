//! Values, types and rows: their texts, their order and their buckets.
use sql_values::{
    KeySpec, Memory, Order, ParseFault, Row, SqlType, Value, ValueRef, bucket, compare_rows,
    parse_type, parse_value, print_type, print_value,
};
use std::alloc::Global;
use std::cmp::Ordering;

pub(crate) const PRICE: SqlType = SqlType::Decimal { p: 12, s: 2 };

/// A type, a text, and the text that is printed of the value.
const VALUES: &str = "boolean|TRUE|true\n\
bigint|-0007|-7\n\
decimal(12,2)|5|5.00\n\
varchar|Zürich, 8001|Zürich, 8001\n\
varchar||\n\
date|1998-09-02|1998-09-02";

/// A type, and a text that is none of its values.
const NO_VALUES: &str = "boolean|yes\n\
bigint|1x\n\
decimal(12,2)|0.125\n\
date|2023-02-29\n\
date|10000-01-01\n\
date|";

const TYPES: &str = "boolean|bigint|decimal(12,2)|decimal(38,38)|decimal(1,0)|varchar|date";

const NO_TYPES: &str =
    "|Date|text|decimal|decimal()|decimal(0,0)|decimal(39,0)|decimal(2,3)|decimal(02,1)|decimal(12,00)|decimal(12, 2)|decimal(12,2) |decimal(1,1,1)";

/// A type, a text, the number of buckets and the bucket. A word that is no type stands for NULL.
const BUCKETS: &str = "null||7|3\n\
null||4|3\n\
bigint|0|4|0\n\
bigint|1|4|1\n\
bigint|2|4|2\n\
bigint|3|4|3\n\
bigint|-1|4|0\n\
varchar|x|4|3\n\
boolean|true|4|3\n\
date|1970-01-02|4|1\n\
bigint|12345|7|4\n\
bigint|-1|7|6\n\
decimal(38,0)|-99999999999999999999999999999999999999|7|6\n\
varchar|a longer text, with a comma|7|6\n\
varchar||7|2\n\
date|0001-01-01|7|2";

fn prints(alloc: Global, kind: SqlType, value: ValueRef<'_>, text: &str) -> Result<bool, Memory> {
    let mut bytes = Vec::new(alloc);
    print_value(kind, value, &mut bytes)?;
    Ok(bytes.as_slice() == text.as_bytes())
}

/// The same value, of a copy.
fn prints_copy(alloc: Global, kind: SqlType, value: &Value, text: &str) -> Result<bool, Memory> {
    let copy = value.copy(alloc)?;
    prints(alloc, kind, copy.as_ref(), text)
}

fn reads_as(alloc: Global, kind: SqlType, text: &str, printed: &str) -> Result<bool, ParseFault> {
    let value = parse_value(alloc, kind, text)?;
    Ok(prints_copy(alloc, kind, &value, printed)?)
}

fn value_holds(alloc: Global, line: &str) -> Result<bool, ParseFault> {
    let Some((kind, rest)) = line.split_once('|') else {
        return Ok(false);
    };
    let Some((text, printed)) = rest.split_once('|') else {
        return Ok(false);
    };
    match parse_type(kind) {
        Some(kind) => reads_as(alloc, kind, text, printed),
        None => Ok(false),
    }
}

/// How many lines there are, up to the first that does not hold.
fn values_that_hold(alloc: Global, lines: &str) -> Result<u32, ParseFault> {
    let mut count = 0u32;
    for line in lines.lines() {
        if !value_holds(alloc, line)? {
            return Ok(count);
        }
        count = count.saturating_add(1);
    }
    Ok(count)
}

#[test]
fn values_read_and_print(rt: HostRuntime) -> Result<(), ParseFault> {
    assert!(rt; values_that_hold(rt.alloc(), VALUES)? == 6);
    Ok(())
}

fn is_refused(alloc: Global, line: &str) -> bool {
    let Some((kind, text)) = line.split_once('|') else {
        return false;
    };
    match parse_type(kind) {
        Some(kind) => matches!(parse_value(alloc, kind, text), Err(ParseFault::Malformed)),
        None => false,
    }
}

/// How many lines there are, up to the first that is a value.
fn refused(alloc: Global, lines: &str) -> u32 {
    let mut count = 0u32;
    for line in lines.lines() {
        if !is_refused(alloc, line) {
            return count;
        }
        count = count.saturating_add(1);
    }
    count
}

#[test]
fn texts_that_are_no_values(rt: HostRuntime) {
    assert!(rt; refused(rt.alloc(), NO_VALUES) == 6);
}

fn names_a_type(alloc: Global, text: &str) -> Result<bool, Memory> {
    let Some(kind) = parse_type(text) else {
        return Ok(false);
    };
    let mut bytes = Vec::new(alloc);
    print_type(kind, &mut bytes)?;
    Ok(bytes.as_slice() == text.as_bytes())
}

/// How many texts there are, up to the first that names no type or is printed otherwise.
fn types_that_hold(alloc: Global, texts: &str) -> Result<u32, Memory> {
    let mut count = 0u32;
    for text in texts.split('|') {
        if !names_a_type(alloc, text)? {
            return Ok(count);
        }
        count = count.saturating_add(1);
    }
    Ok(count)
}

#[test]
fn types_read_and_print(rt: HostRuntime) -> Result<(), Memory> {
    assert!(rt; types_that_hold(rt.alloc(), TYPES)? == 7);
    Ok(())
}

/// How many texts there are, up to the first that names a type.
fn no_types(texts: &str) -> u32 {
    let mut count = 0u32;
    for text in texts.split('|') {
        if parse_type(text).is_some() {
            return count;
        }
        count = count.saturating_add(1);
    }
    count
}

#[test]
fn texts_that_are_no_types(rt: HostRuntime) {
    assert!(rt; no_types(NO_TYPES) == 13);
}

pub(crate) fn row(alloc: Global, values: &[ValueRef<'_>]) -> Result<Row, Memory> {
    let mut owned = Vec::new(alloc);
    for value in values {
        owned.push(value.to_value(alloc)?)?;
    }
    Ok(Row::of(owned))
}

/// The second column from the greatest down, then the first from the least up.
fn compared(a: &Row, b: &Row) -> Ordering {
    let keys = [
        KeySpec {
            column: 1,
            order: Order::Descending,
        },
        KeySpec {
            column: 0,
            order: Order::Ascending,
        },
    ];
    compare_rows(&keys, a, b)
}

fn compared_with(alloc: Global, a: &Row, b: &[ValueRef<'_>]) -> Result<Ordering, Memory> {
    let b = row(alloc, b)?;
    Ok(compared(a, &b))
}

fn compared_rows(
    alloc: Global,
    a: &[ValueRef<'_>],
    b: &[ValueRef<'_>],
) -> Result<Ordering, Memory> {
    let a = row(alloc, a)?;
    compared_with(alloc, &a, b)
}

fn compared_with_copy(alloc: Global, a: &Row) -> Result<Ordering, Memory> {
    let copy = a.copy(alloc)?;
    Ok(compared(a, &copy))
}

fn short_and_copy(alloc: Global) -> Result<Ordering, Memory> {
    let short = row(alloc, &[ValueRef::Bigint(2), ValueRef::Varchar("ab")])?;
    compared_with_copy(alloc, &short)
}

#[test]
fn rows_compare(rt: HostRuntime) -> Result<(), Memory> {
    let null = [ValueRef::Bigint(1), ValueRef::Null];
    let short = [ValueRef::Bigint(2), ValueRef::Varchar("ab")];
    let long = [ValueRef::Bigint(1), ValueRef::Varchar("abc")];
    let twin = [ValueRef::Bigint(3), ValueRef::Varchar("ab")];
    assert!(rt; compared_rows(rt.alloc(), &null, &short)? == Ordering::Greater);
    assert!(rt; compared_rows(rt.alloc(), &long, &short)? == Ordering::Less);
    assert!(rt; compared_rows(rt.alloc(), &short, &twin)? == Ordering::Less);
    Ok(())
}

#[test]
fn a_row_compares_as_its_copy(rt: HostRuntime) -> Result<(), Memory> {
    assert!(rt; short_and_copy(rt.alloc())? == Ordering::Equal);
    Ok(())
}

fn value_of(alloc: Global, kind: &str, text: &str) -> Result<Value, ParseFault> {
    match parse_type(kind) {
        Some(kind) => parse_value(alloc, kind, text),
        None => Ok(Value::Null),
    }
}

fn bucket_of_one(alloc: Global, value: Value, n: u32) -> Result<u32, Memory> {
    let mut values = Vec::new(alloc);
    values.push(value)?;
    if n < 1 {
        return Ok(n);
    }
    Ok(bucket(Row::of(values).into_values().as_slice(), n))
}

/// The two numbers behind a value.
fn two_numbers(text: &str) -> Option<(u32, u32)> {
    let (n, wanted) = text.split_once('|')?;
    Some((n.parse::<u32>().ok()?, wanted.parse::<u32>().ok()?))
}

fn bucket_holds(alloc: Global, line: &str) -> Result<bool, ParseFault> {
    let Some((kind, rest)) = line.split_once('|') else {
        return Ok(false);
    };
    let Some((text, rest)) = rest.split_once('|') else {
        return Ok(false);
    };
    let Some((n, wanted)) = two_numbers(rest) else {
        return Ok(false);
    };
    let value = value_of(alloc, kind, text)?;
    Ok(bucket_of_one(alloc, value, n)? == wanted)
}

/// How many lines there are, up to the first that does not hold.
fn buckets_that_hold(alloc: Global, lines: &str) -> Result<u32, ParseFault> {
    let mut count = 0u32;
    for line in lines.lines() {
        if !bucket_holds(alloc, line)? {
            return Ok(count);
        }
        count = count.saturating_add(1);
    }
    Ok(count)
}

#[test]
fn buckets_of_one_value(rt: HostRuntime) -> Result<(), ParseFault> {
    assert!(rt; buckets_that_hold(rt.alloc(), BUCKETS)? == 16);
    Ok(())
}

fn bucket_of_row(alloc: Global, values: &[ValueRef<'_>], n: u32) -> Result<u32, Memory> {
    let row = row(alloc, values)?;
    if n < 1 {
        return Ok(n);
    }
    Ok(bucket(row.into_values().as_slice(), n))
}

#[test]
fn buckets_of_rows(rt: HostRuntime) -> Result<(), Memory> {
    let mixed = [
        ValueRef::Bigint(i64::MIN),
        ValueRef::Varchar("é"),
        ValueRef::Decimal(-99_999_999_999_999_999_999_999_999_999_999_999_999),
        ValueRef::Varchar("x"),
    ];
    assert!(rt; bucket_of_row(rt.alloc(), &[], 4)? == 1);
    assert!(rt; bucket_of_row(rt.alloc(), &mixed, 2)? == 1);
    Ok(())
}
