//! The texts of booleans, whole numbers, decimals and dates, both ways.
use scalar_texts::{
    print_bigint, print_boolean, print_date, print_decimal, read_bigint, read_boolean, read_date,
    read_decimal,
};
use std::alloc::{AllocError, Global};

/// A date and its day number.
const DATES: &str = "0001-01-01 -719162\n\
9999-12-31 2932896\n\
1970-01-01 0\n\
1969-12-31 -1\n\
2000-02-29 11016\n\
1582-10-04 -141438\n\
0004-02-29 -718008\n\
2100-03-01 47541";

const NO_DATES: &str =
    "1900-02-29|2024-04-31|2024-13-01|2024-00-10|2024-01-00|0000-12-31|10000-01-01|2024-2-29| 2024-01-01|+024-01-01|2024/01/01|20240101|";

/// A text, the precision and the scale, the unscaled number, and the text that is printed of it.
const DECIMALS: &str = "1 3 2 100 1.00\n\
-0.5 2 1 -5 -0.5\n\
+0000000000000000000000000000000000000000009.99 3 2 999 9.99\n\
-0 1 0 0 0\n\
99999999999999999999999999999999999999 38 0 99999999999999999999999999999999999999 99999999999999999999999999999999999999\n\
-0.00000000000000000000000000000000000001 38 38 -1 -0.00000000000000000000000000000000000001";

const NO_DECIMALS: &str = "|-|.5|1.|1.234|10|1e0|1.2.3|+-1| 1|1,0";

fn prints_date(alloc: Global, day: i32, text: &str) -> Result<bool, AllocError> {
    let mut printed = Vec::new(alloc);
    print_date(day, &mut printed)?;
    Ok(printed.as_slice() == text.as_bytes())
}

fn date_holds(alloc: Global, line: &str) -> Result<bool, AllocError> {
    let Some((text, day)) = line.split_once(' ') else {
        return Ok(false);
    };
    match day.parse::<i32>() {
        Ok(day) if read_date(text.as_bytes()) == Some(day) => prints_date(alloc, day, text),
        _ => Ok(false),
    }
}

/// How many lines there are, up to the first that does not hold.
fn dates_that_hold(alloc: Global, lines: &str) -> Result<u32, AllocError> {
    let mut count = 0u32;
    for line in lines.lines() {
        if !date_holds(alloc, line)? {
            return Ok(count);
        }
        count = count.saturating_add(1);
    }
    Ok(count)
}

#[test]
fn dates(rt: HostRuntime) -> Result<(), AllocError> {
    assert!(rt; dates_that_hold(rt.alloc(), DATES)? == 8);
    Ok(())
}

/// How many texts there are, up to the first that is a date.
fn no_dates(texts: &str) -> u32 {
    let mut count = 0u32;
    for text in texts.split('|') {
        if read_date(text.as_bytes()).is_some() {
            return count;
        }
        count = count.saturating_add(1);
    }
    count
}

#[test]
fn texts_that_are_no_dates(rt: HostRuntime) {
    assert!(rt; no_dates(NO_DATES) == 13);
}

fn prints_decimal(alloc: Global, s: u8, unscaled: i128, text: &str) -> Result<bool, AllocError> {
    let mut written = Vec::new(alloc);
    print_decimal(s, unscaled, &mut written)?;
    Ok(written.as_slice() == text.as_bytes())
}

/// The first word as a number, and what follows it.
fn number<'a>(line: &'a str) -> Option<(i128, &'a str)> {
    let (word, rest) = line.split_once(' ')?;
    Some((word.parse::<i128>().ok()?, rest))
}

fn digits<'a>(line: &'a str) -> Option<(u8, &'a str)> {
    let (word, rest) = line.split_once(' ')?;
    Some((word.parse::<u8>().ok()?, rest))
}

/// The scale, the number that was read, and the text that is wanted of it; none where another number is wanted.
fn read_line<'a>(line: &'a str) -> Option<(u8, i128, &'a str)> {
    let (text, rest) = line.split_once(' ')?;
    let (p, rest) = digits(rest)?;
    let (s, rest) = digits(rest)?;
    let (unscaled, printed) = number(rest)?;
    if read_decimal(p, s, text.as_bytes()) == Some(unscaled) {
        return Some((s, unscaled, printed));
    }
    None
}

/// How many lines there are, up to the first that does not hold.
fn decimals_that_hold(alloc: Global, lines: &str) -> Result<u32, AllocError> {
    let mut count = 0u32;
    for line in lines.lines() {
        let Some((s, unscaled, printed)) = read_line(line) else {
            return Ok(count);
        };
        if !prints_decimal(alloc, s, unscaled, printed)? {
            return Ok(count);
        }
        count = count.saturating_add(1);
    }
    Ok(count)
}

#[test]
fn decimals(rt: HostRuntime) -> Result<(), AllocError> {
    assert!(rt; decimals_that_hold(rt.alloc(), DECIMALS)? == 6);
    Ok(())
}

/// How many texts there are, up to the first that is a decimal(3,2).
fn no_decimals(texts: &str) -> u32 {
    let mut count = 0u32;
    for text in texts.split('|') {
        if read_decimal(3, 2, text.as_bytes()).is_some() {
            return count;
        }
        count = count.saturating_add(1);
    }
    count
}

#[test]
fn texts_that_are_no_decimals(rt: HostRuntime) {
    assert!(rt; no_decimals(NO_DECIMALS) == 11);
}

fn print_three(to: &mut Vec<u8>) -> Result<(), AllocError> {
    print_bigint(i64::MIN, to)?;
    print_boolean(true, to)?;
    print_boolean(false, to)
}

#[test]
fn bigints_and_booleans_are_printed(rt: HostRuntime) -> Result<(), AllocError> {
    let mut printed = Vec::new(rt.alloc());
    print_three(&mut printed)?;
    assert!(rt; printed.as_slice() == b"-9223372036854775808truefalse".as_slice());
    Ok(())
}

#[test]
fn bigints_and_booleans_are_read(rt: HostRuntime) {
    assert!(rt; read_bigint(b"-00009223372036854775808") == Some(i64::MIN));
    assert!(rt; read_bigint(b"9223372036854775808").is_none());
    assert!(rt; read_boolean(b"tRuE") == Some(true));
    assert!(rt; read_boolean(b"FALSE") == Some(false));
    assert!(rt; read_boolean(b"yes").is_none());
}
