//! Domains of whole numbers and of texts, with a stroke before each, that were worked out by hand. `-` is NULL.
use crate::cell_texts::{both, number, show_place, show_value};
use dyn_filter::{Domain, DomainBuilder};
use sql_values::{Memory, ParseFault, SqlType, Value, ValueRef, parse_value};
use std::alloc::Global;

fn show_each(text: &mut String, values: &[Value]) -> Result<(), Memory> {
    for value in values {
        show_value(text, value.as_ref())?;
    }
    Ok(())
}

fn show_range(text: &mut String, least: &Value, greatest: &Value) -> Result<(), Memory> {
    show_value(text, least.as_ref())?;
    text.push_str("to ")?;
    show_value(text, greatest.as_ref())
}

fn show_count(text: &mut String, count: usize) -> Result<(), Memory> {
    show_place(text, count)?;
    Ok(text.push_str("values ")?)
}

/// The values of a domain where they are few, else how many; and the ends of a range.
fn show(text: &mut String, domain: &Domain) -> Result<(), Memory> {
    match domain {
        Domain::Nothing => Ok(text.push_str("nothing ")?),
        Domain::Values(list) if list.len() < 10 => show_each(text, list.as_slice()),
        Domain::Values(list) => show_count(text, list.len()),
        Domain::Range { least, greatest } => show_range(text, least, greatest),
    }
}

fn add_text(alloc: Global, builder: &mut DomainBuilder, text: &str) -> Result<(), ParseFault> {
    if text == "-" {
        return Ok(builder.add(ValueRef::Null)?);
    }
    if let Some((_, word)) = text.split_once('\'') {
        return Ok(builder.add(ValueRef::Varchar(word))?);
    }
    let value = parse_value(alloc, SqlType::Bigint, text)?;
    Ok(builder.add(value.as_ref())?)
}

fn add_texts(alloc: Global, builder: &mut DomainBuilder, texts: &str) -> Result<(), ParseFault> {
    for text in texts.split_whitespace() {
        add_text(alloc, builder, text)?;
    }
    Ok(())
}

/// Takes in so many numbers from one on, from the last down, each twice.
fn add_numbers(builder: &mut DomainBuilder, from: i64, count: i64) -> Result<(), Memory> {
    for place in 0..count {
        let number = from.wrapping_add(count).wrapping_sub(place).wrapping_sub(1);
        builder.add(ValueRef::Bigint(number))?;
        builder.add(ValueRef::Bigint(number))?;
    }
    Ok(())
}

/// Takes in values, or so many numbers, as `999 from 0`.
fn add_all(alloc: Global, builder: &mut DomainBuilder, texts: &str) -> Result<(), ParseFault> {
    match texts.split_once(" from ") {
        Some((count, from)) => Ok(add_numbers(builder, number(from), number(count))?),
        None => add_texts(alloc, builder, texts),
    }
}

fn domain_of(alloc: Global, texts: &str) -> Result<Domain, ParseFault> {
    let mut builder = DomainBuilder::new(alloc);
    add_all(alloc, &mut builder, texts)?;
    Ok(builder.build())
}

/// The domain of the values of two sides.
fn union_of(alloc: Global, values: &str, others: &str) -> Result<Domain, ParseFault> {
    let (domain, other) = both(domain_of(alloc, values), domain_of(alloc, others))?;
    Ok(domain.union(alloc, other)?)
}

/// Appends those of the numbers that pass.
fn show_passing(text: &mut String, domain: &Domain) -> Result<(), Memory> {
    for word in "-1 0 998 999 1000 1998 5000".split(' ') {
        if domain.passes(ValueRef::Bigint(number(word))) {
            text.push_str(word)?;
            text.push_str(" ")?;
        }
    }
    Ok(())
}

fn is_shown(alloc: Global, domain: &Domain, wanted: &str) -> Result<bool, Memory> {
    let mut text = String::new(alloc);
    show(&mut text, domain)?;
    text.push_str("; ")?;
    show_passing(&mut text, domain)?;
    Ok(text.as_str() == wanted)
}

/// Whether a line is right: the values of two sides; the domain of both, and which of some numbers pass.
fn is_union(alloc: Global, line: &str) -> Result<bool, ParseFault> {
    let (values, rest) = line.split_once(';').unwrap_or((line, ""));
    let (others, wanted) = rest.split_once(';').unwrap_or((rest, ""));
    let domain = union_of(alloc, values, others)?;
    Ok(is_shown(alloc, &domain, wanted)?)
}

fn are_unions(alloc: Global, lines: &str) -> Result<bool, ParseFault> {
    for line in lines.lines() {
        if !is_union(alloc, line)? {
            return Ok(false);
        }
    }
    Ok(true)
}

#[test]
fn few_values_are_kept_in_order(rt: HostRuntime) -> Result<(), ParseFault> {
    let lines = ";;nothing ; \n\
        - -;-;nothing ; \n\
        3 1 2 3 - 1;;1 2 3 ; \n\
        ;7 7;7 ; \n\
        2 1;- 3 2;1 2 3 ; \n\
        5;-4;-4 5 ; \n\
        'b 'ab 2;'a - 1 'b;1 2 'a' 'ab' 'b' ; ";
    assert!(rt; are_unions(rt.alloc(), lines)?);
    Ok(())
}

#[test]
fn more_than_1000_values_are_a_range(rt: HostRuntime) -> Result<(), ParseFault> {
    let lines = "0 from 0;0 from 0;nothing ; \n\
        1 from 0;0 from 0;0 ; 0 \n\
        999 from 0;0 from 0;999 values ; 0 998 \n\
        1000 from 0;0 from 0;1000 values ; 0 998 999 \n\
        1001 from 0;0 from 0;0 to 1000 ; 0 998 999 1000 \n\
        999 from 0;1 from 999;1000 values ; 0 998 999 \n\
        999 from 0;2 from 998;1000 values ; 0 998 999 \n\
        999 from 0;1 from 5000;1000 values ; 0 998 5000 \n\
        1000 from 0;1 from 5000;0 to 5000 ; 0 998 999 1000 1998 5000 \n\
        1000 from 0;1 from 999;1000 values ; 0 998 999 \n\
        1001 from 0;1 from 5000;0 to 5000 ; 0 998 999 1000 1998 5000 \n\
        1 from 0;1001 from 999;0 to 1999 ; 0 998 999 1000 1998 \n\
        0 from 0;1001 from 999;999 to 1999 ; 999 1000 1998 \n\
        1001 from 0;2 from -1;-1 to 1000 ; -1 0 998 999 1000 ";
    assert!(rt; are_unions(rt.alloc(), lines)?);
    Ok(())
}
