//! Rows of a key and a name that are sorted by the key: numbers, decimals, dates and truths whose ranks fit in 32 bits, and
//! such as just do not. Rows of one key have the same name.
ghost use Rattle.std.specs.Prelude.{◌<◌, length};

use crate::page_texts::{drained, page, take_in};
use col_pages::{Form, Page};
use operator_core::OpFault;
use sql_values::{KeySpec, Memory, Order, SqlType, ValueRef};
use std::alloc::Global;
use topn_sort::sort_op;

/// The pages of these rows in the order of the key.
fn sorted(alloc: Global, types: &[SqlType], order: Order, rows: &str) -> Result<Vec<Page>, OpFault>
    requires { 0 < length types.now }
{
    let key = KeySpec { column: 0, order };
    let mut op = sort_op(
        alloc,
        Vec::from_slice(alloc, &[key])?,
        Vec::from_slice(alloc, types)?,
        8,
    )?;
    take_in(&mut op, page(alloc, types, rows)?)?;
    drained(alloc, &mut op)
}

/// Appends the names of a page's rows.
fn add_names(names: &mut String, page: &Page) -> Result<(), Memory> {
    for row in 0..page.len() {
        match page.cell(row, 1) {
            ValueRef::Varchar(name) => names.push_str(name)?,
            _ => names.push_str("?")?,
        }
    }
    Ok(())
}

/// The names of these rows, written as `1 a,2 b`, in the order of the key.
fn names(alloc: Global, kind: SqlType, order: Order, rows: &str) -> Result<String, OpFault> {
    let rows = rows.replace(alloc, ',', "\n")?;
    let pages = sorted(alloc, &[kind, SqlType::Varchar], order, rows.as_str())?;
    let mut names = String::new(alloc);
    for page in &pages {
        add_names(&mut names, page)?;
    }
    Ok(names)
}

/// Whether the rows of each line come in the order of the names that follow, first upwards and then downwards.
fn are_sorted(alloc: Global, kind: SqlType, lines: &str) -> Result<bool, OpFault> {
    for line in lines.lines() {
        let (rows, wanted) = line.split_once(" | ").unwrap_or((line, ""));
        let (up, down) = wanted.split_once(' ').unwrap_or((wanted, ""));
        let rises = names(alloc, kind, Order::Ascending, rows)?.as_str() == up;
        let falls = names(alloc, kind, Order::Descending, rows)?.as_str() == down;
        if !rises || !falls {
            return Ok(false);
        }
    }
    Ok(true)
}

/// Whether the first two columns of a page are dictionaries.
fn is_shared(page: &Page) -> bool {
    for column in 0..2 {
        match page.block(column).map(|block| block.form()) {
            Some(Form::Dictionary) => {}
            _ => return false,
        }
    }
    true
}

/// How many pages these rows make in the order of their key: none where a page is not shared.
fn shared_pages(alloc: Global, rows: &str) -> Result<usize, OpFault> {
    let rows = rows.replace(alloc, ',', "\n")?;
    let pages = sorted(
        alloc,
        &[SqlType::Bigint, SqlType::Varchar],
        Order::Ascending,
        rows.as_str(),
    )?;
    for page in &pages {
        if !is_shared(page) {
            return Ok(0);
        }
    }
    Ok(pages.len())
}

#[test]
fn pages_share_the_sorted_rows(rt: HostRuntime) -> Result<(), OpFault> {
    let rows = "9 i,1 a,- j,2 b,8 h,3 c,7 g,4 d,6 f,5 e";
    assert!(rt; shared_pages(rt.alloc(), rows)? == 2);
    Ok(())
}

#[test]
fn rows_of_more_pages_than_one_keep_their_order(rt: HostRuntime) -> Result<(), OpFault> {
    let lines = "9 i,1 a,- j,2 b,8 h,3 c,7 g,4 d,6 f,5 e | abcdefghij ihgfedcbaj";
    assert!(rt; are_sorted(rt.alloc(), SqlType::Bigint, lines)?);
    Ok(())
}

#[test]
fn negative_numbers_come_first_and_nulls_last(rt: HostRuntime) -> Result<(), OpFault> {
    let lines = "2 d,-1 b,- e,0 c,-7 a,- e,2 d | abcddee ddcbaee\n- a | a a\n- b,0 a,- b | abb abb";
    assert!(rt; are_sorted(rt.alloc(), SqlType::Bigint, lines)?);
    Ok(())
}

#[test]
fn numbers_at_the_ends_of_32_bits_and_of_64_keep_their_order(
    rt: HostRuntime,
) -> Result<(), OpFault> {
    let lines = "2147483647 d,- e,-2147483648 a,0 c,-2147483647 b | abcde dcbae\n\
        2147483648 d,- e,-2147483648 a,0 c,-1 b | abcde dcbae\n\
        2147483647 d,- e,-2147483649 a,0 c,-1 b | abcde dcbae\n\
        9223372036854775807 c,- d,0 b,-9223372036854775808 a | abcd cbad";
    assert!(rt; are_sorted(rt.alloc(), SqlType::Bigint, lines)?);
    Ok(())
}

#[test]
fn decimals_that_fit_and_such_as_do_not_keep_their_order(rt: HostRuntime) -> Result<(), OpFault> {
    let lines = "1.50 c,-0.01 b,- d,-2.00 a | abcd cbad\n\
        21474836.47 c,21474836.48 d,-21474836.49 a,0.00 b,- e | abcde dcbae\n\
        99999999999999999999.00 c,-99999999999999999999.00 a,0.00 b,- d | abcd cbad";
    assert!(rt; are_sorted(rt.alloc(), SqlType::Decimal { p: 38, s: 2 }, lines)?);
    Ok(())
}

#[test]
fn earlier_days_come_first(rt: HostRuntime) -> Result<(), OpFault> {
    let lines = "1970-01-02 c,1969-12-31 b,- d,1900-01-01 a,1970-01-02 c | abccd ccbad";
    assert!(rt; are_sorted(rt.alloc(), SqlType::Date, lines)?);
    Ok(())
}

#[test]
fn false_comes_before_true(rt: HostRuntime) -> Result<(), OpFault> {
    assert!(rt;
        are_sorted(
            rt.alloc(),
            SqlType::Boolean,
            "true b,- c,false a,true b | abbc bbac"
        )?
    );
    Ok(())
}
