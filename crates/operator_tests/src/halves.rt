//! Groups that were worked out elsewhere, through whole aggregates and through both halves.
ghost use Rattle.std.specs.Prelude.{◌≡◌, ◌<◌, ◌+◌, [], ◌∷◌, length, IsTrue};
ghost use Rattle.accumulators.specs.Limits.{are_allowed};
ghost use Rattle.plan_trees.specs.Layouts.{layout_types};

use crate::page_texts::{TYPES, are_rows, copied, drained, page, show, take_in};
use crate::python_groups::{GROUPS, ROWS};
use aggregation::{FinalAgg, final_op, single_op};
use col_pages::Page;
use operator_core::OpFault;
use sql_values::{Call, Fail, Memory, SqlType};
use stage_meanings::{final_of, partial_of};
use std::alloc::Global;

/// The groups of rows, in one.
fn whole(
    alloc: Global,
    types: &[SqlType],
    keys: &[u32],
    calls: &[Call],
    rows: &str,
) -> Result<Vec<Page>, OpFault>
    requires allowed { IsTrue (are_allowed types.now calls.now) }
    requires typed { 0 < length types.now }
    requires some { 0 < length keys.now + length calls.now }
{
    let mut op = single_op(
        alloc,
        7,
        Vec::from_slice(alloc, keys)?,
        Vec::from_slice(alloc, calls)?,
        Vec::from_slice(alloc, types)?,
        8,
    )?;
    take_in(&mut op, page(alloc, types, rows)?)?;
    drained(alloc, &mut op)
}

/// The first half, as a plan's stage, over pages of one row each.
fn first_half(
    alloc: Global,
    types: &[SqlType],
    keys: &[u32],
    calls: &[Call],
    rows: &str,
) -> Result<Vec<Page>, OpFault>
    requires allowed { IsTrue (are_allowed types.now calls.now) }
    requires typed { 0 < length types.now }
{
    let mut op = partial_of(
        alloc,
        Vec::from_slice(alloc, keys)?,
        Vec::from_slice(alloc, calls)?,
        Vec::from_slice(alloc, types)?,
        8,
    )?;
    for row in rows.lines() {
        take_in(&mut op, page(alloc, types, row)?)?;
    }
    drained(alloc, &mut op)
}

/// The second half, as a plan's stage, over these pages of the layout.
fn second_half(
    alloc: Global,
    types: &[SqlType],
    kinds: &[SqlType],
    calls: &[Call],
    layout: &[SqlType],
    pages: &[Page],
) -> Result<Vec<Page>, OpFault>
    requires allowed { IsTrue (are_allowed types.now calls.now) }
    requires some { 0 < length kinds.now + length calls.now }
    requires typed { 0 < length layout.now }
    requires layout { layout.now ≡ layout_types kinds.now types.now calls.now }
{
    let mut op = final_of(
        alloc,
        7,
        Vec::from_slice(alloc, kinds)?,
        Vec::from_slice(alloc, calls)?,
        Vec::from_slice(alloc, types)?,
        8,
    )?;
    for page in pages {
        take_in(&mut op, copied(alloc, layout, page)?)?;
    }
    drained(alloc, &mut op)
}

/// The layout of rows between the halves, of two keys and the nine calls.
const LAYOUT: [SqlType; 12] = [
    SqlType::Varchar,
    SqlType::Bigint,
    SqlType::Decimal { p: 38, s: 0 },
    SqlType::Bigint,
    SqlType::Decimal { p: 38, s: 0 },
    SqlType::Bigint,
    SqlType::Bigint,
    SqlType::Decimal { p: 38, s: 2 },
    SqlType::Decimal { p: 38, s: 2 },
    SqlType::Bigint,
    SqlType::Varchar,
    SqlType::Varchar,
];

const CALLS: [Call; 9] = [
    Call::CountAll,
    Call::Count(2),
    Call::Sum(2),
    Call::Min(2),
    Call::Max(2),
    Call::Sum(3),
    Call::Avg(3),
    Call::Min(4),
    Call::Max(4),
];

#[test]
fn groups_are_as_python_has_them(rt: HostRuntime) -> Result<(), OpFault> {
    let pages = whole(rt.alloc(), &TYPES, &[0, 1], &CALLS, ROWS)?;
    assert!(rt; are_rows(rt.alloc(), 11, pages.as_slice(), GROUPS)?);
    Ok(())
}

#[test]
fn groups_by_halves_are_as_python_has_them(rt: HostRuntime) -> Result<(), OpFault> {
    let alloc = rt.alloc();
    let kinds = [SqlType::Varchar, SqlType::Bigint];
    let halves = first_half(alloc, &TYPES, &[0, 1], &CALLS, ROWS)?;
    let pages = second_half(alloc, &TYPES, &kinds, &CALLS, &LAYOUT, halves.as_slice())?;
    assert!(rt; are_rows(alloc, 11, pages.as_slice(), GROUPS)?);
    Ok(())
}

/// Appends the rows, or that a group failed at the node.
fn show_outcome(
    alloc: Global,
    text: &mut String,
    width: u32,
    outcome: Result<Vec<Page>, OpFault>,
) -> Result<(), OpFault> {
    match outcome {
        Ok(pages) => Ok(show(alloc, text, width, pages.as_slice())?),
        Err(
            OpFault::Expr {
                node,
                kind: Fail::OutOfRange,
            },
        ) => Ok(write!(text, "fails at {node}")?),
        Err(fault) => Err(fault),
    }
}

/// Appends the rows of the first half, over rows of one column, and what both halves give.
fn tell_halves(
    alloc: Global,
    text: &mut String,
    kind: SqlType,
    calls: &[Call],
    layout: &[SqlType],
    width: u32,
    rows: &str,
) -> Result<(), OpFault>
    requires allowed { IsTrue (are_allowed (kind ∷ []) calls.now) }
    requires some { 0 < length calls.now }
    requires layout { layout.now ≡ layout_types [] (kind ∷ []) calls.now }
{
    let halves = first_half(alloc, &[kind], &[], calls, rows)?;
    show(alloc, text, 4, halves.as_slice())?;
    text.push_str(" | ")?;
    let last = second_half(alloc, &[kind], &[], calls, layout, halves.as_slice());
    show_outcome(alloc, text, width, last)
}

/// The same, and what the aggregate in one gives.
fn tell(
    alloc: Global,
    text: &mut String,
    kind: SqlType,
    calls: &[Call],
    layout: &[SqlType],
    width: u32,
    rows: &str,
) -> Result<(), OpFault>
    requires allowed { IsTrue (are_allowed (kind ∷ []) calls.now) }
    requires some { 0 < length calls.now }
    requires layout { layout.now ≡ layout_types [] (kind ∷ []) calls.now }
{
    tell_halves(alloc, text, kind, calls, layout, width, rows)?;
    text.push_str(" | ")?;
    show_outcome(alloc, text, width, whole(alloc, &[kind], &[], calls, rows))
}

fn is_told(
    alloc: Global,
    kind: SqlType,
    calls: &[Call],
    layout: &[SqlType],
    width: u32,
    case: &str,
) -> Result<bool, OpFault>
    requires allowed { IsTrue (are_allowed (kind ∷ []) calls.now) }
    requires some { 0 < length calls.now }
    requires layout { layout.now ≡ layout_types [] (kind ∷ []) calls.now }
{
    let (rows, wanted) = case.split_once('=').unwrap_or((case, ""));
    let mut text = String::new(alloc);
    tell(alloc, &mut text, kind, calls, layout, width, rows)?;
    Ok(text.as_str() == wanted)
}

/// Whether each case, rows of one column and what is to come of them, gives just that.
fn are_told(
    alloc: Global,
    kind: SqlType,
    calls: &[Call],
    layout: &[SqlType],
    width: u32,
    cases: &str,
) -> Result<bool, OpFault>
    requires allowed { IsTrue (are_allowed (kind ∷ []) calls.now) }
    requires some { 0 < length calls.now }
    requires layout { layout.now ≡ layout_types [] (kind ∷ []) calls.now }
{
    for case in cases.split(';') {
        if !is_told(alloc, kind, calls, layout, width, case)? {
            return Ok(false);
        }
    }
    Ok(true)
}

#[test]
fn whole_aggregates_and_halves_agree(rt: HostRuntime) -> Result<(), OpFault> {
    let layout = [
        SqlType::Decimal { p: 38, s: 0 },
        SqlType::Bigint,
        SqlType::Decimal { p: 38, s: 0 },
    ];
    let calls = [Call::CountAll, Call::Count(0), Call::Sum(0)];
    let cases = "5\n-\n7=3 2 12 - | 3 2 12 | 3 2 12;\
        -=1 0 - - | 1 0 - | 1 0 -;\
        =0 0 - - | 0 0 - | 0 0 -;\
        9223372036854775807\n1\n-5=3 3 9223372036854775803 - | 3 3 9223372036854775803 | 3 3 9223372036854775803;\
        9223372036854775807\n1=2 2 9223372036854775808 - | fails at 7 | fails at 7";
    assert!(rt; are_told(rt.alloc(), SqlType::Bigint, &calls, &layout, 3, cases)?);
    Ok(())
}

#[test]
fn averages_and_halves_agree(rt: HostRuntime) -> Result<(), OpFault> {
    let short = SqlType::Decimal { p: 3, s: 1 };
    let layout = [
        SqlType::Decimal { p: 38, s: 0 },
        SqlType::Decimal { p: 38, s: 1 },
        SqlType::Bigint,
    ];
    let cases = "0.1\n0.2=2 3 2 - | 2 | 2;-0.1\n-0.2=2 -3 2 - | -2 | -2";
    assert!(rt; are_told(rt.alloc(), short, &[Call::Avg(0)], &layout, 1, cases)?);
    Ok(())
}

/// Whether neither half gives a row of no rows, by one key.
fn gives_no_half(alloc: Global) -> Result<bool, OpFault> {
    let halves = first_half(alloc, &TYPES, &[0], &[Call::CountAll], "")?;
    if halves.len() != 0 {
        return Ok(false);
    }
    let layout = [SqlType::Varchar, SqlType::Decimal { p: 38, s: 0 }];
    let pages = second_half(
        alloc,
        &TYPES,
        &[SqlType::Varchar],
        &[Call::CountAll],
        &layout,
        &[],
    )?;
    Ok(pages.len() == 0)
}

#[test]
fn without_rows_there_is_no_group_of_a_key(rt: HostRuntime) -> Result<(), OpFault> {
    let pages = whole(rt.alloc(), &TYPES, &[0], &[Call::CountAll], "")?;
    assert!(rt; are_rows(rt.alloc(), 2, pages.as_slice(), "")?);
    assert!(rt; gives_no_half(rt.alloc())?);
    Ok(())
}

#[test]
fn groups_of_no_call_are_the_keys(rt: HostRuntime) -> Result<(), OpFault> {
    let rows = "a 1 - - -\na 1 2 - -\n- 1 - - -\n- 1 3 - -";
    let keys = whole(rt.alloc(), &TYPES, &[1, 0], &[], rows)?;
    assert!(rt; are_rows(rt.alloc(), 2, keys.as_slice(), "1 -\n1 a")?);
    Ok(())
}

fn count_and_average(alloc: Global) -> Result<FinalAgg, Memory> {
    let calls = [Call::Count(1), Call::Avg(3)];
    final_op(
        alloc,
        7,
        Vec::from_array(alloc, [SqlType::Bigint])?,
        Vec::from_slice(alloc, &calls)?,
        Vec::from_slice(alloc, &TYPES)?,
        8,
    )
}

/// Whether a page of the row is taken for one of the layout, as the line says.
fn is_told_of(alloc: Global, op: &FinalAgg, layout: &[SqlType], line: &str) -> Result<bool, Memory>
    requires { 0 < length layout.now }
{
    let (row, wanted) = line.split_once('|').unwrap_or((line, ""));
    let told = op.kernel().is_layout(&page(alloc, layout, row)?);
    Ok(wanted == if told { "true" } else { "false" })
}

fn is_told_of_all(alloc: Global, op: &FinalAgg, cases: &str) -> Result<bool, Memory> {
    let layout = [
        SqlType::Bigint,
        SqlType::Decimal { p: 38, s: 0 },
        SqlType::Bigint,
        SqlType::Decimal { p: 38, s: 2 },
        SqlType::Bigint,
    ];
    for line in cases.lines() {
        if !is_told_of(alloc, op, &layout, line)? {
            return Ok(false);
        }
    }
    Ok(true)
}

#[test]
fn pages_of_the_layout_are_told(rt: HostRuntime) -> Result<(), OpFault> {
    let cases = "5 2 1 0.30 2|true\n\
        - 0 0 - 0|true\n\
        5 9223372036854775808 - - -|true\n\
        5 9223372036854775808 - - 0|false\n\
        5 9223372036854775809 - - -|false\n\
        5 - 1 0.30 2|false\n\
        5 2 3 0.30 2|false\n\
        5 2 1 - 2|false\n\
        5 2 1 0.30 0|false\n\
        5 2 1 19999999999999999.98 2|true\n\
        5 2 1 19999999999999999.99 2|false";
    assert!(rt; is_told_of_all(rt.alloc(), &count_and_average(rt.alloc())?, cases)?);
    Ok(())
}
