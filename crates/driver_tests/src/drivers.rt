//! Drivers over a table of one column of whole numbers, from 0 up.
ghost use Rattle.std.specs.Prelude.{◌≡◌, ◌^◌, ◌<◌, ◌≤◌, [], ◌∷◌, false, map, IfOk, length};
ghost use Rattle.split_source.specs.Scans.{AreReadable};
ghost use Rattle.split_source.specs.Splits.{split_count};
ghost use Rattle.driver_loop.specs.Ends.{rows_taken};

use crate::parts::{both, driver_of, result, whole};
use crate::runs::run;
use crate::slow::Slow;
use driver_loop::{Driver, Source, Stage};
use futures::task::{Doorbell, Solo};
use operator_core::Operator;
use row_ops::{FilterProject, LimitOp, are_typed};
use split_source::{ClaimSeat, Claims, ScanSource, split_count};
use sql_exprs::{CallName, Expr};
use sql_values::{Memory, SqlType, Table, Types, Value};
use std::alloc::Global;
use std::sync::Wait;
use std::test::Fail;
use std::thread::Threads;
use test_fixtures::number_table;

fn number(n: i64) -> Expr {
    Expr::Literal {
        kind: SqlType::Bigint,
        value: Value::Bigint(n),
    }
}

fn call(alloc: Global, name: CallName, left: Expr, right: Expr) -> Result<Expr, Memory> {
    let args = Vec::from_array(alloc, [left, right])?;
    Ok(Expr::Call { name, args })
}

/// Whether 12 divided by the difference to `at` is less than 3.
fn predicate(alloc: Global, at: i64) -> Result<Expr, Memory> {
    let distance = call(alloc, CallName::Subtract, Expr::Column(0), number(at))?;
    let quotient = call(alloc, CallName::Divide, number(12), distance)?;
    call(alloc, CallName::Less, quotient, number(3))
}

/// Its only column.
fn column(alloc: Global) -> Result<Vec<Expr>, Memory> {
    Ok(Vec::from_array(alloc, [Expr::Column(0)])?)
}

/// Keeps the numbers for which 12 divided by their difference to `at` is less than 3. Its node is 5.
fn filter(alloc: Global, at: i64) -> Result<FilterProject, Memory>
    ensures { IfOk result (λ op. ⟦<FilterProject as Operator>⟧.as_made op ≡ op) }
{
    let types = whole(alloc)?;
    let (predicate, columns) = both(predicate(alloc, at), column(alloc))?;
    filter_of(alloc, types, Some(predicate), columns)
}

/// Expressions without a type count as want of memory.
fn filter_of(
    alloc: Global,
    types: Vec<SqlType>,
    predicate: Option<Expr>,
    columns: Vec<Expr>,
) -> Result<FilterProject, Memory>
    ensures { IfOk result (λ op. ⟦<FilterProject as Operator>⟧.as_made op ≡ op) }
{
    match are_typed(alloc, types.as_slice(), &predicate, columns.as_slice()) {
        Ok(true) => Ok(FilterProject::new(alloc, 5, types, predicate, columns)),
        Ok(false) | Err(Memory) => {
            drop(types);
            drop(predicate);
            drop(columns);
            Err(Memory)
        }
    }
}

/// The numbers kept as `filter` says, and the first four of them.
fn stages<'w>(alloc: Global, at: i64) -> Result<Vec<Stage<'w>>, Memory>
    ensures { IfOk result (λ v. map ⟦<Stage<'w> as Operator>⟧.as_made v.items ≡ v.items) }
{
    let types = whole(alloc)?;
    let kept = filter(alloc, at)?;
    Ok(Vec::from_array(alloc, [Stage::Filter(kept), first(alloc, types)])?)
}

/// The first four rows.
fn first<'w>(alloc: Global, types: Vec<SqlType>) -> Stage<'w>
    ensures { ⟦<Stage<'w> as Operator>⟧.as_made result ≡ result }
{
    Stage::Limit(LimitOp::new(alloc, 4), Types::of(types))
}

/// A scan of the table's column.
fn scan_of<'w>(
    alloc: Global,
    table: &'w Table,
    sizes: (u32, u32),
    seat: ClaimSeat<'w>,
) -> Result<Source<'w, Slow>, Memory>
    requires size { 0 < sizes.0 }
    requires page { (0 < sizes.1) × (sizes.1 ≤ 8192) }
    requires few { length table.now.rows < 2 ^ 32 }
    requires seat { seat.claims.of.count ≡ split_count (length table.now.rows) sizes.0 }
    requires fresh { seat.numbers ≡ [] }
    requires columns { length table.now.columns ≡ 1 }
    requires fits { AreReadable table.now.columns (0 ∷ []) table.now.rows }
    ensures { IfOk result (λ s. rows_taken s ≡ []) }
{
    let (size, page) = sizes;
    let columns = Vec::from_array(alloc, [0])?;
    Ok(Source::scan(ScanSource::new(alloc, table, columns, size, page, seat)))
}

/// A driver that scans the table alone, with the numbers kept as `filter` says and the first four of them.
fn scanner<'w>(
    alloc: Global,
    at: i64,
    source: Result<Source<'w, Slow>, Memory>,
) -> Result<Driver<'w, Slow>, Memory>
    requires { IfOk source (λ s. rows_taken s ≡ []) }
{
    let target = result(alloc, whole(alloc));
    driver_of(alloc, 3, source, stages(alloc, at), target)
}

/// Writes what a driver makes of the table's rows.
fn scanned<'w, R: Threads + Wait + Sync>(
    rt: &R,
    alloc: Global,
    at: i64,
    table: &'w Table,
    claims: &'w mut Claims,
    sizes: (u32, u32),
    quantum: u32,
    solo: &Solo,
    text: &mut String,
) -> Result<(), Memory>
    requires size { 0 < sizes.0 }
    requires page { (0 < sizes.1) × (sizes.1 ≤ 8192) }
    requires few { length table.now.rows < 2 ^ 32 }
    requires fresh { claims.old.is_handed_out ≡ false }
    requires count { claims.old.id.of.count ≡ split_count (length table.now.rows) sizes.0 }
    requires columns { length table.now.columns ≡ 1 }
    requires fits { AreReadable table.now.columns (0 ∷ []) table.now.rows }
{
    let mut seats = claims.seats()?;
    let Some(seat) = seats.pop() else {
        return Ok(text.push_str("no seat")?);
    };
    let source = scan_of(alloc, table, sizes, seat);
    run(rt, alloc, scanner(alloc, at, source)?, quantum, solo, text)
}

/// The same of ten rows, in splits and pages of these sizes.
fn filtered<R: Threads + Wait + Sync>(
    rt: &R,
    alloc: Global,
    at: i64,
    sizes: (u32, u32),
    quantum: u32,
    solo: &Solo,
    text: &mut String,
) -> Result<(), Memory>
    requires sizes { (0 < sizes.0) × (0 < sizes.1) × (sizes.1 ≤ 8192) }
{
    let table = number_table(alloc, 10)?;
    let mut claims = Claims::new(alloc, split_count(table.rows.len() as u32, sizes.0), 1)?;
    scanned(
        rt,
        alloc,
        at,
        &table,
        &mut claims,
        sizes,
        quantum,
        solo,
        text,
    )
}

/// Whether it is what was wanted.
fn is_filtered<R: Threads + Wait + Sync>(
    rt: &R,
    alloc: Global,
    at: i64,
    sizes: (u32, u32),
    quantum: u32,
    solo: &Solo,
    wanted: &str,
) -> Result<bool, Memory>
    requires sizes { (0 < sizes.0) × (0 < sizes.1) × (sizes.1 ≤ 8192) }
{
    let mut text = String::new(alloc);
    filtered(rt, alloc, at, sizes, quantum, solo, &mut text)?;
    Ok(text.as_str() == wanted)
}

/// Whether drivers over ten rows make what they should, however these are split and however often they yield.
fn give_what_their_stages_make<R: Threads + Wait + Sync>(
    rt: &R,
    alloc: Global,
    solo: &Solo,
) -> Result<bool, Memory> {
    let whole = is_filtered(rt, alloc, -1, (10, 10), 100, solo, "4 5 6 7 after 0")?;
    let split = is_filtered(rt, alloc, -1, (4, 3), 100, solo, "4 5 6 7 after 0")?;
    let yielding = is_filtered(rt, alloc, -1, (10, 10), 1, solo, "4 5 6 7 after 2")?;
    Ok(whole & split & yielding)
}

/// Whether drivers that fail say where, and count the rows of the page on which they fail.
fn fail_after_their_rows<R: Threads + Wait + Sync>(
    rt: &R,
    alloc: Global,
    solo: &Solo,
) -> Result<bool, Memory> {
    let at_once = "node 5 failed: division by zero after 10 rows";
    let later = "node 5 failed: division by zero after 14 rows";
    let fails_at_once = is_filtered(rt, alloc, 6, (10, 10), 100, solo, at_once)?;
    let fails_later = is_filtered(rt, alloc, 6, (4, 3), 5, solo, later)?;
    Ok(fails_at_once & fails_later)
}

#[test]
fn drivers_give_what_their_stages_make_of_the_rows(rt: HostRuntime) -> Result<(), Fail> {
    let solo = Solo::new(&rt, Doorbell::spinning())?;
    assert!(rt; give_what_their_stages_make(&rt, rt.alloc(), &solo)?);
    assert!(rt; fail_after_their_rows(&rt, rt.alloc(), &solo)?);
    Ok(())
}
