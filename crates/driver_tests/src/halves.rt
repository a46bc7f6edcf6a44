//! Rows in two pieces: a driver for each gives the partial rows of its groups to an edge, and a third merges them.
ghost use Rattle.std.specs.Prelude.{◌≡◌, [], ◌∷◌, All, IfOk, IsOk, IsTrue, map, false};
ghost use Rattle.sql_values.specs.ColumnRows.{fits_row};
ghost use Rattle.sql_values.specs.declared.types.SqlType.TheVariants.{Bigint};
ghost use Rattle.sql_values.specs.declared.relational.Call.TheVariants.{CountAll, Sum};
ghost use Rattle.output_buffer.specs.Seats.{new_gather_put};
ghost use Rattle.driver_loop.specs.Ends.{rows_taken};

use crate::edge_drivers::{add, local, put_target};
use crate::parts::{driver_of, result};
use crate::runs::{give_rounds, stop_last};
use crate::slow::Slow;
use aggregation::{FinalAgg, PartialAgg, final_op, partial_op};
use driver_loop::{Driver, RowsSource, Source, Stage};
use futures::task::{Doorbell, Solo};
use operator_core::Operator;
use output_buffer::{Gather, GatherPut};
use row_ops::ValuesOp;
use sql_values::{Call, Memory, Row, RowList, SqlType, Value};
use std::alloc::Global;
use std::sync::Wait;
use std::test::Fail;
use std::thread::Threads;

/// The rows of two pieces, each a key and a number; then the driver that merges, stopped: the groups of all, each a key, the
/// count and the sum, or the fault, and its work.
const CASES: &str = "1:5 1:7 2:-3|2:10 3:1|take 1 2 12 2 2 7 3 1 1 w7;
1:9223372036854775807|1:-7 1:7 2:0|take 1 3 9223372036854775807 2 1 0 w5;
1:9223372036854775807 2:4|1:1|take node 7 failed: a number is out of its type's range w3;
1:9223372036854775807 1:1|1:-1 2:4|take 1 3 9223372036854775807 2 1 4 w5;";

fn pairs(alloc: Global) -> Result<Vec<SqlType>, Memory>
    ensures { IfOk result (λ types. types.items ≡ Bigint ∷ Bigint ∷ []) }
{
    Ok(Vec::from_array(alloc, [SqlType::Bigint, SqlType::Bigint])?)
}

fn calls(alloc: Global) -> Result<Vec<Call>, Memory>
    ensures { IfOk result (λ calls. calls.items ≡ CountAll ∷ Sum 1 ∷ []) }
{
    Ok(Vec::from_array(alloc, [Call::CountAll, Call::Sum(1)])?)
}

/// A row of a key and a number.
fn row(alloc: Global, key: i64, number: i64) -> Result<Row, Memory>
    ensures { IfOk result (λ r. IsTrue (fits_row (Bigint ∷ Bigint ∷ []) r)) }
{
    let mut values = Vec::new(alloc);
    values.push(Value::Bigint(key))?;
    values.push(Value::Bigint(number))?;
    Ok(Row::of(values))
}

/// The key and the number of a word.
fn pair_of(word: &str) -> (i64, i64) {
    let (key, number) = word.split_once(':').unwrap_or((word, ""));
    (
        key.parse::<i64>().unwrap_or(0),
        number.parse::<i64>().unwrap_or(0),
    )
}

/// Puts a row of a key and a number behind the others.
#[tactic(auto, using(test_fixtures::proofs::RowLemmas::row_more))]
fn push(alloc: Global, rows: &mut RowList, key: i64, number: i64) -> Result<(), Memory>
    requires { All (λ row. IsTrue (fits_row (Bigint ∷ Bigint ∷ []) row)) rows.old }
    ensures { IsOk result → All (λ row. IsTrue (fits_row (Bigint ∷ Bigint ∷ []) row)) rows.new }
{
    let row = row(alloc, key, number)?;
    rows.push(row)?;
    Ok(())
}

fn rows(alloc: Global, words: &str) -> Result<RowList, Memory>
    ensures { IfOk result (λ rows. All (λ row. IsTrue (fits_row (Bigint ∷ Bigint ∷ []) row)) rows) }
{
    let mut rows = RowList::new(alloc);
    for word in words.split(' ') {
        let (key, number) = pair_of(word);
        push(alloc, &mut rows, key, number)?;
    }
    Ok(rows)
}

/// Pages of two rows.
fn source<'w>(alloc: Global, words: &str) -> Result<Source<'w, Slow>, Memory>
    ensures { IfOk result (λ s. rows_taken s ≡ []) }
{
    let types = pairs(alloc)?;
    let rows = rows(alloc, words)?;
    let op = ValuesOp::new(alloc, rows, types, 2);
    Ok(Source::rows(RowsSource::new(op)))
}

fn partial(alloc: Global) -> Result<PartialAgg, Memory>
    ensures { IfOk result (λ op. ⟦<PartialAgg as Operator>⟧.as_made op ≡ op) }
{
    let keys = Vec::from_array(alloc, [0])?;
    let calls = calls(alloc)?;
    partial_op(alloc, keys, calls, pairs(alloc)?, 8)
}

/// The groups by the first column.
fn first_half<'w>(alloc: Global) -> Result<Vec<Stage<'w>>, Memory>
    ensures { IfOk result (λ v. map ⟦<Stage<'w> as Operator>⟧.as_made v.items ≡ v.items) }
{
    let op = partial(alloc)?;
    Ok(Vec::from_array(alloc, [Stage::Partial(op)])?)
}

fn last(alloc: Global) -> Result<FinalAgg, Memory>
    ensures { IfOk result (λ op. ⟦<FinalAgg as Operator>⟧.as_made op ≡ op) }
{
    let keys = Vec::from_array(alloc, [SqlType::Bigint])?;
    let calls = calls(alloc)?;
    final_op(alloc, 7, keys, calls, pairs(alloc)?, 8)
}

/// The results of the groups. Their node is 7.
fn second_half<'w>(alloc: Global) -> Result<Vec<Stage<'w>>, Memory>
    ensures { IfOk result (λ v. map ⟦<Stage<'w> as Operator>⟧.as_made v.items ≡ v.items) }
{
    let op = last(alloc)?;
    Ok(Vec::from_array(alloc, [Stage::Final(op)])?)
}

/// Gives the partial rows of the groups of some rows to an edge.
fn giver<'w>(alloc: Global, words: &str, seat: GatherPut<'w>) -> Result<Driver<'w, Slow>, Memory>
    requires { seat ≡ new_gather_put seat.edge seat.number }
{
    driver_of(
        alloc,
        1,
        source(alloc, words),
        first_half(alloc),
        put_target(alloc, seat),
    )
}

/// Adds such a driver for each seat, of the rows of a piece.
fn add_givers<'w>(
    alloc: Global,
    case: &str,
    seats: Vec<GatherPut<'w>>,
    drivers: &mut Vec<Driver<'w, Slow>>,
) -> Result<(), Memory>
    requires { All (λ seat. seat ≡ new_gather_put seat.edge seat.number) seats.items }
{
    let mut pieces = case.split('|');
    for seat in seats {
        let words = pieces.next().unwrap_or("");
        add(drivers, giver(alloc, words, seat))?;
    }
    Ok(())
}

/// The types of a key, a count and a sum.
fn sums(alloc: Global) -> Result<Vec<SqlType>, Memory> {
    Ok(Vec::from_array(alloc, [SqlType::Bigint, SqlType::Bigint, SqlType::Bigint])?)
}

/// Merges the partial rows of an edge.
fn merger<'w>(alloc: Global, source: Source<'w, Slow>) -> Result<Driver<'w, Slow>, Memory>
    requires { rows_taken source ≡ [] }
{
    driver_of(
        alloc,
        2,
        Ok(source),
        second_half(alloc),
        result(alloc, sums(alloc)),
    )
}

/// What the last driver says once each had three turns.
fn say<'e, R: Threads + Wait + Sync>(
    rt: &R,
    alloc: Global,
    case: &str,
    edge: &'e mut Gather,
    drivers: &mut Vec<Driver<'e, Slow>>,
    solo: &Solo,
    text: &mut String,
) -> Result<(), Memory>
    requires { edge.old.is_handed_out ≡ false }
{
    let (puts, take) = edge.seats()?;
    add_givers(alloc, case, puts, drivers)?;
    add(drivers, merger(alloc, local(take)))?;
    give_rounds(rt, alloc, drivers, 3, solo);
    stop_last(text, drivers)
}

fn halves_say<R: Threads + Wait + Sync>(
    rt: &R,
    alloc: Global,
    case: &str,
    solo: &Solo,
    text: &mut String,
) -> Result<(), Memory> {
    let mut edge = Gather::new(alloc, 2, 8, 0, 1)?;
    let mut drivers = Vec::new(alloc);
    say(rt, alloc, case, &mut edge, &mut drivers, solo, text)
}

/// Whether the groups of a case are as it says.
fn case_holds<R: Threads + Wait + Sync>(
    rt: &R,
    alloc: Global,
    case: &str,
    solo: &Solo,
) -> Result<bool, Memory> {
    let mut parts = case.split('|');
    let (Some(_), Some(_), Some(wanted)) = (parts.next(), parts.next(), parts.next()) else {
        return Ok(false);
    };
    let mut text = String::new(alloc);
    halves_say(rt, alloc, case, solo, &mut text)?;
    Ok(text.as_str() == wanted)
}

#[test]
fn halves_of_an_aggregate_give_the_groups_of_all_rows(rt: HostRuntime) -> Result<(), Fail> {
    let solo = Solo::new(&rt, Doorbell::spinning())?;
    for case in CASES.lines() {
        assert!(rt; case_holds(&rt, rt.alloc(), case, &solo)?);
    }
    Ok(())
}
