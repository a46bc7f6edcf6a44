//! Rows that a driver puts to an edge, one fetches and deals to another edge, and a third takes.
ghost use Rattle.std.specs.Prelude.{◌≡◌, [], false};
ghost use Rattle.output_buffer.specs.Seats.{new_spread_put};
ghost use Rattle.driver_loop.specs.Ends.{rows_taken};

use crate::edge_drivers::{add, add_putters, add_takers, deal_target};
use crate::parts::driver_of;
use crate::runs::{give_rounds, stop_all};
use crate::slow::Slow;
use driver_ends::FetchSource;
use driver_loop::{Driver, Source};
use futures::task::{Doorbell, Solo};
use output_buffer::{Gather, GatherTake, Spread, SpreadPut};
use sql_values::Memory;
use std::alloc::Global;
use std::sync::Wait;
use std::test::Fail;
use std::thread::Threads;

/// How often the courier misses before each reply; then what each driver hands back, and its work.
const CASES: &str = "0|put w3;deal take w3;took 4 5 6 w3;
1|put w3;deal take w6;took 4 5 6 w3;
2|put w3;deal take w10;took 4 5 6 w3;";

fn fetch(alloc: Global, seat: GatherTake<'_>, each: u32) -> Source<'_, Slow>
    requires { seat.took ≡ [] }
    ensures { rows_taken result ≡ [] }
{
    Source::fetch(FetchSource::new(alloc, seat, Slow::new(each), 1))
}

/// Fetches the rows of the first edge, and deals them to the second one.
fn fetcher<'w>(
    alloc: Global,
    source: Source<'w, Slow>,
    seat: SpreadPut<'w>,
) -> Result<Driver<'w, Slow>, Memory>
    requires source { rows_taken source ≡ [] }
    requires seat { seat ≡ new_spread_put seat.edge seat.takers }
{
    let target = deal_target(seat);
    driver_of(alloc, 2, Ok(source), Ok(Vec::new(alloc)), Ok(target))
}

/// Adds a driver that fetches, and those that take what it deals.
fn add_fetcher<'e>(
    alloc: Global,
    source: Source<'e, Slow>,
    edge: &'e mut Spread,
    drivers: &mut Vec<Driver<'e, Slow>>,
) -> Result<(), Memory>
    requires source { rows_taken source ≡ [] }
    requires edge { edge.old.is_handed_out ≡ false }
{
    match edge.seats() {
        Ok((put, takes)) => {
            add(drivers, fetcher(alloc, source, put))?;
            add_takers(alloc, takes, drivers)
        }
        Err(memory) => {
            drop(source);
            Err(memory)
        }
    }
}

/// What the drivers of both edges say, in the order of their numbers, once each had so many turns.
fn say<'e, R: Threads + Wait + Sync>(
    rt: &R,
    alloc: Global,
    each: u32,
    first: &'e mut Gather,
    second: &'e mut Spread,
    drivers: &mut Vec<Driver<'e, Slow>>,
    solo: &Solo,
    text: &mut String,
) -> Result<(), Memory>
    requires first { first.old.is_handed_out ≡ false }
    requires second { second.old.is_handed_out ≡ false }
{
    let (puts, take) = first.seats()?;
    add_putters(alloc, &[4, 5, 6], puts, drivers)?;
    add_fetcher(alloc, fetch(alloc, take, each), second, drivers)?;
    give_rounds(rt, alloc, drivers, 20, solo);
    stop_all(text, drivers)
}

fn fetches_say<R: Threads + Wait + Sync>(
    rt: &R,
    alloc: Global,
    each: u32,
    solo: &Solo,
    text: &mut String,
) -> Result<(), Memory> {
    let mut first = Gather::new(alloc, 1, 8, 0, 1)?;
    let mut second = Spread::new(alloc, 1, 8, 2, 3)?;
    let mut drivers = Vec::new(alloc);
    say(
        rt,
        alloc,
        each,
        &mut first,
        &mut second,
        &mut drivers,
        solo,
        text,
    )
}

/// Whether the drivers of a case say what it does.
fn case_holds<R: Threads + Wait + Sync>(
    rt: &R,
    alloc: Global,
    case: &str,
    solo: &Solo,
) -> Result<bool, Memory> {
    let (each, wanted) = case.split_once('|').unwrap_or((case, ""));
    let mut text = String::new(alloc);
    fetches_say(rt, alloc, each.parse::<u32>().unwrap_or(0), solo, &mut text)?;
    Ok(text.as_str() == wanted)
}

#[test]
fn a_driver_that_fetches_gives_each_row_once_and_counts_missed_turns(
    rt: HostRuntime,
) -> Result<(), Fail> {
    let solo = Solo::new(&rt, Doorbell::spinning())?;
    for case in CASES.lines() {
        assert!(rt; case_holds(&rt, rt.alloc(), case, &solo)?);
    }
    Ok(())
}
