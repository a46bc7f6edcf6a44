//! Turns of drivers that wait for one another at edges.
ghost use Rattle.std.specs.Prelude.{◌≡◌, false};
ghost use Rattle.output_buffer.specs.Seats.{new_spread_put};

use crate::edge_drivers::{add, add_putters, add_takers, deal_target, local, taker};
use crate::parts::{driver_of, numbers};
use crate::runs::{stop_all, write_turn};
use crate::slow::Slow;
use driver_loop::Driver;
use futures::task::{Doorbell, Solo};
use output_buffer::{Gather, Spread, SpreadPut};
use sql_values::Memory;
use std::alloc::Global;
use std::sync::Wait;
use std::test::Fail;
use std::thread::Threads;

/// The bell of an edge's pieces is 0, that of its places 1. The putters of a gathering edge come first, then its taker;
/// of a dealing one first its putter. Each puts a page of the row 2 and one of the row 3. Then whose turn it is, by
/// number, and what the turns answer; then what each hands back, and its work.
const RUNS: &str = "gather 1 1|0 1 0 1 0 1|w1r0 w0r1 w1r0 w0r1 fr0 fr1 put w2;take 2 3 w2;
gather 1 2|0 0 1 1 0 1|w1r0 w1 w0r1 w0 fr0 fr1 put w2;take 2 3 w2;
gather 2 8|0 2 2 1 2|fr0 w0r1 w0 fr0 fr1 put w2;put w2;take 2 3 2 3 w4;
deal 2 1|0 1 2 0 2 0 1 0 2 1 2|w1r0 w0r1 w0 w1r0 w0r1 w1r0 fr1 fr0 fr1 - - deal w2;took 2 w1;took 3 w1;";

/// The rows that each putter puts.
const ROWS: [i64; 2] = [2, 3];

fn write_turns<R: Threads + Wait + Sync>(
    rt: &R,
    alloc: Global,
    drivers: &mut Vec<Driver<'_, Slow>>,
    picks: &str,
    solo: &Solo,
    text: &mut String,
) -> Result<(), Memory> {
    for pick in picks.split(' ') {
        let place = pick.parse::<usize>().unwrap_or(0);
        if place < drivers.len() {
            write_turn(rt, alloc, &mut drivers[place], solo, text)?;
        }
    }
    Ok(())
}

/// What the turns of drivers say, and then each of them, stopped.
pub(crate) fn say<R: Threads + Wait + Sync>(
    rt: &R,
    alloc: Global,
    drivers: &mut Vec<Driver<'_, Slow>>,
    picks: &str,
    solo: &Solo,
    text: &mut String,
) -> Result<(), Memory> {
    write_turns(rt, alloc, drivers, picks, solo, text)?;
    stop_all(text, drivers)
}

/// What the drivers of an edge of one taker say.
fn gathered_say<'e, R: Threads + Wait + Sync>(
    rt: &R,
    alloc: Global,
    edge: &'e mut Gather,
    drivers: &mut Vec<Driver<'e, Slow>>,
    picks: &str,
    solo: &Solo,
    text: &mut String,
) -> Result<(), Memory>
    requires { edge.old.is_handed_out ≡ false }
{
    let (puts, take) = edge.seats()?;
    add_putters(alloc, &ROWS, puts, drivers)?;
    add(drivers, taker(alloc, local(take)))?;
    say(rt, alloc, drivers, picks, solo, text)
}

fn dealer<'w>(alloc: Global, seat: SpreadPut<'w>) -> Result<Driver<'w, Slow>, Memory>
    requires { seat ≡ new_spread_put seat.edge seat.takers }
{
    driver_of(
        alloc,
        1,
        numbers(alloc, &ROWS, 1),
        Ok(Vec::new(alloc)),
        Ok(deal_target(seat)),
    )
}

/// What the drivers of an edge of many takers say.
fn dealt_say<'e, R: Threads + Wait + Sync>(
    rt: &R,
    alloc: Global,
    edge: &'e mut Spread,
    drivers: &mut Vec<Driver<'e, Slow>>,
    picks: &str,
    solo: &Solo,
    text: &mut String,
) -> Result<(), Memory>
    requires { edge.old.is_handed_out ≡ false }
{
    let (put, takes) = edge.seats()?;
    add(drivers, dealer(alloc, put))?;
    add_takers(alloc, takes, drivers)?;
    say(rt, alloc, drivers, picks, solo, text)
}

fn gather_says<R: Threads + Wait + Sync>(
    rt: &R,
    alloc: Global,
    sizes: (u32, u32),
    picks: &str,
    solo: &Solo,
    text: &mut String,
) -> Result<(), Memory> {
    let (putters, room) = sizes;
    if putters == 0 || room == 0 {
        return Ok(());
    }
    let mut edge = Gather::new(alloc, putters, room, 0, 1)?;
    let mut drivers = Vec::new(alloc);
    gathered_say(rt, alloc, &mut edge, &mut drivers, picks, solo, text)
}

fn deal_says<R: Threads + Wait + Sync>(
    rt: &R,
    alloc: Global,
    sizes: (u32, u32),
    picks: &str,
    solo: &Solo,
    text: &mut String,
) -> Result<(), Memory> {
    let (takers, room) = sizes;
    if takers == 0 || room == 0 {
        return Ok(());
    }
    let mut edge = Spread::new(alloc, takers, room, 0, 1)?;
    let mut drivers = Vec::new(alloc);
    dealt_say(rt, alloc, &mut edge, &mut drivers, picks, solo, text)
}

fn edge_says<R: Threads + Wait + Sync>(
    rt: &R,
    alloc: Global,
    edge: &str,
    picks: &str,
    solo: &Solo,
    text: &mut String,
) -> Result<(), Memory> {
    let mut words = edge.split(' ');
    let (Some(kind), Some(count), Some(room)) = (words.next(), words.next(), words.next()) else {
        return Ok(());
    };
    let sizes = (
        count.parse::<u32>().unwrap_or(0),
        room.parse::<u32>().unwrap_or(0),
    );
    match kind {
        "gather" => gather_says(rt, alloc, sizes, picks, solo, text),
        _ => deal_says(rt, alloc, sizes, picks, solo, text),
    }
}

/// Whether the turns of a line, and the drivers once they were stopped, are as it says.
fn line_holds<R: Threads + Wait + Sync>(
    rt: &R,
    alloc: Global,
    line: &str,
    solo: &Solo,
) -> Result<bool, Memory> {
    let mut parts = line.split('|');
    let (Some(edge), Some(picks), Some(wanted)) = (parts.next(), parts.next(), parts.next()) else {
        return Ok(false);
    };
    let mut text = String::new(alloc);
    edge_says(rt, alloc, edge, picks, solo, &mut text)?;
    Ok(text.as_str() == wanted)
}

#[test]
fn drivers_wait_at_edges_and_lose_no_row(rt: HostRuntime) -> Result<(), Fail> {
    let solo = Solo::new(&rt, Doorbell::spinning())?;
    for line in RUNS.lines() {
        assert!(rt; line_holds(&rt, rt.alloc(), line, &solo)?);
    }
    Ok(())
}
