//! Turns of drivers, and what they gave.
ghost use Rattle.std.specs.Prelude.{◌≡◌, false, None};

use crate::fixtures::Rung;
use crate::slow::Slow;
use col_pages::Page;
use driver_loop::{Driver, Pieces, RunFault, Turn};
use futures::task::Solo;
use operator_core::HeldPages;
use sql_values::{Memory, ValueRef};
use std::alloc::Global;
use std::fmt::Write;
use std::sync::Wait;
use std::thread::Threads;

/// What a turn answered. Where the driver waits: at which bell, and the count that it showed.
#[derive(Clone, Copy)]
pub(crate) enum Answer {
    Yield,
    Blocked { bell: u32, seen: u64 },
    Finished,
    Failed(RunFault),
}

fn answer_of(turn: Turn) -> Answer {
    match turn {
        Turn::Yield => Answer::Yield,
        Turn::Blocked(on) => Answer::Blocked {
            bell: on.bell,
            seen: on.seen,
        },
        Turn::Finished => Answer::Finished,
        Turn::Failed(fault) => Answer::Failed(fault),
    }
}

/// What a turn answered, and the bell that rang last in it.
#[derive(Clone, Copy)]
pub(crate) struct Turned {
    pub(crate) answer: Answer,
    pub(crate) rung: Option<u32>,
}

fn turn_once<R: Threads + Wait + Sync>(
    rt: &R,
    alloc: Global,
    driver: &mut Driver<'_, Slow>,
    quantum: u32,
    solo: &Solo,
) -> Turned
    requires { (driver.old.is_finished ≡ false) × (driver.old.fault ≡ None) }
{
    let mut bells = Rung { alloc, last: None };
    let mut cx = solo.begin();
    let answer = answer_of(driver.turn(rt, quantum, &mut cx, &mut bells));
    cx.cancel();
    Turned {
        answer,
        rung: bells.last,
    }
}

/// Gives a driver a turn, where it is not through.
pub(crate) fn give_turn<R: Threads + Wait + Sync>(
    rt: &R,
    alloc: Global,
    driver: &mut Driver<'_, Slow>,
    quantum: u32,
    solo: &Solo,
) -> Option<Turned> {
    if driver.is_finished() || driver.fault().is_some() {
        return None;
    }
    Some(turn_once(rt, alloc, driver, quantum, solo))
}

/// Gives a driver a turn, and writes what it answered, and the bell that rang last in it. Where the driver waits: at which
/// bell, and the count that it showed unless that is 7.
pub(crate) fn write_turn<R: Threads + Wait + Sync>(
    rt: &R,
    alloc: Global,
    driver: &mut Driver<'_, Slow>,
    solo: &Solo,
    text: &mut String,
) -> Result<(), Memory> {
    match give_turn(rt, alloc, driver, 100, solo) {
        Some(turned) => {
            write_answer(text, turned.answer)?;
            write_rung(text, turned.rung)
        }
        None => Ok(text.push_str("- ")?),
    }
}

fn write_answer(text: &mut String, answer: Answer) -> Result<(), Memory> {
    match answer {
        Answer::Yield => Ok(text.push_str("y")?),
        Answer::Blocked { bell, seen: 7 } => Ok(write!(text, "w{bell}")?),
        Answer::Blocked { bell, seen } => Ok(write!(text, "w{bell} at {seen}")?),
        Answer::Finished => Ok(text.push_str("f")?),
        Answer::Failed(fault) => Ok(write!(text, "{fault}")?),
    }
}

fn write_rung(text: &mut String, rung: Option<u32>) -> Result<(), Memory> {
    match rung {
        Some(bell) => Ok(write!(text, "r{bell} ")?),
        None => Ok(text.push_str(" ")?),
    }
}

/// Gives each driver so many turns, one after the other, where it is not through.
pub(crate) fn give_rounds<R: Threads + Wait + Sync>(
    rt: &R,
    alloc: Global,
    drivers: &mut Vec<Driver<'_, Slow>>,
    rounds: u32,
    solo: &Solo,
) {
    for _ in 0..rounds {
        for driver in drivers.iter_mut() {
            let _ = give_turn(rt, alloc, driver, 100, solo);
        }
    }
}

/// How often a driver yields, and then what the first turn answers that does not.
fn give_turns<R: Threads + Wait + Sync>(
    rt: &R,
    alloc: Global,
    driver: &mut Driver<'_, Slow>,
    quantum: u32,
    solo: &Solo,
) -> Option<(u32, Answer)> {
    for yields in 0..1000u32 {
        let turned = give_turn(rt, alloc, driver, quantum, solo)?;
        if !matches!(turned.answer, Answer::Yield) {
            return Some((yields, turned.answer));
        }
    }
    None
}

/// Hands a driver's parts back.
fn pieces_of<'w>(driver: Driver<'w, Slow>) -> Pieces<'w> {
    if driver.is_finished() {
        driver.into_pieces()
    } else {
        driver.stop()
    }
}

/// Gives a driver turns until it does not yield, and writes what it gave, and how often it yielded.
pub(crate) fn run<R: Threads + Wait + Sync>(
    rt: &R,
    alloc: Global,
    mut driver: Driver<'_, Slow>,
    quantum: u32,
    solo: &Solo,
    text: &mut String,
) -> Result<(), Memory> {
    let end = give_turns(rt, alloc, &mut driver, quantum, solo);
    let work = driver.work();
    let mut pieces = pieces_of(driver);
    write_end(text, end, work, &mut pieces.rows)
}

fn write_end(
    text: &mut String,
    end: Option<(u32, Answer)>,
    work: u64,
    rows: &mut HeldPages,
) -> Result<(), Memory> {
    match end {
        Some((yields, Answer::Finished)) => {
            write_pages(text, rows)?;
            Ok(write!(text, "after {yields}")?)
        }
        Some((_, Answer::Failed(fault))) => Ok(write!(text, "{fault} after {work} rows")?),
        _ => Ok(text.push_str("no end")?),
    }
}

fn write_cell(text: &mut String, cell: ValueRef<'_>) -> Result<(), Memory> {
    match cell {
        ValueRef::Bigint(number) => Ok(write!(text, "{number} ")?),
        _ => Ok(text.push_str("- ")?),
    }
}

/// Writes the rows of a page, which has at most three columns.
fn write_page(text: &mut String, page: &Page) -> Result<(), Memory> {
    let width = page.types().len().min(3) as u32;
    for row in 0..page.len() {
        for column in 0..width {
            write_cell(text, page.cell(row, column))?;
        }
    }
    Ok(())
}

fn write_pages(text: &mut String, rows: &mut HeldPages) -> Result<(), Memory> {
    for _ in 0..1000 {
        let Some(page) = rows.take_first() else {
            return Ok(());
        };
        write_page(text, &page)?;
    }
    Ok(())
}

/// Writes by which seats a driver took and put.
fn write_seats(text: &mut String, pieces: &Pieces<'_>) -> Result<(), Memory> {
    for _seat in &pieces.puts {
        text.push_str("put ")?;
    }
    if pieces.deal.is_some() {
        text.push_str("deal ")?;
    }
    if pieces.gather_take.is_some() {
        text.push_str("take ")?;
    }
    if pieces.spread_take.is_some() {
        text.push_str("took ")?;
    }
    Ok(())
}

/// Writes how many rows each of its dynamic filters gave.
fn write_passed(text: &mut String, passed: &[u64]) -> Result<(), Memory> {
    for count in passed {
        write!(text, "p{count} ")?;
    }
    Ok(())
}

/// Writes what a driver hands back, with its fault and its work.
fn write_pieces(
    text: &mut String,
    pieces: &mut Pieces<'_>,
    fault: Option<RunFault>,
    work: u64,
) -> Result<(), Memory> {
    write_seats(text, pieces)?;
    if let Some(fault) = fault {
        write!(text, "{fault} ")?;
    }
    write_pages(text, &mut pieces.rows)?;
    write_passed(text, &pieces.passed)?;
    Ok(write!(text, "w{work};")?)
}

fn stop(text: &mut String, driver: Driver<'_, Slow>) -> Result<(), Memory> {
    let (fault, work) = (driver.fault(), driver.work());
    let mut pieces = driver.stop();
    write_pieces(text, &mut pieces, fault, work)
}

/// Stops the last driver, and writes by which seats it took and put, its fault, the rows of its result and its work.
pub(crate) fn stop_last(
    text: &mut String,
    drivers: &mut Vec<Driver<'_, Slow>>,
) -> Result<(), Memory> {
    match drivers.pop() {
        Some(driver) => stop(text, driver),
        None => Ok(()),
    }
}

/// The same of all drivers, in their order.
pub(crate) fn stop_all(
    text: &mut String,
    drivers: &mut Vec<Driver<'_, Slow>>,
) -> Result<(), Memory> {
    drivers.reverse();
    for _ in 0..drivers.len() {
        stop_last(text, drivers)?;
    }
    Ok(())
}
