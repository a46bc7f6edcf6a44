use crate::fixtures::{Kept, Nothing, Rung, empty_target, page, source_of, stages, target_of};
use col_pages::Page;
use driver_turns::{Turned, Turning, look_at_stages, turn};
use operator_examples::{NotNull, Note, NotedLimit};
use sql_values::Memory;
use stage_moves::{PageSource, TypedOperator, feed, takes_input};
use std::alloc::Global;
use std::sync::Wait;
use std::thread::Threads;

/// Feeds a page where the first stage takes one.
fn put(stages: &mut Vec<NotNull>, page: Page) -> bool {
    if !takes_input(stages, true) {
        return false;
    }
    feed(stages, page).is_ok()
}

/// How many rows the first page has that a target was given.
fn first_rows(target: &mut Kept) -> u32 {
    match target.pages.take_first() {
        Some(page) => page.len(),
        None => 0,
    }
}

/// How many rows a turn counted, and why it ended: by its quantum, at a bell with the count that it showed, or
/// finished.
#[derive(Clone, Copy, PartialEq, Eq)]
enum End {
    Yield(u64),
    Blocked { units: u64, bell: u32, seen: u64 },
    Finished(u64),
    Failed(u64),
}

fn told(turned: Turning) -> End {
    let Turning { units, outcome } = turned;
    match outcome {
        Ok(Turned::Yield) => End::Yield(units),
        Ok(Turned::Finished) => End::Finished(units),
        Ok(Turned::Blocked(on)) => {
            let (bell, seen) = (on.bell, on.seen);
            End::Blocked { units, bell, seen }
        }
        Err(_) => End::Failed(units),
    }
}

/// Nothing was counted but so many asks in vain, and somebody waits at this bell, which showed 7.
fn at(units: u64, bell: u32) -> End {
    End::Blocked {
        units,
        bell,
        seen: 7,
    }
}

/// How a turn over a source without a page ends.
fn turn_of<I: PageSource, S: TypedOperator, R: Threads + Wait + Sync>(
    rt: &R,
    alloc: Global,
    source: &mut I,
    stages: &mut Vec<S>,
    target: &mut Kept,
    quantum: u32,
) -> End {
    let mut bells = Rung { alloc, last: None };
    told(turn(rt, source, stages, target, quantum, &mut bells))
}

/// How a turn ends of stages that were fed these numbers, and how many rows the target was given first.
fn turn_fed<R: Threads + Wait + Sync>(
    rt: &R,
    alloc: Global,
    stages: &mut Vec<NotNull>,
    numbers: &[i64],
    quantum: u32,
) -> Result<(bool, End, u32), Memory> {
    let page = page(alloc, numbers)?;
    let was_fed = put(stages, page);
    let mut source = Nothing { is_ended: false };
    let mut target = empty_target(alloc);
    let end = turn_of(rt, alloc, &mut source, stages, &mut target, quantum);
    Ok((was_fed, end, first_rows(&mut target)))
}

#[test]
fn a_turn_ends_with_the_last_stage(rt: HostRuntime) -> Result<(), Memory> {
    let mut stages = stages(rt.alloc())?;
    let turned = turn_fed(&rt, rt.alloc(), &mut stages, &[1, 2, 3], 100)?;
    assert!(rt; turned == (true, End::Finished(6), 3));
    Ok(())
}

#[test]
fn a_turn_yields_at_its_quantum(rt: HostRuntime) -> Result<(), Memory> {
    let mut stages = stages(rt.alloc())?;
    let ten = [1, 2, 3, 4, 5, 6, 7, 8, 9, 10];
    let turned = turn_fed(&rt, rt.alloc(), &mut stages, &ten, 1)?;
    assert!(rt; turned == (true, End::Yield(10), 0));
    Ok(())
}

#[test]
fn a_turn_waits_until_its_target_has_ended(rt: HostRuntime) -> Result<(), Memory> {
    let mut stages: Vec<NotNull> = Vec::new(rt.alloc());
    let mut source = Nothing { is_ended: true };
    let mut target = target_of(rt.alloc(), 0, 1);
    let first = turn_of(&rt, rt.alloc(), &mut source, &mut stages, &mut target, 0);
    let second = turn_of(&rt, rt.alloc(), &mut source, &mut stages, &mut target, 9);
    assert!(rt; (first == at(0, 5)) & (second == End::Finished(0)));
    Ok(())
}

#[test]
fn a_turn_counts_asks_in_vain_and_then_waits(rt: HostRuntime) -> Result<(), Memory> {
    let mut stages: Vec<NotNull> = Vec::new(rt.alloc());
    let (mut source, mut target) = (source_of(3, 1), empty_target(rt.alloc()));
    let first = turn_of(&rt, rt.alloc(), &mut source, &mut stages, &mut target, 2);
    let second = turn_of(&rt, rt.alloc(), &mut source, &mut stages, &mut target, 9);
    let third = turn_of(&rt, rt.alloc(), &mut source, &mut stages, &mut target, 9);
    assert!(rt; (first == End::Yield(2)) & (second == at(1, 6)) & (third == End::Finished(0)));
    Ok(())
}

#[test]
fn the_target_is_named_before_a_stage_and_a_stage_before_the_source(
    rt: HostRuntime,
) -> Result<(), Memory> {
    let mut stages = Vec::with_capacity(rt.alloc(), 1)?;
    stages.push(noted(rt.alloc(), 4, 2))?;
    let (mut source, mut target) = (source_of(0, 3), target_of(rt.alloc(), 1, 0));
    let first = turn_of(&rt, rt.alloc(), &mut source, &mut stages, &mut target, 9);
    let second = turn_of(&rt, rt.alloc(), &mut source, &mut stages, &mut target, 9);
    let third = turn_of(&rt, rt.alloc(), &mut source, &mut stages, &mut target, 9);
    assert!(rt; (first == at(0, 5)) & (second == at(0, 4)) & (third == at(0, 6)));
    Ok(())
}

#[test]
fn what_the_stages_hold_moves_on_though_the_source_waits(rt: HostRuntime) -> Result<(), Memory> {
    let mut stages = stages(rt.alloc())?;
    let was_fed = put(&mut stages, page(rt.alloc(), &[1, 2, 3])?);
    let (mut source, mut target) = (source_of(0, 9), empty_target(rt.alloc()));
    let end = turn_of(&rt, rt.alloc(), &mut source, &mut stages, &mut target, 9);
    assert!(rt; was_fed & (end == at(6, 6)) & (first_rows(&mut target) == 3));
    Ok(())
}

#[test]
fn a_target_that_is_full_gets_its_page_later(rt: HostRuntime) -> Result<(), Memory> {
    let mut stages = stages(rt.alloc())?;
    let was_fed = put(&mut stages, page(rt.alloc(), &[1, 2, 3])?);
    let (mut source, mut target) = (source_of(0, 0), target_of(rt.alloc(), 2, 0));
    let first = turn_of(&rt, rt.alloc(), &mut source, &mut stages, &mut target, 9);
    let second = turn_of(&rt, rt.alloc(), &mut source, &mut stages, &mut target, 9);
    let was_blocked = was_fed & (first == at(3, 5));
    assert!(rt; was_blocked & (second == End::Finished(3)) & (first_rows(&mut target) == 3));
    Ok(())
}

/// A stage that gives its first two rows, once its note knows so after this many looks in vain.
fn noted(alloc: Global, bell: u32, looks: u32) -> NotedLimit {
    NotedLimit::new(alloc, Note::new(bell, 2, looks))
}

#[test]
fn a_turn_waits_until_a_note_knows(rt: HostRuntime) -> Result<(), Memory> {
    let mut stages = Vec::with_capacity(rt.alloc(), 1)?;
    stages.push(noted(rt.alloc(), 4, 1))?;
    let mut source = Nothing { is_ended: false };
    let mut target = empty_target(rt.alloc());
    let first = turn_of(&rt, rt.alloc(), &mut source, &mut stages, &mut target, 9);
    let second = turn_of(&rt, rt.alloc(), &mut source, &mut stages, &mut target, 9);
    assert!(rt; (first == at(0, 4)) & (second == End::Finished(0)));
    Ok(())
}

#[test]
fn stages_are_looked_at_one_after_the_other(rt: HostRuntime) -> Result<(), Memory> {
    let mut stages = Vec::with_capacity(rt.alloc(), 2)?;
    for place in 0..2 {
        stages.push(noted(rt.alloc(), 4 + place, place))?;
    }
    let mut bells = Rung {
        alloc: rt.alloc(),
        last: None,
    };
    let waits = look_at_stages(&rt, &mut stages, &mut bells)?;
    assert!(rt; waits.map_or(0, |on| on.bell) == 5);
    Ok(())
}
