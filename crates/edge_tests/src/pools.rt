//! Of `worker_pool`, how runs of small casts end, on one worker and on more.
use crate::actors::{Actor, Scene, cast_of};
use sql_values::Memory;
use std::alloc::Global;
use std::fmt::Write;
use std::random::RandomSource;
use std::sync::Wait;
use std::thread::Threads;
use worker_pool::{Done, RunEnd, run_on_workers};

/// A cast, how many bells there are, and how its run ends: the end, and each actor that comes back with its place in the
/// cast and whether it is finished (`f`), has failed (`x`), or neither (`-`).
const RUNS: &str = "\
count:1|0|finished 0f\n\
count:3 count:1 count:5 count:2 count:4 count:1 count:7 count:1 count:9|0|finished 0f 1f 2f 3f 4f 5f 6f 7f 8f\n\
wait:5 wait:1 wait:3 wait:5 open:5|1|finished 0f 1f 2f 3f 4f\n\
wait:40 open:20 wait:20 open:20 wait:30|1|finished 0f 1f 2f 3f 4f\n\
open1:3 wait:1 open:1 wait1:3|2|finished 0f 1f 2f 3f\n\
wait1:2 wait:2 open:2 open1:2 wait1:1|2|finished 0f 1f 2f 3f 4f\n\
wait:1 fail:3|1|failed1 0- 1x\n\
count:4000000000 wait:1 fail:3 count:4000000000|1|failed2 0- 1- 2x 3-\n\
wait:1 count:3 wait:1|1|stuck0 0- 1f 2-\n\
count:2 wait:1 count:1|0|stuck1 0f 1- 2f\n";

fn write_end(text: &mut String, end: &RunEnd) -> Result<(), Memory> {
    match end {
        RunEnd::Finished => text.push_str("finished")?,
        RunEnd::Failed(place) => write!(text, "failed{place}")?,
        RunEnd::Stuck(place) => write!(text, "stuck{place}")?,
    }
    Ok(())
}

fn write_actors(text: &mut String, actors: &Vec<Actor<'_>>) -> Result<(), Memory> {
    for actor in actors {
        write!(text, " {}{}", actor.number, actor.state())?;
    }
    Ok(())
}

fn text_of(alloc: Global, done: &Done<Actor<'_>>) -> Result<String, Memory> {
    let mut text = String::new(alloc);
    write_end(&mut text, &done.end)?;
    write_actors(&mut text, &done.items)?;
    Ok(text)
}

/// How the run of a cast ends.
fn play<R>(rt: &R, alloc: Global, cast: &str, bells: u32, workers: usize) -> Result<String, Memory>
where
    R: Threads + Wait + Sync + RandomSource + AllocGlobal,
{
    let scene = Scene::new(alloc, false);
    let actors = cast_of(alloc, &scene, cast)?;
    let done = run_on_workers(rt, alloc, actors, workers, 10, bells)?;
    text_of(alloc, &done)
}

/// Whether the run of a line ends as it says.
fn ends_so<R>(rt: &R, alloc: Global, line: &str, workers: usize) -> Result<bool, Memory>
where
    R: Threads + Wait + Sync + RandomSource + AllocGlobal,
{
    let (cast, rest) = line.split_once("|").unwrap_or((line, ""));
    let (bells, want) = rest.split_once("|").unwrap_or((rest, ""));
    let bells = bells.parse::<u32>().unwrap_or(0);
    Ok(play(rt, alloc, cast, bells, workers)?.as_str() == want)
}

/// The number of the first run that ends otherwise; 0 where there is none.
fn first_wrong<R>(rt: &R, alloc: Global, workers: usize) -> Result<u32, Memory>
where
    R: Threads + Wait + Sync + RandomSource + AllocGlobal,
{
    let mut number: u32 = 0;
    for line in RUNS.lines() {
        number = number.saturating_add(1);
        if !ends_so(rt, alloc, line, workers)? {
            return Ok(number);
        }
    }
    Ok(0)
}

#[test]
fn runs_end_the_same_on_any_number_of_workers(rt: HostRuntime) -> Result<(), Memory> {
    for workers in [0, 1, 2, 8] {
        assert!(rt; first_wrong(&rt, rt.alloc(), workers)? == 0);
    }
    Ok(())
}

/// Whether one of two actors that fail is named, and all three came back.
fn names_a_fault(text: &str) -> bool {
    matches!(
        text,
        "failed1 0- 1x 2x" | "failed1 0- 1x 2-" | "failed2 0- 1x 2x" | "failed2 0- 1- 2x"
    )
}

#[test]
fn of_two_faults_one_is_named(rt: HostRuntime) -> Result<(), Memory> {
    for workers in [1, 2, 8] {
        let text = play(&rt, rt.alloc(), "wait:1 fail:1 fail:1", 1, workers)?;
        assert!(rt; names_a_fault(text.as_str()));
    }
    Ok(())
}

/// The numbers of the actors in the order of their turns, on one worker.
fn turns_of<R>(rt: &R, alloc: Global, cast: &str) -> Result<String, Memory>
where
    R: Threads + Wait + Sync + RandomSource + AllocGlobal,
{
    let scene = Scene::new(alloc, true);
    let actors = cast_of(alloc, &scene, cast)?;
    let _ = run_on_workers(rt, alloc, actors, 1, 10, 1)?;
    Ok(scene.into_turns())
}

#[test]
fn one_worker_gives_turns_as_the_queue_picks(rt: HostRuntime) -> Result<(), Memory> {
    let two = turns_of(&rt, rt.alloc(), "count:3 long:2")?;
    let parked = turns_of(&rt, rt.alloc(), "wait:1 count:2 open:1")?;
    let first_fault = turns_of(&rt, rt.alloc(), "fail:2 fail:1 count:9")?;
    assert!(rt;
        two.as_str() == "01001" && parked.as_str() == "01210" && first_fault.as_str() == "01"
    );
    Ok(())
}
