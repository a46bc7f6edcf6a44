use crate::numbered::{number_behind, numbered};
use exchange_client::Fetch;
use page_window::PushMemory;
use run_ports::{Courier, ReplayCourier};
use sql_values::Memory;
use std::alloc::Global;
use test_fixtures::Script;

/// Puts the page of this number where there is room, and says whether there was.
fn put<C: Courier>(fetch: &mut Fetch<C>, alloc: Global, number: u32) -> Result<bool, Memory> {
    if fetch.is_ended() || !fetch.has_room() {
        return Ok(false);
    }
    let page = numbered(alloc, number)?;
    match fetch.push(page) {
        Ok(()) => Ok(true),
        Err(PushMemory(_)) => Err(Memory),
    }
}

/// Puts so many pages, numbered from this number on, as far as there is room. Gives the number behind them.
pub(crate) fn put_all<C: Courier>(
    fetch: &mut Fetch<C>,
    alloc: Global,
    first: u32,
    count: u8,
) -> Result<u32, Memory> {
    let mut number = first;
    for _ in 0..count {
        if put(fetch, alloc, number)? {
            number = number.saturating_add(1);
        }
    }
    Ok(number)
}

/// The number behind the pages that were put, and behind those that were given.
#[derive(Drop)]
struct Progress {
    put: u32,
    given: u32,
}

impl Progress {
    fn new() -> Progress {
        Progress { put: 0, given: 0 }
    }

    /// Takes a step, and says how many pages it gave, or nothing where they do not go on in a row.
    fn step<C: Courier>(&mut self, fetch: &mut Fetch<C>) -> Result<Option<u32>, Memory> {
        let given = self.given;
        let Some(behind) = number_behind(fetch.step()?, given) else {
            return Ok(None);
        };
        self.given = behind;
        Ok(Some(behind.saturating_sub(given)))
    }

    /// The same, once so many pages were put, as far as there is room.
    fn put_and_step<C: Courier>(
        &mut self,
        fetch: &mut Fetch<C>,
        alloc: Global,
        puts: u8,
    ) -> Result<Option<u32>, Memory> {
        self.put = put_all(fetch, alloc, self.put, puts)?;
        self.step(fetch)
    }
}

/// The number that a digit stands for.
fn digit(word: u8) -> u8 {
    word.saturating_sub(b'0')
}

/// Whether steps give so many pages: before each step so many are put. The numbers are digits.
fn gives<C: Courier>(
    fetch: &mut Fetch<C>,
    alloc: Global,
    puts: &[u8],
    wants: &[u8],
) -> Result<bool, Memory> {
    let mut progress = Progress::new();
    for (place, puts) in puts.iter().enumerate() {
        let want = wants.get(place).map(|&want| u32::from(digit(want)));
        if progress.put_and_step(fetch, alloc, digit(*puts))? != want {
            return Ok(false);
        }
    }
    Ok(true)
}

/// Whether a courier of this text makes a fetch give so many pages, step by step.
fn is_given(alloc: Global, case: &str) -> Result<bool, Memory> {
    let Some((script, counts)) = case.split_once(' ') else {
        return Ok(false);
    };
    let Some((puts, wants)) = counts.split_once(' ') else {
        return Ok(false);
    };
    let mut fetch = Fetch::new(alloc, Script::of(script), 16);
    gives(&mut fetch, alloc, puts.as_bytes(), wants.as_bytes())
}

/// What arrives; how many pages are put before each step; how many each step gives.
const CASES: &str = "\
F 111 111
NF 10 01
N1F 110 011
NN1F 1100 0011
NN0F 1100 0020
NN3F 1100 0011
F0 110 101
F0F 110 101
0F 11 02
NNNNNNNNN7 1111111110 0000000002
NNNNNNNNN8 1111111110 0000000009";

#[test]
fn an_earlier_reply_arrives_as_it_was(rt: HostRuntime) -> Result<(), Memory> {
    for case in CASES.lines() {
        assert!(rt; is_given(rt.alloc(), case)?);
    }
    Ok(())
}

/// Whether a page that was put comes at the step after so many that give none.
fn comes_after<C: Courier>(
    fetch: &mut Fetch<C>,
    alloc: Global,
    count: u32,
) -> Result<bool, Memory> {
    let mut progress = Progress::new();
    for number in 0..count {
        let puts = u8::from(number == 0);
        if progress.put_and_step(fetch, alloc, puts)? != Some(0) {
            return Ok(false);
        }
    }
    Ok(progress.step(fetch)? == Some(1))
}

#[test]
fn a_page_comes_after_64_steps_that_gave_none(rt: HostRuntime) -> Result<(), Memory> {
    let mut fetch = Fetch::new(rt.alloc(), Script::of("N"), 16);
    assert!(rt; comes_after(&mut fetch, rt.alloc(), 64)?);
    Ok(())
}

/// Takes so many steps, each after some pages were put, and says whether the pages that were given are in a row.
fn run<C: Courier>(
    progress: &mut Progress,
    fetch: &mut Fetch<C>,
    alloc: Global,
    steps: u32,
) -> Result<bool, Memory> {
    for number in 0..steps {
        if progress
            .put_and_step(fetch, alloc, (number % 7) as u8)?
            .is_none()
        {
            return Ok(false);
        }
    }
    Ok(true)
}

/// Whether an ended fetch gives the pages that are left, and then is complete.
fn ends<C: Courier>(progress: &mut Progress, fetch: &mut Fetch<C>) -> Result<bool, Memory> {
    for _ in 0..300 {
        if progress.step(fetch)?.is_none() {
            return Ok(false);
        }
    }
    Ok(progress.given == progress.put && fetch.is_drained() && fetch.is_complete())
}

/// Whether each page that is put in so many steps is given once, in order.
fn gives_each_once<C: Courier>(
    fetch: &mut Fetch<C>,
    alloc: Global,
    steps: u32,
) -> Result<bool, Memory> {
    let mut progress = Progress::new();
    let in_a_row = run(&mut progress, fetch, alloc, steps)?;
    fetch.end();
    Ok(in_a_row && ends(&mut progress, fetch)? && progress.put > 100)
}

#[test]
fn ten_couriers_give_each_page_once(rt: HostRuntime) -> Result<(), Memory> {
    for number in 1..11 {
        let courier = ReplayCourier::new().for_edge(number, 3);
        let mut fetch = Fetch::new(rt.alloc(), courier, 16);
        assert!(rt; gives_each_once(&mut fetch, rt.alloc(), 10_000)?);
    }
    Ok(())
}

#[test]
fn couriers_that_repeat_and_lose_give_each_page_once(rt: HostRuntime) -> Result<(), Memory> {
    for script in ["N0F", "N", "9"] {
        let mut fetch = Fetch::new(rt.alloc(), Script::of(script), 16);
        assert!(rt; gives_each_once(&mut fetch, rt.alloc(), 1_000)?);
    }
    Ok(())
}
