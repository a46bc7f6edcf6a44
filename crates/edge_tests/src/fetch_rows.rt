//! A source that fetches, and the targets that put to its edge, call by call.
ghost use Rattle.std.specs.Prelude.{◌≡◌, [], All, false};

use crate::counted::{CountingBells, page_of, write_page, write_rings, write_wait};
use driver_ends::{EdgeEnd, FetchSource, PutKind, PutTarget};
use output_buffer::{Gather, GatherPut};
use run_ports::{Courier, ReplayCourier};
use sql_values::Memory;
use stage_moves::{PageSource, Ready};
use std::alloc::Global;
use std::sync::Wait;
use std::thread::Threads;
use test_fixtures::Script;

/// The courier's turns; then calls. `a:1,2` and `b:3` put a page to the edge, `enda` and `endb` an End. `look` says what
/// the source found, and `feed` does not. `run` takes what comes, for a while. A word may stand for several, as `feed*9`.
/// The bell of the pieces is 0, that of the places 1.
const FETCHES: &str =
    "F|look take a:1,2 look look take take over enda endb look over look over look over rings|bell0at0 - now now 1,2, - n now n now n now y 3 3
F|a:1 look look take look|now now 1, bell0at1
F|b:5 endb a:1 look look take look look over take enda look look over|now now 5, now now n 1, now now y
F|a:7*40 look look feed*40 rings take look rings|now now 40 32 7, now 40 33
NNFNFNF|a:1 look look look take enda endb look look over look over look over|now missed now 1, now now n missed n now y
F0FF1F|a:1 look look look take a:2 look look look take|now missed now 1, now missed now 2,
N|a:1 a:2 look look*3 a:3 enda endb run over|now missed missed missed 1, 2, 3, y";

const REPLAYS: &str = "a:1 a:2 run b:3 a:4 endb a:5 enda run over|1, 2, 3, 4, 5, y";

/// A source, and the targets that share its edge.
#[derive(Drop)]
struct Fetched<'e, C: Courier> {
    targets: Vec<PutTarget<'e>>,
    source: FetchSource<'e, C>,
    bells: CountingBells,
    text: String,
}

impl<'e, C: Courier> Fetched<'e, C> {
    fn put<R: Threads + Wait + Sync>(
        &mut self,
        rt: &R,
        alloc: Global,
        by: usize,
        numbers: &str,
    ) -> Result<(), Memory> {
        let page = page_of(alloc, numbers)?;
        if by >= self.targets.len() || !self.targets[by].wants() {
            return Ok(());
        }
        self.targets[by].put(page)?;
        self.targets[by].advance(rt, &mut self.bells)?;
        Ok(())
    }

    fn end<R: Threads + Wait + Sync>(&mut self, rt: &R, by: usize) -> Result<(), Memory> {
        if by >= self.targets.len() {
            return Ok(());
        }
        self.targets[by].finish();
        self.targets[by].advance(rt, &mut self.bells)?;
        Ok(())
    }

    fn look<R: Threads + Wait + Sync>(&mut self, rt: &R) -> Result<(), Memory> {
        match self.source.ready(rt, &mut self.bells)? {
            Ready::Now => self.text.push_str("now ")?,
            Ready::Missed => self.text.push_str("missed ")?,
            Ready::Blocked(on) => write_wait(&mut self.text, Some(on))?,
        }
        Ok(())
    }

    fn take(&mut self) -> Result<bool, Memory> {
        match self.source.take() {
            Some(page) => {
                write_page(&mut self.text, &page)?;
                Ok(true)
            }
            None => Ok(false),
        }
    }

    fn run<R: Threads + Wait + Sync>(&mut self, rt: &R) -> Result<(), Memory> {
        for _ in 0..400u16 {
            self.source.ready(rt, &mut self.bells)?;
            self.take()?;
        }
        Ok(())
    }

    fn ask<R: Threads + Wait + Sync>(&mut self, rt: &R, word: &str) -> Result<(), Memory> {
        match word {
            "look" => self.look(rt),
            "feed" => {
                self.source.ready(rt, &mut self.bells)?;
                Ok(())
            }
            "run" => self.run(rt),
            "rings" => write_rings(&mut self.text, &self.bells),
            _ => Ok(()),
        }
    }

    fn say(&mut self, word: &str) -> Result<(), Memory> {
        if word == "over" {
            let is_over = self.source.is_ended();
            self.text.push_str(if is_over { "y " } else { "n " })?;
        }
        if word == "take" && !self.take()? {
            self.text.push_str("- ")?;
        }
        Ok(())
    }

    fn call<R: Threads + Wait + Sync>(
        &mut self,
        rt: &R,
        alloc: Global,
        word: &str,
    ) -> Result<(), Memory> {
        match word.split_once(':') {
            Some(("a", numbers)) => return self.put(rt, alloc, 0, numbers),
            Some((_, numbers)) => return self.put(rt, alloc, 1, numbers),
            None => {}
        }
        match word {
            "enda" => self.end(rt, 0),
            "endb" => self.end(rt, 1),
            "take" | "over" => self.say(word),
            _ => self.ask(rt, word),
        }
    }

    fn call_times<R: Threads + Wait + Sync>(
        &mut self,
        rt: &R,
        alloc: Global,
        word: &str,
    ) -> Result<(), Memory> {
        let (word, times) = word.split_once('*').unwrap_or((word, "1"));
        for _ in 0..times.parse::<u8>().unwrap_or(1) {
            self.call(rt, alloc, word)?;
        }
        Ok(())
    }

    fn call_all<R: Threads + Wait + Sync>(
        &mut self,
        rt: &R,
        alloc: Global,
        words: &str,
    ) -> Result<(), Memory> {
        for word in words.split(' ') {
            self.call_times(rt, alloc, word)?;
        }
        Ok(())
    }
}

fn target_of<'e>(alloc: Global, seat: GatherPut<'e>) -> Result<PutTarget<'e>, Memory>
    requires { seat.put ≡ [] }
{
    let mut seats = Vec::new(alloc);
    seats.push(seat)?;
    PutTarget::new(alloc, PutKind::One, seats)
}

/// A target for each of these seats.
fn targets_of<'e>(alloc: Global, seats: Vec<GatherPut<'e>>) -> Result<Vec<PutTarget<'e>>, Memory>
    requires { All (λ seat. seat.put ≡ []) seats.items }
{
    let mut targets = Vec::new(alloc);
    for seat in seats {
        targets.push(target_of(alloc, seat)?)?;
    }
    Ok(targets)
}

/// A source that fetches, on an edge, and its targets.
fn fetched_over<'e, C: Courier>(
    alloc: Global,
    edge: &'e mut Gather,
    courier: C,
) -> Result<Fetched<'e, C>, Memory>
    requires { edge.old.is_handed_out ≡ false }
{
    let (puts, take) = edge.seats()?;
    let targets = targets_of(alloc, puts)?;
    let bells = CountingBells::new(alloc, 2)?;
    Ok(Fetched {
        targets,
        source: FetchSource::new(alloc, take, courier, 16),
        bells,
        text: String::new(alloc),
    })
}

/// What calls say on an edge with room for fifty pieces and with two putters.
fn said<R: Threads + Wait + Sync, C: Courier>(
    rt: &R,
    alloc: Global,
    courier: C,
    words: &str,
) -> Result<String, Memory> {
    let mut edge = Gather::new(alloc, 2, 50, 0, 1)?;
    let mut fetched = fetched_over(alloc, &mut edge, courier)?;
    fetched.call_all(rt, alloc, words)?;
    Ok(fetched.text)
}

/// Whether the calls of a line say what it wants.
fn line_holds<R: Threads + Wait + Sync>(rt: &R, alloc: Global, line: &str) -> Result<bool, Memory> {
    let mut parts = line.split('|');
    let (Some(turns), Some(words), Some(wanted)) = (parts.next(), parts.next(), parts.next()) else {
        return Ok(false);
    };
    let text = said(rt, alloc, Script::of(turns), words)?;
    Ok(text.as_str().trim_end() == wanted)
}

/// Whether the calls say what is wanted, whatever number a replay has.
fn replay_holds<R: Threads + Wait + Sync>(
    rt: &R,
    alloc: Global,
    number: u64,
) -> Result<bool, Memory> {
    let Some((words, wanted)) = REPLAYS.split_once('|') else {
        return Ok(false);
    };
    let courier = ReplayCourier::new().for_edge(number, 1);
    let text = said(rt, alloc, courier, words)?;
    Ok(text.as_str().trim_end() == wanted)
}

#[test]
fn a_source_fetches_as_its_courier_lets_it(rt: HostRuntime) -> Result<(), Memory> {
    for line in FETCHES.lines() {
        assert!(rt; line_holds(&rt, rt.alloc(), line)?);
    }
    Ok(())
}

#[test]
fn pages_come_once_and_in_order_under_each_number(rt: HostRuntime) -> Result<(), Memory> {
    for number in 0..6u64 {
        assert!(rt; replay_holds(&rt, rt.alloc(), number)?);
    }
    Ok(())
}
