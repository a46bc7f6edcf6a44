//! Targets and sources of one edge, call by call.
ghost use Rattle.std.specs.Prelude.{◌≡◌, ◌<◌, [], All};

use crate::counted::{CountingBells, page_of, write_page, write_rings, write_wait};
use driver_ends::{DealTarget, EdgeEnd, RemoteSource};
use output_buffer::{Spread, SpreadTake};
use sql_values::Memory;
use std::alloc::Global;
use std::sync::Wait;
use std::thread::Threads;

/// The bell of the pieces is 0, that of the places 1. `ready` is of the target, `look`, `take` and `over` are of a
/// source, by its number.
const DEALS: &str =
    "look:0 put:1,2 ready take:0 look:0 take:0 take:0 rings|bell0at0 ready - ready 1,2, - 1 1
put:1 ready put:2 ready look:1 ready look:0 take:0 take:1 rings|ready bell1at0 ready ready ready 2, 1, 2 2
put:1 ready finish ready look:0 ready look:0 ready done look:1 look:0 over:0 over:1 take:0 over:0 ready look:0 over:0 done rings|ready bell1at0 ready bell1at1 ready bell1at1 n ready ready n y 1, n ready ready y y 3 3
finish ready look:1 ready look:1 over:1 over:0 look:0 over:0 done|bell1at0 ready ready ready y n ready y y";

/// A target, and the sources that share its edge.
#[derive(Drop)]
struct Dealt<'e> {
    target: DealTarget<'e>,
    sources: Vec<RemoteSource<'e>>,
    bells: CountingBells,
    text: String,
}

impl<'e> Dealt<'e> {
    fn say(&mut self, truth: bool) -> Result<(), Memory> {
        self.text.push_str(if truth { "y " } else { "n " })?;
        Ok(())
    }

    fn put(&mut self, alloc: Global, numbers: &str) -> Result<(), Memory> {
        let page = page_of(alloc, numbers)?;
        if !self.target.wants() {
            return self.say(false);
        }
        self.target.put(page);
        Ok(())
    }

    fn ready<R: Threads + Wait + Sync>(&mut self, rt: &R) -> Result<(), Memory> {
        let on = self.target.advance(rt, &mut self.bells)?;
        write_wait(&mut self.text, on)
    }

    fn look<R: Threads + Wait + Sync>(&mut self, rt: &R, by: usize) -> Result<(), Memory> {
        if by >= self.sources.len() {
            return Ok(());
        }
        let on = self.sources[by].advance(rt, &mut self.bells)?;
        write_wait(&mut self.text, on)
    }

    fn take(&mut self, by: usize) -> Result<(), Memory> {
        if by >= self.sources.len() {
            return Ok(());
        }
        match self.sources[by].take() {
            Some(page) => write_page(&mut self.text, &page),
            None => Ok(self.text.push_str("- ")?),
        }
    }

    fn over(&mut self, by: usize) -> Result<(), Memory> {
        if by >= self.sources.len() {
            return Ok(());
        }
        let is_over = self.sources[by].is_ended();
        self.say(is_over)
    }

    fn ask<R: Threads + Wait + Sync>(
        &mut self,
        rt: &R,
        word: &str,
        by: usize,
    ) -> Result<(), Memory> {
        match word {
            "look" => self.look(rt, by),
            "take" => self.take(by),
            "over" => self.over(by),
            "ready" => self.ready(rt),
            "done" => {
                let is_finished = self.target.is_finished();
                self.say(is_finished)
            }
            "rings" => write_rings(&mut self.text, &self.bells),
            _ => Ok(()),
        }
    }

    fn call<R: Threads + Wait + Sync>(
        &mut self,
        rt: &R,
        alloc: Global,
        word: &str,
    ) -> Result<(), Memory> {
        if word == "finish" {
            self.target.finish();
            return Ok(());
        }
        match word.split_once(':') {
            Some(("put", numbers)) => self.put(alloc, numbers),
            Some((word, by)) => self.ask(rt, word, by.parse::<usize>().unwrap_or(0)),
            None => self.ask(rt, word, 0),
        }
    }

    fn call_all<R: Threads + Wait + Sync>(
        &mut self,
        rt: &R,
        alloc: Global,
        words: &str,
    ) -> Result<(), Memory> {
        for word in words.split(' ') {
            self.call(rt, alloc, word)?;
        }
        Ok(())
    }
}

/// The sources of these seats.
fn sources_of<'e>(
    alloc: Global,
    seats: Vec<SpreadTake<'e>>,
) -> Result<Vec<RemoteSource<'e>>, Memory>
    requires { All (λ seat. seat.took ≡ []) seats.items }
{
    let mut sources = Vec::new(alloc);
    for seat in seats {
        sources.push(RemoteSource::new(seat))?;
    }
    Ok(sources)
}

/// Whether the calls of a line say what it wants, on an edge with room for one piece and with two takers.
fn line_holds<R: Threads + Wait + Sync>(rt: &R, alloc: Global, line: &str) -> Result<bool, Memory> {
    let Some((words, wanted)) = line.split_once('|') else {
        return Ok(false);
    };
    let mut edge = Spread::new(alloc, 2, 1, 0, 1)?;
    let (seat, seats) = edge.seats()?;
    let mut dealt = Dealt {
        target: DealTarget::new(seat),
        sources: sources_of(alloc, seats)?,
        bells: CountingBells::new(alloc, 2)?,
        text: String::new(alloc),
    };
    dealt.call_all(rt, alloc, words)?;
    Ok(dealt.text.as_str().trim_end() == wanted)
}

#[test]
fn a_deal_and_its_sources_go_on_as_they_can(rt: HostRuntime) -> Result<(), Memory> {
    for line in DEALS.lines() {
        assert!(rt; line_holds(&rt, rt.alloc(), line)?);
    }
    Ok(())
}
