//! Targets of one edge and of three, call by call.
ghost use Rattle.std.specs.Prelude.{◌≡◌, ◌<◌, [], All, IfOk, false, length};

use crate::counted::{CountingBells, page_of, write_piece, write_rings, write_wait};
use blocked::{Bells, ReadBell, Seen};
use driver_ends::{PutKind, PutTarget};
use output_buffer::{Gather, GatherPut, GatherTake, Partitioner, Took};
use sql_values::Memory;
use stage_moves::PageTarget;
use std::alloc::Global;
use std::sync::Wait;
use std::thread::Threads;

/// For each edge there are two bells: that of its pieces, and that of its places. `wants`, `told` and `done` say `y` or
/// `n`; `put` says so only where the page is not wanted. `ready` names a bell and the count that was read. `take` gives
/// the next piece of an edge.
const CALLS: &str = "one 1 1|wants put:1,2 wants ready wants|y n ready y
one 1 1|put:1,2 ready put:3 ready wants rings|ready bell1at0 n 1 0
one 1 1|put:1,2 ready put:3 ready take:0 ready wants take:0 take:0 rings|ready bell1at0 1,2, ready y 3, - 2 2
one 1 1|put:1 ready finish wants told done ready done take:0 ready done take:0 rings|ready n y n bell1at0 n 1, ready y end0 2 2
one 1 1|put:1 ready put:2 finish ready take:0 ready take:0 ready take:0 done|ready bell1at0 1, bell1at1 2, ready end0 y
one 1 4|put: ready wants put: ready take:0 finish ready take:0|ready y ready - ready end0
each 3 2|put:1,2 ready put:3 ready take:0 take:1 take:2 take:2 rings|ready ready 1,2, 1,2, 1,2, 3, 2 1 2 1 2 2
each 3 1|put:1 ready put:2 ready take:0 ready take:1 ready take:2 ready wants|ready bell1at0 1, bell3at0 1, bell5at0 1, ready y
each 3 1|finish ready take:0 take:1 take:2 done rings|ready end0 end0 end0 y 1 1 1 1 1 1
hash 3 4|put:1,2 ready wants put:1,12345 ready take:0 put:2,-1 ready take:0 take:1 take:2 take:0 rings|ready y ready - ready 2,2, 12345,-1, 1,1, - 1 1 1 1 1 1
hash 3 4|put:1,2,1,12345,2,-1 ready put:2 ready finish told done ready done take:0 take:1 take:2 take:0 rings|ready ready y n ready y 2,2,2, 12345,-1, 1,1, end0 2 2 2 1 2 1
hash 3 4|put:1,2 put:1,2,2,12345 ready put:2 put:2 put:2 put:2 put:2 put:2 ready take:0 take:1 take:2|ready ready 2,2,2,2,2,2,2,2,2, 12345, 1,1,
hash 3 1|put:1,2 put:2,12345 put:2,-1 ready put:1,2 wants put:1,2 put:1,2 ready wants take:0 ready take:2 finish ready take:0 ready|ready y bell1at0 n 2,2,2, bell5at0 1, bell1at1 2,2,2, bell3at0
hash 1 4|put:1,2 ready take:0|ready 1,2,
";

/// A target, and what takes from its edges.
#[derive(Drop)]
struct Ends<'e> {
    target: PutTarget<'e>,
    takes: Vec<GatherTake<'e>>,
    bells: CountingBells,
    text: String,
}

impl<'e> Ends<'e> {
    fn say(&mut self, truth: bool) -> Result<(), Memory> {
        self.text.push_str(if truth { "y " } else { "n " })?;
        Ok(())
    }

    fn put(&mut self, alloc: Global, numbers: &str) -> Result<(), Memory> {
        let page = page_of(alloc, numbers)?;
        if !self.target.wants() {
            return self.say(false);
        }
        self.target.put(page)
    }

    fn ready<R: Threads + Wait + Sync>(&mut self, rt: &R) -> Result<(), Memory> {
        let on = PageTarget::ready(&mut self.target, rt, &mut self.bells)?;
        write_wait(&mut self.text, on)
    }

    fn take<R: Threads + Wait + Sync>(&mut self, rt: &R, edge: usize) -> Result<(), Memory> {
        if edge >= self.takes.len() {
            return Ok(());
        }
        let bell = self.takes[edge].piece_bell();
        let seen = Seen::read(rt, &mut self.bells, bell);
        let Ok(Took { piece, due }) = self.takes[edge].take(rt, seen) else {
            self.text.push_str("- ")?;
            return Ok(());
        };
        self.bells.ring(rt, due)?;
        write_piece(&mut self.text, &piece)
    }

    fn ask(&mut self, word: &str) -> Result<(), Memory> {
        match word {
            "wants" => {
                let wants = self.target.wants();
                self.say(wants)
            }
            "told" => {
                let is_told = self.target.is_told();
                self.say(is_told)
            }
            "done" => {
                let is_finished = self.target.is_finished();
                self.say(is_finished)
            }
            "rings" => write_rings(&mut self.text, &self.bells),
            _ => Ok(()),
        }
    }

    fn call<R: Threads + Wait + Sync>(
        &mut self,
        rt: &R,
        alloc: Global,
        word: &str,
    ) -> Result<(), Memory> {
        if let Some(numbers) = word.strip_prefix("put:") {
            return self.put(alloc, numbers);
        }
        if let Some(edge) = word.strip_prefix("take:") {
            return self.take(rt, edge.parse::<usize>().unwrap_or(0));
        }
        match word {
            "ready" => self.ready(rt),
            "finish" => {
                self.target.finish();
                Ok(())
            }
            _ => self.ask(word),
        }
    }

    fn call_all<R: Threads + Wait + Sync>(
        &mut self,
        rt: &R,
        alloc: Global,
        words: &str,
    ) -> Result<(), Memory> {
        for word in words.split(' ') {
            self.call(rt, alloc, word)?;
        }
        Ok(())
    }
}

/// Edges of one putter each.
fn edges_of(alloc: Global, count: usize, room: u32) -> Result<Vec<Gather>, Memory>
    requires { 0 < room }
{
    let mut edges = Vec::new(alloc);
    let mut bell = 0u32;
    for _ in 0..count {
        edges.push(Gather::new(alloc, 1, room, bell, bell.saturating_add(1))?)?;
        bell = bell.saturating_add(2);
    }
    Ok(edges)
}

/// The seats of an edge, behind others.
fn seat_edge<'e>(
    edge: &'e mut Gather,
    puts: &mut Vec<GatherPut<'e>>,
    takes: &mut Vec<GatherTake<'e>>,
) -> Result<(), Memory>
    requires { All (λ seat. seat.put ≡ []) puts.old.items }
    ensures { All (λ seat. seat.put ≡ []) puts.new.items }
{
    if edge.is_handed_out() {
        return Ok(());
    }
    let (mut seats, take) = edge.seats()?;
    takes.push(take)?;
    let Some(seat) = seats.pop() else {
        return Ok(());
    };
    puts.push(seat)?;
    Ok(())
}

/// The seats of edges, behind others.
fn seat_all<'e>(
    edges: &'e mut [Gather],
    puts: &mut Vec<GatherPut<'e>>,
    takes: &mut Vec<GatherTake<'e>>,
) -> Result<(), Memory>
    requires { All (λ seat. seat.put ≡ []) puts.old.items }
    ensures { All (λ seat. seat.put ≡ []) puts.new.items }
{
    match edges {
        [] => Ok(()),
        [edge, rest @ ..] => {
            seat_edge(edge, puts, takes)?;
            seat_all(rest, puts, takes)
        }
    }
}

fn target_of<'e>(
    alloc: Global,
    kind: &str,
    puts: Vec<GatherPut<'e>>,
) -> Result<Option<PutTarget<'e>>, Memory>
    requires { All (λ seat. seat.put ≡ []) puts.items }
{
    let outlets = puts.len();
    if outlets == 0 || outlets > 9 {
        return Ok(None);
    }
    if kind == "each" {
        return Ok(Some(PutTarget::new(alloc, PutKind::Each, puts)?));
    }
    if kind == "one" && outlets == 1 {
        return Ok(Some(PutTarget::new(alloc, PutKind::One, puts)?));
    }
    let by = Partitioner::new(Vec::from_elem(alloc, 0u32, 1)?, outlets as u32);
    Ok(Some(PutTarget::new(alloc, PutKind::Hash(by), puts)?))
}

/// What the calls say.
fn said<R: Threads + Wait + Sync>(
    rt: &R,
    alloc: Global,
    kind: &str,
    edges: &mut [Gather],
    words: &str,
) -> Result<String, Memory> {
    let bells = CountingBells::new(alloc, edges.len().saturating_mul(2))?;
    let mut puts = Vec::new(alloc);
    let mut takes = Vec::new(alloc);
    seat_all(edges, &mut puts, &mut takes)?;
    let Some(target) = target_of(alloc, kind, puts)? else {
        return Ok(String::new(alloc));
    };
    let text = String::new(alloc);
    let mut ends = Ends {
        target,
        takes,
        bells,
        text,
    };
    ends.call_all(rt, alloc, words)?;
    Ok(ends.text)
}

/// Whether the calls of a line say what it wants.
fn line_holds<R: Threads + Wait + Sync>(rt: &R, alloc: Global, line: &str) -> Result<bool, Memory> {
    let mut parts = line.split('|');
    let (Some(made), Some(words), Some(wanted)) = (parts.next(), parts.next(), parts.next()) else {
        return Ok(line.is_empty());
    };
    let mut made = made.split(' ');
    let (Some(kind), Some(count), Some(room)) = (made.next(), made.next(), made.next()) else {
        return Ok(false);
    };
    let room = room.parse::<u32>().unwrap_or(0);
    if room == 0 {
        return Ok(false);
    }
    let mut edges = edges_of(alloc, count.parse::<usize>().unwrap_or(0), room)?;
    let text = said(rt, alloc, kind, edges.as_mut_slice(), words)?;
    Ok(text.as_str().trim_end() == wanted)
}

#[test]
fn targets_put_as_their_edges_have_room(rt: HostRuntime) -> Result<(), Memory> {
    for line in CALLS.lines() {
        assert!(rt; line_holds(&rt, rt.alloc(), line)?);
    }
    Ok(())
}
