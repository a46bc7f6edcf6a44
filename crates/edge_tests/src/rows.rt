//! Rows that were worked out by hand: what a window, a client that reads another window, and a fetch answer.
ghost use Rattle.std.specs.Prelude.{◌<◌};

use crate::fetches::put_all;
use crate::numbered::{number_behind, numbered};
use col_pages::PageList;
use exchange_client::{Fetch, PageClient, Stale};
use page_window::{AckAhead, FetchFault, PageWindow, PushMemory, Reply};
use run_ports::ReplayCourier;
use sql_values::Memory;
use std::alloc::Global;

/// A call with two numbers, and its answer with three: of a reply its token, how many pages it has and the next token;
/// of `gone` the base; of `ahead` the end token; of `stale` the next token, and the reply's token and pages. `push`, `fetch`, `ack`, `end` and `tokens`
/// are calls of one window; `give`, `accept` and `client` of another and its client; `put`, `step` and `room` of a
/// fetch.
const ROWS: &str = "\
push 0 0|done 0 0 0\n\
push 0 0|done 0 0 0\n\
push 0 0|done 0 0 0\n\
fetch 0 16|reply 0 3 3\n\
fetch 0 16|reply 0 3 3\n\
fetch 1 1|reply 1 1 2\n\
ack 2 0|done 0 0 0\n\
tokens 0 0|tokens 2 3 0\n\
fetch 1 16|gone 2 0 0\n\
fetch 4 16|ahead 3 0 0\n\
ack 4 0|ahead 3 0 0\n\
ack 1 0|done 0 0 0\n\
fetch 3 16|reply 3 0 3\n\
end 0 0|done 0 0 0\n\
fetch 2 16|complete 2 1 3\n\
fetch 3 16|complete 3 0 3\n\
give 0 0|done 0 0 0\n\
give 0 0|done 0 0 0\n\
accept 1 16|stale 0 1 1\n\
accept 0 16|pages 2 0 0\n\
accept 0 16|stale 2 0 2\n\
client 0 0|client 2 0 0\n\
put 33 0|put 32 0 0\n\
room 0 0|room 0 0 0\n\
step 0 0|pages 16 0 0\n\
room 0 0|room 0 0 0\n\
step 16 0|pages 16 0 0\n\
room 0 0|room 1 0 0";

/// A word, and the numbers behind it.
type Answer<'a> = (&'a str, u64, u64, u64);

/// The number of pages that are numbered from this one on, or 99 where they are not.
fn counted(pages: PageList, first: u64) -> u64 {
    match number_behind(pages, u32::try_from(first).unwrap_or(0)) {
        Some(behind) => u64::from(behind).saturating_sub(first),
        None => 99,
    }
}

fn replied(answer: Result<Reply, FetchFault>) -> Answer<'static> {
    match answer {
        Ok(reply) if reply.complete => (
            "complete",
            reply.token,
            counted(reply.pages, reply.token),
            reply.next,
        ),
        Ok(reply) => (
            "reply",
            reply.token,
            counted(reply.pages, reply.token),
            reply.next,
        ),
        Err(FetchFault::TokenGone { base }) => ("gone", base, 0, 0),
        Err(FetchFault::TokenAhead { end }) => ("ahead", end, 0, 0),
        Err(FetchFault::Memory) => ("memory", 0, 0, 0),
    }
}

/// Puts the next page, which is numbered by its token.
fn push(window: &mut PageWindow, alloc: Global) -> Result<Answer<'static>, Memory> {
    let end = window.end_token();
    if window.is_ended() || end >= 1000 {
        return Ok(("full", 0, 0, 0));
    }
    match window.push(numbered(alloc, u32::try_from(end).unwrap_or(0))?) {
        Ok(()) => Ok(("done", 0, 0, 0)),
        Err(PushMemory(_)) => Err(Memory),
    }
}

fn most_of(number: u64) -> u32
    ensures { 0 < result }
{
    u32::try_from(number).unwrap_or(1).max(1)
}

fn acknowledged(answer: Result<(), AckAhead>) -> Answer<'static> {
    match answer {
        Ok(()) => ("done", 0, 0, 0),
        Err(AckAhead { end }) => ("ahead", end, 0, 0),
    }
}

fn of_window(
    window: &mut PageWindow,
    alloc: Global,
    word: &str,
    first: u64,
    second: u64,
) -> Result<Answer<'static>, Memory> {
    match word {
        "push" => push(window, alloc),
        "fetch" => Ok(replied(window.fetch(first, most_of(second)))),
        "ack" => Ok(acknowledged(window.ack(first))),
        "end" => {
            window.end();
            Ok(("done", 0, 0, 0))
        }
        _ => Ok(("tokens", window.base(), window.end_token(), 0)),
    }
}

/// The next token, and the token and the pages of the reply that came back.
fn handed_back(stale: Stale) -> Answer<'static> {
    let token = stale.reply.token;
    (
        "stale",
        stale.next,
        token,
        counted(stale.reply.pages, token),
    )
}

fn accepted(client: &mut PageClient, reply: Reply) -> Answer<'static> {
    let next = client.next_token();
    match client.accept(reply) {
        Ok(pages) => ("pages", counted(pages, next), 0, 0),
        Err(stale) => handed_back(stale),
    }
}

fn of_client(
    source: &mut PageWindow,
    client: &mut PageClient,
    alloc: Global,
    word: &str,
    first: u64,
    second: u64,
) -> Result<Answer<'static>, Memory> {
    match word {
        "give" => push(source, alloc),
        "accept" => match source.fetch(first, most_of(second)) {
            Ok(reply) => Ok(accepted(client, reply)),
            Err(_) => Err(Memory),
        },
        _ => Ok((
            "client",
            client.next_token(),
            u64::from(client.is_complete()),
            0,
        )),
    }
}

fn of_fetch(
    fetch: &mut Fetch<ReplayCourier>,
    alloc: Global,
    word: &str,
    first: u64,
) -> Result<Answer<'static>, Memory> {
    match word {
        "put" => {
            let number = put_all(fetch, alloc, 0, u8::try_from(first).unwrap_or(0))?;
            Ok(("put", u64::from(number), 0, 0))
        }
        "step" => Ok(("pages", counted(fetch.step()?, first), 0, 0)),
        _ => Ok(("room", u64::from(fetch.has_room()), 0, 0)),
    }
}

/// A window, another with its client, and a fetch.
#[derive(Drop)]
struct Desk {
    window: PageWindow,
    source: PageWindow,
    client: PageClient,
    fetch: Fetch<ReplayCourier>,
}

fn answer_of(
    desk: &mut Desk,
    alloc: Global,
    word: &str,
    first: u64,
    second: u64,
) -> Result<Answer<'static>, Memory> {
    match word {
        "put" | "step" | "room" => of_fetch(&mut desk.fetch, alloc, word, first),
        "give" | "accept" | "client" => {
            of_client(
                &mut desk.source,
                &mut desk.client,
                alloc,
                word,
                first,
                second,
            )
        }
        _ => of_window(&mut desk.window, alloc, word, first, second),
    }
}

fn call_of(text: &str) -> Option<(&str, u64, u64)> {
    let (word, numbers) = text.split_once(' ')?;
    let (first, second) = numbers.split_once(' ')?;
    Some((word, first.parse().ok()?, second.parse().ok()?))
}

fn wanted_of(text: &str) -> Option<Answer<'_>> {
    let (call, third) = text.rsplit_once(' ')?;
    let (word, first, second) = call_of(call)?;
    Some((word, first, second, third.parse().ok()?))
}

fn row_holds(desk: &mut Desk, alloc: Global, row: &str) -> Result<bool, Memory> {
    let Some((call, wanted)) = row.split_once('|') else {
        return Ok(false);
    };
    let Some((word, first, second)) = call_of(call) else {
        return Ok(false);
    };
    let told = answer_of(desk, alloc, word, first, second)?;
    Ok(wanted_of(wanted) == Some(told))
}

/// How many rows there are, up to the first that does not hold.
fn rows_that_hold(desk: &mut Desk, alloc: Global) -> Result<u32, Memory> {
    let mut count: u32 = 0;
    for row in ROWS.lines() {
        if !row_holds(desk, alloc, row)? {
            return Ok(count);
        }
        count = count.saturating_add(1);
    }
    Ok(count)
}

#[test]
fn windows_clients_and_fetches_answer_as_told(rt: HostRuntime) -> Result<(), Memory> {
    let alloc = rt.alloc();
    let mut desk = Desk {
        window: PageWindow::new(alloc),
        source: PageWindow::new(alloc),
        client: PageClient::new(),
        fetch: Fetch::new(alloc, ReplayCourier::new(), 16),
    };
    assert!(rt; rows_that_hold(&mut desk, alloc)? == 28);
    Ok(())
}
