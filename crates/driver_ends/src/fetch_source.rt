//! What a driver takes its pages from where a courier stands between it and an edge of one taker.
ghost use Rattle.std.specs.Prelude.{◌≡◌, ℕ, ◌+◌, ◌<◌, ◌≤◌, ◌++◌, ◌∷◌, ◌↔◌, List, [], true, false, IsTrue, IfOk, OnOk, OnErr, IfSome, MatchOption, None};
ghost use Rattle.sql_values.specs.declared.value.Value.{Value};
ghost use Rattle.count_laws.specs.Counts.{Rose};
ghost use Rattle.exchange_client.specs.Fetches.{HasRoom, rest};
ghost use Rattle.driver_ends.specs.Sources.{IsLocalStarved};
ghost use Rattle.driver_ends.specs.Fetching.{HasFetchTaken, IsBehind, IsFetchEnded, fetch_as_made, fetch_dues, fetch_ended, fetch_taken, new_fetching, rows_left};

use crate::at_edges::EdgeEnd;
use crate::local_source::LocalSource;
use blocked::{Bells, BlockedOn};
use col_pages::{Page, PageList};
use exchange_client::Fetch;
use output_buffer::GatherTake;
use page_window::PushMemory;
use run_ports::Courier;
use sql_values::Memory;
use stage_moves::{PageSource, Ready};
use std::alloc::Global;
use std::marker::Model;
use std::sync::Wait;
use std::thread::Threads;

/// Takes pages from some putters, until the End of each was taken, and fetches them, as a courier lets them arrive. It
/// keeps those that arrived until they are asked for.
#[derive(Drop)]
pub struct FetchSource<'w, C: Courier> {
    local: LocalSource<'w>,
    fetch: Fetch<C>,
    pages: PageList,
}

impl<'w, C: Courier> Model for FetchSource<'w, C> {
    ghost use Rattle.driver_ends.specs.Fetching.{FetchingState, KeepsLeft};

    ghost Value = { FetchingState };

    ghost view = { λ s. record { local = s.local; fetch = s.fetch; pages = s.pages } };

    ghost invariant = { λ s. KeepsLeft s.local s.fetch s.pages };
}

impl<'w, C: Courier> FetchSource<'w, C> {
    /// One over this seat, which has taken nothing. At most `most` pages arrive at a time.
    pub fn new(alloc: Global, seat: GatherTake<'w>, courier: C, most: u32) -> FetchSource<'w, C>
        requires seat { seat.took ≡ [] }
        requires some { 0 < most }
        ensures new { result ≡ new_fetching seat.entry (C.missed courier) most }
        ensures none { HasFetchTaken result [] }
        ensures fresh { fetch_taken result ≡ [] }
    {
        FetchSource {
            local: LocalSource::new(seat),
            fetch: Fetch::new(alloc, courier, most),
            pages: PageList::new(alloc),
        }
    }

    /// The rows that it handed on, with those that are left, are what its seat took, in order.
    pub fn keeps(&self)
        ensures { HasFetchTaken self.now (fetch_taken self.now) }
    {
        let _pages = &self.pages;
    }

    /// Hands on the next page of those that arrived.
    pub fn take(&mut self) -> Option<Page>
        ensures taken { IfSome result (λ page. (taken : List (List Value)) → HasFetchTaken self.old taken
            → HasFetchTaken self.new (taken ++ page.rows)) }
        ensures handed { IfSome result (λ page. fetch_taken self.new ≡ fetch_taken self.old ++ page.rows) }
        ensures first { MatchOption result ((self.old.pages ≡ []) × (self.new.pages ≡ []))
            (λ page. self.old.pages ≡ page ∷ self.new.pages) }
        ensures rest { self.new ≡ record self.old { pages = self.new.pages } }
    {
        self.pages.take_first()
    }

    /// Whether the End of every putter was taken, every page arrived, and every page was handed on.
    pub fn is_ended(&self) -> bool
        ensures ended { IsTrue result ↔ IsFetchEnded self.now }
        ensures is { result ≡ fetch_ended self.now }
    {
        self.fetch.is_complete() && self.local.is_ended() && self.pages.len() == 0
    }

    /// Hands back its seat, wherever it stands. Pages that were not handed on are gone.
    pub fn stop(self) -> GatherTake<'w>
        ensures { result ≡ self.entry.local.seat }
    {
        self.local.stop()
    }

    /// Asks for the next pages, and answers whether it did so in vain.
    fn ask(&mut self) -> Result<bool, Memory>
        requires none { self.old.pages ≡ [] }
        ensures local { self.new.local ≡ self.old.local }
        ensures left { rows_left self.new ≡ rows_left self.old }
        ensures made { fetch_as_made self.new ≡ fetch_as_made self.old }
        ensures later { self.old.fetch.missed ≤ self.new.fetch.missed }
        ensures missed { IfOk result (λ missed. missed ≡ true
            → Rose self.old.fetch.missed self.new.fetch.missed) }
    {
        self.pages = self.fetch.step()?;
        Ok(self.pages.is_empty() && is_behind(&self.fetch))
    }

    /// Asks where no page is there, and some may still arrive.
    fn ask_if_short(&mut self) -> Result<bool, Memory>
        ensures local { self.new.local ≡ self.old.local }
        ensures left { rows_left self.new ≡ rows_left self.old }
        ensures made { fetch_as_made self.new ≡ fetch_as_made self.old }
        ensures later { self.old.fetch.missed ≤ self.new.fetch.missed }
        ensures missed { IfOk result (λ missed. missed ≡ true
            → Rose self.old.fetch.missed self.new.fetch.missed) }
        ensures over { fetch_ended self.old ≡ true
            → (self.new ≡ self.old) × (self.new.fetch.window.is_ended ≡ true) }
    {
        if self.fetch.is_complete() || !self.pages.is_empty() {
            return Ok(false);
        }
        self.ask()
    }

    /// Puts the page that was taken of the edge to the fetch. Where there is no memory for it, it is kept.
    fn put_taken(&mut self) -> Result<(), Memory>
        requires going { self.old.fetch.window.is_ended ≡ false }
        requires room { HasRoom self.old.fetch }
        ensures left { rows_left self.new ≡ rows_left self.old }
        ensures local { OnOk result (self.new.local ≡ record self.old.local { inbox = None }) }
        ensures err { OnErr result (self.new ≡ self.old) }
        ensures rest { self.new ≡ record self.old {
          local = self.new.local;
          fetch = record self.old.fetch { window = self.new.fetch.window };
        } }
        ensures going { self.new.fetch.window.is_ended ≡ false }
    {
        let Some(page) = self.local.take() else {
            return Ok(());
        };
        match self.fetch.push(page) {
            Ok(()) => Ok(()),
            Err(PushMemory(page)) => {
                self.local.take_back(page);
                Err(Memory)
            }
        }
    }

    /// Puts the page that was taken of the edge to the fetch, and ends that where no more comes.
    fn feed(&mut self) -> Result<(), Memory>
        requires going { self.old.fetch.window.is_ended ≡ false }
        requires room { HasRoom self.old.fetch }
        ensures left { rows_left self.new ≡ rows_left self.old }
        ensures seat { self.new.local.seat ≡ self.old.local.seat }
        ensures clear { OnOk result (self.new.local.inbox ≡ None) }
        ensures rest { self.new ≡ record self.old {
          local = self.new.local;
          fetch = record self.old.fetch { window = self.new.fetch.window };
        } }
    {
        self.put_taken()?;
        if self.local.is_ended() {
            self.fetch.end();
        }
        Ok(())
    }
}

/// Whether pages are still to be given or, where no more will come, the client does not know that yet.
fn is_behind<C: Courier>(fetch: &Fetch<C>) -> bool
    ensures { IsTrue result ↔ IsBehind fetch.now }
{
    !fetch.is_drained() || (fetch.is_ended() && !fetch.is_complete())
}

impl<'w, C: Courier> EdgeEnd for FetchSource<'w, C> {
    /// Takes a piece where the fetch has room, as long as not every End was taken, and feeds it to the fetch. Where
    /// there is none, the answer names the bell of the edge's pieces, with the count that was read before the take. Each
    /// piece rings the bell of the edge's places.
    fn advance<R: Threads + Wait + Sync, B: Bells>(
        &mut self,
        rt: &R,
        bells: &mut B,
    ) -> Result<Option<BlockedOn>, Memory>
        ensures taken { (taken : List (List Value)) → HasFetchTaken self.old taken
            → HasFetchTaken self.new taken }
        ensures handed { fetch_taken self.new ≡ fetch_taken self.old }
        ensures edge { self.new.local.seat.edge ≡ self.old.local.seat.edge }
        ensures putters { self.new.local.seat.putters ≡ self.old.local.seat.putters }
        ensures pages { self.new.pages ≡ self.old.pages }
        ensures fetch { self.new.fetch ≡ record self.old.fetch { window = self.new.fetch.window } }
        ensures empties { self.old.local.seat.empties ≤ self.new.local.seat.empties }
        ensures full { (HasRoom self.old.fetch → ⊥) → self.new ≡ self.old }
        ensures ended { self.old.fetch.window.is_ended ≡ true → self.new ≡ self.old }
        ensures answer { IfOk result (λ on. IfSome on (λ on. IsLocalStarved self.old.local self.new.local on
            × B.shown bells.new on.bell on.seen)) }
        ensures bells { (bell count : ℕ) → B.shown bells.old bell count
            → B.shown bells.new bell count }
        ensures rang { OnOk result ((bell times : ℕ)
            → B.rang bells.old bell (times + fetch_dues self.old bell)
            → B.rang bells.new bell (times + fetch_dues self.new bell)) }
    {
        if self.fetch.is_ended() || !self.fetch.has_room() {
            return Ok(None);
        }
        let on = self.local.advance(rt, bells)?;
        self.feed()?;
        Ok(on)
    }
}

impl<'w, C: Courier> PageSource for FetchSource<'w, C> {
    ghost use Rattle.driver_ends.specs.Fetching.{fetch_as_made, fetch_dues, fetch_ended, fetch_looks, fetch_misses, fetch_taken};

    ghost taken = { fetch_taken };

    ghost is_ended = { fetch_ended };

    ghost as_made = { fetch_as_made };

    ghost looks = { fetch_looks };

    ghost misses = { fetch_misses };

    ghost dues = { fetch_dues };

    fn is_ended(&self) -> bool {
        self.is_ended()
    }

    /// Asks for pages where none is there, and takes a piece of the edge. It waits only where the edge had none, and no
    /// page is there.
    fn ready<R: Threads + Wait + Sync, B: Bells>(
        &mut self,
        rt: &R,
        bells: &mut B,
    ) -> Result<Ready, Memory> {
        if self.ask_if_short()? {
            return Ok(Ready::Missed);
        }
        match self.advance(rt, bells)? {
            Some(on) if self.pages.is_empty() => Ok(Ready::Blocked(on)),
            _ => Ok(Ready::Now),
        }
    }

    fn take(&mut self) -> Result<Option<Page>, Memory> {
        Ok(self.take())
    }
}
