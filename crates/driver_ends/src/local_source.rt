//! What a driver takes its pages from where that is an edge of one taker.
ghost use Rattle.std.specs.Prelude.{◌≡◌, ℕ, ◌+◌, ◌≤◌, ◌++◌, ◌↔◌, List, [], false, IsTrue, IfOk, OnOk, OnErr, IfErr, IfNone, IfSome, IsSome, MatchOption, None, Some};
ghost use Rattle.sql_values.specs.declared.value.Value.{Value};
ghost use Rattle.output_buffer.specs.Seats.{HasEnded};
ghost use Rattle.output_buffer.specs.declared.piece.Piece.{Piece};
ghost use Rattle.driver_ends.specs.Ends.{local_ended, local_taken};
ghost use Rattle.driver_ends.specs.Sources.{HasLocalTaken, HoldsLast, IsLocalEnded, IsLocalServed, IsLocalStarved, local_dues, local_starved, local_took, new_local};

use crate::at_edges::{EdgeEnd, TakesPieces};
use crate::outlet::page_of;
use blocked::{Bells, BlockedOn, Due, ReadBell, Seen};
use col_pages::Page;
use output_buffer::{GatherTake, Took};
use sql_values::Memory;
use stage_moves::{PageSource, Ready};
use std::marker::Model;
use std::sync::Wait;
use std::thread::Threads;

/// Takes pages from some putters, until the End of each was taken. It keeps at most one until it is asked for.
#[derive(Drop)]
pub struct LocalSource<'w> {
    seat: GatherTake<'w>,
    inbox: Option<Page>,
}

impl<'w> Model for LocalSource<'w> {
    ghost use Rattle.driver_ends.specs.Sources.{LocalState};

    ghost Value = { LocalState };

    ghost use Rattle.driver_ends.specs.InSources.{IsLocalSource, local_view};

    ghost view = { local_view };

    ghost invariant = { IsLocalSource };
}

impl<'w> LocalSource<'w> {
    /// One over this seat, which has taken nothing.
    pub fn new(seat: GatherTake<'w>) -> LocalSource<'w>
        requires { seat.took ≡ [] }
        ensures new { result ≡ new_local seat.entry }
        ensures none { HasLocalTaken result [] }
        ensures fresh { local_taken result ≡ [] }
    {
        LocalSource { seat, inbox: None }
    }

    /// Takes a piece, after this count of the bell was read.
    fn take_behind<R: Wait>(&mut self, rt: &R, seen: Seen) -> Result<Due, BlockedOn>
        requires clear { self.old.inbox ≡ None }
        requires bell { seen.bell ≡ self.old.seat.edge.bells.piece }
        ensures due { IfOk result (λ due. due.number ≡ self.old.seat.edge.bells.space) }
        ensures took { OnOk result ((piece : Piece) × (self.new ≡ local_took self.old piece)) }
        ensures starved { OnErr result (self.new ≡ local_starved self.old seen.count) }
        ensures on { IfErr result (λ on. (on.bell ≡ seen.bell) × (on.seen ≡ seen.count)
            × (on.rung ≡ false)) }
        ensures empties { self.old.seat.empties ≤ self.new.seat.empties }
    {
        match self.seat.take(rt, seen) {
            Ok(Took { piece, due }) => {
                self.inbox = page_of(piece);
                Ok(due)
            }
            Err(_) => Err(BlockedOn::new(seen.bell(), seen.count())),
        }
    }

    /// The rows that it handed on, with those of the page that it has, are what its seat took, in order.
    pub fn keeps(&self)
        ensures { HasLocalTaken self.now (local_taken self.now) }
    {
        let _inbox = &self.inbox;
    }

    /// Hands on the page that it has.
    pub fn take(&mut self) -> Option<Page>
        ensures taken { IfSome result (λ page. (taken : List (List Value)) → HasLocalTaken self.old taken
            → HasLocalTaken self.new (taken ++ page.rows)) }
        ensures handed { IfSome result (λ page. local_taken self.new ≡ local_taken self.old ++ page.rows) }
        ensures none { IfNone result (self.old.inbox ≡ None) }
        ensures page { result ≡ self.old.inbox }
        ensures rest { self.new ≡ record self.old { inbox = None } }
    {
        self.inbox.take()
    }

    /// Takes back the page that it handed on last.
    pub(crate) fn take_back(&mut self, page: Page)
        requires clear { self.old.inbox ≡ None }
        requires last { HoldsLast self.old.seat.took (Some page) }
        ensures { self.new ≡ record self.old { inbox = Some page } }
    {
        self.inbox = Some(page);
    }

    /// Whether the End of every putter was taken, and every page was handed on.
    pub fn is_ended(&self) -> bool
        ensures ended { IsTrue result ↔ IsLocalEnded self.now }
        ensures is { result ≡ local_ended self.now }
    {
        self.inbox.is_none() && self.seat.ended()
    }

    /// Hands back its seat, wherever it stands. A page that was not handed on is gone.
    pub fn stop(self) -> GatherTake<'w>
        ensures { result ≡ self.entry.seat }
    {
        self.seat
    }
}

impl<'w> TakesPieces for LocalSource<'w> {
    ghost may_take = { λ s. s.inbox ≡ None };

    fn take_piece<R: Threads + Wait + Sync, B: Bells>(
        &mut self,
        rt: &R,
        bells: &mut B,
    ) -> Result<Option<BlockedOn>, Memory>
        requires { self.old.inbox ≡ None }
        ensures took { IfOk result (λ on. IfNone on ((piece : Piece)
            × (self.new ≡ local_took self.old piece))) }
        ensures lost { OnErr result ((piece : Piece) × (self.new ≡ local_took self.old piece)) }
        ensures starved { IfOk result (λ on. IfSome on (λ on. (self.new ≡ local_starved self.old on.seen)
            × (on.bell ≡ self.old.seat.edge.bells.piece) × (on.rung ≡ false)
            × B.shown bells.new on.bell on.seen)) }
        ensures empties { self.old.seat.empties ≤ self.new.seat.empties }
        ensures bells { (bell count : ℕ) → B.shown bells.old bell count
            → B.shown bells.new bell count }
        ensures rang { OnOk result ((bell times : ℕ)
            → B.rang bells.old bell (times + local_dues self.old bell)
            → B.rang bells.new bell (times + local_dues self.new bell)) }
    {
        let seen = Seen::read(rt, bells, self.seat.piece_bell());
        match self.take_behind(rt, seen) {
            Ok(due) => {
                bells.ring(rt, due)?;
                Ok(None)
            }
            Err(on) => Ok(Some(on)),
        }
    }
}

impl<'w> EdgeEnd for LocalSource<'w> {
    /// Takes a piece where it has no page, as long as not every End was taken. Where there is none, the answer names the bell of
    /// the edge's pieces, with the count that was read before the take. Each piece rings the bell of the edge's
    /// places.
    fn advance<R: Threads + Wait + Sync, B: Bells>(
        &mut self,
        rt: &R,
        bells: &mut B,
    ) -> Result<Option<BlockedOn>, Memory>
        ensures taken { (taken : List (List Value)) → HasLocalTaken self.old taken
            → HasLocalTaken self.new taken }
        ensures handed { local_taken self.new ≡ local_taken self.old }
        ensures edge { self.new.seat.edge ≡ self.old.seat.edge }
        ensures putters { self.new.seat.putters ≡ self.old.seat.putters }
        ensures full { IsSome self.old.inbox → self.new ≡ self.old }
        ensures ended { HasEnded self.old.seat → self.new ≡ self.old }
        ensures empties { self.old.seat.empties ≤ self.new.seat.empties }
        ensures answer { IfOk result (λ on. MatchOption on (IsLocalServed self.old self.new)
            (λ on. IsLocalStarved self.old self.new on × B.shown bells.new on.bell on.seen)) }
        ensures bells { (bell count : ℕ) → B.shown bells.old bell count
            → B.shown bells.new bell count }
        ensures rang { OnOk result ((bell times : ℕ)
            → B.rang bells.old bell (times + local_dues self.old bell)
            → B.rang bells.new bell (times + local_dues self.new bell)) }
    {
        if self.inbox.is_some() || self.seat.ended() {
            return Ok(None);
        }
        self.take_piece(rt, bells)
    }
}

impl<'w> PageSource for LocalSource<'w> {
    ghost use Rattle.driver_ends.specs.Ends.{local_as_made, local_ended, local_looks, local_taken};
    ghost use Rattle.driver_ends.specs.Sources.{local_dues};

    ghost taken = { local_taken };

    ghost is_ended = { local_ended };

    ghost as_made = { local_as_made };

    ghost looks = { local_looks };

    ghost dues = { local_dues };

    fn is_ended(&self) -> bool {
        self.is_ended()
    }

    fn ready<R: Threads + Wait + Sync, B: Bells>(
        &mut self,
        rt: &R,
        bells: &mut B,
    ) -> Result<Ready, Memory> {
        match self.advance(rt, bells)? {
            None => Ok(Ready::Now),
            Some(on) => Ok(Ready::Blocked(on)),
        }
    }

    fn take(&mut self) -> Result<Option<Page>, Memory> {
        Ok(self.take())
    }
}
