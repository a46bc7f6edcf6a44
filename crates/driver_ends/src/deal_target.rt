//! What a driver puts its pages into where that is an edge of many takers.
ghost use Rattle.std.specs.Prelude.{◌≡◌, ℕ, ◌+◌, ◌-◌, ◌<◌, ◌≤◌, ◌++◌, ◌↔◌, List, [], true, false, IsTrue, IfOk, OnOk, OnErr, IfErr, IfNone, IfSome, MatchOption, None};
ghost use Rattle.sql_values.specs.declared.value.Value.{Value};
ghost use Rattle.output_buffer.specs.Edges.{end_count, ends_in};
ghost use Rattle.output_buffer.specs.Seats.{MaySpread};
ghost use Rattle.driver_ends.specs.Ends.{deal_finished, deal_wants};
ghost use Rattle.driver_ends.specs.Outlets.{HasRows};
ghost use Rattle.driver_ends.specs.Deals.{DealWants, HasDealtAll, HasDealtFirst, IsDealStuck, IsDealt, IsDealtOut, KeepsDeal, MayDeal, MayDealEnds, deal_dues, deal_full, deal_kept, deal_put, new_deal, rows_dealt};

use crate::at_edges::{EdgeEnd, PutsPieces};
use crate::outlet::page_of;
use blocked::{Bells, BlockedOn, Due, ReadBell, Seen};
use col_pages::Page;
use output_buffer::{Piece, PutFault, SpreadPut};
use sql_values::Memory;
use stage_moves::PageTarget;
use std::marker::Model;
use std::sync::Wait;
use std::thread::Threads;

/// Puts pages to an edge, and then an End for each of its takers. A page that the edge has no room for stays here.
#[derive(Drop)]
pub struct DealTarget<'w> {
    seat: SpreadPut<'w>,
    held: Option<Page>,
    is_told: bool,
    /// How many Ends it has still to put.
    left: u32,
}

impl<'w> Model for DealTarget<'w> {
    ghost use Rattle.driver_ends.specs.Deals.{DealState};

    ghost Value = { DealState };

    ghost use Rattle.driver_ends.specs.InDeal.{deal_view, IsDealTarget};

    ghost view = { deal_view };

    ghost invariant = { IsDealTarget };
}

impl<'w> DealTarget<'w> {
    /// One over this seat, which has put nothing.
    pub fn new(seat: SpreadPut<'w>) -> DealTarget<'w>
        requires { seat.put ≡ [] }
        ensures new { result ≡ new_deal seat.entry }
        ensures none { rows_dealt result ≡ [] }
    {
        let left = seat.takers();
        DealTarget {
            seat,
            held: None,
            is_told: false,
            left,
        }
    }

    /// No End is put before it was told to finish, none before a page that it holds, and no page without rows.
    pub fn keeps(&self)
        ensures { KeepsDeal self.now }
    {
        let _is_told = self.is_told;
    }

    /// Whether it takes a page now.
    pub fn wants(&self) -> bool
        ensures wants { IsTrue result ↔ DealWants self.now }
        ensures is { result ≡ deal_wants self.now }
    {
        !self.is_told && self.held.is_none()
    }

    /// Takes a page in, for `ready` to put; one without rows is let go.
    pub fn put(&mut self, page: Page)
        requires { DealWants self.old }
        ensures sent { rows_dealt self.new ≡ rows_dealt self.old ++ page.rows }
        ensures rest { self.new ≡ record self.old { held = self.new.held } }
    {
        if !page.is_empty() {
            self.held = Some(page);
        }
    }

    /// Tells it that no page comes any more.
    pub fn finish(&mut self)
        ensures { self.new ≡ record self.old { is_told = true } }
    {
        self.is_told = true;
    }

    pub fn is_told(&self) -> bool
        ensures { result ≡ self.now.is_told }
    {
        self.is_told
    }

    /// Whether it was told to finish, and the edge has its pages and an End for each taker.
    pub fn is_finished(&self) -> bool
        ensures finished { IsTrue result ↔ IsDealt self.now }
        ensures is { result ≡ deal_finished self.now }
    {
        self.is_told && self.held.is_none() && self.left == 0
    }

    /// Puts a piece, after this count of the bell was read. Where the edge is full it has its page again.
    fn put_behind<R: Wait>(&mut self, rt: &R, seen: Seen, piece: Piece) -> Result<Due, BlockedOn>
        requires may { MaySpread self.old.seat piece }
        requires full { HasRows piece }
        requires told { self.old.is_told ≡ false → ends_in piece ≡ 0 }
        requires clear { self.old.held ≡ None }
        requires bell { seen.bell ≡ self.old.seat.edge.bells.space }
        ensures due { IfOk result (λ due. due.number ≡ self.old.seat.edge.bells.piece) }
        ensures put { OnOk result (self.new ≡ deal_put self.old piece) }
        ensures full { OnErr result (self.new ≡ deal_full self.old piece seen.count) }
        ensures on { IfErr result (λ on. (on.bell ≡ seen.bell) × (on.seen ≡ seen.count)
            × (on.rung ≡ false)) }
        ensures fulls { self.old.seat.fulls ≤ self.new.seat.fulls }
    {
        let left = left_behind(self.left, &piece);
        match self.seat.put(rt, seen, piece) {
            Ok(due) => {
                self.left = left;
                Ok(due)
            }
            Err(PutFault::Full(piece)) => {
                self.held = page_of(piece);
                Err(BlockedOn::new(seen.bell(), seen.count()))
            }
        }
    }

    /// Hands back its seat, wherever it stands.
    pub fn stop(self) -> SpreadPut<'w>
        ensures seat { result ≡ self.entry.seat }
        ensures first { HasDealtFirst (rows_dealt self.entry) result }
        ensures all { IsDealt self.entry → HasDealtAll (rows_dealt self.entry) result }
    {
        self.seat
    }
}

impl<'w> PutsPieces for DealTarget<'w> {
    ghost use Rattle.driver_ends.specs.Deals.{MayDeal, MayDealEnds};

    ghost may_put = { MayDeal };

    ghost may_end = { MayDealEnds };

    fn put_piece<R: Threads + Wait + Sync, B: Bells>(
        &mut self,
        rt: &R,
        bells: &mut B,
        piece: Piece,
    ) -> Result<Option<BlockedOn>, Memory>
        requires { MayDeal self.old piece }
        ensures put { IfOk result (λ on. IfNone on (self.new ≡ deal_put self.old piece)) }
        ensures lost { OnErr result (self.new ≡ deal_put self.old piece) }
        ensures full { IfOk result (λ on. IfSome on (λ on. (self.new ≡ deal_full self.old piece on.seen)
            × (on.bell ≡ self.old.seat.edge.bells.space) × (on.rung ≡ false)
            × B.shown bells.new on.bell on.seen)) }
        ensures fulls { self.old.seat.fulls ≤ self.new.seat.fulls }
        ensures bells { (bell count : ℕ) → B.shown bells.old bell count
            → B.shown bells.new bell count }
        ensures rang { OnOk result ((bell times : ℕ)
            → B.rang bells.old bell (times + deal_dues self.old bell)
            → B.rang bells.new bell (times + deal_dues self.new bell)) }
    {
        let seen = Seen::read(rt, bells, self.seat.space_bell());
        match self.put_behind(rt, seen, piece) {
            Ok(due) => {
                bells.ring(rt, due)?;
                Ok(None)
            }
            Err(on) => Ok(Some(on)),
        }
    }

    fn put_held<R: Threads + Wait + Sync, B: Bells>(
        &mut self,
        rt: &R,
        bells: &mut B,
    ) -> Result<Option<BlockedOn>, Memory>
        ensures kept { deal_kept false self.new ≡ deal_kept false self.old }
        ensures fulls { self.old.seat.fulls ≤ self.new.seat.fulls }
        ensures none { IfOk result (λ on. IfNone on (self.new.seat.fulls ≡ self.old.seat.fulls)) }
        ensures answer { IfOk result (λ on. MatchOption on (IsDealtOut false self.new)
            (λ on. IsDealStuck false self.old self.new on × B.shown bells.new on.bell on.seen)) }
        ensures bells { (bell count : ℕ) → B.shown bells.old bell count
            → B.shown bells.new bell count }
        ensures rang { OnOk result ((bell times : ℕ)
            → B.rang bells.old bell (times + deal_dues self.old bell)
            → B.rang bells.new bell (times + deal_dues self.new bell)) }
    {
        match self.held.take() {
            None => Ok(None),
            Some(page) => self.put_piece(rt, bells, Piece::Rows(page)),
        }
    }

    fn put_ends<R: Threads + Wait + Sync, B: Bells>(
        &mut self,
        rt: &R,
        bells: &mut B,
    ) -> Result<Option<BlockedOn>, Memory>
        requires { MayDealEnds self.old }
        ensures kept { deal_kept true self.new ≡ deal_kept true self.old }
        ensures fulls { self.old.seat.fulls ≤ self.new.seat.fulls }
        ensures answer { IfOk result (λ on. MatchOption on (IsDealtOut true self.new)
            (λ on. IsDealStuck true self.old self.new on × B.shown bells.new on.bell on.seen)) }
        ensures bells { (bell count : ℕ) → B.shown bells.old bell count
            → B.shown bells.new bell count }
        ensures rang { OnOk result ((bell times : ℕ)
            → B.rang bells.old bell (times + deal_dues self.old bell)
            → B.rang bells.new bell (times + deal_dues self.new bell)) }
    {
        for number in 0..self.left {
            if let Some(on) = self.put_piece(rt, bells, Piece::End(number))? {
                return Ok(Some(on));
            }
        }
        Ok(None)
    }
}

impl<'w> EdgeEnd for DealTarget<'w> {
    /// Puts what it holds and, once told to finish, an End for each taker behind it. Where the edge has no room it stops:
    /// the answer names the bell of the edge's free places, with the count that was read before the put. Each piece
    /// rings the bell of the edge's pieces.
    fn advance<R: Threads + Wait + Sync, B: Bells>(
        &mut self,
        rt: &R,
        bells: &mut B,
    ) -> Result<Option<BlockedOn>, Memory>
        ensures kept { deal_kept self.old.is_told self.new ≡ deal_kept self.old.is_told self.old }
        ensures fulls { self.old.seat.fulls ≤ self.new.seat.fulls }
        ensures answer { IfOk result (λ on. MatchOption on (IsDealtOut self.new.is_told self.new)
            (λ on. IsDealStuck self.new.is_told self.old self.new on
            × B.shown bells.new on.bell on.seen)) }
        ensures bells { (bell count : ℕ) → B.shown bells.old bell count
            → B.shown bells.new bell count }
        ensures rang { OnOk result ((bell times : ℕ)
            → B.rang bells.old bell (times + deal_dues self.old bell)
            → B.rang bells.new bell (times + deal_dues self.new bell)) }
    {
        let on = self.put_held(rt, bells)?;
        if on.is_some() || !self.is_told {
            return Ok(on);
        }
        self.put_ends(rt, bells)
    }
}

impl<'w> PageTarget for DealTarget<'w> {
    ghost use Rattle.driver_ends.specs.Deals.{deal_dues};
    ghost use Rattle.driver_ends.specs.Ends.{HasDealt, deal_as_made, deal_finished, deal_looks, deal_wants};

    ghost was_given = { HasDealt };

    ghost wants = { deal_wants };

    ghost is_told = { λ deal. deal.is_told };

    ghost is_finished = { deal_finished };

    ghost as_made = { deal_as_made };

    ghost looks = { deal_looks };

    ghost dues = { deal_dues };

    fn wants(&self) -> bool {
        self.wants()
    }

    fn is_told(&self) -> bool {
        self.is_told()
    }

    fn is_finished(&self) -> bool {
        self.is_finished()
    }

    fn put(&mut self, page: Page) -> Result<(), Memory> {
        self.put(page);
        Ok(())
    }

    fn finish(&mut self) {
        self.finish();
    }

    fn ready<R: Threads + Wait + Sync, B: Bells>(
        &mut self,
        rt: &R,
        bells: &mut B,
    ) -> Result<Option<BlockedOn>, Memory> {
        self.advance(rt, bells)
    }
}

/// How many Ends are left behind this piece.
fn left_behind(left: u32, piece: &Piece) -> u32
    ensures { result ≡ left - ends_in piece.now }
{
    match piece {
        Piece::Rows(_) => left,
        Piece::End(_) => left.saturating_sub(1),
    }
}
