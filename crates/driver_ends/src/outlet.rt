//! One edge of a target: its seat, and the page that it did not take yet.
ghost use Rattle.std.specs.Prelude.{◌≡◌, ℕ, ◌+◌, ◌<◌, ◌≤◌, ◌↔◌, ◌++◌, [], true, false, IsTrue, IfOk, OnOk, OnErr, IfErr, IfNone, IfSome, MatchOption};
ghost use Rattle.count_laws.specs.Counts.{Rose};
ghost use Rattle.output_buffer.specs.Edges.{end_count};
ghost use Rattle.output_buffer.specs.Seats.{MayPut};
ghost use Rattle.driver_ends.specs.Outlets.{HasPutEnd, HasRows, IsClear, IsStuck, IsThrough, MayPutNow, outlet_dues, outlet_full, outlet_kept, OutletInOrder, outlet_put, new_outlet, page_back, rows_sent};

use crate::at_edges::PutsPieces;
use blocked::{Bells, BlockedOn, Due, ReadBell, Seen};
use col_pages::Page;
use output_buffer::{GatherPut, Piece, PutFault};
use sql_values::Memory;
use std::marker::Model;
use std::sync::Wait;
use std::thread::Threads;

/// A seat of an edge, and at most one page for it.
#[derive(Drop)]
pub(crate) struct Outlet<'w> {
    seat: GatherPut<'w>,
    held: Option<Page>,
    has_put_end: bool,
}

impl<'w> Model for Outlet<'w> {
    ghost use Rattle.driver_ends.specs.Outlets.{OutletState};

    ghost Value = { OutletState };

    ghost use Rattle.driver_ends.specs.InOutlet.{outlet_view, IsOutlet};

    ghost view = { outlet_view };

    ghost invariant = { IsOutlet };
}

impl<'w> Outlet<'w> {
    pub(crate) fn new(seat: GatherPut<'w>) -> Outlet<'w>
        requires { seat.put ≡ [] }
        ensures { result ≡ new_outlet seat.entry }
    {
        Outlet {
            seat,
            held: None,
            has_put_end: false,
        }
    }

    pub(crate) fn is_clear(&self) -> bool
        ensures { IsTrue result ↔ IsClear self.now }
    {
        self.held.is_none()
    }

    /// Whether it put its End, behind all pages that it was given.
    pub(crate) fn has_put_end(&self) -> bool
        ensures { IsTrue result ↔ IsThrough true self.now }
    {
        self.has_put_end
    }

    /// Keeps a page for its seat; one without rows is let go.
    pub(crate) fn hold(&mut self, page: Page)
        requires clear { IsClear self.old }
        requires going { end_count self.old.seat.put ≡ 0 }
        ensures seat { self.new.seat ≡ self.old.seat }
        ensures sent { rows_sent self.new ≡ rows_sent self.old ++ page.rows }
        ensures order { OutletInOrder self.new }
    {
        if !page.is_empty() {
            self.held = Some(page);
        }
    }

    /// Puts a piece, after this count of the bell was read. Where the edge is full it has its page again.
    fn put_behind<R: Wait>(&mut self, rt: &R, seen: Seen, piece: Piece) -> Result<Due, BlockedOn>
        requires may { MayPut self.old.seat piece }
        requires full { HasRows piece }
        requires clear { IsClear self.old }
        requires bell { seen.bell ≡ self.old.seat.edge.bells.space }
        ensures due { IfOk result (λ due. due.number ≡ self.old.seat.edge.bells.piece) }
        ensures put { OnOk result (self.new ≡ outlet_put self.old piece) }
        ensures full { OnErr result (self.new ≡ outlet_full self.old piece seen.count) }
        ensures on { IfErr result (λ on. (on.bell ≡ seen.bell) × (on.seen ≡ seen.count)
            × (on.rung ≡ false)) }
        ensures order { OutletInOrder self.new }
        ensures fulls { self.old.seat.fulls ≤ self.new.seat.fulls }
    {
        let is_end = matches!(piece, Piece::End(_));
        match self.seat.put(rt, seen, piece) {
            Ok(due) => {
                self.has_put_end = is_end;
                Ok(due)
            }
            Err(PutFault::Full(piece)) => {
                self.held = page_of(piece);
                Err(BlockedOn::new(seen.bell(), seen.count()))
            }
        }
    }

    /// Hands over its seat.
    pub(crate) fn into_seat(self) -> GatherPut<'w>
        ensures { result ≡ self.entry.seat }
    {
        self.seat
    }
}

impl<'w> PutsPieces for Outlet<'w> {
    ghost use Rattle.driver_ends.specs.Outlets.{MayPutNow, IsClear};

    ghost may_put = { MayPutNow };

    ghost may_end = { IsClear };

    fn put_piece<R: Threads + Wait + Sync, B: Bells>(
        &mut self,
        rt: &R,
        bells: &mut B,
        piece: Piece,
    ) -> Result<Option<BlockedOn>, Memory>
        requires { MayPutNow self.old piece }
        ensures put { IfOk result (λ on. IfNone on (self.new ≡ outlet_put self.old piece)) }
        ensures lost { OnErr result (self.new ≡ outlet_put self.old piece) }
        ensures full { IfOk result (λ on. IfSome on (λ on. (self.new ≡ outlet_full self.old piece on.seen)
            × (on.bell ≡ self.old.seat.edge.bells.space) × (on.rung ≡ false)
            × B.shown bells.new on.bell on.seen)) }
        ensures order { OutletInOrder self.new }
        ensures fulls { self.old.seat.fulls ≤ self.new.seat.fulls }
        ensures bells { (bell count : ℕ) → B.shown bells.old bell count
            → B.shown bells.new bell count }
        ensures rang { OnOk result ((bell times : ℕ)
            → B.rang bells.old bell (times + outlet_dues self.old bell)
            → B.rang bells.new bell (times + outlet_dues self.new bell)) }
    {
        let seen = Seen::read(rt, bells, self.seat.space_bell());
        match self.put_behind(rt, seen, piece) {
            Ok(due) => {
                bells.ring(rt, due)?;
                Ok(None)
            }
            Err(on) => Ok(Some(on)),
        }
    }

    fn put_held<R: Threads + Wait + Sync, B: Bells>(
        &mut self,
        rt: &R,
        bells: &mut B,
    ) -> Result<Option<BlockedOn>, Memory>
        ensures kept { outlet_kept false self.new ≡ outlet_kept false self.old }
        ensures order { OutletInOrder self.new }
        ensures fulls { self.old.seat.fulls ≤ self.new.seat.fulls }
        ensures none { IfOk result (λ on. IfNone on (self.new.seat.fulls ≡ self.old.seat.fulls)) }
        ensures answer { IfOk result (λ on. MatchOption on (IsThrough false self.new)
            (λ on. IsStuck false self.old self.new on × B.shown bells.new on.bell on.seen)) }
        ensures bells { (bell count : ℕ) → B.shown bells.old bell count
            → B.shown bells.new bell count }
        ensures rang { OnOk result ((bell times : ℕ)
            → B.rang bells.old bell (times + outlet_dues self.old bell)
            → B.rang bells.new bell (times + outlet_dues self.new bell)) }
    {
        match self.held.take() {
            None => Ok(None),
            Some(page) => self.put_piece(rt, bells, Piece::Rows(page)),
        }
    }

    fn put_ends<R: Threads + Wait + Sync, B: Bells>(
        &mut self,
        rt: &R,
        bells: &mut B,
    ) -> Result<Option<BlockedOn>, Memory>
        requires { IsClear self.old }
        ensures kept { outlet_kept true self.new ≡ outlet_kept true self.old }
        ensures order { OutletInOrder self.new }
        ensures fulls { self.old.seat.fulls ≤ self.new.seat.fulls }
        ensures answer { IfOk result (λ on. MatchOption on (IsThrough true self.new)
            (λ on. IsStuck true self.old self.new on × B.shown bells.new on.bell on.seen)) }
        ensures bells { (bell count : ℕ) → B.shown bells.old bell count
            → B.shown bells.new bell count }
        ensures rang { OnOk result ((bell times : ℕ)
            → B.rang bells.old bell (times + outlet_dues self.old bell)
            → B.rang bells.new bell (times + outlet_dues self.new bell)) }
    {
        if self.has_put_end {
            return Ok(None);
        }
        let end = Piece::End(self.seat.number());
        self.put_piece(rt, bells, end)
    }
}

/// How an outlet goes on.
pub(crate) trait AdvanceAsTold {
    /// Puts the page that it holds and, once told to end, its End, as far as the edge has room. Where it has none,
    /// the answer names the bell of the edge's free places, with the count that was read before the put.
    fn advance_as_told<R: Threads + Wait + Sync, B: Bells>(
        &mut self,
        rt: &R,
        bells: &mut B,
        is_told: bool,
    ) -> Result<Option<BlockedOn>, Memory>;
}

impl<'w> AdvanceAsTold for Outlet<'w> {
    fn advance_as_told<R: Threads + Wait + Sync, B: Bells>(
        &mut self,
        rt: &R,
        bells: &mut B,
        is_told: bool,
    ) -> Result<Option<BlockedOn>, Memory>
        ensures kept { outlet_kept is_told self.new ≡ outlet_kept is_told self.old }
        ensures order { OutletInOrder self.new }
        ensures fulls { self.old.seat.fulls ≤ self.new.seat.fulls }
        ensures answer { IfOk result (λ on. MatchOption on (IsThrough is_told self.new)
            (λ on. IsStuck is_told self.old self.new on × B.shown bells.new on.bell on.seen)) }
        ensures bells { (bell count : ℕ) → B.shown bells.old bell count
            → B.shown bells.new bell count }
        ensures rang { OnOk result ((bell times : ℕ)
            → B.rang bells.old bell (times + outlet_dues self.old bell)
            → B.rang bells.new bell (times + outlet_dues self.new bell)) }
    {
        let on = self.put_held(rt, bells)?;
        if on.is_some() || !is_told {
            return Ok(on);
        }
        self.put_ends(rt, bells)
    }
}

/// The page of a piece.
pub(crate) fn page_of(piece: Piece) -> Option<Page>
    ensures { result ≡ page_back piece }
{
    match piece {
        Piece::Rows(page) => Some(page),
        Piece::End(_) => None,
    }
}
