//! The seat of one of the takers of a `Spread`.
ghost use Rattle.std.specs.Prelude.{◌≡◌, ◌≤◌, ◌∷◌, ◌++◌, ◌↔◌, [], IsTrue, IfOk, OnErr};
ghost use Rattle.crossbeam_queue.specs.Fifo.{Held};
ghost use Rattle.crossbeam_queue.specs.Passes.{view, IsPassOf};
ghost use Rattle.count_laws.specs.Counts.{next_count};
ghost use Rattle.output_buffer.specs.Edges.{StoodBeside, new_taker};
ghost use Rattle.output_buffer.specs.Seats.{HasTakenEnd, edge_of, new_spread_take, view_of_spread_take};

use crate::edge::{EdgeBells, EdgePass, EdgeQueue, Takes};
use crate::piece::{Empty, Piece, Took};
use blocked::{Due, Seen};
use std::marker::Model;
use std::sync::Wait;

/// Takes some of what the putter puts, until it took an End. It can go to another thread.
#[derive(Drop)]
pub struct SpreadTake<'e> {
    pub(crate) queue: &'e EdgeQueue,
    pub(crate) pass: EdgePass,
    pub(crate) bells: EdgeBells,
    pub(crate) is_ended: bool,
    pub(crate) empties: u64,
    pub(crate) looked_at: u64,
}

impl<'e> Model for SpreadTake<'e> {
    ghost use Rattle.output_buffer.specs.Seats.{SpreadTakeState};

    ghost Value = { SpreadTakeState };

    ghost use Rattle.output_buffer.specs.InSpread.{spread_take_view, IsSpreadTake};

    ghost view = { spread_take_view };

    ghost invariant = { IsSpreadTake };
}

impl<'e> SpreadTake<'e> {
    pub(crate) fn new(queue: &'e EdgeQueue, pass: EdgePass, bells: EdgeBells) -> SpreadTake<'e>
        requires { IsPassOf queue.now pass × (view pass ≡ new_taker) }
        ensures { result ≡ new_spread_take (edge_of queue.now bells) }
    {
        SpreadTake {
            queue,
            pass,
            bells,
            is_ended: false,
            empties: 0,
            looked_at: 0,
        }
    }

    /// The bell that rings when a piece came.
    pub fn piece_bell(&self) -> u32
        ensures { result ≡ self.now.edge.bells.piece }
    {
        self.bells.piece
    }

    /// The bell that rings when a place became free.
    pub fn space_bell(&self) -> u32
        ensures { result ≡ self.now.edge.bells.space }
    {
        self.bells.space
    }

    /// How many takes were answered Empty, at the most `u64::MAX`.
    pub fn empties(&self) -> u64
        ensures { result ≡ self.now.empties }
    {
        self.empties
    }

    /// Whether this taker took an End.
    pub fn ended(&self) -> bool
        ensures { IsTrue result ↔ HasTakenEnd self.now }
    {
        self.is_ended
    }

    /// Takes the piece at the front, in one atomic step, without taking memory. The due is of the bell that
    /// rings when a place became free. Empty comes only where the edge held nothing at one moment of the call;
    /// the seat then keeps `seen`, the count that the caller had read of the bell of the pieces.
    pub fn take<R: Wait>(&mut self, rt: &R, seen: Seen) -> Result<Took, Empty>
        requires { seen.bell ≡ self.old.edge.bells.piece }
        ensures due { IfOk result (λ took. took.due.number ≡ self.old.edge.bells.space) }
        ensures took { IfOk result (λ took. self.new ≡ record self.old { took = self.old.took ++ took.piece ∷ [] }) }
        ensures empty { OnErr result (Held 0 (StoodBeside (view_of_spread_take self.old))) }
        ensures counted { OnErr result (self.new ≡ record self.old {
          empties = next_count self.old.empties;
          looked_at = seen.count;
        }) }
        ensures empties { self.old.empties ≤ self.new.empties }
    {
        let Some(piece) = self.queue.pop_as::<Takes, R>(rt, &mut self.pass) else {
            self.empties = self.empties.saturating_add(1);
            self.looked_at = seen.count();
            return Err(Empty);
        };
        self.is_ended = self.is_ended || matches!(piece, Piece::End(_));
        Ok(Took {
            piece,
            due: Due::of(self.bells.space),
        })
    }
}
