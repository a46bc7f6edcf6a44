//! The seat of the taker of a `Gather`.
ghost use Rattle.std.specs.Prelude.{◌≡◌, ◌≤◌, ◌-◌, ◌∷◌, ◌++◌, ◌↔◌, [], IsTrue, IfOk, OnErr};
ghost use Rattle.crossbeam_queue.specs.Fifo.{Held};
ghost use Rattle.crossbeam_queue.specs.Passes.{view, IsPassOf};
ghost use Rattle.count_laws.specs.Counts.{next_count};
ghost use Rattle.output_buffer.specs.Edges.{StoodBeside, all_parts, edge_view, ends_in};
ghost use Rattle.output_buffer.specs.Seats.{HasEnded, edge_of, new_gather_take, view_of_gather_take};

use crate::edge::{EdgeBells, EdgePass, EdgeQueue, Takes};
use crate::piece::{Empty, Piece, Took};
use blocked::{Due, Seen};
use std::marker::Model;
use std::sync::Wait;

/// Takes what the putters put, until the End of each was taken. It can go to another thread.
#[derive(Drop)]
pub struct GatherTake<'e> {
    pub(crate) queue: &'e EdgeQueue,
    pub(crate) pass: EdgePass,
    pub(crate) bells: EdgeBells,
    pub(crate) putters: u32,
    /// How many Ends were not taken yet.
    pub(crate) left: u32,
    pub(crate) empties: u64,
    pub(crate) looked_at: u64,
}

impl<'e> Model for GatherTake<'e> {
    ghost use Rattle.output_buffer.specs.Seats.{GatherTakeState};

    ghost Value = { GatherTakeState };

    ghost use Rattle.output_buffer.specs.InGather.{gather_take_view, IsGatherTake};

    ghost view = { gather_take_view };

    ghost invariant = { IsGatherTake };
}

impl<'e> GatherTake<'e> {
    pub(crate) fn new(
        queue: &'e EdgeQueue,
        pass: EdgePass,
        bells: EdgeBells,
        putters: u32,
    ) -> GatherTake<'e>
        requires { IsPassOf queue.now pass × (view pass ≡ edge_view (all_parts - putters) 0 [] []) }
        ensures { result ≡ new_gather_take (edge_of queue.now bells) putters }
    {
        GatherTake {
            queue,
            pass,
            bells,
            putters,
            left: putters,
            empties: 0,
            looked_at: 0,
        }
    }

    /// How many putters there are.
    pub fn putters(&self) -> u32
        ensures { result ≡ self.now.putters }
    {
        self.putters
    }

    /// The bell that rings when a piece came.
    pub fn piece_bell(&self) -> u32
        ensures { result ≡ self.now.edge.bells.piece }
    {
        self.bells.piece
    }

    /// The bell that rings when a place became free.
    pub fn space_bell(&self) -> u32
        ensures { result ≡ self.now.edge.bells.space }
    {
        self.bells.space
    }

    /// How many takes were answered Empty, at the most `u64::MAX`.
    pub fn empties(&self) -> u64
        ensures { result ≡ self.now.empties }
    {
        self.empties
    }

    /// Whether the End of every putter was taken.
    pub fn ended(&self) -> bool
        ensures { IsTrue result ↔ HasEnded self.now }
    {
        self.left == 0
    }

    /// Takes the piece at the front, in one atomic step, without taking memory. The due is of the bell that
    /// rings when a place became free. Empty comes only where the edge held nothing at one moment of the call;
    /// the seat then keeps `seen`, the count that the caller had read of the bell of the pieces.
    pub fn take<R: Wait>(&mut self, rt: &R, seen: Seen) -> Result<Took, Empty>
        requires { seen.bell ≡ self.old.edge.bells.piece }
        ensures due { IfOk result (λ took. took.due.number ≡ self.old.edge.bells.space) }
        ensures took { IfOk result (λ took. self.new ≡ record self.old { took = self.old.took ++ took.piece ∷ [] }) }
        ensures empty { OnErr result (Held 0 (StoodBeside (view_of_gather_take self.old))) }
        ensures counted { OnErr result (self.new ≡ record self.old {
          empties = next_count self.old.empties;
          looked_at = seen.count;
        }) }
        ensures empties { self.old.empties ≤ self.new.empties }
    {
        let Some(piece) = self.queue.pop_as::<Takes, R>(rt, &mut self.pass) else {
            self.empties = self.empties.saturating_add(1);
            self.looked_at = seen.count();
            return Err(Empty);
        };
        self.left = left_after(self.left, &piece);
        Ok(Took {
            piece,
            due: Due::of(self.bells.space),
        })
    }
}

/// How many Ends are left once this piece was taken.
pub(crate) fn left_after(left: u32, piece: &Piece) -> u32
    ensures { result ≡ left - ends_in piece.now }
{
    match piece {
        Piece::Rows(_) => left,
        Piece::End(_) => left.saturating_sub(1),
    }
}
