//! The seat of one of the putters of a `Gather`.
ghost use Rattle.std.specs.Prelude.{◌≡◌, ◌≤◌, All, ◌∷◌, ◌++◌, [], IfOk, IfErr, OnOk, OnErr};
ghost use Rattle.crossbeam_queue.specs.Fifo.{Held};
ghost use Rattle.crossbeam_queue.specs.Passes.{view, IsPassOf};
ghost use Rattle.count_laws.specs.Counts.{next_count};
ghost use Rattle.output_buffer.specs.Edges.{PagesThenEnds, StoodBeside, end_count, new_putter};
ghost use Rattle.output_buffer.specs.Seats.{HasOwnNumber, MayPut, edge_of, new_gather_put, view_of_gather_put};

use crate::edge::{EdgeBells, EdgePass, EdgeQueue, Puts};
use crate::piece::{Piece, PutFault};
use blocked::{Due, Seen};
use std::marker::Model;
use std::sync::Wait;

/// Puts pages, and then one End, to the taker. It can go to another thread.
#[derive(Drop)]
pub struct GatherPut<'e> {
    pub(crate) queue: &'e EdgeQueue,
    pub(crate) pass: EdgePass,
    pub(crate) bells: EdgeBells,
    pub(crate) number: u32,
    fulls: u64,
    looked_at: u64,
}

impl<'e> Model for GatherPut<'e> {
    ghost use Rattle.output_buffer.specs.Seats.{HasOwnNumber, GatherPutState};

    ghost Value = { GatherPutState };

    ghost use Rattle.output_buffer.specs.InGather.{gather_put_view, IsGatherPut};

    ghost view = { gather_put_view };

    ghost invariant = { IsGatherPut };
}

impl<'e> GatherPut<'e> {
    pub(crate) fn new(
        queue: &'e EdgeQueue,
        pass: EdgePass,
        bells: EdgeBells,
        number: u32,
    ) -> GatherPut<'e>
        requires { IsPassOf queue.now pass × (view pass ≡ new_putter) }
        ensures { result ≡ new_gather_put (edge_of queue.now bells) number }
    {
        GatherPut {
            queue,
            pass,
            bells,
            number,
            fulls: 0,
            looked_at: 0,
        }
    }

    /// The place among the putters, from 0.
    pub fn number(&self) -> u32
        ensures { result ≡ self.now.number }
    {
        self.number
    }

    /// The bell that rings when a piece came.
    pub fn piece_bell(&self) -> u32
        ensures { result ≡ self.now.edge.bells.piece }
    {
        self.bells.piece
    }

    /// The bell that rings when a place became free.
    pub fn space_bell(&self) -> u32
        ensures { result ≡ self.now.edge.bells.space }
    {
        self.bells.space
    }

    /// How many puts were answered Full, at the most `u64::MAX`.
    pub fn fulls(&self) -> u64
        ensures { result ≡ self.now.fulls }
    {
        self.fulls
    }

    /// What was put is pages, and then at most one End, with this putter's number.
    pub fn keeps_order(&self)
        ensures order { PagesThenEnds self.now.put }
        ensures once { end_count self.now.put ≤ 1 }
        ensures own { All (HasOwnNumber self.now.number) self.now.put }
    {
        let _number = self.number;
    }

    /// Puts a piece at the back, in one atomic step, without taking memory. The due is of the bell that rings
    /// when a piece came. Full comes only where the edge held its room at one moment of the call; the seat then
    /// keeps `seen`, the count that the caller had read of the bell of the free places.
    pub fn put<R: Wait>(&mut self, rt: &R, seen: Seen, piece: Piece) -> Result<Due, PutFault>
        requires may { MayPut self.old piece }
        requires bell { seen.bell ≡ self.old.edge.bells.space }
        ensures due { IfOk result (λ due. due.number ≡ self.old.edge.bells.piece) }
        ensures put { OnOk result (self.new ≡ record self.old { put = self.old.put ++ piece ∷ [] }) }
        ensures full { IfErr result (λ fault. fault ≡ PutFault.Full piece) }
        ensures room { OnErr result (Held self.old.edge.room (StoodBeside (view_of_gather_put self.old))) }
        ensures counted { OnErr result (self.new ≡ record self.old {
          fulls = next_count self.old.fulls;
          looked_at = seen.count;
        }) }
        ensures fulls { self.old.fulls ≤ self.new.fulls }
    {
        match self.queue.push_as::<Puts, R>(rt, &mut self.pass, piece) {
            Ok(()) => Ok(Due::of(self.bells.piece)),
            Err(piece) => {
                self.fulls = self.fulls.saturating_add(1);
                self.looked_at = seen.count();
                Err(PutFault::Full(piece))
            }
        }
    }
}
