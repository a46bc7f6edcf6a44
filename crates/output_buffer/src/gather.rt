//! An edge of many putters and one taker.
ghost use Rattle.std.specs.Prelude.{◌≡◌, ◌-◌, ◌<◌, ◌≤◌, [], false, IfOk};
ghost use Rattle.std.specs.Vec.{vec_capacity};
ghost use Rattle.crossbeam_queue.specs.Passes.{view, IsPassOf};
ghost use Rattle.output_buffer.specs.Edges.{all_parts, unshared, edge_view};
ghost use Rattle.output_buffer.specs.Seats.{EdgeId, edge_of, new_gather_puts, new_gather_take};

use crate::edge::{EdgeBells, EdgePass, EdgeQueue, NewPutter};
use crate::gather_put::GatherPut;
use crate::gather_take::GatherTake;
use sql_values::Memory;
use std::alloc::Global;
use std::marker::Model;

/// Pieces of some putters for one taker.
#[derive(Drop)]
pub struct Gather {
    alloc: Global,
    queue: EdgeQueue,
    /// What is known before the seats are handed out.
    pass: Option<EdgePass>,
    bells: EdgeBells,
    putters: u32,
}

impl Model for Gather {
    ghost use Rattle.output_buffer.specs.Seats.{GatherState};

    ghost Value = { GatherState };

    ghost use Rattle.output_buffer.specs.InGather.{gather_view, IsGather};

    ghost view = { gather_view };

    ghost invariant = { IsGather };
}

impl Gather {
    /// An edge for this many putters, which holds at most `room` pieces.
    pub fn new(
        alloc: Global,
        putters: u32,
        room: u32,
        piece_bell: u32,
        space_bell: u32,
    ) -> Result<Gather, Memory>
        requires putters { 0 < putters }
        requires room { 0 < room }
        ensures putters { IfOk result (λ g. g.putters ≡ putters) }
        ensures room { IfOk result (λ g. g.edge.room ≡ room) }
        ensures bells { IfOk result (λ g. g.edge.bells ≡ record { piece = piece_bell; space = space_bell }) }
        ensures fresh { IfOk result (λ g. g.is_handed_out ≡ false) }
    {
        let (queue, pass) = EdgeQueue::ruled(alloc, room as usize)?;
        Ok(Gather {
            alloc,
            queue,
            pass: Some(pass),
            bells: EdgeBells {
                piece: piece_bell,
                space: space_bell,
            },
            putters,
        })
    }

    /// Whether the seats were handed out.
    pub fn is_handed_out(&self) -> bool
        ensures { result ≡ self.now.is_handed_out }
    {
        self.pass.is_none()
    }

    /// Hands out all seats, for as long as the edge is lent. After `Memory` none was handed out, and
    /// `is_handed_out` says so.
    pub fn seats<'e>(&'e mut self) -> Result<(Vec<GatherPut<'e>>, GatherTake<'e>), Memory>
        requires { self.old.is_handed_out ≡ false }
        ensures puts { IfOk result (λ seats. seats.0.items ≡ new_gather_puts self.old.edge self.old.putters) }
        ensures take { IfOk result (λ seats. seats.1 ≡ new_gather_take self.old.edge self.old.putters) }
    {
        let mut puts = Vec::with_capacity(self.alloc, self.putters as usize)?;
        let (bells, putters) = (self.bells, self.putters);
        let Some(mut pass) = self.pass.take() else {
            unreachable!()
        };
        let queue: &'e EdgeQueue = &self.queue;
        hand_out(&mut puts, queue, &mut pass, bells, putters);
        Ok((puts, GatherTake::new(queue, pass, bells, putters)))
    }
}

/// Cuts the putters' seats off the taker's.
#[tactic(auto, using(crate::proofs::EdgeLemmas::one_putter_fewer, crate::proofs::EdgeLemmas::all_cut_off, crate::proofs::SeatLemmas::length_new_gather_puts))]
fn hand_out<'e>(
    puts: &mut Vec<GatherPut<'e>>,
    queue: &'e EdgeQueue,
    pass: &mut EdgePass,
    bells: EdgeBells,
    putters: u32,
)
    requires none { puts.old.items ≡ [] }
    requires room { putters ≤ vec_capacity puts.old }
    requires some { 0 < putters }
    requires pass { IsPassOf queue.now pass.old × (view pass.old ≡ unshared) }
    ensures puts { puts.new.items ≡ new_gather_puts (edge_of queue.now bells) putters }
    ensures pass { IsPassOf queue.now pass.new × (view pass.new ≡ edge_view (all_parts - putters) 0 [] []) }
{
    for number in 0..putters {
        let one = queue.another::<NewPutter>(pass);
        puts.push_reserved(GatherPut::new(queue, one, bells, number));
    }
}
