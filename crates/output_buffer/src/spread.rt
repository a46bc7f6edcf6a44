//! An edge of one putter and many takers.
ghost use Rattle.std.specs.Prelude.{◌≡◌, ◌-◌, ◌<◌, ◌≤◌, [], false, replicate, IfOk};
ghost use Rattle.std.specs.Vec.{vec_capacity};
ghost use Rattle.crossbeam_queue.specs.Passes.{view, IsPassOf};
ghost use Rattle.output_buffer.specs.Edges.{all_parts, unshared, edge_view};
ghost use Rattle.output_buffer.specs.Seats.{edge_of, new_spread_put, new_spread_take};

use crate::edge::{EdgeBells, EdgePass, EdgeQueue, NewTaker};
use crate::spread_put::SpreadPut;
use crate::spread_take::SpreadTake;
use sql_values::Memory;
use std::alloc::Global;
use std::marker::Model;

/// Pieces of one putter, each for the one of some takers that takes it first.
#[derive(Drop)]
pub struct Spread {
    alloc: Global,
    queue: EdgeQueue,
    /// What is known before the seats are handed out.
    pass: Option<EdgePass>,
    bells: EdgeBells,
    takers: u32,
}

impl Model for Spread {
    ghost use Rattle.output_buffer.specs.Seats.{SpreadState};

    ghost Value = { SpreadState };

    ghost use Rattle.output_buffer.specs.InSpread.{spread_view, IsSpread};

    ghost view = { spread_view };

    ghost invariant = { IsSpread };
}

impl Spread {
    /// An edge for this many takers, which holds at most `room` pieces.
    pub fn new(
        alloc: Global,
        takers: u32,
        room: u32,
        piece_bell: u32,
        space_bell: u32,
    ) -> Result<Spread, Memory>
        requires takers { 0 < takers }
        requires room { 0 < room }
        ensures takers { IfOk result (λ s. s.takers ≡ takers) }
        ensures room { IfOk result (λ s. s.edge.room ≡ room) }
        ensures bells { IfOk result (λ s. s.edge.bells ≡ record { piece = piece_bell; space = space_bell }) }
        ensures fresh { IfOk result (λ s. s.is_handed_out ≡ false) }
    {
        let (queue, pass) = EdgeQueue::ruled(alloc, room as usize)?;
        Ok(Spread {
            alloc,
            queue,
            pass: Some(pass),
            bells: EdgeBells {
                piece: piece_bell,
                space: space_bell,
            },
            takers,
        })
    }

    /// Whether the seats were handed out.
    pub fn is_handed_out(&self) -> bool
        ensures { result ≡ self.now.is_handed_out }
    {
        self.pass.is_none()
    }

    /// Hands out all seats, for as long as the edge is lent. After `Memory` none was handed out, and
    /// `is_handed_out` says so.
    pub fn seats<'e>(&'e mut self) -> Result<(SpreadPut<'e>, Vec<SpreadTake<'e>>), Memory>
        requires { self.old.is_handed_out ≡ false }
        ensures put { IfOk result (λ seats. seats.0 ≡ new_spread_put self.old.edge self.old.takers) }
        ensures takes { IfOk result (λ seats. seats.1.items ≡ replicate self.old.takers (new_spread_take self.old.edge)) }
    {
        let mut takes = Vec::with_capacity(self.alloc, self.takers as usize)?;
        let (bells, takers) = (self.bells, self.takers);
        let Some(mut pass) = self.pass.take() else {
            unreachable!()
        };
        let queue: &'e EdgeQueue = &self.queue;
        hand_out(&mut takes, queue, &mut pass, bells, takers);
        Ok((SpreadPut::new(queue, pass, bells, takers), takes))
    }
}

/// Cuts the takers' seats off the putter's.
#[tactic(auto, using(crate::proofs::EdgeLemmas::one_taker_fewer))]
fn hand_out<'e>(
    takes: &mut Vec<SpreadTake<'e>>,
    queue: &'e EdgeQueue,
    pass: &mut EdgePass,
    bells: EdgeBells,
    takers: u32,
)
    requires none { takes.old.items ≡ [] }
    requires room { takers ≤ vec_capacity takes.old }
    requires pass { IsPassOf queue.now pass.old × (view pass.old ≡ unshared) }
    ensures takes { takes.new.items ≡ replicate takers (new_spread_take (edge_of queue.now bells)) }
    ensures pass { IsPassOf queue.now pass.new × (view pass.new ≡ edge_view (all_parts - takers) 1 [] []) }
{
    for _taker in 0..takers {
        let one = queue.another::<NewTaker>(pass);
        takes.push_reserved(SpreadTake::new(queue, one, bells));
    }
}
