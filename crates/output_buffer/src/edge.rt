//! The queue of an edge under its rule, and the names of the steps on it.
ghost use Rattle.std.specs.Prelude.{◌≡◌, List};
ghost use Rattle.crossbeam_queue.specs.Passes.{view, IsPassOf};
ghost use Rattle.output_buffer.specs.declared.piece.Piece.{Piece};
ghost use Rattle.output_buffer.specs.Edges.{Shows};

use crate::piece::Piece;
use crossbeam_queue::protocol::{Join, Lesson, Outcome, Protocol, Split};
use crossbeam_queue::{Pass, RuledArrayQueue};
use std::collections::LinkedList;

/// What one or more seats know. No value of it is made.
pub struct EdgeView {
    /// How much of the edge these seats are.
    pub parts: u64,
    /// How many of them may still put pages.
    pub putting: u64,
    pub put: LinkedList<Piece>,
    pub took: LinkedList<Piece>,
}

/// The bells of an edge.
#[derive(Clone, Copy)]
pub struct EdgeBells {
    /// Rung when a piece came.
    pub piece: u32,
    /// Rung when a place became free.
    pub space: u32,
}

pub(crate) type EdgeQueue = RuledArrayQueue<Piece, EdgeView, Edge>;

pub(crate) type EdgePass = Pass<Piece, EdgeView>;

pub struct Edge;

impl Protocol<Piece, EdgeView> for Edge {
    ghost use Rattle.std.specs.Prelude.{[]};
    ghost use Rattle.output_buffer.specs.Edges.{EdgeRule, unshared};

    ghost holds = { EdgeRule };

    ghost first = { unshared };
}

/// A putter's seat is taken from a taker's.
pub(crate) struct NewPutter;

impl Split<EdgeView> for NewPutter {
    ghost use Rattle.output_buffer.specs.Edges.{fewer_done, new_putter};

    ghost left = { fewer_done };

    ghost right = { λ v. new_putter };
}

/// A taker's seat is taken from a putter's.
pub(crate) struct NewTaker;

impl Split<EdgeView> for NewTaker {
    ghost use Rattle.output_buffer.specs.Edges.{fewer, new_taker};

    ghost left = { fewer };

    ghost right = { λ v. new_taker };
}

/// What two know is known by one.
pub(crate) struct Together;

impl Join<EdgeView> for Together {
    ghost use Rattle.output_buffer.specs.Edges.{together, spent};

    ghost both = { together };

    ghost spent = { spent };
}

/// A piece was put at the back.
pub(crate) struct Puts;

impl Outcome<Piece, EdgeView> for Puts {
    ghost use Rattle.std.specs.Prelude.{◌≡◌};
    ghost use Rattle.output_buffer.specs.Edges.{with_put};

    ghost then = { λ v x w. w ≡ with_put v x };
}

impl Lesson<Piece, EdgeView> for Puts {
    ghost use Rattle.output_buffer.specs.Edges.{StoodBeside};

    ghost fact = { StoodBeside };
}

/// A piece was taken at the front.
pub(crate) struct Takes;

impl Outcome<Piece, EdgeView> for Takes {
    ghost use Rattle.std.specs.Prelude.{◌≡◌};
    ghost use Rattle.output_buffer.specs.Edges.{with_took};

    ghost then = { λ v x w. w ≡ with_took v x };
}

impl Lesson<Piece, EdgeView> for Takes {
    ghost use Rattle.output_buffer.specs.Edges.{StoodBeside};

    ghost fact = { StoodBeside };
}

/// What all seats of an edge know of it.
pub(crate) struct Total;

impl Lesson<Piece, EdgeView> for Total {
    ghost use Rattle.output_buffer.specs.Edges.{Shows};

    ghost fact = { Shows };
}

/// Looks at what the queue still holds. Where this is the pass of all seats, what was taken and what is held
/// together are what was put.
#[tactic(auto, using(crate::proofs::EdgeLemmas::shows))]
pub(crate) fn look_at_rest(queue: &EdgeQueue, pass: &mut EdgePass)
    requires { IsPassOf queue.now pass.old }
    ensures rest { (items : List Piece) × Shows (view pass.old) items }
{
    queue.learn_as::<Total>(pass);
}
