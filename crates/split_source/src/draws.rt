//! The table of one word under the claims, and the names of its steps.
use atomic_table::{Join, Play, Seat, Shared, Split, Table, TableRule};
use std::alloc::Global;
use std::collections::LinkedList;

/// How many numbers there are to draw, and how many seats draw them.
#[derive(Clone, Copy)]
pub struct Counts {
    pub count: u32,
    pub seats: u32,
}

/// What one or more seats know. No value of it is made.
pub struct Drawn {
    pub of: Counts,
    pub seats: u64,
    /// How many of these seats met a number at or past the count.
    pub ended: u64,
    pub numbers: LinkedList<u64>,
}

pub(crate) type ClaimTable = Table<(), Drawn, Counts, Draws, Global>;

pub(crate) type ClaimWord = Shared<(), Drawn, Counts, Draws>;

pub(crate) type Pen = Seat<(), Drawn>;

pub struct Draws;

impl TableRule<(), Drawn, Counts> for Draws {
    ghost use Rattle.split_source.specs.Claims.{Keeps, unshared};

    ghost holds = { Keeps };

    ghost first = { unshared };
}

/// The number that was found is drawn.
pub(crate) struct Draw;

impl Play<(), Drawn> for Draw {
    ghost use Rattle.split_source.specs.Claims.{Drew};

    ghost then = { λ step before found after. Drew before found after };
}

/// What the numbers of all seats are.
pub(crate) struct Settle;

impl Play<(), Drawn> for Settle {
    ghost use Rattle.std.specs.Prelude.{◌≡◌};
    ghost use Rattle.split_source.specs.Claims.{Showed};

    ghost then = { λ step before found after. (after ≡ before) × Showed before.0 };
}

/// One seat is taken from several that drew nothing.
pub(crate) struct OneSeat;

impl Split<Drawn> for OneSeat {
    ghost use Rattle.split_source.specs.Claims.{fewer, one_seat};

    ghost left = { fewer };

    ghost right = { one_seat };
}

/// What two know is known by one.
pub(crate) struct Together;

impl Join<Drawn> for Together {
    ghost use Rattle.split_source.specs.Claims.{together, spent};

    ghost both = { together };

    ghost spent = { spent };
}
