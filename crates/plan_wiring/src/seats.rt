//! The seats of what the drivers of a layout share.
ghost use Rattle.std.specs.Prelude.{◌≡◌, ◌++◌, IfOk, OnOk, map, option_map};
ghost use Rattle.plan_wiring.specs.Handed.{AreUnused, AreUnusedClaims, AreUnusedEdges, IsUnused, gather_seats_view, new_claim_seats, new_gather_seats, new_seats, new_spread_seats, seats_view, spread_seats_view};
ghost use Rattle.plan_wiring.specs.Wirings.{claims_view, gather_view, share_view, spread_view};

use crate::shared::Shared;
use crate::wiring::Wiring;
use dyn_filter::FilterCell;
use hash_join::LookupCell;
use output_buffer::{Gather, GatherPut, GatherTake, Spread, SpreadPut, SpreadTake};
use split_source::{ClaimSeat, Claims};
use sql_values::Memory;
use std::alloc::Global;

/// The seats of an edge of one taker.
#[derive(Drop)]
pub struct GatherSeats<'w> {
    pub puts: Vec<GatherPut<'w>>,
    pub take: GatherTake<'w>,
}

/// The seats of an edge of one putter.
#[derive(Drop)]
pub struct SpreadSeats<'w> {
    pub put: SpreadPut<'w>,
    pub takes: Vec<SpreadTake<'w>>,
}

/// The seats of what a pipe has, and its cells.
#[derive(Drop)]
pub struct Seats<'w> {
    pub claims: Vec<ClaimSeat<'w>>,
    /// Task by task.
    pub gathers: Vec<GatherSeats<'w>>,
    /// Task by task.
    pub spreads: Vec<SpreadSeats<'w>>,
    /// Task by task.
    pub cells: &'w [LookupCell],
    /// Those of the dynamic filters of the join whose right side the pipe builds, each with a part for each task.
    pub filters: &'w [FilterCell],
}

impl Wiring {
    /// Hands out all seats, pipe by pipe.
    pub fn seats<'w>(&'w mut self, alloc: Global) -> Result<Vec<Seats<'w>>, Memory>
        requires { AreUnused (map share_view self.old.pipes.items) }
        ensures { IfOk result (λ seats. map seats_view seats.items ≡ map new_seats self.old.pipes.items) }
    {
        let mut seats = Vec::new(alloc);
        add_seats(alloc, self.pipes.as_mut_slice(), &mut seats)?;
        Ok(seats)
    }
}

fn add_seats<'w>(
    alloc: Global,
    pipes: &'w mut [Shared],
    seats: &mut Vec<Seats<'w>>,
) -> Result<(), Memory>
    requires { AreUnused (map share_view pipes.old) }
    ensures { OnOk result (map seats_view seats.new.items
        ≡ map seats_view seats.old.items ++ map new_seats pipes.old) }
{
    let Some((first, rest)) = pipes.split_first_mut() else {
        return Ok(());
    };
    seats.push(seats_of(alloc, first)?)?;
    add_seats(alloc, rest, seats)
}

/// The seats of what a pipe has.
fn seats_of<'w>(alloc: Global, shared: &'w mut Shared) -> Result<Seats<'w>, Memory>
    requires { IsUnused (share_view shared.old) }
    ensures { IfOk result (λ seats. seats_view seats ≡ new_seats shared.old) }
{
    let Shared {
        claims,
        gathers,
        spreads,
        cells,
        filters,
    } = shared;
    let claims = claim_seats(alloc, claims)?;
    let gathers = gather_seats(alloc, gathers.as_mut_slice())?;
    let spreads = spread_seats(alloc, spreads.as_mut_slice())?;
    Ok(Seats {
        claims,
        gathers,
        spreads,
        cells: cells.as_slice(),
        filters: filters.as_slice(),
    })
}

fn claim_seats<'w>(
    alloc: Global,
    claims: &'w mut Option<Claims>,
) -> Result<Vec<ClaimSeat<'w>>, Memory>
    requires { AreUnusedClaims (option_map claims_view claims.old) }
    ensures { IfOk result (λ seats. seats.items ≡ new_claim_seats claims.old) }
{
    match claims {
        Some(claims) => claims.seats(),
        None => Ok(Vec::new(alloc)),
    }
}

fn gather_seats<'w>(
    alloc: Global,
    gathers: &'w mut [Gather],
) -> Result<Vec<GatherSeats<'w>>, Memory>
    requires { AreUnusedEdges (map gather_view gathers.old) }
    ensures { IfOk result
        (λ seats. map gather_seats_view seats.items ≡ map new_gather_seats gathers.old) }
{
    let mut seats = Vec::new(alloc);
    add_gather_seats(gathers, &mut seats)?;
    Ok(seats)
}

fn add_gather_seats<'w>(
    gathers: &'w mut [Gather],
    seats: &mut Vec<GatherSeats<'w>>,
) -> Result<(), Memory>
    requires { AreUnusedEdges (map gather_view gathers.old) }
    ensures { OnOk result (map gather_seats_view seats.new.items
        ≡ map gather_seats_view seats.old.items ++ map new_gather_seats gathers.old) }
{
    let Some((first, rest)) = gathers.split_first_mut() else {
        return Ok(());
    };
    let (puts, take) = first.seats()?;
    seats.push(GatherSeats { puts, take })?;
    add_gather_seats(rest, seats)
}

fn spread_seats<'w>(
    alloc: Global,
    spreads: &'w mut [Spread],
) -> Result<Vec<SpreadSeats<'w>>, Memory>
    requires { AreUnusedEdges (map spread_view spreads.old) }
    ensures { IfOk result
        (λ seats. map spread_seats_view seats.items ≡ map new_spread_seats spreads.old) }
{
    let mut seats = Vec::new(alloc);
    add_spread_seats(spreads, &mut seats)?;
    Ok(seats)
}

fn add_spread_seats<'w>(
    spreads: &'w mut [Spread],
    seats: &mut Vec<SpreadSeats<'w>>,
) -> Result<(), Memory>
    requires { AreUnusedEdges (map spread_view spreads.old) }
    ensures { OnOk result (map spread_seats_view seats.new.items
        ≡ map spread_seats_view seats.old.items ++ map new_spread_seats spreads.old) }
{
    let Some((first, rest)) = spreads.split_first_mut() else {
        return Ok(());
    };
    let (put, takes) = first.seats()?;
    seats.push(SpreadSeats { put, takes })?;
    add_spread_seats(rest, seats)
}
