//! The word that hands out the numbers of splits.
ghost use Rattle.std.specs.Prelude.{◌≡◌, ◌<◌, ◌≤◌, [], false, IfOk};
ghost use Rattle.std.specs.Vec.{vec_capacity};
ghost use Rattle.std.specs.Borrow.{sem, RestsIfErr};
ghost use Rattle.split_source.specs.contracts.claims.Claims.{the_row};
ghost use Rattle.split_source.specs.Claims.{unshared};
ghost use Rattle.split_source.specs.Seats.{new_seats, AreAllOf};

use crate::claim_seat::ClaimSeat;
use crate::draws::{ClaimTable, ClaimWord, Counts, OneSeat, Pen};
use atomic_table::Table;
use sql_values::Memory;
use std::alloc::Global;
use std::marker::Model;

/// Numbers below a count, to be drawn by some seats, each number once.
#[derive(Drop)]
pub struct Claims {
    alloc: Global,
    table: ClaimTable,
    count: u32,
    seats: u32,
    /// What is known before the seats are handed out.
    pen: Option<Pen>,
}

impl Model for Claims {
    ghost use Rattle.split_source.specs.Seats.{ClaimsState};

    ghost Value = { ClaimsState };

    ghost use Rattle.split_source.specs.InClaims.{claims_view, IsClaims};

    ghost view = { claims_view };

    ghost invariant = { IsClaims };
}

impl Claims {
    /// The numbers below `count`, for this many seats.
    pub fn new(alloc: Global, count: u32, seats: u32) -> Result<Claims, Memory>
        requires { 0 < seats }
        ensures count { IfOk result (λ c. c.id.of ≡ record { count = count; seats = seats }) }
        ensures fresh { IfOk result (λ c. c.is_handed_out ≡ false) }
    {
        let (table, pen) = Table::of_words(alloc, &[0], &Counts { count, seats })?;
        Ok(Claims {
            alloc,
            table,
            count,
            seats,
            pen: Some(pen),
        })
    }

    /// Whether the seats were handed out.
    pub fn is_handed_out(&self) -> bool
        ensures { result ≡ self.now.is_handed_out }
    {
        self.pen.is_none()
    }

    /// Takes the memory that handing out all seats needs. Where there is none the claims are as they were, and
    /// a later call may find some.
    pub fn ready<'c>(&'c mut self) -> Result<ReadyClaims<'c>, Memory>
        ensures* err { sem 𝓛 (RestsIfErr the_row self.entry (λ ready. ready.claims.ghost_name) result (λ last. last ≡ self.old)) }
        ensures same_reference { IfOk result (λ ready. ready.claims.ghost_name ≡ self.entry.ghost_name) }
        ensures same { IfOk result (λ ready. ready.claims.now ≡ self.old) }
        ensures none { IfOk result (λ ready. ready.seats.items ≡ []) }
        ensures room { IfOk result (λ ready. self.old.id.of.seats ≤ vec_capacity ready.seats) }
    {
        let seats = Vec::with_capacity(self.alloc, self.seats as usize)?;
        Ok(ReadyClaims {
            claims: self,
            seats,
        })
    }

    /// Hands out all seats. Only `ready` asks for memory here.
    pub fn seats<'c>(&'c mut self) -> Result<Vec<ClaimSeat<'c>>, Memory>
        requires { self.old.is_handed_out ≡ false }
        ensures seats { IfOk result (λ s. s.items ≡ new_seats self.old.id) }
        ensures all { IfOk result (λ s. AreAllOf self.old.id s.items) }
    {
        Ok(self.ready()?.seats())
    }
}

/// Claims with the memory for their seats.
#[derive(Drop)]
pub struct ReadyClaims<'c> {
    claims: &'c mut Claims,
    seats: Vec<ClaimSeat<'c>>,
}

impl<'c> ReadyClaims<'c> {
    /// Hands out all seats, which needs no more memory.
    #[tactic(auto, using(crate::proofs::SeatLemmas::all_new))]
    pub fn seats(self) -> Vec<ClaimSeat<'c>>
        requires fresh { self.claims.now.is_handed_out ≡ false }
        requires none { self.seats.items ≡ [] }
        requires room { self.claims.now.id.of.seats ≤ vec_capacity self.seats }
        ensures seats { result.items ≡ new_seats self.entry.claims.now.id }
        ensures all { AreAllOf self.entry.claims.now.id result.items }
    {
        let ReadyClaims { claims, mut seats } = self;
        let count = claims.count;
        let number = claims.seats;
        let Some(pen) = claims.pen.take() else {
            unreachable!()
        };
        deal(&mut seats, &claims.table.shared, pen, count, number);
        seats
    }
}

/// Cuts the pen into seats.
fn deal<'c>(
    seats: &mut Vec<ClaimSeat<'c>>,
    word: &'c ClaimWord,
    mut pen: Pen,
    count: u32,
    number: u32,
)
    requires none { seats.old.items ≡ [] }
    requires room { number ≤ vec_capacity seats.old }
    requires number { (0 < number) × (number ≡ word.now.key.seats) }
    requires place { (pen.table_id ≡ word.now.table_id) × (word.now.table_id.words ≡ 1) }
    requires count { count ≡ word.now.key.count }
    requires pen { pen.me ≡ (unshared word.now.key, []) }
    ensures { seats.new.items ≡ new_seats (record { table = word.now.table_id; of = word.now.key }) }
{
    for _ in 1..number {
        let one = word.split_seat::<OneSeat>(&mut pen);
        seats.push_reserved(ClaimSeat::new(word, one, count));
    }
    seats.push_reserved(ClaimSeat::new(word, pen, count));
}
