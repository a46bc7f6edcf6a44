//! The seats of what the drivers of a layout share.
ghost use Rattle.std.specs.Prelude.{◌≡◌, ◌++◌, map, IfOk, OnOk};
ghost use Rattle.plan_wiring.specs.Handed.{gather_seats_view, seats_view, spread_seats_view};
ghost use Rattle.seat_stocks.specs.Shelves.{IsOn};
ghost use Rattle.seat_stocks.specs.Stocks.{AreLeft, deal_lanes, no_stock, put_lanes, share_lanes, stock_of, take_lanes, with_seats};

use crate::shelf::Shelf;
use output_buffer::{GatherPut, GatherTake, SpreadPut, SpreadTake};
use plan_wiring::{GatherSeats, Seats, SpreadSeats};
use split_source::ClaimSeat;
use sql_values::Memory;
use std::alloc::Global;
use std::marker::Model;

/// Seats, of which each is taken once.
#[derive(Drop)]
pub struct Stock<'w> {
    alloc: Global,
    /// A lane for each pipe.
    claims: Shelf<ClaimSeat<'w>>,
    /// A lane for each edge of one taker, of those that put.
    puts: Shelf<GatherPut<'w>>,
    /// And of the one that takes.
    takes: Shelf<GatherTake<'w>>,
    /// A lane for each edge of one putter, of the one that puts.
    deals: Shelf<SpreadPut<'w>>,
    /// And of those that take.
    shares: Shelf<SpreadTake<'w>>,
}

impl<'w> Model for Stock<'w> {
    ghost use Rattle.seat_stocks.specs.Stocks.{StockForm};

    ghost Value = { StockForm };

    ghost view = { λ s. record {
      claims = s.claims;
      puts = s.puts;
      takes = s.takes;
      deals = s.deals;
      shares = s.shares;
    } };
}

impl<'w> Stock<'w> {
    /// The seats of all pipes.
    pub fn of(alloc: Global, seats: Vec<Seats<'w>>) -> Result<Stock<'w>, Memory>
        ensures { IfOk result (λ stock. stock ≡ stock_of (map seats_view seats.entry.items)) }
    {
        let mut stock = Stock::new(alloc);
        for own in seats {
            stock.add(own)?;
        }
        Ok(stock)
    }

    fn new(alloc: Global) -> Stock<'w>
        ensures { result ≡ no_stock }
    {
        Stock {
            alloc,
            claims: Shelf::new(alloc),
            puts: Shelf::new(alloc),
            takes: Shelf::new(alloc),
            deals: Shelf::new(alloc),
            shares: Shelf::new(alloc),
        }
    }

    /// Appends the seats of a pipe.
    fn add(&mut self, seats: Seats<'w>) -> Result<(), Memory>
        ensures { OnOk result (self.new ≡ with_seats self.old (seats_view seats.entry)) }
    {
        let Seats {
            claims,
            gathers,
            spreads,
            ..
        } = seats;
        self.claims.add(claims)?;
        add_gathers(self.alloc, gathers, &mut self.puts, &mut self.takes)?;
        add_spreads(self.alloc, spreads, &mut self.deals, &mut self.shares)
    }

    /// A seat that claims splits of a lane.
    pub fn claim(&mut self, lane: usize) -> Result<ClaimSeat<'w>, Memory>
        ensures taken { IfOk result (λ seat. IsOn self.old.claims lane seat) }
        ensures left { AreLeft self.old self.new }
    {
        self.claims.take(lane)
    }

    /// A seat that puts to the edge of a lane.
    pub fn put(&mut self, lane: usize) -> Result<GatherPut<'w>, Memory>
        ensures taken { IfOk result (λ seat. IsOn self.old.puts lane seat) }
        ensures left { AreLeft self.old self.new }
    {
        self.puts.take(lane)
    }

    /// The one that takes from it.
    pub fn take(&mut self, lane: usize) -> Result<GatherTake<'w>, Memory>
        ensures taken { IfOk result (λ seat. IsOn self.old.takes lane seat) }
        ensures left { AreLeft self.old self.new }
    {
        self.takes.take(lane)
    }

    /// The seat that puts to the edge of a lane of many takers.
    pub fn deal(&mut self, lane: usize) -> Result<SpreadPut<'w>, Memory>
        ensures taken { IfOk result (λ seat. IsOn self.old.deals lane seat) }
        ensures left { AreLeft self.old self.new }
    {
        self.deals.take(lane)
    }

    /// One that takes from it.
    pub fn share(&mut self, lane: usize) -> Result<SpreadTake<'w>, Memory>
        ensures taken { IfOk result (λ seat. IsOn self.old.shares lane seat) }
        ensures left { AreLeft self.old self.new }
    {
        self.shares.take(lane)
    }
}

fn add_gathers<'w>(
    alloc: Global,
    gathers: Vec<GatherSeats<'w>>,
    puts: &mut Shelf<GatherPut<'w>>,
    takes: &mut Shelf<GatherTake<'w>>,
) -> Result<(), Memory>
    ensures puts { OnOk result
        (puts.new ≡ puts.old ++ put_lanes (map gather_seats_view gathers.entry.items)) }
    ensures takes { OnOk result
        (takes.new ≡ takes.old ++ take_lanes (map gather_seats_view gathers.entry.items)) }
{
    for seats in gathers {
        puts.add(seats.puts)?;
        takes.add(Vec::from_array(alloc, [seats.take])?)?;
    }
    Ok(())
}

fn add_spreads<'w>(
    alloc: Global,
    spreads: Vec<SpreadSeats<'w>>,
    deals: &mut Shelf<SpreadPut<'w>>,
    shares: &mut Shelf<SpreadTake<'w>>,
) -> Result<(), Memory>
    ensures deals { OnOk result
        (deals.new ≡ deals.old ++ deal_lanes (map spread_seats_view spreads.entry.items)) }
    ensures shares { OnOk result
        (shares.new ≡ shares.old ++ share_lanes (map spread_seats_view spreads.entry.items)) }
{
    for seats in spreads {
        deals.add(Vec::from_array(alloc, [seats.put])?)?;
        shares.add(seats.takes)?;
    }
    Ok(())
}
