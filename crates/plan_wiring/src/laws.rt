//! What follows from the definitions.
ghost use Rattle.std.specs.Prelude.{◌<◌};
ghost use Rattle.output_buffer.specs.Seats.{GatherState, SpreadState};
ghost use Rattle.split_source.specs.Seats.{AreAllOf, ClaimsState, new_seats};
ghost use Rattle.plan_wiring.specs.Handed.{AreAllOfGather, AreAllOfSpread, new_gather_seats, new_spread_seats};

/// The law that the seats that are handed out are all those of their claims or edge.
#[tactic(auto, using(crate::proofs::SeatLemmas::all_claimed, crate::proofs::SeatLemmas::all_gathered, crate::proofs::SeatLemmas::all_spread))]
pub fn new_seats_are_all()
    ensures claims { (claims : ClaimsState) → 0 < claims.id.of.seats
        → AreAllOf claims.id (new_seats claims.id) }
    ensures gathers { (gather : GatherState) → AreAllOfGather gather (new_gather_seats gather) }
    ensures spreads { (spread : SpreadState) → AreAllOfSpread spread (new_spread_seats spread) }
{}
