ghost use Rattle.std.specs.Prelude.{◌≡◌, ℕ, ◌≤◌, None};
ghost use Rattle.count_laws.specs.Counts.{Rose};
ghost use Rattle.run_ports.specs.Delivering.{IfMissed};
ghost use Rattle.run_ports.specs.Replays.{start_of, next_state, delivery_of, courier_after, delivered_in, missed_after};

/// What reaches a client after a reply was made: that reply, an earlier one or none.
#[derive(Clone, Copy)]
pub enum Delivery {
    Fresh,
    Again(u32),
    Nothing,
}

/// Decides what reaches the clients of the edges. It has no fault.
pub trait Courier: Sized + Drop {
    // A count of missed turns: it rises in each turn that does not deliver the fresh reply.
    ghost missed: { Self → ℕ };

    /// The courier of an edge, under a run's number.
    fn for_edge(&self, number: u64, edge: u32) -> Self;

    fn turn(&mut self) -> Delivery
        ensures later { missed self.old ≤ missed self.new }
        ensures cause { IfMissed result (Rose (missed self.old) (missed self.new)) };
}

const MULTIPLIER: u64 = 6_364_136_223_846_793_005;

const INCREMENT: u64 = 1_442_695_040_888_963_407;

/// Follows a generator whose state begins with the run's number and the edge's. Under number 0 there is none, and
/// each reply is delivered at once.
#[derive(Drop)]
pub struct ReplayCourier {
    state: Option<u64>,
    missed: u64,
}

impl ReplayCourier {
    /// The courier of number 0.
    pub fn new() -> ReplayCourier
        ensures missed { ⟦<ReplayCourier as Courier>⟧.missed result ≡ 0 }
        ensures state { result.state ≡ None }
    {
        ReplayCourier {
            state: None,
            missed: 0,
        }
    }
}

impl Courier for ReplayCourier {
    ghost missed = { λ c. c.missed };

    fn for_edge(&self, number: u64, edge: u32) -> ReplayCourier
        ensures state { result.state ≡ start_of number edge }
        ensures missed { result.missed ≡ 0 }
    {
        ReplayCourier {
            state: start(number, edge),
            missed: 0,
        }
    }

    fn turn(&mut self) -> Delivery
        ensures state { self.new.state ≡ courier_after self.old.state }
        ensures delivered { result ≡ delivered_in (courier_after self.old.state) }
        ensures missed { self.new.missed ≡ missed_after self.old.missed result }
        ensures later { self.old.missed ≤ self.new.missed }
        ensures cause { IfMissed result (Rose self.old.missed self.new.missed) }
    {
        self.state = self.state.map(next);
        let delivery = self.state.map_or(Delivery::Fresh, drawn);
        if !matches!(delivery, Delivery::Fresh) {
            self.missed = self.missed.saturating_add(1);
        }
        delivery
    }
}

fn start(number: u64, edge: u32) -> Option<u64>
    ensures { result ≡ start_of number edge }
{
    match number {
        0 => None,
        _ => Some(number.wrapping_add(u64::from(edge))),
    }
}

#[tactic(auto, using(crate::proofs::ReplayLemmas::stepping))]
fn next(state: u64) -> u64
    ensures { result ≡ next_state state }
{
    state.wrapping_mul(MULTIPLIER).wrapping_add(INCREMENT)
}

/// What a state delivers.
fn drawn(state: u64) -> Delivery
    ensures { result ≡ delivery_of state }
{
    match (state >> 33) % 4 {
        0 | 1 => Delivery::Fresh,
        2 => Delivery::Again(((state >> 40) % 4) as u32),
        _ => Delivery::Nothing,
    }
}
