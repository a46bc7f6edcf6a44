//! Items as they go through a pool, each tied to the one that came at its place.
ghost use Rattle.std.specs.Prelude.{◌≡◌, ◌||◌, List, [], Some, slice_get};
ghost use Rattle.worker_pool.specs.Items.{CanTurn, CameAs, IsRunner};

use crate::turning::TakesTurns;
use blocked::BlockedOn;
use std::marker::{Brand, Model, PhantomData};

/// The items that came into a pool. Each run picks them, since of an item behind a lock only its type is known.
pub(crate) trait Roster<T> {
    ghost came: { List T };
}

impl<T> Roster<T> for Brand {
    ghost came = { [] };
}

/// An item that can have a turn.
#[derive(Drop)]
pub(crate) struct Runner<T: TakesTurns, J: Roster<T>> {
    pub(crate) place: usize,
    pub(crate) item: T,
    of: PhantomData<J>,
}

impl<T: TakesTurns, J: Roster<T>> Model for Runner<T, J> {
    ghost use Rattle.worker_pool.specs.Items.{PlacedItem, IsRunner};

    ghost Value = { PlacedItem T };

    ghost view = { λ r. record { place = r.place; item = r.item } };

    ghost invariant = { λ r. IsRunner T.follows T.is_finished T.has_failed J.came
        (record { place = r.place; item = r.item }) };
}

impl<T: TakesTurns, J: Roster<T>> Runner<T, J> {
    pub(crate) fn new(place: usize, item: T) -> Runner<T, J>
        requires came { CameAs T.follows J.came (record { place = place; item = item }) }
        requires can_turn { CanTurn T.is_finished T.has_failed item }
        ensures { result ≡ record { place = place; item = item } }
    {
        Runner {
            place,
            item,
            of: PhantomData,
        }
    }

    pub(crate) fn work(&self) -> u64
        ensures { result ≡ T.work self.now.item }
    {
        self.item.work()
    }

    pub(crate) fn into_parts(self) -> (usize, T)
        ensures place { result.0 ≡ self.place }
        ensures item { result.1 ≡ self.item }
        ensures came { IsRunner T.follows T.is_finished T.has_failed J.came self }
    {
        (self.place, self.item)
    }

    /// It has no more turns.
    pub(crate) fn give_back(self) -> Returned<T, J>
        ensures { result ≡ self }
    {
        let Runner { place, item, of: _ } = self;
        Returned::new(place, item)
    }
}

/// An item that has no more turns.
#[derive(Drop)]
pub(crate) struct Returned<T: TakesTurns, J: Roster<T>> {
    pub(crate) place: usize,
    item: T,
    of: PhantomData<J>,
}

impl<T: TakesTurns, J: Roster<T>> Model for Returned<T, J> {
    ghost use Rattle.worker_pool.specs.Items.{PlacedItem, CameAs};

    ghost Value = { PlacedItem T };

    ghost view = { λ r. record { place = r.place; item = r.item } };

    ghost invariant = { λ r. CameAs T.follows J.came (record { place = r.place; item = r.item }) };
}

impl<T: TakesTurns, J: Roster<T>> Returned<T, J> {
    pub(crate) fn new(place: usize, item: T) -> Returned<T, J>
        requires { CameAs T.follows J.came (record { place = place; item = item }) }
        ensures { result ≡ record { place = place; item = item } }
    {
        Returned {
            place,
            item,
            of: PhantomData,
        }
    }

    /// One that comes.
    pub(crate) fn first(place: usize, item: T) -> Returned<T, J>
        requires { slice_get J.came place ≡ Some item }
        ensures { result ≡ record { place = place; item = item } }
    {
        Returned::new(place, item)
    }

    /// Whether it needs no more turns.
    pub(crate) fn is_over(&self) -> bool
        ensures { result ≡ (T.is_finished self.now.item || T.has_failed self.now.item) }
    {
        self.item.is_finished() || self.item.has_failed()
    }

    /// It can have a turn.
    pub(crate) fn run(self) -> Runner<T, J>
        requires { CanTurn T.is_finished T.has_failed self.item }
        ensures { result ≡ self }
    {
        let Returned { place, item, of: _ } = self;
        Runner::new(place, item)
    }

    pub(crate) fn place(&self) -> usize
        ensures { result ≡ self.now.place }
    {
        self.place
    }

    pub(crate) fn has_failed(&self) -> bool
        ensures { result ≡ T.has_failed self.now.item }
    {
        self.item.has_failed()
    }

    pub(crate) fn into_item(self) -> T
        ensures item { result ≡ self.item }
        ensures came { CameAs T.follows J.came self }
    {
        self.item
    }
}

/// An item that waits at a bell, with the future that its last turn answered.
#[derive(Drop)]
pub(crate) struct Waiter<T: TakesTurns, J: Roster<T>> {
    runner: Runner<T, J>,
    on: BlockedOn,
}

impl<T: TakesTurns, J: Roster<T>> Model for Waiter<T, J> {
    ghost use Rattle.worker_pool.specs.Items.{Waiting};

    ghost Value = { Waiting T };

    ghost view = { λ w. record { runner = w.runner; bell = w.on.bell; seen = w.on.seen } };

    ghost invariant = { λ w. T.waits_at w.runner.item w.on.bell w.on.seen };
}

impl<T: TakesTurns, J: Roster<T>> Waiter<T, J> {
    pub(crate) fn new(runner: Runner<T, J>, on: BlockedOn) -> Waiter<T, J>
        requires { T.waits_at runner.item on.bell on.seen }
        ensures { result ≡ record { runner = runner; bell = on.bell; seen = on.seen } }
    {
        Waiter { runner, on }
    }

    /// What it waits for, to be parked by.
    pub(crate) fn waits_for(&self) -> BlockedOn
        ensures bell { result.bell ≡ self.now.bell }
        ensures seen { result.seen ≡ self.now.seen }
    {
        BlockedOn::new(self.on.bell, self.on.seen)
    }

    /// The bell rang: it can have a turn.
    pub(crate) fn wake(self) -> Runner<T, J>
        ensures { result ≡ self.runner }
    {
        let Waiter { runner, mut on } = self;
        on.wake();
        runner
    }
}
