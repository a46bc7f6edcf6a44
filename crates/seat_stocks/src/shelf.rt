//! Seats in lanes.
ghost use Rattle.std.specs.Prelude.{◌≡◌, ◌++◌, ◌∷◌, [], IfOk, OnOk};
ghost use Rattle.seat_stocks.specs.Shelves.{IsLeft, IsOn};

use sql_values::Memory;
use std::alloc::Global;
use std::marker::Model;

/// Lanes of seats.
#[derive(Drop)]
pub(crate) struct Shelf<T> {
    lanes: Vec<Vec<T>>,
}

impl<T> Model for Shelf<T> {
    ghost use Rattle.std.specs.Prelude.{List, map};

    ghost Value = { List (List T) };

    ghost view = { λ shelf. map (λ lane. lane.items) shelf.lanes.items };
}

impl<T: Drop> Shelf<T> {
    /// No lane.
    pub fn new(alloc: Global) -> Shelf<T>
        ensures { result ≡ [] }
    {
        Shelf {
            lanes: Vec::new(alloc),
        }
    }

    /// Appends a lane.
    pub fn add(&mut self, lane: Vec<T>) -> Result<(), Memory>
        ensures { OnOk result (self.new ≡ self.old ++ lane.items ∷ []) }
    {
        self.lanes.push(lane)?;
        Ok(())
    }

    /// The last seat that is left in a lane. Where there is none, that is answered with want of memory.
    pub fn take(&mut self, lane: usize) -> Result<T, Memory>
        ensures taken { IfOk result (λ seat. IsOn self.old lane seat) }
        ensures left { IsLeft self.old self.new }
    {
        let Some(seats) = self.lanes.get_mut(lane) else {
            return Err(Memory);
        };
        match seats.pop() {
            Some(seat) => Ok(seat),
            None => Err(Memory),
        }
    }
}
