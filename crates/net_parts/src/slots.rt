//! What is kept by its number.
ghost use Rattle.std.specs.Prelude.{◌≡◌, None, Some, map, replicate, slice_get, slice_set, IfOk, OnOk};

use sql_values::Memory;
use std::alloc::Global;
use std::marker::Model;

/// A slot for the item of each number: that items are drivers, of which there is much to know, costs no proof here.
#[derive(Drop)]
pub struct Slots<T> {
    alloc: Global,
    slots: Vec<Option<T>>,
}

impl<T> Model for Slots<T> {
    ghost use Rattle.std.specs.Prelude.{List, Option};

    ghost Value = { List (Option T) };

    ghost view = { λ s. s.slots.items };
}

impl<T: Drop> Slots<T> {
    /// So many empty ones.
    pub fn new(alloc: Global, count: u32) -> Result<Slots<T>, Memory>
        ensures { IfOk result (λ slots. slots ≡ replicate count None) }
    {
        let mut slots = Vec::with_capacity(alloc, count as usize)?;
        for _number in 0..count {
            slots.push(None)?;
        }
        Ok(Slots { alloc, slots })
    }

    /// Fills the slot of a number. Where there is none, or it is full, that is answered with want of memory.
    pub fn put(&mut self, number: u32, item: T) -> Result<(), Memory>
        ensures empty { OnOk result (slice_get self.old number ≡ Some None) }
        ensures filled { OnOk result (self.new ≡ slice_set self.old number (Some item)) }
    {
        let Some(slot) = self.slots.get_mut(number as usize) else {
            return Err(Memory);
        };
        if slot.is_some() {
            return Err(Memory);
        }
        *slot = Some(item);
        Ok(())
    }

    /// The items, in the order of their numbers. Where a slot is empty, that is answered with want of memory.
    pub fn into_items(self) -> Result<Vec<T>, Memory>
        ensures { IfOk result (λ items. self ≡ map Some items.items) }
    {
        let mut items = Vec::with_capacity(self.alloc, self.slots.len())?;
        for slot in self.slots {
            match slot {
                Some(item) => items.push(item)?,
                None => return Err(Memory),
            }
        }
        Ok(items)
    }
}
