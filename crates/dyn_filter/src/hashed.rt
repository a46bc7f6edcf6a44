ghost use Rattle.std.specs.Prelude.{◌≡◌, ◌<◌, ◌≤◌, [], length, filter, IfOk, All};
ghost use Rattle.columns.specs.Present.{gather};
ghost use Rattle.sql_values.specs.Cells.{lent_value};
ghost use Rattle.dyn_filter.specs.Lists.{is_in};
ghost use Rattle.dyn_filter.specs.Domains.{is_held, passes};
ghost use Rattle.dyn_filter.specs.Rows.{row_passes};
ghost use Rattle.dyn_filter.specs.Slots.{AreSlotsOf, slot_count, slot_of};

use crate::domain::Domain;
use crate::value_list::ValueList;
use cell_hashes::{NO_VALUE, hash_value};
use col_pages::Page;
use sql_values::{Memory, ValueRef};
use std::alloc::Global;
use std::marker::Model;

/// Enough that most values of a full list have a slot of their own.
const SLOTS: usize = 4096;

/// A domain whose values are found by their hash. Each slot has one more than the place of a value with its hash, or 0
/// where no value has it.
#[derive(Drop)]
pub struct HashedDomain {
    domain: Domain,
    slots: Vec<u32>,
}

impl Model for HashedDomain {
    ghost use Rattle.dyn_filter.specs.declared.domain.Domain.{Domain};

    ghost Value = { Domain };

    ghost view = { λ h. h.domain };

    ghost use Rattle.dyn_filter.specs.Slots.{AreSlots};

    ghost invariant = { λ h. AreSlots h.domain h.slots.items };
}

impl HashedDomain {
    pub fn of(alloc: Global, domain: Domain) -> Result<HashedDomain, Memory>
        ensures { IfOk result (λ h. h ≡ domain) }
    {
        let slots = match &domain {
            Domain::Values(list) => slots_of(alloc, list)?,
            _ => Vec::new(alloc),
        };
        Ok(HashedDomain { domain, slots })
    }

    /// Whether a value passes. NULL does not.
    pub fn passes(&self, value: ValueRef<'_>) -> bool
        ensures { result ≡ passes self.now (lent_value value.entry) }
    {
        match value {
            ValueRef::Null => false,
            _ => self.holds(value),
        }
    }

    fn holds(&self, value: ValueRef<'_>) -> bool
        ensures { result ≡ is_held self.now (lent_value value.entry) }
    {
        match &self.domain {
            Domain::Values(list) => is_found(&self.slots, list, value),
            _ => self.domain.holds(value),
        }
    }

    /// The places of the rows of a page whose value in the column passes.
    fn passing(&self, alloc: Global, page: &Page, column: u32) -> Result<Vec<u32>, Memory>
        ensures rows { IfOk result (λ p. gather page.now.rows [] p.items ≡ filter (row_passes self.now column) page.now.rows) }
        ensures within { IfOk result (λ p. All (λ place. place < length page.now.rows) p.items) }
        ensures few { IfOk result (λ p. length p.items ≤ length page.now.rows) }
    {
        let mut places = Vec::with_capacity(alloc, page.len() as usize)?;
        for place in 0..page.len() {
            if self.passes(page.cell(place, column)) {
                places.push(place)?;
            }
        }
        Ok(places)
    }

    /// The rows of a page whose value in the column passes.
    pub fn kept(&self, alloc: Global, page: Page, column: u32) -> Result<Page, Memory>
        ensures { IfOk result (λ p. p ≡ record page { rows = filter (row_passes self.now column) page.rows }) }
    {
        let places = self.passing(alloc, &page, column)?;
        if places.len() == page.len() as usize {
            return Ok(page);
        }
        page.select(alloc, &places)
    }
}

/// The slot of a value.
fn slot_of(value: ValueRef<'_>) -> usize
    ensures of { result ≡ slot_of (lent_value value.entry) }
    ensures within { result < slot_count }
{
    (hash_value(NO_VALUE, value) % SLOTS as u64) as usize
}

/// The slots of a list: that of each value has one more than its place, or than that of a later value with its hash.
fn slots_of(alloc: Global, list: &ValueList) -> Result<Vec<u32>, Memory>
    ensures { IfOk result (λ s. AreSlotsOf list.now s.items) }
{
    let mut slots = Vec::from_elem(alloc, 0, SLOTS)?;
    let mut next: u32 = 1;
    for value in list.as_slice() {
        slots[slot_of(value.as_ref())] = next;
        next = next.saturating_add(1);
    }
    Ok(slots)
}

/// Whether the list has the value. Where another value has its slot, the list is searched.
fn is_found(slots: &[u32], list: &ValueList, value: ValueRef<'_>) -> bool
    requires { AreSlotsOf list.now slots.now }
    ensures { result ≡ is_in list.now (lent_value value.entry) }
{
    let next = slots[slot_of(value)];
    if next == 0 {
        return false;
    }
    list.is_at(next as usize - 1, value) || list.contains(value)
}
