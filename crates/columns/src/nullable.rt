ghost use Rattle.std.specs.Prelude.{◌≡◌, ◌-◌, ◌<◌, ◌≤◌, ◌↔◌, List, [], ◌∷◌, ◌++◌, Option, None, length, take, drop, map, is_none, slice_index_or, IsTrue, IfOk, OnOk, OnErr, All};
ghost use Rattle.columns.specs.Present.{unless, present, gather};

use crate::gather::items_at;
use std::alloc::{AllocError, Global};
use std::marker::Model;

/// Values of one type, any of which may be missing.
#[derive(Drop)]
pub struct Nullable<T> {
    items: Vec<T>,
    nulls: Vec<bool>,
}

impl<T> Model for Nullable<T> {
    ghost use Rattle.std.specs.Prelude.{◌≡◌, List, Option, length};

    ghost Value = { List (Option T) };

    ghost use Rattle.columns.specs.Present.{present};

    ghost view = { λ v. present v.items.items v.nulls.items };

    ghost invariant = { λ v. length v.items.items ≡ length v.nulls.items };
}

impl<T: Copy + Default + Drop> Nullable<T> {
    pub fn new(alloc: Global) -> Nullable<T>
        ensures { result ≡ [] }
    {
        Nullable {
            items: Vec::new(alloc),
            nulls: Vec::new(alloc),
        }
    }

    pub fn with_capacity(alloc: Global, capacity: usize) -> Result<Nullable<T>, AllocError>
        ensures { IfOk result (λ v. v ≡ []) }
    {
        Ok(Nullable {
            items: Vec::with_capacity(alloc, capacity)?,
            nulls: Vec::with_capacity(alloc, capacity)?,
        })
    }

    /// The vector of items, those where a mark is true being missing.
    pub fn of(items: Vec<T>, nulls: Vec<bool>) -> Nullable<T>
        requires { length items.items ≡ length nulls.items }
        ensures { result ≡ present items.items nulls.items }
    {
        Nullable { items, nulls }
    }

    #[tactic(auto, using(crate::proofs::PresentLemmas::presents))]
    pub fn len(&self) -> usize
        ensures { result ≡ length self.now }
    {
        self.nulls.len()
    }

    pub fn is_empty(&self) -> bool
        ensures { IsTrue result ↔ (self.now ≡ []) }
    {
        self.len() == 0
    }

    /// Where the vectors lie.
    pub fn allocator(&self) -> Global {
        *self.items.allocator()
    }

    /// The items; one that is missing reads as some value of its type.
    #[tactic(auto, using(crate::proofs::PresentLemmas::presents))]
    pub fn items(&self) -> &[T]
        ensures items { present result.now (map is_none self.now) ≡ self.now }
        ensures len { length result.now ≡ length self.now }
    {
        self.items.as_slice()
    }

    /// For each value whether it is missing.
    #[tactic(auto, using(crate::proofs::PresentLemmas::presents))]
    pub fn nulls(&self) -> &[bool]
        ensures { result.now ≡ map is_none self.now }
    {
        self.nulls.as_slice()
    }

    #[tactic(auto, using(crate::proofs::PresentLemmas::presents, crate::proofs::PresentLemmas::reads))]
    pub fn get(&self, place: usize) -> Option<T>
        requires { place < length self.now }
        ensures { result ≡ slice_index_or self.now place None }
    {
        if self.nulls[place] {
            return None;
        }
        Some(self.items[place])
    }

    pub fn push(&mut self, value: Option<T>) -> Result<(), AllocError>
        ensures ok { OnOk result (self.new ≡ self.old ++ value ∷ []) }
        ensures err { OnErr result (self.new ≡ self.old) }
    {
        match value {
            Some(item) => self.add(item, false),
            None => self.add(T::default(), true),
        }
    }

    #[tactic(auto, using(crate::proofs::PresentLemmas::presents))]
    fn add(&mut self, item: T, missing: bool) -> Result<(), AllocError>
        ensures ok { OnOk result (self.new ≡ self.old ++ unless missing item ∷ []) }
        ensures err { OnErr result (self.new ≡ self.old) }
    {
        self.nulls.reserve(1)?;
        self.items.push(item)?;
        self.nulls.push_reserved(missing);
        Ok(())
    }

    #[tactic(auto, using(crate::proofs::PresentLemmas::presents))]
    pub fn truncate(&mut self, len: usize)
        ensures { self.new ≡ take len self.old }
    {
        self.items.truncate(len);
        self.nulls.truncate(len);
    }

    pub fn clear(&mut self)
        ensures { self.new ≡ [] }
    {
        self.items.clear();
        self.nulls.clear();
    }

    /// The values from one place up to, and without, another.
    #[tactic(auto, using(crate::proofs::PresentLemmas::presents))]
    pub fn cut(&self, alloc: Global, low: usize, high: usize) -> Result<Nullable<T>, AllocError>
        requires order { low ≤ high }
        requires within { high ≤ length self.now }
        ensures { IfOk result (λ v. v ≡ take (high - low) (drop low self.now)) }
    {
        Ok(Nullable {
            items: Vec::from_slice(alloc, &self.items[low..high])?,
            nulls: Vec::from_slice(alloc, &self.nulls[low..high])?,
        })
    }

    /// The values at the places, in the places' order.
    pub fn select(&self, alloc: Global, places: &[u32]) -> Result<Nullable<T>, AllocError>
        requires { All (λ p. p < length self.now) places.now }
        ensures { IfOk result (λ v. v ≡ gather self.now None places.now) }
    {
        Ok(Nullable {
            items: items_at(alloc, self.items.as_slice(), places)?,
            nulls: items_at(alloc, self.nulls.as_slice(), places)?,
        })
    }

    pub fn copy(&self, alloc: Global) -> Result<Nullable<T>, AllocError>
        ensures { IfOk result (λ v. v ≡ self.now) }
    {
        Ok(Nullable {
            items: Vec::from_slice(alloc, self.items.as_slice())?,
            nulls: Vec::from_slice(alloc, self.nulls.as_slice())?,
        })
    }

    #[tactic(auto, using(crate::proofs::PresentLemmas::presents))]
    pub fn append(&mut self, other: &Nullable<T>) -> Result<(), AllocError>
        ensures ok { OnOk result (self.new ≡ self.old ++ other.now) }
        ensures err { OnErr result (self.new ≡ self.old) }
    {
        self.nulls.reserve(other.len())?;
        self.items.extend_from_slice(other.items())?;
        self.nulls.extend_from_slice(other.nulls())?;
        Ok(())
    }
}
