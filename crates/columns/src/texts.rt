ghost use Rattle.std.specs.List.{sum_by};
ghost use Rattle.std.specs.Prelude.{◌≡◌, ◌+◌, ◌-◌, ◌^◌, ◌<◌, ◌≤◌, ◌↔◌, List, [], ◌∷◌, ◌++◌, Option, None, length, take, drop, map, min, slice_index, slice_index_or, IsTrue, IfOk, OnOk, OnErr, All, vec_len, vec_capacity};
ghost use Rattle.std.specs.Option.{option_copied};
ghost use Rattle.columns.specs.Present.{unless, gather};
ghost use Rattle.columns.specs.Pieces.{bytes_of};

use std::alloc::{AllocError, Global};
use std::marker::Model;

/// Texts, any of which may be missing.
#[derive(Drop)]
pub struct Texts {
    bytes: Vec<u8>,
    ends: Vec<usize>,
    nulls: Vec<bool>,
}

impl Model for Texts {
    ghost use Rattle.std.specs.Prelude.{List, Option, ℕ};

    ghost Value = { List (Option (List ℕ)) };

    ghost use Rattle.columns.specs.Present.{present};
    ghost use Rattle.columns.specs.Pieces.{pieces, AreTexts};

    ghost view = { λ t. present (pieces 0 t.ends.items t.bytes.items) t.nulls.items };

    ghost invariant = { λ t. AreTexts t.bytes.items t.ends.items t.nulls.items };
}

/// Where the text at a place begins; at the place past the last text, where the buffer ends.
fn start_of(ends: &[usize], place: usize) -> usize
    requires { place ≤ length ends.now }
    ensures { result ≡ slice_index (0 ∷ ends.now) place }
{
    if place == 0 {
        return 0;
    }
    ends[place - 1]
}

/// The ends, counted from a start.
fn ends_from(alloc: Global, ends: &[usize], start: usize) -> Result<Vec<usize>, AllocError>
    ensures { IfOk result (λ v. v.items ≡ map (λ e. e - start) ends.now) }
{
    ends.iter()
        .map(|end| end.saturating_sub(start))
        .collect(alloc)
}

/// Appends ends of texts that begin at a place of a longer buffer.
fn append_ends(ends: &mut Vec<usize>, others: &[usize], start: usize)
    requires room { vec_len ends.old + length others.now ≤ vec_capacity ends.old }
    requires fits { All (λ e. e + start < 2 ^ 64) others.now }
    ensures { ends.new.items ≡ ends.old.items ++ map (λ e. e + start) others.now }
{
    for end in others {
        ends.push_reserved(*end + start);
    }
}

impl Texts {
    pub fn new(alloc: Global) -> Texts
        ensures { result ≡ [] }
    {
        Texts {
            bytes: Vec::new(alloc),
            ends: Vec::new(alloc),
            nulls: Vec::new(alloc),
        }
    }

    /// No texts, with room for as many as `capacity`, but not for their bytes.
    pub fn with_capacity(alloc: Global, capacity: usize) -> Result<Texts, AllocError>
        ensures { IfOk result (λ t. t ≡ []) }
    {
        Ok(Texts {
            bytes: Vec::new(alloc),
            ends: Vec::with_capacity(alloc, capacity)?,
            nulls: Vec::with_capacity(alloc, capacity)?,
        })
    }

    #[tactic(auto, using(crate::proofs::TextLemmas::texts))]
    pub fn len(&self) -> usize
        ensures { result ≡ length self.now }
    {
        self.nulls.len()
    }

    pub fn is_empty(&self) -> bool
        ensures { IsTrue result ↔ (self.now ≡ []) }
    {
        self.len() == 0
    }

    /// Where the vectors lie.
    pub fn allocator(&self) -> Global {
        *self.nulls.allocator()
    }

    #[tactic(auto, using(crate::proofs::TextLemmas::reads))]
    pub fn get(&self, place: usize) -> Option<&str>
        requires { place < length self.now }
        ensures { option_copied result ≡ slice_index_or self.now place None }
    {
        if self.nulls[place] {
            return None;
        }
        let start = start_of(self.ends.as_slice(), place);
        let end = self.ends[place];
        // Each text is UTF-8 by the invariant, so nothing is tested again.
        Some(unsafe { str::from_utf8_unchecked(&self.bytes[start..end]) })
    }

    pub fn push(&mut self, value: Option<&str>) -> Result<(), AllocError>
        ensures ok { OnOk result (self.new ≡ self.old ++ option_copied value.entry ∷ []) }
        ensures err { OnErr result (self.new ≡ self.old) }
    {
        match value {
            Some(text) => self.add(text, false),
            None => self.add("", true),
        }
    }

    #[tactic(auto, using(crate::proofs::TextLemmas::pushes))]
    fn add(&mut self, text: &str, missing: bool) -> Result<(), AllocError>
        ensures ok { OnOk result (self.new ≡ self.old ++ unless missing text.now ∷ []) }
        ensures err { OnErr result (self.new ≡ self.old) }
    {
        self.ends.reserve(1)?;
        self.nulls.reserve(1)?;
        self.bytes.extend_from_slice(text.as_bytes())?;
        self.ends.push_reserved(self.bytes.len());
        self.nulls.push_reserved(missing);
        Ok(())
    }

    #[tactic(auto, using(crate::proofs::TextLemmas::takes))]
    pub fn truncate(&mut self, len: usize)
        ensures { self.new ≡ take len self.old }
    {
        if len >= self.len() {
            return;
        }
        self.bytes.truncate(start_of(self.ends.as_slice(), len));
        self.ends.truncate(len);
        self.nulls.truncate(len);
    }

    pub fn clear(&mut self)
        ensures { self.new ≡ [] }
    {
        self.bytes.clear();
        self.ends.clear();
        self.nulls.clear();
    }

    /// The texts from one place up to, and without, another.
    #[tactic(auto, using(crate::proofs::TextLemmas::cuts))]
    pub fn cut(&self, alloc: Global, low: usize, high: usize) -> Result<Texts, AllocError>
        requires order { low ≤ high }
        requires within { high ≤ length self.now }
        ensures { IfOk result (λ t. t ≡ take (high - low) (drop low self.now)) }
    {
        let start = start_of(self.ends.as_slice(), low);
        let end = start_of(self.ends.as_slice(), high);
        Ok(Texts {
            bytes: Vec::from_slice(alloc, &self.bytes[start..end])?,
            ends: ends_from(alloc, &self.ends[low..high], start)?,
            nulls: Vec::from_slice(alloc, &self.nulls[low..high])?,
        })
    }

    /// The texts at the places, in the places' order.
    pub fn select(&self, alloc: Global, places: &[u32]) -> Result<Texts, AllocError>
        requires { All (λ p. p < length self.now) places.now }
        ensures { IfOk result (λ t. t ≡ gather self.now None places.now) }
    {
        let mut chosen = Texts::with_room(alloc, places.len(), self.bytes_of(places))?;
        for place in places {
            chosen.push(self.get(*place as usize))?;
        }
        Ok(chosen)
    }

    /// No texts, with room for as many as `capacity` that have so many bytes together.
    fn with_room(alloc: Global, capacity: usize, bytes: usize) -> Result<Texts, AllocError>
        ensures { IfOk result (λ t. t ≡ []) }
    {
        Ok(Texts {
            bytes: Vec::with_capacity(alloc, bytes)?,
            ends: Vec::with_capacity(alloc, capacity)?,
            nulls: Vec::with_capacity(alloc, capacity)?,
        })
    }

    /// How many bytes the texts at the places have together, or the most that can be counted.
    fn bytes_of(&self, places: &[u32]) -> usize
        requires { All (λ p. p < length self.now) places.now }
        ensures { result ≡ min (sum_by (λ p. bytes_of (slice_index_or self.now p None)) places.now) (2 ^ 64 - 1) }
    {
        let mut sum: usize = 0;
        for place in places {
            sum = sum.saturating_add(self.bytes_at(*place as usize));
        }
        sum
    }

    /// How many bytes the text at a place has.
    fn bytes_at(&self, place: usize) -> usize
        requires { place < length self.now }
        ensures { result ≡ bytes_of (slice_index_or self.now place None) }
    {
        match self.get(place) {
            Some(text) => text.len(),
            None => 0,
        }
    }

    pub fn copy(&self, alloc: Global) -> Result<Texts, AllocError>
        ensures { IfOk result (λ t. t ≡ self.now) }
    {
        Ok(Texts {
            bytes: Vec::from_slice(alloc, self.bytes.as_slice())?,
            ends: Vec::from_slice(alloc, self.ends.as_slice())?,
            nulls: Vec::from_slice(alloc, self.nulls.as_slice())?,
        })
    }

    #[tactic(auto, using(crate::proofs::TextLemmas::appends))]
    pub fn append(&mut self, other: &Texts) -> Result<(), AllocError>
        ensures ok { OnOk result (self.new ≡ self.old ++ other.now) }
        ensures err { OnErr result (self.new ≡ self.old) }
    {
        let start = self.bytes.len();
        self.ends.reserve(other.ends.len())?;
        self.nulls.reserve(other.nulls.len())?;
        self.bytes.extend_from_slice(other.bytes.as_slice())?;
        self.nulls.extend_from_slice(other.nulls.as_slice())?;
        append_ends(&mut self.ends, other.ends.as_slice(), start);
        Ok(())
    }
}
