ghost use Rattle.std.specs.Prelude.{◌≡◌, ◌-◌, ◌<◌, ◌≤◌, ◌↔◌, ◌++◌, [], if◌then◌else◌, length, map, take, drop, replicate, slice_index_or, IsTrue, IfOk, IfSome, IsSome, OnErr, All};
ghost use Rattle.columns.specs.Present.{gather};
ghost use Rattle.sql_values.specs.declared.types.SqlType.TheVariants as kind_is;
ghost use Rattle.sql_values.specs.declared.value.Value.TheVariants as value_is;
ghost use Rattle.sql_values.specs.Cells.{lent_value};
ghost use Rattle.sql_values.specs.Blocks.{fits, has_decimals, offered, or_null, with_cells, chosen, AreAll};
ghost use Rattle.sql_values.specs.Buckets.{GoOnBy};

use crate::block_cells::{
    bigint_or_null, boolean_or_null, date_or_null, decimal_or_null, push_bigint, push_boolean,
    push_date, push_decimal, push_varchar, varchar_or_null,
};
use crate::hash::{bucket_hash, hash_bigints};
use crate::memory::Memory;
use crate::types::SqlType;
use crate::value::{Value, ValueRef};
use columns::{Nullable, Texts};
use std::alloc::Global;
use std::marker::Model;

/// Cells of a type, any of which may be NULL, in one vector with their nulls.
#[derive(Drop)]
pub struct PlainBlock {
    held: Held,
}

#[derive(Drop)]
enum Held {
    Boolean(Nullable<bool>),
    Bigint(Nullable<i64>),
    Decimal {
        p: u8,
        s: u8,
        numbers: Nullable<i128>,
    },
    Varchar(Texts),
    Date(Nullable<i32>),
}

impl Model for PlainBlock {
    ghost use Rattle.sql_values.specs.Blocks.{TypedCells};

    ghost Value = { TypedCells };

    ghost use Rattle.sql_values.specs.Held.{typed};

    ghost view = { λ b. typed b.held };
}

impl PlainBlock {
    /// No cells, of a type.
    pub fn new(alloc: Global, kind: SqlType) -> PlainBlock
        ensures { result ≡ record { kind = kind; cells = [] } }
    {
        let held = match kind {
            SqlType::Boolean => Held::Boolean(Nullable::new(alloc)),
            SqlType::Bigint => Held::Bigint(Nullable::new(alloc)),
            SqlType::Decimal { p, s } => Held::Decimal {
                p,
                s,
                numbers: Nullable::new(alloc),
            },
            SqlType::Varchar => Held::Varchar(Texts::new(alloc)),
            SqlType::Date => Held::Date(Nullable::new(alloc)),
        };
        PlainBlock { held }
    }

    /// The block of these values.
    pub fn of_values(alloc: Global, kind: SqlType, values: &[Value]) -> Result<PlainBlock, Memory>
        requires { All (λ v. IsTrue (fits kind v)) values.now }
        ensures { IfOk result (λ b. b ≡ record { kind = kind; cells = values.now }) }
    {
        let mut block = PlainBlock::new(alloc, kind);
        for value in values {
            block.push(value.as_ref())?;
        }
        Ok(block)
    }

    /// The block of these truths.
    pub fn of_booleans(truths: Nullable<bool>) -> PlainBlock
        ensures { result ≡ record { kind = kind_is.Boolean; cells = map (or_null value_is.Boolean) truths } }
    {
        PlainBlock {
            held: Held::Boolean(truths),
        }
    }

    /// The block of these numbers.
    pub fn of_bigints(numbers: Nullable<i64>) -> PlainBlock
        ensures { result ≡ record { kind = kind_is.Bigint; cells = map (or_null value_is.Bigint) numbers } }
    {
        PlainBlock {
            held: Held::Bigint(numbers),
        }
    }

    /// The block of these numbers without their points, of a type of p digits and s places.
    pub fn of_decimals(p: u8, s: u8, numbers: Nullable<i128>) -> PlainBlock
        ensures { result ≡ record { kind = kind_is.Decimal p s; cells = map (or_null value_is.Decimal) numbers } }
    {
        PlainBlock {
            held: Held::Decimal { p, s, numbers },
        }
    }

    /// The block of these days.
    pub fn of_dates(days: Nullable<i32>) -> PlainBlock
        ensures { result ≡ record { kind = kind_is.Date; cells = map (or_null value_is.Date) days } }
    {
        PlainBlock {
            held: Held::Date(days),
        }
    }

    /// The truths, where the block has their type.
    pub fn booleans(&self) -> Option<&Nullable<bool>>
        ensures there { IsSome result ↔ (self.now.kind ≡ kind_is.Boolean) }
        ensures cells { IfSome result (λ c. self.now.cells ≡ map (or_null value_is.Boolean) c.now) }
    {
        match &self.held {
            Held::Boolean(truths) => Some(truths),
            _ => None,
        }
    }

    /// The numbers, where the block has the type bigint.
    pub fn bigints(&self) -> Option<&Nullable<i64>>
        ensures there { IsSome result ↔ (self.now.kind ≡ kind_is.Bigint) }
        ensures cells { IfSome result (λ c. self.now.cells ≡ map (or_null value_is.Bigint) c.now) }
    {
        match &self.held {
            Held::Bigint(numbers) => Some(numbers),
            _ => None,
        }
    }

    /// The numbers without their points, where the block has a decimal type.
    pub fn decimals(&self) -> Option<&Nullable<i128>>
        ensures there { IsSome result ↔ IsTrue (has_decimals self.now.kind) }
        ensures cells { IfSome result (λ c. self.now.cells ≡ map (or_null value_is.Decimal) c.now) }
    {
        match &self.held {
            Held::Decimal { numbers, .. } => Some(numbers),
            _ => None,
        }
    }

    /// The texts, where the block has their type.
    pub fn texts(&self) -> Option<&Texts>
        ensures there { IsSome result ↔ (self.now.kind ≡ kind_is.Varchar) }
        ensures cells { IfSome result (λ c. self.now.cells ≡ map (or_null value_is.Varchar) c.now) }
    {
        match &self.held {
            Held::Varchar(texts) => Some(texts),
            _ => None,
        }
    }

    /// The days, where the block has the type date.
    pub fn dates(&self) -> Option<&Nullable<i32>>
        ensures there { IsSome result ↔ (self.now.kind ≡ kind_is.Date) }
        ensures cells { IfSome result (λ c. self.now.cells ≡ map (or_null value_is.Date) c.now) }
    {
        match &self.held {
            Held::Date(days) => Some(days),
            _ => None,
        }
    }

    /// The law that each cell has the variant of the block's type, or is NULL.
    pub fn cells_fit(&self)
        ensures { All (λ v. IsTrue (fits self.now.kind v)) self.now.cells }
    {
        let _held = &self.held;
    }

    pub fn kind(&self) -> SqlType
        ensures { result ≡ self.now.kind }
    {
        match &self.held {
            Held::Boolean(_) => SqlType::Boolean,
            Held::Bigint(_) => SqlType::Bigint,
            Held::Decimal { p, s, .. } => SqlType::Decimal { p: *p, s: *s },
            Held::Varchar(_) => SqlType::Varchar,
            Held::Date(_) => SqlType::Date,
        }
    }

    /// How many cells there are.
    #[tactic(auto, using(crate::proofs::BlockLemmas::blocks))]
    pub fn len(&self) -> usize
        ensures { result ≡ length self.now.cells }
    {
        match &self.held {
            Held::Boolean(truths) => truths.len(),
            Held::Bigint(numbers) => numbers.len(),
            Held::Decimal { numbers, .. } => numbers.len(),
            Held::Varchar(texts) => texts.len(),
            Held::Date(days) => days.len(),
        }
    }

    pub fn is_empty(&self) -> bool
        ensures { IsTrue result ↔ (self.now.cells ≡ []) }
    {
        self.len() == 0
    }

    /// Where the cells lie.
    pub(crate) fn allocator(&self) -> Global {
        match &self.held {
            Held::Boolean(truths) => truths.allocator(),
            Held::Bigint(numbers) => numbers.allocator(),
            Held::Decimal { numbers, .. } => numbers.allocator(),
            Held::Varchar(texts) => texts.allocator(),
            Held::Date(days) => days.allocator(),
        }
    }

    /// The cell at a place.
    #[tactic(auto, using(crate::proofs::BlockLemmas::blocks))]
    pub fn cell(&self, place: usize) -> ValueRef<'_>
        requires { place < length self.now.cells }
        ensures { lent_value result ≡ slice_index_or self.now.cells place value_is.Null }
    {
        match &self.held {
            Held::Boolean(truths) => boolean_or_null(truths.get(place)),
            Held::Bigint(numbers) => bigint_or_null(numbers.get(place)),
            Held::Decimal { numbers, .. } => decimal_or_null(numbers.get(place)),
            Held::Varchar(texts) => varchar_or_null(texts.get(place)),
            Held::Date(days) => date_or_null(days.get(place)),
        }
    }

    /// Goes on in each bucket hash by the cell at its place.
    pub fn hash_cells(&self, hashes: &mut [u64])
        requires { length hashes.old ≤ length self.now.cells }
        ensures { GoOnBy (λ k. slice_index_or self.now.cells k value_is.Null) hashes.old hashes.new }
    {
        match &self.held {
            Held::Bigint(numbers) => hash_bigints(numbers, hashes),
            _ => self.hash_each(hashes),
        }
    }

    fn hash_each(&self, hashes: &mut [u64])
        requires { length hashes.old ≤ length self.now.cells }
        ensures { GoOnBy (λ k. slice_index_or self.now.cells k value_is.Null) hashes.old hashes.new }
    {
        for place in 0..hashes.len() {
            hashes[place] = bucket_hash(hashes[place], self.cell(place));
        }
    }

    /// Appends a value of the block's type, or answers false where it has another variant.
    pub fn push(&mut self, value: ValueRef<'_>) -> Result<bool, Memory>
        ensures taken { IfOk result (λ taken. taken ≡ fits self.old.kind (lent_value value.entry)) }
        ensures ok { IfOk result (λ taken. self.new ≡ with_cells self.old
            (offered taken self.old.cells (lent_value value.entry))) }
        ensures err { OnErr result (self.new ≡ self.old) }
    {
        match &mut self.held {
            Held::Boolean(truths) => push_boolean(truths, value),
            Held::Bigint(numbers) => push_bigint(numbers, value),
            Held::Decimal { numbers, .. } => push_decimal(numbers, value),
            Held::Varchar(texts) => push_varchar(texts, value),
            Held::Date(days) => push_date(days, value),
        }
    }

    /// Keeps the first cells, at most as many as `len`.
    #[tactic(auto, using(crate::proofs::BlockLemmas::blocks))]
    pub fn truncate(&mut self, len: usize)
        ensures { self.new ≡ with_cells self.old (take len self.old.cells) }
    {
        match &mut self.held {
            Held::Boolean(truths) => truths.truncate(len),
            Held::Bigint(numbers) => numbers.truncate(len),
            Held::Decimal { numbers, .. } => numbers.truncate(len),
            Held::Varchar(texts) => texts.truncate(len),
            Held::Date(days) => days.truncate(len),
        }
    }

    /// The cells from one place up to, and without, another.
    #[tactic(auto, using(crate::proofs::BlockLemmas::blocks))]
    pub fn cut(&self, alloc: Global, low: usize, high: usize) -> Result<PlainBlock, Memory>
        requires order { low ≤ high }
        requires within { high ≤ length self.now.cells }
        ensures { IfOk result (λ b.
            b ≡ with_cells self.now (take (high - low) (drop low self.now.cells))) }
    {
        let held = match &self.held {
            Held::Boolean(truths) => Held::Boolean(truths.cut(alloc, low, high)?),
            Held::Bigint(numbers) => Held::Bigint(numbers.cut(alloc, low, high)?),
            Held::Decimal { p, s, numbers } => Held::Decimal {
                p: *p,
                s: *s,
                numbers: numbers.cut(alloc, low, high)?,
            },
            Held::Varchar(texts) => Held::Varchar(texts.cut(alloc, low, high)?),
            Held::Date(days) => Held::Date(days.cut(alloc, low, high)?),
        };
        Ok(PlainBlock { held })
    }

    /// The cells at the places, in the places' order.
    #[tactic(auto, using(crate::proofs::BlockLemmas::blocks))]
    pub fn select(&self, alloc: Global, places: &[u32]) -> Result<PlainBlock, Memory>
        requires { All (λ p. p < length self.now.cells) places.now }
        ensures { IfOk result (λ b.
            b ≡ with_cells self.now (gather self.now.cells value_is.Null places.now)) }
    {
        let held = match &self.held {
            Held::Boolean(truths) => Held::Boolean(truths.select(alloc, places)?),
            Held::Bigint(numbers) => Held::Bigint(numbers.select(alloc, places)?),
            Held::Decimal { p, s, numbers } => Held::Decimal {
                p: *p,
                s: *s,
                numbers: numbers.select(alloc, places)?,
            },
            Held::Varchar(texts) => Held::Varchar(texts.select(alloc, places)?),
            Held::Date(days) => Held::Date(days.select(alloc, places)?),
        };
        Ok(PlainBlock { held })
    }

    /// The first cell, as often as `count`.
    pub(crate) fn repeated(&self, alloc: Global, count: usize) -> Result<PlainBlock, Memory>
        requires { 0 < length self.now.cells }
        ensures { IfOk result (λ b. b ≡ chosen self.now (replicate count 0)) }
    {
        let places = vec![in alloc; 0; count]?;
        self.select(alloc, places.as_slice())
    }

    /// Whether each cell is the first one. (That it answers true wherever they are is no promise.)
    pub(crate) fn is_repeated(&self) -> bool
        ensures { IsTrue result → AreAll (slice_index_or self.now.cells 0 value_is.Null) self.now.cells }
    {
        for place in 0..self.len() {
            if !self.cell(place).same(self.cell(0)) {
                return false;
            }
        }
        true
    }

    pub fn copy(&self, alloc: Global) -> Result<PlainBlock, Memory>
        ensures { IfOk result (λ b. b ≡ self.now) }
    {
        let held = match &self.held {
            Held::Boolean(truths) => Held::Boolean(truths.copy(alloc)?),
            Held::Bigint(numbers) => Held::Bigint(numbers.copy(alloc)?),
            Held::Decimal { p, s, numbers } => Held::Decimal {
                p: *p,
                s: *s,
                numbers: numbers.copy(alloc)?,
            },
            Held::Varchar(texts) => Held::Varchar(texts.copy(alloc)?),
            Held::Date(days) => Held::Date(days.copy(alloc)?),
        };
        Ok(PlainBlock { held })
    }

    /// Appends the cells of another block, or answers false where it has another type.
    #[tactic(auto, using(crate::proofs::BlockLemmas::joins))]
    pub fn append(&mut self, other: &PlainBlock) -> Result<bool, Memory>
        ensures same { IfOk result (λ taken. IsTrue taken ↔ (self.old.kind ≡ other.now.kind)) }
        ensures ok { IfOk result (λ taken. self.new ≡ with_cells self.old
            (if taken then self.old.cells ++ other.now.cells else self.old.cells)) }
        ensures err { OnErr result (self.new ≡ self.old) }
    {
        if !self.kind().same(other.kind()) {
            return Ok(false);
        }
        match (&mut self.held, &other.held) {
            (Held::Boolean(truths), Held::Boolean(others)) => truths.append(others)?,
            (Held::Bigint(numbers), Held::Bigint(others)) => numbers.append(others)?,
            (
                Held::Decimal { numbers, .. },
                Held::Decimal {
                    numbers: others,
                    ..
                },
            ) => numbers.append(others)?,
            (Held::Varchar(texts), Held::Varchar(others)) => texts.append(others)?,
            (Held::Date(days), Held::Date(others)) => days.append(others)?,
            _ => return Ok(false),
        }
        Ok(true)
    }
}
