ghost use Rattle.std.specs.List.{range_with_len};
ghost use Rattle.std.specs.Prelude.{◌≡◌, ◌-◌, ◌<◌, ◌≤◌, ◌↔◌, ◌++◌, [], if◌then◌else◌, length, map, take, drop, replicate, slice_index_or, IsTrue, IfOk, IfSome, OnErr, All};
ghost use Rattle.columns.specs.Present.{gather};
ghost use Rattle.sql_values.specs.declared.types.SqlType.TheVariants as kind_is;
ghost use Rattle.sql_values.specs.declared.value.Value.TheVariants as value_is;
ghost use Rattle.sql_values.specs.Cells.{lent_value};
ghost use Rattle.sql_values.specs.Blocks.{fits, offered, or_null, with_cells, chosen, AreAll};
ghost use Rattle.sql_values.specs.Buckets.{GoOnBy};
ghost use Rattle.sql_values.specs.Types.{has_type};

use crate::dictionary::Dictionary;
use crate::hash::bucket_hash;
use crate::memory::Memory;
use crate::plain_block::PlainBlock;
use crate::types::SqlType;
use crate::value::{Value, ValueRef};
use columns::{Nullable, items_at};
use std::alloc::Global;
use std::marker::Model;

/// How a block keeps its cells.
#[derive(Clone, Copy, PartialEq, Eq)]
pub enum Form {
    /// Each in a vector of its own type.
    Plain,
    /// One cell, and how often it stands.
    Run,
    /// Cells that other blocks may share, and which of them stand.
    Dictionary,
}

/// One column of cells of a type, any of which may be NULL. Contracts see its type and its cells,
/// whatever its form.
#[derive(Drop)]
pub struct Block {
    stored: Stored,
}

#[derive(Drop)]
enum Stored {
    Plain(PlainBlock),
    Run { one: PlainBlock, count: usize },
    Dictionary { entries: Dictionary, ids: Vec<u32> },
}

impl Model for Block {
    ghost use Rattle.sql_values.specs.Blocks.{TypedCells};

    ghost Value = { TypedCells };

    ghost use Rattle.sql_values.specs.Shared.{shown, IsWithin};

    ghost view = { λ b. shown b.stored };

    ghost invariant = { λ b. IsWithin b.stored };
}

impl Block {
    /// No cells, of a type.
    pub fn new(alloc: Global, kind: SqlType) -> Block
        ensures { result ≡ record { kind = kind; cells = [] } }
    {
        Block::of_plain(PlainBlock::new(alloc, kind))
    }

    /// The same cells, without taking memory.
    pub fn of_plain(block: PlainBlock) -> Block
        ensures { result ≡ block }
    {
        Block {
            stored: Stored::Plain(block),
        }
    }

    /// The block of these values.
    pub fn of_values(alloc: Global, kind: SqlType, values: &[Value]) -> Result<Block, Memory>
        requires { All (λ v. IsTrue (fits kind v)) values.now }
        ensures { IfOk result (λ b. b ≡ record { kind = kind; cells = values.now }) }
    {
        Ok(Block::of_plain(PlainBlock::of_values(alloc, kind, values)?))
    }

    /// The block of these truths.
    pub fn of_booleans(truths: Nullable<bool>) -> Block
        ensures { result ≡ record { kind = kind_is.Boolean; cells = map (or_null value_is.Boolean) truths } }
    {
        Block::of_plain(PlainBlock::of_booleans(truths))
    }

    /// The block of these numbers.
    pub fn of_bigints(numbers: Nullable<i64>) -> Block
        ensures { result ≡ record { kind = kind_is.Bigint; cells = map (or_null value_is.Bigint) numbers } }
    {
        Block::of_plain(PlainBlock::of_bigints(numbers))
    }

    /// The block of these numbers without their points, of a type of p digits and s places.
    pub fn of_decimals(p: u8, s: u8, numbers: Nullable<i128>) -> Block
        ensures { result ≡ record { kind = kind_is.Decimal p s; cells = map (or_null value_is.Decimal) numbers } }
    {
        Block::of_plain(PlainBlock::of_decimals(p, s, numbers))
    }

    /// The block of these days.
    pub fn of_dates(days: Nullable<i32>) -> Block
        ensures { result ≡ record { kind = kind_is.Date; cells = map (or_null value_is.Date) days } }
    {
        Block::of_plain(PlainBlock::of_dates(days))
    }

    /// A value as often as `count`, kept once.
    pub fn repeat(alloc: Global, kind: SqlType, value: &Value, count: u32) -> Result<Block, Memory>
        requires { IsTrue (fits kind value.now) }
        ensures { IfOk result (λ b. b ≡ record { kind = kind; cells = replicate count value.now }) }
    {
        let mut one = PlainBlock::new(alloc, kind);
        one.push(value.as_ref())?;
        let count = count as usize;
        Ok(Block {
            stored: Stored::Run { one, count },
        })
    }

    /// The entry of each id, in the ids' order, without taking memory.
    pub fn of_dictionary(entries: Dictionary, ids: Vec<u32>) -> Block
        requires { All (λ p. p < length entries.cells) ids.items }
        ensures { result ≡ chosen entries ids.items }
    {
        Block {
            stored: Stored::Dictionary { entries, ids },
        }
    }

    /// How the cells are kept. No clause speaks of it, since it changes no cell.
    pub fn form(&self) -> Form {
        match &self.stored {
            Stored::Plain(_) => Form::Plain,
            Stored::Run { .. } => Form::Run,
            Stored::Dictionary { .. } => Form::Dictionary,
        }
    }

    /// The cells in their vector, where the block is plain.
    pub fn plain(&self) -> Option<&PlainBlock>
        ensures { IfSome result (λ b. b.now ≡ self.now) }
    {
        match &self.stored {
            Stored::Plain(block) => Some(block),
            _ => None,
        }
    }

    /// The law that each cell has the variant of the block's type, or is NULL.
    pub fn cells_fit(&self)
        ensures { All (λ v. IsTrue (fits self.now.kind v)) self.now.cells }
    {
        match &self.stored {
            Stored::Plain(block) => block.cells_fit(),
            Stored::Run { one, .. } => one.cells_fit(),
            Stored::Dictionary { entries, .. } => entries.entries().cells_fit(),
        }
    }

    /// The cells that are kept, of which a block shows some.
    fn entries(&self) -> &PlainBlock
        ensures { result.now.kind ≡ self.now.kind }
    {
        match &self.stored {
            Stored::Plain(block) => block,
            Stored::Run { one, .. } => one,
            Stored::Dictionary { entries, .. } => entries.entries(),
        }
    }

    pub fn kind(&self) -> SqlType
        ensures { result ≡ self.now.kind }
    {
        self.entries().kind()
    }

    /// Where the cells lie.
    fn allocator(&self) -> Global {
        self.entries().allocator()
    }

    /// How many cells there are.
    #[tactic(auto, using(crate::proofs::SharedLemmas::chosens))]
    pub fn len(&self) -> usize
        ensures { result ≡ length self.now.cells }
    {
        match &self.stored {
            Stored::Plain(block) => block.len(),
            Stored::Run { count, .. } => *count,
            Stored::Dictionary { ids, .. } => ids.len(),
        }
    }

    pub fn is_empty(&self) -> bool
        ensures { IsTrue result ↔ (self.now.cells ≡ []) }
    {
        self.len() == 0
    }

    /// The cell at a place.
    pub fn cell(&self, place: usize) -> ValueRef<'_>
        requires { place < length self.now.cells }
        ensures { lent_value result ≡ slice_index_or self.now.cells place value_is.Null }
    {
        match &self.stored {
            Stored::Plain(block) => block.cell(place),
            Stored::Run { one, .. } => one.cell(0),
            Stored::Dictionary { entries, ids } => entries.entries().cell(ids[place] as usize),
        }
    }

    /// Goes on in each bucket hash by the cell at its place.
    pub fn hash_cells(&self, hashes: &mut [u64])
        requires { length hashes.old ≤ length self.now.cells }
        ensures { GoOnBy (λ k. slice_index_or self.now.cells k value_is.Null) hashes.old hashes.new }
    {
        match &self.stored {
            Stored::Plain(block) => block.hash_cells(hashes),
            _ => self.hash_each(hashes),
        }
    }

    fn hash_each(&self, hashes: &mut [u64])
        requires { length hashes.old ≤ length self.now.cells }
        ensures { GoOnBy (λ k. slice_index_or self.now.cells k value_is.Null) hashes.old hashes.new }
    {
        for place in 0..hashes.len() {
            hashes[place] = bucket_hash(hashes[place], self.cell(place));
        }
    }

    /// The same cells, each in the vector of its type.
    pub fn to_plain(&self, alloc: Global) -> Result<PlainBlock, Memory>
        ensures { IfOk result (λ b. b ≡ self.now) }
    {
        match &self.stored {
            Stored::Plain(block) => block.copy(alloc),
            Stored::Run { one, count } => one.repeated(alloc, *count),
            Stored::Dictionary { entries, ids } => entries.entries().select(alloc, ids.as_slice()),
        }
    }

    /// Appends a value of the block's type, or answers false where it has another variant. The block
    /// is plain then.
    pub fn push(&mut self, value: ValueRef<'_>) -> Result<bool, Memory>
        ensures taken { IfOk result (λ taken. taken ≡ fits self.old.kind (lent_value value.entry)) }
        ensures ok { IfOk result (λ taken. self.new ≡ with_cells self.old
            (offered taken self.old.cells (lent_value value.entry))) }
        ensures err { OnErr result (self.new ≡ self.old) }
    {
        if let Stored::Plain(block) = &mut self.stored {
            return block.push(value);
        }
        let mut plain = self.to_plain(self.allocator())?;
        let taken = plain.push(value)?;
        self.stored = Stored::Plain(plain);
        Ok(taken)
    }

    /// Keeps the first cells, at most as many as `len`.
    #[tactic(auto, using(crate::proofs::SharedLemmas::chosens))]
    pub fn truncate(&mut self, len: usize)
        ensures { self.new ≡ with_cells self.old (take len self.old.cells) }
    {
        match &mut self.stored {
            Stored::Plain(block) => block.truncate(len),
            Stored::Run { count, .. } => {
                if len < *count {
                    *count = len;
                }
            }
            Stored::Dictionary { ids, .. } => ids.truncate(len),
        }
    }

    /// The cells from one place up to, and without, another, in the block's form.
    #[tactic(auto, using(crate::proofs::SharedLemmas::chosens))]
    pub fn cut(&self, alloc: Global, low: usize, high: usize) -> Result<Block, Memory>
        requires order { low ≤ high }
        requires within { high ≤ length self.now.cells }
        ensures { IfOk result (λ b.
            b ≡ with_cells self.now (take (high - low) (drop low self.now.cells))) }
    {
        let stored = match &self.stored {
            Stored::Plain(block) => Stored::Plain(block.cut(alloc, low, high)?),
            Stored::Run { one, .. } => Stored::Run {
                one: one.copy(alloc)?,
                count: high - low,
            },
            Stored::Dictionary { entries, ids } => Stored::Dictionary {
                entries: entries.share()?,
                ids: Vec::from_slice(alloc, &ids[low..high])?,
            },
        };
        Ok(Block { stored })
    }

    /// The cells at the places, in the places' order, in the block's form.
    #[tactic(auto, using(crate::proofs::SharedLemmas::chosens))]
    pub fn select(&self, alloc: Global, places: &[u32]) -> Result<Block, Memory>
        requires { All (λ p. p < length self.now.cells) places.now }
        ensures { IfOk result (λ b.
            b ≡ with_cells self.now (gather self.now.cells value_is.Null places.now)) }
    {
        let stored = match &self.stored {
            Stored::Plain(block) => Stored::Plain(block.select(alloc, places)?),
            Stored::Run { one, .. } => Stored::Run {
                one: one.copy(alloc)?,
                count: places.len(),
            },
            Stored::Dictionary { entries, ids } => Stored::Dictionary {
                entries: entries.share()?,
                ids: items_at(alloc, ids.as_slice(), places)?,
            },
        };
        Ok(Block { stored })
    }

    pub fn copy(&self, alloc: Global) -> Result<Block, Memory>
        ensures { IfOk result (λ b. b ≡ self.now) }
    {
        match &self.stored {
            Stored::Plain(block) => Ok(Block::of_plain(block.copy(alloc)?)),
            _ => self.cut(alloc, 0, self.len()),
        }
    }

    /// Appends the cells of another block, or answers false where it has another type. The block is
    /// plain then.
    pub fn append(&mut self, other: &Block) -> Result<bool, Memory>
        ensures same { IfOk result (λ taken. IsTrue taken ↔ (self.old.kind ≡ other.now.kind)) }
        ensures ok { IfOk result (λ taken. self.new ≡ with_cells self.old
            (if taken then self.old.cells ++ other.now.cells else self.old.cells)) }
        ensures err { OnErr result (self.new ≡ self.old) }
    {
        match &other.stored {
            Stored::Plain(block) => self.append_plain(block),
            _ => self.append_plain(&other.to_plain(other.allocator())?),
        }
    }

    fn append_plain(&mut self, other: &PlainBlock) -> Result<bool, Memory>
        ensures same { IfOk result (λ taken. IsTrue taken ↔ (self.old.kind ≡ other.now.kind)) }
        ensures ok { IfOk result (λ taken. self.new ≡ with_cells self.old
            (if taken then self.old.cells ++ other.now.cells else self.old.cells)) }
        ensures err { OnErr result (self.new ≡ self.old) }
    {
        if let Stored::Plain(block) = &mut self.stored {
            return block.append(other);
        }
        let mut plain = self.to_plain(self.allocator())?;
        let taken = plain.append(other)?;
        self.stored = Stored::Plain(plain);
        Ok(taken)
    }

    /// The same cells, as a run where the block is plain and each cell is the first one; without
    /// taking memory.
    pub fn into_run(self) -> Block
        ensures { result ≡ self }
    {
        match self.stored {
            Stored::Plain(block) => run_where_repeated(block),
            stored => Block { stored },
        }
    }

    /// The same cells, as a dictionary where the block is plain: its vector is shared from then on.
    pub fn into_dictionary(self, alloc: Global) -> Result<Block, Memory>
        ensures { IfOk result (λ b. b ≡ self) }
    {
        match self.stored {
            Stored::Plain(block) => shared(alloc, block),
            stored => Ok(Block { stored }),
        }
    }
}

fn run_where_repeated(block: PlainBlock) -> Block
    ensures { result ≡ block }
{
    if block.is_repeated() {
        return run_of(block);
    }
    Block::of_plain(block)
}

/// The run of cells that are all the same.
fn run_of(mut block: PlainBlock) -> Block
    requires { AreAll (slice_index_or block.cells 0 value_is.Null) block.cells }
    ensures { result ≡ block }
{
    let count = block.len();
    if count == 0 {
        return Block::of_plain(block);
    }
    block.truncate(1);
    Block {
        stored: Stored::Run { one: block, count },
    }
}

/// The dictionary of all cells, each once and in order.
fn shared(alloc: Global, block: PlainBlock) -> Result<Block, Memory>
    ensures { IfOk result (λ b. b ≡ block) }
{
    let Ok(count) = u32::try_from(block.len()) else {
        return Ok(Block::of_plain(block));
    };
    let ids = first_places(alloc, count)?;
    Ok(Block::of_dictionary(Dictionary::of(alloc, block)?, ids))
}

/// The places from 0 up to, and without, `count`.
fn first_places(alloc: Global, count: u32) -> Result<Vec<u32>, Memory>
    ensures { IfOk result (λ v. v.items ≡ range_with_len 0 count) }
{
    let mut places = Vec::with_capacity(alloc, count as usize)?;
    for place in 0..count {
        places.push(place)?;
    }
    Ok(places)
}

/// The law that a value of a type may stand in a block of that type.
#[tactic(auto, using(crate::proofs::BlockLemmas::typed_fits))]
pub fn typed_values_fit_blocks(kind: SqlType, value: ValueRef<'_>)
    requires { IsTrue (has_type kind (lent_value value)) }
    ensures { IsTrue (fits kind (lent_value value.entry)) }
{}
