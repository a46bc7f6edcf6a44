ghost use Rattle.std.specs.Prelude.{◌≡◌, ◌<◌, ◌≤◌, ◌++◌, ◌∷◌, [], ◌^◌, length, map, IfOk, OnOk, OnErr};
ghost use Rattle.group_index.specs.Chains.{IsOnChain, hash_at, hashes_of, head_of, last_of_hash};

use sql_values::{Memory, Row, RowList};
use std::alloc::Global;
use std::marker::Model;

/// A hash, and one more than the place before of its bucket.
#[derive(Clone, Copy)]
struct Link {
    hash: u64,
    before: u32,
}

/// Hashes, each at a place, found by going from the last place of a bucket to the first.
#[derive(Drop)]
pub struct HashChains {
    alloc: Global,
    /// One less than the number of buckets, which is a power of two.
    mask: u64,
    /// For each bucket one more than its last place.
    heads: Vec<u32>,
    links: Vec<Link>,
}

impl Model for HashChains {
    ghost use Rattle.std.specs.Prelude.{List, ℕ};
    ghost use Rattle.group_index.specs.Chains.{AreChains, hashes_of};

    ghost Value = { List ℕ };

    ghost view = { λ c. hashes_of c.links.items };

    ghost invariant = { λ c. AreChains c.mask c.heads.items c.links.items };
}

impl HashChains {
    pub fn new(alloc: Global) -> Result<HashChains, Memory>
        ensures { IfOk result (λ c. c ≡ []) }
    {
        HashChains::with_buckets(alloc, 16)
    }

    fn with_buckets(alloc: Global, count: usize) -> Result<HashChains, Memory>
        requires { 0 < count }
        ensures { IfOk result (λ c. c ≡ []) }
    {
        Ok(HashChains {
            alloc,
            mask: count as u64 - 1,
            heads: Vec::from_elem(alloc, 0, count)?,
            links: Vec::new(alloc),
        })
    }

    pub fn len(&self) -> usize
        ensures count { result ≡ length self.now }
        ensures few { result < 2 ^ 32 }
    {
        self.links.len()
    }

    /// The last place of a hash.
    pub fn last_of(&self, hash: u64) -> Option<usize>
        ensures { result ≡ last_of_hash self.now hash (length self.now) }
    {
        let head = head_of(self.mask, &self.heads, hash);
        go_along(&self.links, hash, head)
    }

    /// The last place of each of some hashes.
    pub fn last_of_each(&self, hashes: &[u64]) -> Result<Vec<Option<usize>>, Memory>
        ensures { IfOk result (λ lasts. lasts.items
            ≡ map (λ hash. last_of_hash self.now hash (length self.now)) hashes.now) }
    {
        let heads = heads_of(self.alloc, self.mask, &self.heads, hashes)?;
        let mut lasts = Vec::with_capacity(self.alloc, hashes.len())?;
        for place in 0..hashes.len() {
            lasts.push(go_along(&self.links, hashes[place], heads[place]))?;
        }
        Ok(lasts)
    }

    /// The last place before this one that has its hash.
    pub fn before(&self, place: usize) -> Option<usize>
        requires { place < length self.now }
        ensures { result ≡ last_of_hash self.now (hash_at self.now place) place }
    {
        let link = self.links[place];
        go_along(&self.links, link.hash, link.before)
    }

    /// Appends a hash, and beside it a key to the keys. Where memory is wanting both are as they were.
    pub fn push(&mut self, hash: u64, keys: &mut RowList, key: Row) -> Result<(), Memory>
        ensures ok { OnOk result (self.new ≡ self.old ++ hash ∷ []) }
        ensures key { OnOk result (keys.new ≡ keys.old ++ key ∷ []) }
        ensures err { OnErr result ((self.new ≡ self.old) × (keys.new ≡ keys.old)) }
    {
        if self.links.len() == self.heads.len() {
            self.grow()?;
        }
        self.link_beside(hash, keys, key)
    }

    /// Appends a hash to the chain of its bucket, and a key to the keys. There are fewer than 2^32 places.
    fn link_beside(&mut self, hash: u64, keys: &mut RowList, key: Row) -> Result<(), Memory>
        ensures ok { OnOk result (self.new ≡ self.old ++ hash ∷ []) }
        ensures key { OnOk result (keys.new ≡ keys.old ++ key ∷ []) }
        ensures err { OnErr result ((self.new ≡ self.old) × (keys.new ≡ keys.old)) }
    {
        if self.links.len() >= 4_294_967_295 {
            return Err(Memory);
        }
        self.links.reserve(1)?;
        keys.push(key)?;
        let bucket = (hash & self.mask) as usize;
        let before = self.heads[bucket];
        self.links.push_reserved(Link { hash, before });
        self.heads[bucket] = self.links.len() as u32;
        Ok(())
    }

    /// Makes twice as many buckets.
    fn grow(&mut self) -> Result<(), Memory>
        ensures { self.new ≡ self.old }
    {
        let count = self.heads.len();
        let mut larger = HashChains::with_buckets(self.alloc, count + count)?;
        for link in &self.links {
            larger.link(link.hash)?;
        }
        *self = larger;
        Ok(())
    }

    /// Appends a hash to the chain of its bucket. There are fewer than 2^32 places.
    fn link(&mut self, hash: u64) -> Result<(), Memory>
        ensures ok { OnOk result (self.new ≡ self.old ++ hash ∷ []) }
        ensures err { OnErr result (self.new ≡ self.old) }
    {
        if self.links.len() >= 4_294_967_295 {
            return Err(Memory);
        }
        let bucket = (hash & self.mask) as usize;
        let before = self.heads[bucket];
        self.links.push(Link { hash, before })?;
        self.heads[bucket] = self.links.len() as u32;
        Ok(())
    }
}

/// The heads of the buckets of hashes. They are read one behind the other, so that none waits for another's chain.
fn heads_of(alloc: Global, mask: u64, heads: &[u32], hashes: &[u64]) -> Result<Vec<u32>, Memory>
    requires { mask < length heads.now }
    ensures { IfOk result (λ found. found.items ≡ map (head_of mask heads.now) hashes.now) }
{
    let mut found = Vec::with_capacity(alloc, hashes.len())?;
    for hash in hashes {
        found.push(head_of(mask, heads, *hash))?;
    }
    Ok(found)
}

/// The head of a hash's bucket.
fn head_of(mask: u64, heads: &[u32], hash: u64) -> u32
    requires { mask < length heads.now }
    ensures { result ≡ head_of mask heads.now hash }
{
    heads[(hash & mask) as usize]
}

/// Goes along a chain to the last place of a hash.
fn go_along(links: &[Link], hash: u64, start: u32) -> Option<usize>
    requires { IsOnChain links.now hash start }
    ensures { result ≡ last_of_hash (hashes_of links.now) hash start }
{
    let mut place = start as usize;
    while place > 0 {
        let link = links[place - 1];
        if link.hash == hash {
            return Some(place - 1);
        }
        place = link.before as usize;
    }
    None
}
