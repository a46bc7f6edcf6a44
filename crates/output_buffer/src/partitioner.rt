ghost use Rattle.std.specs.Prelude.{◌≡◌, ◌%◌, ◌<◌, ◌≤◌, [], All, IfOk, OnOk, count_by, length, map, ◌==◌};
ghost use Rattle.std.specs.List.{range_with_len};
ghost use Rattle.col_pages.specs.Pages.{most_rows};
ghost use Rattle.bag_laws.specs.Buckets.{key_bucket};
ghost use Rattle.bag_laws.specs.Weights.{SameWeights};
ghost use Rattle.output_buffer.specs.Partitions.{all_rows, hash_of, parts_of, places_of, rows_at};

use col_pages::Page;
use sql_values::{EMPTY_HASH, Memory};
use std::alloc::Global;
use std::marker::Model;

/// Spreads rows over parts by their values in some columns.
#[derive(Drop)]
pub struct Partitioner {
    columns: Vec<u32>,
    parts: u32,
}

impl Model for Partitioner {
    ghost use Rattle.output_buffer.specs.Partitions.{Partition};

    ghost Value = { Partition };

    ghost use Rattle.std.specs.Prelude.{◌≤◌};

    ghost view = { λ p. record { columns = p.columns.items; parts = p.parts } };

    ghost invariant = { λ p. 1 ≤ p.parts };
}

impl Partitioner {
    pub fn new(columns: Vec<u32>, parts: u32) -> Partitioner
        requires { 1 ≤ parts }
        ensures { result ≡ record { columns = columns.items; parts = parts } }
    {
        Partitioner { columns, parts }
    }

    /// A page for each part, with the rows whose bucket it is, in their order. A row's bucket is that of
    /// its values in the columns, in the columns' order; a column that it does not have counts as NULL.
    pub fn split(&self, alloc: Global, page: &Page) -> Result<Vec<Page>, Memory>
        ensures pages { IfOk result (λ v. v.items ≡ parts_of self.now page.now) }
        ensures together { IfOk result (λ v. SameWeights (all_rows v.items) page.now.rows) }
    {
        let buckets = self.buckets(alloc, page)?;
        let places = places_by_bucket(alloc, &buckets, self.parts)?;
        select_each(alloc, page, &places)
    }

    fn buckets(&self, alloc: Global, page: &Page) -> Result<Vec<u32>, Memory>
        ensures few { length page.now.rows ≤ most_rows }
        ensures buckets { IfOk result (λ v.
            v.items ≡ map (key_bucket self.now.parts self.now.columns) page.now.rows) }
    {
        let hashes = hash_rows(alloc, page, &self.columns)?;
        buckets_of(alloc, &hashes, self.parts)
    }
}

/// The hash of each row's values in the columns.
fn hash_rows(alloc: Global, page: &Page, columns: &[u32]) -> Result<Vec<u64>, Memory>
    ensures few { length page.now.rows ≤ most_rows }
    ensures hashes { IfOk result (λ v. v.items ≡ map (hash_of columns.now) page.now.rows) }
{
    let mut hashes = Vec::from_elem(alloc, EMPTY_HASH, page.len() as usize)?;
    for column in columns {
        page.hash_column(*column, &mut hashes);
    }
    Ok(hashes)
}

fn buckets_of(alloc: Global, hashes: &[u64], parts: u32) -> Result<Vec<u32>, Memory>
    requires { 1 ≤ parts }
    ensures { IfOk result (λ v. v.items ≡ map (λ hash. hash % parts) hashes.now) }
{
    let buckets = hashes
        .iter()
        .map(|hash| (*hash % u64::from(parts)) as u32)
        .collect(alloc)?;
    Ok(buckets)
}

/// For each part the places of the rows whose bucket it is, in their order.
fn places_by_bucket(alloc: Global, buckets: &[u32], parts: u32) -> Result<Vec<Vec<u32>>, Memory>
    requires below { All (λ bucket. bucket < parts) buckets.now }
    requires few { length buckets.now ≤ most_rows }
    ensures { IfOk result (λ v.
        map (λ p. p.items) v.items ≡ map (places_of buckets.now) (range_with_len 0 parts)) }
{
    let counts = bucket_counts(alloc, buckets, parts)?;
    let mut places = room_for_places(alloc, &counts)?;
    put_places(buckets, &mut places)?;
    Ok(places)
}

/// How many rows each part has.
fn bucket_counts(alloc: Global, buckets: &[u32], parts: u32) -> Result<Vec<usize>, Memory>
    requires { All (λ bucket. bucket < parts) buckets.now }
    ensures { IfOk result (λ v.
        v.items ≡ map (λ k. count_by (λ bucket. bucket == k) buckets.now) (range_with_len 0 parts)) }
{
    let mut counts = Vec::from_elem(alloc, 0usize, parts as usize)?;
    for bucket in buckets {
        counts[*bucket as usize] += 1;
    }
    Ok(counts)
}

/// An empty list for each part, with room for so many places.
fn room_for_places(alloc: Global, counts: &[usize]) -> Result<Vec<Vec<u32>>, Memory>
    ensures len { IfOk result (λ v. length v.items ≡ length counts.now) }
    ensures empty { IfOk result (λ v. All (λ p. p.items ≡ []) v.items) }
{
    let mut places = Vec::with_capacity(alloc, counts.len())?;
    for count in counts {
        places.push(Vec::with_capacity(alloc, *count)?)?;
    }
    Ok(places)
}

fn put_places(buckets: &[u32], places: &mut Vec<Vec<u32>>) -> Result<(), Memory>
    requires below { All (λ bucket. bucket < length places.old.items) buckets.now }
    requires few { length buckets.now ≤ most_rows }
    requires empty { All (λ p. p.items ≡ []) places.old.items }
    ensures { OnOk result (map (λ p. p.items) places.new.items
        ≡ map (places_of buckets.now) (range_with_len 0 (length places.old.items))) }
{
    for (place, bucket) in buckets.iter().enumerate() {
        places[*bucket as usize].push(place as u32)?;
    }
    Ok(())
}

/// A page for each list of places, with the rows there.
fn select_each(alloc: Global, page: &Page, places: &[Vec<u32>]) -> Result<Vec<Page>, Memory>
    requires within { All (λ p. All (λ place. place < length page.now.rows) p.items) places.now }
    requires few { All (λ p. length p.items ≤ most_rows) places.now }
    ensures { IfOk result (λ v. v.items
        ≡ map (λ p. record page.now { rows = rows_at page.now.rows p.items }) places.now) }
{
    let mut pages = Vec::with_capacity(alloc, places.len())?;
    for part in places {
        pages.push(page.select(alloc, part)?)?;
    }
    Ok(pages)
}
