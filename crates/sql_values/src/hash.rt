ghost use Rattle.std.specs.Prelude.{◌≡◌, ◌≤◌, ◌++◌, None, length, flat_map, slice_index_or};
ghost use Rattle.std.specs.Int.{w32, w64, w128, to_le_bytes};
ghost use Rattle.sql_values.specs.declared.value.Value.TheVariants as value_is;
ghost use Rattle.sql_values.specs.Blocks.{or_null};
ghost use Rattle.sql_values.specs.Buckets.{GoOnBy, bucket_of, bytes_of, hash_after, hash_byte, number_bytes};
ghost use Rattle.sql_values.specs.Cells.{lent_value};

use crate::value::{Value, ValueRef};
use columns::Nullable;

/// The bucket hash of no value, which `bucket_hash` goes on from.
pub const EMPTY_HASH: u64 = 14_695_981_039_346_656_037;

const PRIME: u64 = 1_099_511_628_211;

/// The bucket of some values among `n`. Equal values of one type have one bucket.
pub fn bucket(values: &[Value], n: u32) -> u32
    requires { 1 ≤ n }
    ensures { result ≡ bucket_of values.now n }
{
    (hash_values(values) % u64::from(n)) as u32
}

#[tactic(auto, using(crate::proofs::HashLemmas::hashing))]
fn hash_values(values: &[Value]) -> u64
    ensures { result ≡ hash_after EMPTY_HASH (flat_map bytes_of values.now) }
{
    let mut hash = EMPTY_HASH;
    for value in values {
        hash = bucket_hash(hash, value.as_ref());
    }
    hash
}

/// The bucket hash after one more value. The hash of some values, modulo `n`, is their bucket among `n`.
#[tactic(auto, using(crate::proofs::HashLemmas::hashing))]
pub(crate) fn bucket_hash(hash: u64, value: ValueRef<'_>) -> u64
    ensures { result ≡ hash_after hash (bytes_of (lent_value value.entry)) }
{
    match value {
        ValueRef::Null => hash_byte(hash, 0),
        ValueRef::Boolean(truth) => hash_byte(hash_byte(hash, 1), u8::from(truth)),
        ValueRef::Bigint(n) => hash_bytes(hash_byte(hash, 1), &bigint_bytes(n)),
        ValueRef::Decimal(unscaled) => hash_bytes(hash_byte(hash, 1), &decimal_bytes(unscaled)),
        ValueRef::Varchar(text) => hash_text(hash_byte(hash, 1), text.as_bytes()),
        ValueRef::Date(day) => hash_bytes(hash_byte(hash, 1), &date_bytes(day)),
    }
}

/// Goes on in each hash by the number at its place.
pub(crate) fn hash_bigints(numbers: &Nullable<i64>, hashes: &mut [u64])
    requires { length hashes.old ≤ length numbers.now }
    ensures { GoOnBy (λ k. or_null value_is.Bigint (slice_index_or numbers.now k None)) hashes.old hashes.new }
{
    for place in 0..hashes.len() {
        hashes[place] = bigint_hash(hashes[place], numbers.get(place));
    }
}

#[tactic(auto, using(crate::proofs::HashLemmas::hashing))]
fn bigint_hash(hash: u64, number: Option<i64>) -> u64
    ensures { result ≡ hash_after hash (bytes_of (or_null value_is.Bigint number)) }
{
    match number {
        Some(n) => hash_bytes(hash_byte(hash, 1), &bigint_bytes(n)),
        None => hash_byte(hash, 0),
    }
}

/// Goes on in each hash by NULL.
pub(crate) fn hash_nulls(hashes: &mut [u64])
    ensures { GoOnBy (λ _. value_is.Null) hashes.old hashes.new }
{
    for place in 0..hashes.len() {
        hashes[place] = bucket_hash(hashes[place], ValueRef::Null);
    }
}

#[tactic(auto, unfolding(crate::specs::Buckets::number_bytes))]
fn bigint_bytes(n: i64) -> [u8; 8]
    ensures { result ≡ number_bytes w64 n }
{
    n.cast_unsigned().to_le_bytes()
}

#[tactic(auto, unfolding(crate::specs::Buckets::number_bytes))]
fn decimal_bytes(unscaled: i128) -> [u8; 16]
    ensures { result ≡ number_bytes w128 unscaled }
{
    unscaled.cast_unsigned().to_le_bytes()
}

#[tactic(auto, unfolding(crate::specs::Buckets::number_bytes))]
fn date_bytes(day: i32) -> [u8; 4]
    ensures { result ≡ number_bytes w32 day }
{
    day.cast_unsigned().to_le_bytes()
}

#[tactic(auto, using(crate::proofs::HashLemmas::hashing))]
fn hash_text(hash: u64, text: &[u8]) -> u64
    ensures { result ≡ hash_after hash (to_le_bytes w64 (length text.now) ++ text.now) }
{
    hash_bytes(hash_bytes(hash, &(text.len() as u64).to_le_bytes()), text)
}

#[tactic(auto, using(crate::proofs::HashLemmas::hashing))]
fn hash_bytes(start: u64, bytes: &[u8]) -> u64
    ensures { result ≡ hash_after start bytes.now }
{
    let mut hash = start;
    for byte in bytes {
        hash = hash_byte(hash, *byte);
    }
    hash
}

fn hash_byte(hash: u64, byte: u8) -> u64
    ensures { result ≡ hash_byte hash byte }
{
    (hash ^ u64::from(byte)).wrapping_mul(PRIME)
}
