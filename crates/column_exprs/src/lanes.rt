ghost use Rattle.std.specs.Prelude.{◌≡◌, ◌<◌, ◌≤◌, ◌+◌, ◌++◌, ◌∷◌, [], if◌then◌else◌, vec_len, vec_capacity, length, map, take, drop, List, Bool, FitsSigned, OnOk, OnErr, IfOk};
ghost use Rattle.std.specs.Ordering.{int_cmp};
ghost use Rattle.std.specs.Int.{w64};
ghost use Rattle.std.specs.Simd.Lanes.{Each1, chunk, put_chunk};
ghost use Rattle.column_exprs.specs.Comparisons.{holds};
ghost use Rattle.column_exprs.specs.Lanes.{AreMarked, HasLanes, HasNumbers, HasPlace, is_marked, lane, lanes_from, mark, marked, number_at, numbers, truths};

use crate::compare::Compare;
use sql_values::Memory;
use std::alloc::{AllocError, Global};
use std::simd::prelude::*;

/// How many numbers are compared at a time.
const LANES: usize = 8;

/// What the numbers of a column are compared with: those of another one, or a single one at each place.
#[derive(Clone, Copy)]
pub enum Numbers<'a> {
    Column(&'a [i64]),
    Single(i64),
}

impl Numbers<'_> {
    /// The eight numbers from a place on.
    fn lanes(self, at: usize) -> i64x8
        requires { HasLanes self at }
        ensures lanes { result ≡ lanes_from self.entry at }
        ensures fits { Each1 (FitsSigned w64) result }
    {
        match self {
            Numbers::Column(items) => lanes_at(items, at),
            Numbers::Single(number) => i64x8::splat(number),
        }
    }

    /// The number at a place.
    fn number(self, place: usize) -> i64
        requires { HasPlace self place }
        ensures { result ≡ number_at self.entry place }
    {
        match self {
            Numbers::Column(items) => items[place],
            Numbers::Single(number) => number,
        }
    }
}

/// The eight numbers from a place on.
fn lanes_at(items: &[i64], at: usize) -> i64x8
    requires { at + 8 ≤ length items.now }
    ensures lanes { result ≡ chunk at 8 items.now }
    ensures fits { Each1 (FitsSigned w64) result }
{
    i64x8::from_array([
        items[at],
        items[at + 1],
        items[at + 2],
        items[at + 3],
        items[at + 4],
        items[at + 5],
        items[at + 6],
        items[at + 7],
    ])
}

/// For each two lanes whether the comparison holds, as all bits of a lane.
fn held(op: Compare, a: i64x8, b: i64x8) -> mask64x8
    requires left { Each1 (FitsSigned w64) a }
    requires right { Each1 (FitsSigned w64) b }
    ensures { result ≡ map lane (truths op a b) }
{
    match op {
        Compare::Equal => a.simd_eq(b),
        Compare::Unequal => a.simd_ne(b),
        Compare::Less => a.simd_lt(b),
        Compare::LessEqual => a.simd_le(b),
        Compare::Greater => a.simd_gt(b),
        Compare::GreaterEqual => a.simd_ge(b),
    }
}

/// 1 for each lane that is set, and else 0.
fn marks(held: mask64x8) -> u8x8
    requires { length held ≡ 8 }
    ensures { (ts : List Bool) → held ≡ map lane ts → result ≡ map mark ts }
{
    held.select(i64x8::splat(1), i64x8::splat(0)).cast::<u8>()
}

/// Whether a mark is set.
pub fn is_marked(mark: u8) -> bool
    ensures { result ≡ is_marked mark }
{
    mark == 1
}

/// Appends the places whose mark is set, in order.
pub fn places_of(mask: &[u8], positions: &[u32], out: &mut Vec<u32>) -> Result<(), Memory>
    requires { length mask.now ≡ length positions.now }
    ensures ok { OnOk result (out.new.items ≡ out.old.items ++ marked mask.now positions.now) }
    ensures err { OnErr result (out.new.items ≡ out.old.items) }
{
    out.reserve(positions.len())?;
    for place in 0..positions.len() {
        push_marked(mask[place], positions[place], out);
    }
    Ok(())
}

/// Appends a place if its mark is set.
fn push_marked(mark: u8, position: u32, out: &mut Vec<u32>)
    requires { vec_len out.old < vec_capacity out.old }
    ensures items { out.new.items ≡ out.old.items ++ (if is_marked mark then position ∷ [] else []) }
    ensures len { vec_len out.new ≤ vec_len out.old + 1 }
    ensures capacity { vec_capacity out.new ≡ vec_capacity out.old }
{
    if is_marked(mark) {
        out.push_reserved(position);
    }
}

/// Writes 1 at each place where the comparison of two numbers holds, and else 0.
pub fn compare_lanes(op: Compare, a: &[i64], b: &[i64], out: &mut [u8])
    requires right { length b.now ≡ length a.now }
    requires room { length out.old ≡ length a.now }
    ensures { out.new ≡ map mark (truths op a.now b.now) }
{
    compare_numbers(op, a, Numbers::Column(b), out);
}

/// The same, where the second numbers may be a single one.
fn compare_numbers(op: Compare, a: &[i64], b: Numbers<'_>, out: &mut [u8])
    requires right { HasNumbers b (length a.now) }
    requires room { length out.old ≡ length a.now }
    ensures { out.new ≡ map mark (truths op a.now (numbers b.entry (length a.now))) }
{
    let whole = a.len() / LANES;
    for eight in 0..whole {
        compare_eight(op, a, b, LANES * eight, out);
    }
    compare_rest(op, a, b, LANES * whole, out);
}

/// Writes the marks of the eight places from one on.
fn compare_eight(op: Compare, a: &[i64], b: Numbers<'_>, at: usize, out: &mut [u8])
    requires left { at + 8 ≤ length a.now }
    requires right { HasNumbers b (length a.now) }
    requires before { AreMarked op a.now (numbers b (length a.now)) at out.old }
    ensures { AreMarked op a.now (numbers b.entry (length a.now)) (at + 8) out.new }
{
    let held = held(op, lanes_at(a, at), b.lanes(at));
    marks(held).copy_to_slice(&mut out[at..]);
}

/// Writes the marks of the places from one on, one at a time.
fn compare_rest(op: Compare, a: &[i64], b: Numbers<'_>, from: usize, out: &mut [u8])
    requires left { from ≤ length a.now }
    requires right { HasNumbers b (length a.now) }
    requires before { AreMarked op a.now (numbers b (length a.now)) from out.old }
    ensures { out.new ≡ map mark (truths op a.now (numbers b.entry (length a.now))) }
{
    for place in from..a.len() {
        out[place] = mark_at(op, a[place], b.number(place));
    }
}

/// The mark of a comparison of two numbers.
fn mark_at(op: Compare, a: i64, b: i64) -> u8
    ensures { result ≡ mark (holds op (int_cmp a b)) }
{
    u8::from(op.holds(a.cmp(&b)))
}

/// For each mark whether it is set.
fn truths_of_marks(alloc: Global, marks: &[u8]) -> Result<Vec<bool>, AllocError>
    ensures { IfOk result (λ v. v.items ≡ map is_marked marks.now) }
{
    let mut truths = Vec::with_capacity(alloc, marks.len())?;
    for mark in marks {
        truths.push_reserved(is_marked(*mark));
    }
    Ok(truths)
}

/// For each number whether its comparison holds.
pub fn number_truths(
    alloc: Global,
    op: Compare,
    a: &[i64],
    b: Numbers<'_>,
) -> Result<Vec<bool>, AllocError>
    requires { HasNumbers b (length a.now) }
    ensures { IfOk result (λ v. v.items ≡ truths op a.now (numbers b.entry (length a.now))) }
{
    let marks = number_marks(alloc, op, a, b)?;
    truths_of_marks(alloc, marks.as_slice())
}

/// For each number 1 if its comparison holds, and else 0.
fn number_marks(
    alloc: Global,
    op: Compare,
    a: &[i64],
    b: Numbers<'_>,
) -> Result<Vec<u8>, AllocError>
    requires { HasNumbers b (length a.now) }
    ensures { IfOk result (λ v. v.items ≡ map mark (truths op a.now (numbers b.entry (length a.now)))) }
{
    let mut marks = vec![in alloc; 0u8; a.len()]?;
    compare_numbers(op, a, b, marks.as_mut_slice());
    Ok(marks)
}
