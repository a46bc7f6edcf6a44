ghost use Rattle.std.specs.Prelude.{◌≡◌, ◌+◌, [], ◌∷◌, length, reverse, chars, false, ◌||◌, ◌&&◌, IfOk};
ghost use Rattle.sql_values.specs.Cells.{lent_value};
ghost use Rattle.sql_functions.specs.Like.{is_like, like_of, takes};
ghost use Rattle.sql_functions.specs.LikeRows.{ends_from, moved, next_row, set_from};

use sql_values::{Memory, Value, ValueRef};
use std::alloc::{AllocError, Global};

fn either(a: bool, b: bool) -> bool
    ensures { result ≡ (a || b) }
{
    a || b
}

/// Whether the pattern's code point takes the text's, and the place is set.
fn takes(p: char, c: char, set: bool) -> bool
    ensures { result ≡ (takes p c && set) }
{
    (p == '_' || p == c) && set
}

/// Each place says whether it or one before it was set.
fn set_from(alloc: Global, row: &[bool]) -> Result<Vec<bool>, Memory>
    ensures { IfOk result (λ r. r.items ≡ set_from false row.now) }
{
    let mut next = Vec::with_capacity(alloc, row.len())?;
    let mut seen = false;
    for set in row {
        seen = either(seen, *set);
        next.push(seen)?;
    }
    Ok(next)
}

/// Each place but the first says whether its code point is taken and the place before was set.
fn moved(alloc: Global, p: char, text: &[char], row: &[bool]) -> Result<Vec<bool>, Memory>
    requires { length row.now ≡ length text.now + 1 }
    ensures { IfOk result (λ r. r.items ≡ false ∷ moved p text.now row.now) }
{
    let mut next = Vec::with_capacity(alloc, row.len())?;
    next.push(false)?;
    for (at, c) in text.iter().enumerate() {
        next.push(takes(p, *c, row[at]))?;
    }
    Ok(next)
}

/// The row of a pattern that begins with one more code point.
fn next_row(alloc: Global, p: char, text: &[char], row: &[bool]) -> Result<Vec<bool>, Memory>
    requires { length row.now ≡ length text.now + 1 }
    ensures { IfOk result (λ r. r.items ≡ next_row p text.now row.now) }
{
    if p == '%' {
        return set_from(alloc, row);
    }
    moved(alloc, p, text, row)
}

/// The row of the empty pattern, which matches the empty end alone.
#[tactic(auto, using(crate::proofs::LikeLemmas::first_row_is))]
fn first_row(alloc: Global, text: &[char]) -> Result<Vec<bool>, Memory>
    ensures { IfOk result (λ r. r.items ≡ ends_from [] (is_like []) text.now) }
{
    let mut row = Vec::new(alloc);
    row.push(true)?;
    row.resize(text.len() + 1, false)?;
    Ok(row)
}

/// Whether the pattern matches each end of the text. Both come with their last code point first.
#[tactic(auto, using(crate::proofs::LikeLemmas::next_row_is, crate::proofs::LikeLemmas::ends_length, crate::proofs::LikeLemmas::reverse_more))]
fn last_row(alloc: Global, text: &[char], pattern: &[char]) -> Result<Vec<bool>, Memory>
    ensures { IfOk result (λ r. r.items ≡ ends_from [] (is_like (reverse pattern.now)) text.now) }
{
    let mut row = first_row(alloc, text)?;
    for p in pattern {
        row = next_row(alloc, *p, text, row.as_slice())?;
    }
    Ok(row)
}

#[tactic(auto, using(std::proofs::lemmas::Str::chars_from_encodes))]
fn code_points(alloc: Global, text: &str) -> Result<Vec<char>, AllocError>
    ensures { IfOk result (λ points. points.items ≡ chars text.now) }
{
    text.chars().collect(alloc)
}

/// The code points of a text, the last one first.
fn code_points_reversed(alloc: Global, text: &str) -> Result<Vec<char>, Memory>
    ensures { IfOk result (λ points. points.items ≡ reverse (chars text.now)) }
{
    let mut points = code_points(alloc, text)?;
    points.reverse();
    Ok(points)
}

/// Whether a text is like a pattern. Both come with their last code point first. The time grows
/// with the product of their lengths.
#[tactic(auto, using(crate::proofs::LikeLemmas::whole_end, crate::proofs::LikeLemmas::ends_length))]
fn is_like_reversed(alloc: Global, text: &[char], pattern: &[char]) -> Result<bool, Memory>
    ensures { IfOk result (λ b. b ≡ is_like (reverse pattern.now) (reverse text.now)) }
{
    let row = last_row(alloc, text, pattern)?;
    Ok(row[text.len()])
}

#[tactic(auto, using(crate::proofs::LikeLemmas::turning))]
fn is_like(alloc: Global, text: &str, pattern: &str) -> Result<bool, Memory>
    ensures { IfOk result (λ b. b ≡ is_like (chars pattern.now) (chars text.now)) }
{
    let text = code_points_reversed(alloc, text)?;
    let pattern = code_points_reversed(alloc, pattern)?;
    is_like_reversed(alloc, text.as_slice(), pattern.as_slice())
}

pub fn like(alloc: Global, text: ValueRef<'_>, pattern: ValueRef<'_>) -> Result<Value, Memory>
    ensures { IfOk result (λ v. v ≡ like_of (lent_value text.entry) (lent_value pattern.entry)) }
{
    match (text, pattern) {
        (ValueRef::Varchar(text), ValueRef::Varchar(pattern)) => {
            Ok(Value::Boolean(is_like(alloc, text, pattern)?))
        }
        _ => Ok(Value::Null),
    }
}
