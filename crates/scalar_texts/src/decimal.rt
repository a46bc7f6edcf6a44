ghost use Rattle.std.specs.Prelude.{◌≡◌, ◌∷◌, ◌++◌, ◌*◌, ◌/◌, ◌%◌, ◌^◌, ◌<◌, ◌≤◌, Some, length, unsigned_abs, IfSome, OnOk, OnErr, option_and_then, option_map, pos, neg_ℤ};
ghost use Rattle.scalar_texts.specs.Appends.{AppendsStart};
ghost use Rattle.scalar_texts.specs.Numbers.{below, only_if, padded};
ghost use Rattle.scalar_texts.specs.Decimals.{decimal_of, decimal_text, has_digits, magnitude_of, magnitude_text, point_in, pointed_text, with_fraction};

use crate::append::{append_number, append_padded};
use crate::digits::{digits_after, wide_number};
use crate::powers::{MOST_DIGITS, power_of_ten};
use std::alloc::AllocError;

/// The first magnitude that has more digits.
const TOO_LARGE: u128 = 100_000_000_000_000_000_000_000_000_000_000_000_000;

/// The units of 10^-s that a text writes, where they have at most p digits.
pub fn read_decimal(p: u8, s: u8, text: &[u8]) -> Option<i128>
    ensures { result ≡ decimal_of p s text.now }
{
    let (sign, rest) = text.split_first()?;
    match *sign {
        b'-' => after_minus(p, s, rest),
        b'+' => without_sign(p, s, rest),
        _ => without_sign(p, s, text),
    }
}

#[tactic(auto, using(crate::proofs::DecimalLemmas::judging))]
fn after_minus(p: u8, s: u8, text: &[u8]) -> Option<i128>
    ensures { result ≡ option_and_then (only_if (has_digits p))
        (option_map (λ n. neg_ℤ (pos n)) (magnitude_of s text.now)) }
{
    with_digits(p, -(magnitude(s, text)? as i128))
}

#[tactic(auto, using(crate::proofs::DecimalLemmas::judging))]
fn without_sign(p: u8, s: u8, text: &[u8]) -> Option<i128>
    ensures { result ≡ option_and_then (only_if (has_digits p))
        (option_map pos (magnitude_of s text.now)) }
{
    with_digits(p, magnitude(s, text)? as i128)
}

fn with_digits(p: u8, unscaled: i128) -> Option<i128>
    ensures { result ≡ only_if (has_digits p) unscaled }
{
    if unscaled.unsigned_abs() < power_of_ten(p.min(MOST_DIGITS)) {
        Some(unscaled)
    } else {
        None
    }
}

#[tactic(auto, using(crate::proofs::DecimalLemmas::reading))]
fn magnitude(s: u8, text: &[u8]) -> Option<u128>
    ensures value { result ≡ option_and_then (below (10 ^ 38)) (magnitude_of s text.now) }
    ensures bound { IfSome result (λ n. n < 10 ^ 38) }
{
    match point_in(text) {
        None => scaled(wide_number(text)?, s),
        Some(point) => with_fraction(s, &text[point + 1..], wide_number(&text[..point])?),
    }
}

fn point_in(text: &[u8]) -> Option<usize>
    ensures value { result ≡ point_in text.now }
    ensures bound { IfSome result (λ i. i < length text.now) }
{
    text.iter().position(|byte| *byte == b'.')
}

#[tactic(auto, using(crate::proofs::DecimalLemmas::reading))]
fn with_fraction(s: u8, fraction: &[u8], whole: u128) -> Option<u128>
    ensures value { result ≡ option_and_then (below (10 ^ 38)) (with_fraction s fraction.now whole) }
    ensures bound { IfSome result (λ n. n < 10 ^ 38) }
{
    if fraction.is_empty() || fraction.len() > usize::from(s) {
        return None;
    }
    scaled(digits_after(whole, fraction)?, s - fraction.len() as u8)
}

/// The number with so many zeros after it, where it is no larger than a decimal can be.
#[tactic(auto, using(crate::proofs::DecimalLemmas::scaling))]
fn scaled(number: u128, zeros: u8) -> Option<u128>
    ensures value { result ≡ below (10 ^ 38) (number * 10 ^ zeros) }
    ensures bound { IfSome result (λ n. n < 10 ^ 38) }
{
    let mut scaled = number;
    for _zero in 0..zeros {
        scaled = scaled.checked_mul(10)?;
    }
    if scaled < TOO_LARGE {
        Some(scaled)
    } else {
        None
    }
}

/// Appends so many units of 10^-s: at least one digit before the point, and for s above 0 the
/// point and s digits after it.
#[tactic(auto, using(crate::proofs::AppendLemmas::appending))]
pub fn print_decimal(s: u8, unscaled: i128, to: &mut Vec<u8>) -> Result<(), AllocError>
    ensures ok { OnOk result (to.new.items ≡ to.old.items ++ decimal_text s unscaled) }
    ensures err { OnErr result (AppendsStart (decimal_text s unscaled) to.old.items to.new.items) }
{
    if unscaled < 0 {
        return print_negative(s, unscaled.unsigned_abs(), to);
    }
    print_magnitude(s, unscaled.unsigned_abs(), to)
}

#[tactic(auto, using(crate::proofs::AppendLemmas::appending))]
fn print_negative(s: u8, magnitude: u128, to: &mut Vec<u8>) -> Result<(), AllocError>
    ensures ok { OnOk result (to.new.items ≡ to.old.items ++ 45 ∷ magnitude_text s magnitude) }
    ensures err { OnErr result (AppendsStart (45 ∷ magnitude_text s magnitude) to.old.items to.new.items) }
{
    to.push(b'-')?;
    print_magnitude(s, magnitude, to)
}

#[tactic(auto, using(crate::proofs::AppendLemmas::appending))]
fn print_magnitude(s: u8, magnitude: u128, to: &mut Vec<u8>) -> Result<(), AllocError>
    ensures ok { OnOk result (to.new.items ≡ to.old.items ++ magnitude_text s magnitude) }
    ensures err { OnErr result (AppendsStart (magnitude_text s magnitude) to.old.items to.new.items) }
{
    if s == 0 {
        return append_number(magnitude, to);
    }
    print_pointed(s, magnitude, to)
}

#[tactic(auto, using(crate::proofs::AppendLemmas::appending))]
fn print_pointed(s: u8, magnitude: u128, to: &mut Vec<u8>) -> Result<(), AllocError>
    ensures ok { OnOk result (to.new.items ≡ to.old.items ++ pointed_text s magnitude) }
    ensures err { OnErr result (AppendsStart (pointed_text s magnitude) to.old.items to.new.items) }
{
    let (whole, fraction) = parts(s, magnitude);
    append_number(whole, to)?;
    append_fraction(s, fraction, to)
}

#[tactic(auto, using(crate::proofs::AppendLemmas::appending))]
fn append_fraction(s: u8, fraction: u128, to: &mut Vec<u8>) -> Result<(), AllocError>
    ensures ok { OnOk result (to.new.items ≡ to.old.items ++ 46 ∷ padded s fraction) }
    ensures err { OnErr result (AppendsStart (46 ∷ padded s fraction) to.old.items to.new.items) }
{
    to.push(b'.')?;
    append_padded(s, fraction, to)
}

/// The whole number of ones, and the units that are left.
#[tactic(auto, using(crate::proofs::DecimalLemmas::parting))]
fn parts(s: u8, magnitude: u128) -> (u128, u128)
    ensures whole { result.0 ≡ magnitude / 10 ^ s }
    ensures fraction { result.1 ≡ magnitude % 10 ^ s }
{
    if s > MOST_DIGITS {
        return (0, magnitude);
    }
    let one = power_of_ten(s);
    (magnitude / one, magnitude % one)
}

/// The law that a decimal which was printed reads back.
#[tactic(auto, using(crate::proofs::PrintedDecimals::decimal_back))]
pub fn decimal_reads_back(p: u8, s: u8, unscaled: i128)
    requires precision { p ≤ 38 }
    requires scale { s ≤ 38 }
    requires fits { unsigned_abs unscaled < 10 ^ p }
    ensures { decimal_of p s (decimal_text s unscaled) ≡ Some unscaled }
{}
