ghost use Rattle.std.specs.Prelude.{◌≡◌, ℤ, ◌+◌, ◌+ℤ◌, ◌≤◌, Some, min, nat_abs, neg_ℤ, ◌<◌, ◌^◌};
ghost use Rattle.decimals.specs.Arithmetic.{difference_of, of_digits, operand, parts_of, product_of, product_precision, rescaled, sum_of, sum_precision, sum_scale};

use crate::decimal::Decimal;
use crate::digits::{fitting, rounded, scaled};

/// The precision of a sum and of a difference.
pub fn sum_digits(a: Decimal, b: Decimal) -> u8
    ensures { result ≡ sum_precision a.p a.s b.p b.s }
{
    let whole = (a.p - a.s).max(b.p - b.s);
    (1 + a.s.max(b.s) + whole).min(38)
}

/// The unscaled number at a scale that is at least its own.
fn at_sum_scale(d: Decimal, s: u8) -> Option<i128>
    requires { (d.s ≤ s) × (s ≤ 38) }
    ensures { result ≡ operand s (parts_of d) }
{
    scaled(d.unscaled, s - d.s, 38)
}

#[tactic(auto, using(crate::proofs::RangeLemmas::sum_in_range))]
pub fn sum(a: Decimal, b: Decimal) -> Option<i128>
    ensures number { result ≡ sum_of (parts_of a) (parts_of b) }
    ensures digits { (z : ℤ) → result ≡ Some z → nat_abs z < 10 ^ sum_precision a.p a.s b.p b.s }
{
    let s = a.s.max(b.s);
    let x = at_sum_scale(a, s)?;
    let y = at_sum_scale(b, s)?;
    plus(x, y)
}

/// The sum of two numbers, where it has at most 38 digits.
fn plus(x: i128, y: i128) -> Option<i128>
    ensures { result ≡ of_digits 38 (x +ℤ y) }
{
    fitting(x.checked_add(y)?, 38)
}

#[tactic(auto, using(crate::proofs::RangeLemmas::difference_in_range))]
pub fn difference(a: Decimal, b: Decimal) -> Option<i128>
    ensures number { result ≡ difference_of (parts_of a) (parts_of b) }
    ensures digits { (z : ℤ) → result ≡ Some z → nat_abs z < 10 ^ sum_precision a.p a.s b.p b.s }
{
    exact_difference(a, b)
}

fn exact_difference(a: Decimal, b: Decimal) -> Option<i128>
    ensures { result ≡ difference_of (parts_of a) (parts_of b) }
{
    let s = a.s.max(b.s);
    let x = at_sum_scale(a, s)?;
    let y = at_sum_scale(b, s)?;
    minus(x, y)
}

/// The difference of two numbers, where it has at most 38 digits.
fn minus(x: i128, y: i128) -> Option<i128>
    ensures { result ≡ of_digits 38 (x +ℤ neg_ℤ y) }
{
    fitting(x.checked_sub(y)?, 38)
}

#[tactic(auto, using(crate::proofs::RangeLemmas::product_in_range))]
pub fn product(a: Decimal, b: Decimal) -> Option<i128>
    ensures number { result ≡ product_of (parts_of a) (parts_of b) }
    ensures digits { (z : ℤ) → result ≡ Some z → nat_abs z < 10 ^ product_precision a.p b.p }
{
    fitting(a.unscaled.checked_mul(b.unscaled)?, 38)
}

#[tactic(auto, using(crate::proofs::RangeLemmas::rescaled_in_range, crate::proofs::RangeLemmas::digits_at_most_38))]
pub fn at_scale(d: Decimal, p: u8, s: u8) -> Option<i128>
    requires { (p ≤ 38) × (s ≤ 38) }
    ensures number { result ≡ rescaled (parts_of d) p s }
    ensures digits { (z : ℤ) → result ≡ Some z → nat_abs z < 10 ^ p }
{
    if d.s <= s {
        return scaled(d.unscaled, s - d.s, p);
    }
    fitting(rounded(d.unscaled, d.s - s), p)
}
