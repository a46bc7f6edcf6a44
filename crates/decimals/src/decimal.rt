ghost use Rattle.std.specs.Prelude.{◌≡◌, option_map, ℕ, ◌+◌, ◌^◌, ◌<◌, ◌≤◌, min, nat_abs, neg_ℤ, Option, Some, None, MatchResult, IfOk, pos};

use crate::digits::{has_digits, opposite};
use crate::exact::{at_scale, difference, product, sum, sum_digits};
use std::error::Error;
use std::fmt;

/// A number past the digits that its type has room for.
#[derive(Clone, Copy, Debug, PartialEq, Eq)]
pub struct OutOfRange;

impl fmt::Display for OutOfRange {
    fn fmt<W: fmt::Write>(&self, f: &mut fmt::Formatter<W>) -> fmt::Result {
        f.write_str("out of range")
    }
}

impl Error for OutOfRange {}

/// The number `unscaled` / 10^`s`, of the type decimal(p,s).
#[derive(Clone, Copy)]
pub struct Decimal {
    pub unscaled: i128,
    pub p: u8,
    pub s: u8,
    pub ghost precision: { (1 ≤ p) × (p ≤ 38) },
    pub ghost scale: { s ≤ p },
    pub ghost digits: { nat_abs unscaled < 10 ^ p },
}

impl Decimal {
    ghost use Rattle.decimals.specs.Arithmetic.{checked_parts, parts_of, sum_of, sum_scale, sum_precision, difference_of, product_of, product_precision, rescaled};

    /// The decimal of this number and type, if there is one.
    pub fn checked(unscaled: i128, p: u8, s: u8) -> Option<Decimal>
        ensures { option_map parts_of result ≡ checked_parts unscaled p s }
    {
        if p < 1 || 38 < p || p < s || !has_digits(unscaled, p) {
            return None;
        }
        Some(Decimal { unscaled, p, s })
    }

    /// The sum, with all the digits after the point that either side has.
    pub fn add(self, other: Decimal) -> Result<Decimal, OutOfRange>
        ensures number { MatchResult result (λ d. sum_of (parts_of self) (parts_of other) ≡ Some d.unscaled) (λ _. sum_of (parts_of self) (parts_of other) ≡ None) }
        ensures precision { IfOk result (λ d. d.p ≡ sum_precision self.p self.s other.p other.s) }
        ensures scale { IfOk result (λ d. d.s ≡ sum_scale self.s other.s) }
    {
        match sum(self, other) {
            Some(unscaled) => Ok(Decimal {
                unscaled,
                p: sum_digits(self, other),
                s: self.s.max(other.s),
            }),
            None => Err(OutOfRange),
        }
    }

    /// The difference, of the type that the sum has.
    pub fn sub(self, other: Decimal) -> Result<Decimal, OutOfRange>
        ensures number { MatchResult result (λ d. difference_of (parts_of self) (parts_of other) ≡ Some d.unscaled) (λ _. difference_of (parts_of self) (parts_of other) ≡ None) }
        ensures precision { IfOk result (λ d. d.p ≡ sum_precision self.p self.s other.p other.s) }
        ensures scale { IfOk result (λ d. d.s ≡ sum_scale self.s other.s) }
    {
        match difference(self, other) {
            Some(unscaled) => Ok(Decimal {
                unscaled,
                p: sum_digits(self, other),
                s: self.s.max(other.s),
            }),
            None => Err(OutOfRange),
        }
    }

    /// The product, with the digits after the point of both sides together.
    pub fn mul(self, other: Decimal) -> Result<Decimal, OutOfRange>
        requires { self.s + other.s ≤ 38 }
        ensures number { MatchResult result (λ d. product_of (parts_of self) (parts_of other) ≡ Some d.unscaled) (λ _. product_of (parts_of self) (parts_of other) ≡ None) }
        ensures precision { IfOk result (λ d. d.p ≡ product_precision self.p other.p) }
        ensures scale { IfOk result (λ d. d.s ≡ self.s + other.s) }
    {
        match product(self, other) {
            Some(unscaled) => Ok(Decimal {
                unscaled,
                p: (self.p + other.p).min(38),
                s: self.s + other.s,
            }),
            None => Err(OutOfRange),
        }
    }

    #[tactic(auto, using(crate::proofs::RangeLemmas::digits_at_most_38))]
    pub fn neg(self) -> Decimal
        ensures number { result.unscaled ≡ neg_ℤ self.unscaled }
        ensures kind { (result.p ≡ self.p) × (result.s ≡ self.s) }
    {
        Decimal {
            unscaled: opposite(self.unscaled),
            p: self.p,
            s: self.s,
        }
    }

    /// The number with `s` digits after the point and at most `p` in all; what is lost is rounded,
    /// a half away from zero.
    pub fn rescale(self, p: u8, s: u8) -> Result<Decimal, OutOfRange>
        requires precision { (1 ≤ p) × (p ≤ 38) }
        requires scale { s ≤ p }
        ensures number { MatchResult result (λ d. rescaled (parts_of self) p s ≡ Some d.unscaled) (λ _. rescaled (parts_of self) p s ≡ None) }
        ensures kind { IfOk result (λ d. (d.p ≡ p) × (d.s ≡ s)) }
    {
        match at_scale(self, p, s) {
            Some(unscaled) => Ok(Decimal { unscaled, p, s }),
            None => Err(OutOfRange),
        }
    }
}
