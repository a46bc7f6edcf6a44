ghost use Rattle.std.specs.Prelude.{◌≡◌, ◌+◌, ◌-◌, ◌*ℤ◌, ◌+ℤ◌, ◌^◌, ◌≤◌, max, neg_ℤ, pos, IfSome, IsTrue, Ok};
ghost use Rattle.sql_values.specs.declared.types.SqlType.TheVariants as kind_is;
ghost use Rattle.sql_values.specs.declared.value.Value.TheVariants as value_is;
ghost use Rattle.decimals.specs.Arithmetic.{difference_of, has_digits, is_decimal_type, of_digits, product_of, sum_of};
ghost use Rattle.sql_functions.specs.DecimalNumbers.{decimal_difference, decimal_product, decimal_sum};

use sql_values::SqlType;

/// Ten to the 38, above each number of a decimal.
const MOST: u128 = 100_000_000_000_000_000_000_000_000_000_000_000_000;

/// A decimal type, and the bound of its numbers without their signs.
#[derive(Clone, Copy)]
pub struct Digits {
    pub p: u8,
    pub s: u8,
    bound: u128,
    ghost is_type: { IsTrue (is_decimal_type p s) },
    ghost is_bound: { bound ≡ 10 ^ p },
}

impl Digits {
    /// Those of a type, if it is a decimal one.
    #[tactic(auto, using(decimals::proofs::PowerLemmas::power_fits))]
    pub fn of(kind: SqlType) -> Option<Digits>
        ensures { IfSome result (λ d. kind ≡ kind_is.Decimal d.p d.s) }
    {
        match kind {
            SqlType::Decimal { p, s } if 1 <= p && p <= 38 && s <= p => Some(Digits {
                p,
                s,
                bound: 10u128.pow(u32::from(p)),
            }),
            _ => None,
        }
    }

    /// Whether a number has at most the digits of the type.
    fn has(self, number: i128) -> bool
        ensures { result ≡ has_digits self.p number }
    {
        number.unsigned_abs() < self.bound
    }
}

/// The types of two decimals, and what makes their numbers ones of the greater scale.
#[derive(Clone, Copy)]
pub struct DigitsOfTwo {
    pub left: Digits,
    pub right: Digits,
    left_factor: i128,
    right_factor: i128,
    ghost is_left: { left_factor ≡ pos (10 ^ (max left.s right.s - left.s)) },
    ghost is_right: { right_factor ≡ pos (10 ^ (max left.s right.s - right.s)) },
}

impl DigitsOfTwo {
    #[tactic(auto, using(decimals::proofs::PowerLemmas::power_fits))]
    pub fn of(left: Digits, right: Digits) -> DigitsOfTwo
        ensures left { result.left ≡ left }
        ensures right { result.right ≡ right }
    {
        let scale = left.s.max(right.s);
        DigitsOfTwo {
            left,
            right,
            left_factor: power(scale - left.s),
            right_factor: power(scale - right.s),
        }
    }

    /// The sum of two numbers of the types, where it is in range.
    pub fn sum(self, a: i128, b: i128) -> Option<i128>
        ensures { IfSome result (λ z. decimal_sum (kind_is.Decimal self.left.p self.left.s)
            (kind_is.Decimal self.right.p self.right.s) a b ≡ Ok (value_is.Decimal z)) }
    {
        if !self.left.has(a) || !self.right.has(b) {
            return None;
        }
        self.exact_sum(a, b)
    }

    fn exact_sum(self, a: i128, b: i128) -> Option<i128>
        ensures { result ≡ sum_of (a, self.left.p, self.left.s) (b, self.right.p, self.right.s) }
    {
        let x = times(a, self.left_factor)?;
        let y = times(b, self.right_factor)?;
        plus(x, y)
    }

    /// The difference of two numbers of the types, where it is in range.
    pub fn difference(self, a: i128, b: i128) -> Option<i128>
        ensures { IfSome result (λ z. decimal_difference (kind_is.Decimal self.left.p self.left.s)
            (kind_is.Decimal self.right.p self.right.s) a b ≡ Ok (value_is.Decimal z)) }
    {
        if !self.left.has(a) || !self.right.has(b) {
            return None;
        }
        self.exact_difference(a, b)
    }

    fn exact_difference(self, a: i128, b: i128) -> Option<i128>
        ensures { result ≡ difference_of (a, self.left.p, self.left.s) (b, self.right.p, self.right.s) }
    {
        let x = times(a, self.left_factor)?;
        let y = times(b, self.right_factor)?;
        minus(x, y)
    }

    /// The product of two numbers of the types, where it is in range.
    pub fn product(self, a: i128, b: i128) -> Option<i128>
        ensures { IfSome result (λ z. decimal_product (kind_is.Decimal self.left.p self.left.s)
            (kind_is.Decimal self.right.p self.right.s) a b ≡ Ok (value_is.Decimal z)) }
    {
        if 38 < self.left.s + self.right.s || !self.left.has(a) || !self.right.has(b) {
            return None;
        }
        times(a, b)
    }
}

/// 10 to the `k`.
#[tactic(auto, using(decimals::proofs::PowerLemmas::power_fits))]
fn power(k: u8) -> i128
    requires { k ≤ 38 }
    ensures { result ≡ pos (10 ^ k) }
{
    10u128.pow(u32::from(k)) as i128
}

/// The number, where it has at most 38 digits.
fn fitting(number: i128) -> Option<i128>
    ensures { result ≡ of_digits 38 number }
{
    if number.unsigned_abs() < MOST {
        Some(number)
    } else {
        None
    }
}

fn plus(a: i128, b: i128) -> Option<i128>
    ensures { result ≡ of_digits 38 (a +ℤ b) }
{
    fitting(a.checked_add(b)?)
}

fn minus(a: i128, b: i128) -> Option<i128>
    ensures { result ≡ of_digits 38 (a +ℤ neg_ℤ b) }
{
    fitting(a.checked_sub(b)?)
}

fn times(a: i128, b: i128) -> Option<i128>
    ensures { result ≡ of_digits 38 (a *ℤ b) }
{
    fitting(a.checked_mul(b)?)
}
