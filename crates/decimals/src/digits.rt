ghost use Rattle.std.specs.Prelude.{◌≡◌, ℕ, ◌+◌, ◌^◌, ◌<◌, ◌≤◌, nat_abs, neg_ℤ, pos};
ghost use Rattle.decimals.specs.Arithmetic.{of_digits, scaled, has_digits, rounded, rounded_quotient as quotient_of};

/// 10 to the `k`.
#[tactic(auto, using(crate::proofs::PowerLemmas::power_fits))]
pub fn power(k: u8) -> u128
    requires { k ≤ 38 }
    ensures { result ≡ 10 ^ k }
{
    10u128.pow(u32::from(k))
}

/// Whether a number has at most `p` digits.
pub fn has_digits(z: i128, p: u8) -> bool
    requires { p ≤ 38 }
    ensures { result ≡ has_digits p z }
{
    z.unsigned_abs() < power(p)
}

/// The number, where it has at most `p` digits.
pub fn fitting(z: i128, p: u8) -> Option<i128>
    requires { p ≤ 38 }
    ensures { result ≡ of_digits p z }
{
    if has_digits(z, p) { Some(z) } else { None }
}

/// The number with `k` more digits after the point, where it has at most `p`.
#[tactic(auto, using(crate::proofs::PowerLemmas::power_fits))]
pub fn scaled(z: i128, k: u8, p: u8) -> Option<i128>
    requires { (k ≤ 38) × (p ≤ 38) }
    ensures { result ≡ of_digits p (scaled k z) }
{
    fitting(z.checked_mul(power(k) as i128)?, p)
}

/// The number of the other sign.
#[tactic(auto, using(crate::proofs::MagnitudeLemmas::signs))]
pub fn opposite(z: i128) -> i128
    requires { nat_abs z < 10 ^ 38 }
    ensures value { result ≡ neg_ℤ z }
    ensures digits { nat_abs result ≡ nat_abs z }
{
    -z
}

/// `n` divided by `d`; a half is rounded up.
#[tactic(auto, using(crate::proofs::PowerLemmas::power_fits))]
fn rounded_quotient(d: u128, n: u128) -> u128
    requires { (0 < d) × (d < 2 ^ 127) × (n < 2 ^ 127) }
    ensures value { result ≡ quotient_of d n }
    ensures small { result ≤ 2 ^ 127 }
{
    let quotient = n / d;
    if d <= 2 * (n % d) {
        quotient + 1
    } else {
        quotient
    }
}

/// The number with `k` fewer digits after the point; a half is rounded away from zero.
#[tactic(auto, using(crate::proofs::PowerLemmas::power_fits, crate::proofs::MagnitudeLemmas::power_positive))]
pub fn rounded(z: i128, k: u8) -> i128
    requires { (k ≤ 38) × (nat_abs z < 10 ^ 38) }
    ensures { result ≡ rounded k z }
{
    let magnitude = rounded_quotient(power(k), z.unsigned_abs()) as i128;
    if z < 0 { -magnitude } else { magnitude }
}
