ghost use Rattle.std.specs.Prelude.{◌≡◌, ◌^◌, ◌<◌, length, option_and_then};
ghost use Rattle.scalar_texts.specs.Numbers.{below, digits_after, number_of, with_digit};

/// The number of one or more digits, within 64 bits.
#[tactic(auto, using(crate::proofs::DigitLemmas::reading))]
pub fn number(digits: &[u8]) -> Option<u64>
    ensures { result ≡ option_and_then (below (2 ^ 64)) (number_of digits.now) }
{
    if digits.is_empty() {
        return None;
    }
    let mut number = 0;
    for byte in digits {
        number = with_digit(number, *byte)?;
    }
    Some(number)
}

/// The number of one or more digits, of which there are few enough for 64 bits.
#[tactic(auto, using(crate::proofs::ShortNumbers::short))]
pub fn short_number(digits: &[u8]) -> Option<u64>
    requires { length digits.now < 19 }
    ensures { result ≡ number_of digits.now }
{
    number(digits)
}

fn with_digit(number: u64, byte: u8) -> Option<u64>
    ensures { result ≡ option_and_then (below (2 ^ 64)) (with_digit number byte) }
{
    if !byte.is_ascii_digit() {
        return None;
    }
    number.checked_mul(10)?.checked_add(u64::from(byte - b'0'))
}

/// The number of one or more digits, within 128 bits.
#[tactic(auto, using(crate::proofs::ShortNumbers::short))]
pub fn wide_number(digits: &[u8]) -> Option<u128>
    ensures { result ≡ option_and_then (below (2 ^ 128)) (number_of digits.now) }
{
    if digits.is_empty() {
        return None;
    }
    if digits.len() < 19 {
        return Some(u128::from(short_number(digits)?));
    }
    digits_after(0, digits)
}

/// The number of some digits that follow those of a number, within 128 bits.
#[tactic(auto, using(crate::proofs::DigitLemmas::reading))]
pub fn digits_after(front: u128, digits: &[u8]) -> Option<u128>
    ensures { result ≡ option_and_then (below (2 ^ 128)) (digits_after front digits.now) }
{
    let mut number = front;
    for byte in digits {
        number = wide_with_digit(number, *byte)?;
    }
    Some(number)
}

fn wide_with_digit(number: u128, byte: u8) -> Option<u128>
    ensures { result ≡ option_and_then (below (2 ^ 128)) (with_digit number byte) }
{
    if !byte.is_ascii_digit() {
        return None;
    }
    number.checked_mul(10)?.checked_add(u128::from(byte - b'0'))
}
