ghost use Rattle.std.specs.Prelude.{◌≡◌, ◌++◌, Some, OnOk, OnErr};
ghost use Rattle.std.specs.Fmt.{signed_decimal};
ghost use Rattle.scalar_texts.specs.Appends.{AppendsStart};
ghost use Rattle.scalar_texts.specs.Numbers.{bigint_of};

use crate::digits::number;
use itoa::Buffer;
use std::alloc::AllocError;

/// The whole number that an optional sign and digits write, within 64 bits.
pub fn read_bigint(text: &[u8]) -> Option<i64>
    ensures { result ≡ bigint_of text.now }
{
    let (sign, digits) = text.split_first()?;
    match *sign {
        b'-' => i64::try_from(-i128::from(number(digits)?)).ok(),
        b'+' => i64::try_from(number(digits)?).ok(),
        _ => i64::try_from(number(text)?).ok(),
    }
}

/// Appends the number in digits, with a minus where it is negative.
#[tactic(auto, using(crate::proofs::AppendLemmas::appending))]
pub fn print_bigint(number: i64, to: &mut Vec<u8>) -> Result<(), AllocError>
    ensures ok { OnOk result (to.new.items ≡ to.old.items ++ signed_decimal number) }
    ensures err { OnErr result (AppendsStart (signed_decimal number) to.old.items to.new.items) }
{
    to.extend_from_slice(Buffer::new().format(number).as_bytes())
}

/// The law that a number which was printed reads back.
#[tactic(auto, using(crate::proofs::PrintedNumbers::bigint_back))]
pub fn bigint_reads_back(number: i64)
    ensures { bigint_of (signed_decimal number) ≡ Some number }
{}
