//! Appending to a list of bytes. Where memory was wanting, a beginning may have been appended.
ghost use Rattle.std.specs.Prelude.{◌≡◌, ◌++◌, ◌<◌, OnOk, OnErr, replicate};
ghost use Rattle.std.specs.Fmt.{decimal};
ghost use Rattle.scalar_texts.specs.Appends.{AppendsStart};
ghost use Rattle.scalar_texts.specs.Numbers.{padded};

use itoa::Buffer;
use std::alloc::AllocError;

/// Appends the number in digits.
#[tactic(auto, using(crate::proofs::AppendLemmas::appending))]
pub fn append_number(number: u128, to: &mut Vec<u8>) -> Result<(), AllocError>
    ensures ok { OnOk result (to.new.items ≡ to.old.items ++ decimal number) }
    ensures err { OnErr result (AppendsStart (decimal number) to.old.items to.new.items) }
{
    to.extend_from_slice(Buffer::new().format(number).as_bytes())
}

/// Appends the number in digits, with zeros before it up to the width.
#[tactic(auto, using(crate::proofs::AppendLemmas::appending))]
pub fn append_padded(width: u8, number: u128, to: &mut Vec<u8>) -> Result<(), AllocError>
    ensures ok { OnOk result (to.new.items ≡ to.old.items ++ padded width number) }
    ensures err { OnErr result (AppendsStart (padded width number) to.old.items to.new.items) }
{
    let mut buffer = Buffer::new();
    let digits = buffer.format(number).as_bytes();
    append_zeros(usize::from(width).saturating_sub(digits.len()), to)?;
    to.extend_from_slice(digits)
}

#[tactic(auto, using(crate::proofs::AppendLemmas::appending))]
fn append_zeros(count: usize, to: &mut Vec<u8>) -> Result<(), AllocError>
    requires { count < 256 }
    ensures ok { OnOk result (to.new.items ≡ to.old.items ++ replicate count 48) }
    ensures err { OnErr result (AppendsStart (replicate count 48) to.old.items to.new.items) }
{
    to.resize(to.len() + count, b'0')
}
