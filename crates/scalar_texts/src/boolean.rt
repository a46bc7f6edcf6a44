ghost use Rattle.std.specs.Prelude.{◌≡◌, ◌++◌, Some, OnOk, OnErr};
ghost use Rattle.scalar_texts.specs.Appends.{AppendsStart};
ghost use Rattle.scalar_texts.specs.Booleans.{boolean_of, boolean_text};

use std::alloc::AllocError;

/// The boolean that `true` or `false` in any mix of ASCII case writes.
pub fn read_boolean(text: &[u8]) -> Option<bool>
    ensures { result ≡ boolean_of text.now }
{
    if text.eq_ignore_ascii_case(b"true") {
        return Some(true);
    }
    if text.eq_ignore_ascii_case(b"false") {
        return Some(false);
    }
    None
}

/// Appends `true` or `false`.
#[tactic(auto, using(crate::proofs::AppendLemmas::appending))]
pub fn print_boolean(value: bool, to: &mut Vec<u8>) -> Result<(), AllocError>
    ensures ok { OnOk result (to.new.items ≡ to.old.items ++ boolean_text value) }
    ensures err { OnErr result (AppendsStart (boolean_text value) to.old.items to.new.items) }
{
    if value {
        return to.extend_from_slice(b"true");
    }
    to.extend_from_slice(b"false")
}

/// The law that a boolean which was printed reads back.
pub fn boolean_reads_back(value: bool)
    ensures { boolean_of (boolean_text value) ≡ Some value }
{}
