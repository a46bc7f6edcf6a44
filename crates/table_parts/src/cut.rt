ghost use Rattle.std.specs.Prelude.{◌≡◌, ◌≢◌, ◌++◌, ◌<◌, IfSome, All, IsTrue, length, slice_index};
ghost use Rattle.csv.specs.Machine.{line_feed};
ghost use Rattle.csv.specs.Reading.{strip_bom};
ghost use Rattle.csv_tables.specs.Parts.{IsCut, quote};

use memchr::memchr;

/// U+FEFF in UTF-8, which a reader of CSV drops at the start of what it reads.
const BYTE_ORDER_MARK: &[u8] = b"\xEF\xBB\xBF";

/// Whether a text has no quotes.
#[tactic(auto, using(crate::proofs::CutLemmas::none_found))]
pub(crate) fn is_plain(text: &[u8]) -> bool
    ensures { IsTrue result → All (λ b. b ≢ quote) text.now }
{
    memchr(b'"', text).is_none()
}

/// The first line feed at a place or behind it.
fn line_end(text: &[u8], from: usize) -> Option<usize>
    ensures { IfSome result (λ at. (at < length text.now) × (slice_index text.now at ≡ line_feed)) }
{
    let from = from.min(text.len());
    let (_, rest) = text.split_at(from);
    let line = memchr(b'\n', rest)?;
    Some(from + line)
}

/// A text in two parts, of which the first ends at the first line feed at a place or behind it; none where there is
/// no such line feed, or a byte order mark behind it.
#[tactic(auto, using(crate::proofs::CutLemmas::cut_at, crate::proofs::CutLemmas::unmarked, crate::proofs::CutLemmas::parts_whole))]
pub(crate) fn cut_behind(text: &[u8], from: usize) -> Option<(&[u8], &[u8])>
    requires { All (λ b. b ≢ quote) text.now }
    ensures whole { IfSome result (λ parts. parts.0.now ++ parts.1.now ≡ text.now) }
    ensures cut { IfSome result (λ parts. IsCut parts.0.now parts.1.now) }
{
    let at = line_end(text, from)?;
    let (front, back) = text.split_at(at + 1);
    if back.starts_with(BYTE_ORDER_MARK) {
        return None;
    }
    Some((front, back))
}
