ghost use Rattle.std.specs.Prelude.{◌≡◌, ◌≢◌, ◌∷◌, [], ◌<◌, ◌≤◌, All, IfSome, IsTrue, MatchOption, false, true, drop, take, length, option_map, slice_index};
ghost use Rattle.csv.specs.Reading.{strip_bom};
ghost use Rattle.csv_tables.specs.Lines.{ends_line, fields_left, fields_of_line, records_in};
ghost use Rattle.csv_tables.specs.Parts.{quote};
ghost use Rattle.csv_tables.specs.Tables.{records_of};

use memchr::{memchr, memchr2};

/// U+FEFF in UTF-8, which a reader of CSV drops at the start of what it reads.
const BYTE_ORDER_MARK: &[u8] = b"\xEF\xBB\xBF";

#[tactic(auto, using(crate::proofs::LineLemmas::none_found))]
fn is_plain(text: &[u8]) -> bool
    ensures { IsTrue result → All (λ b. b ≢ quote) text.now }
{
    memchr(b'"', text).is_none()
}

#[tactic(auto, using(crate::proofs::LineLemmas::marked, crate::proofs::LineLemmas::unmarked))]
fn without_mark(text: &[u8]) -> &[u8]
    ensures { result.now ≡ strip_bom text.now }
{
    match text.strip_prefix(BYTE_ORDER_MARK) {
        Some(rest) => rest,
        None => text,
    }
}

/// The lines of a text, if it has no quotes.
#[tactic(auto, using(crate::proofs::LineLemmas::stripped_plain))]
pub(crate) fn plain_lines(text: &[u8]) -> Option<&[u8]>
    ensures plain { IfSome result (λ lines. All (λ b. b ≢ quote) lines.now) }
    ensures same { IfSome result (λ lines. records_in lines.now ≡ records_of text.now) }
{
    if is_plain(text) {
        return Some(without_mark(text));
    }
    None
}

fn ends_line(byte: u8) -> bool
    ensures { result ≡ ends_line byte }
{
    byte == b'\r' || byte == b'\n'
}

#[tactic(auto, using(crate::proofs::LineLemmas::skipped))]
// Where the first line begins that is not empty.
fn line_start(text: &[u8]) -> usize
    ensures within { result ≤ length text.now }
    ensures first { result < length text.now → ends_line (slice_index text.now result) ≡ false }
    ensures same { records_in (drop result text.now) ≡ records_in text.now }
{
    for at in 0..text.len() {
        if !ends_line(text[at]) {
            return at;
        }
    }
    text.len()
}

fn line_len(text: &[u8]) -> usize
    ensures within { result ≤ length text.now }
    ensures line { All (λ b. ends_line b ≡ false) (take result text.now) }
    ensures end { result < length text.now → ends_line (slice_index text.now result) ≡ true }
{
    match memchr2(b'\r', b'\n', text) {
        Some(end) => end,
        None => text.len(),
    }
}

#[tactic(auto, using(crate::proofs::LineLemmas::line_first))]
/// The first line that is not empty, and what stands behind it, if there is such a line.
pub(crate) fn next_line(text: &[u8]) -> Option<(&[u8], &[u8])>
    requires { All (λ b. b ≢ quote) text.now }
    ensures records { MatchOption result (records_in text.now ≡ [])
        (λ found. records_in text.now ≡ fields_of_line found.0.now ∷ records_in found.1.now) }
    ensures plain { IfSome result (λ found. All (λ b. b ≢ quote) found.1.now) }
{
    let (_, lines) = text.split_at(line_start(text));
    if lines.is_empty() {
        return None;
    }
    Some(lines.split_at(line_len(lines)))
}

/// What stands behind the first record of a text, if the text has no quotes.
pub(crate) fn lines_behind_first(text: &[u8]) -> Option<&[u8]>
    ensures plain { IfSome result (λ behind. All (λ b. b ≢ quote) behind.now) }
    ensures behind { IfSome result (λ behind. records_in behind.now ≡ drop 1 (records_of text.now)) }
{
    let lines = plain_lines(text)?;
    let (_, behind) = next_line(lines)?;
    Some(behind)
}

#[tactic(auto, using(crate::proofs::LineLemmas::one_field))]
/// The first field of a line, and what stands behind its comma, if there is one.
pub(crate) fn first_field(line: &[u8]) -> (&[u8], Option<&[u8]>)
    ensures { fields_of_line line.now
        ≡ result.0.now ∷ fields_left (option_map (λ rest. rest.now) result.1) }
{
    let Some(at) = memchr(b',', line) else {
        return (line, None);
    };
    let (field, rest) = line.split_at(at);
    let (_, behind) = rest.split_at(1);
    (field, Some(behind))
}

#[tactic(auto, using(crate::proofs::LineLemmas::comma_counted, crate::proofs::LineLemmas::other_counted))]
/// How many fields a line has.
pub(crate) fn field_count(line: &[u8]) -> usize
    ensures { result ≡ length (fields_of_line line.now) }
{
    let mut count = 1;
    for at in 0..line.len() {
        if line[at] == b',' {
            count += 1;
        }
    }
    count
}
