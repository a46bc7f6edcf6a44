//! How the rows of a table are cut into splits.
ghost use Rattle.std.specs.Prelude.{◌≡◌, ◌<◌, ◌≤◌};
ghost use Rattle.split_source.specs.Splits.{split_count, split_low, split_high};
ghost use Rattle.split_source.specs.Splits.{CutInOrder, CutInAnyOrder};

/// How many splits of this size the rows are cut into.
pub fn split_count(rows: u32, size: u32) -> u32
    requires { 0 < size }
    ensures { result ≡ split_count rows size }
{
    rows.div_ceil(size)
}

/// Where the split of this number begins, and where it ends.
#[tactic(auto, using(crate::proofs::SplitLemmas::begins_within))]
pub fn split_range(rows: u32, size: u32, number: u32) -> (u32, u32)
    requires size { 0 < size }
    requires number { number < split_count rows size }
    ensures range { result ≡ (split_low size number, split_high rows size number) }
    ensures some { result.0 < result.1 }
    ensures within { result.1 ≤ rows }
{
    let low = number * size;
    (low, low + size.min(rows - low))
}

/// The splits cut any rows: one after another they are the rows, and so are they in any order, each
/// row as often as it stands in them.
pub fn splits_cut_the_rows<T>(rows: &[T], size: u32)
    requires { 0 < size }
    ensures in_order { CutInOrder size rows.now }
    ensures in_any_order { CutInAnyOrder size rows.now }
{}
