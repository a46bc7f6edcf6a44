ghost use Rattle.std.specs.Prelude.{◌≡◌, ◌≤◌, ◌<◌, length, map, option_map};
ghost use Rattle.std.specs.List.{count_by, find};
ghost use Rattle.plan_grammar.specs.Spots.{spot_of};
ghost use Rattle.plan_checks.specs.Limits.{bound_of, exceeds, first_beyond, is_beyond, is_crowded, is_filter, is_node, is_within, lacks_work};

use json_paths::Key;
use plan_grammar::{Kind, Place, entries_count, entries_under, number_of, text_of};

/// What limits the value of a place.
#[derive(Clone, Copy)]
pub enum Bound {
    /// Nothing does.
    Free,
    /// It is a name of 1 to 128 bytes.
    Name,
    /// A list has so many entries.
    Entries { least: usize, most: usize },
    /// A number is below this one.
    Below(u64),
    /// So many nodes or forms stand above one another.
    Levels(u32),
}

/// The first place that is beyond a limit.
pub fn first_beyond<'p, 'v>(places: &'p [Place<'v>]) -> Option<&'p Place<'v>>
    ensures { option_map (λ p. spot_of p.now) result ≡ first_beyond (map spot_of places.now) }
{
    find_beyond(count_nodes(places), count_filters(places), places)
}

fn count_nodes(places: &[Place<'_>]) -> usize
    ensures { result ≡ count_by is_node (map spot_of places.now) }
{
    let mut nodes = 0;
    for place in places {
        if is_node(place) {
            nodes += 1;
        }
    }
    nodes
}

fn is_node(place: &Place<'_>) -> bool
    ensures { result ≡ is_node (spot_of place.now) }
{
    matches!(place.kind, Kind::Node)
}

fn count_filters(places: &[Place<'_>]) -> usize
    ensures { result ≡ count_by is_filter (map spot_of places.now) }
{
    let mut filters = 0;
    for place in places {
        if is_filter(place) {
            filters += 1;
        }
    }
    filters
}

fn is_filter(place: &Place<'_>) -> bool
    ensures { result ≡ is_filter (spot_of place.now) }
{
    matches!(place.kind, Kind::Filter)
}

fn find_beyond<'p, 'v>(
    nodes: usize,
    filters: usize,
    places: &'p [Place<'v>],
) -> Option<&'p Place<'v>>
    ensures { option_map (λ p. spot_of p.now) result
        ≡ find (is_beyond nodes filters) (map spot_of places.now) }
{
    for place in places {
        if is_beyond(nodes, filters, place) {
            return Some(place);
        }
    }
    None
}

fn is_beyond(nodes: usize, filters: usize, place: &Place<'_>) -> bool
    ensures { result ≡ is_beyond nodes filters (spot_of place.now) }
{
    exceeds(bound_of(place.kind), place) || is_crowded(nodes, filters, place) || lacks_work(place)
}

fn bound_of(kind: Kind) -> Bound
    ensures { result ≡ bound_of kind }
{
    match kind {
        Kind::ResultNames => Bound::Entries {
            least: 1,
            most: 256,
        },
        Kind::ResultName => Bound::Name,
        Kind::Tables => Bound::Entries { least: 0, most: 64 },
        Kind::TableName => Bound::Name,
        Kind::Columns => Bound::Entries {
            least: 1,
            most: 256,
        },
        Kind::ColumnName => Bound::Name,
        Kind::Fragments => Bound::Entries { least: 1, most: 64 },
        Kind::FragmentId => Bound::Below(1 << 31),
        Kind::HashColumns => Bound::Entries { least: 1, most: 16 },
        Kind::ColumnNumber => Bound::Below(1 << 31),
        Kind::Node => Bound::Levels(32),
        Kind::NodeId => Bound::Below(1 << 32),
        Kind::ScanTable => Bound::Name,
        Kind::ScanColumns => Bound::Entries {
            least: 1,
            most: 256,
        },
        Kind::ScanColumn => Bound::Name,
        Kind::Types => Bound::Entries {
            least: 1,
            most: 256,
        },
        Kind::Rows => Bound::Entries {
            least: 0,
            most: 10000,
        },
        Kind::FragmentNumber => Bound::Below(1 << 31),
        Kind::Expressions => Bound::Entries {
            least: 1,
            most: 256,
        },
        Kind::Form => Bound::Levels(24),
        Kind::Branches => Bound::Entries { least: 1, most: 64 },
        Kind::Pairs => Bound::Entries { least: 1, most: 16 },
        Kind::Filters => Bound::Entries { least: 0, most: 16 },
        Kind::FilterId => Bound::Below(1 << 32),
        Kind::PairNumber => Bound::Below(1 << 31),
        Kind::ScanId => Bound::Below(1 << 32),
        Kind::GroupKeys => Bound::Entries { least: 0, most: 16 },
        Kind::AggregateCalls => Bound::Entries { least: 0, most: 64 },
        Kind::SortKeys => Bound::Entries { least: 1, most: 16 },
        Kind::Count => Bound::Below(1 << 31),
        _ => Bound::Free,
    }
}

fn exceeds(bound: Bound, place: &Place<'_>) -> bool
    ensures { result ≡ exceeds bound (spot_of place.now) }
{
    match bound {
        Bound::Free => false,
        Bound::Name => !is_within(1, 128, text_of(place.value).len()),
        Bound::Entries { least, most } => !is_within(least, most, entries_count(place.value)),
        Bound::Below(most) => number_of(place.value) >= most,
        Bound::Levels(most) => place.level > most,
    }
}

fn is_within(least: usize, most: usize, n: usize) -> bool
    ensures { result ≡ is_within least most n }
{
    least <= n && n <= most
}

/// Whether the document has too many nodes or filters: this is reported at its list of fragments.
fn is_crowded(nodes: usize, filters: usize, place: &Place<'_>) -> bool
    ensures { result ≡ is_crowded nodes filters place.now.kind }
{
    match place.kind {
        Kind::Fragments => nodes > 256 || filters > 64,
        _ => false,
    }
}

/// Whether an aggregate has neither keys nor calls: this is reported at its calls.
fn lacks_work(place: &Place<'_>) -> bool
    ensures { result ≡ lacks_work (spot_of place.now) }
{
    match place.kind {
        Kind::AggregateCalls => {
            entries_count(place.value) == 0 && entries_under(place.owner, Key::Keys).len() == 0
        }
        _ => false,
    }
}
