ghost use Rattle.std.specs.Prelude.{◌≡◌, [], map, option_map};
ghost use Rattle.std.specs.List.{find, list_any};
ghost use Rattle.serde_json.specs.View.{view};
ghost use Rattle.plan_grammar.specs.Spots.{spot_of};
ghost use Rattle.plan_checks.specs.Fragments.{first_mislinked, first_unlinked, fragments_count, is_further, is_mislinked, is_unread, reads, reads_amiss};

use crate::names::part_index;
use json_paths::Key;
use plan_grammar::{Kind, Place, entries_under, number_of};
use serde_json::Value;

/// The first id or remote source that is amiss, and after all of them the first fragment that is
/// not read.
pub fn first_unlinked<'p, 'v>(document: &Value, places: &'p [Place<'v>]) -> Option<&'p Place<'v>>
    ensures { option_map (λ p. spot_of p.now) result
        ≡ first_unlinked (view document.now) (map spot_of places.now) }
{
    match first_mislinked(document, places) {
        Some(place) => Some(place),
        None => first_unread(places),
    }
}

fn first_mislinked<'p, 'v>(document: &Value, places: &'p [Place<'v>]) -> Option<&'p Place<'v>>
    ensures { option_map (λ p. spot_of p.now) result
        ≡ first_mislinked (view document.now) [] (map spot_of places.now) }
{
    for (i, place) in places.iter().enumerate() {
        if is_mislinked(document, &places[..i], place) {
            return Some(place);
        }
    }
    None
}

fn is_mislinked(document: &Value, before: &[Place<'_>], place: &Place<'_>) -> bool
    ensures { result
        ≡ is_mislinked (view document.now) (map spot_of before.now) (spot_of place.now) }
{
    let number = number_of(place.value);
    let own = part_index(place) as u64;
    match place.kind {
        Kind::FragmentId => number != own,
        Kind::FragmentNumber => reads_amiss(fragments_count(document), own, number, before),
        _ => false,
    }
}

fn fragments_count(document: &Value) -> u64
    ensures { result ≡ fragments_count (view document.now) }
{
    entries_under(document, Key::Fragments).len() as u64
}

fn reads_amiss(fragments: u64, own: u64, fragment: u64, before: &[Place<'_>]) -> bool
    ensures { result ≡ reads_amiss fragments own fragment (map spot_of before.now) }
{
    fragment <= own || fragments <= fragment || is_read(fragment, before)
}

/// Whether a remote source among the places reads the fragment.
fn is_read(fragment: u64, places: &[Place<'_>]) -> bool
    ensures { result ≡ list_any (reads fragment) (map spot_of places.now) }
{
    for place in places {
        if reads(fragment, place) {
            return true;
        }
    }
    false
}

fn reads(fragment: u64, place: &Place<'_>) -> bool
    ensures { result ≡ reads fragment (spot_of place.now) }
{
    matches!(place.kind, Kind::FragmentNumber) && number_of(place.value) == fragment
}

fn first_unread<'p, 'v>(places: &'p [Place<'v>]) -> Option<&'p Place<'v>>
    ensures { option_map (λ p. spot_of p.now) result
        ≡ find (is_unread (map spot_of places.now)) (map spot_of places.now) }
{
    for place in places {
        if is_unread(places, place) {
            return Some(place);
        }
    }
    None
}

fn is_further(place: &Place<'_>) -> bool
    ensures { result ≡ is_further (spot_of place.now) }
{
    matches!(place.kind, Kind::Fragment)
}

fn is_unread(all: &[Place<'_>], place: &Place<'_>) -> bool
    ensures { result ≡ is_unread (map spot_of all.now) (spot_of place.now) }
{
    is_further(place) && !is_read(part_index(place) as u64, all)
}
