ghost use Rattle.std.specs.Prelude.{◌≡◌, ℕ, ◌+◌, ◌≤◌, [], ◌++◌, map, IfOk, OnOk};
ghost use Rattle.std.specs.List.{flat_map};
ghost use Rattle.serde_json.specs.Data.{depth, items_depth};
ghost use Rattle.serde_json.specs.View.{items_of, view};
ghost use Rattle.plan_grammar.specs.Spots.{inner_spots, item_spots, part_spots, places_of, spot_of, spots_at};

use crate::grammar::{has_entries, parts_of};
use crate::kind::Kind;
use crate::place::Place;
use crate::tables::Part;
use serde_json::Value;
use sql_values::Memory;
use std::alloc::Global;

/// The places of a document, in the order of the walk.
pub fn places_of<'a>(alloc: Global, document: &'a Value) -> Result<Vec<Place<'a>>, Memory>
    requires { depth (view document.now) ≤ 127 }
    ensures { IfOk result (λ places. map spot_of places.items ≡ places_of (view document.now)) }
{
    let mut places = Vec::new(alloc);
    let whole = Place {
        path: Vec::new(alloc),
        owner: document,
        kind: Kind::Document,
        level: 0,
        value: document,
    };
    list_place(alloc, &whole, &mut places)?;
    Ok(places)
}

#[cycle(walk)]
#[tactic(auto, using(crate::proofs::WalkLemmas::spots_are))]
fn list_place<'a>(
    alloc: Global,
    place: &Place<'a>,
    places: &mut Vec<Place<'a>>,
) -> Result<(), Memory>
    requires { place.now.level + depth (view place.now.value.now) ≤ 127 }
    ensures { OnOk result (map spot_of places.new.items
        ≡ map spot_of places.old.items ++ spots_at (spot_of place.now)) }
{
    places.push(place.copy(alloc)?)?;
    list_inner(alloc, place, places)?;
    Ok(())
}

#[cycle(walk)]
#[tactic(auto, using(crate::proofs::DepthLemmas::array_depth))]
fn list_inner<'a>(
    alloc: Global,
    place: &Place<'a>,
    places: &mut Vec<Place<'a>>,
) -> Result<(), Memory>
    requires { place.now.level + depth (view place.now.value.now) ≤ 127 }
    ensures { OnOk result (map spot_of places.new.items
        ≡ map spot_of places.old.items ++ inner_spots (spot_of place.now)) }
{
    match place.value.as_array() {
        Some(entries) if has_entries(place.kind) => {
            list_entries(alloc, place, entries.as_slice(), places)
        }
        Some(_) => Ok(()),
        None => list_parts(alloc, place, parts_of(place.kind, place.value), places),
    }
}

#[cycle(walk)]
#[tactic(auto, using(crate::proofs::DepthLemmas::item_depth))]
fn list_entries<'a>(
    alloc: Global,
    place: &Place<'a>,
    entries: &'a [Value],
    places: &mut Vec<Place<'a>>,
) -> Result<(), Memory>
    requires { place.now.level + 1 + items_depth (items_of (map view entries.now)) ≤ 127 }
    ensures { OnOk result (map spot_of places.new.items ≡ map spot_of places.old.items
        ++ item_spots (items_of (map view entries.now)) place.now.path.items
        (view place.now.owner.now) place.now.kind place.now.level 0) }
{
    for (i, entry) in entries.iter().enumerate() {
        let entry = place.entry(alloc, i, entry)?;
        list_place(alloc, &entry, places)?;
    }
    Ok(())
}

#[cycle(walk)]
fn list_parts<'a>(
    alloc: Global,
    place: &Place<'a>,
    parts: &[Part],
    places: &mut Vec<Place<'a>>,
) -> Result<(), Memory>
    requires { place.now.level + depth (view place.now.value.now) ≤ 127 }
    ensures { OnOk result (map spot_of places.new.items ≡ map spot_of places.old.items
        ++ flat_map (part_spots (spot_of place.now)) parts.now) }
{
    for part in parts {
        list_part(alloc, place, *part, places)?;
    }
    Ok(())
}

#[cycle(walk)]
#[tactic(auto, using(crate::proofs::DepthLemmas::get_depth))]
fn list_part<'a>(
    alloc: Global,
    place: &Place<'a>,
    part: Part,
    places: &mut Vec<Place<'a>>,
) -> Result<(), Memory>
    requires { place.now.level + depth (view place.now.value.now) ≤ 127 }
    ensures { OnOk result (map spot_of places.new.items
        ≡ map spot_of places.old.items ++ part_spots (spot_of place.now) part) }
{
    match place.value.get(part.key.text()) {
        Some(member) => {
            let inner = place.member(alloc, part, member)?;
            list_place(alloc, &inner, places)
        }
        None => Ok(()),
    }
}
