ghost use Rattle.std.specs.Prelude.{◌≡◌, map, option_map};
ghost use Rattle.std.specs.List.{list_any};
ghost use Rattle.serde_json.specs.View.{view};
ghost use Rattle.plan_grammar.specs.Spots.{spot_of};
ghost use Rattle.plan_checks.specs.Halves.{first_alone, input_reads, is_alone, is_half, is_half_alone, is_joined, is_root_path, is_step_kind, joins, root_of};
ghost use Rattle.plan_grammar.specs.Json.{under};
ghost use Rattle.json_paths.specs.declared.key.Key.TheVariants as key;

use crate::names::part_index;
use json_paths::Key;
use plan_grammar::{
    Kind, OpWord, Place, StepWord, entries_under, number_under, op_of, step_named, step_of,
    text_of, text_under,
};
use serde_json::Value;

/// The first step of a node without its other half.
pub fn first_alone<'p, 'v>(document: &Value, places: &'p [Place<'v>]) -> Option<&'p Place<'v>>
    ensures { option_map (λ p. spot_of p.now) result
        ≡ first_alone (view document.now) (map spot_of places.now) }
{
    for place in places {
        if is_alone(document, places, place) {
            return Some(place);
        }
    }
    None
}

fn is_alone(document: &Value, all: &[Place<'_>], place: &Place<'_>) -> bool
    ensures { result ≡ is_alone (view document.now) (map spot_of all.now) (spot_of place.now) }
{
    is_step(place) && is_half_alone(step_named(text_of(place.value)), document, all, place)
}

fn is_step(place: &Place<'_>) -> bool
    ensures { result ≡ is_step_kind place.now.kind }
{
    matches!(place.kind, Kind::Step)
}

fn is_half_alone(step: StepWord, document: &Value, all: &[Place<'_>], place: &Place<'_>) -> bool
    ensures { result ≡ is_half_alone step (view document.now) (map spot_of all.now)
        place.now.path.items (view place.now.owner.now) }
{
    match step {
        StepWord::Final => !is_joined(document, place.owner),
        StepWord::Partial => {
            !(is_root_path(place) && is_joined_to(part_index(place), document, all))
        }
        _ => false,
    }
}

/// Whether the place is that of the step of a fragment's root, other than the first fragment's.
fn is_root_path(place: &Place<'_>) -> bool
    ensures { result ≡ is_root_path place.now.path.items }
{
    place.path.len() == 4 && part_index(place) != 0
}

fn is_joined_to(fragment: usize, document: &Value, all: &[Place<'_>]) -> bool
    ensures { result ≡ list_any (joins fragment (view document.now)) (map spot_of all.now) }
{
    for place in all {
        if joins(fragment, document, place) {
            return true;
        }
    }
    false
}

fn joins(fragment: usize, document: &Value, place: &Place<'_>) -> bool
    ensures { result ≡ joins fragment (view document.now) (spot_of place.now) }
{
    is_step(place)
        && step_named(text_of(place.value)) == StepWord::Final
        && is_joined(document, place.owner)
        && input_reads(fragment, place.owner)
}

fn input_reads(fragment: usize, node: &Value) -> bool
    ensures { result ≡ input_reads fragment (under key.Input (view node.now)) }
{
    match node.get(Key::Input.text()) {
        Some(input) => number_under(input, Key::Fragment) == fragment as u64,
        None => false,
    }
}

/// Whether the node reads its other half.
fn is_joined(document: &Value, node: &Value) -> bool
    ensures { result ≡ is_joined (view document.now) (view node.now) }
{
    match node.get(Key::Input.text()) {
        Some(input) => {
            op_of(input) == OpWord::Remote
                && reads_half(number_under(input, Key::Fragment), document, node)
        }
        None => false,
    }
}

fn reads_half(fragment: u64, document: &Value, node: &Value) -> bool
    ensures { result ≡ is_half (view node.now) (root_of fragment (view document.now)) }
{
    match root_of(fragment as usize, document) {
        Some(root) => {
            text_under(root, Key::Op) == text_under(node, Key::Op)
                && step_of(root) == StepWord::Partial
        }
        None => false,
    }
}

fn root_of<'v>(fragment: usize, document: &'v Value) -> Option<&'v Value>
    ensures { option_map (λ r. view r.now) result ≡ root_of fragment (view document.now) }
{
    let fragments = entries_under(document, Key::Fragments);
    if fragment < fragments.len() {
        fragments[fragment].get(Key::Root.text())
    } else {
        None
    }
}
