ghost use Rattle.std.specs.Prelude.{◌≡◌, ◌≤◌, map, None, Some, option_map, IfOk, MatchResult};
ghost use Rattle.serde_json.specs.Data.{depth};
ghost use Rattle.serde_json.specs.View.{view};
ghost use Rattle.plan_grammar.specs.Spots.{spot_of};
ghost use Rattle.json_paths.specs.Places.{pointer_text};
ghost use Rattle.plan_checks.specs.Documents.{RefusedAs, first_malformed, first_refused, first_unjoined, refusal as refusal_text, refusal_of};
ghost use Rattle.plan_checks.specs.Shapes.{fault_path};

use crate::fault::PlanFault;
use crate::fragments::first_unlinked;
use crate::halves::first_alone;
use crate::limits::first_beyond;
use crate::names::first_misnamed;
use crate::shapes::{fault_path, first_misshapen};
use json_paths::pointer_of;
use plan_grammar::{Place, places_of};
use serde_json::Value;
use sql_values::{Memory, Text};
use std::alloc::Global;

/// The check that fails first, and the place at which it does.
#[derive(Drop)]
struct Refusal<'p, 'v> {
    code: u8,
    place: &'p Place<'v>,
}

/// Whether every check passes at every place of the document.
pub fn judge(alloc: Global, document: &Value) -> Result<(), PlanFault>
    requires { depth (view document.now) ≤ 127 }
    ensures { MatchResult result (λ _. refusal_of (view document.now) ≡ None)
        (RefusedAs (refusal_of (view document.now))) }
{
    let places = places_of(alloc, document)?;
    match first_refused(document, places.as_slice()) {
        Some(refusal) => Err(refused(alloc, &refusal)),
        None => Ok(()),
    }
}

fn first_refused<'p, 'v>(document: &Value, places: &'p [Place<'v>]) -> Option<Refusal<'p, 'v>>
    ensures { option_map (λ r. (r.code, spot_of r.place.now)) result
        ≡ first_refused (view document.now) (map spot_of places.now) }
{
    match first_malformed(document, places) {
        Some(refusal) => Some(refusal),
        None => first_unjoined(document, places),
    }
}

fn first_malformed<'p, 'v>(document: &Value, places: &'p [Place<'v>]) -> Option<Refusal<'p, 'v>>
    ensures { option_map (λ r. (r.code, spot_of r.place.now)) result
        ≡ first_malformed (view document.now) (map spot_of places.now) }
{
    if let Some(place) = first_misshapen(places) {
        return Some(Refusal { code: 2, place });
    }
    if let Some(place) = first_beyond(places) {
        return Some(Refusal { code: 3, place });
    }
    match first_misnamed(document, places) {
        Some(place) => Some(Refusal { code: 4, place }),
        None => None,
    }
}

fn first_unjoined<'p, 'v>(document: &Value, places: &'p [Place<'v>]) -> Option<Refusal<'p, 'v>>
    ensures { option_map (λ r. (r.code, spot_of r.place.now)) result
        ≡ first_unjoined (view document.now) (map spot_of places.now) }
{
    if let Some(place) = first_unlinked(document, places) {
        return Some(Refusal { code: 6, place });
    }
    match first_alone(document, places) {
        Some(place) => Some(Refusal { code: 7, place }),
        None => None,
    }
}

fn refused(alloc: Global, refusal: &Refusal<'_, '_>) -> PlanFault
    ensures { RefusedAs (Some (refusal_text (refusal.now.code, spot_of refusal.now.place.now))) result }
{
    match path_text(alloc, refusal.place) {
        Ok(path) => PlanFault::Refused {
            code: refusal.code,
            path,
        },
        Err(Memory) => PlanFault::Memory,
    }
}

/// The JSON Pointer to a fault of the place.
fn path_text(alloc: Global, place: &Place<'_>) -> Result<Text, Memory>
    ensures { IfOk result (λ text. text ≡ pointer_text (fault_path (spot_of place.now))) }
{
    pointer_of(alloc, fault_path(alloc, place)?.as_slice())
}
