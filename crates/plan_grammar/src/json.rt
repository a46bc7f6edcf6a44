ghost use Rattle.std.specs.Prelude.{◌≡◌, map};
ghost use Rattle.std.specs.Option.{is_some};
ghost use Rattle.serde_json.specs.Find.{as_str};
ghost use Rattle.serde_json.specs.View.{view};
ghost use Rattle.plan_grammar.specs.Json.{entries_count, entries_in, entries_under, has_entry, members_count, number_of, number_under, text_of, text_under};

use json_paths::Key;
use serde_json::Value;

pub fn has_entry(object: &Value, key: Key) -> bool
    ensures { result ≡ has_entry key (view object.now) }
{
    object.get(key.text()).is_some()
}

pub fn is_text(value: &Value) -> bool
    ensures { result ≡ is_some (as_str (view value.now)) }
{
    value.is_string()
}

/// The text that the value is, and the empty one where it is none.
pub fn text_of(value: &Value) -> &str
    ensures { result.now ≡ text_of (view value.now) }
{
    match value.as_str() {
        Some(text) => text,
        None => "",
    }
}

/// The whole number of 64 bits that the value is, and 0 where it is none.
pub fn number_of(value: &Value) -> u64
    ensures { result ≡ number_of (view value.now) }
{
    match value.as_u64() {
        Some(number) => number,
        None => 0,
    }
}

/// The number under a key, and 0 where there is none.
pub fn number_under(object: &Value, key: Key) -> u64
    ensures { result ≡ number_under key (view object.now) }
{
    match object.get(key.text()).and_then(Value::as_u64) {
        Some(number) => number,
        None => 0,
    }
}

/// The text under a key, and the empty one where there is none.
pub fn text_under(object: &Value, key: Key) -> &str
    ensures { result.now ≡ text_under key (view object.now) }
{
    match object.get(key.text()).and_then(Value::as_str) {
        Some(text) => text,
        None => "",
    }
}

/// The entries of the list, and none where the value is no list.
#[tactic(auto, using(crate::proofs::EntryLemmas::seen))]
pub fn entries_in(list: &Value) -> &[Value]
    ensures { map view result.now ≡ entries_in (view list.now) }
{
    match list.as_array() {
        Some(entries) => entries.as_slice(),
        None => &[],
    }
}

/// The entries of the list under a key, and none where there is no list.
#[tactic(auto, using(crate::proofs::EntryLemmas::seen))]
pub fn entries_under(object: &Value, key: Key) -> &[Value]
    ensures { map view result.now ≡ entries_under key (view object.now) }
{
    match object.get(key.text()).and_then(Value::as_array) {
        Some(entries) => entries.as_slice(),
        None => &[],
    }
}

/// How many entries the list has, and 0 where the value is none.
#[tactic(auto, using(crate::proofs::EntryLemmas::seen))]
pub fn entries_count(list: &Value) -> usize
    ensures { result ≡ entries_count (view list.now) }
{
    match list.as_array() {
        Some(entries) => entries.len(),
        None => 0,
    }
}

/// How many keys the object has, and 0 where the value is none.
#[tactic(auto, using(crate::proofs::EntryLemmas::seen))]
pub fn members_count(object: &Value) -> usize
    ensures { result ≡ members_count (view object.now) }
{
    match object.as_object() {
        Some(members) => members.len(),
        None => 0,
    }
}
