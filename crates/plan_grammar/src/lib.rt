//! The grammar of the plan document, and the places of a document in the order of the walk.
//!
//! `specs/Tables.antt` has the keys of each object, in order, and what stands under them;
//! `specs/Grammar.antt` says which of these tables an object is of. `specs/Spots.antt` lists a
//! document as its places: an object before what stands under its keys, a list before its entries.
//! A row of a values node is a place without places inside.
//!
//! - `kind`, `words`: what stands at a place, and the words that tell one object from another
//! - `json`: look-ups in a JSON value
//! - `tables`, `inner_tables`, `grammar`: the grammar, of objects down to nodes, and of those inside nodes
//! - `place`, `walk`: the places of a document
#![tactic(auto)]

mod grammar;
mod inner_tables;
mod json;
mod kind;
mod place;
mod tables;
mod walk;
mod words;

pub use grammar::{element_of, has_entries, is_open, parts_of};
pub use json::{
    entries_count, entries_in, entries_under, has_entry, is_text, members_count, number_of,
    number_under, text_of, text_under,
};
pub use kind::Kind;
pub use place::Place;
pub use tables::Part;
pub use walk::places_of;
pub use words::{
    FormWord, OpWord, OutputWord, StepWord, form_of, op_named, op_of, output_named, output_of,
    step_named, step_of,
};
