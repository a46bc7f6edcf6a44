//! Laws of the texts of values and of types.
//!
//! - `laws`: `parsed_values_have_types`: the value that a text writes has the type that the text was
//!   read as, its range included: a number within 64 bits, a decimal within the digits of its type, a
//!   text that is not too long, a day of the calendar. `named_types_are_types`: a text names no type
//!   but one whose digits are within bounds.
#![tactic(auto)]

mod laws;

pub use laws::{named_types_are_types, parsed_values_have_types};
