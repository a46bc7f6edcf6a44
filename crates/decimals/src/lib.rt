//! Decimals of up to 38 digits, and their exact arithmetic.
//!
//! A decimal is an unscaled number with a precision and a scale. Each operation gives the exact
//! result, or is out of range exactly where `specs/Arithmetic.antt` has no number.
//!
//! - `decimal`: the type
//! - `digits`: powers of ten, and numbers of so many digits
//! - `exact`: the operations over unscaled numbers
#![tactic(auto)]

mod decimal;
mod digits;
mod exact;

pub use decimal::{Decimal, OutOfRange};
