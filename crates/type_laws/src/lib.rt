//! Values keep to their types, call by call and cast by cast: where the arguments of a call or of a
//! cast are of their types, what it gives is of the type of the call or of the cast. So the value of a
//! typed expression, on a row that has its columns' types, is of the expression's type.
//!
//! Types here are more than variants: a bigint has 64 bits, a decimal has no more digits than its type,
//! a text is not too long and a day is of the calendar. A call of one or two values of types that it
//! takes, and a cast that there is, never gives NULL where none of the values is NULL: so the cases of
//! the definitions that answer NULL for other values never apply.
//!
//! - `specs/Keeps.antt`: an outcome that keeps to a type, and an expression whose casts name types
//! - `laws`: what follows from the definitions
#![tactic(auto)]

mod laws;

pub use laws::{
    calls_of_one_keep_types, calls_of_two_keep_types, calls_of_values_give_values,
    casts_keep_types, casts_of_values_give_values, typed_calls_of_values_give_values,
    typed_casts_of_values_give_values, typed_expressions_keep_types, typed_rows_fit,
};
