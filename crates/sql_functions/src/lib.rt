//! The operations of expressions on values that are known: each call and each cast gives the value
//! or the failure of its definition.
//!
//! Where an argument is NULL the result is NULL, but for `is_null` and `is_distinct`. An operation
//! that gets values of other types than it takes gives NULL too.
//!
//! - `name`: the names of the calls
//! - `truth`: three-valued logic, by `specs/Truth.antt`
//! - `compare`: comparisons, by `specs/Comparison.antt`
//! - `bigint`, `decimal`, `arithmetic`: numbers, by `specs/Bigints.antt`, `specs/DecimalNumbers.antt`
//!   and `specs/Arithmetic.antt`; decimals cite the definitions of `decimals`
//! - `texts`, `dates`, `like`, `casts`: by `specs/TextCalls.antt`, `specs/DateCalls.antt`,
//!   `specs/Like.antt` and `specs/Casts.antt`
//! - `calls`, `call_types`: calls by their names, and the types that they take and give
//! - `laws`: what follows from the definitions
#![tactic(auto)]

mod arithmetic;
mod bigint;
mod call_types;
mod calls;
mod casts;
mod compare;
mod dates;
mod decimal;
mod laws;
mod like;
mod name;
mod texts;
mod truth;

pub use call_types::{call_type, can_cast, same_type, takes_types};
pub use calls::{binary, unary};
pub use casts::cast;
pub use laws::{
    cast_to_text_reads_back, comparisons_with_null_are_null, distinct_values_are_not_the_same,
    opposites_of_truth,
};
pub use name::CallName;
pub use truth::{is_false, is_null, is_true, truth_and, truth_or};
