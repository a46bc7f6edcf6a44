//! The texts of booleans, whole numbers, decimals and dates: what is accepted, and what is
//! printed.
//!
//! Each reader equals its definition, and each printer appends the text of its definition:
//! `specs/Booleans.antt`, `specs/Numbers.antt`, `specs/Decimals.antt`, `specs/Dates.antt`. Where memory was wanting a
//! printer has appended a beginning of the text. What is printed reads back as the same number.
//!
//! - `boolean`, `bigint`, `decimal`, `date`: a reader and a printer each, and the law that ties them
//! - `digits`, `powers`, `append`: what they are made of
#![tactic(auto)]

mod append;
mod bigint;
mod boolean;
mod date;
mod decimal;
mod digits;
mod powers;

pub use bigint::{bigint_reads_back, print_bigint, read_bigint};
pub use boolean::{boolean_reads_back, print_boolean, read_boolean};
pub use date::{FIRST_DAY, LAST_DAY, date_reads_back, print_date, read_date};
pub use decimal::{decimal_reads_back, print_decimal, read_decimal};
pub use digits::{number as read_number, short_number as read_short_number};
pub use powers::{MOST_DIGITS, power_of_ten};
