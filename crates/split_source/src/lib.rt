//! Splits of a table: how its rows are cut, who reads which of them, and what a scan gives.
//!
//! A table is read in splits, runs of `size` rows with the last one shorter. Readers on any thread
//! share the split numbers out among them: each draws the next one from one shared word.
//!
//! - `splits`: `split_count` and `split_range`, and that the ranges cut the rows, each row in one
//! - `claims`: `Claims`, the word that hands out numbers, with the rule that no number is drawn
//!   twice and none is left out (`specs/Claims.antt`). Where memory for the seats is wanting, `ready`
//!   leaves the claims as they were
//! - `claim_seat`: `ClaimSeat`, one reader's right to draw. A claim is one atomic step
//! - `scan_source`: `ScanSource`, which gives the rows of its seat's splits in pages
//! - `settle`: `settle_claims` and `stop_claims`, which say what all seats together drew
#![tactic(auto)]

mod claim_seat;
mod claims;
mod draws;
mod scan_source;
mod settle;
mod splits;

pub use claim_seat::ClaimSeat;
pub use claims::{Claims, ReadyClaims};
pub use draws::{Counts, Drawn};
pub use scan_source::ScanSource;
pub use settle::{settle_claims, stop_claims};
pub use splits::{split_count, split_range, splits_cut_the_rows};
