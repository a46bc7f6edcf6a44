//! Runs whose scans lost rows by dynamic filters: such a run answers like one of all rows, as laws of plain lists.
//!
//! A join holds back, by sieves over columns of its left side, what has no partner on its right (`specs/Sieves.antt`). A
//! sieve goes down as long as nothing can fail and its column stays one, and the scan below may lose what it holds back.
//! Along the way the tasks' rows with the lost ones are those of a run that lost none, and at the join the lost ones give
//! nothing.
//!
//! - `specs/Runs.antt`: what the tasks gave at each node; `specs/Nets.antt`, `Stops.antt`, `Faults.antt`: the drivers, a run
//!   that something stopped, and a driver that failed in it, as `plan_run_laws` has them but for scans and joins
//! - `specs/Arrivals.antt`: which sieves come down to a scan: they go the way of `origin_of`
//! - `specs/Domains.antt`: the sieves of dynamic filters, and what filters one behind the other lose
//! - `laws`: what follows
#![tactic(auto)]

mod laws;

pub use laws::{
    domains_hold_back_what_is_alone, drivers_that_lost_rows_compose,
    failures_with_lost_rows_compose, filters_lose_what_is_held_back, lost_rows_are_put_back,
    sieves_come_down_to_their_scans,
};
