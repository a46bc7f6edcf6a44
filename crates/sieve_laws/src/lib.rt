//! The pipes of a plan that runs with dynamic filters, as laws of lists: no code and no thread.
//!
//! As `pipe_laws` has them, but that a driver of a scan may have lost rows: what its filters let through is what its other
//! operators took, and what they lost is held back by a sieve of a join above (`StandsLosing` in
//! `specs/LosingPipes.antt`). A join is sure of its sieves: where one holds anything back, its right side is whole in all
//! tasks, and that has no partner there. What follows is what follows of pipes that lost nothing: where all are over, the
//! rows of the root are a list that the plan's tree allows, and where an operator failed, its node may fail with this kind.
//!
//! From the bottom:
//!
//! - `filters`: the first operators of a driver may be filters (`specs/FilterLanes.antt`). What they let through is what the
//!   others took, and what they lost is held back by the sieves of the domains that they know
//! - `joins`: a join is sure of the sieves of the domains that are known of its right side (`specs/KnownDomains.antt`), and
//!   they come down to the scans from which their columns come (`specs/ComingDown.antt`)
//! - `laws`: what follows for all pipes of a run
#![tactic(auto)]

mod filters;
mod joins;
mod laws;

pub use filters::{
    filter_ops_drop, filtered_scans_stand, filters_let_rows_through, filters_never_fail,
    operators_are_cut_in_two,
};
pub use joins::{
    arriving_sieves_come_down, known_domains_are_sure, known_domains_arrive, own_sieves_arrive,
    parts_make_the_domain,
};
pub use laws::{
    fitting_runs_are_typed, pipes_that_lost_nothing_stand, pipes_that_lost_rows_fail,
    pipes_that_lost_rows_give,
};
