//! What operators mean in a plan: the bridge from what a driver knows of its operators, as they were
//! made (`operator_core`), to the stages of the plan's pipeline (`plan_run_laws`).
//!
//! `Means g m taken pipeline given` says that the operator `m`, over rows of the types `taken`, is the
//! stages of `pipeline`, each with its node: what it gives where nothing fails is what they make; where
//! it stands in the middle of its rows they can go on; and a failure that it may have is one of theirs,
//! at their node. It holds of the operator by itself, with what its note knows, and for any `Operator`.
//! From there on it is a matter of lists:
//!
//! - `laws::finished_drivers_make`: what operators gave, one after the other, the stages make
//! - `laws::drivers_can_go_on`: wherever the operators stand, the stages can go on
//! - `laws::failed_drivers_fail`: the failure of one is a failure in the pipeline
//! - `laws::filters_mean`, `laws::projects_mean`: one that judges row by row, and stops at its first
//!   failing row, is a filter where it gives all columns, and a project where it has no predicate
//! - `laws::orders_mean`: one that gives what a step makes of all its rows that chooses and orders them, and never
//!   fails, is that step
//! - `laws::groupings_mean`: one that gives the rows of groups, and fails as one of them does, is a grouping
//! - `laws::partials_mean`, `laws::finals_mean`: likewise the halves of a grouping
//! - `laws::acting_operators_mean`: one that does what another does means the same
//! - `row_stages`: the operators of filters and projects, made of their expressions
//! - `aggregate_stages`: the operators of aggregates
//!
//! `specs/Pipelines.antt` has stages with their nodes and a failure among them, `specs/Meanings.antt`
//! what an operator means, `specs/RowMeanings.antt` operators that judge row by row, or choose and order rows,
//! `specs/GroupMeanings.antt` operators that make groups.
#![tactic(auto)]

mod aggregate_stages;
mod laws;
mod row_stages;

pub use aggregate_stages::{final_of, partial_of, single_of};
pub use laws::{
    acting_operators_mean, drivers_can_go_on, failed_drivers_fail, filters_mean, finals_mean,
    finished_drivers_make, groupings_mean, orders_mean, partials_mean, projects_mean,
};
pub use row_stages::{filter_of, project_of};
