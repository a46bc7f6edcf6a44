//! What is known of the layout of a plan, and of its drivers once all were taken apart, as laws: no code and no thread.
//!
//! From the bottom:
//!
//! - `pipes`: the layout of a plan. `drivers_are_numbered`, `edges_are_numbered`: from 0 on, task by task. `pipes_have_drivers`:
//!   each pipe has the tasks of its fragment, and so many drivers as may run it. `sources_are_fetched_once`: at most one pipe
//!   fetches for another. `fragments_are_read`: each fragment but the first is read by one pipe, and its root gives its rows to
//!   this one. `pipes_run_plans`: the pipes run the plan as it runs. `pipes_are_reached`: and each pipe that does not
//!   fetch is one of these. `unions_have_two_sides`, `readers_have_one_root`: what gives to a union is one of its two
//!   sides, and what gives to a pipe that reads a fragment is the pipe of that fragment's root. `results_have_one_driver`:
//!   one pipe gives the result, by one driver
//! - `joins`: what the laws of runs with dynamic filters ask of a plan, shown of every plan that was read. `sieve_laws` speaks
//!   of any run whose scans are apart, of a join that is in the run and has sieves of its own by its id, and of a column of its
//!   left side that comes from a scan. A plan that was read is consistent (`read_plans_are_consistent` of `plan_link_laws`),
//!   and from that: `scans_are_apart` and `joins_are_apart`: no two scans of the run have one id, and no two joins
//!   (`specs/JoinIds.antt`). `joins_are_in_runs`: the run has each join of the plan, over the left side that the plan gives it.
//!   `filters_reach_in_runs`: each dynamic filter is one of an inner join of the run, and its column comes there from the
//!   column of the scan that the filter names (`specs/RunJoins.antt`); so `named_scans_are_reached`: the domain that is known
//!   of it arrives there. `built_filters_reach`, `joins_are_built`, `pipes_are_apart`, `scan_filters_reach`: in the layout of
//!   such a plan a pipe builds the right side of each join, one for each, and the filters of a scan are those of the joins' that
//!   reach it (`specs/BuiltFilters.antt`). `filter_ids_rise`: the ids of a scan's filters are different ones, in ascending order
//! - `keys`, `operators`, `counts`: the counts of dynamic filters, as laws of lists. A filter that is waited for counts the rows
//!   that it lets through at its scan. The rows that come to it went through the filters of the scan with lesser ids, of which some
//!   may not be waited for: such a one drops what it can, and lets the rest through. So in all drivers together the filter
//!   counts at most the rows of the table that pass each of those up to it that are waited for, and at least those that pass each
//!   of them (`IsCountOf` in `specs/ScanFilters.antt`). `keys`: the domain of a join's keys passes what passes the keys: one of
//!   them or, where these are many, what lies from the least to the greatest (`passes_keys` in `specs/Keys.antt`). Their order makes
//!   no difference. `operators`: `FilterOp` is the operator of a filter, as `IsOperatorOf` of `specs/FilterStages.antt` has it. One
//!   that waits drops exactly the rows that do not pass. `counts`: what the filters in front of one driver's stages let through,
//!   how many rows they count in all drivers of all tasks, and which filters of a scan these are
//! - `sources`: what the drivers of a pipe took together of its source, as a run is composed of it
//!   (`specs/Takes.antt`): `tables_pass`, `rows_pass`, `unions_pass`, `fragments_pass`, of a table, of rows of the plan, of
//!   the two pipes that give to a union, and of the pipe of a fragment's root. Which pipes these are is a premise on the
//!   layout (`specs/Giving.antt`). `rows_flowed`: there are rows that flowed through the drivers
//! - `lanes`: the drivers as lanes of their pipes. `pipes_are_typed`: a pipe takes and gives rows of the types of the plan
//!   that it runs; `stages_are_made`: the stages of its drivers were made for the nodes of that plan; `notes_follow`: what
//!   their notes know of the right sides of joins is what the pipes of these gave; `pipes_stand`, `pipes_give_typed_rows`:
//!   they are the lanes of that plan, and give rows of its types; `turns_keep_drivers`, `turns_follow_turns`: what turns
//!   leave of the drivers (`specs/Later.antt`). `specs/Along.antt` has what is said of the joins of a pipe and the bells of
//!   their cells, `specs/Halves.antt` the first halves of operators
//! - `filters`: `filters_know_right_sides`: what a dynamic filter in front of a scan's driver knows is the domain of the rows
//!   of its join's right side, in all tasks
//! - `stands`: `pipes_stand_together`: the pipes of a layout that runs a plan (`RunsAs` in `specs/RunPipes.antt`), whose drivers are
//!   made of the parts of their pipes (`AreDriversOf` of `driver_net_laws`) and whose seats came back, stand, one below the other,
//!   as a net of pipes whose scans may have lost rows (`StandsLosing` of `sieve_laws`); `nets_give`: where all drivers are
//!   finished, the plan's answer; `nets_fail`: where one failed, a failure of the plan, and `nets_without_filters_fail`: so it is
//!   where a stage fails and its pipe has no dynamic filter. `specs/Standing.antt` says it of one pipe,
//!   `specs/Sifted.antt` what it asks of the stages in front of those of scans, and `specs/Throughout.antt` has what is said
//!   of all scans and joins of a run
//! - `plans`: the same of the layout of a consistent plan: `layouts_are_tidy`, `plan_filters_reach`, `plans_give`,
//!   `plans_fail`, `plans_without_filters_fail`. `specs/Tidy.antt`: what is asked of a layout besides that it runs the plan;
//!   `specs/Filtered.antt`: what is asked of its dynamic filters
//! - `plan_counts`: how many rows the dynamic filters of a plan let through at its scans, over all drivers of a layout. Here the keys
//!   are those of a plan that runs: what a stage knows of a filter is the domain of the rows that the right side of the filter's
//!   join gave in all tasks. These are a list that the right side may list: each row once, or, where each task has all of them, as
//!   often as there are tasks, which makes no difference to a domain. `plans_count`, and of it `filters_are_counted`, which
//!   says it of the plan's filters, with no word of pipes; `filters_have_places`: the layout leaves out none of them.
//!   `specs/RightSides.antt`: the right sides of the joins of a tree, and the tables of its scans; `specs/PlanCounts.antt`: the
//!   filters of a pipe's scan as those of the plan's joins, and what the drivers counted; `specs/PlanFilters.antt`: the dynamic
//!   filters of a plan, their places in a layout, and what a count of one is
//! - `layouts`: `layouts_fit`: the drivers of the layout of a consistent plan can be made, over tables of the columns that
//!   it declares: expressions have types, calls can be made, and sources can be read
#![tactic(auto)]

mod counts;
mod filters;
mod joins;
mod keys;
mod lanes;
mod layouts;
mod operators;
mod pipes;
mod plan_counts;
mod plans;
mod sources;
mod stands;

pub use counts::{
    counts_are_exact_where_all_wait, counts_see_no_order_of_keys, filters_count_the_rows,
    filters_in_front_let_through, filters_up_to_an_id_come_first, first_filters_are_done,
    the_last_filter_took_and_gave,
};
pub use filters::filters_know_right_sides;
pub use joins::{
    built_filters_reach, filter_ids_rise, filters_reach_in_runs, joins_are_apart, joins_are_built,
    joins_are_in_runs, named_scans_are_reached, scan_filters_reach, scans_are_apart,
};
pub use keys::{domains_pass_as_keys, keys_pass_in_any_order};
pub use lanes::{
    notes_follow, pipes_are_typed, pipes_give_typed_rows, pipes_stand, stages_are_made,
    turns_follow_turns, turns_keep_drivers,
};
pub use layouts::layouts_fit;
pub use operators::{filter_ops_are_of_filters, waiting_filter_ops_drop_exactly};
pub use pipes::{
    drivers_are_numbered, edges_are_numbered, fragments_are_read, pipes_are_reached,
    pipes_have_drivers, pipes_run_plans, readers_have_one_root, results_have_one_driver,
    sources_are_fetched_once, unions_have_two_sides,
};
pub use plan_counts::{filters_are_counted, filters_have_places, plans_count};
pub use plans::{
    layouts_are_tidy, plan_filters_reach, plans_fail, plans_give, plans_without_filters_fail,
};
pub use sources::{fragments_pass, rows_flowed, rows_pass, tables_pass, unions_pass};
pub use stands::{nets_fail, nets_give, nets_without_filters_fail, pipes_stand_together};
