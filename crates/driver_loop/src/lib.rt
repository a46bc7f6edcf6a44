//! Drivers: one source, stages in order, one target, and turns that move pages along.
//!
//! A driver takes pages from its source, moves them from stage to stage and gives what the last one gives to
//! its target, a turn at a time. What its target was given is one list of rows, but for a target that spreads rows
//! over edges: of that it is any list of which each edge has what it has of one (`was_given`). What a driver promises
//! (`specs/Drivers.antt`) is what it keeps over its turns, each of some rows that its target was given:
//!
//! - `IsDriver`: what its stages took and gave goes on from the rows that it took of its source to those that
//!   it gave to its target; a stage was told to finish only where its giver was finished; its work is the
//!   number of rows that entered a stage or the target, and of asks in vain of a source that fetches, no more than its
//!   courier missed turns, up to the most that the count holds
//! - `IsOver`: where it is finished its source had ended, what it gave is what its stages, as they were made,
//!   may give for what it took, and nothing of it fails
//! - `HasFailed`: a driver that failed keeps its fault, which is one of a stage, as it was made, on what the
//!   stages before it gave, whatever rows still come
//! - `CanGoOn`: one that is not through, or failed on an expression, can go on, whatever rows still come and
//!   whatever the notes of its stages come to know
//! - `IsBuilt`: where its target builds the right side of a join, that was published where the driver is
//!   finished, and only there: the target's note knows the rows that it was given, and nothing before, unless its cell
//!   held another source; so it is of the domains of its filters. Where it puts to edges, these have every row and their
//!   Ends where the driver is finished, and only there
//!
//! A turn yields only once it counted its quantum of units, and counts fewer than that and the most rows of a
//! page. It is blocked only where a stage, the source or the target looked in this turn, in vain (`IsWaiting`); the
//! future that it hands out has registered with the turn's context. Each bell is rung as much more often, of the
//! bells that the turn was given, as more was taken and put. After want of memory nothing is said but
//! that memory was wanting.
//!
//! The turn in which the last stage is finished also closes the target. A build is frozen and published in its
//! cell, behind the domains of its filters in theirs, and the bell of each cell is rung; where a cell has another source or
//! domain, it waits there. Edges get an End behind their pages, as each has room.
//!
//! A driver hands back the seats of its source and target: what a seat put is what it has of the first of the rows that
//! the target was given, and of a finished driver all of them (`specs/Seats.antt`). It hands back the notes of all cells
//! that it looked into or published in. What notes of one cell know is the same (`SetNote::agree` of `set_once`), so that
//! what one driver published is what others probed. Beside them it hands back how many rows passed each of its dynamic
//! filters. These lists have their memory from the start, so that a driver can always be taken apart.
//!
//! - `source`: `Source`, where pages come from. A scan of claimed splits, rows of the plan (`rows_source`), or an edge, at
//!   once or through a fetch. It is seen without its courier (`specs/Sources.antt`)
//! - `stage`: `Stage`, the operators, one variant each. It behaves as its operator does, by one table of them
//!   (`specs/Operators.antt`, and `specs/StageLaws.antt` for the laws). It expects pages of the operator's types, and the
//!   second half of an aggregate also a partial row behind each key
//! - `target`: `Target`, where pages go to. The rows of a result (`ResultTarget`) are kept as the pages in which
//!   they came; others go to edges
//! - `build`: `BuildTarget`, which keeps them as the source of a join (`specs/Builds.antt`)
//! - `build_filter`: `BuildFilter`, which keeps the domain of a column of them for a dynamic filter of the join
//!   (`specs/BuildFilters.antt`)
//! - `step`: a turn of these parts
//! - `driver`: `Driver`. `turn`: what a turn answers. `pieces`: what a driver hands back. `notes`: how the
//!   notes and counts of its stages come into lists
//! - `run_fault`: `RunFault`, why a run gave up
#![tactic(auto)]

mod build;
mod build_filter;
mod driver;
mod notes;
mod pieces;
mod rows_source;
mod run_fault;
mod source;
mod stage;
mod step;
mod target;
mod turn;

pub use build::BuildTarget;
pub use build_filter::BuildFilter;
pub use driver::Driver;
pub use pieces::{CellNote, FilterCellNote, Pieces};
pub use rows_source::RowsSource;
pub use run_fault::RunFault;
pub use source::Source;
pub use stage::Stage;
pub use target::{ResultTarget, Target};
pub use turn::Turn;
