//! Aggregation: the rows of each group of rows become one, its key and the results of calls over it.
//!
//! A group is kept as its key and its partial row, and each row that comes is merged in. What the operators
//! may give is stated over these partial rows (`specs/Alike.antt`, `specs/Held.antt`): with rows still to
//! come it is what they give together, and that is what grouping all rows gives.
//!
//! - `single`: `SingleAgg` takes rows and gives the results of their groups
//! - `partial`, `final_agg`: the two halves. `PartialAgg` takes rows and gives the keys and partial rows of their
//!   groups; `FinalAgg` takes such rows, of any pieces of the groups, and gives the results. The rows between them have
//!   the layout of `plan_trees` (`Layouts.antt`)
//! - `group_rows`: `GroupRows`, what the operators share: groups, and the rows left of them once the output has
//!   begun
//! - `table`: `GroupTable`, the groups, found by their keys
//! - `left`: `LeftRows`, rows that are still to be given, in pages
#![tactic(auto)]

mod final_agg;
mod group_rows;
mod left;
mod partial;
mod single;
mod table;

pub use final_agg::{FinalAgg, FinalGroups, final_op};
pub use group_rows::GroupRows;
pub use left::LeftRows;
pub use partial::{PartialAgg, PartialGroups, partial_op};
pub use single::{SingleAgg, SingleGroups, single_op};
pub use table::GroupTable;
