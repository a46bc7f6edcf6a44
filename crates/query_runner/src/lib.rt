//! `run`, the top call: what the arguments of a command line ask for, done over the files and the sinks that it is given.
//!
//! What `run` promises is its contract, by the definitions of `specs/Answers.antt`: for every command line
//! and all that the files say, status 0 means that what was written is the text of a list of rows
//! that the plan's tree allows over its tables, and each other status but want of memory has its
//! cause.
//!
//! - `words`: the arguments that the system gives
//! - `documents`: those of a demo, in the place of files
//! - `load`: the plan and its tables, from files
//! - `top`: `run`
//! - `results`: the text of what a plan gives, and `writing`: how it is written
//! - `lines`: the line that is written for each answer, and `counts`: those of the counts of filters
//! - `status`: the answers, and the exit status of each
#![tactic(auto)]

mod counts;
mod documents;
mod lines;
mod load;
mod results;
mod status;
mod top;
mod words;
mod writing;

pub use lines::tell_first;
pub use load::{ROW_LIMIT, files_of, load_plan, load_tables};
pub use results::{PlanResult, result_alone, result_of};
pub use status::Status;
pub use task_executor::{FilterPassed, PassedList, Shape};
pub use top::{run, shape_of};
pub use words::words_of;
