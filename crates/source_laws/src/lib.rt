//! What the drivers of a pipeline take together of its source, as laws of plain lists: no code and no thread.
//!
//! A source is a table, whose splits several scans claim (`specs/Scans.antt`), rows of the plan, or an edge, into which
//! other drivers put (`specs/Edges.antt`). Of each the laws say what a run needs (`Hop` of `plan_run_laws`): what its takers were
//! given is part of what there was to take, and all of it where all of them have ended. Of an edge each putter was then
//! told to finish.
//!
//! - `laws`: scans, rows of the plan, edges of one taker, at once or through a fetch, and edges of many takers behind a
//!   driver that deals out what it took; and what the outlets of a target were given of its rows
#![tactic(auto)]

mod laws;

pub use laws::{
    dealt_edges_pass, fetched_edges_pass, local_edges_pass, outlets_send, rows_pass, scans_pass,
};
