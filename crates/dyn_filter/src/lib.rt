//! Dynamic filters: what the build side of a join has learned of its key spares the scan of the other side the rows that
//! have no partner.
//!
//! - `domain`: `Domain`, what is kept of the values of a column: nothing, each value up to 1 000 of them, and else the
//!   least and the greatest. A value that was there passes, and NULL never does (`specs/Domains.antt`)
//! - `value_list`: `ValueList`, values in ascending order, each once
//! - `spans`: the lesser and the greater of values
//! - `builder`: `DomainBuilder`, which takes values in, one by one or a column of a page at a time
//! - `cell`: `FilterCell`, in which each build task publishes the domain of its rows, and others find the domain of all.
//!   Each part is set once, with notes, and no call waits (`specs/Cells.antt`)
//! - `note`: `FilterNote`, what one driver knows of the parts
//! - `fault`: `FilterPublishFault`, why a domain was not kept
//! - `hashed`: `HashedDomain`, a domain whose values are found by their hash, over a column of a page (`specs/Slots.antt`)
//! - `filter`: `FilterOp`, an operator that drops the rows whose value does not pass. It waits for the domain, or passes
//!   every row on until it knows it (`specs/Filters.antt`)
//! - `laws`: a row whose value does not pass has no partner
#![tactic(auto)]

mod builder;
mod cell;
mod domain;
mod fault;
mod filter;
mod hashed;
mod laws;
mod note;
mod spans;
mod value_list;

pub use builder::DomainBuilder;
pub use cell::FilterCell;
pub use domain::Domain;
pub use fault::FilterPublishFault;
pub use filter::FilterOp;
pub use laws::{a_lost_row_has_no_partner, a_value_that_was_there_passes};
pub use note::FilterNote;
pub use value_list::{MOST_VALUES, ValueList};
