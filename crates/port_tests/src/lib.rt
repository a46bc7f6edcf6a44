//! Tests of the crates at the outside of a run: a module for each, over its public items alone.
//!
//! - `ports`: files, sinks, couriers and meetings of `run_ports`
//! - `words`: the arguments of `command_line`, and what they ask for
//! - `tables`: texts in CSV, read and printed by `csv_tables`
//! - `parts`: the same texts, read as parts by `table_parts`
//! - `texts`: results, printed by `csv_tables` and as parts by `table_parts`
//! - `demo`: the documents of `demo_documents`
#![tactic(auto)]

#[cfg(test)]
mod demo;
#[cfg(test)]
mod parts;
#[cfg(test)]
mod ports;
#[cfg(test)]
mod tables;
#[cfg(test)]
mod texts;
#[cfg(test)]
mod words;
