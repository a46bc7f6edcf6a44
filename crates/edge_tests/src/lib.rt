//! Tests of what threads share and of what carries pages between drivers and fragments: what no contract says of it, and rows
//! that were worked out by hand.
//!
//! - `cells`: of `set_once`, that an empty cell takes a value, and of eight threads one sets it
//! - `bells`: of `blocked`, who is kept at a bell, that a board lends the bell of the number, and that a future is
//!   ready once it was rung
//! - `splits`: of `split_source`, that seats on one thread and on eight draw each number once, and that a scan
//!   gives each row once, whatever the sizes of splits and pages
//! - `pools`, `actors`: of `worker_pool`, how runs of small casts end on one worker and on more, and in which order one
//!   worker gives turns
//! - `turns`: of `feedback_queue`, whole sequences of offers and takes
//! - `edges`: of `output_buffer`, that an edge refuses and gives pieces as it has room
//! - `threads`, `shares`: that four threads over one gather, and over one spread, lose nothing
//! - `partitions`: the pages of the parts and the rows that each has, by buckets that were computed elsewhere
//! - `rows`: what a window, a client and a fetch answer, as one table
//! - `fetches`: of `exchange_client`, what arrives under couriers that repeat and lose replies
//! - `numbered`, `pieces`: pages that hold a number each, and what calls of seats answer
//! - `put_rows`: what targets of one edge and of several put, call by call, on edges that have little room
//! - `deal_rows`: the same of a target of many takers, and of what these take
//! - `fetch_rows`: the same of a source that fetches, with couriers that miss turns
//! - `counted`: bells that count, and pages that hold a number each
#![tactic(auto)]

#[cfg(test)]
mod actors;
#[cfg(test)]
mod bells;
#[cfg(test)]
mod cells;
#[cfg(test)]
mod counted;
#[cfg(test)]
mod deal_rows;
#[cfg(test)]
mod edges;
#[cfg(test)]
mod fetch_rows;
#[cfg(test)]
mod fetches;
#[cfg(test)]
mod numbered;
#[cfg(test)]
mod partitions;
#[cfg(test)]
mod pieces;
#[cfg(test)]
mod pools;
#[cfg(test)]
mod put_rows;
#[cfg(test)]
mod rows;
#[cfg(test)]
mod shares;
#[cfg(test)]
mod splits;
#[cfg(test)]
mod threads;
#[cfg(test)]
mod turns;
