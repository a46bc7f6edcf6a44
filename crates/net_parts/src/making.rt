//! What the drivers of a layout are made of.
use pipe_stages::{FilterCells, JoinCells, PipeTypes};
use plan_layout::Pipe;
use seat_stocks::Lanes;
use sql_values::Table;
use std::alloc::Global;

/// What the drivers of a layout are made of, but for seats.
#[derive(Drop)]
pub struct Making<'a, 'w> {
    pub alloc: Global,
    /// The layout.
    pub pipes: &'a [Pipe<'a>],
    /// The types of its pipes.
    pub types: &'a [PipeTypes],
    /// The tables that its scans read.
    pub tables: &'w [Table],
    /// The cells in which the right sides of joins are published.
    pub cells: &'a JoinCells<'w>,
    /// And those of dynamic filters.
    pub filters: &'a FilterCells<'w>,
    /// Where the seats of each edge are in the stock.
    pub lanes: &'a Lanes,
    /// The most rows of a split, at least 1.
    pub split: u32,
    /// The most rows of a page, from 1 to 8192.
    pub page: u32,
    /// The number under which couriers deliver.
    pub replay: u64,
}
