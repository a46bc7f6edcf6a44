use dyn_filter::FilterNote;
use hash_join::LookupNote;
use operator_core::HeldPages;
use output_buffer::{GatherPut, GatherTake, SpreadPut, SpreadTake};
use split_source::ClaimSeat;

/// What a driver hands back at its end.
#[derive(Drop)]
pub struct Pieces<'w> {
    pub number: u32,
    /// The seat by which it claimed splits, where its source is a scan.
    pub claim: Option<ClaimSeat<'w>>,
    /// The seat by which it took from an edge that was its own.
    pub gather_take: Option<GatherTake<'w>>,
    /// The seat by which it took from an edge of many takers.
    pub spread_take: Option<SpreadTake<'w>>,
    /// The seats by which it put to edges of one taker.
    pub puts: Vec<GatherPut<'w>>,
    /// The seat by which it put to an edge of many takers.
    pub deal: Option<SpreadPut<'w>>,
    /// What its target was given, where it is a result.
    pub rows: HeldPages,
    /// The notes of its stages in their order, and then that of its target.
    pub lookups: Vec<CellNote>,
    /// The notes of dynamic filters: those of its stages in their order, and then those of its target.
    pub filters: Vec<FilterCellNote>,
    /// How many rows each of its dynamic filters gave, in their order.
    pub passed: Vec<u64>,
}

/// What was learned of a cell, and the number of the cell's bell.
#[derive(Drop)]
pub struct CellNote {
    pub bell: u32,
    pub note: LookupNote,
}

/// What was learned of a dynamic filter's cell, and the number of the cell's bell.
#[derive(Drop)]
pub struct FilterCellNote {
    pub bell: u32,
    /// The part of the cell in which the driver publishes; none where it only looks.
    pub part: Option<u32>,
    pub note: FilterNote,
}
