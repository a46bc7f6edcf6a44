//! How many rows passed the dynamic filters that are waited for.
ghost use Rattle.std.specs.Prelude.{◌≡◌, ◌++◌, ◌∷◌, [], List, IfOk, IsTrue, OnOk, Some, map, slice_get};
ghost use Rattle.std.specs.List.Sorted.{IsPermutation, IsStrictlyIncreasing};
ghost use Rattle.driver_loop.specs.Drivers.{DriverState};
ghost use Rattle.driver_loop.specs.Turns.{passed_of};
ghost use Rattle.driver_net_laws.specs.Settled.{of_lane};
ghost use Rattle.plan_layout.specs.Filters.{scan_filters};
ghost use Rattle.plan_layout.specs.Pipes.{pipe_view};
ghost use Rattle.net_closing.specs.Left.{HoldsPassed, at_place};
ghost use Rattle.net_closing.specs.Counts.{AreCounts, counts_from, counts_of, filters_in, rows_in_task, rows_passed};

use plan_layout::{Pipe, PlacedFilter, scan_filters};
use sql_values::{Items, Memory};
use std::alloc::Global;

/// How many rows passed a dynamic filter.
#[derive(Clone, Copy)]
pub struct FilterPassed {
    /// The filter's id.
    pub filter: u32,
    pub rows: u64,
}

/// By ascending id.
pub type PassedList = Items<FilterPassed>;

/// The rows that passed each dynamic filter that is waited for.
pub(crate) fn count_filters(
    alloc: Global,
    layout: &[Pipe<'_>],
    passed: &[Vec<u64>],
) -> Result<PassedList, Memory>
    ensures { IfOk result (λ counts. (drivers : List DriverState) → HoldsPassed drivers passed.now
        → AreCounts (map pipe_view layout.now) drivers counts) }
{
    let mut counts = Vec::new(alloc);
    count_scans(alloc, layout, passed, &mut counts)?;
    by_ids(counts)
}

/// Puts them in the order of their ids. An id that comes twice is answered with want of memory.
fn by_ids(mut counts: Vec<FilterPassed>) -> Result<PassedList, Memory>
    ensures same { IfOk result (λ sorted. IsPermutation counts.items sorted) }
    ensures ascending { IfOk result (λ sorted. IsStrictlyIncreasing (filters_in sorted)) }
{
    counts.sort_by_key(|count| count.filter)?;
    if !are_ascending(counts.as_slice()) {
        return Err(Memory);
    }
    Ok(Items::of(counts))
}

/// Whether each id is above the one before it.
fn are_ascending(counts: &[FilterPassed]) -> bool
    ensures { IsTrue result → IsStrictlyIncreasing (filters_in counts.now) }
{
    for place in 1..counts.len() {
        if counts[place].filter <= counts[place - 1].filter {
            return false;
        }
    }
    true
}

/// Counts those of all pipes.
fn count_scans(
    alloc: Global,
    layout: &[Pipe<'_>],
    passed: &[Vec<u64>],
    counts: &mut Vec<FilterPassed>,
) -> Result<(), Memory>
    ensures { OnOk result ((drivers : List DriverState) → HoldsPassed drivers passed.now
        → counts.new.items ≡ counts.old.items ++ counts_of (map pipe_view layout.now) drivers) }
{
    for at in 0..layout.len() {
        count_scan(alloc, layout, &layout[at], passed, counts)?;
    }
    Ok(())
}

/// Counts those of the scan of one pipe.
fn count_scan(
    alloc: Global,
    layout: &[Pipe<'_>],
    pipe: &Pipe<'_>,
    passed: &[Vec<u64>],
    counts: &mut Vec<FilterPassed>,
) -> Result<(), Memory>
    ensures { OnOk result ((drivers : List DriverState) → HoldsPassed drivers passed.now
        → counts.new.items ≡ counts.old.items ++ counts_from drivers (pipe_view pipe.now) 0
        (scan_filters (map pipe_view layout.now) (pipe_view pipe.now))) }
{
    let filters = scan_filters(alloc, layout, pipe)?;
    count_all(pipe, filters.as_slice(), passed, counts)
}

/// Counts these filters of its scan.
fn count_all(
    pipe: &Pipe<'_>,
    filters: &[PlacedFilter],
    passed: &[Vec<u64>],
    counts: &mut Vec<FilterPassed>,
) -> Result<(), Memory>
    ensures { OnOk result ((drivers : List DriverState) → HoldsPassed drivers passed.now
        → counts.new.items ≡ counts.old.items ++ counts_from drivers (pipe_view pipe.now) 0 filters.now) }
{
    for place in 0..filters.len() {
        count_filter(pipe, place, filters[place], passed, counts)?;
    }
    Ok(())
}

/// Counts the filter at a place, if it is waited for.
fn count_filter(
    pipe: &Pipe<'_>,
    place: usize,
    filter: PlacedFilter,
    passed: &[Vec<u64>],
    counts: &mut Vec<FilterPassed>,
) -> Result<(), Memory>
    ensures { OnOk result ((drivers : List DriverState) → HoldsPassed drivers passed.now
        → counts.new.items ≡ counts.old.items ++ counts_from drivers (pipe_view pipe.now) place (filter ∷ [])) }
{
    if filter.filter.wait {
        let rows = rows_passed(pipe, place, passed)?;
        counts.push(FilterPassed {
            filter: filter.filter.id,
            rows,
        })?;
    }
    Ok(())
}

/// How many rows passed the filter at a place in all drivers of a pipe.
fn rows_passed(pipe: &Pipe<'_>, place: usize, passed: &[Vec<u64>]) -> Result<u64, Memory>
    ensures { IfOk result (λ rows. (drivers : List DriverState) → HoldsPassed drivers passed.now
        → rows ≡ rows_passed drivers (pipe_view pipe.now) place) }
{
    let mut rows: u64 = 0;
    for task in 0..pipe.tasks {
        rows = rows.saturating_add(rows_in_task(pipe, place, passed, task)?);
    }
    Ok(rows)
}

/// How many passed it in the drivers of one task.
fn rows_in_task(
    pipe: &Pipe<'_>,
    place: usize,
    passed: &[Vec<u64>],
    task: u32,
) -> Result<u64, Memory>
    ensures { IfOk result (λ rows. (drivers : List DriverState) → HoldsPassed drivers passed.now
        → rows ≡ rows_in_task drivers (pipe_view pipe.now) place task) }
{
    let mut rows: u64 = 0;
    for lane in 0..pipe.drivers {
        rows = rows.saturating_add(rows_in_lane(pipe, place, passed, task, lane)?);
    }
    Ok(rows)
}

/// How many passed it in one driver.
fn rows_in_lane(
    pipe: &Pipe<'_>,
    place: usize,
    passed: &[Vec<u64>],
    task: u32,
    lane: u32,
) -> Result<u64, Memory>
    ensures { IfOk result (λ rows. (drivers : List DriverState) → HoldsPassed drivers passed.now
        → of_lane (at_place passed_of place) drivers (pipe_view pipe.now) task lane ≡ rows ∷ []) }
{
    let number = pipe.number(task, lane)? as usize;
    if number >= passed.len() {
        return Err(Memory);
    }
    count_at(&passed[number], place)
}

/// The count at a place.
fn count_at(counts: &Vec<u64>, place: usize) -> Result<u64, Memory>
    ensures { IfOk result (λ rows. slice_get counts.now.items place ≡ Some rows) }
{
    match counts.get(place) {
        Some(rows) => Ok(*rows),
        None => Err(Memory),
    }
}
