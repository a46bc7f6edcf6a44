//! A driver that drops rows by a dynamic filter, and one that publishes the domains.
ghost use Rattle.std.specs.Prelude.{◌≡◌, [], false, All, IfOk, length, map};
ghost use Rattle.driver_loop.specs.BuildFilters.{IsFilterOf, build_filter_made};
ghost use Rattle.driver_loop.specs.Ends.{target_made};

use crate::edge_drivers::add;
use crate::edges::say;
use crate::parts::{both, driver_of, numbers, result, whole};
use crate::slow::Slow;
use driver_loop::{BuildFilter, BuildTarget, Driver, Stage, Target};
use dyn_filter::{FilterCell, FilterOp};
use futures::task::{Doorbell, Solo};
use hash_join::{LookupBuilder, LookupCell};
use operator_core::Operator;
use sql_values::{Memory, Types};
use std::alloc::Global;
use std::sync::Wait;
use std::test::Fail;
use std::thread::Threads;

/// Driver 0 scans the rows 1 to 4 behind a filter, driver 1 builds a right side of the rows 3 and 3. The cell of bell 5 gets
/// the domain of their column, that of bell 6 the domain of a column that they do not have; the rows go to the cell of
/// bell 4. Which cell the filter looks into, and whether it waits; then whose turn it is, by number, and what the turns
/// answer; then what each hands back, with how many rows passed, and its work.
const RUNS: &str = "5 waits|0 1 0|w5 fr4 f 3 p1 w5;w2;
6 waits|0 1 0|w6 fr4 f p0 w4;w2;
5 at once|0 1|f fr4 1 2 3 4 p4 w8;w2;
5 at once|1 0|fr4 f 3 p1 w5;w2;";

/// The cells of two filters, and that of their join.
#[derive(Clone, Copy)]
struct Cells<'w> {
    first: &'w FilterCell,
    second: &'w FilterCell,
    lookup: &'w LookupCell,
}

/// That of a column, for the first part of a cell.
fn build_filter<'w>(
    alloc: Global,
    column: u32,
    cell: &'w FilterCell,
) -> Result<BuildFilter<'w>, Memory>
    ensures made { IfOk result (λ f. build_filter_made f ≡ f) }
    ensures starts { IfOk result (IsFilterOf [] false) }
{
    if cell.len() == 0 {
        return Err(Memory);
    }
    BuildFilter::new(alloc, column, 0, cell)
}

/// Those of the columns 0 and 1.
fn build_filters<'w>(alloc: Global, cells: Cells<'w>) -> Result<Vec<BuildFilter<'w>>, Memory>
    ensures made { IfOk result (λ v. map build_filter_made v.items ≡ v.items) }
    ensures start { IfOk result (λ v. All (IsFilterOf [] false) v.items) }
{
    let first = build_filter(alloc, 0, cells.first);
    let (first, second) = both(first, build_filter(alloc, 1, cells.second))?;
    Ok(Vec::from_array(alloc, [first, second])?)
}

/// Builds the right side of a join with these filters.
fn build_target<'w>(alloc: Global, cells: Cells<'w>) -> Result<Target<'w>, Memory>
    ensures { IfOk result (λ t. target_made t ≡ t) }
{
    let keys = Vec::from_array(alloc, [0])?;
    let builder = LookupBuilder::new(alloc, keys, whole(alloc)?);
    let (builder, filters) = both(builder, build_filters(alloc, cells))?;
    Ok(Target::Build(BuildTarget::new(builder, cells.lookup, filters)))
}

fn builder<'w>(alloc: Global, cells: Cells<'w>) -> Result<Driver<'w, Slow>, Memory> {
    driver_of(
        alloc,
        1,
        numbers(alloc, &[3, 3], 8),
        Ok(Vec::new(alloc)),
        build_target(alloc, cells),
    )
}

/// A stage that drops rows by the domain of the cell.
fn drops<'w>(alloc: Global, cell: &'w FilterCell, waits: bool) -> Result<Vec<Stage<'w>>, Memory>
    ensures { IfOk result (λ v. map ⟦<Stage<'w> as Operator>⟧.as_made v.items ≡ v.items) }
{
    let filter = FilterOp::new(alloc, cell, 0, waits);
    let (filter, types) = both(filter, whole(alloc))?;
    Ok(Vec::from_array(alloc, [Stage::Dynamic(filter, Types::of(types))])?)
}

fn scanner<'w>(
    alloc: Global,
    cell: &'w FilterCell,
    waits: bool,
) -> Result<Driver<'w, Slow>, Memory> {
    driver_of(
        alloc,
        0,
        numbers(alloc, &[1, 2, 3, 4], 8),
        drops(alloc, cell, waits),
        result(alloc, whole(alloc)),
    )
}

/// What the drivers of these cells say.
fn drivers_say<R: Threads + Wait + Sync>(
    rt: &R,
    alloc: Global,
    cells: Cells<'_>,
    filter: &str,
    picks: &str,
    solo: &Solo,
    text: &mut String,
) -> Result<(), Memory> {
    let cell = if filter.starts_with('6') {
        cells.second
    } else {
        cells.first
    };
    let mut drivers = Vec::new(alloc);
    add(
        &mut drivers,
        scanner(alloc, cell, filter.ends_with("waits")),
    )?;
    add(&mut drivers, builder(alloc, cells))?;
    say(rt, alloc, &mut drivers, picks, solo, text)
}

fn line_says<R: Threads + Wait + Sync>(
    rt: &R,
    alloc: Global,
    filter: &str,
    picks: &str,
    solo: &Solo,
    text: &mut String,
) -> Result<(), Memory> {
    let lookup = LookupCell::new(alloc, 4);
    let (first, second) = both(FilterCell::new(alloc, 1, 5), FilterCell::new(alloc, 1, 6))?;
    let cells = Cells {
        first: &first,
        second: &second,
        lookup: &lookup,
    };
    drivers_say(rt, alloc, cells, filter, picks, solo, text)
}

/// Whether the turns of a line, and the drivers once they were stopped, are as it says.
fn line_holds<R: Threads + Wait + Sync>(
    rt: &R,
    alloc: Global,
    line: &str,
    solo: &Solo,
) -> Result<bool, Memory> {
    let mut parts = line.split('|');
    let (Some(filter), Some(picks), Some(wanted)) = (parts.next(), parts.next(), parts.next())
    else {
        return Ok(false);
    };
    let mut text = String::new(alloc);
    line_says(rt, alloc, filter, picks, solo, &mut text)?;
    Ok(text.as_str() == wanted)
}

#[test]
fn a_scan_waits_for_the_domain_of_a_build(rt: HostRuntime) -> Result<(), Fail> {
    let solo = Solo::new(&rt, Doorbell::spinning())?;
    for line in RUNS.lines() {
        assert!(rt; line_holds(&rt, rt.alloc(), line, &solo)?);
    }
    Ok(())
}
