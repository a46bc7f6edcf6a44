//! The source of a driver.
ghost use Rattle.std.specs.Prelude.{◌≡◌, ◌<◌, ℕ, List, [], length, IfOk, OnOk};
ghost use Rattle.sql_values.specs.declared.types.SqlType.{SqlType as Kind};
ghost use Rattle.split_source.specs.Seats.{SeatState};
ghost use Rattle.split_source.specs.Splits.{split_count};
ghost use Rattle.col_pages.specs.Fits.{AllFit};
ghost use Rattle.tree_evaluator.specs.Fits.{IsReadFrom};
ghost use Rattle.plan_layout.specs.Pipes.{edge, fragment, rows, sides, source_view, table};
ghost use Rattle.plan_wiring.specs.Shares.{rows_at};
ghost use Rattle.driver_loop.specs.Ends.{rows_taken};
ghost use Rattle.pipe_stages.specs.Makes.{SourceFits};
ghost use Rattle.pipe_stages.specs.Nets.{IsSourceFor, NetForm};
ghost use Rattle.seat_stocks.specs.Shelves.{IsOn};
ghost use Rattle.seat_stocks.specs.Stocks.{AreLeft};
ghost use Rattle.net_parts.specs.Makings.{CanMake, HasSource, InNets, IsStocked, layout_in};

use crate::making::Making;
use driver_ends::{FetchSource, LocalSource, RemoteSource};
use driver_loop::{RowsSource, Source};
use plan_layout::{PipeSource, Series};
use plan_reader::copy_rows;
use row_ops::ValuesOp;
use run_ports::Courier;
use seat_stocks::Stock;
use split_source::ScanSource;
use sql_values::{Memory, RowList, SqlType};

/// The most pages that arrive at a time.
const MOST_PAGES: u32 = 16;

/// The source of a driver of the pipe at the place `own`, in a task.
pub fn source_of<'w, C: Courier>(
    making: &Making<'_, 'w>,
    stock: &mut Stock<'w>,
    own: usize,
    task: u32,
    source: PipeSource<'_>,
    courier: &C,
) -> Result<Source<'w, C>, Memory>
    requires can { CanMake making.now }
    requires stocked { IsStocked making.now stock.old }
    requires has { HasSource (layout_in making.now) own (source_view source) }
    requires fits { SourceFits making.now.tables.now (source_view source) }
    ensures left { OnOk result (AreLeft stock.old stock.new) }
    ensures fresh { IfOk result (λ source. rows_taken source ≡ []) }
    ensures is { IfOk result (λ made. InNets making.now stock.old
        (λ net. IsSourceFor net own task (source_view source.entry) made)) }
{
    match source {
        PipeSource::Table(place, columns, _) => scan_source(
            making,
            stock,
            own,
            place,
            columns.as_slice(),
        ),
        PipeSource::Rows(types, list) => rows_source(making, types.as_slice(), list),
        PipeSource::Sides => local_source(making, stock, own, task),
        PipeSource::Fragment(_) => remote_source(making, stock, own, task),
        PipeSource::Edge(at, numbers) => fetch_source(making, stock, at, task, numbers, courier),
    }
}

/// A scan of the table at a place.
fn scan_source<'w, C: Courier>(
    making: &Making<'_, 'w>,
    stock: &mut Stock<'w>,
    own: usize,
    place: u32,
    columns: &[u32],
) -> Result<Source<'w, C>, Memory>
    requires can { CanMake making.now }
    requires stocked { IsStocked making.now stock.old }
    requires reads { IsReadFrom making.now.tables.now place columns.now }
    requires splits { (seat : SeatState) → IsOn stock.old.claims own seat → seat.claims.of.count
        ≡ split_count (length (rows_at making.now.tables.now place)) making.now.split }
    ensures left { OnOk result (AreLeft stock.old stock.new) }
    ensures fresh { IfOk result (λ source. rows_taken source ≡ []) }
    ensures is { IfOk result (λ source. (task : ℕ) (kinds : List Kind) → InNets making.now stock.old
        (λ net. IsSourceFor net own task (table place columns.now kinds) source)) }
{
    let tables = making.tables;
    let seat = stock.claim(own)?;
    let columns = Vec::from_slice(making.alloc, columns)?;
    Ok(Source::scan(ScanSource::new(
        making.alloc,
        &tables[place as usize],
        columns,
        making.split,
        making.page,
        seat,
    )))
}

/// Rows of the plan.
fn rows_source<'w, C: Courier>(
    making: &Making<'_, 'w>,
    types: &[SqlType],
    list: &RowList,
) -> Result<Source<'w, C>, Memory>
    requires can { CanMake making.now }
    requires some { 0 < length types.now }
    requires fit { AllFit types.now list.now }
    ensures fresh { IfOk result (λ source. rows_taken source ≡ []) }
    ensures is { IfOk result (λ source. (net : NetForm) (own task : ℕ)
        → IsSourceFor net own task (rows types.now list.now) source) }
{
    let own = Vec::from_slice(making.alloc, types)?;
    let rows = copy_rows(making.alloc, types, list)?;
    let op = ValuesOp::new(making.alloc, rows, own, making.page);
    Ok(Source::rows(RowsSource::new(op)))
}

/// The edge into which the sides of a union put.
fn local_source<'w, C: Courier>(
    making: &Making<'_, 'w>,
    stock: &mut Stock<'w>,
    own: usize,
    task: u32,
) -> Result<Source<'w, C>, Memory>
    requires stocked { IsStocked making.now stock.old }
    ensures left { OnOk result (AreLeft stock.old stock.new) }
    ensures fresh { IfOk result (λ source. rows_taken source ≡ []) }
    ensures is { IfOk result (λ source. InNets making.now stock.old
        (λ net. IsSourceFor net own task (sides) source)) }
{
    let lane = making.lanes.gather(own, task)?;
    let seat = stock.take(lane)?;
    Ok(Source::local(LocalSource::new(seat)))
}

/// The edge from what fetches.
fn remote_source<'w, C: Courier>(
    making: &Making<'_, 'w>,
    stock: &mut Stock<'w>,
    own: usize,
    task: u32,
) -> Result<Source<'w, C>, Memory>
    requires stocked { IsStocked making.now stock.old }
    ensures left { OnOk result (AreLeft stock.old stock.new) }
    ensures fresh { IfOk result (λ source. rows_taken source ≡ []) }
    ensures is { IfOk result (λ source. (number : ℕ) → InNets making.now stock.old
        (λ net. IsSourceFor net own task (fragment number) source)) }
{
    let lane = making.lanes.spread(own, task)?;
    let seat = stock.share(lane)?;
    Ok(Source::remote(RemoteSource::new(seat)))
}

/// A fetch from the edge of the pipe at a place.
fn fetch_source<'w, C: Courier>(
    making: &Making<'_, 'w>,
    stock: &mut Stock<'w>,
    at: usize,
    task: u32,
    numbers: Series,
    courier: &C,
) -> Result<Source<'w, C>, Memory>
    requires stocked { IsStocked making.now stock.old }
    ensures left { OnOk result (AreLeft stock.old stock.new) }
    ensures fresh { IfOk result (λ source. rows_taken source ≡ []) }
    ensures is { IfOk result (λ source. (own : ℕ) → InNets making.now stock.old
        (λ net. IsSourceFor net own task (edge at numbers) source)) }
{
    let lane = making.lanes.gather(at, task)?;
    let seat = stock.take(lane)?;
    let courier = courier.for_edge(making.replay, numbers.of_task(task)?);
    Ok(Source::fetch(FetchSource::new(making.alloc, seat, courier, MOST_PAGES)))
}
