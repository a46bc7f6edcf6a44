//! A driver of its parts.
ghost use Rattle.std.specs.Prelude.{◌≡◌, ℕ, Some, slice_get, IfOk, OnOk};
ghost use Rattle.net_parts.specs.Filters.{scan_filters};
ghost use Rattle.net_parts.specs.Pipes.{driver_number, pipe_view};
ghost use Rattle.net_parts.specs.Nets.{IsDriverOf};
ghost use Rattle.net_parts.specs.Stocks.{AreLeft};
ghost use Rattle.net_parts.specs.Makings.{CanMake, InNets, IsStocked, layout_in};
ghost use Rattle.net_making.specs.Slots.{IsNew};

use net_parts::{Driver, Making, Pipe, PlacedFilter, Stock, source_of, stages_for, target_of};
use run_ports::Courier;
use sql_values::Memory;

/// A driver of the pipe at the place `own`, in a task, of this number, with the filters of its scan.
pub(crate) fn driver_of<'w, C: Courier>(
    making: &Making<'_, 'w>,
    stock: &mut Stock<'w>,
    own: usize,
    pipe: &Pipe<'_>,
    task: u32,
    number: u32,
    filters: &[PlacedFilter],
    courier: &C,
) -> Result<Driver<'w, C>, Memory>
    requires can { CanMake making.now }
    requires stocked { IsStocked making.now stock.old }
    requires there { slice_get (layout_in making.now) own ≡ Some (pipe_view pipe.now) }
    requires filters { filters.now ≡ scan_filters (layout_in making.now) (pipe_view pipe.now) }
    ensures left { OnOk result (AreLeft stock.old stock.new) }
    ensures fresh { IfOk result IsNew }
    ensures is { IfOk result (λ d. (lane : ℕ) → number ≡ driver_number (pipe_view pipe.now) task lane
        → InNets making.now stock.old (λ net. IsDriverOf net own (pipe_view pipe.now) task lane d)) }
{
    let source = source_of(making, stock, own, task, pipe.source, courier)?;
    let stages = stages_for(making, own, task, filters, pipe.steps.as_slice())?;
    let target = target_of(making, stock, own, task, pipe.target)?;
    Driver::new(making.alloc, number, source, stages, target)
}
