//! The drivers of all pipes.
ghost use Rattle.std.specs.Prelude.{◌≡◌, ◌<◌, ◌+◌, ◌*◌, ℕ, All, Some, map, slice_get, IfOk, OnOk};
ghost use Rattle.net_parts.specs.Filters.{scan_filters};
ghost use Rattle.net_parts.specs.Layouts.{drivers_in};
ghost use Rattle.net_parts.specs.Pipes.{pipe_view};
ghost use Rattle.net_parts.specs.Nets.{AreDriversOf};
ghost use Rattle.net_parts.specs.Stocks.{AreLeft};
ghost use Rattle.net_parts.specs.Makings.{CanMake, InNets, IsStocked, layout_in};
ghost use Rattle.net_making.specs.Slots.{HasSlot, HaveGrown, IsNew};

use crate::driver::driver_of;
use net_parts::{Driver, Making, Pipe, PlacedFilter, Slots, Stock, scan_filters};
use run_ports::Courier;
use sql_values::Memory;

/// All drivers, by their numbers.
pub(crate) fn make_all<'w, C: Courier>(
    making: &Making<'_, 'w>,
    mut stock: Stock<'w>,
    courier: &C,
) -> Result<Vec<Driver<'w, C>>, Memory>
    requires can { CanMake making.now }
    requires stocked { IsStocked making.now stock }
    ensures fresh { IfOk result (λ drivers. All IsNew drivers.items) }
    ensures are { IfOk result (λ drivers. InNets making.now stock.entry
        (λ net. AreDriversOf net drivers.items)) }
{
    let pipes = making.pipes;
    let count = drivers_in(pipes)?;
    let mut slots = Slots::new(making.alloc, count)?;
    for own in 0..pipes.len() {
        add_pipe(making, &mut stock, own, &pipes[own], &mut slots, courier)?;
    }
    slots.into_items()
}

/// How many drivers all pipes have in all tasks.
fn drivers_in(pipes: &[Pipe<'_>]) -> Result<u32, Memory>
    ensures { IfOk result (λ n. n ≡ drivers_in (map pipe_view pipes.now)) }
{
    let mut sum = 0;
    for pipe in pipes {
        sum = sum_of(sum, pipe)?;
    }
    Ok(sum)
}

/// With those of one more pipe. More than 32 bits count are answered with want of memory.
fn sum_of(sum: u32, pipe: &Pipe<'_>) -> Result<u32, Memory>
    ensures { IfOk result
        (λ n. n ≡ sum + (pipe_view pipe.now).tasks * (pipe_view pipe.now).drivers) }
{
    let own = pipe.tasks.checked_mul(pipe.drivers).ok_or(Memory)?;
    sum.checked_add(own).ok_or(Memory)
}

/// Adds the drivers of the pipe at the place `own`.
fn add_pipe<'w, C: Courier>(
    making: &Making<'_, 'w>,
    stock: &mut Stock<'w>,
    own: usize,
    pipe: &Pipe<'_>,
    slots: &mut Slots<Driver<'w, C>>,
    courier: &C,
) -> Result<(), Memory>
    requires can { CanMake making.now }
    requires stocked { IsStocked making.now stock.old }
    requires there { slice_get (layout_in making.now) own ≡ Some (pipe_view pipe.now) }
    ensures left { OnOk result (AreLeft stock.old stock.new) }
    ensures grown { OnOk result (HaveGrown slots.old slots.new) }
    ensures added { OnOk result (InNets making.now stock.old
        (λ net. (task lane : ℕ) → task < (pipe_view pipe.now).tasks → lane < (pipe_view pipe.now).drivers
        → HasSlot net slots.new own (pipe_view pipe.now) task lane)) }
{
    let filters = scan_filters(making.alloc, making.pipes, pipe)?;
    for task in 0..pipe.tasks {
        add_task(
            making,
            stock,
            own,
            pipe,
            task,
            filters.as_slice(),
            slots,
            courier,
        )?;
    }
    Ok(())
}

/// Adds its drivers in a task, with the filters of its scan.
fn add_task<'w, C: Courier>(
    making: &Making<'_, 'w>,
    stock: &mut Stock<'w>,
    own: usize,
    pipe: &Pipe<'_>,
    task: u32,
    filters: &[PlacedFilter],
    slots: &mut Slots<Driver<'w, C>>,
    courier: &C,
) -> Result<(), Memory>
    requires can { CanMake making.now }
    requires stocked { IsStocked making.now stock.old }
    requires there { slice_get (layout_in making.now) own ≡ Some (pipe_view pipe.now) }
    requires filters { filters.now ≡ scan_filters (layout_in making.now) (pipe_view pipe.now) }
    ensures left { OnOk result (AreLeft stock.old stock.new) }
    ensures grown { OnOk result (HaveGrown slots.old slots.new) }
    ensures added { OnOk result (InNets making.now stock.old
        (λ net. (lane : ℕ) → lane < (pipe_view pipe.now).drivers
        → HasSlot net slots.new own (pipe_view pipe.now) task lane)) }
{
    for lane in 0..pipe.drivers {
        let number = pipe.number(task, lane)?;
        slots.put(
            number,
            driver_of(making, stock, own, pipe, task, number, filters, courier)?,
        )?;
    }
    Ok(())
}
