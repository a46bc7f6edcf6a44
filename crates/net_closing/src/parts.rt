//! Drivers are taken apart.
ghost use Rattle.std.specs.Prelude.{◌≡◌, ◌++◌, ◌∷◌, [], All, IfOk, OnOk, flat_map};
ghost use Rattle.driver_loop.specs.Drivers.{IsWhole};
ghost use Rattle.driver_net_laws.specs.Settled.{WasTakenApart};
ghost use Rattle.net_closing.specs.Closing.{AreWholeDrivers, HaveKept};
ghost use Rattle.net_closing.specs.Left.{HasGained, WereTaken};

use crate::held::{hold_all, hold_counts, hold_one};
use crate::notes::{Notes, keep_filters, keep_notes};
use driver_loop::{Driver, Pieces};
use operator_core::HeldPages;
use output_buffer::{GatherPut, GatherTake, SpreadPut, SpreadTake};
use run_ports::Courier;
use split_source::ClaimSeat;
use sql_values::Memory;
use std::alloc::Global;

/// The seats of drivers, the rows that their targets were given for the result, and how many rows passed their dynamic
/// filters, by the numbers of the drivers.
#[derive(Drop)]
pub(crate) struct Parts<'w> {
    pub(crate) claims: Vec<Vec<Option<ClaimSeat<'w>>>>,
    pub(crate) gather_takes: Vec<Vec<Option<GatherTake<'w>>>>,
    pub(crate) spread_takes: Vec<Vec<Option<SpreadTake<'w>>>>,
    /// Of each driver in the order of its outlets.
    pub(crate) puts: Vec<Vec<Option<GatherPut<'w>>>>,
    pub(crate) deals: Vec<Vec<Option<SpreadPut<'w>>>>,
    pub(crate) rows: Vec<Vec<Option<HeldPages>>>,
    pub(crate) passed: Vec<Vec<u64>>,
}

/// Takes the drivers apart, in their order.
pub(crate) fn take_all<'w, C: Courier>(
    alloc: Global,
    drivers: Vec<Driver<'w, C>>,
    notes: &mut Notes,
) -> Result<Parts<'w>, Memory>
    requires { AreWholeDrivers drivers.items }
    ensures { IfOk result (λ parts. WereTaken drivers.entry.items notes.old notes.new parts) }
{
    let mut parts = Parts {
        claims: Vec::new(alloc),
        gather_takes: Vec::new(alloc),
        spread_takes: Vec::new(alloc),
        puts: Vec::new(alloc),
        deals: Vec::new(alloc),
        rows: Vec::new(alloc),
        passed: Vec::new(alloc),
    };
    for driver in drivers {
        take_apart(alloc, driver, &mut parts, notes)?;
    }
    Ok(parts)
}

/// Takes one more driver apart.
fn take_apart<'w, C: Courier>(
    alloc: Global,
    driver: Driver<'w, C>,
    parts: &mut Parts<'w>,
    notes: &mut Notes,
) -> Result<(), Memory>
    requires { IsWhole driver.fault }
    ensures still { OnOk result (WasTakenApart driver.entry) }
    ensures kept { OnOk result (HaveKept notes.old notes.new (driver.entry ∷ [])) }
    ensures gained { OnOk result (HasGained parts.old driver.entry parts.new) }
{
    driver.keeps();
    let is_build = driver.is_build();
    let Pieces {
        claim,
        gather_take,
        spread_take,
        puts,
        deal,
        rows,
        lookups,
        filters,
        passed,
        ..
    } = driver.stop();
    hold_one(alloc, &mut parts.claims, claim)?;
    hold_one(alloc, &mut parts.gather_takes, gather_take)?;
    hold_one(alloc, &mut parts.spread_takes, spread_take)?;
    hold_all(alloc, &mut parts.puts, puts)?;
    hold_one(alloc, &mut parts.deals, deal)?;
    hold_one(alloc, &mut parts.rows, Some(rows))?;
    hold_counts(&mut parts.passed, passed)?;
    keep_notes(&mut notes.looks, &mut notes.builds, lookups, is_build)?;
    keep_filters(&mut notes.filter_looks, &mut notes.filter_builds, filters)?;
    Ok(())
}
