//! A driver as workers share it.
ghost use Rattle.std.specs.Prelude.{◌≡◌, IfOk};

use blocked::Bells;
use driver_loop::{Driver, Turn as DriverTurn};
use futures::task::Context;
use run_ports::{Courier, Meet};
use sql_values::Memory;
use std::alloc::Global;
use std::marker::Model;
use std::sync::Wait;
use std::thread::Threads;
use worker_pool::{TakesTurns, Turn};

/// A driver that arrives at a meet when it has its first turn.
#[derive(Drop)]
pub(crate) struct PooledDriver<'m, 'w, C: Courier, M: Meet> {
    driver: Driver<'w, C>,
    meet: &'m M,
    has_arrived: bool,
}

impl<'m, 'w, C: Courier, M: Meet> Model for PooledDriver<'m, 'w, C, M> {
    ghost use Rattle.driver_loop.specs.Drivers.{DriverState};
    ghost use Rattle.sql_exprs.specs.contracts.expr.Expr as e;
    ghost use Rattle.std.specs.Coded.{codes};

    ghost Value = { DriverState };

    ghost coded = { Prim.hlevel (codes, e.the_row.coded) };

    ghost view = { λ p. p.driver };
}

impl<'m, 'w, C: Courier, M: Meet> PooledDriver<'m, 'w, C, M> {
    /// One that had no turn.
    pub(crate) fn new(driver: Driver<'w, C>, meet: &'m M) -> PooledDriver<'m, 'w, C, M>
        ensures { result ≡ driver.entry }
    {
        PooledDriver {
            driver,
            meet,
            has_arrived: false,
        }
    }

    pub(crate) fn into_driver(self) -> Driver<'w, C>
        ensures { result ≡ self.entry }
    {
        self.driver
    }

    /// It arrives, unless it did before.
    fn arrive(&mut self)
        ensures { self.new ≡ self.old }
    {
        if !self.has_arrived {
            self.has_arrived = true;
            self.meet.arrive(self.driver.number());
        }
    }
}

impl<'m, 'w, C: Courier, M: Meet> TakesTurns for PooledDriver<'m, 'w, C, M> {
    ghost use Rattle.std.specs.Prelude.{is_some};
    ghost use Rattle.net_laws.specs.Later.{IsLaterDriver};
    ghost use Rattle.net_laws.proofs.LaterLemmas.{later_same, later_then};
    ghost use Rattle.task_executor.specs.Turns.{unfailed};
    ghost use Rattle.task_executor.specs.Waits.{WaitsAt};

    ghost work = { λ d. d.work };

    ghost is_finished = { λ d. d.is_finished };

    ghost has_failed = { λ d. is_some d.fault };

    ghost follows = { IsLaterDriver };

    ghost waits_at = { WaitsAt };

    fn work(&self) -> u64 {
        self.driver.work()
    }

    fn is_finished(&self) -> bool {
        self.driver.is_finished()
    }

    fn has_failed(&self) -> bool {
        self.driver.fault().is_some()
    }

    fn turn<R: Threads + Wait + Sync, B: Bells>(
        &mut self,
        rt: &R,
        quantum: u32,
        cx: &mut Context<'_>,
        bells: &mut B,
    ) -> Turn {
        self.arrive();
        match self.driver.turn(rt, quantum, cx, bells) {
            DriverTurn::Yield => Turn::Yield,
            DriverTurn::Blocked(on) => Turn::Blocked(on),
            DriverTurn::Finished => Turn::Finished,
            DriverTurn::Failed(_fault) => Turn::Failed,
        }
    }

    ghost stays = { later_same };

    ghost goes_on = { λ x y z first _ whole then. later_then x y z (unfailed y.fault whole) first then };
}

/// Drivers to be shared.
pub(crate) fn pooled<'m, 'w, C: Courier, M: Meet>(
    alloc: Global,
    drivers: Vec<Driver<'w, C>>,
    meet: &'m M,
) -> Result<Vec<PooledDriver<'m, 'w, C, M>>, Memory>
    ensures { IfOk result (λ pooled. pooled.items ≡ drivers.entry.items) }
{
    let mut pooled = Vec::with_capacity(alloc, drivers.len())?;
    for driver in drivers {
        pooled.push(PooledDriver::new(driver, meet))?;
    }
    Ok(pooled)
}

/// Drivers that were shared.
pub(crate) fn drivers_of<'m, 'w, C: Courier, M: Meet>(
    alloc: Global,
    pooled: Vec<PooledDriver<'m, 'w, C, M>>,
) -> Result<Vec<Driver<'w, C>>, Memory>
    ensures { IfOk result (λ drivers. drivers.items ≡ pooled.entry.items) }
{
    let mut drivers = Vec::with_capacity(alloc, pooled.len())?;
    for one in pooled {
        drivers.push(one.into_driver())?;
    }
    Ok(drivers)
}
