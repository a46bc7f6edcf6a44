//! A driver that builds the right side of a join, and one that probes it.
ghost use Rattle.std.specs.Prelude.{◌≡◌, IfOk, map};
ghost use Rattle.driver_loop.specs.Ends.{target_made};

use crate::parts::{driver_of, numbers, result, whole};
use crate::runs::{run, write_turn};
use crate::slow::Slow;
use driver_loop::{BuildTarget, Driver, Stage, Target};
use futures::task::{Doorbell, Solo};
use hash_join::{LookupBuilder, LookupCell, ProbeOp};
use operator_core::Operator;
use sql_values::{JoinKind, Memory, SqlType, Types};
use std::alloc::Global;
use std::sync::Wait;
use std::test::Fail;
use std::thread::Threads;

/// Builds the right side of a join.
fn build_target<'w>(alloc: Global, cell: &'w LookupCell) -> Result<Target<'w>, Memory>
    ensures { IfOk result (λ t. target_made t ≡ t) }
{
    let keys = Vec::from_array(alloc, [0])?;
    let builder = LookupBuilder::new(alloc, keys, whole(alloc)?)?;
    Ok(Target::Build(BuildTarget::new(builder, cell, Vec::new(alloc))))
}

/// Builds the right side of a join, of rows of these numbers.
fn builder<'w>(
    alloc: Global,
    cell: &'w LookupCell,
    rows: &[i64],
) -> Result<Driver<'w, Slow>, Memory> {
    driver_of(
        alloc,
        1,
        numbers(alloc, rows, 8),
        Ok(Vec::new(alloc)),
        build_target(alloc, cell),
    )
}

/// A stage that joins with what is in the cell.
fn probes<'w>(alloc: Global, cell: &'w LookupCell) -> Result<Vec<Stage<'w>>, Memory>
    ensures { IfOk result (λ v. map ⟦<Stage<'w> as Operator>⟧.as_made v.items ≡ v.items) }
{
    let types = whole(alloc)?;
    let on = Vec::from_array(alloc, [0])?;
    let probe = ProbeOp::new(alloc, JoinKind::Inner, on, cell, 8);
    Ok(Vec::from_array(alloc, [Stage::Probe(probe, Types::of(types))])?)
}

fn pairs(alloc: Global) -> Result<Vec<SqlType>, Memory> {
    Ok(Vec::from_array(alloc, [SqlType::Bigint, SqlType::Bigint])?)
}

/// Joins the rows 2 and 3 with what is in the cell.
fn prober<'w>(alloc: Global, cell: &'w LookupCell) -> Result<Driver<'w, Slow>, Memory> {
    driver_of(
        alloc,
        2,
        numbers(alloc, &[2, 3], 8),
        probes(alloc, cell),
        result(alloc, pairs(alloc)),
    )
}

/// Writes the turn of a join, and then that of a driver that builds its right side, of the rows 3 and 3.
fn write_wait<R: Threads + Wait + Sync>(
    rt: &R,
    alloc: Global,
    cell: &LookupCell,
    probing: &mut Driver<'_, Slow>,
    solo: &Solo,
    text: &mut String,
) -> Result<(), Memory> {
    write_turn(rt, alloc, probing, solo, text)?;
    let mut building = builder(alloc, cell, &[3, 3])?;
    write_turn(rt, alloc, &mut building, solo, text)
}

/// Writes how a join waits until its right side was published, and what it then gives.
fn write_join<R: Threads + Wait + Sync>(
    rt: &R,
    alloc: Global,
    cell: &LookupCell,
    solo: &Solo,
    text: &mut String,
) -> Result<(), Memory> {
    let mut probing = prober(alloc, cell)?;
    let waited = write_wait(rt, alloc, cell, &mut probing, solo, text);
    run(rt, alloc, probing, 100, solo, text)?;
    waited
}

#[test]
fn a_join_waits_until_its_right_side_was_published(rt: HostRuntime) -> Result<(), Fail> {
    let solo = Solo::new(&rt, Doorbell::spinning())?;
    let cell = LookupCell::new(rt.alloc(), 4);
    let mut text = String::new(rt.alloc());
    write_join(&rt, rt.alloc(), &cell, &solo, &mut text)?;
    assert!(rt; text.as_str() == "w4 fr4 3 3 3 3 after 0");
    Ok(())
}

/// Writes what becomes of a driver that builds the right side of a join, of the rows 1 and 2.
fn write_built<R: Threads + Wait + Sync>(
    rt: &R,
    alloc: Global,
    cell: &LookupCell,
    solo: &Solo,
    text: &mut String,
) -> Result<(), Memory> {
    run(rt, alloc, builder(alloc, cell, &[1, 2])?, 100, solo, text)
}

fn write_two_turns<R: Threads + Wait + Sync>(
    rt: &R,
    alloc: Global,
    driver: &mut Driver<'_, Slow>,
    solo: &Solo,
    text: &mut String,
) -> Result<(), Memory> {
    write_turn(rt, alloc, driver, solo, text)?;
    write_turn(rt, alloc, driver, solo, text)
}

/// Writes how a driver waits, turn after turn, that builds another right side for a cell.
fn write_held<R: Threads + Wait + Sync>(
    rt: &R,
    alloc: Global,
    cell: &LookupCell,
    solo: &Solo,
    text: &mut String,
) -> Result<(), Memory> {
    let mut building = builder(alloc, cell, &[3, 4])?;
    write_two_turns(rt, alloc, &mut building, solo, text)
}

#[test]
fn a_cell_takes_one_source(rt: HostRuntime) -> Result<(), Fail> {
    let solo = Solo::new(&rt, Doorbell::spinning())?;
    let cell = LookupCell::new(rt.alloc(), 4);
    let mut text = String::new(rt.alloc());
    write_built(&rt, rt.alloc(), &cell, &solo, &mut text)?;
    write_held(&rt, rt.alloc(), &cell, &solo, &mut text)?;
    assert!(rt; text.as_str() == "after 0w4 w4 ");
    Ok(())
}
