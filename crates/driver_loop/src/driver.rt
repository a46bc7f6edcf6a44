//! A driver: one source, stages in order, one target.
ghost use Rattle.std.specs.Prelude.{◌≡◌, ◌+◌, ◌<◌, ◌≤◌, ℕ, [], All, true, false, IfOk, Some, None, length, map, min};
ghost use Rattle.sql_values.specs.declared.fail.Fail.{Fail as Kind};
ghost use Rattle.count_laws.specs.Counts.{most_count};
ghost use Rattle.col_pages.specs.Pages.{most_rows};
ghost use Rattle.futures.specs.Task.{Covers, Keeps};
ghost use Rattle.operator_core.specs.Stages.{last_finished};
ghost use Rattle.driver_loop.specs.Faults.{run_fault};
ghost use Rattle.driver_loop.specs.Ends.{is_build, is_told, rows_taken, has_ended, source_made, target_made, IsBegun, IsDrained};
ghost use Rattle.driver_turns.specs.Turns.{RangDues};
ghost use Rattle.driver_loop.specs.Drivers.{IsDriver, IsOver, HasFailed, HasWorked, CanGoOn, IsBuilt, IsBuiltAs, IsWhole, driver_dues};
ghost use Rattle.driver_loop.specs.Seats.{KeepsEnds, PutAll};
ghost use Rattle.driver_loop.specs.Turns.{IsLeftBy, IsWaiting, IfBlocked, ArePiecesOf, KnowsParts, filter_notes_of, notes_of, passed_of};

use crate::notes::{NoteLists, put_notes, room_for_notes};
use crate::pieces::Pieces;
use crate::run_fault::RunFault;
use crate::source::{Source, SourceSeats};
use crate::stage::Stage;
use crate::step::take_turn;
use crate::target::{Target, TargetParts};
use crate::turn::{Turn, hear};
use blocked::{Bells, BlockedOn};
use driver_turns::{Turned, Turning};
use futures::Future;
use futures::task::Context;
use operator_core::{OpFault, Operator, laws};
use run_ports::Courier;
use sql_values::Memory;
use std::alloc::Global;
use std::marker::{Model, PhantomData};
use std::sync::Wait;
use std::thread::Threads;

/// Moves pages from its source through its stages to its target, a turn at a time.
#[derive(Drop)]
pub struct Driver<'w, C: Courier> {
    number: u32,
    source: Source<'w, C>,
    stages: Vec<Stage<'w>>,
    target: Target<'w>,
    work: u64,
    is_finished: bool,
    fault: Option<RunFault>,
    lists: NoteLists,
    alloc: Global,
}

impl<'w, C: Courier> Model for Driver<'w, C> {
    ghost use Rattle.driver_loop.specs.Drivers.{DriverState};

    ghost Value = { DriverState };

    ghost use Rattle.sql_exprs.specs.contracts.expr.Expr as e;
    ghost use Rattle.std.specs.Coded.{codes};

    ghost coded = { Prim.hlevel (codes, e.the_row.coded) };

    ghost use Rattle.driver_loop.specs.InDriver.{driver_view, IsInDriver};

    ghost view = { driver_view };

    ghost invariant = { IsInDriver };
}

impl<'w, C: Courier> Driver<'w, C> {
    /// A driver of parts as they were made. Takes the memory for the lists of notes and counts of its `Pieces`.
    pub fn new(
        alloc: Global,
        number: u32,
        source: Source<'w, C>,
        stages: Vec<Stage<'w>>,
        target: Target<'w>,
    ) -> Result<Driver<'w, C>, Memory>
        requires source { rows_taken source ≡ [] }
        requires stages { map ⟦<Stage<'w> as Operator>⟧.as_made stages.items ≡ stages.items }
        requires target { target_made target ≡ target }
        ensures { IfOk result (λ d. d ≡ record {
          number = number;
          source = source.entry;
          stages = stages.entry.items;
          target = target.entry;
          work = 0;
          is_finished = false;
          fault = None;
        }) }
    {
        laws::laws::<Stage<'w>>(PhantomData);
        match room_for_notes(alloc, &stages, target.filters()) {
            Ok(lists) => Ok(Driver {
                number,
                source,
                stages,
                target,
                work: 0,
                is_finished: false,
                fault: None,
                lists,
                alloc,
            }),
            // Each is let go by a call: to drop three such values in place takes long to prove.
            Err(memory) => {
                drop(source);
                drop(stages);
                drop(target);
                Err(memory)
            }
        }
    }

    pub fn number(&self) -> u32
        ensures { result ≡ self.now.number }
    {
        self.number
    }

    /// How many rows entered its stages and its target, with those on which it failed, and how often its source asked
    /// in vain where nobody rings, up to the most that the count holds.
    pub fn work(&self) -> u64
        ensures { result ≡ self.now.work }
    {
        self.work
    }

    /// Whether a turn answered Finished.
    pub fn is_finished(&self) -> bool
        ensures { result ≡ self.now.is_finished }
    {
        self.is_finished
    }

    /// What the turn answered that failed.
    pub fn fault(&self) -> Option<RunFault>
        ensures { result ≡ self.now.fault }
    {
        self.fault
    }

    /// Whether its target builds the right side of a join.
    pub fn is_build(&self) -> bool
        ensures { result ≡ is_build self.now.target }
    {
        self.target.is_build()
    }

    /// What it keeps over its turns, and what follows from it.
    pub fn keeps(&self)
        ensures kept { IsDriver self.now }
        ensures drained { has_ended self.now.source ≡ true → IsDrained self.now.source }
        ensures begun { IsBegun self.now.source }
        ensures over { self.now.is_finished ≡ true → IsOver self.now }
        ensures failed { (node : ℕ) (kind : Kind)
            → self.now.fault ≡ Some (RunFault.ExprFailed node kind) → HasFailed self.now node kind }
        ensures goes_on { IsWhole self.now.fault → CanGoOn self.now }
        ensures built { IsWhole self.now.fault → IsBuilt self.now }
        ensures ends { KeepsEnds self.now.target }
    {
        laws::laws::<Stage<'w>>(PhantomData);
        self.source.keeps();
        self.target.keeps();
    }

    /// Moves rows until its target is finished, `quantum` units were counted, or nothing
    /// moves and a stage, the source or the target waits. The future of one who waits has then registered with the context.
    /// Where the last stage is finished, the target is told to finish, and ends: a build is published, and the bell
    /// of its cell is rung.
    pub fn turn<R: Threads + Wait + Sync, B: Bells>(
        &mut self,
        rt: &R,
        quantum: u32,
        cx: &mut Context<'_>,
        bells: &mut B,
    ) -> Turn
        requires running { (self.old.is_finished ≡ false) × (self.old.fault ≡ None) }
        ensures number { self.new.number ≡ self.old.number }
        ensures source { source_made self.new.source ≡ source_made self.old.source }
        ensures target { IsWhole self.new.fault
            → target_made self.new.target ≡ target_made self.old.target }
        ensures state { IsLeftBy result self.new }
        ensures work { (self.old.work ≤ self.new.work)
            × (self.new.work < self.old.work + (quantum + most_rows)) }
        ensures worked { IsWhole self.new.fault → HasWorked self.old self.new }
        ensures yields { result ≡ Turn.Yield
            → min (self.old.work + quantum) most_count ≤ self.new.work }
        ensures untold { result ≡ Turn.Yield → is_told self.new.target ≡ false }
        ensures tells { self.new.fault ≡ None
            → last_finished ⟦<Stage<'w> as Operator>⟧ (has_ended self.new.source) self.new.stages ≡ true
            → is_told self.new.target ≡ true }
        ensures blocked { IfBlocked result (λ on. IsWaiting self.old self.new (B.shown bells.new) on) }
        ensures heard { IfBlocked result (λ on. Covers cx.new (⟦<BlockedOn as Future>⟧.needs on)) }
        ensures over { result ≡ Turn.Finished → IsOver self.new }
        ensures failed { (node : ℕ) (kind : Kind)
            → result ≡ Turn.Failed (RunFault.ExprFailed node kind) → HasFailed self.new node kind }
        ensures context { Keeps cx.old cx.new }
        ensures bells { (bell count : ℕ) → B.shown bells.old bell count
            → B.shown bells.new bell count }
        ensures rang { IsWhole self.new.fault → RangDues (B.rang bells.old) (B.rang bells.new)
            (driver_dues self.old) (driver_dues self.new) }
    {
        laws::laws::<Stage<'w>>(PhantomData);
        let turning = take_turn(
            rt,
            &mut self.source,
            &mut self.stages,
            &mut self.target,
            quantum,
            bells,
        );
        self.work = work_after(self.work, &turning);
        let outcome = turning.outcome;
        match outcome {
            Ok(Turned::Yield) => Turn::Yield,
            Ok(Turned::Blocked(on)) => Turn::waiting(hear(on, cx)),
            Ok(Turned::Finished) => {
                self.is_finished = true;
                Turn::Finished
            }
            Err(fault) => Turn::Failed(keep_fault(&mut self.fault, fault)),
        }
    }

    /// Hands its parts back, where it is finished.
    pub fn into_pieces(self) -> Pieces<'w>
        requires { self.is_finished ≡ true }
        ensures pieces { ArePiecesOf self.entry result }
        ensures lookups { IsWhole self.entry.fault → result.lookups.items ≡ notes_of self.entry }
        ensures filters { IsWhole self.entry.fault → result.filters.items ≡ filter_notes_of self.entry }
        ensures passed { IsWhole self.entry.fault → result.passed.items ≡ passed_of self.entry }
        ensures knows { All KnowsParts self.entry.stages }
        ensures built { IsBuilt self.entry }
        ensures all { PutAll self.entry.target result.puts.items result.deal }
        ensures over { IsOver self.entry }
        ensures drained { IsDrained self.entry.source }
    {
        self.keeps();
        self.take_apart()
    }

    /// Hands its parts back as they stand.
    pub fn stop(self) -> Pieces<'w>
        ensures pieces { ArePiecesOf self.entry result }
        ensures lookups { IsWhole self.entry.fault → result.lookups.items ≡ notes_of self.entry }
        ensures filters { IsWhole self.entry.fault → result.filters.items ≡ filter_notes_of self.entry }
        ensures passed { IsWhole self.entry.fault → result.passed.items ≡ passed_of self.entry }
        ensures knows { All KnowsParts self.entry.stages }
        ensures built { IsWhole self.entry.fault → IsBuilt self.entry }
        ensures kept { IsDriver self.entry }
    {
        self.keeps();
        self.take_apart()
    }

    fn take_apart(self) -> Pieces<'w>
        ensures pieces { ArePiecesOf self.entry result }
        ensures lookups { IsWhole self.entry.fault → result.lookups.items ≡ notes_of self.entry }
        ensures filters { IsWhole self.entry.fault → result.filters.items ≡ filter_notes_of self.entry }
        ensures passed { IsWhole self.entry.fault → result.passed.items ≡ passed_of self.entry }
        ensures knows { All KnowsParts self.entry.stages }
        ensures all { IsBuiltAs true self.entry.target
            → PutAll self.entry.target result.puts.items result.deal }
    {
        let Driver {
            number,
            source,
            stages,
            target,
            mut lists,
            alloc,
            ..
        } = self;
        put_notes(&mut lists, stages);
        let TargetParts { rows, puts, deal } = target.into_parts(alloc, &mut lists);
        let NoteLists {
            lookups,
            filters,
            passed,
        } = lists;
        let SourceSeats {
            claim,
            gather_take,
            spread_take,
        } = source.into_seats();
        Pieces {
            number,
            claim,
            gather_take,
            spread_take,
            puts,
            deal,
            rows,
            lookups,
            filters,
            passed,
        }
    }
}

/// The work after a turn, also after one that failed.
fn work_after(work: u64, turning: &Turning) -> u64
    ensures { result ≡ min (work + turning.now.units) most_count }
{
    work.saturating_add(turning.units)
}

/// Keeps why a turn failed, and answers it.
fn keep_fault(kept: &mut Option<RunFault>, fault: OpFault) -> RunFault
    ensures fault { result ≡ run_fault fault }
    ensures kept { kept.new ≡ Some result }
{
    let fault = RunFault::of(fault);
    *kept = Some(fault);
    fault
}
