//! Where the pages of a driver go to, one variant each.
ghost use Rattle.std.specs.Prelude.{◌≡◌, ◌+◌, ◌≤◌, [], true, false, None, ◌<◌, ◌++◌, ◌∷◌, length, map, OnOk};
ghost use Rattle.std.specs.Vec.{vec_capacity};
ghost use Rattle.driver_loop.specs.Drivers.{IsBuiltAs};
ghost use Rattle.driver_loop.specs.Ends.{is_build, rows_handed};
ghost use Rattle.driver_loop.specs.Seats.{KeepsEnds, KnowsEnds, PutAll, PutFirst, deal_of, puts_of};
ghost use Rattle.driver_loop.specs.Turns.{filters_of, note_of_build_filter, note_of_target};

use crate::build::BuildTarget;
use crate::build_filter::BuildFilter;
use crate::notes::{NoteLists, put_filter_notes, put_within};
use blocked::{Bells, BlockedOn};
use col_pages::Page;
use driver_ends::{DealTarget, PutTarget};
use operator_core::HeldPages;
use output_buffer::{GatherPut, SpreadPut};
use plan_trees::are_same;
use sql_values::{Memory, Types};
use stage_moves::PageTarget;
use std::alloc::Global;
use std::sync::Wait;
use std::thread::Threads;

/// Rows of a result, kept as the pages in which they came.
#[derive(Drop)]
pub struct ResultTarget {
    rows: HeldPages,
    types: Types,
    is_told: bool,
}

impl ResultTarget {
    /// No rows yet, of these types.
    pub fn new(alloc: Global, types: Types) -> ResultTarget
        ensures { result ≡ record { rows = []; types = types; is_told = false } }
    {
        ResultTarget {
            rows: HeldPages::new(alloc),
            types,
            is_told: false,
        }
    }

    fn put(&mut self, page: Page) -> Result<(), Memory>
        ensures { OnOk result (self.new ≡ record self.old { rows = self.old.rows ++ page.rows }) }
    {
        if !are_same(page.types(), self.types.as_slice()) {
            return Err(Memory);
        }
        self.rows.push(page)
    }
}

/// Where the pages of a driver go to. The first two keep the types of their rows, and a page of others counts as want of
/// memory. Edges look at no types: who takes from them does.
#[derive(Drop)]
pub enum Target<'w> {
    Result(ResultTarget),
    /// The source of a join, which is published at the end.
    Build(BuildTarget<'w>),
    /// Edges of one taker each.
    Put(PutTarget<'w>),
    /// An edge of many takers.
    Deal(DealTarget<'w>),
}

/// What a target hands back.
#[derive(Drop)]
pub(crate) struct TargetParts<'w> {
    pub rows: HeldPages,
    pub puts: Vec<GatherPut<'w>>,
    pub deal: Option<SpreadPut<'w>>,
}

impl<'w> TargetParts<'w> {
    /// One of rows alone.
    fn of_rows(alloc: Global, rows: HeldPages) -> TargetParts<'w>
        ensures rows { result.rows ≡ rows }
        ensures puts { result.puts.items ≡ [] }
        ensures deal { result.deal ≡ None }
    {
        TargetParts {
            rows,
            puts: Vec::new(alloc),
            deal: None,
        }
    }
}

impl<'w> PageTarget for Target<'w> {
    ghost use Rattle.driver_loop.specs.Ends.{is_told, target_dues, target_finished, target_looks, target_made_or_lost, target_wants, was_given};

    ghost was_given = { was_given };

    ghost wants = { target_wants };

    ghost is_told = { is_told };

    ghost is_finished = { target_finished };

    ghost as_made = { target_made_or_lost };

    ghost looks = { target_looks };

    ghost dues = { target_dues };

    fn wants(&self) -> bool {
        match self {
            Target::Result(result) => !result.is_told,
            Target::Build(build) => build.wants(),
            Target::Put(put) => put.wants(),
            Target::Deal(deal) => deal.wants(),
        }
    }

    fn is_told(&self) -> bool {
        match self {
            Target::Result(result) => result.is_told,
            Target::Build(build) => build.is_told(),
            Target::Put(put) => put.is_told(),
            Target::Deal(deal) => deal.is_told(),
        }
    }

    fn is_finished(&self) -> bool {
        match self {
            Target::Result(result) => result.is_told,
            Target::Build(build) => build.is_finished(),
            Target::Put(put) => PageTarget::is_finished(put),
            Target::Deal(deal) => PageTarget::is_finished(deal),
        }
    }

    fn put(&mut self, page: Page) -> Result<(), Memory> {
        match self {
            Target::Result(result) => result.put(page),
            Target::Build(build) => build.put(page),
            Target::Put(put) => PageTarget::put(put, page),
            Target::Deal(deal) => PageTarget::put(deal, page),
        }
    }

    fn finish(&mut self) {
        match self {
            Target::Result(result) => result.is_told = true,
            Target::Build(build) => build.finish(),
            Target::Put(put) => PageTarget::finish(put),
            Target::Deal(deal) => PageTarget::finish(deal),
        }
    }

    fn ready<R: Threads + Wait + Sync, B: Bells>(
        &mut self,
        rt: &R,
        bells: &mut B,
    ) -> Result<Option<BlockedOn>, Memory> {
        match self {
            Target::Result(_) => Ok(None),
            Target::Build(build) => build.ready(rt, bells),
            Target::Put(put) => put.ready(rt, bells),
            Target::Deal(deal) => deal.ready(rt, bells),
        }
    }
}

impl<'w> Target<'w> {
    /// The law of what it knows of its cell, and of its edges.
    pub(crate) fn keeps(&self)
        ensures knows { KnowsEnds self.now }
        ensures ends { KeepsEnds self.now }
    {
        match self {
            Target::Result(_) => {}
            Target::Build(build) => build.keeps(),
            Target::Put(put) => {
                put.keeps();
                let _ = put.is_finished();
            }
            Target::Deal(deal) => {
                deal.keeps();
                let _ = deal.is_finished();
            }
        }
    }

    pub(crate) fn is_build(&self) -> bool
        ensures { result ≡ is_build self.now }
    {
        match self {
            Target::Build(_) => true,
            Target::Result(_) | Target::Put(_) | Target::Deal(_) => false,
        }
    }

    /// The filters of a build.
    pub(crate) fn filters(&self) -> &[BuildFilter<'w>]
        ensures { result.now ≡ filters_of self.now }
    {
        match self {
            Target::Build(build) => build.filters(),
            Target::Result(_) | Target::Put(_) | Target::Deal(_) => &[],
        }
    }

    /// Hands over the rows of a result and the seats of edges, and puts the notes of a build behind others, where there
    /// is room.
    pub(crate) fn into_parts(self, alloc: Global, lists: &mut NoteLists) -> TargetParts<'w>
        ensures rows { result.rows ≡ rows_handed self.entry }
        ensures puts { result.puts.items ≡ puts_of self.entry }
        ensures deal { result.deal ≡ deal_of self.entry }
        ensures first { PutFirst self.entry result.puts.items result.deal }
        ensures all { IsBuiltAs true self.entry → PutAll self.entry result.puts.items result.deal }
        ensures lookups { length lists.old.lookups.items < vec_capacity lists.old.lookups
            → lists.new.lookups.items ≡ lists.old.lookups.items ++ note_of_target self.entry }
        ensures filters { length lists.old.filters.items + length (filters_of self.entry) ≤ vec_capacity lists.old.filters
            → lists.new.filters.items ≡ lists.old.filters.items ++ map note_of_build_filter (filters_of self.entry) }
        ensures passed { lists.new.passed.items ≡ lists.old.passed.items }
    {
        match self {
            Target::Result(result) => TargetParts::of_rows(alloc, result.rows),
            Target::Build(build) => {
                put_build_notes(lists, build);
                TargetParts::of_rows(alloc, HeldPages::new(alloc))
            }
            Target::Put(put) => TargetParts {
                rows: HeldPages::new(alloc),
                puts: put.stop(),
                deal: None,
            },
            Target::Deal(deal) => TargetParts {
                rows: HeldPages::new(alloc),
                puts: Vec::new(alloc),
                deal: Some(deal.stop()),
            },
        }
    }
}

/// Puts the notes of a build behind others, where there is room.
fn put_build_notes(lists: &mut NoteLists, build: BuildTarget<'_>)
    ensures lookups { length lists.old.lookups.items < vec_capacity lists.old.lookups
        → lists.new.lookups.items ≡ lists.old.lookups.items ++ record { bell = build.entry.bell; note = build.entry.note } ∷ [] }
    ensures filters { length lists.old.filters.items + length build.entry.filters ≤ vec_capacity lists.old.filters
        → lists.new.filters.items ≡ lists.old.filters.items ++ map note_of_build_filter build.entry.filters }
    ensures passed { lists.new.passed.items ≡ lists.old.passed.items }
{
    let (note, filters) = build.into_notes();
    put_within(&mut lists.lookups, note);
    put_filter_notes(&mut lists.filters, filters);
}
