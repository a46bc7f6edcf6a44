//! What a driver puts its pages into where that is one edge or several.
ghost use Rattle.std.specs.Prelude.{◌≡◌, ℕ, ◌+◌, ◌<◌, ◌≤◌, ◌++◌, ◌↔◌, ◌&&◌, [], true, false, All, IsSome, IsTrue, IfOk, OnOk, OnErr, MatchOption, None, is_none, length, map, replicate};
ghost use Rattle.sql_values.specs.declared.value.Value.{Value};
ghost use Rattle.std.specs.Prelude.{List};
ghost use Rattle.std.specs.Vec.{vec_capacity};
ghost use Rattle.output_buffer.specs.Edges.{end_count};
ghost use Rattle.driver_ends.specs.declared.put_target.PutKind.TheVariants.{Hash};
ghost use Rattle.driver_ends.specs.Ends.{put_finished, put_wants};
ghost use Rattle.driver_ends.specs.Outlets.{IsClear, IsThrough, OutletInOrder, outlet_kept, new_outlet, rows_sent};
ghost use Rattle.driver_ends.specs.Targets.{AreThrough, FitsKind, HasSent, HasStuckOutlet, HavePutAll, HavePutFirst, HaveTried, IsFinished, KeepsTarget, Wants, add_each, dues, dues_of, earlier, fulls_of, may_wait, may_end, sent_to};

use crate::at_edges::EdgeEnd;
use crate::outlet::{AdvanceAsTold, Outlet};
use crate::page_joins::join_behind;
use blocked::{Bells, BlockedOn};
use col_pages::{MOST_ROWS, Page};
use output_buffer::{GatherPut, Partitioner};
use sql_values::Memory;
use stage_moves::PageTarget;
use std::alloc::Global;
use std::marker::Model;
use std::sync::Wait;
use std::thread::Threads;

/// Which edges a page goes to.
#[derive(Drop)]
pub enum PutKind {
    /// To the only one.
    One,
    /// To each, as a whole.
    Each,
    /// Each row to the edge of its bucket.
    Hash(Partitioner),
}

/// Puts pages to one or several edges, and then one End to each. A page that an edge has no room for stays here,
/// and no other page is taken before every edge took its own. Rows that are spread over several edges wait until the
/// edges' pages are about as large as those that come, since a page costs the same on its way whatever its size.
#[derive(Drop)]
pub struct PutTarget<'w> {
    alloc: Global,
    kind: PutKind,
    outlets: Vec<Outlet<'w>>,
    /// The rows that wait.
    waiting: Option<Page>,
    /// The page that waited before, for its memory.
    spare: Option<Page>,
    /// So many of them wait for no more.
    enough: usize,
    is_told: bool,
    /// Room for the seats, so that a stop takes no memory.
    seats: Vec<GatherPut<'w>>,
}

impl<'w> Model for PutTarget<'w> {
    ghost use Rattle.driver_ends.specs.Targets.{TargetState};

    ghost Value = { TargetState };

    ghost use Rattle.driver_ends.specs.InTarget.{target_view, IsPutTarget};

    ghost view = { target_view };

    ghost invariant = { IsPutTarget };
}

impl<'w> PutTarget<'w> {
    /// One over these seats, of which none has put anything. After `Memory` they are gone.
    pub fn new(
        alloc: Global,
        kind: PutKind,
        seats: Vec<GatherPut<'w>>,
    ) -> Result<PutTarget<'w>, Memory>
        requires fits { FitsKind kind (length seats.items) }
        requires fresh { All (λ seat. seat.put ≡ []) seats.items }
        ensures new { IfOk result (λ t. t ≡ record {
          kind = kind;
          outlets = map new_outlet seats.entry.items;
          waiting = None;
          is_told = false;
        }) }
        ensures sent { IfOk result (λ t. HasSent t []) }
    {
        let room = Vec::with_capacity(alloc, seats.len())?;
        let outlets = outlets_of(alloc, seats)?;
        Ok(PutTarget {
            alloc,
            kind,
            outlets,
            waiting: None,
            spare: None,
            enough: 0,
            is_told: false,
            seats: room,
        })
    }

    /// It has the outlets of its kind, and rows wait only where they may. No End is put before it was told to finish,
    /// none while rows wait, none before a page that is held for its edge, and no page without rows.
    pub fn keeps(&self)
        ensures { KeepsTarget self.now }
    {
        let _is_told = self.is_told;
    }

    /// Whether it takes a page now.
    pub fn wants(&self) -> bool
        ensures wants { IsTrue result ↔ Wants self.now }
        ensures is { result ≡ put_wants self.now }
    {
        !self.is_told && are_clear(&self.outlets)
    }

    /// Takes a page in, for `ready` to put. What each outlet was given is then what it has of all rows that came, in
    /// their order, but for those that wait.
    pub fn put(&mut self, page: Page) -> Result<(), Memory>
        requires { Wants self.old }
        ensures sent { OnOk result ((given : List (List Value)) → HasSent self.old given
            → HasSent self.new (given ++ page.rows)) }
        ensures rest { self.new ≡ record self.old { outlets = self.new.outlets; waiting = self.new.waiting } }
        ensures seats { map (λ l. l.seat) self.new.outlets ≡ map (λ l. l.seat) self.old.outlets }
        ensures lost { OnErr result (self.new ≡ self.old) }
    {
        if may_wait(&self.kind, self.outlets.len()) {
            return self.let_wait(page);
        }
        let pages = pages_for(self.alloc, &self.kind, self.outlets.len(), page)?;
        hold_all(&mut self.outlets, pages);
        Ok(())
    }

    /// Lets a page wait behind the rows that do. Where they cannot be one page, those are spread first.
    fn let_wait(&mut self, page: Page) -> Result<(), Memory>
        requires wants { Wants self.old }
        requires may_wait { may_wait self.old.kind (length self.old.outlets) ≡ true }
        ensures sent { OnOk result ((given : List (List Value)) → HasSent self.old given
            → HasSent self.new (given ++ page.rows)) }
        ensures rest { self.new ≡ record self.old { outlets = self.new.outlets; waiting = self.new.waiting } }
        ensures seats { map (λ l. l.seat) self.new.outlets ≡ map (λ l. l.seat) self.old.outlets }
        ensures lost { OnErr result (self.new ≡ self.old) }
    {
        let wanted = (page.len() as usize).saturating_mul(self.outlets.len());
        self.enough = self.enough.max(wanted.min(MOST_ROWS as usize));
        if let Some(page) = join_behind(self.alloc, &mut self.waiting, &mut self.spare, page)? {
            self.spread()?;
            self.waiting = Some(page);
        }
        Ok(())
    }

    /// Whether so many rows wait, or no more come, that they are to be spread.
    fn is_due(&self) -> bool
        ensures waits { IsTrue result → IsSome self.now.waiting }
        ensures last { self.now.is_told ≡ true → IsSome self.now.waiting → IsTrue result }
    {
        match &self.waiting {
            Some(page) => self.is_told || page.len() as usize >= self.enough,
            None => false,
        }
    }

    /// Spreads the rows that wait over the outlets.
    fn spread(&mut self) -> Result<(), Memory>
        requires clear { All IsClear self.old.outlets }
        requires waits { IsSome self.old.waiting }
        ensures sent { OnOk result ((given : List (List Value)) → HasSent self.old given
            → HasSent self.new given) }
        ensures rest { self.new ≡ record self.old { outlets = self.new.outlets; waiting = self.new.waiting } }
        ensures seats { map (λ l. l.seat) self.new.outlets ≡ map (λ l. l.seat) self.old.outlets }
        ensures none { OnOk result (self.new.waiting ≡ None) }
        ensures lost { OnErr result (self.new ≡ self.old) }
    {
        if let Some(page) = &self.waiting {
            let pages = shares_of(self.alloc, &self.kind, self.outlets.len(), page)?;
            self.spare = self.waiting.take();
            hold_all(&mut self.outlets, pages);
        }
        Ok(())
    }

    /// Tells it that no page comes any more.
    pub fn finish(&mut self)
        ensures { self.new ≡ record self.old { is_told = true } }
    {
        self.is_told = true;
    }

    pub fn is_told(&self) -> bool
        ensures { result ≡ self.now.is_told }
    {
        self.is_told
    }

    /// Whether it was told to finish, no rows wait, and every edge has its pages and its End.
    pub fn is_finished(&self) -> bool
        ensures finished { IsTrue result ↔ IsFinished self.now }
        ensures is { result ≡ put_finished self.now }
    {
        may_end(self.is_told, &self.waiting) && have_put_ends(&self.outlets)
    }

    /// Hands back its seats, wherever it stands, without taking memory.
    pub fn stop(self) -> Vec<GatherPut<'w>>
        ensures seats { result.items ≡ map (λ l. l.seat) self.entry.outlets }
        ensures first { (given : List (List Value)) → HasSent self.entry given
            → HavePutFirst self.entry.kind given result.items }
        ensures all { IsFinished self.entry → (given : List (List Value)) → HasSent self.entry given
            → HavePutAll self.entry.kind given result.items }
    {
        let PutTarget {
            outlets,
            mut seats,
            ..
        } = self;
        give_back(outlets, &mut seats);
        seats
    }
}

impl<'w> EdgeEnd for PutTarget<'w> {
    /// Puts what it holds and, once told to finish and no rows wait, an End to each edge behind its pages, as far as each
    /// edge has room. The answer names the bell of the free places of the first edge that had none, with the count that was read
    /// before the put. Each piece rings the bell of its edge's pieces.
    fn advance<R: Threads + Wait + Sync, B: Bells>(
        &mut self,
        rt: &R,
        bells: &mut B,
    ) -> Result<Option<BlockedOn>, Memory>
        ensures sent { (given : List (List Value)) → HasSent self.old given → HasSent self.new given }
        ensures rest { self.new ≡ record self.old { outlets = self.new.outlets } }
        ensures kept { map (outlet_kept (may_end self.old)) self.new.outlets
            ≡ map (outlet_kept (may_end self.old)) self.old.outlets }
        ensures fulls { fulls_of self.old.outlets ≤ fulls_of self.new.outlets }
        ensures answer { IfOk result (λ on. MatchOption on (AreThrough self.new)
            (λ on. HasStuckOutlet (may_end self.new) self.old.outlets self.new.outlets on
            × B.shown bells.new on.bell on.seen)) }
        ensures tried { IfOk result (λ _. HaveTried (may_end self.new) self.old.outlets self.new.outlets) }
        ensures bells { (bell count : ℕ) → B.shown bells.old bell count
            → B.shown bells.new bell count }
        ensures rang { OnOk result ((bell times : ℕ)
            → B.rang bells.old bell (times + dues self.old bell)
            → B.rang bells.new bell (times + dues self.new bell)) }
    {
        let ends = may_end(self.is_told, &self.waiting);
        Self::advance_all(rt, bells, &mut self.outlets, ends)
    }
}

impl<'w> PageTarget for PutTarget<'w> {
    ghost use Rattle.driver_ends.specs.Ends.{put_as_made, put_finished, put_looks, put_wants};
    ghost use Rattle.driver_ends.specs.Targets.{HasSent, dues};

    ghost was_given = { HasSent };

    ghost wants = { put_wants };

    ghost is_told = { λ t. t.is_told };

    ghost is_finished = { put_finished };

    ghost as_made = { put_as_made };

    ghost looks = { put_looks };

    ghost dues = { dues };

    fn wants(&self) -> bool {
        self.wants()
    }

    fn is_told(&self) -> bool {
        self.is_told()
    }

    fn is_finished(&self) -> bool {
        self.is_finished()
    }

    fn put(&mut self, page: Page) -> Result<(), Memory> {
        self.put(page)
    }

    fn finish(&mut self) {
        self.finish();
    }

    fn ready<R: Threads + Wait + Sync, B: Bells>(
        &mut self,
        rt: &R,
        bells: &mut B,
    ) -> Result<Option<BlockedOn>, Memory> {
        match self.advance(rt, bells)? {
            Some(on) => return Ok(Some(on)),
            None if !self.is_due() => return Ok(None),
            None => self.spread()?,
        }
        self.advance(rt, bells)
    }
}

fn outlets_of<'w>(alloc: Global, seats: Vec<GatherPut<'w>>) -> Result<Vec<Outlet<'w>>, Memory>
    requires { All (λ seat. seat.put ≡ []) seats.items }
    ensures { IfOk result (λ outlets. outlets.items ≡ map new_outlet seats.entry.items) }
{
    let mut outlets = Vec::with_capacity(alloc, seats.len())?;
    put_outlets(seats, &mut outlets);
    Ok(outlets)
}

/// Puts an outlet for each seat, where there is room for them.
fn put_outlets<'w>(seats: Vec<GatherPut<'w>>, outlets: &mut Vec<Outlet<'w>>)
    requires fresh { All (λ seat. seat.put ≡ []) seats.items }
    requires none { outlets.old.items ≡ [] }
    requires room { length seats.items ≤ vec_capacity outlets.old }
    ensures { outlets.new.items ≡ map new_outlet seats.entry.items }
{
    for seat in seats {
        outlets.push_reserved(Outlet::new(seat));
    }
}

fn give_back<'w>(outlets: Vec<Outlet<'w>>, seats: &mut Vec<GatherPut<'w>>)
    requires none { seats.old.items ≡ [] }
    requires room { length outlets.items ≤ vec_capacity seats.old }
    ensures { seats.new.items ≡ map (λ l. l.seat) outlets.entry.items }
{
    for outlet in outlets {
        seats.push_reserved(outlet.into_seat());
    }
}

fn are_clear(outlets: &[Outlet<'_>]) -> bool
    ensures { IsTrue result ↔ All IsClear outlets.now }
{
    outlets.iter().all(|outlet| outlet.is_clear())
}

fn have_put_ends(outlets: &[Outlet<'_>]) -> bool
    ensures { IsTrue result ↔ All (IsThrough true) outlets.now }
{
    outlets.iter().all(|outlet| outlet.has_put_end())
}

/// Whether rows wait before they are spread over so many edges.
fn may_wait(kind: &PutKind, outlets: usize) -> bool
    ensures { result ≡ may_wait kind.now outlets }
{
    match kind {
        PutKind::One | PutKind::Each => false,
        PutKind::Hash(_) => outlets > 1,
    }
}

/// Whether no page comes any more and no rows wait.
fn may_end(is_told: bool, waiting: &Option<Page>) -> bool
    ensures { result ≡ (is_told && is_none waiting.now) }
{
    is_told && waiting.is_none()
}

/// What each of so many edges gets of a page.
fn pages_for(alloc: Global, kind: &PutKind, outlets: usize, page: Page) -> Result<Vec<Page>, Memory>
    requires { FitsKind kind.now outlets }
    ensures { IfOk result (λ pages. map (λ p. p.rows) pages.items ≡ sent_to kind.now outlets page.rows) }
{
    match kind {
        PutKind::One | PutKind::Each => copies_of(alloc, page, outlets),
        PutKind::Hash(partitioner) => parts_of(alloc, partitioner, outlets, page),
    }
}

/// The page's rows by their buckets; the only one of one outlet has them all.
fn parts_of(
    alloc: Global,
    partitioner: &Partitioner,
    outlets: usize,
    page: Page,
) -> Result<Vec<Page>, Memory>
    requires { outlets ≡ partitioner.now.parts }
    ensures { IfOk result (λ pages. map (λ p. p.rows) pages.items ≡ sent_to (Hash partitioner.now) outlets page.rows) }
{
    if outlets == 1 {
        return copies_of(alloc, page, outlets);
    }
    partitioner.split(alloc, &page)
}

/// What each of so many edges gets of the rows that waited.
fn shares_of(
    alloc: Global,
    kind: &PutKind,
    outlets: usize,
    page: &Page,
) -> Result<Vec<Page>, Memory>
    requires { FitsKind kind.now outlets }
    ensures { IfOk result (λ pages. map (λ p. p.rows) pages.items ≡ sent_to kind.now outlets page.now.rows) }
{
    match kind {
        PutKind::One | PutKind::Each => copies_of(alloc, page.copy(alloc)?, outlets),
        PutKind::Hash(partitioner) => partitioner.split(alloc, page),
    }
}

/// The page so many times; the last is the page itself.
fn copies_of(alloc: Global, page: Page, count: usize) -> Result<Vec<Page>, Memory>
    requires { 0 < count }
    ensures { IfOk result (λ pages. pages.items ≡ replicate count page) }
{
    let mut pages = Vec::with_capacity(alloc, count)?;
    put_copies(alloc, &page, count - 1, &mut pages)?;
    pages.push_reserved(page);
    Ok(pages)
}

/// Puts so many copies of the page, where there is room for more.
fn put_copies(alloc: Global, page: &Page, count: usize, pages: &mut Vec<Page>) -> Result<(), Memory>
    requires none { pages.old.items ≡ [] }
    requires room { count < vec_capacity pages.old }
    ensures copies { OnOk result (pages.new.items ≡ replicate count page.now) }
    ensures room { vec_capacity pages.new ≡ vec_capacity pages.old }
{
    for _copy in 0..count {
        pages.push_reserved(page.copy(alloc)?);
    }
    Ok(())
}

/// Gives each outlet its page.
fn hold_all(outlets: &mut [Outlet<'_>], mut pages: Vec<Page>)
    requires each { length pages.items ≡ length outlets.old }
    requires clear { All IsClear outlets.old }
    requires going { All (λ outlet. end_count outlet.seat.put ≡ 0) outlets.old }
    requires order { All OutletInOrder outlets.old }
    ensures seats { map (λ l. l.seat) outlets.new ≡ map (λ l. l.seat) outlets.old }
    ensures sent { map rows_sent outlets.new
        ≡ add_each (map rows_sent outlets.old) (map (λ p. p.rows) pages.items) }
    ensures order { All OutletInOrder outlets.new }
{
    while let Some(page) = pages.pop() {
        let place = pages.len();
        outlets[place].hold(page);
    }
}

/// The wait that came first.
fn earlier(first: Option<BlockedOn>, on: Option<BlockedOn>) -> Option<BlockedOn>
    ensures { result ≡ earlier first on }
{
    match first {
        Some(first) => Some(first),
        None => on,
    }
}

/// How the outlets of a target go on.
trait AdvanceAll {
    /// Puts what each outlet may, and answers the wait of the first whose edge is full.
    fn advance_all<R: Threads + Wait + Sync, B: Bells>(
        rt: &R,
        bells: &mut B,
        outlets: &mut [Outlet<'_>],
        is_told: bool,
    ) -> Result<Option<BlockedOn>, Memory>
        requires order { All OutletInOrder outlets.old };
}

impl<'w> AdvanceAll for PutTarget<'w> {
    fn advance_all<R: Threads + Wait + Sync, B: Bells>(
        rt: &R,
        bells: &mut B,
        outlets: &mut [Outlet<'_>],
        is_told: bool,
    ) -> Result<Option<BlockedOn>, Memory>
        requires order { All OutletInOrder outlets.old }
        ensures kept { map (outlet_kept is_told) outlets.new ≡ map (outlet_kept is_told) outlets.old }
        ensures order { All OutletInOrder outlets.new }
        ensures fulls { fulls_of outlets.old ≤ fulls_of outlets.new }
        ensures answer { IfOk result (λ on. MatchOption on (All (IsThrough is_told) outlets.new)
            (λ on. HasStuckOutlet is_told outlets.old outlets.new on
            × B.shown bells.new on.bell on.seen)) }
        ensures tried { IfOk result (λ _. HaveTried is_told outlets.old outlets.new) }
        ensures bells { (bell count : ℕ) → B.shown bells.old bell count
            → B.shown bells.new bell count }
        ensures rang { OnOk result ((bell times : ℕ)
            → B.rang bells.old bell (times + dues_of outlets.old bell)
            → B.rang bells.new bell (times + dues_of outlets.new bell)) }
    {
        let mut first = None;
        for place in 0..outlets.len() {
            let on = outlets[place].advance_as_told(rt, bells, is_told)?;
            first = earlier(first, on);
        }
        Ok(first)
    }
}
