//! Where the pages of a driver come from.
ghost use Rattle.std.specs.Prelude.{◌≡◌, ◌++◌, ℕ, true, IfOk, MatchOption};
ghost use Rattle.driver_loop.specs.Ends.{has_ended, claim_of, rows_taken, source_dues, source_looks, source_made, source_misses, EndsAsBefore, IsBegun, IsDrained, IsOut};
ghost use Rattle.driver_loop.specs.Sources.{Scan, Rows, Local, Remote, Fetch};
ghost use Rattle.driver_loop.specs.Seats.{gather_take_of, spread_take_of};

use crate::rows_source::RowsSource;
use blocked::Bells;
use col_pages::Page;
use driver_ends::{FetchSource, LocalSource, RemoteSource};
use output_buffer::{GatherTake, SpreadTake};
use run_ports::Courier;
use split_source::{ClaimSeat, ScanSource};
use sql_values::Memory;
use stage_moves::{PageSource, Ready};
use std::marker::Model;
use std::sync::Wait;
use std::thread::Threads;

/// Where the pages of a driver come from.
#[derive(Drop)]
pub struct Source<'w, C: Courier> {
    kind: SourceKind<'w, C>,
}

#[derive(Drop)]
pub(crate) enum SourceKind<'w, C: Courier> {
    Scan(ScanSource<'w>),
    Rows(RowsSource),
    Local(LocalSource<'w>),
    Remote(RemoteSource<'w>),
    Fetch(FetchSource<'w, C>),
}

impl<'w, C: Courier> Model for Source<'w, C> {
    ghost use Rattle.driver_loop.specs.Sources.{Source};
    ghost use Rattle.driver_loop.specs.InSource.{source_view};

    ghost Value = { Source };

    ghost view = { λ s. source_view s.kind };
}

/// The seats of a source, of which it has one at most.
#[derive(Drop)]
pub(crate) struct SourceSeats<'w> {
    pub claim: Option<ClaimSeat<'w>>,
    pub gather_take: Option<GatherTake<'w>>,
    pub spread_take: Option<SpreadTake<'w>>,
}

impl<'w, C: Courier> PageSource for Source<'w, C> {
    ghost use Rattle.driver_loop.specs.Ends.{rows_taken, has_ended, source_dues, source_looks, source_made, source_misses};

    ghost taken = { rows_taken };

    ghost is_ended = { has_ended };

    ghost as_made = { source_made };

    ghost looks = { source_looks };

    ghost misses = { source_misses };

    ghost dues = { source_dues };

    fn is_ended(&self) -> bool {
        match &self.kind {
            SourceKind::Scan(scan) => scan.is_ended(),
            SourceKind::Rows(rows) => rows.is_ended(),
            SourceKind::Local(local) => local.is_ended(),
            SourceKind::Remote(remote) => remote.is_ended(),
            SourceKind::Fetch(fetch) => fetch.is_ended(),
        }
    }

    fn ready<R: Threads + Wait + Sync, B: Bells>(
        &mut self,
        rt: &R,
        bells: &mut B,
    ) -> Result<Ready, Memory> {
        match &mut self.kind {
            SourceKind::Scan(_) | SourceKind::Rows(_) => Ok(Ready::Now),
            SourceKind::Local(local) => local.ready(rt, bells),
            SourceKind::Remote(remote) => remote.ready(rt, bells),
            SourceKind::Fetch(fetch) => fetch.ready(rt, bells),
        }
    }

    fn take(&mut self) -> Result<Option<Page>, Memory> {
        self.next()
    }
}

impl<'w, C: Courier> Source<'w, C> {
    /// Splits of a table.
    pub fn scan(scan: ScanSource<'w>) -> Source<'w, C>
        ensures { result ≡ Scan scan.entry }
    {
        Source {
            kind: SourceKind::Scan(scan),
        }
    }

    /// Rows of the plan.
    pub fn rows(rows: RowsSource) -> Source<'w, C>
        ensures { result ≡ Rows rows }
    {
        Source {
            kind: SourceKind::Rows(rows),
        }
    }

    /// An edge that it is the only taker of.
    pub fn local(local: LocalSource<'w>) -> Source<'w, C>
        ensures { result ≡ Local local.entry }
    {
        Source {
            kind: SourceKind::Local(local),
        }
    }

    /// An edge that it is one of many takers of.
    pub fn remote(remote: RemoteSource<'w>) -> Source<'w, C>
        ensures { result ≡ Remote remote.entry }
    {
        Source {
            kind: SourceKind::Remote(remote),
        }
    }

    /// An edge that it is the only taker of, through a fetch.
    pub fn fetch(fetch: FetchSource<'w, C>) -> Source<'w, C>
        ensures { result ≡ Fetch fetch.entry }
    {
        Source {
            kind: SourceKind::Fetch(fetch),
        }
    }

    /// The next page. Where there is none, and only there, a scan and rows of the plan have ended; an edge may give one
    /// later.
    fn next(&mut self) -> Result<Option<Page>, Memory>
        ensures made { source_made self.new ≡ source_made self.old }
        ensures page { IfOk result (λ o. MatchOption o
            ((rows_taken self.new ≡ rows_taken self.old) × IsOut self.new)
            (λ page. (rows_taken self.new ≡ rows_taken self.old ++ page.rows)
            × EndsAsBefore (has_ended self.old) self.new)) }
        ensures looks { source_looks self.new ≡ source_looks self.old }
        ensures misses { source_misses self.new ≡ source_misses self.old }
        ensures dues { (bell : ℕ) → source_dues self.new bell ≡ source_dues self.old bell }
    {
        match &mut self.kind {
            SourceKind::Scan(scan) => scan.next(),
            SourceKind::Rows(rows) => rows.next(),
            SourceKind::Local(local) => Ok(local.take()),
            SourceKind::Remote(remote) => Ok(remote.take()),
            SourceKind::Fetch(fetch) => Ok(fetch.take()),
        }
    }

    /// The law that no row is left where it has ended, and that rows of its own are given in order.
    pub fn keeps(&self)
        ensures drained { has_ended self.now ≡ true → IsDrained self.now }
        ensures begun { IsBegun self.now }
    {
        match &self.kind {
            SourceKind::Scan(scan) => {
                scan.is_ended();
            }
            SourceKind::Rows(rows) => {
                rows.is_ended();
            }
            SourceKind::Local(local) => {
                local.is_ended();
                local.keeps();
            }
            SourceKind::Remote(remote) => {
                remote.is_ended();
                remote.keeps();
            }
            SourceKind::Fetch(fetch) => {
                fetch.is_ended();
                fetch.keeps();
            }
        }
    }

    /// The seat by which it claims splits, or takes from an edge, as it stands.
    pub(crate) fn into_seats(self) -> SourceSeats<'w>
        ensures claim { result.claim ≡ claim_of self.entry }
        ensures gather_take { result.gather_take ≡ gather_take_of self.entry }
        ensures spread_take { result.spread_take ≡ spread_take_of self.entry }
    {
        match self.kind {
            SourceKind::Scan(scan) => SourceSeats {
                claim: Some(scan.into_seat()),
                gather_take: None,
                spread_take: None,
            },
            SourceKind::Rows(_) => SourceSeats {
                claim: None,
                gather_take: None,
                spread_take: None,
            },
            SourceKind::Local(local) => SourceSeats {
                claim: None,
                gather_take: Some(local.stop()),
                spread_take: None,
            },
            SourceKind::Remote(remote) => SourceSeats {
                claim: None,
                gather_take: None,
                spread_take: Some(remote.stop()),
            },
            SourceKind::Fetch(fetch) => SourceSeats {
                claim: None,
                gather_take: Some(fetch.stop()),
                spread_take: None,
            },
        }
    }
}
