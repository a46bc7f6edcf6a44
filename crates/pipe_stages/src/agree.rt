//! Whether those that give to a pipe give what it takes.
ghost use Rattle.std.specs.Prelude.{◌≡◌, ℕ, true, map, IsTrue, slice_get, Some};
ghost use Rattle.plan_layout.specs.Pipes.{PipeForm, pipe_view, source_view, target_view};
ghost use Rattle.driver_net_laws.specs.Types.{AreGiven, AreHalved, TakesTypes, gives_to};
ghost use Rattle.pipe_stages.specs.Tables.{types_in};

use crate::table::{PipeTypes, before_at, given_at, halved_at, taken_at};
use plan_layout::{Pipe, PipeSource, PipeTarget};
use plan_trees::are_same;

/// Whether the rows go to the pipe at a place: to the source of a union, or to that which reads the fragment.
pub(crate) fn gives_to(at: usize, target: PipeTarget<'_>) -> bool
    ensures { result ≡ gives_to at (target_view target.entry) }
{
    match target {
        PipeTarget::Side(pipe) => pipe == at,
        PipeTarget::Readers(_, pipe) => pipe == at,
        PipeTarget::Result | PipeTarget::Cell(_) | PipeTarget::Takers(_) => false,
    }
}

/// Whether a pipe, if it gives to the one at a place, gives rows of the types that this takes.
fn is_given(table: &[PipeTypes], at: usize, from: usize, pipe: &Pipe<'_>) -> bool
    ensures { IsTrue result → gives_to at (pipe_view pipe.now).target ≡ true
        → (types_in table.now from).given ≡ (types_in table.now at).taken }
{
    !gives_to(at, pipe.target) || are_same(given_at(table, from), taken_at(table, at))
}

/// Whether those that give to the pipe at a place give rows of the types that it takes.
fn are_given(pipes: &[Pipe<'_>], table: &[PipeTypes], at: usize) -> bool
    ensures { IsTrue result → AreGiven (map pipe_view pipes.now) (types_in table.now) at }
{
    for from in 0..pipes.len() {
        if !is_given(table, at, from, &pipes[from]) {
            return false;
        }
    }
    true
}

/// Whether the types of the rows that came to a pipe's last step, if it gives to the one at a place, are the `halved`
/// types of this one.
fn is_halved(table: &[PipeTypes], at: usize, from: usize, pipe: &Pipe<'_>) -> bool
    ensures { IsTrue result → gives_to at (pipe_view pipe.now).target ≡ true
        → (types_in table.now from).before ≡ (types_in table.now at).halved }
{
    !gives_to(at, pipe.target) || are_same(before_at(table, from), halved_at(table, at))
}

/// Whether the types of the rows that came to their last steps are the `halved` types of the pipe at the place.
fn are_halved(pipes: &[Pipe<'_>], table: &[PipeTypes], at: usize) -> bool
    ensures { IsTrue result → AreHalved (map pipe_view pipes.now) (types_in table.now) at }
{
    for from in 0..pipes.len() {
        if !is_halved(table, at, from, &pipes[from]) {
            return false;
        }
    }
    true
}

/// Whether the pipe at a place takes what comes from its source.
pub(crate) fn takes_types(
    pipes: &[Pipe<'_>],
    table: &[PipeTypes],
    at: usize,
    source: PipeSource<'_>,
) -> bool
    ensures { IsTrue result
        → TakesTypes (map pipe_view pipes.now) (types_in table.now) at (source_view source.entry) }
{
    match source {
        PipeSource::Table(_, _, types) => are_same(taken_at(table, at), types.as_slice()),
        PipeSource::Rows(types, _) => are_same(taken_at(table, at), types.as_slice()),
        PipeSource::Sides => are_given(pipes, table, at),
        PipeSource::Fragment(_) => are_given(pipes, table, at) && are_halved(pipes, table, at),
        PipeSource::Edge(..) => true,
    }
}
