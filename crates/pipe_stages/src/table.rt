//! The types of pipes, by their places.
ghost use Rattle.std.specs.Prelude.{◌≡◌};
ghost use Rattle.pipe_stages.specs.Tables.{types_in};

use sql_values::{SqlType, Types};
use std::alloc::Global;

/// The types of the rows of a pipe.
#[derive(Drop)]
pub struct PipeTypes {
    /// Of its source.
    pub taken: Types,
    /// Of those that come to its last step.
    pub before: Types,
    /// Of those that come to the last step of the pipe whose rows it reads.
    pub halved: Types,
    /// Of those that it gives.
    pub given: Types,
}

impl PipeTypes {
    /// No columns.
    pub(crate) fn none(alloc: Global) -> PipeTypes {
        PipeTypes {
            taken: Types::new(alloc),
            before: Types::new(alloc),
            halved: Types::new(alloc),
            given: Types::new(alloc),
        }
    }
}

/// What the pipe at a place gives; where there is none, no columns.
pub fn given_at(table: &[PipeTypes], at: usize) -> &[SqlType]
    ensures { result.now ≡ (types_in table.now at).given }
{
    match table.get(at) {
        Some(types) => types.given.as_slice(),
        None => &[],
    }
}

/// What comes to the last step of the pipe at a place; where there is none, no columns.
pub(crate) fn before_at(table: &[PipeTypes], at: usize) -> &[SqlType]
    ensures { result.now ≡ (types_in table.now at).before }
{
    match table.get(at) {
        Some(types) => types.before.as_slice(),
        None => &[],
    }
}

/// What the pipe at a place takes; where there is none, no columns.
pub fn taken_at(table: &[PipeTypes], at: usize) -> &[SqlType]
    ensures { result.now ≡ (types_in table.now at).taken }
{
    match table.get(at) {
        Some(types) => types.taken.as_slice(),
        None => &[],
    }
}

/// What comes to the last step of the one whose rows the pipe at a place reads; where there is none, no columns.
pub fn halved_at(table: &[PipeTypes], at: usize) -> &[SqlType]
    ensures { result.now ≡ (types_in table.now at).halved }
{
    match table.get(at) {
        Some(types) => types.halved.as_slice(),
        None => &[],
    }
}
