//! Lists of types.
ghost use Rattle.std.specs.Prelude.{◌≡◌, ◌↔◌, ◌++◌, IfOk, IsTrue, OnOk};
ghost use Rattle.sql_functions.specs.CallTypes.{type_at};

use sql_values::{Memory, SqlType, Types};
use std::alloc::Global;

pub fn copy_types(alloc: Global, types: &[SqlType]) -> Result<Types, Memory>
    ensures { IfOk result (λ copy. copy ≡ types.now) }
{
    Ok(Types::of(Vec::from_slice(alloc, types)?))
}

pub fn append_types(types: &mut Types, more: &[SqlType]) -> Result<(), Memory>
    ensures { OnOk result (types.new ≡ types.old ++ more.now) }
{
    for kind in more {
        types.push(*kind)?;
    }
    Ok(())
}

/// Whether the lists are one and the same.
pub fn are_same(types: &[SqlType], others: &[SqlType]) -> bool
    ensures { IsTrue result ↔ (types.now ≡ others.now) }
{
    types == others
}

/// The type of the column at a place: boolean where there is none.
pub fn type_at(types: &[SqlType], column: u32) -> SqlType
    ensures { result ≡ type_at types.now column }
{
    match types.get(column as usize) {
        Some(kind) => *kind,
        None => SqlType::Boolean,
    }
}
