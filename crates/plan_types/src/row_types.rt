ghost use Rattle.std.specs.Prelude.{◌≡◌, Some, IfOk};
ghost use Rattle.plan_types.specs.RowTypes.{plain, whole_of};

use plan_trees::copy_types;
use sql_values::{Memory, SqlType, Types};
use std::alloc::Global;

/// The types of the rows of a node.
#[derive(Drop)]
pub struct RowTypes {
    pub columns: Types,
    /// The columns that the FINAL node makes of the rows of a PARTIAL aggregate.
    pub whole: Option<Types>,
}

pub fn plain(columns: Types) -> RowTypes
    ensures { result ≡ plain columns }
{
    RowTypes {
        columns,
        whole: None,
    }
}

/// The columns of the whole operator.
pub fn whole_of(types: RowTypes) -> Types
    ensures { result ≡ whole_of types }
{
    let RowTypes { columns, whole } = types;
    match whole {
        Some(whole) => whole,
        None => columns,
    }
}

impl RowTypes {
    pub fn copy(&self, alloc: Global) -> Result<RowTypes, Memory>
        ensures { IfOk result (λ t. t ≡ self.now) }
    {
        Ok(RowTypes {
            columns: copy_types(alloc, self.columns.as_slice())?,
            whole: copy_whole(alloc, &self.whole)?,
        })
    }
}

fn copy_whole(alloc: Global, whole: &Option<Types>) -> Result<Option<Types>, Memory>
    ensures { IfOk result (λ w. w ≡ whole.now) }
{
    match whole {
        Some(types) => copy_some(alloc, types.as_slice()),
        None => Ok(None),
    }
}

fn copy_some(alloc: Global, types: &[SqlType]) -> Result<Option<Types>, Memory>
    ensures { IfOk result (λ w. w ≡ Some types.now) }
{
    Ok(Some(copy_types(alloc, types)?))
}
