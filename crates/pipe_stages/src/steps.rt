//! The types behind a step.
ghost use Rattle.std.specs.Prelude.{◌≡◌, ◌++◌, map, IfOk};
ghost use Rattle.sql_exprs.specs.Forms.{form_view};
ghost use Rattle.sql_exprs.specs.Meaning.{kind_of};
ghost use Rattle.plan_layout.specs.Pipes.{step_view};
ghost use Rattle.driver_net_laws.specs.Types.{types_after};
ghost use Rattle.pipe_stages.specs.Tables.{types_in};

use crate::table::{PipeTypes, given_at};
use plan_layout::PipeStep;
use plan_trees::{append_types, copy_types, grouped_types, partial_types};
use sql_exprs::{Expr, kind_of};
use sql_values::{Memory, SqlType, Types};
use std::alloc::Global;

/// The types behind a step over rows of some types. `halved` are those of the rows that came to the first half of an
/// aggregate.
pub fn types_after(
    alloc: Global,
    table: &[PipeTypes],
    halved: &[SqlType],
    step: PipeStep<'_>,
    between: &[SqlType],
) -> Result<Types, Memory>
    ensures { IfOk result
        (λ types. types ≡ types_after (types_in table.now) halved.now (step_view step.entry) between.now) }
{
    match step {
        PipeStep::Filter(..) | PipeStep::Sort(..) | PipeStep::TopN(..) | PipeStep::Limit(..) =>
            copy_types(alloc, between),
        PipeStep::Project(_, columns) => kinds_of(alloc, between, columns.as_slice()),
        PipeStep::Probe(.., at) => joined_types(alloc, between, given_at(table, at)),
        PipeStep::Aggregate(_, keys, calls) => grouped_types(
            alloc,
            between,
            keys.as_slice(),
            calls.as_slice(),
        ),
        PipeStep::Partial(_, keys, calls) => partial_types(
            alloc,
            between,
            keys.as_slice(),
            calls.as_slice(),
        ),
        PipeStep::Final(_, keys, calls) => grouped_types(
            alloc,
            halved,
            keys.as_slice(),
            calls.as_slice(),
        ),
    }
}

/// The types of the values of these columns.
fn kinds_of(alloc: Global, types: &[SqlType], columns: &[Expr]) -> Result<Types, Memory>
    ensures { IfOk result (λ given. given ≡ map (kind_of types.now) (map form_view columns.now)) }
{
    let mut given = Types::new(alloc);
    for column in columns {
        given.push(kind_of(types, column))?;
    }
    Ok(given)
}

/// The types of rows beside one another.
fn joined_types(alloc: Global, left: &[SqlType], right: &[SqlType]) -> Result<Types, Memory>
    ensures { IfOk result (λ given. given ≡ left.now ++ right.now) }
{
    let mut given = copy_types(alloc, left)?;
    append_types(&mut given, right)?;
    Ok(given)
}
