//! What drivers are made of.
ghost use Rattle.std.specs.Prelude.{◌≡◌, ◌<◌, ◌≤◌, [], ◌∷◌, All, IfOk, IsTrue, Ok, map};
ghost use Rattle.sql_values.specs.ColumnRows.{fits_row};
ghost use Rattle.sql_values.specs.declared.types.SqlType.TheVariants.{Bigint};
ghost use Rattle.col_pages.specs.Pages.{most_rows};
ghost use Rattle.driver_loop.specs.Ends.{rows_taken, target_made};

use crate::slow::Slow;
use driver_loop::{Driver, ResultTarget, RowsSource, Source, Stage, Target};
use operator_core::Operator;
use row_ops::ValuesOp;
use sql_values::{Memory, RowList, SqlType, Types};
use std::alloc::Global;
use test_fixtures::push_number;

/// The type of one whole number.
pub(crate) fn whole(alloc: Global) -> Result<Vec<SqlType>, Memory>
    ensures { IfOk result (λ types. types.items ≡ Bigint ∷ []) }
{
    Ok(Vec::from_array(alloc, [SqlType::Bigint])?)
}

/// A row of each number.
fn rows(alloc: Global, numbers: &[i64]) -> Result<RowList, Memory>
    ensures { IfOk result (λ rows. All (λ row. IsTrue (fits_row (Bigint ∷ []) row)) rows) }
{
    let mut rows = RowList::new(alloc);
    for number in numbers {
        push_number(alloc, &mut rows, *number)?;
    }
    Ok(rows)
}

/// A row of each number, in pages of so many.
pub(crate) fn numbers<'w>(
    alloc: Global,
    numbers: &[i64],
    page: u32,
) -> Result<Source<'w, Slow>, Memory>
    requires { (0 < page) × (page ≤ most_rows) }
    ensures { IfOk result (λ s. rows_taken s ≡ []) }
{
    let types = whole(alloc)?;
    let rows = rows(alloc, numbers)?;
    let op = ValuesOp::new(alloc, rows, types, page);
    Ok(Source::rows(RowsSource::new(op)))
}

/// Keeps rows of these types.
pub(crate) fn result<'w>(
    alloc: Global,
    types: Result<Vec<SqlType>, Memory>,
) -> Result<Target<'w>, Memory>
    ensures { IfOk result (λ t. target_made t ≡ t) }
{
    Ok(Target::Result(ResultTarget::new(alloc, Types::of(types?))))
}

/// Two values, where both were made.
pub(crate) fn both<A: Drop, B: Drop>(
    first: Result<A, Memory>,
    second: Result<B, Memory>,
) -> Result<(A, B), Memory>
    ensures { IfOk result (λ r. (first ≡ Ok r.0) × (second ≡ Ok r.1)) }
{
    let first = first?;
    Ok((first, second?))
}

/// A driver of these parts, where all of them were made. Each driver of these tests is made here: a function that holds
/// parts while it may fail takes long to prove.
pub(crate) fn driver_of<'w>(
    alloc: Global,
    number: u32,
    source: Result<Source<'w, Slow>, Memory>,
    stages: Result<Vec<Stage<'w>>, Memory>,
    target: Result<Target<'w>, Memory>,
) -> Result<Driver<'w, Slow>, Memory>
    requires source { IfOk source (λ s. rows_taken s ≡ []) }
    requires stages { IfOk stages (λ v. map ⟦<Stage<'w> as Operator>⟧.as_made v.items ≡ v.items) }
    requires target { IfOk target (λ t. target_made t ≡ t) }
{
    let (source, (stages, target)) = both(source, both(stages, target))?;
    Driver::new(alloc, number, source, stages, target)
}
