ghost use Rattle.std.specs.Prelude.{◌≡◌, ◌<◌, ◌++◌, length, map, None, MatchResult};
ghost use Rattle.sql_exprs.specs.Forms.{form_view};
ghost use Rattle.sql_exprs.specs.Meaning.{kind_of};
ghost use Rattle.plan_trees.specs.Judges.{filter_judge, project_judge};
ghost use Rattle.page_processor.specs.Judged.{first_failure, rows_before};
ghost use Rattle.col_pages.specs.Fits.{AllFit};
ghost use Rattle.page_processor.specs.Typed.{AllTyped, IsTyped};
ghost use Rattle.tree_evaluator.specs.Stops.{StopsHere};

use crate::node_rows::NodeRows;
use crate::stop::EvalStop;
use page_processor::{Judged, filter_page, project_page};
use sql_exprs::Expr;
use sql_values::SqlType;
use std::alloc::Global;

/// The rows on which the predicate is TRUE, or the first failure.
pub fn filter_rows(
    alloc: Global,
    id: u32,
    predicate: &Expr,
    mut rows: NodeRows,
) -> Result<NodeRows, EvalStop>
    requires { IsTyped rows.types (form_view predicate.now) }
    ensures { MatchResult result
        (λ kept. (first_failure (filter_judge rows.types (form_view predicate.now)) rows.rows ≡ None)
        × (kept ≡ record {
          types = rows.types;
          rows = rows_before (filter_judge rows.types (form_view predicate.now)) rows.rows;
        }))
        (StopsHere id (first_failure (filter_judge rows.types (form_view predicate.now)) rows.rows)) }
{
    let mut kept = NodeRows::new(alloc, rows.types())?;
    while let Some(page) = rows.take_first() {
        let judged = filter_page(alloc, predicate, page)?;
        keep(id, judged, &mut kept)?;
    }
    Ok(kept)
}

/// The values of the columns, which have these types, or the first failure.
pub fn project_rows(
    alloc: Global,
    id: u32,
    columns: &[Expr],
    types: &[SqlType],
    mut rows: NodeRows,
) -> Result<NodeRows, EvalStop>
    requires some { 0 < length columns.now }
    requires typed { AllTyped rows.types (map form_view columns.now) }
    requires types { types.now ≡ map (kind_of rows.types) (map form_view columns.now) }
    ensures { MatchResult result
        (λ kept. (first_failure (project_judge rows.types (map form_view columns.now)) rows.rows ≡ None)
        × (kept ≡ record {
          types = types.now;
          rows = rows_before (project_judge rows.types (map form_view columns.now)) rows.rows;
        }))
        (StopsHere id (first_failure (project_judge rows.types (map form_view columns.now)) rows.rows)) }
{
    let mut kept = NodeRows::new(alloc, types)?;
    while let Some(page) = rows.take_first() {
        let judged = project_page(alloc, columns, &page)?;
        keep(id, judged, &mut kept)?;
    }
    Ok(kept)
}

/// Keeps the rows of a page that was judged as a whole.
fn keep(id: u32, judged: Judged, kept: &mut NodeRows) -> Result<(), EvalStop>
    requires types { judged.page.types ≡ kept.old.types }
    requires fits { AllFit kept.old.types judged.page.rows }
    ensures { MatchResult result
        (λ _. (judged.failure ≡ None)
        × (kept.new ≡ record kept.old { rows = kept.old.rows ++ judged.page.rows }))
        (StopsHere id judged.failure) }
{
    if let Some(kind) = judged.failure {
        return Err(EvalStop::ExprFailed { node: id, kind });
    }
    kept.push(judged.page)?;
    Ok(())
}
