ghost use Rattle.std.specs.Prelude.{◌≡◌, Some, IfOk, IsTrue, map, option_map};
ghost use Rattle.std.specs.List.{range_with_len};
ghost use Rattle.sql_exprs.specs.Forms.{column, form_view};
ghost use Rattle.page_processor.specs.Judged.{judged};
ghost use Rattle.col_pages.specs.Fits.{AllFit};
ghost use Rattle.row_ops.specs.RowJudges.{AreTyped, kinds_of_forms, row_judge};

use col_pages::Page;
use page_processor::{Judged, filter_page, project_page};
use sql_exprs::Expr;
use sql_values::Memory;
use std::alloc::Global;

/// What a predicate and then columns make of a page, up to the first row that fails.
pub(crate) fn judge_page(
    alloc: Global,
    predicate: &Option<Expr>,
    columns: &[Expr],
    page: Page,
) -> Result<Judged, Memory>
    requires typed { AreTyped page.types (option_map form_view predicate.now)
        (map form_view columns.now) }
    requires fits { AllFit page.types page.rows }
    ensures fits { IfOk result (λ j.
        AllFit (kinds_of_forms page.types (map form_view columns.now)) j.page.rows) }
    ensures judged { IfOk result (λ j. j ≡ judged
        (row_judge page.types (option_map form_view predicate.now) (map form_view columns.now))
        (kinds_of_forms page.types (map form_view columns.now)) page.rows) }
{
    match predicate {
        None => project_page(alloc, columns, &page),
        Some(predicate) => filter_and_project(alloc, predicate, columns, page),
    }
}

/// The failure of a column on the rows that the filter kept comes before the filter's own.
fn filter_and_project(
    alloc: Global,
    predicate: &Expr,
    columns: &[Expr],
    page: Page,
) -> Result<Judged, Memory>
    requires typed { AreTyped page.types (Some (form_view predicate.now))
        (map form_view columns.now) }
    requires fits { AllFit page.types page.rows }
    ensures fits { IfOk result (λ j.
        AllFit (kinds_of_forms page.types (map form_view columns.now)) j.page.rows) }
    ensures judged { IfOk result (λ j. j ≡ judged
        (row_judge page.types (Some (form_view predicate.now)) (map form_view columns.now))
        (kinds_of_forms page.types (map form_view columns.now)) page.rows) }
{
    let kept = filter_page(alloc, predicate, page)?;
    if are_all_columns(columns, kept.page.types().len()) {
        return Ok(kept);
    }
    let mapped = project_page(alloc, columns, &kept.page)?;
    Ok(Judged {
        page: mapped.page,
        failure: mapped.failure.or(kept.failure),
    })
}

/// Whether these are so many columns of the input, each at its own place.
fn are_all_columns(columns: &[Expr], count: usize) -> bool
    ensures { IsTrue result → map form_view columns.now ≡ map column (range_with_len 0 count) }
{
    if columns.len() != count {
        return false;
    }
    for (place, column) in columns.iter().enumerate() {
        if !is_column(column, place) {
            return false;
        }
    }
    true
}

fn is_column(expr: &Expr, place: usize) -> bool
    ensures { IsTrue result → form_view expr.now ≡ column place }
{
    match expr {
        Expr::Column(own) => *own as usize == place,
        _ => false,
    }
}
