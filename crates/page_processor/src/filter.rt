ghost use Rattle.std.specs.Prelude.{◌≡◌, ◌<◌, ◌≤◌, [], length, All, IfOk, OnOk};
ghost use Rattle.std.specs.List.{range_with_len};
ghost use Rattle.columns.specs.Present.{gather};
ghost use Rattle.sql_exprs.specs.Forms.{form_view};
ghost use Rattle.sql_values.specs.Cells.{lent_value};
ghost use Rattle.sql_functions.specs.Truth.{is_true};
ghost use Rattle.plan_trees.specs.Judges.{filter_judge};
ghost use Rattle.page_processor.specs.Judged.{judged};
ghost use Rattle.page_processor.specs.Positions.{calm_positions, true_at, values_at};
ghost use Rattle.sql_exprs.specs.Pages.{cell_at};
ghost use Rattle.col_pages.specs.Fits.{AllFit};
ghost use Rattle.page_processor.specs.Typed.{IsTyped};

use crate::judged::Judged;
use crate::values::{all_positions, values_before};
use col_pages::{Block, Page};
use sql_exprs::Expr;
use sql_values::{Fail, Memory, ValueRef};
use std::alloc::Global;

/// The rows on which the predicate is TRUE, before the first on which it fails.
pub fn filter_page(alloc: Global, predicate: &Expr, page: Page) -> Result<Judged, Memory>
    requires typed { IsTyped page.types (form_view predicate.now) }
    requires fits { AllFit page.types page.rows }
    ensures fits { IfOk result (λ j. AllFit page.types j.page.rows) }
    ensures judged { IfOk result (λ j. j ≡ judged (filter_judge page.types (form_view predicate.now)) page.types page.rows) }
{
    let mut positions = all_positions(alloc, page.len())?;
    let failure = keep_true(alloc, predicate, &page, &mut positions)?;
    Ok(Judged {
        page: keep_rows(alloc, page, positions.as_slice())?,
        failure,
    })
}

/// Keeps the positions at which the predicate is TRUE, before the first at which it fails, and
/// gives that failure.
fn keep_true(
    alloc: Global,
    predicate: &Expr,
    page: &Page,
    positions: &mut Vec<u32>,
) -> Result<Option<Fail>, Memory>
    ensures failure { IfOk result (λ f. f ≡ (values_at page.now.types page.now.rows
        positions.old.items (form_view predicate.now)).failure) }
    ensures kept { OnOk result (positions.new.items ≡ true_at
        (values_at page.now.types page.now.rows positions.old.items (form_view predicate.now)).block.cells
        (calm_positions (cell_at page.now.types (form_view predicate.now) page.now.rows)
        positions.old.items)) }
{
    let values = values_before(alloc, predicate, page, positions)?;
    *positions = true_positions(alloc, &values.block, positions.as_slice())?;
    Ok(values.failure)
}

/// The positions beside which the cell is TRUE.
fn true_positions(alloc: Global, cells: &Block, positions: &[u32]) -> Result<Vec<u32>, Memory>
    requires { length positions.now ≤ length cells.now.cells }
    ensures { IfOk result (λ v. v.items ≡ true_at cells.now.cells positions.now) }
{
    let mut kept = Vec::with_capacity(alloc, positions.len())?;
    for (place, position) in positions.iter().enumerate() {
        if is_true(cells.cell(place)) {
            kept.push(*position)?;
        }
    }
    Ok(kept)
}

fn is_true(value: ValueRef<'_>) -> bool
    ensures { result ≡ is_true (lent_value value.entry) }
{
    match value {
        ValueRef::Boolean(truth) => truth,
        _ => false,
    }
}

/// The rows at the positions: the page itself where these are all there are.
fn keep_rows(alloc: Global, page: Page, positions: &[u32]) -> Result<Page, Memory>
    requires within { All (λ p. p < length page.rows) positions.now }
    requires few { length positions.now ≤ length page.rows }
    requires all { length positions.now ≡ length page.rows → positions.now ≡ range_with_len 0 (length page.rows) }
    ensures { IfOk result (λ p. p ≡ record page { rows = gather page.rows [] positions.now }) }
{
    if positions.len() == page.len() as usize {
        return Ok(page);
    }
    page.select(alloc, positions)
}
