ghost use Rattle.std.specs.Prelude.{◌≡◌, ◌<◌, ◌≤◌, length, map, take, IfOk};
ghost use Rattle.sql_values.specs.Blocks.{with_cells};
ghost use Rattle.sql_values.specs.ColumnRows.{kinds_of};
ghost use Rattle.sql_exprs.specs.Forms.{form_view};
ghost use Rattle.sql_exprs.specs.Meaning.{kind_of};
ghost use Rattle.plan_trees.specs.Judges.{project_judge};
ghost use Rattle.col_pages.specs.Pages.{most_rows};
ghost use Rattle.page_processor.specs.Judged.{judged};
ghost use Rattle.page_processor.specs.Columns.{AreColumnsUpTo};
ghost use Rattle.col_pages.specs.Fits.{AllFit};
ghost use Rattle.page_processor.specs.Typed.{AllTyped};

use crate::judged::Judged;
use crate::values::{all_positions, values_before};
use col_pages::{Block, Page};
use sql_exprs::Expr;
use sql_values::{Fail, Memory, SqlType};
use std::alloc::Global;

/// The columns' values on the rows before the first on which a column fails.
pub fn project_page(alloc: Global, columns: &[Expr], page: &Page) -> Result<Judged, Memory>
    requires some { 0 < length columns.now }
    requires typed { AllTyped page.now.types (map form_view columns.now) }
    requires fits { AllFit page.now.types page.now.rows }
    ensures fits { IfOk result (λ j. AllFit (map (kind_of page.now.types) (map form_view columns.now)) j.page.rows) }
    ensures judged { IfOk result (λ j. j ≡ judged (project_judge page.now.types (map form_view columns.now)) (map (kind_of page.now.types) (map form_view columns.now)) page.now.rows) }
{
    let evaluated = evaluate_columns(alloc, columns, page)?;
    let types = kinds(alloc, evaluated.blocks.as_slice())?;
    Ok(Judged {
        page: Page::of_blocks(types, evaluated.blocks),
        failure: evaluated.failure,
    })
}

/// The columns, one block each, and the failure that comes after their last row.
#[derive(Drop)]
struct Evaluated {
    blocks: Vec<Block>,
    failure: Option<Fail>,
}

fn evaluate_columns(alloc: Global, columns: &[Expr], page: &Page) -> Result<Evaluated, Memory>
    ensures few { length page.now.rows ≤ most_rows }
    ensures evaluated { IfOk result (λ e. AreColumnsUpTo page.now.types page.now.rows (map form_view columns.now) e.blocks.items e.failure) }
{
    let mut positions = all_positions(alloc, page.len())?;
    let mut blocks = Vec::with_capacity(alloc, columns.len())?;
    let mut failure = None;
    for column in columns {
        let values = values_before(alloc, column, page, &mut positions)?;
        blocks.push(values.block)?;
        failure = values.failure.or(failure);
    }
    truncate_each(&mut blocks, positions.len());
    Ok(Evaluated { blocks, failure })
}

fn kinds(alloc: Global, blocks: &[Block]) -> Result<Vec<SqlType>, Memory>
    ensures { IfOk result (λ v. v.items ≡ kinds_of blocks.now) }
{
    let mut kinds = Vec::with_capacity(alloc, blocks.len())?;
    for block in blocks {
        kinds.push(block.kind())?;
    }
    Ok(kinds)
}

fn truncate_each(blocks: &mut Vec<Block>, len: usize)
    ensures { blocks.new.items ≡ map (λ b. with_cells b (take len b.cells)) blocks.old.items }
{
    for block in blocks.iter_mut() {
        block.truncate(len);
    }
}
