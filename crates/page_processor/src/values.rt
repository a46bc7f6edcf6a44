ghost use Rattle.std.specs.Prelude.{◌≡◌, Ok, IfOk, OnOk};
ghost use Rattle.std.specs.List.{range_with_len};
ghost use Rattle.sql_exprs.specs.Forms.{form_view};
ghost use Rattle.sql_exprs.specs.Meaning.{kind_of};
ghost use Rattle.sql_exprs.specs.Pages.{cell_at, cells_at};
ghost use Rattle.page_processor.specs.Positions.{calm_positions, index_of, values_at};

use col_pages::{Block, Page};
use column_exprs::eval_columns;
use sql_exprs::{Expr, PageFault};
use sql_values::{Fail, Memory};
use std::alloc::Global;

/// The values of an expression at positions, and the failure at the one after them.
#[derive(Drop)]
pub struct Values {
    pub block: Block,
    pub failure: Option<Fail>,
}

/// The positions of so many rows.
pub fn all_positions(alloc: Global, count: u32) -> Result<Vec<u32>, Memory>
    ensures { IfOk result (λ v. v.items ≡ range_with_len 0 count) }
{
    let mut positions = Vec::with_capacity(alloc, count as usize)?;
    for position in 0..count {
        positions.push(position)?;
    }
    Ok(positions)
}

/// The values before the first position at which the expression fails. That position and those
/// after it are taken out.
pub fn values_before(
    alloc: Global,
    expr: &Expr,
    page: &Page,
    positions: &mut Vec<u32>,
) -> Result<Values, Memory>
    ensures values { IfOk result (λ v. v ≡ values_at page.now.types page.now.rows positions.old.items (form_view expr.now)) }
    ensures kept { OnOk result (positions.new.items ≡ calm_positions (cell_at page.now.types (form_view expr.now) page.now.rows) positions.old.items) }
{
    match eval_columns(alloc, expr, page, positions.as_slice()) {
        Ok(block) => Ok(Values {
            block,
            failure: None,
        }),
        Err(PageFault::Memory) => Err(Memory),
        Err(PageFault::At { position, kind }) => {
            positions.truncate(index_of(positions.as_slice(), position));
            Ok(Values {
                block: calm_values(alloc, expr, page, positions.as_slice())?,
                failure: Some(kind),
            })
        }
    }
}

/// The values at positions at none of which the expression fails.
fn calm_values(alloc: Global, expr: &Expr, page: &Page, positions: &[u32]) -> Result<Block, Memory>
    ensures kind { IfOk result (λ b. b.kind ≡ kind_of page.now.types (form_view expr.now)) }
    ensures cells { IfOk result (λ b. cells_at page.now.types (form_view expr.now) page.now.rows positions.now ≡ Ok b.cells) }
{
    match eval_columns(alloc, expr, page, positions) {
        Ok(block) => Ok(block),
        Err(_) => Err(Memory),
    }
}

/// The index of the first position that is this one.
fn index_of(positions: &[u32], position: u32) -> usize
    ensures { result ≡ index_of position positions.now }
{
    for (i, other) in positions.iter().enumerate() {
        if *other == position {
            return i;
        }
    }
    positions.len()
}
