ghost use Rattle.std.specs.Prelude.{◌≡◌, ◌<◌, All, Ok, IfOk, IfSome, IsTrue, MatchResult};
ghost use Rattle.std.specs.List.{range_with_len};
ghost use Rattle.sql_exprs.specs.Forms.{form_view};
ghost use Rattle.sql_exprs.specs.Meaning.{kind_of};
ghost use Rattle.sql_exprs.specs.Pages.{FaultIsAt, cells_at};
ghost use Rattle.column_exprs.specs.Operands.{AreOutcomes, HasCells, operand_cell, operand_kind};

use crate::operand::Operand;
use crate::parts::operand_of;
use crate::rows::Rows;
use crate::strict::constant_cells;
use col_pages::{Block, Page};
use sql_exprs::{Expr, PageFault, eval_page};
use sql_values::Memory;
use std::alloc::Global;

/// The values of an expression at positions of a page, in the order of the positions.
pub fn eval_columns(
    alloc: Global,
    expr: &Expr,
    page: &Page,
    positions: &[u32],
) -> Result<Block, PageFault>
    ensures kind { IfOk result (λ b. b.kind ≡ kind_of page.now.types (form_view expr.now)) }
    ensures cells { MatchResult result
        (λ b. cells_at page.now.types (form_view expr.now) page.now.rows positions.now ≡ Ok b.cells)
        (FaultIsAt (cells_at page.now.types (form_view expr.now) page.now.rows positions.now)) }
{
    match try_columns(alloc, expr, page, positions)? {
        Some(block) => Ok(block),
        None => eval_page(alloc, expr, page, positions),
    }
}

/// The values, or none where a row fails or a part is not covered.
fn try_columns(
    alloc: Global,
    expr: &Expr,
    page: &Page,
    positions: &[u32],
) -> Result<Option<Block>, Memory>
    ensures kind { IfOk result (λ o. IfSome o (λ b.
        b.kind ≡ kind_of page.now.types (form_view expr.now))) }
    ensures cells { IfOk result (λ o. IfSome o (λ b.
        cells_at page.now.types (form_view expr.now) page.now.rows positions.now ≡ Ok b.cells)) }
{
    if !are_within(positions, page.len()) {
        return Ok(None);
    }
    let whole = are_all(positions, page.len());
    let rows = Rows {
        page,
        positions,
        whole,
    };
    let Some(operand) = operand_of(alloc, expr, rows)? else {
        return Ok(None);
    };
    let Some(block) = block_of(alloc, operand, positions.len())? else {
        return Ok(None);
    };
    block.cells_fit();
    Ok(Some(block))
}

/// The block of the values that an operand stands for, or none where they are not of its type.
fn block_of(alloc: Global, operand: Operand<'_>, count: usize) -> Result<Option<Block>, Memory>
    requires { HasCells operand count }
    ensures kind { IfOk result (λ o. IfSome o (λ b. b.kind ≡ operand_kind operand.entry)) }
    ensures values { IfOk result (λ o. IfSome o (λ b.
        AreOutcomes (λ k. Ok (operand_cell operand.entry k)) count b.cells)) }
{
    match operand {
        Operand::Lent(block) => Ok(Some(block.copy(alloc)?)),
        Operand::Made(block) => Ok(Some(block)),
        Operand::Constant { kind, value } => constant_cells(alloc, kind, value, count),
    }
}

/// Whether each position is that of one of so many rows.
fn are_within(positions: &[u32], count: u32) -> bool
    ensures { IsTrue result → All (λ p. p < count) positions.now }
{
    positions.iter().all(|position| *position < count)
}

/// Whether the positions are those of so many rows, in their order.
fn are_all(positions: &[u32], count: u32) -> bool
    ensures { IsTrue result → positions.now ≡ range_with_len 0 count }
{
    if positions.len() != count as usize {
        return false;
    }
    for place in 0..count {
        if positions[place as usize] != place {
            return false;
        }
    }
    true
}
