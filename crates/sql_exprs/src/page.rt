ghost use Rattle.std.specs.Prelude.{◌≡◌, ◌++◌, [], ◌∷◌, Ok, IfOk, IfSome, IsTrue, OnOk, MatchResult};
ghost use Rattle.std.specs.List.{range_with_len};
ghost use Rattle.sql_values.specs.declared.value.Value.{Value};
ghost use Rattle.sql_values.specs.Blocks.{with_cells};
ghost use Rattle.sql_values.specs.Cells.{lent_value};
ghost use Rattle.sql_exprs.specs.Forms.{column, form_view};
ghost use Rattle.sql_exprs.specs.Meaning.{kind_of};
ghost use Rattle.sql_exprs.specs.Pages.{FaultIsAt, FailsHere, cell_at, cells_at, in_block};

use crate::eval::eval_cells;
use crate::expr::Expr;
use crate::kinds::kind_of;
use crate::page_row::PageRow;
use col_pages::{Block, Page};
use sql_values::{EvalFault, Fail, Memory, SqlType, ValueRef};
use std::alloc::Global;
use thiserror::Error;

/// Why an expression gives no block of values.
#[derive(Clone, Copy, Debug, Error)]
pub enum PageFault {
    /// The first of the positions at which the expression fails, and how.
    #[error("an expression fails at a position")]
    At { position: u32, kind: Fail },
    #[error("out of memory")]
    Memory,
}

impl From<Memory> for PageFault {
    ghost use Rattle.sql_exprs.specs.declared.page.PageFault.TheVariants as fault;
    ghost use Rattle.std.specs.Prelude.{◌≡◌};

    ghost from_gives = { λ _ e. e ≡ fault.Memory };

    fn from(_: Memory) -> PageFault {
        PageFault::Memory
    }
}

/// The values of an expression at positions of a page, in the order of the positions.
pub fn eval_page(
    alloc: Global,
    expr: &Expr,
    page: &Page,
    positions: &[u32],
) -> Result<Block, PageFault>
    ensures kind { IfOk result (λ b. b.kind ≡ kind_of page.now.types (form_view expr.now)) }
    ensures cells { MatchResult result
        (λ b. cells_at page.now.types (form_view expr.now) page.now.rows positions.now ≡ Ok b.cells)
        (FaultIsAt (cells_at page.now.types (form_view expr.now) page.now.rows positions.now)) }
{
    match whole_column(alloc, expr, page, positions)? {
        Some(block) => Ok(block),
        None => eval_each(alloc, expr, page, positions),
    }
}

/// A copy of a column, where the expression is one and the positions are those of all rows.
fn whole_column(
    alloc: Global,
    expr: &Expr,
    page: &Page,
    positions: &[u32],
) -> Result<Option<Block>, Memory>
    ensures kind { IfOk result
        (λ o. IfSome o (λ b. b.kind ≡ kind_of page.now.types (form_view expr.now))) }
    ensures cells { IfOk result (λ o. IfSome o (λ b.
        cells_at page.now.types (form_view expr.now) page.now.rows positions.now ≡ Ok b.cells)) }
{
    let Some(column) = column_of(expr) else {
        return Ok(None);
    };
    if !are_all(positions, page.len()) {
        return Ok(None);
    }
    page.rows_fit();
    page.column(alloc, kind_of(page.types(), expr), column)
}

/// The column that an expression names, if it is nothing else.
fn column_of(expr: &Expr) -> Option<u32>
    ensures { IfSome result (λ n. form_view expr.now ≡ column n) }
{
    match expr {
        Expr::Column(column) => Some(*column),
        Expr::Literal { .. }
        | Expr::Null(_)
        | Expr::Call { .. }
        | Expr::Cast { .. }
        | Expr::Case { .. } => None,
    }
}

/// Whether the positions are those of so many rows, in their order.
fn are_all(positions: &[u32], count: u32) -> bool
    ensures { IsTrue result → positions.now ≡ range_with_len 0 count }
{
    if positions.len() != count as usize {
        return false;
    }
    for place in 0..count {
        if positions[place as usize] != place {
            return false;
        }
    }
    true
}

/// The values, one position after the other.
fn eval_each(alloc: Global, expr: &Expr, page: &Page, positions: &[u32]) -> Result<Block, PageFault>
    ensures kind { IfOk result (λ b. b.kind ≡ kind_of page.now.types (form_view expr.now)) }
    ensures cells { MatchResult result
        (λ b. cells_at page.now.types (form_view expr.now) page.now.rows positions.now ≡ Ok b.cells)
        (FaultIsAt (cells_at page.now.types (form_view expr.now) page.now.rows positions.now)) }
{
    let types = page.types();
    let mut block = Block::new(alloc, kind_of(types, expr));
    for position in positions {
        push_at(alloc, expr, types, page, *position, &mut block)?;
    }
    Ok(block)
}

/// Appends the value at a position.
fn push_at(
    alloc: Global,
    expr: &Expr,
    types: &[SqlType],
    page: &Page,
    position: u32,
    block: &mut Block,
) -> Result<(), PageFault>
    requires { block.old.kind ≡ kind_of types.now (form_view expr.now) }
    ensures { MatchResult result
        (λ _. (v : Value)
        × (cell_at types.now (form_view expr.now) page.now.rows position ≡ Ok v)
        × (block.new ≡ with_cells block.old (block.old.cells ++ v ∷ [])))
        (FailsHere position (cell_at types.now (form_view expr.now) page.now.rows position)) }
{
    let row = PageRow { page, position };
    match eval_cells(alloc, expr, types, &row) {
        Ok(value) => {
            push_or_null(block, value.as_ref())?;
            Ok(())
        }
        Err(EvalFault::Fail(kind)) => Err(PageFault::At { position, kind }),
        Err(EvalFault::Memory) => Err(PageFault::Memory),
    }
}

/// Appends the value, or NULL where it has another variant than the block.
#[tactic(auto, using(sql_functions::proofs::FitLemmas::null_fits))]
fn push_or_null(block: &mut Block, value: ValueRef<'_>) -> Result<(), Memory>
    ensures { OnOk result (block.new ≡ with_cells block.old
        (block.old.cells ++ in_block block.old.kind (lent_value value.entry) ∷ [])) }
{
    if !block.push(value)? {
        block.push(ValueRef::Null)?;
    }
    Ok(())
}
