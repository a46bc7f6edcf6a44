ghost use Rattle.std.specs.Prelude.{◌≡◌, length, IfOk, IfSome, IsTrue};
ghost use Rattle.sql_values.specs.declared.types.SqlType.TheVariants as kind_is;
ghost use Rattle.sql_exprs.specs.Forms.{Form, call, cast, more, none};
ghost use Rattle.column_exprs.specs.Operands.{AreOutcomes, HasCells, IsOperand, binary_at, is_strict};

use crate::compare::compare_cells;
use crate::decimal_cells::decimal_cells;
use crate::operand::Operand;
use crate::rows::Rows;
use crate::strict::{binary_cells, cast_cells, unary_cells};
use sql_functions::{CallName, call_type};
use sql_values::{Block, Memory, SqlType};
use std::alloc::Global;

/// The operand of a cast, by that of its argument.
#[tactic(auto, using(crate::proofs::OperandLemmas::made))]
pub fn cast_made<'a>(
    alloc: Global,
    arg: &Operand<'_>,
    kind: SqlType,
    rows: Rows<'_>,
) -> Result<Option<Operand<'a>>, Memory>
    requires { HasCells arg.now (length rows.positions.now) }
    ensures { IfOk result (λ o. IfSome o (λ x. (form : Form) → IsOperand form rows.entry arg.now
        → IsOperand (cast form kind) rows.entry x)) }
{
    match cast_cells(alloc, arg, kind, rows.positions.len())? {
        Some(block) => Ok(Some(Operand::Made(block))),
        None => Ok(None),
    }
}

/// The operand of a call of one argument, by that of the argument.
#[tactic(auto, using(crate::proofs::OperandLemmas::made))]
pub fn unary_made<'a>(
    alloc: Global,
    name: CallName,
    arg: &Operand<'_>,
    rows: Rows<'_>,
) -> Result<Option<Operand<'a>>, Memory>
    requires cells { HasCells arg.now (length rows.positions.now) }
    requires strict { IsTrue (is_strict name) }
    ensures { IfOk result (λ o. IfSome o (λ x. (form : Form) → IsOperand form rows.entry arg.now
        → IsOperand (call name (more form none)) rows.entry x)) }
{
    let kind = call_type(name, arg.kind(), SqlType::Boolean);
    match unary_cells(alloc, name, arg, kind, rows.positions.len())? {
        Some(block) => Ok(Some(Operand::Made(block))),
        None => Ok(None),
    }
}

/// The operand of a call of two arguments, by those of the arguments.
#[tactic(auto, using(crate::proofs::OperandLemmas::made))]
pub fn binary_made<'a>(
    alloc: Global,
    name: CallName,
    left: &Operand<'_>,
    right: &Operand<'_>,
    rows: Rows<'_>,
) -> Result<Option<Operand<'a>>, Memory>
    requires left { HasCells left.now (length rows.positions.now) }
    requires right { HasCells right.now (length rows.positions.now) }
    requires strict { IsTrue (is_strict name) }
    ensures { IfOk result (λ o. IfSome o (λ x. (f g : Form) → IsOperand f rows.entry left.now
        → IsOperand g rows.entry right.now
        → IsOperand (call name (more f (more g none))) rows.entry x)) }
{
    let kind = call_type(name, left.kind(), right.kind());
    match two_cells(alloc, name, left, right, kind, rows.positions.len())? {
        Some(block) => Ok(Some(Operand::Made(block))),
        None => Ok(None),
    }
}

/// The values of a call of two arguments: decimals and comparisons of columns have loops of their own.
fn two_cells(
    alloc: Global,
    name: CallName,
    left: &Operand<'_>,
    right: &Operand<'_>,
    kind: SqlType,
    count: usize,
) -> Result<Option<Block>, Memory>
    requires left { HasCells left.now count }
    requires right { HasCells right.now count }
    ensures kind { IfOk result (λ o. IfSome o (λ b. b.kind ≡ kind)) }
    ensures values { IfOk result (λ o. IfSome o (λ b.
        AreOutcomes (binary_at name left.now right.now) count b.cells)) }
{
    match kind {
        SqlType::Decimal { .. } => decimal_cells(alloc, name, left, right, kind, count),
        SqlType::Boolean => boolean_cells(alloc, name, left, right, count),
        _ => binary_cells(alloc, name, left, right, kind, count),
    }
}

/// The truths of a call of two arguments.
fn boolean_cells(
    alloc: Global,
    name: CallName,
    left: &Operand<'_>,
    right: &Operand<'_>,
    count: usize,
) -> Result<Option<Block>, Memory>
    requires left { HasCells left.now count }
    requires right { HasCells right.now count }
    ensures kind { IfOk result (λ o. IfSome o (λ b. b.kind ≡ kind_is.Boolean)) }
    ensures values { IfOk result (λ o. IfSome o (λ b.
        AreOutcomes (binary_at name left.now right.now) count b.cells)) }
{
    match compare_cells(alloc, name, left, right, count)? {
        Some(block) => Ok(Some(block)),
        None => binary_cells(alloc, name, left, right, SqlType::Boolean, count),
    }
}
