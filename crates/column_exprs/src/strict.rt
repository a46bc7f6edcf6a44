ghost use Rattle.std.specs.Prelude.{◌≡◌, ◌∷◌, ◌++◌, [], Ok, IsTrue, IfOk, IfSome};
ghost use Rattle.sql_values.specs.declared.value.Value.{Value};
ghost use Rattle.sql_values.specs.Blocks.{with_cells};
ghost use Rattle.sql_values.specs.Cells.{lent_value};
ghost use Rattle.sql_functions.specs.Calls.{binary_of, unary_of};
ghost use Rattle.sql_functions.specs.Casts.{cast_of};
ghost use Rattle.column_exprs.specs.Operands.{AreOutcomes, HasCells, binary_at, cast_at, operand_cell, unary_at};

use crate::operand::Operand;
use sql_functions::{CallName, binary, cast, unary};
use sql_values::{Block, EvalFault, Memory, SqlType, ValueRef};
use std::alloc::Global;

/// The values of a call of two arguments at so many places, or none where one fails.
#[tactic(auto, using(crate::proofs::OperandLemmas::outcomes))]
pub fn binary_cells(
    alloc: Global,
    name: CallName,
    left: &Operand<'_>,
    right: &Operand<'_>,
    kind: SqlType,
    count: usize,
) -> Result<Option<Block>, Memory>
    requires left { HasCells left.now count }
    requires right { HasCells right.now count }
    ensures kind { IfOk result (λ o. IfSome o (λ b. b.kind ≡ kind)) }
    ensures values { IfOk result (λ o. IfSome o (λ b.
        AreOutcomes (binary_at name left.now right.now) count b.cells)) }
{
    let left_kind = left.kind();
    let right_kind = right.kind();
    let mut block = Block::new(alloc, kind);
    for place in 0..count {
        let a = left.cell(place);
        let b = right.cell(place);
        if !push_binary(alloc, name, left_kind, a, right_kind, b, &mut block)? {
            return Ok(None);
        }
    }
    Ok(Some(block))
}

/// Appends the value of a call, or answers false where it fails or has another variant.
fn push_binary(
    alloc: Global,
    name: CallName,
    left: SqlType,
    a: ValueRef<'_>,
    right: SqlType,
    b: ValueRef<'_>,
    block: &mut Block,
) -> Result<bool, Memory>
    ensures { IfOk result (λ taken. IsTrue taken → (v : Value)
        × (binary_of name left right (lent_value a.entry) (lent_value b.entry) ≡ Ok v)
        × (block.new ≡ with_cells block.old (block.old.cells ++ v ∷ []))) }
{
    match binary(alloc, name, left, a, right, b) {
        Ok(value) => block.push(value.as_ref()),
        Err(EvalFault::Fail(_)) => Ok(false),
        Err(EvalFault::Memory) => Err(Memory),
    }
}

/// The values of a call of one argument at so many places, or none where one fails.
#[tactic(auto, using(crate::proofs::OperandLemmas::outcomes))]
pub fn unary_cells(
    alloc: Global,
    name: CallName,
    arg: &Operand<'_>,
    kind: SqlType,
    count: usize,
) -> Result<Option<Block>, Memory>
    requires { HasCells arg.now count }
    ensures kind { IfOk result (λ o. IfSome o (λ b. b.kind ≡ kind)) }
    ensures values { IfOk result (λ o. IfSome o (λ b.
        AreOutcomes (unary_at name arg.now) count b.cells)) }
{
    let from = arg.kind();
    let mut block = Block::new(alloc, kind);
    for place in 0..count {
        let value = arg.cell(place);
        if !push_unary(name, from, value, &mut block)? {
            return Ok(None);
        }
    }
    Ok(Some(block))
}

fn push_unary(
    name: CallName,
    kind: SqlType,
    value: ValueRef<'_>,
    block: &mut Block,
) -> Result<bool, Memory>
    ensures { IfOk result (λ taken. IsTrue taken → (v : Value)
        × (unary_of name kind (lent_value value.entry) ≡ Ok v)
        × (block.new ≡ with_cells block.old (block.old.cells ++ v ∷ []))) }
{
    match unary(name, kind, value) {
        Ok(value) => block.push(value.as_ref()),
        Err(_) => Ok(false),
    }
}

/// The values of a cast at so many places, or none where one fails.
#[tactic(auto, using(crate::proofs::OperandLemmas::outcomes))]
pub fn cast_cells(
    alloc: Global,
    arg: &Operand<'_>,
    kind: SqlType,
    count: usize,
) -> Result<Option<Block>, Memory>
    requires { HasCells arg.now count }
    ensures kind { IfOk result (λ o. IfSome o (λ b. b.kind ≡ kind)) }
    ensures values { IfOk result (λ o. IfSome o (λ b.
        AreOutcomes (cast_at kind arg.now) count b.cells)) }
{
    let from = arg.kind();
    let mut block = Block::new(alloc, kind);
    for place in 0..count {
        let value = arg.cell(place);
        if !push_cast(alloc, from, kind, value, &mut block)? {
            return Ok(None);
        }
    }
    Ok(Some(block))
}

fn push_cast(
    alloc: Global,
    from: SqlType,
    to: SqlType,
    value: ValueRef<'_>,
    block: &mut Block,
) -> Result<bool, Memory>
    ensures { IfOk result (λ taken. IsTrue taken → (v : Value)
        × (cast_of from to (lent_value value.entry) ≡ Ok v)
        × (block.new ≡ with_cells block.old (block.old.cells ++ v ∷ []))) }
{
    match cast(alloc, from, to, value) {
        Ok(value) => block.push(value.as_ref()),
        Err(EvalFault::Fail(_)) => Ok(false),
        Err(EvalFault::Memory) => Err(Memory),
    }
}

/// One value at so many places, or none where it has not the variant of the type.
#[tactic(auto, using(crate::proofs::OperandLemmas::outcomes))]
pub fn constant_cells(
    alloc: Global,
    kind: SqlType,
    value: ValueRef<'_>,
    count: usize,
) -> Result<Option<Block>, Memory>
    ensures kind { IfOk result (λ o. IfSome o (λ b. b.kind ≡ kind)) }
    ensures values { IfOk result (λ o. IfSome o (λ b.
        AreOutcomes (λ _. Ok (lent_value value.entry)) count b.cells)) }
{
    let mut block = Block::new(alloc, kind);
    for _place in 0..count {
        if !block.push(value)? {
            return Ok(None);
        }
    }
    Ok(Some(block))
}
