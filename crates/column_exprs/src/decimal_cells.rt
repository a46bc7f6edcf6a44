ghost use Rattle.std.specs.Prelude.{◌≡◌, map, IfOk, IfSome, Ok};
ghost use Rattle.sql_values.specs.declared.types.SqlType.TheVariants as kind_is;
ghost use Rattle.sql_values.specs.declared.value.Value.TheVariants as value_is;
ghost use Rattle.sql_values.specs.Blocks.{or_null};
ghost use Rattle.sql_values.specs.Cells.{lent_value};
ghost use Rattle.sql_functions.specs.Arithmetic.{difference_of, product_of, sum_of};
ghost use Rattle.sql_functions.specs.Calls.{binary_of};
ghost use Rattle.column_exprs.specs.Operands.{AreOutcomes, HasCells, binary_at, operand_kind};

use crate::decimal::{Digits, DigitsOfTwo};
use crate::operand::Operand;
use columns::Nullable;
use sql_functions::CallName;
use sql_values::{Block, Memory, SqlType, ValueRef};
use std::alloc::Global;

/// The values of a sum, a difference or a product of decimals at so many places, or none where the
/// call is another one or a number is out of range.
pub fn decimal_cells(
    alloc: Global,
    name: CallName,
    left: &Operand<'_>,
    right: &Operand<'_>,
    kind: SqlType,
    count: usize,
) -> Result<Option<Block>, Memory>
    requires left { HasCells left.now count }
    requires right { HasCells right.now count }
    ensures kind { IfOk result (λ o. IfSome o (λ b. b.kind ≡ kind)) }
    ensures values { IfOk result (λ o. IfSome o (λ b.
        AreOutcomes (binary_at name left.now right.now) count b.cells)) }
{
    let Some(digits) = digits_of_two(left.kind(), right.kind()) else {
        return Ok(None);
    };
    let SqlType::Decimal { p, s } = kind else {
        return Ok(None);
    };
    match numbers(alloc, name, digits, left, right, count)? {
        Some(numbers) => Ok(Some(Block::of_decimals(p, s, numbers))),
        None => Ok(None),
    }
}

/// What two types say of their numbers, if both are decimal ones.
fn digits_of_two(left: SqlType, right: SqlType) -> Option<DigitsOfTwo>
    ensures left { IfSome result (λ d. left ≡ kind_is.Decimal d.left.p d.left.s) }
    ensures right { IfSome result (λ d. right ≡ kind_is.Decimal d.right.p d.right.s) }
{
    Some(DigitsOfTwo::of(Digits::of(left)?, Digits::of(right)?))
}

#[tactic(auto, using(crate::proofs::OperandLemmas::outcomes))]
fn numbers(
    alloc: Global,
    name: CallName,
    digits: DigitsOfTwo,
    left: &Operand<'_>,
    right: &Operand<'_>,
    count: usize,
) -> Result<Option<Nullable<i128>>, Memory>
    requires left { HasCells left.now count }
    requires right { HasCells right.now count }
    requires left_kind { operand_kind left.now ≡ kind_is.Decimal digits.left.p digits.left.s }
    requires right_kind { operand_kind right.now ≡ kind_is.Decimal digits.right.p digits.right.s }
    ensures { IfOk result (λ o. IfSome o (λ v.
        AreOutcomes (binary_at name left.now right.now) count (map (or_null value_is.Decimal) v))) }
{
    let mut numbers = Nullable::with_capacity(alloc, count)?;
    for place in 0..count {
        let a = left.cell(place);
        let b = right.cell(place);
        match number_of(name, digits, a, b) {
            Some(number) => numbers.push(number)?,
            None => return Ok(None),
        }
    }
    Ok(Some(numbers))
}

/// The number of a call, or NULL, where the call is covered and the number in range.
fn number_of(
    name: CallName,
    digits: DigitsOfTwo,
    left: ValueRef<'_>,
    right: ValueRef<'_>,
) -> Option<Option<i128>>
    ensures { IfSome result (λ n. binary_of name (kind_is.Decimal digits.left.p digits.left.s)
        (kind_is.Decimal digits.right.p digits.right.s) (lent_value left.entry) (lent_value right.entry)
        ≡ Ok (or_null value_is.Decimal n)) }
{
    match name {
        CallName::Add => sum_of(digits, left, right),
        CallName::Subtract => difference_of(digits, left, right),
        CallName::Multiply => product_of(digits, left, right),
        _ => None,
    }
}

fn sum_of(digits: DigitsOfTwo, left: ValueRef<'_>, right: ValueRef<'_>) -> Option<Option<i128>>
    ensures { IfSome result (λ n. sum_of (kind_is.Decimal digits.left.p digits.left.s)
        (kind_is.Decimal digits.right.p digits.right.s) (lent_value left.entry) (lent_value right.entry)
        ≡ Ok (or_null value_is.Decimal n)) }
{
    match (left, right) {
        (ValueRef::Decimal(a), ValueRef::Decimal(b)) => Some(Some(digits.sum(a, b)?)),
        (ValueRef::Null, _) => Some(None),
        (ValueRef::Decimal(_), ValueRef::Null) => Some(None),
        _ => None,
    }
}

fn difference_of(
    digits: DigitsOfTwo,
    left: ValueRef<'_>,
    right: ValueRef<'_>,
) -> Option<Option<i128>>
    ensures { IfSome result (λ n. difference_of (kind_is.Decimal digits.left.p digits.left.s)
        (kind_is.Decimal digits.right.p digits.right.s) (lent_value left.entry) (lent_value right.entry)
        ≡ Ok (or_null value_is.Decimal n)) }
{
    match (left, right) {
        (ValueRef::Decimal(a), ValueRef::Decimal(b)) => Some(Some(digits.difference(a, b)?)),
        (ValueRef::Null, _) => Some(None),
        (ValueRef::Decimal(_), ValueRef::Null) => Some(None),
        _ => None,
    }
}

fn product_of(digits: DigitsOfTwo, left: ValueRef<'_>, right: ValueRef<'_>) -> Option<Option<i128>>
    ensures { IfSome result (λ n. product_of (kind_is.Decimal digits.left.p digits.left.s)
        (kind_is.Decimal digits.right.p digits.right.s) (lent_value left.entry) (lent_value right.entry)
        ≡ Ok (or_null value_is.Decimal n)) }
{
    match (left, right) {
        (ValueRef::Decimal(a), ValueRef::Decimal(b)) => Some(Some(digits.product(a, b)?)),
        (ValueRef::Null, _) => Some(None),
        (ValueRef::Decimal(_), ValueRef::Null) => Some(None),
        _ => None,
    }
}
