ghost use Rattle.std.specs.Prelude.{◌≡◌, ◌||◌, length, map, option_map, IfOk, IfSome};
ghost use Rattle.std.specs.Ordering.{int_cmp};
ghost use Rattle.std.specs.Simd.Lanes.{zip2};
ghost use Rattle.sql_values.specs.declared.types.SqlType.TheVariants as kind_is;
ghost use Rattle.sql_values.specs.declared.value.Value.TheVariants as value_is;
ghost use Rattle.sql_values.specs.Blocks.{or_null};
ghost use Rattle.sql_values.specs.Cells.{lent_value};
ghost use Rattle.sql_functions.specs.Comparison.{compared};
ghost use Rattle.column_exprs.specs.Comparisons.{both, holds, name_of};
ghost use Rattle.column_exprs.specs.Operands.{AreOutcomes, HasCells, binary_at};

use crate::lanes::{Numbers, number_truths};
use crate::operand::Operand;
use columns::Nullable;
use sql_functions::CallName;
use sql_values::{Block, Memory, ValueRef};
use std::alloc::{AllocError, Global};
use std::cmp::Ordering;

/// A comparison.
#[derive(Clone, Copy)]
pub enum Compare {
    Equal,
    Unequal,
    Less,
    LessEqual,
    Greater,
    GreaterEqual,
}

impl Compare {
    /// That of a call, if it is one.
    fn of(name: CallName) -> Option<Compare>
        ensures { IfSome result (λ op. name ≡ name_of op) }
    {
        match name {
            CallName::Equal => Some(Compare::Equal),
            CallName::Unequal => Some(Compare::Unequal),
            CallName::Less => Some(Compare::Less),
            CallName::LessEqual => Some(Compare::LessEqual),
            CallName::Greater => Some(Compare::Greater),
            CallName::GreaterEqual => Some(Compare::GreaterEqual),
            _ => None,
        }
    }

    /// Whether two values in this order make it true.
    pub(crate) fn holds(self, ordering: Ordering) -> bool
        ensures { result ≡ holds self ordering }
    {
        match self {
            Compare::Equal => ordering.is_eq(),
            Compare::Unequal => ordering.is_ne(),
            Compare::Less => ordering.is_lt(),
            Compare::LessEqual => ordering.is_le(),
            Compare::Greater => ordering.is_gt(),
            Compare::GreaterEqual => ordering.is_ge(),
        }
    }
}

/// The truths of a comparison of two columns of numbers, or of a column of numbers or days with one
/// value, at so many places, or none where it is another call.
pub fn compare_cells(
    alloc: Global,
    name: CallName,
    left: &Operand<'_>,
    right: &Operand<'_>,
    count: usize,
) -> Result<Option<Block>, Memory>
    requires left { HasCells left.now count }
    requires right { HasCells right.now count }
    ensures kind { IfOk result (λ o. IfSome o (λ b. b.kind ≡ kind_is.Boolean)) }
    ensures values { IfOk result (λ o. IfSome o (λ b.
        AreOutcomes (binary_at name left.now right.now) count b.cells)) }
{
    match compare_with_value(alloc, name, left, right, count)? {
        Some(block) => Ok(Some(block)),
        None => compare_columns(alloc, name, left, right, count),
    }
}

/// The truths of a comparison of a column with one value.
fn compare_with_value(
    alloc: Global,
    name: CallName,
    left: &Operand<'_>,
    right: &Operand<'_>,
    count: usize,
) -> Result<Option<Block>, Memory>
    requires { HasCells left.now count }
    ensures kind { IfOk result (λ o. IfSome o (λ b. b.kind ≡ kind_is.Boolean)) }
    ensures values { IfOk result (λ o. IfSome o (λ b.
        AreOutcomes (binary_at name left.now right.now) count b.cells)) }
{
    let Some(op) = Compare::of(name) else {
        return Ok(None);
    };
    let Some(block) = left.block() else {
        return Ok(None);
    };
    let Some(value) = right.constant() else {
        return Ok(None);
    };
    against(alloc, op, block, value)
}

/// The truths of a comparison of two columns.
fn compare_columns(
    alloc: Global,
    name: CallName,
    left: &Operand<'_>,
    right: &Operand<'_>,
    count: usize,
) -> Result<Option<Block>, Memory>
    requires left { HasCells left.now count }
    requires right { HasCells right.now count }
    ensures kind { IfOk result (λ o. IfSome o (λ b. b.kind ≡ kind_is.Boolean)) }
    ensures values { IfOk result (λ o. IfSome o (λ b.
        AreOutcomes (binary_at name left.now right.now) count b.cells)) }
{
    let Some(op) = Compare::of(name) else {
        return Ok(None);
    };
    let Some(first) = left.block() else {
        return Ok(None);
    };
    let Some(second) = right.block() else {
        return Ok(None);
    };
    beside(alloc, op, first, second)
}

/// The truths of a comparison of each cell with the one beside it, where these are numbers.
#[tactic(auto, using(crate::proofs::CompareLemmas::as_many))]
fn beside(
    alloc: Global,
    op: Compare,
    first: &Block,
    second: &Block,
) -> Result<Option<Block>, Memory>
    requires { length second.now.cells ≡ length first.now.cells }
    ensures kind { IfOk result (λ o. IfSome o (λ b. b.kind ≡ kind_is.Boolean)) }
    ensures cells { IfOk result (λ o. IfSome o (λ b. b.cells
        ≡ zip2 (compared (name_of op)) first.now.cells second.now.cells)) }
{
    let Some(numbers) = bigints_of(first) else {
        return Ok(None);
    };
    let Some(others) = bigints_of(second) else {
        return Ok(None);
    };
    let truths = column_truths(alloc, op, numbers, others)?;
    Ok(Some(Block::of_booleans(truths)))
}

/// The numbers of a block, where it is plain and they are bigints.
fn bigints_of(block: &Block) -> Option<&Nullable<i64>>
    ensures { IfSome result (λ c. block.now.cells ≡ map (or_null value_is.Bigint) c.now) }
{
    block.plain()?.bigints()
}

/// The days of a block, where it is plain and they are dates.
fn dates_of(block: &Block) -> Option<&Nullable<i32>>
    ensures { IfSome result (λ c. block.now.cells ≡ map (or_null value_is.Date) c.now) }
{
    block.plain()?.dates()
}

/// For each two numbers whether the comparison holds; missing where one of them is.
#[tactic(auto, using(crate::proofs::CompareLemmas::held_beside))]
fn column_truths(
    alloc: Global,
    op: Compare,
    numbers: &Nullable<i64>,
    others: &Nullable<i64>,
) -> Result<Nullable<bool>, AllocError>
    requires { length others.now ≡ length numbers.now }
    ensures { IfOk result (λ v. v ≡ zip2 (both op) numbers.now others.now) }
{
    let truths = number_truths(alloc, op, numbers.items(), Numbers::Column(others.items()))?;
    Ok(Nullable::of(truths, either(alloc, numbers.nulls(), others.nulls())?))
}

/// For each two marks whether one of them is set.
fn either(alloc: Global, a: &[bool], b: &[bool]) -> Result<Vec<bool>, AllocError>
    requires { length b.now ≡ length a.now }
    ensures { IfOk result (λ v. v.items ≡ zip2 ◌||◌ a.now b.now) }
{
    let mut marks = Vec::with_capacity(alloc, a.len())?;
    for place in 0..a.len() {
        marks.push_reserved(is_either(a[place], b[place]));
    }
    Ok(marks)
}

fn is_either(a: bool, b: bool) -> bool
    ensures { result ≡ (a || b) }
{
    a || b
}

/// The truths of a comparison of each cell with a value, where these are numbers or days.
fn against(
    alloc: Global,
    op: Compare,
    block: &Block,
    value: ValueRef<'_>,
) -> Result<Option<Block>, Memory>
    ensures kind { IfOk result (λ o. IfSome o (λ b. b.kind ≡ kind_is.Boolean)) }
    ensures cells { IfOk result (λ o. IfSome o (λ b. b.cells
        ≡ map (λ v. compared (name_of op) v (lent_value value.entry)) block.now.cells)) }
{
    match value {
        ValueRef::Bigint(number) => against_number(alloc, op, block, number),
        ValueRef::Date(day) => against_day(alloc, op, block, day),
        _ => Ok(None),
    }
}

#[tactic(auto, using(crate::proofs::CompareLemmas::against))]
fn against_number(
    alloc: Global,
    op: Compare,
    block: &Block,
    number: i64,
) -> Result<Option<Block>, Memory>
    ensures kind { IfOk result (λ o. IfSome o (λ b. b.kind ≡ kind_is.Boolean)) }
    ensures cells { IfOk result (λ o. IfSome o (λ b. b.cells
        ≡ map (λ v. compared (name_of op) v (value_is.Bigint number)) block.now.cells)) }
{
    match bigints_of(block) {
        Some(numbers) => {
            let truths = value_truths(alloc, op, numbers, number)?;
            Ok(Some(Block::of_booleans(truths)))
        }
        None => Ok(None),
    }
}

#[tactic(auto, using(crate::proofs::CompareLemmas::against))]
fn against_day(alloc: Global, op: Compare, block: &Block, day: i32) -> Result<Option<Block>, Memory>
    ensures kind { IfOk result (λ o. IfSome o (λ b. b.kind ≡ kind_is.Boolean)) }
    ensures cells { IfOk result (λ o. IfSome o (λ b. b.cells
        ≡ map (λ v. compared (name_of op) v (value_is.Date day)) block.now.cells)) }
{
    match dates_of(block) {
        Some(days) => {
            let truths = truths_of(alloc, op, days, day)?;
            Ok(Some(Block::of_booleans(truths)))
        }
        None => Ok(None),
    }
}

/// For each number whether the comparison with one holds; missing where the number is.
#[tactic(auto, using(crate::proofs::CompareLemmas::held_single))]
fn value_truths(
    alloc: Global,
    op: Compare,
    numbers: &Nullable<i64>,
    number: i64,
) -> Result<Nullable<bool>, AllocError>
    ensures { IfOk result (λ v. v ≡ map (option_map (λ x. holds op (int_cmp x number))) numbers.now) }
{
    let truths = number_truths(alloc, op, numbers.items(), Numbers::Single(number))?;
    Ok(Nullable::of(truths, Vec::from_slice(alloc, numbers.nulls())?))
}

/// For each number whether the comparison with a value holds; missing where the number is.
#[tactic(auto, using(crate::proofs::CompareLemmas::held_with))]
fn truths_of<T: Ord + Copy + Default + Drop>(
    alloc: Global,
    op: Compare,
    numbers: &Nullable<T>,
    value: T,
) -> Result<Nullable<bool>, AllocError>
    ensures { IfOk result (λ v. v ≡ map (option_map (λ x. holds op (T.cmp x value))) numbers.now) }
{
    let truths = item_truths(alloc, op, numbers.items(), value)?;
    Ok(Nullable::of(truths, Vec::from_slice(alloc, numbers.nulls())?))
}

fn item_truths<T: Ord + Copy>(
    alloc: Global,
    op: Compare,
    items: &[T],
    value: T,
) -> Result<Vec<bool>, AllocError>
    ensures { IfOk result (λ v. v.items ≡ map (λ x. holds op (T.cmp x value)) items.now) }
{
    let mut truths = Vec::with_capacity(alloc, items.len())?;
    for item in items {
        truths.push_reserved(op.holds(item.cmp(&value)));
    }
    Ok(truths)
}
