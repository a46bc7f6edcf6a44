ghost use Rattle.std.specs.Prelude.{◌≡◌, ◌<◌, ◌+◌, ◌^◌, length, false, IfOk, IsTrue};
ghost use Rattle.sql_values.specs.Cells.{lent_value};
ghost use Rattle.column_exprs.specs.Kept.{IsPart, kept, meets};
ghost use Rattle.column_exprs.specs.Operands.{AreRows, HasCells, operand_cell};

use crate::operand::Operand;
use crate::rows::Rows;
use sql_functions::{is_false, is_null, is_true};
use sql_values::{Memory, ValueRef};
use std::alloc::Global;

/// What a value has to be for a later part of an expression to be needed beside it.
#[derive(Clone, Copy)]
pub enum Test {
    True,
    NotTrue,
    NotFalse,
    Null,
}

impl Test {
    pub fn is_met(self, value: ValueRef<'_>) -> bool
        ensures { result ≡ meets self (lent_value value.entry) }
    {
        match self {
            Test::True => is_true(value),
            Test::NotTrue => !is_true(value),
            Test::NotFalse => !is_false(value),
            Test::Null => is_null(value),
        }
    }
}

/// The positions beside which the value of an operand meets a test, in their order.
pub fn kept_positions(
    alloc: Global,
    test: Test,
    operand: &Operand<'_>,
    positions: &[u32],
) -> Result<Vec<u32>, Memory>
    requires { HasCells operand.now (length positions.now) }
    ensures { IfOk result (λ v.
        v.items ≡ kept test (operand_cell operand.now) positions.now (length positions.now)) }
{
    let mut kept = Vec::with_capacity(alloc, positions.len())?;
    for place in 0..positions.len() {
        if test.is_met(operand.cell(place)) {
            kept.push(positions[place])?;
        }
    }
    Ok(kept)
}

/// The rows at the positions that were kept. Where these are all, columns are still lent.
pub fn part_at<'a>(
    test: Test,
    operand: &Operand<'_>,
    rows: Rows<'a>,
    positions: &'a [u32],
) -> Rows<'a>
    requires rows { AreRows rows }
    requires kept { positions.now
        ≡ kept test (operand_cell operand.now) rows.positions.now (length rows.positions.now) }
    ensures rows { AreRows result }
    ensures part { IsPart test (operand_cell operand.now) rows.entry result }
{
    Rows {
        page: rows.page,
        positions,
        whole: are_whole(rows.whole, positions.len(), rows.positions.len()),
    }
}

/// Whether rows that were kept are all of a page, by those that they were kept of.
fn are_whole(whole: bool, kept: usize, all: usize) -> bool
    ensures whole { IsTrue result → IsTrue whole }
    ensures same { IsTrue result → kept ≡ all }
{
    whole && kept == all
}

/// How many were kept, with one more that may be.
pub fn counted(count: usize, is_kept: bool) -> usize
    requires { count < 2 ^ 63 }
    ensures more { IsTrue is_kept → result ≡ count + 1 }
    ensures same { is_kept ≡ false → result ≡ count }
{
    if is_kept { count + 1 } else { count }
}
