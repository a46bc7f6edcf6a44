ghost use Rattle.std.specs.Prelude.{◌≡◌, ◌++◌, ◌∷◌, [], length, Ok, IsTrue, IfOk, IfSome, IfNone};
ghost use Rattle.sql_values.specs.declared.value.Value.{Value};
ghost use Rattle.sql_values.specs.Blocks.{with_cells};
ghost use Rattle.sql_values.specs.Cells.{lent_value};
ghost use Rattle.sql_exprs.specs.Forms.{Form, more, none};
ghost use Rattle.column_exprs.specs.Chains.{GoesOn, chain_name, chain_start, chain_test, joined, joined_at, stepped};
ghost use Rattle.column_exprs.specs.Kept.{IsPart, kept, meets};
ghost use Rattle.column_exprs.specs.Operands.{AreOutcomes, HasCells, HasPlace, IsOperand, is_strict, operand_cell};

use crate::kept::{Test, counted};
use crate::operand::Operand;
use crate::rows::Rows;
use sql_functions::{CallName, truth_and, truth_or};
use sql_values::{Block, Memory, SqlType, ValueRef};
use std::alloc::Global;

/// A call that takes a later argument only where the value so far leaves it needed.
#[derive(Clone, Copy)]
pub enum Chain {
    And,
    Or,
    Coalesce,
}

impl Chain {
    /// That of a call, if it is one; else the call takes the values of all its arguments.
    pub fn of(name: CallName) -> Option<Chain>
        ensures some { IfSome result (λ chain. name ≡ chain_name chain) }
        ensures none { IfNone result (IsTrue (is_strict name)) }
    {
        match name {
            CallName::And => Some(Chain::And),
            CallName::Or => Some(Chain::Or),
            CallName::Coalesce => Some(Chain::Coalesce),
            _ => None,
        }
    }

    /// The value before the first argument, which settles nothing.
    pub fn start(self) -> ValueRef<'static>
        ensures { lent_value result ≡ chain_start self }
    {
        match self {
            Chain::And => ValueRef::Boolean(true),
            Chain::Or => ValueRef::Boolean(false),
            Chain::Coalesce => ValueRef::Null,
        }
    }

    /// A later argument is needed where the value so far meets this.
    pub fn test(self) -> Test
        ensures { result ≡ chain_test self }
    {
        match self {
            Chain::And => Test::NotFalse,
            Chain::Or => Test::NotTrue,
            Chain::Coalesce => Test::Null,
        }
    }

    /// Whether a later argument is needed beside the value so far.
    fn needs(self, value: ValueRef<'_>) -> bool
        ensures { result ≡ meets (chain_test self) (lent_value value.entry) }
    {
        self.test().is_met(value)
    }

    /// Appends what becomes of the value so far and a later one, or answers false where it has
    /// another variant.
    fn push(
        self,
        value: ValueRef<'_>,
        later: ValueRef<'_>,
        block: &mut Block,
    ) -> Result<bool, Memory>
        ensures { IfOk result (λ taken. IsTrue taken → block.new ≡ with_cells block.old
            (block.old.cells ++ joined self (lent_value value.entry) (lent_value later.entry) ∷ [])) }
    {
        match self {
            Chain::And => block.push(truth_and(value, later).as_ref()),
            Chain::Or => block.push(truth_or(value, later).as_ref()),
            Chain::Coalesce => block.push(later),
        }
    }
}

/// The operand of the values so far and one more argument, by that of the argument at the rows that
/// need it.
pub fn joined_made<'a>(
    alloc: Global,
    chain: Chain,
    kind: SqlType,
    so_far: &Operand<'_>,
    later: &Operand<'_>,
    rows: Rows<'_>,
    part: Rows<'_>,
) -> Result<Option<Operand<'a>>, Memory>
    requires cells { HasCells so_far.now (length rows.positions.now) }
    requires later { HasCells later.now (length part.positions.now) }
    requires part { IsPart (chain_test chain) (operand_cell so_far.now) rows part }
    ensures { IfOk result (λ o. IfSome o (λ x. (form : Form) → IsOperand form part.entry later.now
        → GoesOn chain kind (more form none) rows.entry so_far.now x)) }
{
    match joined_cells(alloc, chain, kind, so_far, later, rows.positions)? {
        Some(block) => Ok(Some(Operand::Made(block))),
        None => Ok(None),
    }
}

/// The values so far, joined with a later one at each place that needs it, or none where one has
/// another variant than the type.
fn joined_cells(
    alloc: Global,
    chain: Chain,
    kind: SqlType,
    so_far: &Operand<'_>,
    later: &Operand<'_>,
    positions: &[u32],
) -> Result<Option<Block>, Memory>
    requires cells { HasCells so_far.now (length positions.now) }
    requires later { HasCells later.now (length
        (kept (chain_test chain) (operand_cell so_far.now) positions.now (length positions.now))) }
    ensures kind { IfOk result (λ o. IfSome o (λ b. b.kind ≡ kind)) }
    ensures values { IfOk result (λ o. IfSome o (λ b. AreOutcomes
        (joined_at chain so_far.now later.now positions.now) (length positions.now) b.cells)) }
{
    let mut block = Block::new(alloc, kind);
    let mut next = 0;
    for place in 0..positions.len() {
        let value = so_far.cell(place);
        if !push_joined(chain, value, later, next, &mut block)? {
            return Ok(None);
        }
        next = counted(next, chain.needs(value));
    }
    Ok(Some(block))
}

/// Appends the value so far, joined with the later one where it needs this, or answers false where
/// it has another variant.
fn push_joined(
    chain: Chain,
    value: ValueRef<'_>,
    later: &Operand<'_>,
    next: usize,
    block: &mut Block,
) -> Result<bool, Memory>
    requires { IsTrue (meets (chain_test chain) (lent_value value)) → HasPlace later.now next }
    ensures { IfOk result (λ taken. IsTrue taken → (v : Value)
        × (stepped chain (lent_value value.entry) (Ok (operand_cell later.now next)) ≡ Ok v)
        × (block.new ≡ with_cells block.old (block.old.cells ++ v ∷ []))) }
{
    if chain.needs(value) {
        chain.push(value, later.cell(next), block)
    } else {
        block.push(value)
    }
}
