ghost use Rattle.std.specs.Prelude.{◌≡◌, ℕ, length, slice_index_or, IfSome};
ghost use Rattle.sql_values.specs.declared.value.Value.TheVariants as value_is;
ghost use Rattle.sql_values.specs.Cells.{lent_value};
ghost use Rattle.column_exprs.specs.Operands.{HasCells, HasPlace, operand_cell, operand_kind};

use sql_values::{Block, SqlType, ValueRef};

/// What stands for the values of a part of an expression: a column of the page, a block that was
/// made, or one value that stands at each place.
#[derive(Drop)]
pub enum Operand<'a> {
    Lent(&'a Block),
    Made(Block),
    Constant { kind: SqlType, value: ValueRef<'a> },
}

impl Operand<'_> {
    pub fn kind(&self) -> SqlType
        ensures { result ≡ operand_kind self.now }
    {
        match self {
            Operand::Lent(block) => block.kind(),
            Operand::Made(block) => block.kind(),
            Operand::Constant { kind, .. } => *kind,
        }
    }

    /// The value at a place.
    pub fn cell(&self, place: usize) -> ValueRef<'_>
        requires { HasPlace self.now place }
        ensures { lent_value result ≡ operand_cell self.now place }
    {
        match self {
            Operand::Lent(block) => block.cell(place),
            Operand::Made(block) => block.cell(place),
            Operand::Constant { value, .. } => *value,
        }
    }

    /// The cells, where there is one for each place.
    pub fn block(&self) -> Option<&Block>
        ensures cells { IfSome result (λ b. (k : ℕ)
            → operand_cell self.now k ≡ slice_index_or b.now.cells k value_is.Null) }
        ensures len { IfSome result (λ b. (count : ℕ) → HasCells self.now count
            → length b.now.cells ≡ count) }
    {
        match self {
            Operand::Lent(block) => Some(block),
            Operand::Made(block) => Some(block),
            Operand::Constant { .. } => None,
        }
    }

    /// The value, where one stands at each place.
    pub fn constant(&self) -> Option<ValueRef<'_>>
        ensures { IfSome result (λ v. (k : ℕ) → operand_cell self.now k ≡ lent_value v) }
    {
        match self {
            Operand::Constant { value, .. } => Some(*value),
            Operand::Lent(_) | Operand::Made(_) => None,
        }
    }
}
