ghost use Rattle.std.specs.Prelude.{◌≡◌, IfOk};

use crate::memory::Memory;
use crate::plain_block::PlainBlock;
use std::alloc::Global;
use std::marker::Model;
use std::sync::Arc;

/// Cells of a type that blocks share: each such block keeps which of them it shows.
#[derive(Drop)]
pub struct Dictionary {
    entries: Arc<PlainBlock>,
}

impl Model for Dictionary {
    ghost use Rattle.sql_values.specs.Blocks.{TypedCells};

    ghost Value = { TypedCells };

    ghost use Rattle.std.specs.Arc.{arc_value};

    ghost view = { λ d. arc_value d.entries };
}

impl Dictionary {
    pub fn of(alloc: Global, entries: PlainBlock) -> Result<Dictionary, Memory>
        ensures { IfOk result (λ d. d ≡ entries) }
    {
        Ok(Dictionary {
            entries: Arc::new(alloc, entries)?,
        })
    }

    /// The same entries, without a copy.
    pub fn share(&self) -> Result<Dictionary, Memory>
        ensures { IfOk result (λ d. d ≡ self.now) }
    {
        Ok(Dictionary {
            entries: self.entries.clone()?,
        })
    }

    pub fn entries(&self) -> &PlainBlock
        ensures { result.now ≡ self.now }
    {
        &self.entries
    }
}
