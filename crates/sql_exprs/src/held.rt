ghost use Rattle.std.specs.Prelude.{◌≡◌, IfOk};
ghost use Rattle.sql_values.specs.Cells.{lent_value};
ghost use Rattle.sql_exprs.specs.Held.{held_value};

use sql_values::{Memory, Value, ValueRef};
use std::alloc::Global;

/// A value that a row or an expression lends, or one that was made.
#[derive(Drop)]
pub enum Held<'a> {
    Lent(ValueRef<'a>),
    Made(Value),
}

impl Held<'_> {
    pub fn as_ref(&self) -> ValueRef<'_>
        ensures { lent_value result ≡ held_value self.now }
    {
        match self {
            Held::Lent(value) => *value,
            Held::Made(value) => value.as_ref(),
        }
    }

    pub fn into_value(self, alloc: Global) -> Result<Value, Memory>
        ensures { IfOk result (λ v. v ≡ held_value self.entry) }
    {
        match self {
            Held::Lent(value) => value.to_value(alloc),
            Held::Made(value) => Ok(value),
        }
    }
}
