ghost use Rattle.std.specs.Prelude.{◌≡◌, ◌↔◌, IsTrue, IfOk};
ghost use Rattle.sql_values.specs.Cells.{lent_value};

use crate::memory::Memory;
use crate::text::Text;
use std::alloc::Global;

/// A value of a cell. NULL has every type.
#[derive(Drop)]
pub enum Value {
    Null,
    Boolean(bool),
    Bigint(i64),
    /// The number of units of 10^-s, where the type is `decimal(p,s)`.
    Decimal(i128),
    Varchar(Text),
    /// Days since 1970-01-01.
    Date(i32),
}

/// A value that is lent: `Varchar` borrows its text.
#[derive(Clone, Copy)]
pub enum ValueRef<'a> {
    Null,
    Boolean(bool),
    Bigint(i64),
    Decimal(i128),
    Varchar(&'a str),
    Date(i32),
}

impl Value {
    pub fn as_ref(&self) -> ValueRef<'_>
        ensures { lent_value result ≡ self.now }
    {
        match self {
            Value::Null => ValueRef::Null,
            Value::Boolean(truth) => ValueRef::Boolean(*truth),
            Value::Bigint(n) => ValueRef::Bigint(*n),
            Value::Decimal(unscaled) => ValueRef::Decimal(*unscaled),
            Value::Varchar(text) => ValueRef::Varchar(text.as_str()),
            Value::Date(day) => ValueRef::Date(*day),
        }
    }

    pub fn copy(&self, alloc: Global) -> Result<Value, Memory>
        ensures { IfOk result (λ v. v ≡ self.now) }
    {
        Ok(match self {
            Value::Null => Value::Null,
            Value::Boolean(truth) => Value::Boolean(*truth),
            Value::Bigint(n) => Value::Bigint(*n),
            Value::Decimal(unscaled) => Value::Decimal(*unscaled),
            Value::Varchar(text) => Value::Varchar(text.copy(alloc)?),
            Value::Date(day) => Value::Date(*day),
        })
    }

    /// Whether variant and content agree; NULL is the same as NULL.
    pub fn same(&self, other: &Value) -> bool
        ensures { IsTrue result ↔ (self.now ≡ other.now) }
    {
        match (self, other) {
            (Value::Null, Value::Null) => true,
            (Value::Boolean(a), Value::Boolean(b)) => a == b,
            (Value::Bigint(a), Value::Bigint(b)) => a == b,
            (Value::Decimal(a), Value::Decimal(b)) => a == b,
            (Value::Varchar(a), Value::Varchar(b)) => a.same(b),
            (Value::Date(a), Value::Date(b)) => a == b,
            _ => false,
        }
    }
}

impl ValueRef<'_> {
    /// Whether variant and content agree; NULL is the same as NULL.
    pub fn same(self, other: ValueRef<'_>) -> bool
        ensures { IsTrue result ↔ (lent_value self.entry ≡ lent_value other.entry) }
    {
        match (self, other) {
            (ValueRef::Null, ValueRef::Null) => true,
            (ValueRef::Boolean(a), ValueRef::Boolean(b)) => a == b,
            (ValueRef::Bigint(a), ValueRef::Bigint(b)) => a == b,
            (ValueRef::Decimal(a), ValueRef::Decimal(b)) => a == b,
            (ValueRef::Varchar(a), ValueRef::Varchar(b)) => a == b,
            (ValueRef::Date(a), ValueRef::Date(b)) => a == b,
            _ => false,
        }
    }

    pub fn to_value(self, alloc: Global) -> Result<Value, Memory>
        ensures { IfOk result (λ v. v ≡ lent_value self.entry) }
    {
        Ok(match self {
            ValueRef::Null => Value::Null,
            ValueRef::Boolean(truth) => Value::Boolean(truth),
            ValueRef::Bigint(n) => Value::Bigint(n),
            ValueRef::Decimal(unscaled) => Value::Decimal(unscaled),
            ValueRef::Varchar(text) => Value::Varchar(Text::copy_of(alloc, text)?),
            ValueRef::Date(day) => Value::Date(day),
        })
    }
}
