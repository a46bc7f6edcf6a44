ghost use Rattle.std.specs.Prelude.{◌≡◌, ◌≢◌, ◌++◌, IsTrue, MatchResult, OnOk, OnErr, Some};
ghost use Rattle.scalar_texts.specs.Appends.{AppendsStart};
ghost use Rattle.sql_values.specs.Cells.{lent_value};
ghost use Rattle.sql_values.specs.Texts.{FailsToParse, scale_of, text_of_value, value_of_text};
ghost use Rattle.sql_values.specs.Types.{IsType, has_type};

use crate::memory::Memory;
use crate::text::Text;
use crate::types::SqlType;
use crate::value::{Value, ValueRef};
use scalar_texts::{
    bigint_reads_back, boolean_reads_back, date_reads_back, decimal_reads_back, print_bigint,
    print_boolean, print_date, print_decimal, read_bigint, read_boolean, read_date, read_decimal,
};
use std::alloc::{AllocError, AllocFailed, Global};
use thiserror::Error;

/// The longest text of a varchar, in bytes.
pub const LONGEST_TEXT: usize = 1_000_000;

/// Why no value was read.
#[derive(Clone, Copy, Debug, PartialEq, Eq, Error)]
pub enum ParseFault {
    /// The text is not one that the type accepts.
    #[error("the text is no value of the type")]
    Malformed,
    #[error("out of memory")]
    Memory,
}

impl From<Memory> for ParseFault {
    ghost use Rattle.sql_values.specs.declared.value_texts.ParseFault.TheVariants as fault;
    ghost use Rattle.std.specs.Prelude.{◌≡◌};

    ghost from_gives = { λ _ e. e ≡ fault.Memory };

    fn from(_: Memory) -> ParseFault {
        ParseFault::Memory
    }
}

impl From<AllocError> for ParseFault {
    ghost use Rattle.sql_values.specs.declared.value_texts.ParseFault.TheVariants as fault;
    ghost use Rattle.std.specs.Prelude.{◌≡◌};

    ghost from_gives = { λ _ e. e ≡ fault.Memory };

    fn from(_: AllocError) -> ParseFault {
        ParseFault::Memory
    }
}

impl<T: Drop> From<AllocFailed<T>> for ParseFault {
    ghost use Rattle.sql_values.specs.declared.value_texts.ParseFault.TheVariants as fault;
    ghost use Rattle.std.specs.Prelude.{◌≡◌};

    ghost from_gives = { λ _ e. e ≡ fault.Memory };

    fn from(_: AllocFailed<T>) -> ParseFault {
        ParseFault::Memory
    }
}

/// The value of a type that a text writes. It is never NULL.
pub fn parse_value(alloc: Global, kind: SqlType, text: &str) -> Result<Value, ParseFault>
    ensures { MatchResult result
        (λ v. value_of_text kind text.now ≡ Some v)
        (FailsToParse (value_of_text kind text.now)) }
{
    let bytes = text.as_bytes();
    match kind {
        SqlType::Boolean => found(read_boolean(bytes).map(Value::Boolean)),
        SqlType::Bigint => found(read_bigint(bytes).map(Value::Bigint)),
        SqlType::Decimal { p, s } => found(read_decimal(p, s, bytes).map(Value::Decimal)),
        SqlType::Varchar => {
            if text.len() > LONGEST_TEXT {
                return Err(ParseFault::Malformed);
            }
            Ok(Value::Varchar(Text::copy_of(alloc, text)?))
        }
        SqlType::Date => found(read_date(bytes).map(Value::Date)),
    }
}

fn found(value: Option<Value>) -> Result<Value, ParseFault>
    ensures { MatchResult result (λ v. value ≡ Some v) (FailsToParse value) }
{
    match value {
        Some(value) => Ok(value),
        None => Err(ParseFault::Malformed),
    }
}

/// Appends the text of a value, and nothing for NULL. Where memory was wanting a beginning of
/// the text may stand there.
pub fn print_value(kind: SqlType, value: ValueRef<'_>, to: &mut Vec<u8>) -> Result<(), Memory>
    ensures ok { OnOk result
        (to.new.items ≡ to.old.items ++ text_of_value kind (lent_value value.entry)) }
    ensures err { OnErr result
        (AppendsStart (text_of_value kind (lent_value value.entry)) to.old.items to.new.items) }
{
    match value {
        ValueRef::Null => {}
        ValueRef::Boolean(truth) => print_boolean(truth, to)?,
        ValueRef::Bigint(n) => print_bigint(n, to)?,
        ValueRef::Decimal(unscaled) => print_decimal(scale(kind), unscaled, to)?,
        ValueRef::Varchar(text) => append(text.as_bytes(), to)?,
        ValueRef::Date(day) => print_date(day, to)?,
    }
    Ok(())
}

fn append(bytes: &[u8], to: &mut Vec<u8>) -> Result<(), Memory>
    ensures ok { OnOk result (to.new.items ≡ to.old.items ++ bytes.now) }
    ensures err { OnErr result (to.new.items ≡ to.old.items) }
{
    to.extend_from_slice(bytes)?;
    Ok(())
}

fn scale(kind: SqlType) -> u8
    ensures { result ≡ scale_of kind }
{
    match kind {
        SqlType::Decimal { s, .. } => s,
        _ => 0,
    }
}

/// The law that what is printed reads back as the value.
pub fn text_reads_back(kind: SqlType, value: ValueRef<'_>)
    requires is_type { IsType kind }
    requires not_null { lent_value value ≢ Value.Null }
    requires has_type { IsTrue (has_type kind (lent_value value)) }
    ensures { value_of_text kind (text_of_value kind (lent_value value.entry))
        ≡ Some (lent_value value.entry) }
{
    match value {
        ValueRef::Null | ValueRef::Varchar(_) => {}
        ValueRef::Boolean(truth) => boolean_reads_back(truth),
        ValueRef::Bigint(n) => bigint_reads_back(n),
        ValueRef::Decimal(unscaled) => decimal_text_reads_back(kind, unscaled),
        ValueRef::Date(day) => date_text_reads_back(kind, day),
    }
}

fn decimal_text_reads_back(kind: SqlType, unscaled: i128)
    requires is_type { IsType kind }
    requires has_type { IsTrue (has_type kind (Value.Decimal unscaled)) }
    ensures { value_of_text kind (text_of_value kind (Value.Decimal unscaled))
        ≡ Some (Value.Decimal unscaled) }
{
    if let SqlType::Decimal { p, s } = kind {
        decimal_reads_back(p, s, unscaled);
    }
}

fn date_text_reads_back(kind: SqlType, day: i32)
    requires { IsTrue (has_type kind (Value.Date day)) }
    ensures { value_of_text kind (text_of_value kind (Value.Date day)) ≡ Some (Value.Date day) }
{
    if kind == SqlType::Date {
        date_reads_back(day);
    }
}
