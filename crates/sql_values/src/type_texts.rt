ghost use Rattle.std.specs.Prelude.{◌≡◌, [], ◌∷◌, ◌++◌, ◌<◌, codes, length, if◌then◌else◌, Some, IfSome, OnOk, OnErr};
ghost use Rattle.std.specs.Fmt.{decimal};
ghost use Rattle.scalar_texts.specs.Appends.{AppendsStart};
ghost use Rattle.sql_values.specs.Types.{IsType};
ghost use Rattle.sql_values.specs.TypeTexts.{closing_parenthesis, comma, comma_in, decimal_type, decimal_type_of, decimal_type_text, parameters_of, parameters_text, plain_number_of, same_text, type_of_text, type_text};

use crate::memory::Memory;
use crate::types::SqlType;
use scalar_texts::{print_bigint, read_short_number};
use std::alloc::AllocError;

/// The type that a text names, as `bigint` or `decimal(12,2)`.
pub fn parse_type(text: &str) -> Option<SqlType>
    ensures { result ≡ type_of_text text.now }
{
    match text {
        "boolean" => Some(SqlType::Boolean),
        "bigint" => Some(SqlType::Bigint),
        _ => other_type(text),
    }
}

/// The type of a text that is neither `boolean` nor `bigint`.
fn other_type(text: &str) -> Option<SqlType>
    ensures { result ≡ (if same_text text.now (codes "varchar") then Some SqlType.Varchar
        else if same_text text.now (codes "date") then Some SqlType.Date
        else decimal_type_of text.now) }
{
    match text {
        "varchar" => Some(SqlType::Varchar),
        "date" => Some(SqlType::Date),
        _ => decimal_type(text.as_bytes()),
    }
}

fn decimal_type(text: &[u8]) -> Option<SqlType>
    ensures { result ≡ decimal_type_of text.now }
{
    if text.len() < 9 || &text[0..8] != b"decimal(".as_slice() || text[text.len() - 1] != b')' {
        return None;
    }
    parameters(&text[8..text.len() - 1])
}

fn parameters(text: &[u8]) -> Option<SqlType>
    ensures { result ≡ parameters_of text.now }
{
    let comma = comma_in(text)?;
    with_parameters(
        plain_number(&text[..comma])?,
        plain_number(&text[comma + 1..])?,
    )
}

fn with_parameters(p: u64, s: u64) -> Option<SqlType>
    ensures { result ≡ decimal_type (Some p) (Some s) }
{
    if p < 1 || p > 38 || s > p {
        return None;
    }
    Some(SqlType::Decimal {
        p: p as u8,
        s: s as u8,
    })
}

fn comma_in(text: &[u8]) -> Option<usize>
    ensures value { result ≡ comma_in text.now }
    ensures bound { IfSome result (λ i. i < length text.now) }
{
    text.iter().position(|byte| *byte == b',')
}

fn plain_number(digits: &[u8]) -> Option<u64>
    ensures { result ≡ plain_number_of digits.now }
{
    if digits.len() > 2 || (digits.len() > 1 && digits[0] == b'0') {
        return None;
    }
    read_short_number(digits)
}

/// Appends the text of a type. Where memory was wanting a beginning of it may stand there.
pub fn print_type(kind: SqlType, to: &mut Vec<u8>) -> Result<(), Memory>
    ensures ok { OnOk result (to.new.items ≡ to.old.items ++ type_text kind) }
    ensures err { OnErr result (AppendsStart (type_text kind) to.old.items to.new.items) }
{
    match kind {
        SqlType::Boolean => to.extend_from_slice(b"boolean")?,
        SqlType::Bigint => to.extend_from_slice(b"bigint")?,
        SqlType::Decimal { p, s } => print_decimal_type(p, s, to)?,
        SqlType::Varchar => to.extend_from_slice(b"varchar")?,
        SqlType::Date => to.extend_from_slice(b"date")?,
    }
    Ok(())
}

#[tactic(auto, using(scalar_texts::proofs::AppendLemmas::appending))]
fn print_decimal_type(p: u8, s: u8, to: &mut Vec<u8>) -> Result<(), AllocError>
    ensures ok { OnOk result (to.new.items ≡ to.old.items ++ decimal_type_text p s) }
    ensures err { OnErr result (AppendsStart (decimal_type_text p s) to.old.items to.new.items) }
{
    to.extend_from_slice(b"decimal(")?;
    print_parameters(p, s, to)
}

#[tactic(auto, using(scalar_texts::proofs::AppendLemmas::appending))]
fn print_parameters(p: u8, s: u8, to: &mut Vec<u8>) -> Result<(), AllocError>
    ensures ok { OnOk result (to.new.items ≡ to.old.items ++ parameters_text p s) }
    ensures err { OnErr result (AppendsStart (parameters_text p s) to.old.items to.new.items) }
{
    print_bigint(i64::from(p), to)?;
    print_second_parameter(s, to)
}

#[tactic(auto, using(scalar_texts::proofs::AppendLemmas::appending))]
fn print_second_parameter(s: u8, to: &mut Vec<u8>) -> Result<(), AllocError>
    ensures ok { OnOk result
        (to.new.items ≡ to.old.items ++ comma ∷ (decimal s ++ closing_parenthesis ∷ [])) }
    ensures err { OnErr result
        (AppendsStart (comma ∷ (decimal s ++ closing_parenthesis ∷ [])) to.old.items to.new.items) }
{
    to.push(b',')?;
    print_closed(s, to)
}

#[tactic(auto, using(scalar_texts::proofs::AppendLemmas::appending))]
fn print_closed(s: u8, to: &mut Vec<u8>) -> Result<(), AllocError>
    ensures ok { OnOk result
        (to.new.items ≡ to.old.items ++ (decimal s ++ closing_parenthesis ∷ [])) }
    ensures err { OnErr result
        (AppendsStart (decimal s ++ closing_parenthesis ∷ []) to.old.items to.new.items) }
{
    print_bigint(i64::from(s), to)?;
    close(to)
}

#[tactic(auto, using(scalar_texts::proofs::AppendLemmas::appending))]
fn close(to: &mut Vec<u8>) -> Result<(), AllocError>
    ensures ok { OnOk result (to.new.items ≡ to.old.items ++ closing_parenthesis ∷ []) }
    ensures err { OnErr result
        (AppendsStart (closing_parenthesis ∷ []) to.old.items to.new.items) }
{
    to.push(b')')?;
    Ok(())
}

/// The law that a type which was printed reads back.
#[tactic(auto, using(crate::proofs::TypeTextLemmas::type_back))]
pub fn type_reads_back(kind: SqlType)
    requires { IsType kind }
    ensures { type_of_text (type_text kind) ≡ Some kind }
{}
