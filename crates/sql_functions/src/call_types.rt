ghost use Rattle.std.specs.Prelude.{◌≡◌};
ghost use Rattle.std.specs.List.{list_all};
ghost use Rattle.sql_functions.specs.CallTypes.{are_factors, are_numbers, call_type, can_cast, is_bigint, is_boolean, is_date, is_decimal, is_number, is_varchar, product_type, same_type, sum_type, takes_all, takes_one, takes_several, takes_two, takes_types};
ghost use Rattle.sql_values.specs.Texts.{scale_of};

use crate::name::CallName;
use sql_values::SqlType;

fn is_boolean(kind: SqlType) -> bool
    ensures { result ≡ is_boolean kind }
{
    kind == SqlType::Boolean
}

fn is_bigint(kind: SqlType) -> bool
    ensures { result ≡ is_bigint kind }
{
    kind == SqlType::Bigint
}

fn is_decimal(kind: SqlType) -> bool
    ensures { result ≡ is_decimal kind }
{
    matches!(kind, SqlType::Decimal { .. })
}

fn is_varchar(kind: SqlType) -> bool
    ensures { result ≡ is_varchar kind }
{
    kind == SqlType::Varchar
}

fn is_date(kind: SqlType) -> bool
    ensures { result ≡ is_date kind }
{
    kind == SqlType::Date
}

/// Whether two types are equal, with equal digits.
pub fn same_type(a: SqlType, b: SqlType) -> bool
    ensures { result ≡ same_type a b }
{
    a == b
}

fn is_number(kind: SqlType) -> bool
    ensures { result ≡ is_number kind }
{
    is_bigint(kind) || is_decimal(kind)
}

/// Whether a value of the first type may be cast to the second.
pub fn can_cast(from: SqlType, to: SqlType) -> bool
    ensures { result ≡ can_cast from to }
{
    same_type(from, to) || is_varchar(from) || is_varchar(to) || (is_number(from) && is_number(to))
}

fn sum_type(left: SqlType, right: SqlType) -> SqlType
    ensures { result ≡ sum_type left right }
{
    match (left, right) {
        (SqlType::Decimal { p, s }, SqlType::Decimal { p: q, s: t }) => {
            let scale = s.max(t);
            let whole = p.saturating_sub(s).max(q.saturating_sub(t));
            let digits = 1 + u16::from(scale) + u16::from(whole);
            SqlType::Decimal {
                p: digits.min(38) as u8,
                s: scale,
            }
        }
        _ => SqlType::Bigint,
    }
}

fn product_type(left: SqlType, right: SqlType) -> SqlType
    ensures { result ≡ product_type left right }
{
    match (left, right) {
        (SqlType::Decimal { p, s }, SqlType::Decimal { p: q, s: t }) => {
            let scale = u16::from(s) + u16::from(t);
            if scale > 38 {
                return SqlType::Bigint;
            }
            let digits = u16::from(p) + u16::from(q);
            SqlType::Decimal {
                p: digits.min(38) as u8,
                s: scale as u8,
            }
        }
        _ => SqlType::Bigint,
    }
}

/// The type of a call whose first arguments have these types.
pub fn call_type(name: CallName, first: SqlType, second: SqlType) -> SqlType
    ensures { result ≡ call_type name first second }
{
    match name {
        CallName::Add | CallName::Subtract => sum_type(first, second),
        CallName::Multiply => product_type(first, second),
        CallName::Neg | CallName::Coalesce => first,
        CallName::Divide
        | CallName::Modulo
        | CallName::Length
        | CallName::DaysBetween
        | CallName::Year
        | CallName::Month
        | CallName::Day => SqlType::Bigint,
        CallName::Concat => SqlType::Varchar,
        CallName::AddDays => SqlType::Date,
        _ => SqlType::Boolean,
    }
}

fn are_numbers(left: SqlType, right: SqlType) -> bool
    ensures { result ≡ are_numbers left right }
{
    (is_bigint(left) && is_bigint(right)) || (is_decimal(left) && is_decimal(right))
}

pub fn scale_of(kind: SqlType) -> u8
    ensures { result ≡ scale_of kind }
{
    match kind {
        SqlType::Decimal { s, .. } => s,
        _ => 0,
    }
}

fn are_factors(left: SqlType, right: SqlType) -> bool
    ensures { result ≡ are_factors left right }
{
    are_numbers(left, right) && u16::from(scale_of(left)) + u16::from(scale_of(right)) <= 38
}

/// Whether a call takes an argument of this type alone.
fn takes_one(name: CallName, kind: SqlType) -> bool
    ensures { result ≡ takes_one name kind }
{
    match name {
        CallName::Neg => is_number(kind),
        CallName::IsNull => true,
        CallName::Not => is_boolean(kind),
        CallName::Length => is_varchar(kind),
        CallName::Year | CallName::Month | CallName::Day => is_date(kind),
        _ => false,
    }
}

/// Whether a call takes two arguments of these types alone.
fn takes_two(name: CallName, left: SqlType, right: SqlType) -> bool
    ensures { result ≡ takes_two name left right }
{
    match name {
        CallName::Add | CallName::Subtract => are_numbers(left, right),
        CallName::Multiply => are_factors(left, right),
        CallName::Divide | CallName::Modulo => is_bigint(left) && is_bigint(right),
        CallName::Equal
        | CallName::Unequal
        | CallName::Less
        | CallName::LessEqual
        | CallName::Greater
        | CallName::GreaterEqual
        | CallName::IsDistinct => same_type(left, right),
        CallName::Like | CallName::Concat => is_varchar(left) && is_varchar(right),
        CallName::AddDays => is_date(left) && is_bigint(right),
        CallName::DaysBetween => is_date(left) && is_date(right),
        _ => false,
    }
}

fn all_boolean(kinds: &[SqlType]) -> bool
    ensures { result ≡ list_all is_boolean kinds.now }
{
    for kind in kinds {
        if !is_boolean(*kind) {
            return false;
        }
    }
    true
}

fn all_of_type(kind: SqlType, kinds: &[SqlType]) -> bool
    ensures { result ≡ list_all (same_type kind) kinds.now }
{
    for other in kinds {
        if !same_type(kind, *other) {
            return false;
        }
    }
    true
}

/// Whether a call of 2 to 64 arguments takes these types.
fn takes_several(name: CallName, kinds: &[SqlType]) -> bool
    ensures { result ≡ takes_several name kinds.now }
{
    match name {
        CallName::And | CallName::Or => all_boolean(kinds),
        CallName::Coalesce => match kinds.first() {
            Some(kind) => all_of_type(*kind, kinds),
            None => true,
        },
        _ => false,
    }
}

fn takes_all(name: CallName, kinds: &[SqlType]) -> bool
    ensures { result ≡ takes_all name kinds.now }
{
    kinds.len() >= 2 && kinds.len() <= 64 && takes_several(name, kinds)
}

/// Whether a call takes arguments of these types.
pub fn takes_types(name: CallName, kinds: &[SqlType]) -> bool
    ensures { result ≡ takes_types name kinds.now }
{
    match kinds {
        [kind] => takes_one(name, *kind),
        [left, right] => takes_two(name, *left, *right) || takes_all(name, kinds),
        _ => takes_all(name, kinds),
    }
}
