ghost use Rattle.std.specs.Prelude.{◌≡◌};
ghost use Rattle.serde_json.specs.View.{view};
ghost use Rattle.plan_docs.specs.Words.{aggregate_named, call_named, half_of, join_named, order_named, placement_named, small, small_number, small_under, truth_under, type_named, type_of, type_under};

use crate::node::NodeStep;
use crate::plan::Placement;
use json_paths::Key;
use plan_grammar::{StepWord, number_of, number_under, text_of, text_under};
use serde_json::Value;
use sql_functions::CallName;
use sql_values::{Call, JoinKind, Order, SqlType, parse_type};

/// A number that fits 32 bits, and 0 where it does not.
pub fn small(number: u64) -> u32
    ensures { result ≡ small number }
{
    if number < 1 << 32 { number as u32 } else { 0 }
}

pub fn small_number(value: &Value) -> u32
    ensures { result ≡ small_number (view value.now) }
{
    small(number_of(value))
}

pub fn small_under(object: &Value, key: Key) -> u32
    ensures { result ≡ small_under key (view object.now) }
{
    small(number_under(object, key))
}

pub fn truth_under(object: &Value, key: Key) -> bool
    ensures { result ≡ truth_under key (view object.now) }
{
    match object.get(key.text()).and_then(Value::as_bool) {
        Some(truth) => truth,
        None => false,
    }
}

fn type_named(text: &str) -> SqlType
    ensures { result ≡ type_named text.now }
{
    match parse_type(text) {
        Some(kind) => kind,
        None => SqlType::Boolean,
    }
}

pub fn type_of(value: &Value) -> SqlType
    ensures { result ≡ type_of (view value.now) }
{
    type_named(text_of(value))
}

pub fn type_under(object: &Value, key: Key) -> SqlType
    ensures { result ≡ type_under key (view object.now) }
{
    type_named(text_under(object, key))
}

pub fn call_named(text: &str) -> CallName
    ensures { result ≡ call_named text.now }
{
    match text {
        "+" => CallName::Add,
        "-" => CallName::Subtract,
        "*" => CallName::Multiply,
        "/" => CallName::Divide,
        "%" => CallName::Modulo,
        "neg" => CallName::Neg,
        "=" => CallName::Equal,
        "<>" => CallName::Unequal,
        "<" => CallName::Less,
        "<=" => CallName::LessEqual,
        ">" => CallName::Greater,
        ">=" => CallName::GreaterEqual,
        "is_distinct" => CallName::IsDistinct,
        "is_null" => CallName::IsNull,
        "not" => CallName::Not,
        "and" => CallName::And,
        "or" => CallName::Or,
        "coalesce" => CallName::Coalesce,
        "like" => CallName::Like,
        "length" => CallName::Length,
        "concat" => CallName::Concat,
        "add_days" => CallName::AddDays,
        "days_between" => CallName::DaysBetween,
        "year" => CallName::Year,
        "month" => CallName::Month,
        _ => CallName::Day,
    }
}

/// The aggregate call of that name on a column.
pub fn aggregate_named(text: &str, column: u32) -> Call
    ensures { result ≡ aggregate_named text.now column }
{
    match text {
        "count" => Call::Count(column),
        "sum" => Call::Sum(column),
        "min" => Call::Min(column),
        "max" => Call::Max(column),
        "avg" => Call::Avg(column),
        _ => Call::CountAll,
    }
}

pub fn join_named(text: &str) -> JoinKind
    ensures { result ≡ join_named text.now }
{
    match text {
        "LEFT" => JoinKind::Left,
        _ => JoinKind::Inner,
    }
}

pub fn order_named(text: &str) -> Order
    ensures { result ≡ order_named text.now }
{
    match text {
        "DESC" => Order::Descending,
        _ => Order::Ascending,
    }
}

pub fn placement_named(text: &str) -> Placement
    ensures { result ≡ placement_named text.now }
{
    match text {
        "SOURCE" => Placement::Source,
        "HASH" => Placement::Hash,
        _ => Placement::Single,
    }
}

/// The step of a node that is not FINAL.
pub fn half_of(word: StepWord) -> NodeStep
    ensures { result ≡ half_of word }
{
    match word {
        StepWord::Partial => NodeStep::Partial,
        _ => NodeStep::Single,
    }
}
