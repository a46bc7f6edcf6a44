ghost use Rattle.std.specs.Prelude.{◌≡◌};
ghost use Rattle.serde_json.specs.View.{view};
ghost use Rattle.plan_grammar.specs.Words.{form_of, is_count_all, op_named, op_of, output_named, output_of, step_named, step_of};

use crate::json::{has_entry, text_under};
use json_paths::Key;
use serde_json::Value;

/// The word that says which operator a node is.
#[derive(Clone, Copy, PartialEq, Eq)]
pub enum OpWord {
    Scan,
    Values,
    Remote,
    Filter,
    Project,
    Join,
    Aggregate,
    Sort,
    TopN,
    Limit,
    Union,
    /// No such word.
    Unknown,
}

/// The word that says whether an operator is one of two halves, and which.
#[derive(Clone, Copy, PartialEq, Eq)]
pub enum StepWord {
    Single,
    Partial,
    Final,
    /// No such word.
    Unknown,
}

/// The word that says to which tasks a fragment's rows go.
#[derive(Clone, Copy, PartialEq, Eq)]
pub enum OutputWord {
    Single,
    Broadcast,
    Hash,
    /// No such word.
    Unknown,
}

/// The form of an expression, which its first key says.
#[derive(Clone, Copy)]
pub enum FormWord {
    Lit,
    Null,
    Call,
    Cast,
    Case,
    /// A column, or no form at all.
    Col,
}

pub fn op_named(text: &str) -> OpWord
    ensures { result ≡ op_named text.now }
{
    match text {
        "scan" => OpWord::Scan,
        "values" => OpWord::Values,
        "remote" => OpWord::Remote,
        "filter" => OpWord::Filter,
        "project" => OpWord::Project,
        "join" => OpWord::Join,
        "aggregate" => OpWord::Aggregate,
        "sort" => OpWord::Sort,
        "topn" => OpWord::TopN,
        "limit" => OpWord::Limit,
        "union" => OpWord::Union,
        _ => OpWord::Unknown,
    }
}

pub fn op_of(node: &Value) -> OpWord
    ensures { result ≡ op_of (view node.now) }
{
    op_named(text_under(node, Key::Op))
}

pub fn step_named(text: &str) -> StepWord
    ensures { result ≡ step_named text.now }
{
    match text {
        "SINGLE" => StepWord::Single,
        "PARTIAL" => StepWord::Partial,
        "FINAL" => StepWord::Final,
        _ => StepWord::Unknown,
    }
}

pub fn step_of(node: &Value) -> StepWord
    ensures { result ≡ step_of (view node.now) }
{
    step_named(text_under(node, Key::Step))
}

pub fn output_named(text: &str) -> OutputWord
    ensures { result ≡ output_named text.now }
{
    match text {
        "SINGLE" => OutputWord::Single,
        "BROADCAST" => OutputWord::Broadcast,
        "HASH" => OutputWord::Hash,
        _ => OutputWord::Unknown,
    }
}

pub fn output_of(output: &Value) -> OutputWord
    ensures { result ≡ output_of (view output.now) }
{
    output_named(text_under(output, Key::Kind))
}

pub fn form_of(expression: &Value) -> FormWord
    ensures { result ≡ form_of (view expression.now) }
{
    if has_entry(expression, Key::Lit) {
        FormWord::Lit
    } else if has_entry(expression, Key::Null) {
        FormWord::Null
    } else if has_entry(expression, Key::Call) {
        FormWord::Call
    } else if has_entry(expression, Key::Cast) {
        FormWord::Cast
    } else if has_entry(expression, Key::Case) {
        FormWord::Case
    } else {
        FormWord::Col
    }
}

/// Whether the aggregate call is the one that has no column.
pub fn is_count_all(call: &Value) -> bool
    ensures { result ≡ is_count_all (view call.now) }
{
    text_under(call, Key::Name) == "count_all"
}
