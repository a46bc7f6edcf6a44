ghost use Rattle.std.specs.Prelude.{◌≡◌, ◌+◌, ◌≤◌};
ghost use Rattle.serde_json.specs.View.{view};
ghost use Rattle.plan_grammar.specs.Grammar.{aggregate_parts, call_parts, element_of, fragment_at, has_entries, has_steps, is_open, join_parts, depth_of, limit_parts, output_parts, parts_of, parts_of_form, parts_of_node, topn_parts};

use crate::inner_tables;
use crate::json::has_entry;
use crate::kind::Kind;
use crate::tables::{self, Part};
use crate::words::{
    FormWord, OpWord, OutputWord, StepWord, form_of, is_count_all, op_of, output_of, step_of,
};
use json_paths::Key;
use serde_json::Value;

/// The keys that an object of the kind has, in the order of the walk. Which of several tables it
/// is depends on its own words.
pub fn parts_of(kind: Kind, object: &Value) -> &'static [Part]
    ensures { result.now ≡ parts_of kind (view object.now) }
{
    match kind {
        Kind::Document => &tables::DOCUMENT,
        Kind::Table => &tables::TABLE,
        Kind::Column => &tables::COLUMN,
        Kind::FirstFragment => &tables::FIRST_FRAGMENT,
        Kind::Fragment => &tables::FRAGMENT,
        Kind::Output => output_parts(output_of(object)),
        Kind::Node => parts_of_node(op_of(object), object),
        Kind::Expression => parts_of_form(form_of(object)),
        Kind::Form => parts_of_form(form_of(object)),
        Kind::Branch => &inner_tables::BRANCH,
        Kind::Filter => &inner_tables::DYNAMIC_FILTER,
        Kind::AggregateCall => call_parts(is_count_all(object)),
        Kind::SortKey => &inner_tables::SORT_KEY,
        _ => &[],
    }
}

fn output_parts(word: OutputWord) -> &'static [Part]
    ensures { result.now ≡ output_parts word }
{
    match word {
        OutputWord::Hash => &tables::HASH_OUTPUT,
        _ => &tables::OUTPUT,
    }
}

fn parts_of_node(op: OpWord, node: &Value) -> &'static [Part]
    ensures { result.now ≡ parts_of_node op (view node.now) }
{
    match op {
        OpWord::Scan => &tables::SCAN,
        OpWord::Values => &tables::VALUES,
        OpWord::Remote => &tables::REMOTE,
        OpWord::Filter => &tables::FILTER,
        OpWord::Project => &tables::PROJECT,
        OpWord::Join => join_parts(has_entry(node, Key::Filters)),
        OpWord::Aggregate => aggregate_parts(step_of(node)),
        OpWord::Sort => &tables::SORT,
        OpWord::TopN => topn_parts(step_of(node)),
        OpWord::Limit => limit_parts(step_of(node)),
        OpWord::Union => &tables::UNION,
        OpWord::Unknown => &tables::NODE,
    }
}

fn join_parts(filtered: bool) -> &'static [Part]
    ensures { result.now ≡ join_parts filtered }
{
    if filtered {
        &tables::FILTERED_JOIN
    } else {
        &tables::JOIN
    }
}

fn aggregate_parts(step: StepWord) -> &'static [Part]
    ensures { result.now ≡ aggregate_parts step }
{
    match step {
        StepWord::Single => &tables::AGGREGATE,
        StepWord::Partial => &tables::AGGREGATE,
        _ => &tables::STEP,
    }
}

fn topn_parts(step: StepWord) -> &'static [Part]
    ensures { result.now ≡ topn_parts step }
{
    match step {
        StepWord::Single => &tables::TOPN,
        StepWord::Partial => &tables::TOPN,
        _ => &tables::STEP,
    }
}

fn limit_parts(step: StepWord) -> &'static [Part]
    ensures { result.now ≡ limit_parts step }
{
    match step {
        StepWord::Single => &tables::LIMIT,
        StepWord::Partial => &tables::LIMIT,
        _ => &tables::STEP,
    }
}

fn parts_of_form(form: FormWord) -> &'static [Part]
    ensures { result.now ≡ parts_of_form form }
{
    match form {
        FormWord::Col => &inner_tables::COL,
        FormWord::Lit => &inner_tables::LIT,
        FormWord::Null => &inner_tables::NULL,
        FormWord::Call => &inner_tables::CALL,
        FormWord::Cast => &inner_tables::CAST,
        FormWord::Case => &inner_tables::CASE,
    }
}

fn call_parts(count_all: bool) -> &'static [Part]
    ensures { result.now ≡ call_parts count_all }
{
    if count_all {
        &inner_tables::COUNT_ALL
    } else {
        &inner_tables::AGGREGATE_CALL
    }
}

/// Whether the object is of no known row, so that keys beyond those of its table are no fault yet:
/// its word is refused.
pub fn is_open(kind: Kind, object: &Value) -> bool
    ensures { result ≡ is_open kind (view object.now) }
{
    match kind {
        Kind::Output => output_of(object) == OutputWord::Unknown,
        Kind::Node if has_steps(op_of(object)) => step_of(object) == StepWord::Unknown,
        Kind::Node => op_of(object) == OpWord::Unknown,
        _ => false,
    }
}

/// Whether nodes of the operator have a step.
fn has_steps(op: OpWord) -> bool
    ensures { result ≡ has_steps op }
{
    matches!(op, OpWord::Aggregate | OpWord::TopN | OpWord::Limit)
}

/// Whether a list of the kind has places for its entries.
pub fn has_entries(kind: Kind) -> bool
    ensures { result ≡ has_entries kind }
{
    match kind {
        Kind::ResultNames => true,
        Kind::Tables => true,
        Kind::Columns => true,
        Kind::Fragments => true,
        Kind::HashColumns => true,
        Kind::ScanColumns => true,
        Kind::Types => true,
        Kind::Rows => true,
        Kind::Expressions => true,
        Kind::Arguments => true,
        Kind::Branches => true,
        Kind::Pairs => true,
        Kind::Pair => true,
        Kind::Filters => true,
        Kind::GroupKeys => true,
        Kind::AggregateCalls => true,
        Kind::SortKeys => true,
        _ => false,
    }
}

/// What stands at an index of a list.
pub fn element_of(list: Kind, index: usize) -> Kind
    ensures { result ≡ element_of list index }
{
    match list {
        Kind::ResultNames => Kind::ResultName,
        Kind::Tables => Kind::Table,
        Kind::Columns => Kind::Column,
        Kind::Fragments => fragment_at(index),
        Kind::HashColumns => Kind::ColumnNumber,
        Kind::ScanColumns => Kind::ScanColumn,
        Kind::Types => Kind::Type,
        Kind::Rows => Kind::Row,
        Kind::Expressions => Kind::Expression,
        Kind::Arguments => Kind::Form,
        Kind::Branches => Kind::Branch,
        Kind::Pairs => Kind::Pair,
        Kind::Pair => Kind::ColumnNumber,
        Kind::Filters => Kind::Filter,
        Kind::GroupKeys => Kind::ColumnNumber,
        Kind::AggregateCalls => Kind::AggregateCall,
        Kind::SortKeys => Kind::SortKey,
        _ => list,
    }
}

fn fragment_at(index: usize) -> Kind
    ensures { result ≡ fragment_at index }
{
    if index == 0 {
        Kind::FirstFragment
    } else {
        Kind::Fragment
    }
}

/// How many nodes or forms stand above one another, this place among them.
pub fn depth_of(kind: Kind, above: u32) -> u32
    requires { above ≤ 1000 }
    ensures level { result ≡ depth_of kind above }
    ensures most { result ≤ above + 1 }
{
    match kind {
        Kind::Node => above + 1,
        Kind::Form => above + 1,
        Kind::Expression => 1,
        _ => above,
    }
}
