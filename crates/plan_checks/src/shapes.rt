ghost use Rattle.std.specs.Prelude.{◌≡◌, map, option_map, not, IfOk};
ghost use Rattle.std.specs.List.{find, list_all, position_from};
ghost use Rattle.serde_json.specs.View.{view};
ghost use Rattle.plan_grammar.specs.Spots.{spot_of};
ghost use Rattle.plan_checks.specs.Shapes.{bad_cell, cell_steps, fault_path, has_keys, has_shape, index_steps, is_cell, is_flag, is_join_kind, is_list, is_misshapen, is_number, is_order, is_placement, is_row, is_text, is_whole, is_wide, row_width, shape_of};

use json_paths::{Key, Step};
use plan_grammar::{
    Kind, OpWord, OutputWord, Part, Place, StepWord, entries_count, entries_in, entries_under,
    has_entry, is_open, members_count, number_of, op_named, output_named, parts_of, step_named,
    text_of,
};
use serde_json::Value;
use sql_values::Memory;
use std::alloc::Global;

/// What may stand at a place.
#[derive(Clone, Copy)]
pub enum Shape {
    /// An object with exactly the keys of its table.
    Object,
    List,
    /// A list of two entries, each a place of its own.
    Pair,
    /// A list of texts and nulls, as long as its node's types.
    Row,
    /// A whole number of 64 bits without a sign.
    Number,
    /// The number 1.
    One,
    Text,
    Flag,
    OpWord,
    StepWord,
    OutputWord,
    PlacementWord,
    JoinWord,
    OrderWord,
}

/// The first place whose value has the wrong shape.
pub fn first_misshapen<'p, 'v>(places: &'p [Place<'v>]) -> Option<&'p Place<'v>>
    ensures { option_map (λ p. spot_of p.now) result ≡ find is_misshapen (map spot_of places.now) }
{
    for place in places {
        if is_misshapen(place) {
            return Some(place);
        }
    }
    None
}

fn is_misshapen(place: &Place<'_>) -> bool
    ensures { result ≡ is_misshapen (spot_of place.now) }
{
    !has_shape(shape_of(place.kind), place)
}

fn shape_of(kind: Kind) -> Shape
    ensures { result ≡ shape_of kind }
{
    match kind {
        Kind::Document => Shape::Object,
        Kind::Version => Shape::One,
        Kind::ResultNames => Shape::List,
        Kind::ResultName => Shape::Text,
        Kind::Tables => Shape::List,
        Kind::Table => Shape::Object,
        Kind::TableName => Shape::Text,
        Kind::Columns => Shape::List,
        Kind::Column => Shape::Object,
        Kind::ColumnName => Shape::Text,
        Kind::Type => Shape::Text,
        Kind::Fragments => Shape::List,
        Kind::FirstFragment => Shape::Object,
        Kind::Fragment => Shape::Object,
        Kind::FragmentId => Shape::Number,
        Kind::Placement => Shape::PlacementWord,
        Kind::Output => Shape::Object,
        Kind::OutputKind => Shape::OutputWord,
        Kind::HashColumns => Shape::List,
        Kind::ColumnNumber => Shape::Number,
        Kind::Node => Shape::Object,
        Kind::NodeId => Shape::Number,
        Kind::Op => Shape::OpWord,
        Kind::ScanTable => Shape::Text,
        Kind::ScanColumns => Shape::List,
        Kind::ScanColumn => Shape::Text,
        Kind::Types => Shape::List,
        Kind::Rows => Shape::List,
        Kind::Row => Shape::Row,
        Kind::FragmentNumber => Shape::Number,
        Kind::Expressions => Shape::List,
        Kind::Expression => Shape::Object,
        Kind::Form => Shape::Object,
        Kind::LitText => Shape::Text,
        Kind::CallName => Shape::Text,
        Kind::Arguments => Shape::List,
        Kind::Branches => Shape::List,
        Kind::Branch => Shape::Object,
        Kind::JoinKind => Shape::JoinWord,
        Kind::Pairs => Shape::List,
        Kind::Pair => Shape::Pair,
        Kind::Filters => Shape::List,
        Kind::Filter => Shape::Object,
        Kind::FilterId => Shape::Number,
        Kind::PairNumber => Shape::Number,
        Kind::ScanId => Shape::Number,
        Kind::Wait => Shape::Flag,
        Kind::Step => Shape::StepWord,
        Kind::GroupKeys => Shape::List,
        Kind::AggregateCalls => Shape::List,
        Kind::AggregateCall => Shape::Object,
        Kind::AggregateName => Shape::Text,
        Kind::SortKeys => Shape::List,
        Kind::SortKey => Shape::Object,
        Kind::Order => Shape::OrderWord,
        Kind::Count => Shape::Number,
    }
}

fn has_shape(shape: Shape, place: &Place<'_>) -> bool
    ensures { result ≡ has_shape shape (spot_of place.now) }
{
    let value = place.value;
    match shape {
        Shape::Object => is_whole(place.kind, value),
        Shape::List => value.is_array(),
        Shape::Pair => is_wide(2, value),
        Shape::Row => is_row(row_width(place.owner), value),
        Shape::Number => is_number(value),
        Shape::One => number_of(value) == 1,
        Shape::Text => value.is_string(),
        Shape::Flag => value.is_boolean(),
        Shape::OpWord => op_named(text_of(value)) != OpWord::Unknown,
        Shape::StepWord => step_named(text_of(value)) != StepWord::Unknown,
        Shape::OutputWord => output_named(text_of(value)) != OutputWord::Unknown,
        Shape::PlacementWord => is_placement(text_of(value)),
        Shape::JoinWord => is_join_kind(text_of(value)),
        Shape::OrderWord => is_order(text_of(value)),
    }
}

fn is_whole(kind: Kind, object: &Value) -> bool
    ensures { result ≡ is_whole kind (view object.now) }
{
    let parts = parts_of(kind, object);
    has_keys(parts, object) && (is_open(kind, object) || members_count(object) == parts.len())
}

fn has_keys(parts: &[Part], object: &Value) -> bool
    ensures { result ≡ has_keys parts.now (view object.now) }
{
    for part in parts {
        if !has_entry(object, part.key) {
            return false;
        }
    }
    true
}

fn is_number(value: &Value) -> bool
    ensures { result ≡ is_number (view value.now) }
{
    value.as_u64().is_some()
}

fn row_width(node: &Value) -> usize
    ensures { result ≡ row_width (view node.now) }
{
    entries_under(node, Key::Types).len()
}

fn is_row(width: usize, value: &Value) -> bool
    ensures { result ≡ is_row width (view value.now) }
{
    is_wide(width, value) && are_cells(entries_in(value))
}

fn is_wide(width: usize, value: &Value) -> bool
    ensures { result ≡ is_wide width (view value.now) }
{
    value.is_array() && entries_count(value) == width
}

fn are_cells(values: &[Value]) -> bool
    ensures { result ≡ list_all is_cell (map view values.now) }
{
    for value in values {
        if !is_cell(value) {
            return false;
        }
    }
    true
}

fn is_cell(value: &Value) -> bool
    ensures { result ≡ is_cell (view value.now) }
{
    value.is_null() || value.is_string()
}

fn is_placement(text: &str) -> bool
    ensures { result ≡ is_placement text.now }
{
    text == "SINGLE" || text == "SOURCE" || text == "HASH"
}

fn is_join_kind(text: &str) -> bool
    ensures { result ≡ is_join_kind text.now }
{
    text == "INNER" || text == "LEFT"
}

fn is_order(text: &str) -> bool
    ensures { result ≡ is_order text.now }
{
    text == "ASC" || text == "DESC"
}

/// The path to a fault of the place: to the place itself, or to a cell of the row there.
pub fn fault_path(alloc: Global, place: &Place<'_>) -> Result<Vec<Step>, Memory>
    ensures { IfOk result (λ path. path.items ≡ fault_path (spot_of place.now)) }
{
    let mut path = Vec::from_slice(alloc, place.path.as_slice())?;
    if let Some(i) = cell_index(place) {
        path.push(Step::Index(i))?;
    }
    Ok(path)
}

fn cell_index(place: &Place<'_>) -> Option<usize>
    ensures { index_steps result
        ≡ cell_steps place.now.kind (view place.now.owner.now) (view place.now.value.now) }
{
    match place.kind {
        Kind::Row if is_wide(row_width(place.owner), place.value) => {
            bad_cell(entries_in(place.value))
        }
        _ => None,
    }
}

fn bad_cell(cells: &[Value]) -> Option<usize>
    ensures { result ≡ position_from (λ c. not (is_cell c)) 0 (map view cells.now) }
{
    for (i, cell) in cells.iter().enumerate() {
        if !is_cell(cell) {
            return Some(i);
        }
    }
    None
}
