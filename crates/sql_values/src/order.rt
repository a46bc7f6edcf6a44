ghost use Rattle.std.specs.Prelude.{◌≡◌, ◌↔◌, List, [], ◌∷◌};
ghost use Rattle.std.specs.Cmp.{IsTotalOrder};
ghost use Rattle.sql_values.specs.Cells.{lent_value};
ghost use Rattle.sql_values.specs.Order.{cell_cmp, kind_rank, row_cmp, value_cmp};

use crate::row::Row;
use crate::value::ValueRef;
use std::cmp::Ordering;

/// The direction of a sort key.
#[derive(Clone, Copy, Debug, PartialEq, Eq)]
pub enum Order {
    Ascending,
    Descending,
}

/// A sort key: a column and its direction. Nulls are last in both.
#[derive(Clone, Copy, Debug, PartialEq, Eq)]
pub struct KeySpec {
    pub column: u32,
    pub order: Order,
}

/// Compares two rows key by key. A column past the end of a row is NULL there.
pub fn compare_rows(keys: &[KeySpec], a: &Row, b: &Row) -> Ordering
    ensures { result ≡ row_cmp keys.now a.now b.now }
{
    for key in keys {
        match compare_cells(key.order, a.cell(key.column), b.cell(key.column)) {
            Ordering::Equal => {}
            unequal => return unequal,
        }
    }
    Ordering::Equal
}

/// Compares two cells in a direction, with NULL last.
pub fn compare_cells(order: Order, a: ValueRef<'_>, b: ValueRef<'_>) -> Ordering
    ensures { result ≡ cell_cmp order (lent_value a.entry) (lent_value b.entry) }
{
    match (a, b) {
        (ValueRef::Null, ValueRef::Null) => Ordering::Equal,
        (ValueRef::Null, _) => Ordering::Greater,
        (_, ValueRef::Null) => Ordering::Less,
        _ => match order {
            Order::Ascending => compare_values(a, b),
            Order::Descending => compare_values(b, a),
        },
    }
}

/// Compares two values: texts by their bytes, false below true.
#[tactic(auto, using(crate::proofs::OrderLemmas::comparing_parts))]
pub fn compare_values(a: ValueRef<'_>, b: ValueRef<'_>) -> Ordering
    ensures { result ≡ value_cmp (lent_value a.entry) (lent_value b.entry) }
{
    match (a, b) {
        (ValueRef::Boolean(x), ValueRef::Boolean(y)) => x.cmp(&y),
        (ValueRef::Bigint(x), ValueRef::Bigint(y)) => x.cmp(&y),
        (ValueRef::Decimal(x), ValueRef::Decimal(y)) => x.cmp(&y),
        (ValueRef::Varchar(x), ValueRef::Varchar(y)) => x.cmp(y),
        (ValueRef::Date(x), ValueRef::Date(y)) => x.cmp(&y),
        _ => kind_rank(a).cmp(&kind_rank(b)),
    }
}

fn kind_rank(value: ValueRef<'_>) -> u8
    ensures { result ≡ kind_rank (lent_value value.entry) }
{
    match value {
        ValueRef::Boolean(_) => 0,
        ValueRef::Bigint(_) => 1,
        ValueRef::Decimal(_) => 2,
        ValueRef::Varchar(_) => 3,
        ValueRef::Date(_) => 4,
        ValueRef::Null => 5,
    }
}

/// The law that the comparison orders all rows.
#[tactic(auto, using(crate::proofs::OrderLemmas::row_cmp_total))]
pub fn rows_are_ordered(keys: &[KeySpec])
    ensures { IsTotalOrder (row_cmp keys.now) }
{}

/// The law that two values are equal in the order exactly where they are the same value.
#[tactic(auto, using(crate::proofs::OrderLemmas::equal_values))]
pub fn equal_values_are_the_same(a: ValueRef<'_>, b: ValueRef<'_>)
    ensures { (value_cmp (lent_value a.entry) (lent_value b.entry) ≡ Ordering.Equal)
        ↔ (lent_value a.entry ≡ lent_value b.entry) }
{}
