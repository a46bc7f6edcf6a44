ghost use Rattle.std.specs.Prelude.{◌≡◌, ◌+◌, ◌<◌, length, IsTrue};
ghost use Rattle.sql_functions.specs.CallTypes.{is_decimal, type_at};
ghost use Rattle.accumulators.specs.Columns.{column_of};
ghost use Rattle.accumulators.specs.Limits.{are_allowed, can_add, is_short};

use sql_values::{Call, SqlType};

/// Whether an aggregate of these keys and calls has a column.
pub fn has_column(keys: &[u32], calls: &[Call]) -> bool
    ensures { IsTrue result → 0 < length keys.now + length calls.now }
{
    !keys.is_empty() || !calls.is_empty()
}

/// Whether the calls can be made over rows of these types.
pub fn are_allowed(types: &[SqlType], calls: &[Call]) -> bool
    ensures { result ≡ are_allowed types.now calls.now }
{
    for call in calls {
        if !is_allowed(types, *call) {
            return false;
        }
    }
    true
}

fn is_allowed(types: &[SqlType], call: Call) -> bool
    ensures { result ≡ can_add (type_at types.now (column_of call)) call }
{
    match call {
        Call::Sum(column) => is_short_at(types, column),
        Call::Avg(column) => is_decimal_at(types, column) && is_short_at(types, column),
        _ => true,
    }
}

fn is_decimal_at(types: &[SqlType], column: u32) -> bool
    ensures { result ≡ is_decimal (type_at types.now column) }
{
    matches!(types.get(column as usize), Some(SqlType::Decimal { .. }))
}

/// Whether sums of the column stay within 38 digits.
fn is_short_at(types: &[SqlType], column: u32) -> bool
    ensures { result ≡ is_short (type_at types.now column) }
{
    match types.get(column as usize) {
        Some(SqlType::Bigint) => true,
        Some(SqlType::Decimal { p, .. }) => *p <= 18,
        _ => false,
    }
}
