ghost use Rattle.std.specs.Prelude.{◌≡◌, ◌≤◌, ◌^◌, IsTrue};
ghost use Rattle.sql_values.specs.Cells.{lent_value};
ghost use Rattle.accumulators.specs.Limits.{are_sum_and_count as are_sum_and_count_of, counts_sum as counts_sum_of, greatest as greatest_of, is_count as is_count_of, is_number_of as is_number_of_type, is_short, is_sum as is_sum_of};

use crate::sums::{count_in, summand};
use scalar_texts::power_of_ten;
use sql_values::{SqlType, ValueRef};

/// The most rows that a group may have.
pub const MOST_ROWS: u64 = 9_223_372_036_854_775_807;

/// The greatest magnitude of a number of the type.
#[tactic(auto, using(crate::proofs::LimitRules::short))]
pub fn greatest(kind: SqlType) -> u128
    requires { IsTrue (is_short kind) }
    ensures value { result ≡ greatest_of kind }
    ensures small { result ≤ 2 ^ 63 }
{
    match kind {
        SqlType::Decimal { p, .. } => power_of_ten(p) - 1,
        _ => 9_223_372_036_854_775_808,
    }
}

/// Whether a cell has a number of the type, or is NULL.
pub fn is_number_of(kind: SqlType, cell: ValueRef<'_>) -> bool
    requires { IsTrue (is_short kind) }
    ensures { result ≡ is_number_of_type kind (lent_value cell.entry) }
{
    match summand(cell) {
        None => true,
        Some(n) => n.unsigned_abs() <= greatest(kind),
    }
}

/// Whether a value is a count of at most so many.
pub fn is_count(most: u64, value: ValueRef<'_>) -> bool
    ensures { result ≡ is_count_of most (lent_value value.entry) }
{
    match value {
        ValueRef::Bigint(n) => 0 <= n && n.unsigned_abs() <= most,
        _ => false,
    }
}

/// Whether a value is NULL, or a sum of at most this magnitude.
pub fn is_sum(most: u128, value: ValueRef<'_>) -> bool
    ensures { result ≡ is_sum_of most (lent_value value.entry) }
{
    match value {
        ValueRef::Null => true,
        ValueRef::Decimal(n) => n.unsigned_abs() <= most,
        _ => false,
    }
}

/// Whether there is no sum exactly where there is no value, and else it is one of so many numbers.
pub fn counts_sum(most: u128, sum: Option<i128>, count: u64) -> bool
    requires { most ≤ 2 ^ 63 }
    ensures { result ≡ counts_sum_of most sum count }
{
    match sum {
        None => count == 0,
        Some(n) => 1 <= count && n.unsigned_abs() <= u128::from(count) * most,
    }
}

/// Whether there is a sum of at most so many rows beside its count.
pub fn are_sum_and_count(rows: u64, most: u128, sum: ValueRef<'_>, count: ValueRef<'_>) -> bool
    requires { most ≤ 2 ^ 63 }
    ensures { result ≡ are_sum_and_count_of rows most (lent_value sum.entry) (lent_value count.entry) }
{
    is_count(rows, count)
        && is_sum(u128::from(rows) * most, sum)
        && counts_sum(most, summand(sum), count_in(count))
}
