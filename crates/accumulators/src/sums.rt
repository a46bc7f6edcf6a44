ghost use Rattle.std.specs.Prelude.{◌≡◌, ℕ, [], ◌∷◌, ◌+◌, ◌<◌, ◌≤◌, ◌^◌, Ok, Err, if◌then◌else◌, filter, length, nat_abs, pos};
ghost use Rattle.decimals.specs.Arithmetic.{rounded_quotient as quotient_of};
ghost use Rattle.scalar_texts.specs.Numbers.{has_64_bits};
ghost use Rattle.sql_values.specs.Cells.{lent_value};
ghost use Rattle.relation_laws.specs.Aggregates.{average as average_of, count_of as cells_count, most_group_rows};
ghost use Rattle.relation_laws.specs.Equality.{is_present};
ghost use Rattle.relation_laws.specs.Partials.{added_counts, added_sums, average_from, partial_sum, sum_from};
ghost use Rattle.accumulators.specs.Columns.{HasAverage, added as added_of, count_in as count_of, magnitude, sum_cell, summand as summand_of};

use sql_functions::is_null;
use sql_values::{Fail, SqlType, Value, ValueRef};

/// The number that a cell adds to a sum: none for NULL.
pub fn summand(cell: ValueRef<'_>) -> Option<i128>
    ensures { result ≡ summand_of (lent_value cell.entry) }
{
    match cell {
        ValueRef::Null => None,
        ValueRef::Bigint(n) => Some(i128::from(n)),
        ValueRef::Decimal(unscaled) => Some(unscaled),
        ValueRef::Date(day) => Some(i128::from(day)),
        ValueRef::Boolean(_) => Some(0),
        ValueRef::Varchar(_) => Some(0),
    }
}

/// The sum of two sums, of which one may have added nothing.
fn added(sum: Option<i128>, more: Option<i128>) -> Option<i128>
    requires { magnitude sum + magnitude more < 2 ^ 127 }
    ensures { result ≡ added_of sum more }
{
    match (sum, more) {
        (None, _) => more,
        (Some(n), None) => Some(n),
        (Some(n), Some(m)) => Some(n + m),
    }
}

/// The sum as a value: NULL where nothing was added.
pub fn sum_value(sum: Option<i128>) -> Value
    ensures { result ≡ sum_cell sum }
{
    match sum {
        None => Value::Null,
        Some(total) => Value::Decimal(total),
    }
}

/// The count as a value.
pub fn count_value(count: u64) -> Value
    requires { count ≤ most_group_rows }
    ensures { result ≡ Value.Bigint (pos count) }
{
    Value::Bigint(count as i64)
}

/// The count that a value is, if it is one.
pub fn count_in(value: ValueRef<'_>) -> u64
    ensures { result ≡ count_of (lent_value value.entry) }
{
    match value {
        ValueRef::Bigint(n) => n.unsigned_abs(),
        _ => 0,
    }
}

/// One where the cell is not NULL.
fn counted(cell: ValueRef<'_>) -> u64
    ensures { result ≡ length (filter is_present (lent_value cell.entry ∷ [])) }
{
    if is_null(cell) { 0 } else { 1 }
}

/// Adds the number of a cell.
#[tactic(auto, using(crate::proofs::CellRules::summing))]
pub fn add_cell(sum: &mut Option<i128>, cell: ValueRef<'_>)
    requires { magnitude sum.old + magnitude (summand_of (lent_value cell)) < 2 ^ 127 }
    ensures { sum_cell sum.new
        ≡ added_sums (sum_cell sum.old) (partial_sum (filter is_present (lent_value cell.entry ∷ []))) }
{
    *sum = added(*sum, summand(cell));
}

/// Adds a stored sum.
#[tactic(auto, using(crate::proofs::CellRules::summing))]
pub fn add_sum(sum: &mut Option<i128>, value: ValueRef<'_>)
    requires room { magnitude sum.old + magnitude (summand_of (lent_value value)) < 2 ^ 127 }
    requires stored { sum_cell (summand_of (lent_value value)) ≡ lent_value value }
    ensures { sum_cell sum.new ≡ added_sums (sum_cell sum.old) (lent_value value.entry) }
{
    *sum = added(*sum, summand(value));
}

/// Counts a cell, where it is not NULL.
#[tactic(auto, using(crate::proofs::CellRules::counting))]
pub fn count_cell(count: &mut u64, cell: ValueRef<'_>)
    requires { count.old + length (filter is_present (lent_value cell ∷ [])) ≤ most_group_rows }
    ensures value { Value.Bigint (pos count.new)
        ≡ added_counts (Value.Bigint (pos count.old)) (cells_count (filter is_present (lent_value cell.entry ∷ []))) }
    ensures few { count.new ≤ most_group_rows }
{
    *count += counted(cell);
}

/// Adds a stored count.
#[tactic(auto, using(crate::proofs::CellRules::counting))]
pub fn add_count(count: &mut u64, value: ValueRef<'_>)
    requires room { count.old + count_of (lent_value value) ≤ most_group_rows }
    requires stored { Value.Bigint (pos (count_of (lent_value value))) ≡ lent_value value }
    ensures value { Value.Bigint (pos count.new)
        ≡ added_counts (Value.Bigint (pos count.old)) (lent_value value.entry) }
    ensures few { count.new ≤ most_group_rows }
{
    *count += count_in(value);
}

/// The result of a sum over numbers of the type.
pub fn sum_result(kind: SqlType, sum: Option<i128>) -> Result<Value, Fail>
    ensures { result ≡ sum_from kind (sum_cell sum) }
{
    match sum {
        None => Ok(Value::Null),
        Some(total) => match kind {
            SqlType::Decimal { .. } => Ok(Value::Decimal(total)),
            _ => bigint(total),
        },
    }
}

fn bigint(total: i128) -> Result<Value, Fail>
    ensures { result ≡ (if has_64_bits total then Ok (Value.Bigint total) else Err Fail.OutOfRange) }
{
    i64::try_from(total)
        .ok()
        .map(Value::Bigint)
        .ok_or(Fail::OutOfRange)
}

/// The average of so many numbers, of which there are none where the sum added nothing.
pub fn average_result(sum: Option<i128>, count: u64) -> Value
    requires { HasAverage sum count }
    ensures { average_from (sum_cell sum) (Value.Bigint (pos count)) ≡ Ok result }
{
    match sum {
        None => Value::Null,
        Some(total) => Value::Decimal(average(total, count)),
    }
}

/// The total divided by the count; a half is rounded away from zero.
fn average(total: i128, count: u64) -> i128
    requires some { 0 < count }
    requires small { nat_abs total < 2 ^ 126 }
    ensures { result ≡ average_of total count }
{
    let magnitude = rounded_quotient(u128::from(count), total.unsigned_abs()) as i128;
    if total < 0 { -magnitude } else { magnitude }
}

/// `n` divided by `d`; a half is rounded up.
fn rounded_quotient(d: u128, n: u128) -> u128
    requires { (0 < d) × (d < 2 ^ 64) × (n < 2 ^ 126) }
    ensures value { result ≡ quotient_of d n }
    ensures small { result ≤ 2 ^ 126 }
{
    let quotient = n / d;
    if d <= 2 * (n % d) {
        quotient + 1
    } else {
        quotient
    }
}
