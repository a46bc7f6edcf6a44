ghost use Rattle.std.specs.Prelude.{◌≡◌, option_map, unsigned_abs, pos, ◌+ℤ◌, if◌then◌else◌, IsTrue, Some, None};
ghost use Rattle.scalar_texts.specs.Dates.{calendar_day, has_date, nth_day};
ghost use Rattle.sql_values.specs.Cells.{lent_value};
ghost use Rattle.sql_functions.specs.DateCalls.{add_days_of, date, day_of, days_between_of, month_of, year_of};

use jiff_core::civil::Date;
use scalar_texts::{FIRST_DAY, LAST_DAY};
use sql_values::{Fail, Value, ValueRef};

fn later_by(day: i32, n: i64) -> Result<Value, Fail>
    ensures { result ≡ date (day +ℤ n) }
{
    match i64::from(day).checked_add(n) {
        Some(later) => of_day(later),
        None => Err(Fail::OutOfRange),
    }
}

/// The day, where it is of the years 1 to 9999.
fn of_day(day: i64) -> Result<Value, Fail>
    ensures { result ≡ date day }
{
    if day < i64::from(FIRST_DAY) || day > i64::from(LAST_DAY) {
        return Err(Fail::OutOfRange);
    }
    Ok(Value::Date(day as i32))
}

pub fn add_days(a: ValueRef<'_>, b: ValueRef<'_>) -> Result<Value, Fail>
    ensures { result ≡ add_days_of (lent_value a.entry) (lent_value b.entry) }
{
    match (a, b) {
        (ValueRef::Date(day), ValueRef::Bigint(n)) => later_by(day, n),
        _ => Ok(Value::Null),
    }
}

/// The day of the second less the day of the first.
pub fn days_between(a: ValueRef<'_>, b: ValueRef<'_>) -> Value
    ensures { result ≡ days_between_of (lent_value a.entry) (lent_value b.entry) }
{
    match (a, b) {
        (ValueRef::Date(a), ValueRef::Date(b)) => Value::Bigint(i64::from(b) - i64::from(a)),
        _ => Value::Null,
    }
}

/// The date of a day, if it has one.
fn calendar_date(day: i32) -> Option<Date>
    ensures { option_map calendar_day result ≡ (if has_date day then Some (nth_day (unsigned_abs (day +ℤ pos 719_162))) else None) }
{
    if day < FIRST_DAY || day > LAST_DAY {
        return None;
    }
    date_of(day)
}

#[tactic(auto, using(scalar_texts::proofs::DateLemmas::nth_day_is))]
fn date_of(day: i32) -> Option<Date>
    requires { IsTrue (has_date day) }
    ensures { option_map calendar_day result ≡ Some (nth_day (unsigned_abs (day +ℤ pos 719_162))) }
{
    Date::from_unix_epoch_day(i64::from(day)).ok()
}

pub fn year(value: ValueRef<'_>) -> Value
    ensures { result ≡ year_of (lent_value value.entry) }
{
    match value {
        ValueRef::Date(day) => match calendar_date(day) {
            Some(date) => Value::Bigint(i64::from(date.year.unsigned_abs())),
            None => Value::Null,
        },
        _ => Value::Null,
    }
}

pub fn month(value: ValueRef<'_>) -> Value
    ensures { result ≡ month_of (lent_value value.entry) }
{
    match value {
        ValueRef::Date(day) => match calendar_date(day) {
            Some(date) => Value::Bigint(i64::from(date.month)),
            None => Value::Null,
        },
        _ => Value::Null,
    }
}

pub fn day(value: ValueRef<'_>) -> Value
    ensures { result ≡ day_of (lent_value value.entry) }
{
    match value {
        ValueRef::Date(day) => match calendar_date(day) {
            Some(date) => Value::Bigint(i64::from(date.day)),
            None => Value::Null,
        },
        _ => Value::Null,
    }
}
