ghost use Rattle.std.specs.Prelude.{◌≡◌, ◌∷◌, ◌++◌, Some, [], IsTrue, OnOk, OnErr, MatchOption, option_and_then, pos, neg_ℤ, ◌≤ℤ◌};
ghost use Rattle.scalar_texts.specs.Appends.{AppendsStart};
ghost use Rattle.scalar_texts.specs.Dates.{calendar_day, date_of, date_text, day_number, day_text, has_date, month_day_text};
ghost use Rattle.scalar_texts.specs.Numbers.{padded};

use crate::append::append_padded;
use crate::digits::short_number;
use jiff_core::civil::Date;
use std::alloc::AllocError;

/// The day number of 1 January of the year 1.
pub const FIRST_DAY: i32 = -719_162;

/// The day number of 31 December of the year 9999.
pub const LAST_DAY: i32 = 2_932_896;

/// The day number of a date that is written `YYYY-MM-DD`.
pub fn read_date(text: &[u8]) -> Option<i32>
    ensures { result ≡ date_of text.now }
{
    if text.len() != 10 || text[4] != b'-' || text[7] != b'-' {
        return None;
    }
    let year = short_number(&text[0..4])?;
    let month = short_number(&text[5..7])?;
    let day = short_number(&text[8..10])?;
    day_number(year, month, day)
}

#[tactic(auto, using(crate::proofs::DateLemmas::numbering))]
fn day_number(year: u64, month: u64, day: u64) -> Option<i32>
    ensures { result ≡ day_number (record { year = year; month = month; day = day }) }
{
    if year < 1 || year > 9999 || month > 12 || day > 31 {
        return None;
    }
    match Date::new(year as i16, month as i8, day as i8) {
        Ok(date) => Some(date.to_unix_epoch_day()),
        Err(_) => None,
    }
}

/// The date of a day number, where it is within the years 1 to 9999.
fn date_at(day: i32) -> Option<Date>
    ensures { MatchOption result (date_text day ≡ [])
        (λ date. date_text day ≡ day_text (calendar_day date)) }
{
    if day < FIRST_DAY || day > LAST_DAY {
        return None;
    }
    match Date::from_unix_epoch_day(i64::from(day)) {
        Ok(date) => Some(date),
        Err(_) => None,
    }
}

/// Appends the date of a day number, and nothing for one outside the years 1 to 9999.
#[tactic(auto, using(crate::proofs::AppendLemmas::appending))]
pub fn print_date(day: i32, to: &mut Vec<u8>) -> Result<(), AllocError>
    ensures ok { OnOk result (to.new.items ≡ to.old.items ++ date_text day) }
    ensures err { OnErr result (AppendsStart (date_text day) to.old.items to.new.items) }
{
    match date_at(day) {
        Some(date) => print_day(date, to),
        None => Ok(()),
    }
}

fn print_day(date: Date, to: &mut Vec<u8>) -> Result<(), AllocError>
    ensures ok { OnOk result (to.new.items ≡ to.old.items ++ day_text (calendar_day date)) }
    ensures err { OnErr result (AppendsStart (day_text (calendar_day date)) to.old.items to.new.items) }
{
    print_parts(date.year.unsigned_abs(), date.month, date.day, to)
}

#[tactic(auto, using(crate::proofs::AppendLemmas::appending))]
fn print_parts(year: u16, month: u8, day: u8, to: &mut Vec<u8>) -> Result<(), AllocError>
    ensures ok { OnOk result
        (to.new.items ≡ to.old.items ++ padded 4 year ++ 45 ∷ month_day_text month day) }
    ensures err { OnErr result
        (AppendsStart (padded 4 year ++ 45 ∷ month_day_text month day) to.old.items to.new.items) }
{
    append_padded(4, u128::from(year), to)?;
    print_after_year(month, day, to)
}

#[tactic(auto, using(crate::proofs::AppendLemmas::appending))]
fn print_after_year(month: u8, day: u8, to: &mut Vec<u8>) -> Result<(), AllocError>
    ensures ok { OnOk result (to.new.items ≡ to.old.items ++ 45 ∷ month_day_text month day) }
    ensures err { OnErr result (AppendsStart (45 ∷ month_day_text month day) to.old.items to.new.items) }
{
    to.push(b'-')?;
    print_month_day(month, day, to)
}

#[tactic(auto, using(crate::proofs::AppendLemmas::appending))]
fn print_month_day(month: u8, day: u8, to: &mut Vec<u8>) -> Result<(), AllocError>
    ensures ok { OnOk result (to.new.items ≡ to.old.items ++ month_day_text month day) }
    ensures err { OnErr result (AppendsStart (month_day_text month day) to.old.items to.new.items) }
{
    append_padded(2, u128::from(month), to)?;
    print_after_month(day, to)
}

#[tactic(auto, using(crate::proofs::AppendLemmas::appending))]
fn print_after_month(day: u8, to: &mut Vec<u8>) -> Result<(), AllocError>
    ensures ok { OnOk result (to.new.items ≡ to.old.items ++ 45 ∷ padded 2 day) }
    ensures err { OnErr result (AppendsStart (45 ∷ padded 2 day) to.old.items to.new.items) }
{
    to.push(b'-')?;
    append_padded(2, u128::from(day), to)
}

/// The law that a date which was printed reads back.
#[tactic(auto, using(crate::proofs::PrintedDates::date_back))]
pub fn date_reads_back(day: i32)
    requires { IsTrue (has_date day) }
    ensures { date_of (date_text day) ≡ Some day }
{}
