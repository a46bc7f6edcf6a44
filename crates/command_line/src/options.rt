//! The options, and what each is given.
ghost use Rattle.std.specs.Prelude.{◌≡◌, ◌≤◌, ◌<◌, ◌^◌, map, option_map, IfSome};
ghost use Rattle.std.specs.List.{list_all};
ghost use Rattle.command_line.specs.Options.{are_plain, counts_in, counts_written, is_plain, number_for, option_number, row, row_of, within};
ghost use Rattle.command_line.specs.Items.{begins_with_dash};
ghost use Rattle.command_line.specs.Found.{given_in};

use clap::ArgMatches;
use scalar_texts::read_number;

/// An option whose value is a number.
#[derive(Clone, Copy)]
pub enum NumberOption {
    /// The demo that is run in place of a plan's file.
    Demo,
    /// The most rows of a split.
    Split,
    /// The most rows of a page.
    Page,
    /// The rows after whose move a driver's turn ends.
    Quantum,
    /// The workers that read tables and give the drivers their turns.
    Workers,
    /// The tasks of a fragment that may have several.
    Tasks,
    /// The drivers of a pipeline that may have several, in each task.
    Drivers,
    /// The number under which pages are delivered late, again or not at all.
    Replay,
}

/// The option of the plan's file.
pub const PLAN: &str = "plan";

const COUNTS: &str = "counts";

/// The names of all options.
pub const OPTION_NAMES: [&str; 10] = [
    "plan", "counts", "demo", "split", "page", "quantum", "workers", "tasks", "drivers", "replay",
];

/// An option's name, the bounds of its number, and the number that it has where it is not given.
#[derive(Clone, Copy)]
struct OptionRow {
    name: &'static str,
    least: u64,
    most: u64,
    usual: u64,
}

fn row_with(name: &'static str, least: u64, most: u64, usual: u64) -> OptionRow
    ensures { row result ≡ record { name = name.now; least = least; most = most; usual = usual } }
{
    OptionRow {
        name,
        least,
        most,
        usual,
    }
}

impl NumberOption {
    fn row(self) -> OptionRow
        ensures { row result ≡ row_of self }
    {
        match self {
            NumberOption::Demo => row_with("demo", 0, u64::MAX, 0),
            NumberOption::Split => row_with("split", 1, 1_000_000, 10_000),
            NumberOption::Page => row_with("page", 1, 8192, 1024),
            NumberOption::Quantum => row_with("quantum", 1, 1_000_000, 100_000),
            NumberOption::Workers => row_with("workers", 1, 64, 2),
            NumberOption::Tasks => row_with("tasks", 1, 16, 2),
            NumberOption::Drivers => row_with("drivers", 1, 16, 2),
            NumberOption::Replay => row_with("replay", 0, u64::MAX, 0),
        }
    }

    /// What is written for this option.
    pub fn written_in<'a>(self, found: &ArgMatches<'a>) -> Option<&'a str>
        ensures { option_map (λ text. text.now) result ≡ given_in found.now (row_of self).name }
    {
        found.get_str(self.row().name)
    }

    /// The number that a text gives to this option; None where it is no number of digits alone, or out of bounds.
    pub fn number_for(self, text: &str) -> Option<u64>
        ensures number { result ≡ number_for (row_of self) text.now }
        ensures bounds { IfSome result (λ n. ((row_of self).least ≤ n) × (n ≤ (row_of self).most)) }
    {
        bounded(self.row(), text)
    }

    /// The number of this option on a command line, or the usual one.
    pub fn option_number(self, found: &ArgMatches<'_>) -> Option<u64>
        ensures number { result ≡ option_number self (given_in found.now) }
        ensures bounds { IfSome result (λ n. ((row_of self).least ≤ n) × (n ≤ (row_of self).most)) }
    {
        match self.written_in(found) {
            Some(text) => self.number_for(text),
            None => Some(self.row().usual),
        }
    }

    /// The same of an option whose numbers have 32 bits.
    pub fn short_number_in(self, found: &ArgMatches<'_>) -> Option<u32>
        requires { (row_of self).most < 2 ^ 32 }
        ensures number { result ≡ option_number self (given_in found.now) }
        ensures bounds { IfSome result (λ n. ((row_of self).least ≤ n) × (n ≤ (row_of self).most)) }
    {
        Some(self.option_number(found)? as u32)
    }
}

/// The number of some digits, where it is within the bounds of the row.
#[tactic(auto, using(crate::proofs::BoundLemmas::bounds, crate::proofs::BoundLemmas::out_of_bounds))]
fn bounded(of: OptionRow, text: &str) -> Option<u64>
    ensures number { result ≡ number_for (row of) text.now }
    ensures bounds { IfSome result (λ n. (of.least ≤ n) × (n ≤ of.most)) }
{
    within(of, read_number(text.as_bytes())?)
}

fn within(of: OptionRow, number: u64) -> Option<u64>
    ensures { result ≡ within (row of) number }
{
    if number < of.least || number > of.most {
        return None;
    }
    Some(number)
}

/// Whether counts are asked for; None where something else is written.
pub fn counts_in(found: &ArgMatches<'_>) -> Option<bool>
    ensures { result ≡ counts_in (given_in found.now) }
{
    match found.get_str(COUNTS) {
        Some(text) => counts_written(text),
        None => Some(false),
    }
}

fn counts_written(text: &str) -> Option<bool>
    ensures { result ≡ counts_written (Some text.now) }
{
    if text != "yes" {
        return None;
    }
    Some(true)
}

/// Whether no value begins with `-`.
pub fn are_plain(found: &ArgMatches<'_>) -> bool
    ensures { result ≡ are_plain (given_in found.now) }
{
    are_plain_among(found, &OPTION_NAMES)
}

fn are_plain_among(found: &ArgMatches<'_>, names: &[&str]) -> bool
    ensures { result ≡ list_all (λ name. is_plain (given_in found.now name)) (map (λ name. name.now) names.now) }
{
    for name in names {
        if !is_plain(found.get_str(name)) {
            return false;
        }
    }
    true
}

fn is_plain(given: Option<&str>) -> bool
    ensures { result ≡ is_plain (option_map (λ text. text.now) given.entry) }
{
    match given {
        Some(text) => !begins_with_dash(text),
        None => true,
    }
}

pub fn begins_with_dash(word: &str) -> bool
    ensures { result ≡ begins_with_dash word.now }
{
    !word.is_empty() && word.as_bytes()[0] == b'-'
}
