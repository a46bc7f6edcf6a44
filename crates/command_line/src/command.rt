//! The command as `clap` is given it, and what it finds in the arguments.
ghost use Rattle.std.specs.Prelude.{◌≡◌, false, IfOk, map, MatchResult, IsUtf8};
ghost use Rattle.clap.specs.Words.{app_of, kind_of, rule_of};
ghost use Rattle.command_line.specs.Found.{AllTexts, app_with, given_in, option_rule, tables_in, tables_rule};
ghost use Rattle.command_line.specs.Words.{Refuses, job_from, job_of};

use crate::options::OPTION_NAMES;
use clap::error::ErrorKind;
use clap::{Arg, ArgAction, ArgMatches, Command, Error};
use std::alloc::{AllocError, Global};

/// The arguments that belong to no option.
pub const TABLES: &str = "NAME=FILE";

/// Why arguments give no job: they are no command line, or memory was wanting.
#[derive(Clone, Copy)]
pub enum WordsFault {
    Bad,
    Memory,
}

/// An option, which is read by its name in full and has one value.
fn option<'a>(alloc: Global, name: &'a str) -> Arg<'a>
    ensures rule { rule_of result ≡ option_rule name.entry.now }
    ensures local { result.global ≡ false }
{
    Arg::new(alloc, name).long(name)
}

/// Any number of arguments that belong to no option.
fn tables<'a>(alloc: Global) -> Arg<'a>
    ensures rule { rule_of result ≡ tables_rule }
    ensures local { result.global ≡ false }
{
    Arg::new(alloc, TABLES).action(ArgAction::Append)
}

/// The command with options of these names: the arguments alone, with no help and no version.
fn command<'a>(alloc: Global, names: &[&'a str]) -> Result<Command<'a>, AllocError>
    ensures { IfOk result (λ command. app_of command ≡ app_with (map (λ name. name.now) names.now)) }
{
    let mut command = Command::new(alloc, "trinorun")
        .no_binary_name(true)
        .disable_help_flag(true)
        .arg(tables(alloc))?;
    for name in names {
        command = command.arg(option(alloc, name))?;
    }
    Ok(command)
}

/// The law that an argument is a text.
fn word_is_text(word: &str)
    ensures { IsUtf8 word.now }
{}

/// The law that arguments are texts.
fn words_are_texts(words: &[&str])
    ensures { AllTexts (map (λ word. word.now) words.now) }
{
    for word in words {
        word_is_text(word);
    }
}

/// What is found in the arguments.
pub fn find<'a>(alloc: Global, words: &'a [&'a str]) -> Result<ArgMatches<'a>, WordsFault>
    ensures { MatchResult result
        (λ found. job_of (map (λ word. word.now) words.entry.now) ≡ job_from (given_in found) (tables_in found))
        (Refuses (job_of (map (λ word. word.now) words.entry.now))) }
{
    words_are_texts(words);
    let Ok(command) = command(alloc, &OPTION_NAMES) else {
        return Err(WordsFault::Memory);
    };
    match command.try_get_matches_from(words) {
        Ok(found) => Ok(found),
        Err(error) => Err(fault_of(&error)),
    }
}

fn fault_of(error: &Error) -> WordsFault
    ensures { result ≡ WordsFault.Bad → kind_of error.now ≡ ErrorKind.OutOfMemory → ⊥ }
{
    if let ErrorKind::OutOfMemory = error.kind() {
        return WordsFault::Memory;
    }
    WordsFault::Bad
}
