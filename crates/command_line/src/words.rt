//! Which arguments are a command line, and what it asks for.
ghost use Rattle.std.specs.Prelude.{◌≡◌, drop, IfOk, IfSome, map, MatchResult, None, option_map, Some};
ghost use Rattle.std.specs.List.{list_all, list_any};
ghost use Rattle.command_line.specs.Found.{given_in, tables_in};
ghost use Rattle.command_line.specs.Words.{HasBounds, Refuses, are_named_files, asked, asked_source, demo_files, is_file_name, is_named_file, job_of, job_with, named_file, names, names_differ, source_given, source_in, told_file};
ghost use Rattle.command_line.specs.Items.{first_part, second_part};

use crate::command::{TABLES, WordsFault, find};
use crate::job::{Job, NamedFile, Source};
use crate::options::{NumberOption, PLAN, are_plain, begins_with_dash, counts_in};
use clap::ArgMatches;
use sql_values::{Memory, Text};
use std::alloc::{AllocError, Global};

/// The arguments, lent one by one, as they are read.
pub fn lend_words<'a>(alloc: Global, words: &'a [Text]) -> Result<Vec<&'a str>, Memory>
    ensures { IfOk result (λ lent. map (λ word. word.now) lent.items ≡ words.entry.now) }
{
    let mut lent = Vec::with_capacity(alloc, words.len())?;
    for word in words {
        lent.push(word.as_str())?;
    }
    Ok(lent)
}

/// Reads the arguments of a command line.
pub fn read_words<'a>(alloc: Global, words: &'a [&'a str]) -> Result<Job<'a>, WordsFault>
    ensures job { MatchResult result
        (λ job. job_of (map (λ word. word.now) words.entry.now) ≡ Some (asked job))
        (Refuses (job_of (map (λ word. word.now) words.entry.now))) }
    ensures bounds { IfOk result (λ job. HasBounds (asked job)) }
{
    let found = find(alloc, words)?;
    if !are_plain(&found) {
        return Err(WordsFault::Bad);
    }
    let source = source_in(alloc, &found)?;
    match job_with(&found, source) {
        Some(job) => Ok(job),
        None => Err(WordsFault::Bad),
    }
}

fn job_with<'a>(found: &ArgMatches<'_>, source: Source<'a>) -> Option<Job<'a>>
    ensures job { option_map asked result ≡ job_with (given_in found.now) (asked_source source.entry) }
    ensures bounds { IfSome result (λ job. HasBounds (asked job)) }
{
    let split = NumberOption::Split.short_number_in(found)?;
    let page = NumberOption::Page.short_number_in(found)?;
    let quantum = NumberOption::Quantum.short_number_in(found)?;
    let workers = NumberOption::Workers.short_number_in(found)?;
    let tasks = NumberOption::Tasks.short_number_in(found)?;
    let drivers = NumberOption::Drivers.short_number_in(found)?;
    let replay = NumberOption::Replay.option_number(found)?;
    let counts = counts_in(found)?;
    Some(Job {
        source,
        split,
        page,
        quantum,
        workers,
        tasks,
        drivers,
        replay,
        counts,
    })
}

/// What is run: exactly one of a plan's file and a demo.
fn source_in<'a>(alloc: Global, found: &ArgMatches<'a>) -> Result<Source<'a>, WordsFault>
    ensures { MatchResult result
        (λ source. source_in (given_in found.now) (tables_in found.now) ≡ Some (asked_source source))
        (Refuses (source_in (given_in found.now) (tables_in found.now))) }
{
    match found.get_raw(TABLES) {
        Some(words) => source_with(alloc, found, words),
        None => source_with(alloc, found, &[]),
    }
}

/// What is run, where these arguments belong to no option.
fn source_with<'a>(
    alloc: Global,
    found: &ArgMatches<'a>,
    words: &[&'a str],
) -> Result<Source<'a>, WordsFault>
    ensures { MatchResult result
        (λ source. source_in (given_in found.now) (map (λ word. word.now) words.now) ≡ Some (asked_source source))
        (Refuses (source_in (given_in found.now) (map (λ word. word.now) words.now))) }
{
    let plan = found.get_str(PLAN);
    let demo = NumberOption::Demo.written_in(found);
    match (plan, demo) {
        (Some(plan), None) => files_from(alloc, plan, words),
        (None, Some(number)) => demo_of(alloc, number, words),
        _ => Err(WordsFault::Bad),
    }
}

fn files_from<'a>(alloc: Global, plan: &'a str, words: &[&'a str]) -> Result<Source<'a>, WordsFault>
    ensures { MatchResult result
        (λ source. source_given (Some plan.entry.now) None (map (λ word. word.now) words.now)
        ≡ Some (asked_source source))
        (Refuses (source_given (Some plan.entry.now) None (map (λ word. word.now) words.now))) }
{
    if !is_file_name(plan) || !are_named_files(words) {
        return Err(WordsFault::Bad);
    }
    let Ok(files) = files_of(alloc, words) else {
        return Err(WordsFault::Memory);
    };
    Ok(Source {
        plan,
        files,
        demo: None,
    })
}

fn files_of<'a>(alloc: Global, words: &[&'a str]) -> Result<Vec<NamedFile<'a>>, AllocError>
    ensures { IfOk result (λ files.
        map told_file files.items ≡ map named_file (map (λ word. word.now) words.now)) }
{
    let mut files = Vec::with_capacity(alloc, words.len())?;
    for word in words {
        files.push(named_file(word))?;
    }
    Ok(files)
}

fn named_file<'a>(word: &'a str) -> NamedFile<'a>
    ensures { told_file result ≡ named_file word.entry.now }
{
    NamedFile {
        name: first_part(word),
        file: second_part(word),
    }
}

fn demo_of<'a>(alloc: Global, number: &str, words: &[&str]) -> Result<Source<'a>, WordsFault>
    ensures { MatchResult result
        (λ source. source_given None (Some number.now) (map (λ word. word.now) words.now)
        ≡ Some (asked_source source))
        (Refuses (source_given None (Some number.now) (map (λ word. word.now) words.now))) }
{
    if !words.is_empty() {
        return Err(WordsFault::Bad);
    }
    let Some(number) = NumberOption::Demo.number_for(number) else {
        return Err(WordsFault::Bad);
    };
    let Ok(files) = demo_files(alloc) else {
        return Err(WordsFault::Memory);
    };
    Ok(Source {
        plan: "plan",
        files,
        demo: Some(number),
    })
}

/// The documents of a demo, each under its own name.
fn demo_files<'a>(alloc: Global) -> Result<Vec<NamedFile<'a>>, AllocError>
    ensures { IfOk result (λ files. map told_file files.items ≡ demo_files) }
{
    let mut files = Vec::with_capacity(alloc, 2)?;
    files.push(document("orders"))?;
    files.push(document("customers"))?;
    Ok(files)
}

fn document(name: &str) -> NamedFile<'_>
    ensures { told_file result ≡ record { name = name.entry.now; file = name.entry.now } }
{
    NamedFile { name, file: name }
}

/// Whether an argument may name a file: it is not empty and no option.
fn is_file_name(word: &str) -> bool
    ensures { result ≡ is_file_name word.now }
{
    !word.is_empty() && !begins_with_dash(word)
}

fn is_named_file(word: &str) -> bool
    ensures { result ≡ is_named_file word.now }
{
    is_file_name(word) && !first_part(word).is_empty() && !second_part(word).is_empty()
}

fn are_named_files(words: &[&str]) -> bool
    ensures { result ≡ are_named_files (map (λ word. word.now) words.now) }
{
    all_name_files(words) && names_differ(words)
}

fn all_name_files(words: &[&str]) -> bool
    ensures { result ≡ list_all is_named_file (map (λ word. word.now) words.now) }
{
    for word in words {
        if !is_named_file(word) {
            return false;
        }
    }
    true
}

/// Whether an argument gives a file to a table of the name.
fn gives(words: &[&str], name: &str) -> bool
    ensures { result ≡ list_any (names name.now) (map (λ word. word.now) words.now) }
{
    for word in words {
        if first_part(word) == name {
            return true;
        }
    }
    false
}

fn names_differ(words: &[&str]) -> bool
    ensures { result ≡ names_differ (map (λ word. word.now) words.now) }
{
    for at in 0..words.len() {
        if gives(&words[at + 1..], first_part(words[at])) {
            return false;
        }
    }
    true
}

/// The part of an argument before its first `=`.
fn first_part(word: &str) -> &str
    ensures { result.now ≡ first_part word.now }
{
    match word.split_once('=') {
        Some((first, _)) => first,
        None => word,
    }
}

/// The part of an argument behind its first `=`.
fn second_part(word: &str) -> &str
    ensures { result.now ≡ second_part word.now }
{
    match word.split_once('=') {
        Some((_, second)) => second,
        None => "",
    }
}
