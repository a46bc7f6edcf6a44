//! Runs of `run` over the objects in memory.

ghost use Rattle.std.specs.Prelude.{◌≤◌};

use crate::plans::plan_of;
use query_runner::run;
use run_ports::{MemFiles, MemSink, NamedBytes, NoMeet, ReplayCourier};
use sql_values::Text;
use std::alloc::Global;
use std::random::RandomSource;
use std::sync::Wait;
use std::test::Fail;
use std::thread::Threads;

/// What a run is given: its arguments, its plan and the rows of its tables, and which read and which write fail
/// (0: none).
#[derive(Clone, Copy)]
pub(crate) struct Given<'g> {
    pub words: &'g str,
    pub plan: &'g str,
    pub rows: &'g str,
    pub read: u32,
    pub write: u32,
}

/// The first of these cases that a run answers otherwise, if any.
pub(crate) fn first_wrong<'c, R: Threads + Wait + Sync + RandomSource + AllocGlobal>(
    rt: &R,
    cases: &'c str,
) -> Result<&'c str, Fail> {
    for case in cases.lines() {
        if !answers(rt, case)? {
            return Ok(case);
        }
    }
    Ok("")
}

/// The same of cases behind `words | failing read | failing write |`.
pub(crate) fn first_wrong_with_words<'c, R: Threads + Wait + Sync + RandomSource + AllocGlobal>(
    rt: &R,
    cases: &'c str,
) -> Result<&'c str, Fail> {
    for case in cases.lines() {
        let (words, rest) = part(case);
        let (read, rest) = part(rest);
        let (write, rest) = part(rest);
        if !answers_to(rt, words, (number(read), number(write)), rest)? {
            return Ok(case);
        }
    }
    Ok("")
}

/// The part of a line before the first bar, and the rest.
pub(crate) fn part(line: &str) -> (&str, &str) {
    let (first, rest) = line.split_once('|').unwrap_or((line, ""));
    (first.trim(), rest.trim())
}

fn number(digits: &str) -> u32 {
    digits.parse::<u32>().unwrap_or(0)
}

/// Whether a run on one worker, which gives records in an order that is fixed, answers a case as the case says.
fn answers<R: Threads + Wait + Sync + RandomSource + AllocGlobal>(
    rt: &R,
    case: &str,
) -> Result<bool, Fail> {
    let words = if case.contains(';') {
        "--plan p --workers 1 t=t u=u"
    } else {
        "--plan p --workers 1 t=t"
    };
    answers_to(rt, words, (0, 0), case)
}

fn answers_to<R: Threads + Wait + Sync + RandomSource + AllocGlobal>(
    rt: &R,
    words: &str,
    failing: (u32, u32),
    case: &str,
) -> Result<bool, Fail> {
    let (tables, rest) = part(case);
    let (names, rest) = part(rest);
    let (root, rest) = part(rest);
    let (rows, told) = part(rest);
    let plan = plan_of(rt.alloc(), tables, names, root)?;
    let (read, write) = failing;
    let given = Given {
        words,
        plan: plan.as_str(),
        rows,
        read,
        write,
    };
    is_told(rt, &given, told)
}

/// Whether a run over this answers so.
pub(crate) fn is_told<R: Threads + Wait + Sync + RandomSource + AllocGlobal>(
    rt: &R,
    given: &Given<'_>,
    told: &str,
) -> Result<bool, Fail> {
    let words = words_in(rt.alloc(), given.words)?;
    is_told_to(rt, words.as_slice(), given, told)
}

fn is_told_to<R: Threads + Wait + Sync + RandomSource + AllocGlobal>(
    rt: &R,
    words: &[Text],
    given: &Given<'_>,
    told: &str,
) -> Result<bool, Fail> {
    let mut files = files_of(rt.alloc(), given)?;
    is_told_over(rt, words, &mut files, given.write, told)
}

fn is_told_over<R: Threads + Wait + Sync + RandomSource + AllocGlobal>(
    rt: &R,
    words: &[Text],
    files: &mut MemFiles,
    write: u32,
    told: &str,
) -> Result<bool, Fail> {
    let mut out = sink_of(rt.alloc(), 4, write)?;
    is_told_into(rt, words, files, &mut out, told)
}

fn is_told_into<R: Threads + Wait + Sync + RandomSource + AllocGlobal>(
    rt: &R,
    words: &[Text],
    files: &mut MemFiles,
    out: &mut MemSink,
    told: &str,
) -> Result<bool, Fail> {
    let alloc = rt.alloc();
    let mut err = sink_of(alloc, 7, 0)?;
    let (courier, meet) = (ReplayCourier::new(), NoMeet);
    let status = run(rt, alloc, words, files, out, &mut err, &courier, &meet);
    Ok(is_answer(status.exit_code(), out.written(), err.written(), told))
}

/// Whether this is the answer that is given.
fn is_answer(code: u8, written: &[u8], noted: &[u8], told: &str) -> bool {
    let (status, rest) = told.split_once('|').unwrap_or((told, ""));
    let (text, notes) = rest.split_once('|').unwrap_or((rest, ""));
    number(status) == u32::from(code) && is_text(written, text) && is_text(noted, notes)
}

/// Whether the bytes are a text's, with `~` for the line feed.
pub(crate) fn is_text(bytes: &[u8], text: &str) -> bool {
    let fed = text
        .bytes()
        .map(|byte| if byte == b'~' { b'\n' } else { byte });
    bytes.iter().copied().eq(fed)
}

/// A sink with room for 1 000 bytes that takes so many at once, of which one write fails.
pub(crate) fn sink_of(alloc: Global, most: usize, failing: u32) -> Result<MemSink, Fail>
    requires { 1 ≤ most }
{
    let failing = Vec::from_slice(alloc, &[failing])?;
    Ok(MemSink::new(alloc, 1000, most, failing)?)
}

pub(crate) fn words_in(alloc: Global, line: &str) -> Result<Vec<Text>, Fail> {
    let mut words = Vec::new(alloc);
    for word in line.split_whitespace() {
        words.push(Text::copy_of(alloc, word)?)?;
    }
    Ok(words)
}

/// The files `p`, `t` and `u`. Both tables are the rows, or their parts before and behind a `;`.
pub(crate) fn files_of(alloc: Global, given: &Given<'_>) -> Result<MemFiles, Fail> {
    let (first, second) = given
        .rows
        .split_once(';')
        .unwrap_or((given.rows, given.rows));
    let mut held = Vec::new(alloc);
    for (name, text) in [("p", given.plan), ("t", first), ("u", second)] {
        hold(alloc, &mut held, name, text)?;
    }
    Ok(MemFiles::new(held, Vec::from_slice(alloc, &[given.read])?))
}

fn hold(alloc: Global, held: &mut Vec<NamedBytes>, name: &str, text: &str) -> Result<(), Fail> {
    let name = Text::copy_of(alloc, name)?;
    let bytes = text.replace(alloc, "~", "\n")?.into_bytes();
    held.push(NamedBytes { name, bytes })?;
    Ok(())
}
