//! Arguments and what they ask for, as lines.
use command_line::{Job, WordsFault, lend_words, read_words};
use sql_values::Text;
use std::alloc::Global;
use std::test::Fail;

/// The arguments of a line, in which two quotes stand for the empty argument.
fn words_in(alloc: Global, line: &str) -> Result<Vec<Text>, Fail> {
    let mut words = Vec::new(alloc);
    for word in line.split_whitespace() {
        let word = if word == "''" { "" } else { word };
        words.push(Text::copy_of(alloc, word)?)?;
    }
    Ok(words)
}

/// Whether the arguments are no command line.
fn is_refused(alloc: Global, line: &str) -> Result<bool, Fail> {
    let words = words_in(alloc, line)?;
    let lent = lend_words(alloc, words.as_slice())?;
    match read_words(alloc, lent.as_slice()) {
        Err(WordsFault::Bad) => Ok(true),
        _ => Ok(false),
    }
}

/// What is no command line.
const REFUSED: &str = "\
\n\
--plan\n\
p\n\
t=t\n\
--plan=\n\
--plan -p t=t\n\
--plan=-p t=t\n\
--plan - t=t\n\
--plan p t\n\
--plan p -\n\
--plan p t=\n\
--plan p =t\n\
--plan p =\n\
--plan p -t=t\n\
--plan p --t=t\n\
--pla p t=t\n\
--pla p\n\
--PLAN p\n\
-plan p\n\
plan p\n\
--plan p t=a t=b\n\
--plan p t=a u=b t=c\n\
t=a --plan p t=a\n\
--plan p t=a -- t=b\n\
--plan p --plan q\n\
--plan p --plan=p\n\
--plan=p --plan=p\n\
--plan --plan p\n\
--workers 0 --plan p\n\
--plan -- p\n\
--plan --\n\
--\n\
-- --plan p\n\
-- --plan=p\n\
-- t=t\n\
--plan p -- p\n\
--plan p -- -t=t\n\
--plan p -- --\n\
--plan p -- --tasks 2\n\
--plan p -- --tasks=2\n\
--plan p --tasks +2 t=t\n\
--plan p --tasks=+2 t=t\n\
--plan p --task 2\n\
--plan p --tasks\n\
--plan p --tasks 2 --tasks 2\n\
--plan p --tasks 2 --tasks=3\n\
--plan p --counts\n\
--plan p --counts no\n\
--plan p --counts=\n\
--plan p --counts YES\n\
--plan p --counts yes --counts yes\n\
--plan p --count yes\n\
--plan p --help\n\
--plan p -h\n\
--help\n\
-h\n\
help\n\
--version\n\
-V\n\
--plan p --version\n\
--plan p --demo 1\n\
--demo 1 --plan p\n\
--plan=p --demo=1\n\
--demo\n\
--demo=\n\
--demo 1 --demo 1\n\
--demo 1 --demo=2\n\
--demo -1\n\
--demo +1\n\
--demo 0x1\n\
--demo one\n\
--demo 18446744073709551616\n\
--dem 1\n\
--demo 1 t=t\n\
t=t --demo 1\n\
--demo 1 orders=orders\n\
--demo 1 -- t=t\n\
--demo 1 1\n\
--demo 1 --tasks 17\n\
''\n\
--plan ''\n\
--plan p ''\n\
--plan p --counts ''\n\
--demo ''\n\
--demo 1 ''\n\
-é\n\
--plan -é\n\
--plan p -é t=t\n\
--plané p\n\
--plan p -- -é=t";

#[test]
fn refuses_what_is_no_command_line(rt: HostRuntime) -> Result<(), Fail> {
    for line in REFUSED.lines() {
        assert!(rt; is_refused(rt.alloc(), line)?, "{line}");
    }
    Ok(())
}

/// Command lines, and what each asks for: the plan's file or the number of a demo, whether counts are asked for, and
/// for some tables their places and files.
const ASKED: &str = "\
--plan p | p no\n\
t=t --plan=p | p no t 0 t\n\
t=t --plan=p --workers=8 | p no t 0 t\n\
--plan p -- t=t | p no t 0 t\n\
--plan p -- | p no\n\
--plan=a=b t=x=y u=t | a=b no t 0 x=y u 1 t\n\
t=t --split 3 u=u --plan p v=v --page=5 -- w=w x==x | p no t 0 t u 1 u v 2 v w 3 w x 4 =x\n\
--plan p t=-t | p no t 0 -t\n\
--plan p t=t --counts yes u=- | p yes t 0 t u 1 -\n\
--counts=yes --plan t=t | t=t yes\n\
--plan p orders=o | p no orders 0 o\n\
--plan é ü=ß | é no ü 0 ß\n\
--demo 0 | demo 0 no orders 0 orders customers 1 customers\n\
--demo=007 --workers 4 --tasks 3 --page 100 | demo 7 no\n\
--counts yes --demo 18446744073709551615 -- | demo 18446744073709551615 yes";

/// What a job is of: its plan's file or its demo, and whether counts are asked for.
fn source_of(alloc: Global, job: &Job<'_>) -> Result<String, Fail> {
    let counts = if job.counts { "yes" } else { "no" };
    match job.demo() {
        Some(number) => Ok(format!(in alloc; "demo {number} {counts}")?),
        None => Ok(format!(in alloc; "{} {counts}", job.plan())?),
    }
}

/// Whether the tables of a list, each with its place and its file, have them.
fn have_files(alloc: Global, job: &Job<'_>, tables: &str) -> Result<bool, Fail> {
    let mut words = tables.split_whitespace();
    for _ in 0..tables.len() {
        let (Some(name), Some(place), Some(file)) = (words.next(), words.next(), words.next())
        else {
            return Ok(true);
        };
        if !has_file(alloc, job, name, place, file)? {
            return Ok(false);
        }
    }
    Ok(true)
}

fn has_file(
    alloc: Global,
    job: &Job<'_>,
    name: &str,
    place: &str,
    file: &str,
) -> Result<bool, Fail> {
    let Some(found) = job.file_of(name) else {
        return Ok(false);
    };
    let told = format!(in alloc; "{}", found.place)?;
    Ok(told.as_str() == place && found.file == file && job.file_at(found.place) == file)
}

fn has_source(alloc: Global, job: &Job<'_>, want: &str) -> Result<bool, Fail> {
    let source = source_of(alloc, job)?;
    match want.strip_prefix(source.as_str()) {
        Some(tables) => {
            Ok(
                have_files(alloc, job, tables)?
                    && job.file_of("z").is_none()
                    && job.file_at(9).is_empty(),
            )
        }
        None => Ok(false),
    }
}

fn is_asked(alloc: Global, line: &str, want: &str) -> Result<bool, Fail> {
    let words = words_in(alloc, line)?;
    let lent = lend_words(alloc, words.as_slice())?;
    match read_words(alloc, lent.as_slice()) {
        Ok(job) => has_source(alloc, &job, want),
        Err(_) => Ok(false),
    }
}

#[test]
fn tells_what_is_asked_for(rt: HostRuntime) -> Result<(), Fail> {
    for line in ASKED.lines() {
        let (words, want) = line.split_once('|').unwrap_or((line, ""));
        assert!(rt; is_asked(rt.alloc(), words, want.trim())?, "{line}");
    }
    Ok(())
}

/// Options and files behind `--plan p`, and the numbers that they ask for, or `none`: the most rows of a split and of
/// a page, the rows of a turn, the workers, the tasks, the drivers, and the number of late deliveries.
const NUMBERS: &str = "\
 | 10000 1024 100000 2 2 2 0\n\
t=t | 10000 1024 100000 2 2 2 0\n\
--split 1 t=t | 1 1024 100000 2 2 2 0\n\
--split 1000000 | 1000000 1024 100000 2 2 2 0\n\
--split 1000001 | none\n\
--split 0 | none\n\
--page 1 t=t u=u | 10000 1 100000 2 2 2 0\n\
--page 8192 | 10000 8192 100000 2 2 2 0\n\
--page 8193 | none\n\
--page 0 | none\n\
--quantum 1 | 10000 1024 1 2 2 2 0\n\
--quantum 1000000 | 10000 1024 1000000 2 2 2 0\n\
--quantum 1000001 | none\n\
--quantum 0 | none\n\
--tasks 1 | 10000 1024 100000 2 1 2 0\n\
--tasks 16 t=t | 10000 1024 100000 2 16 2 0\n\
--tasks 17 | none\n\
--tasks 0 | none\n\
--drivers 1 t=t u=u | 10000 1024 100000 2 2 1 0\n\
--drivers 16 | 10000 1024 100000 2 2 16 0\n\
--drivers 17 | none\n\
--drivers 0 | none\n\
--replay 0 t=t | 10000 1024 100000 2 2 2 0\n\
--replay 4294967296 | 10000 1024 100000 2 2 2 4294967296\n\
--replay 18446744073709551615 | 10000 1024 100000 2 2 2 18446744073709551615\n\
--replay 18446744073709551616 | none\n\
--replay 99999999999999999999999 | none\n\
--replay 5 --quantum 3 --tasks 010 --split 007 --drivers 4 --page 2 t=t | 7 2 3 2 10 4 5\n\
--split 18446744073709551617 | none\n\
--tasks 4294967297 | none\n\
--split 1 --split 1 | none\n\
--page 1 --split 1 --page 1 t=t | none\n\
--tasks 1 --drivers 1 --tasks 2 | none\n\
--replay 0 --replay 0 | none\n\
--drivers 3 --drivers 3 t=t | none\n\
--spli 1 | none\n\
--task 1 | none\n\
--drivers8 1 | none\n\
-replay 1 | none\n\
--Replay 1 | none\n\
--split | none\n\
--page 1 --split | none\n\
--tasks 1 --replay | none\n\
--split t=t | none\n\
--drivers t=t | none\n\
--split +1 | none\n\
--replay +0 | none\n\
--split -1 | none\n\
--replay -0 | none\n\
--split 1.0 | none\n\
--tasks two | none\n\
--drivers 0x2 | none\n\
--replay 1_000 | none\n\
--workers 1 | 10000 1024 100000 1 2 2 0\n\
--workers 64 t=t | 10000 1024 100000 64 2 2 0\n\
--workers 65 | none\n\
--workers 0 | none\n\
--split=1 | 1 1024 100000 2 2 2 0\n\
--tasks=16 --drivers 3 --page=07 | 10000 7 100000 2 16 3 0\n\
t=t --split 1 | 1 1024 100000 2 2 2 0\n\
t=t --replay=1 u=u --workers 3 v=v | 10000 1024 100000 3 2 2 1\n\
--split 3 -- t=t | 3 1024 100000 2 2 2 0\n\
--split= | none\n\
--split==1 | none\n\
--split=1=1 | none\n\
--split=+1 | none\n\
--split=-1 | none\n\
--split --page 1 | none\n\
--split 1 --split=2 | none\n\
--split=2 t=t --split=2 | none\n\
-- --split 1 | none\n\
-- --split=1 | none\n\
--workers 2 --worker 3 | none";

/// Whether the job has the numbers.
fn has_numbers(alloc: Global, job: &Job<'_>, want: &str) -> Result<bool, Fail> {
    let found = format!(in alloc;
        "{} {} {} {} {} {} {}",
        job.split, job.page, job.quantum, job.workers, job.tasks, job.drivers, job.replay
    )?;
    Ok(found.as_str() == want)
}

fn gives_numbers(alloc: Global, words: &[Text], want: &str) -> Result<bool, Fail> {
    let lent = lend_words(alloc, words)?;
    match read_words(alloc, lent.as_slice()) {
        Ok(job) => has_numbers(alloc, &job, want),
        Err(WordsFault::Bad) => Ok(want == "none"),
        Err(WordsFault::Memory) => Ok(false),
    }
}

/// Whether the arguments after `--plan p` give the numbers.
fn is_told(alloc: Global, options: &str, want: &str) -> Result<bool, Fail> {
    let line = format!(in alloc; "--plan p {options}")?;
    let words = words_in(alloc, line.as_str())?;
    gives_numbers(alloc, words.as_slice(), want)
}

fn is_case(alloc: Global, line: &str) -> Result<bool, Fail> {
    match line.split_once('|') {
        Some((options, want)) => is_told(alloc, options, want.trim()),
        None => Ok(false),
    }
}

/// The first line that does not say what is reported.
fn untold(alloc: Global, lines: &'static str) -> Result<&'static str, Fail> {
    for line in lines.lines() {
        if !is_case(alloc, line)? {
            return Ok(line);
        }
    }
    Ok("")
}

#[test]
fn options_give_numbers(rt: HostRuntime) -> Result<(), Fail> {
    assert_eq!(rt; untold(rt.alloc(), NUMBERS)?, "");
    Ok(())
}
