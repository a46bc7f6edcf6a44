//! A failing outside and damaged input: what a run answers where reads, writes and the errors fail, where couriers
//! deliver nothing, and where its input is cut.

use crate::answers::{Given, files_of, is_text, part, sink_of, words_in};
use crate::couriers::Same;
use crate::fragments::{GROUPED, document_of, has_records};
use query_runner::run;
use run_ports::{Courier, Delivery, MemSink, NoMeet};
use sql_values::Text;
use std::alloc::Global;
use std::random::RandomSource;
use std::sync::Wait;
use std::test::Fail;
use std::thread::Threads;

/// A case is `words | faults | order | plan | rows | answer`. The faults are the number of the read, of the write and of
/// the write to the errors that fails, each `0` for none; `all` writes to the errors may fail too.
const CASES: &str = "\
t=t u=u | 1 0 0 | any | JOIN | JOINED_ROWS | 3||trinorun: cannot read p~
t=t u=u | 2 0 0 | any | JOIN | JOINED_ROWS | 3||trinorun: cannot read t~
t=t u=u | 3 0 0 | any | JOIN | JOINED_ROWS | 3||trinorun: cannot read u~
u=t t=u | 2 0 0 | any | JOIN | JOINED_ROWS | 3||trinorun: cannot read u~
t=t u=u | 4 0 0 | any | JOIN | JOINED_ROWS | 0|a,b,c,d~1,a,1,p~1,a,1,q~1,b,1,p~1,b,1,q~|
t=t | 0 1 0 | sorted | SORT | a~1~\\N~3~ | 7||trinorun: cannot write~
t=t | 0 2 0 | sorted | SORT | a~1~\\N~3~ | 7|a~3~|trinorun: cannot write~
t=t | 0 3 0 | sorted | SORT | a~1~\\N~3~ | 7|a~3~1~\\N|trinorun: cannot write~
t=t | 0 4 0 | sorted | SORT | a~1~\\N~3~ | 0|a~3~1~\\N~|
t=t --plan=q | 0 0 all | any | PLUS | a~7~ | 2||
t=t | 1 0 all | any | PLUS | a~7~ | 3||
t=t | 0 0 all | any | {} | a~7~ | 4||
t=t | 0 0 all | any | PLUS | a~x~ | 5||
t=t | 0 0 all | any | PLUS | a~9223372036854775807~ | 6||
t=t | 0 1 all | any | PLUS | a~7~ | 7||
t=t | 0 3 all | any | PLUS | a~7~5678901~ | 7|a~8~5678|
t=t | 0 0 all | any | PLUS | a~7~ | 0|a~8~|
t=t | 0 0 1 | any | PLUS | a~9223372036854775807~ | 6||
t=t | 0 0 2 | any | PLUS | a~9223372036854775807~ | 6||trinoru
t=t | 0 0 4 | any | PLUS | a~9223372036854775807~ | 6||trinorun: express
t=t | 0 0 10 | any | PLUS | a~9223372036854775807~ | 6||trinorun: expression failed 1 at node 1
t=t | 0 0 11 | any | PLUS | a~9223372036854775807~ | 6||trinorun: expression failed 1 at node 1~
t=t u=u --workers=8 --drivers=16 --split=1 --page=1 | 0 0 0 | any | BUILD_FAILS | k,x~3,a~;k,y~2,p~0,q~3,r~ | 6||trinorun: expression failed 2 at node 2~
t=t u=u --workers=8 --tasks=4 --split=1 --page=1 | 0 0 0 | any | PARTS_FAIL | k,x~3,a~2,b~;k,y~2,p~1,q~3,r~0,s~6,t~ | 6||trinorun: expression failed 2 at node 2~
t=t u=u --counts=yes | 0 0 all | any | FILTERED | k,x~0,a~1,b~2,c~3,d~4,e~7,f~8,g~9,h~;k,y~3,p~7,q~3,r~ | 0|a,b,c,d~3,d,3,p~3,d,3,r~7,f,7,q~|";

/// What stands in the cases for longer texts.
const LONG: [(&str, &str); 7] = [
    (
        "JOINED_ROWS",
        "k,x~1,a~1,b~\\N,c~2,d~;k,y~1,p~1,q~\\N,r~3,s~",
    ),
    (
        "JOIN",
        "{'version':1,'output':['a','b','c','d'],'tables':[$k],'fragments':[{'id':0,'placement':'SINGLE','root':\
        {'id':1,'op':'join','kind':'INNER','on':[[0,0]],'left':@t,'right':@u}}]}",
    ),
    (
        "SORT",
        "{'version':1,'output':['a'],'tables':[$a],'fragments':[{'id':0,'placement':'SINGLE','root':\
        {'id':1,'op':'sort','keys':[{'column':0,'order':'DESC'}],'input':@a}}]}",
    ),
    (
        "PLUS",
        "{'version':1,'output':['a'],'tables':[$a],'fragments':[{'id':0,'placement':'SINGLE','root':\
        {'id':1,'op':'project','columns':[{'call':'+','args':[{'col':0},{'lit':'1','type':'bigint'}]}],'input':@a}}]}",
    ),
    (
        "BUILD_FAILS",
        "{'version':1,'output':['a','b','c','d'],'tables':[$k],'fragments':[{'id':0,'placement':'SINGLE','root':\
        {'id':1,'op':'join','kind':'INNER','on':[[0,0]],'left':@t,'right':DIVIDED}}]}",
    ),
    (
        "PARTS_FAIL",
        "{'version':1,'output':['a','b','c','d'],'tables':[$k],'fragments':[\
        {'id':0,'placement':'SINGLE','root':{'id':5,'op':'remote','fragment':1}},\
        {'id':1,'placement':'SOURCE','output':{'kind':'SINGLE'},'root':\
        {'id':1,'op':'join','kind':'INNER','on':[[0,0]],'left':@t,'right':{'id':6,'op':'remote','fragment':2}}},\
        {'id':2,'placement':'SOURCE','output':{'kind':'BROADCAST'},'root':DIVIDED}]}",
    ),
    (
        "FILTERED",
        "{'version':1,'output':['a','b','c','d'],'tables':[$k],'fragments':[{'id':0,'placement':'SINGLE','root':\
        {'id':1,'op':'join','kind':'INNER','on':[[0,0]],'left':@t,'right':@u,'filters':\
        [{'id':1,'key':0,'scan':9,'column':0,'wait':true}]}}]}",
    ),
];

/// The second table with 6 divided by its keys.
const DIVIDED: &str =
    "{'id':2,'op':'project','columns':[{'call':'/','args':[{'lit':'6','type':'bigint'},{'col':0}]},\
    {'col':1}],'input':@u}";

#[test]
fn faults_of_the_outside_are_told(rt: HostRuntime) -> Result<(), Fail> {
    assert_eq!(rt; first_wrong(&rt)?, "");
    Ok(())
}

/// The first case that a run answers otherwise, if any.
fn first_wrong<R>(rt: &R) -> Result<&'static str, Fail>
where
    R: Threads + Wait + Sync + RandomSource + AllocGlobal,
{
    for case in CASES.lines() {
        if !answers(rt, case)? {
            return Ok(case);
        }
    }
    Ok("")
}

/// Whether a run answers a case as the case says.
fn answers<R>(rt: &R, case: &str) -> Result<bool, Fail>
where
    R: Threads + Wait + Sync + RandomSource + AllocGlobal,
{
    let case = long_of(rt.alloc(), case)?;
    let (words, rest) = part(case.as_str());
    let (faults, rest) = part(rest);
    let (order, rest) = part(rest);
    let (plan, rest) = part(rest);
    let (rows, told) = part(rest);
    is_told(rt, words, faults, order, (plan, rows), told)
}

/// The case with its longer texts.
fn long_of(alloc: Global, case: &str) -> Result<String, Fail> {
    let mut whole = String::from_str(alloc, case)?;
    for (name, text) in LONG {
        whole = whole.as_str().replace(alloc, name, text)?;
    }
    Ok(whole.as_str().replace(alloc, "DIVIDED", DIVIDED)?)
}

/// Whether a run of this plan over these rows under these faults answers so.
fn is_told<R>(
    rt: &R,
    words: &str,
    faults: &str,
    order: &str,
    input: (&str, &str),
    told: &str,
) -> Result<bool, Fail>
where
    R: Threads + Wait + Sync + RandomSource + AllocGlobal,
{
    let (plan, rows) = input;
    let plan = document_of(rt.alloc(), plan)?;
    let words = format!(in rt.alloc(); "--plan p {words}")?;
    let mut numbers = faults.split(' ').map(number);
    let given = Given {
        words: words.as_str(),
        plan: plan.as_str(),
        rows,
        read: numbers.next().unwrap_or(0),
        write: numbers.next().unwrap_or(0),
    };
    let tell = numbers.next().unwrap_or(0);
    is_told_by(rt, &Same::new(Delivery::Fresh), &given, tell, order, told)
}

/// A number; any other word is the greatest.
fn number(digits: &str) -> u32 {
    digits.parse::<u32>().unwrap_or(u32::MAX)
}

/// Whether a run answers so, and makes no write to a sink that failed.
fn is_told_by<R, C>(
    rt: &R,
    courier: &C,
    given: &Given<'_>,
    tell: u32,
    order: &str,
    told: &str,
) -> Result<bool, Fail>
where
    R: Threads + Wait + Sync + RandomSource + AllocGlobal,
    C: Courier + Send,
{
    let words = words_in(rt.alloc(), given.words)?;
    let mut out = sink_of(rt.alloc(), 4, given.write)?;
    let mut err = errors_of(rt.alloc(), tell)?;
    let code = code_of(rt, courier, words.as_slice(), given, &mut out, &mut err)?;
    let (status, rest) = part(told);
    let (text, notes) = rest.split_once('|').unwrap_or((rest, ""));
    Ok(
        number(status) == u32::from(code)
            && has_records(out.written(), order, text)
            && is_text(err.written(), notes)
            && out.faults().max(err.faults()) <= 1,
    )
}

/// The status of a run into these sinks.
fn code_of<R, C>(
    rt: &R,
    courier: &C,
    words: &[Text],
    given: &Given<'_>,
    out: &mut MemSink,
    err: &mut MemSink,
) -> Result<u8, Fail>
where
    R: Threads + Wait + Sync + RandomSource + AllocGlobal,
    C: Courier + Send,
{
    let mut files = files_of(rt.alloc(), given)?;
    let status = run(
        rt,
        rt.alloc(),
        words,
        &mut files,
        out,
        err,
        courier,
        &NoMeet,
    );
    Ok(status.exit_code())
}

/// A sink for the errors that takes seven bytes at once and fails at one write, or, at the greatest number, at all.
fn errors_of(alloc: Global, tell: u32) -> Result<MemSink, Fail> {
    let room = if tell == u32::MAX { 0 } else { 1000 };
    let failing = Vec::from_slice(alloc, &[tell])?;
    Ok(MemSink::new(alloc, room, 7, failing)?)
}

#[test]
fn couriers_that_never_deliver_change_no_answer(rt: HostRuntime) -> Result<(), Fail> {
    assert!(rt; is_grouped(&rt, Delivery::Nothing)?);
    assert!(rt; is_grouped(&rt, Delivery::Again(u32::MAX))?);
    Ok(())
}

/// Whether groups over edges are right where each turn of a courier delivers the same.
fn is_grouped<R>(rt: &R, delivery: Delivery) -> Result<bool, Fail>
where
    R: Threads + Wait + Sync + RandomSource + AllocGlobal,
{
    let plan = document_of(rt.alloc(), GROUPED)?;
    let given = Given {
        words: "--plan p --tasks 4 t=t",
        plan: plan.as_str(),
        rows: "g,v~\\N,1~x,2~\\N,3~x,\\N~",
        read: 0,
        write: 0,
    };
    let told = "0|g,n,s~\\N,2,4~x,2,2~|";
    is_told_by(rt, &Same::new(delivery), &given, 0, "any", told)
}

#[test]
fn no_beginning_of_a_plan_is_one(rt: HostRuntime) -> Result<(), Fail> {
    let plan = document_of(rt.alloc(), GROUPED)?;
    assert_eq!(rt; first_taken(&rt, plan.as_str())?, plan.as_str().len());
    Ok(())
}

/// The length of the shortest beginning of a plan that is not refused at once.
fn first_taken<R>(rt: &R, plan: &str) -> Result<usize, Fail>
where
    R: Threads + Wait + Sync + RandomSource + AllocGlobal,
{
    for length in 0..plan.len() {
        if !is_no_document(rt, plan.get(..length).unwrap_or(plan))? {
            return Ok(length);
        }
    }
    Ok(plan.len())
}

/// Whether a plan is refused as no document.
fn is_no_document<R>(rt: &R, plan: &str) -> Result<bool, Fail>
where
    R: Threads + Wait + Sync + RandomSource + AllocGlobal,
{
    let given = Given {
        words: "--plan p t=t",
        plan,
        rows: "g,v~x,1~",
        read: 0,
        write: 0,
    };
    let told = "4||trinorun: plan refused 1 at ~";
    is_told_by(rt, &Same::new(Delivery::Fresh), &given, 0, "any", told)
}

/// A table of a number and a text.
const TABLE: &str = "a,c~1,x~2,~\\N,\\N~";

/// What its beginnings of each length answer: the text, or where it is refused and why.
const BEGINNINGS: &str = "\
0 | 5||trinorun: table t refused 1 at row 0 column 0~
1 | 5||trinorun: table t refused 1 at row 0 column 1~
2 | 5||trinorun: table t refused 1 at row 0 column 1~
3 | 0|a,c~|
4 | 0|a,c~|
5 | 5||trinorun: table t refused 2 at row 1 column 1~
6 | 0|a,c~1,~|
7 | 0|a,c~1,x~|
8 | 0|a,c~1,x~|
9 | 5||trinorun: table t refused 2 at row 2 column 1~
10 | 0|a,c~1,x~2,~|
11 | 0|a,c~1,x~2,~|
12 | 5||trinorun: table t refused 2 at row 3 column 1~
13 | 5||trinorun: table t refused 2 at row 3 column 1~
14 | 0|a,c~1,x~2,~\\N,~|
15 | 0|a,c~1,x~2,~\\N,\\\\~|
16 | 0|a,c~1,x~2,~\\N,\\N~|
17 | 0|a,c~1,x~2,~\\N,\\N~|";

#[test]
fn beginnings_of_a_table_are_read_or_refused(rt: HostRuntime) -> Result<(), Fail> {
    assert_eq!(rt; first_misread(&rt)?, "");
    Ok(())
}

/// The first of these beginnings that is answered otherwise, if any.
fn first_misread<R>(rt: &R) -> Result<&'static str, Fail>
where
    R: Threads + Wait + Sync + RandomSource + AllocGlobal,
{
    for case in BEGINNINGS.lines() {
        let (length, told) = part(case);
        let rows = TABLE.get(..number(length) as usize).unwrap_or("");
        if !is_told(rt, "t=t", "0 0 0", "any", (SCAN, rows), told)? {
            return Ok(case);
        }
    }
    Ok("")
}

/// All columns of that table.
const SCAN: &str =
    "{'version':1,'output':['a','c'],'tables':[$c],'fragments':[{'id':0,'placement':'SINGLE','root':@c}]}";
