//! Scans, filters and projects; arguments, files, plans and tables that are refused; a result that can't be written.

use crate::answers::{first_wrong, first_wrong_with_words};
use crate::plain::gives_cut;
use crate::plans::plan_of;
use std::random::RandomSource;
use std::sync::Wait;
use std::test::Fail;
use std::thread::Threads;

const CASES: &str = "\
$c | 'a','c' | @c | a,c~1,x~2,~\\N,\\N~ | 0|a,c~1,x~2,~\\N,\\N~|
$c | 'a','c' | @c | a,c~1,~2,\\\\N~3,\\\\\\N~ | 0|a,c~1,~2,\\\\N~3,\\\\\\N~|
$a | 'a' | @a | a~ | 0|a~|
$a | 'a' | @a | a~+7~-0~~ | 0|a~7~0~|
$a | 'a' | {'id':1,'op':'filter','predicate':{'call':'>','args':[{'col':0},{'lit':'1','type':'bigint'}]},'input':@a} | a~1~\\N~2~ | 0|a~2~|
$a | 'a' | {'id':1,'op':'filter','predicate':{'call':'and','args':[{'call':'<>','args':[{'col':0},{'lit':'0','type':'bigint'}]},{'call':'>','args':[{'call':'/','args':[{'lit':'10','type':'bigint'},{'col':0}]},{'lit':'1','type':'bigint'}]}]},'input':@a} | a~0~5~ | 0|a~5~|
$a | 'a' | {'id':1,'op':'filter','predicate':{'call':'and','args':[{'call':'>','args':[{'call':'/','args':[{'lit':'10','type':'bigint'},{'col':0}]},{'lit':'1','type':'bigint'}]},{'call':'<>','args':[{'col':0},{'lit':'0','type':'bigint'}]}]},'input':@a} | a~0~ | 6||trinorun: expression failed 2 at node 1~
$a | 'a' | {'id':1,'op':'project','columns':[{'call':'+','args':[{'col':0},{'lit':'1','type':'bigint'}]}],'input':@a} | a~1~9223372036854775807~ | 6||trinorun: expression failed 1 at node 1~
$e | 'a' | {'id':1,'op':'project','columns':[{'call':'*','args':[{'col':0},{'lit':'10','type':'decimal(2,0)'}]}],'input':@a} | a~99999999999999999999999999999999999999~ | 6||trinorun: expression failed 1 at node 1~
$d | 'a' | {'id':1,'op':'project','columns':[{'cast':{'col':0},'type':'decimal(1,0)'}],'input':@a} | a~0.5~-0.5~ | 0|a~1~-1~|
 | | {'version':1 | a~ | 4||trinorun: plan refused 1 at ~
 | | {} | a~ | 4||trinorun: plan refused 2 at ~
$a | 'a' | {'id':1,'op':'filter','predicate':{'col':0},'input':@a} | a~ | 4||trinorun: plan refused 5 at /fragments/0/root/predicate~
$c | 'a','c' | @c | a,c~1,x~2 | 5||trinorun: table t refused 2 at row 2 column 1~
$a | 'a' | @a | a~1x~ | 5||trinorun: table t refused 4 at row 1 column 0~";

/// Arguments, the read and the write that fail, and a case.
const WITH_WORDS: &str = "\
 | | | $a | 'a' | @a | a~ | 2||trinorun: bad command line~
--plan p --plan q | | | $a | 'a' | @a | a~ | 2||trinorun: bad command line~
--plan= | | | $a | 'a' | @a | a~ | 2||trinorun: bad command line~
--workers 0 --plan p | | | $a | 'a' | @a | a~ | 2||trinorun: bad command line~
--plan p t=a t=b | | | $a | 'a' | @a | a~ | 2||trinorun: bad command line~
--plan p --demo 1 | | | $a | 'a' | @a | a~ | 2||trinorun: bad command line~
--pla p | | | $a | 'a' | @a | a~ | 2||trinorun: bad command line~
--plan p --tasks +2 t=t | | | $c | 'a','c' | @c | a,c~1,x~ | 2||trinorun: bad command line~
--help | | | $a | 'a' | @a | a~ | 2||trinorun: bad command line~
t=t --plan=p | | | $a | 'a' | @a | a~ | 0|a~|
t=t --plan=p --workers=8 | | | $c | 'a','c' | @c | a,c~1,x~2,~\\N,\\N~ | 0|a,c~1,x~2,~\\N,\\N~|
--plan p -- t=t | | | $c | 'a','c' | @c | a,c~1,x~2,~\\N,\\N~ | 0|a,c~1,x~2,~\\N,\\N~|
--counts yes --plan p t=t | | | $a | 'a' | @a | a~5~ | 0|a~5~|
--plan p t=t | 1 | | $a | 'a' | @a | a~ | 3||trinorun: cannot read p~
--plan p t=t | 2 | | $a | 'a' | @a | a~ | 3||trinorun: cannot read t~
--plan p u=u t=z=z | | | $a | 'a' | @a | a~ | 3||trinorun: cannot read z=z~
--plan p u=t | | | $a | 'a' | @a | a~ | 4||trinorun: plan refused 4 at /tables/0/name~
--plan p t=t | | 3 | $a | 'a' | @a | a~3~1~\\N~ | 7|a~3~1~\\N|trinorun: cannot write~
--plan p --split 4 --page 3 --quantum 1 --workers 1 t=t | | | $a | 'a' | {'id':1,'op':'filter','predicate':{'call':'>','args':[{'col':0},{'lit':'1','type':'bigint'}]},'input':@a} | a~1~2~3~4~5~6~7~8~9~10~ | 0|a~2~3~4~5~6~7~8~9~10~|";

#[test]
fn runs_answer_as_told(rt: HostRuntime) -> Result<(), Fail> {
    assert_eq!(rt; first_wrong(&rt, CASES)?, "");
    assert_eq!(rt; first_wrong_with_words(&rt, WITH_WORDS)?, "");
    Ok(())
}

/// A project of `10 / (a - 4)` over a filter that leaves out the 4.
const DIVIDES: &str = "{'id':1,'op':'project','columns':[{'col':0},{'call':'/','args':[\
    {'lit':'10','type':'bigint'},{'call':'-','args':[{'col':0},{'lit':'4','type':'bigint'}]}]}],'input':\
    {'id':2,'op':'filter','predicate':{'call':'<>','args':[{'col':0},{'lit':'4','type':'bigint'}]},'input':@a}}";

const DIVIDES_TEXT: &str = "a,q~1,-3~2,-5~3,-10~5,10~7,3~8,2~9,2~10,1~";

const TEN_ROWS: &str = "a~1~2~3~4~5~\\N~7~8~9~10~";

#[test]
fn every_cutting_gives_what_the_plain_evaluator_gives(rt: HostRuntime) -> Result<(), Fail> {
    let plan = plan_of(rt.alloc(), "$a", "'a','q'", DIVIDES)?;
    let plan = plan.as_str();
    for split in 1..13u32 {
        for page in 1..13u32 {
            let size = (split, page, 100_000);
            assert!(rt; gives_cut(&rt, plan, TEN_ROWS, size, &[], DIVIDES_TEXT)?);
        }
    }
    assert!(rt; divides_under(&rt, plan, (4, 3, 1))?);
    assert!(rt; divides_under(&rt, plan, (10_000, 1024, 100_000))?);
    Ok(())
}

/// Whether it gives the text under each of three lists of picks.
fn divides_under<R: Threads + Wait + Sync + RandomSource + AllocGlobal>(
    rt: &R,
    plan: &str,
    size: (u32, u32, u32),
) -> Result<bool, Fail> {
    let lists: [&[u32]; 3] = [&[], &[0, 0, 0], &[7, 1, 4294967295]];
    for picks in lists {
        if !gives_cut(rt, plan, TEN_ROWS, size, picks, DIVIDES_TEXT)? {
            return Ok(false);
        }
    }
    Ok(true)
}
