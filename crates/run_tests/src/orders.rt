//! Sorts, top rows, limits and constant rows.

use crate::answers::{Given, first_wrong, first_wrong_with_words, is_told};
use crate::plain::gives_cut;
use crate::plans::plan_of;
use std::alloc::Global;
use std::random::RandomSource;
use std::sync::Wait;
use std::test::Fail;
use std::thread::Threads;

/// Roots over the scan of one column.
const NARROW: &str = "\
$a | 'a' | {'id':1,'op':'sort','keys':[{'column':0,'order':'DESC'}],'input':@a} | a~1~\\N~3~ | 0|a~3~1~\\N~|\n\
$a | 'a' | {'id':1,'op':'sort','keys':[{'column':0,'order':'ASC'}],'input':@a} | a~1~\\N~3~ | 0|a~1~3~\\N~|\n\
$a | 'a' | {'id':1,'op':'sort','keys':[{'column':0,'order':'ASC'}],'input':@a} | a~ | 0|a~|\n\
$a | 'a' | {'id':1,'op':'sort','keys':[{'column':0,'order':'ASC'}],'input':@a} | a~7~ | 0|a~7~|\n\
$a | 'a' | {'id':1,'op':'sort','keys':[{'column':0,'order':'ASC'}],'input':@a} | a~7~-7~ | 0|a~-7~7~|\n\
$a | 'a' | {'id':1,'op':'limit','step':'SINGLE','count':0,'input':@a} | a~2~1~2~ | 0|a~|\n\
$a | 'a' | {'id':1,'op':'limit','step':'SINGLE','count':2,'input':@a} | a~2~1~2~ | 0|a~2~1~|\n\
$a | 'a' | {'id':1,'op':'limit','step':'SINGLE','count':10,'input':@a} | a~2~1~2~ | 0|a~2~1~2~|\n\
$a | 'a' | {'id':1,'op':'topn','step':'SINGLE','count':0,'keys':[{'column':0,'order':'ASC'}],'input':@a} | a~2~1~2~ | 0|a~|\n\
$a | 'a' | {'id':1,'op':'topn','step':'SINGLE','count':1,'keys':[{'column':0,'order':'ASC'}],'input':@a} | a~2~1~2~ | 0|a~1~|\n\
$a | 'a' | {'id':1,'op':'topn','step':'SINGLE','count':3,'keys':[{'column':0,'order':'DESC'}],'input':@a} | a~2~\\N~2~ | 0|a~2~2~\\N~|\n\
$a | 'a' | {'id':1,'op':'topn','step':'SINGLE','count':9,'keys':[{'column':0,'order':'DESC'}],'input':@a} | a~2~1~3~ | 0|a~3~2~1~|\n\
$a | 'a' | {'id':1,'op':'values','types':['bigint'],'rows':[]} | a~2~ | 0|a~|\n\
$a | 'a' | {'id':1,'op':'sort','keys':[{'column':0,'order':'DESC'}],'input':{'id':2,'op':'values','types':['date'],'rows':[['1969-12-31'],[null],['2024-02-29'],['1970-01-01']]}} | a~2~ | 0|a~2024-02-29~1970-01-01~1969-12-31~\\N~|\n\
$a | 'a' | {'id':1,'op':'values','types':['bigint'],'rows':[['7'],[null],['-7']]} | a~2~ | 0|a~7~\\N~-7~|";

/// Roots over the scan of two columns.
const WIDE: &str = "\
$c | 'a','c' | {'id':1,'op':'topn','step':'SINGLE','count':2,'keys':[{'column':0,'order':'ASC'},{'column':1,'order':'ASC'}],'input':@c} | a,c~2,y~1,x~2,z~ | 0|a,c~1,x~2,y~|\n\
$c | 'a','c' | {'id':1,'op':'topn','step':'SINGLE','count':2,'keys':[{'column':0,'order':'ASC'},{'column':1,'order':'DESC'}],'input':@c} | a,c~2,y~1,x~2,z~ | 0|a,c~1,x~2,z~|\n\
$c | 'a','c' | {'id':1,'op':'sort','keys':[{'column':0,'order':'DESC'},{'column':1,'order':'ASC'}],'input':@c} | a,c~1,x~2,\\N~2,z~\\N,y~2,y~ | 0|a,c~2,y~2,z~2,\\N~1,x~\\N,y~|\n\
$c | 'a','c' | {'id':1,'op':'sort','keys':[{'column':1,'order':'ASC'},{'column':0,'order':'DESC'}],'input':{'id':2,'op':'values','types':['varchar','date'],'rows':[['x','2024-02-29'],['y','2024-02-29'],['z',null],['w','0001-01-01']]}} | a,c~ | 0|a,c~w,0001-01-01~y,2024-02-29~x,2024-02-29~z,\\N~|\n\
$c | 'a','c' | {'id':2,'op':'values','types':['varchar','date'],'rows':[['é','2024-02-29'],[null,null]]} | a,c~ | 0|a,c~é,2024-02-29~\\N,\\N~|\n\
$c | 'a','c' | {'id':4,'op':'filter','predicate':{'call':'like','args':[{'col':0},{'lit':'_','type':'varchar'}]},'input':{'id':2,'op':'values','types':['varchar','date'],'rows':[['é','2024-02-29'],['éé','2024-02-29'],[null,null]]}} | a,c~ | 0|a,c~é,2024-02-29~|";

/// A sorted result whose third write fails.
const CUT_SHORT: &str = "\
--plan p t=t | | 3 | $a | 'a' | {'id':1,'op':'sort','keys':[{'column':0,'order':'DESC'}],'input':@a} | a~1~\\N~3~ | 7|a~3~1~\\N|trinorun: cannot write~";

#[test]
fn rows_come_in_order_and_are_counted(rt: HostRuntime) -> Result<(), Fail> {
    assert_eq!(rt; first_wrong(&rt, NARROW)?, "");
    assert_eq!(rt; first_wrong(&rt, WIDE)?, "");
    assert_eq!(rt; first_wrong_with_words(&rt, CUT_SHORT)?, "");
    Ok(())
}

#[test]
fn picks_change_no_order(rt: HostRuntime) -> Result<(), Fail> {
    let root = "{'id':1,'op':'sort','keys':[{'column':0,'order':'DESC'}],'input':@a}";
    let plan = plan_of(rt.alloc(), "$a", "'a'", root)?;
    let lists: [&[u32]; 2] = [&[], &[0, 0, 0]];
    for picks in lists {
        let size = (10_000, 1024, 100_000);
        assert!(rt; gives_cut(&rt, plan.as_str(), "a~1~\\N~3~", size, picks, "a~3~1~\\N~")?);
    }
    Ok(())
}

#[test]
fn a_top_n_chooses_among_ties(rt: HostRuntime) -> Result<(), Fail> {
    let root =
        "{'id':1,'op':'topn','step':'SINGLE','count':2,'keys':[{'column':0,'order':'ASC'}],'input':@c}";
    let plan = plan_of(rt.alloc(), "$c", "'a','c'", root)?;
    assert!(rt; is_either(&rt, plan.as_str(), "0|a,c~1,x~2,y~|", "0|a,c~1,x~2,z~|")?);
    Ok(())
}

fn is_either<R: Threads + Wait + Sync + RandomSource + AllocGlobal>(
    rt: &R,
    plan: &str,
    one: &str,
    other: &str,
) -> Result<bool, Fail> {
    let given = Given {
        words: "--plan p t=t",
        plan,
        rows: "a,c~2,y~1,x~2,z~",
        read: 0,
        write: 0,
    };
    Ok(is_told(rt, &given, one)? || is_told(rt, &given, other)?)
}

/// The table of 5 000 rows of which the nth has 1717 * n modulo 5 000 in `a` and the rest of that by 10 in `c`.
fn many_rows(alloc: Global) -> Result<String, Fail> {
    let mut text = String::from_str(alloc, "a,c~")?;
    for n in 0..5000u32 {
        let number = n * 1717 % 5000;
        write_row(alloc, &mut text, number, number % 10)?;
    }
    Ok(text)
}

/// The same rows by `c` downwards and then by `a` upwards.
fn many_sorted(alloc: Global) -> Result<String, Fail> {
    let mut text = String::from_str(alloc, "a,c~")?;
    for place in 0..5000u32 {
        let group = 9 - place / 500;
        write_row(alloc, &mut text, place % 500 * 10 + group, group)?;
    }
    Ok(text)
}

fn write_row(alloc: Global, text: &mut String, number: u32, group: u32) -> Result<(), Fail> {
    let row = format!(in alloc; "{number},{group}~")?;
    text.push_str(row.as_str())?;
    Ok(())
}

#[test]
fn many_rows_are_sorted_by_two_keys(rt: HostRuntime) -> Result<(), Fail> {
    let root =
        "{'id':1,'op':'sort','keys':[{'column':1,'order':'DESC'},{'column':0,'order':'ASC'}],'input':@c}";
    let plan = plan_of(rt.alloc(), "$c", "'a','c'", root)?;
    assert!(rt; sorts_many(&rt, plan.as_str())?);
    Ok(())
}

fn sorts_many<R: Threads + Wait + Sync + RandomSource + AllocGlobal>(
    rt: &R,
    plan: &str,
) -> Result<bool, Fail> {
    let rows = many_rows(rt.alloc())?;
    let sorted = many_sorted(rt.alloc())?;
    gives_cut(
        rt,
        plan,
        rows.as_str(),
        (999, 700, 100_000),
        &[],
        sorted.as_str(),
    )
}

/// Eight operators over the scan of `a`, whose keys tell all rows apart.
const STACKED: &str = "\
{'id':1,'op':'limit','step':'SINGLE','count':5,'input':\
{'id':2,'op':'sort','keys':[{'column':0,'order':'DESC'}],'input':\
{'id':3,'op':'topn','step':'SINGLE','count':7,'keys':[{'column':0,'order':'ASC'}],'input':\
{'id':4,'op':'project','columns':[{'call':'+','args':[{'col':0},{'lit':'1','type':'bigint'}]}],'input':\
{'id':5,'op':'filter','predicate':{'call':'<>','args':[{'col':0},{'lit':'4','type':'bigint'}]},'input':\
{'id':6,'op':'limit','step':'SINGLE','count':9,'input':\
{'id':7,'op':'sort','keys':[{'column':0,'order':'DESC'}],'input':\
{'id':8,'op':'filter','predicate':{'call':'>','args':[{'col':0},{'lit':'0','type':'bigint'}]},'input':@a}}}}}}}}";

#[test]
fn operators_that_are_stacked_give_what_the_plain_evaluator_gives(
    rt: HostRuntime,
) -> Result<(), Fail> {
    let plan = plan_of(rt.alloc(), "$a", "'a'", STACKED)?;
    let rows = "a~1~2~3~4~5~\\N~7~8~9~10~";
    for split in [1u32, 3, 7, 100] {
        for page in [1u32, 2, 3, 5, 8192] {
            let size = (split, page, page);
            assert!(rt; gives_cut(&rt, plan.as_str(), rows, size, &[0, 0, 0], "a~10~9~8~6~4~")?);
        }
    }
    Ok(())
}
