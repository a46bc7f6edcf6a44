//! Joins of the tables `t` and `u`, and of `t` again.

use crate::answers::first_wrong;
use crate::plain::gives_cut;
use crate::plans::plan_of;
use std::alloc::Global;
use std::random::RandomSource;
use std::sync::Wait;
use std::test::Fail;
use std::thread::Threads;

/// Joins of two tables, and of three.
const CASES: &str = "\
$k | 'a','b','c','d' | {'id':1,'op':'join','kind':'INNER','on':[[0,0]],'left':@t,'right':@u} | k,x~1,a~1,b~\\N,c~2,d~;k,y~1,p~1,q~\\N,r~3,s~ | 0|a,b,c,d~1,a,1,p~1,a,1,q~1,b,1,p~1,b,1,q~|\n\
$k | 'a','b','c','d' | {'id':1,'op':'join','kind':'LEFT','on':[[0,0]],'left':@t,'right':@u,'filters':[]} | k,x~1,a~1,b~\\N,c~2,d~;k,y~1,p~1,q~\\N,r~3,s~ | 0|a,b,c,d~1,a,1,p~1,a,1,q~1,b,1,p~1,b,1,q~\\N,c,\\N,\\N~2,d,\\N,\\N~|\n\
$k | 'a','b','c','d' | {'id':1,'op':'join','kind':'LEFT','on':[[0,0]],'left':@t,'right':@u} | k,x~1,a~\\N,b~;k,y~ | 0|a,b,c,d~1,a,\\N,\\N~\\N,b,\\N,\\N~|\n\
$k | 'a','b','c','d' | {'id':1,'op':'join','kind':'INNER','on':[[0,0]],'left':@t,'right':@u} | k,x~1,a~;k,y~ | 0|a,b,c,d~|\n\
$k | 'a','b','c','d' | {'id':1,'op':'join','kind':'LEFT','on':[[0,0]],'left':@t,'right':@u} | k,x~;k,y~1,p~ | 0|a,b,c,d~|\n\
$k | 'a','b','c','d' | {'id':1,'op':'join','kind':'LEFT','on':[[0,0],[1,1]],'left':@t,'right':@u} | k,x~1,a~1,b~2,\\N~;k,y~1,a~2,\\N~1,c~1,a~ | 0|a,b,c,d~1,a,1,a~1,a,1,a~1,b,\\N,\\N~2,\\N,\\N,\\N~|\n\
$k | 'a','b','c','d' | {'id':1,'op':'join','kind':'INNER','on':[[1,1]],'left':@t,'right':@u} | k,x~1,é~2,e~3,\\N~;k,y~5,e~6,é~7,ee~ | 0|a,b,c,d~1,é,6,é~2,e,5,e~|\n\
$k | 'a','b','c','d' | {'id':1,'op':'join','kind':'LEFT','on':[[0,0]],'left':{'id':2,'op':'values','types':['decimal(5,2)','date'],'rows':[['1.50','2024-02-29'],[null,null],['-0.01',null]]},'right':{'id':3,'op':'values','types':['decimal(5,2)','boolean'],'rows':[['-0.01','true'],['1.50','false'],['1.50',null]]}} | k,x~;k,y~ | 0|a,b,c,d~1.50,2024-02-29,1.50,false~1.50,2024-02-29,1.50,\\N~\\N,\\N,\\N,\\N~-0.01,\\N,-0.01,true~|\n\
$k | 'a','b','c','d' | {'id':1,'op':'project','columns':[{'col':0},{'col':3},{'col':4},{'col':5}],'input':{'id':2,'op':'join','kind':'INNER','on':[[0,0]],'left':{'id':3,'op':'join','kind':'INNER','on':[[0,0]],'left':@t,'right':@u},'right':@v}} | k,x~1,a~2,b~;k,y~2,p~1,q~2,r~ | 0|a,b,c,d~1,q,1,a~2,p,2,b~2,r,2,b~|\n\
$k | 'a','b','c','d' | {'id':1,'op':'project','columns':[{'col':1},{'col':2},{'col':3},{'col':5}],'input':{'id':2,'op':'join','kind':'LEFT','on':[[0,2]],'left':@t,'right':{'id':3,'op':'join','kind':'LEFT','on':[[0,0]],'left':@u,'right':@v}}} | k,x~1,a~2,b~3,c~;k,y~2,p~1,q~4,r~ | 0|a,b,c,d~a,1,q,a~b,2,p,b~c,\\N,\\N,\\N~|\n\
$k | 'a','b','c','d' | {'id':1,'op':'join','kind':'INNER','on':[[0,0]],'left':@t,'right':{'id':2,'op':'project','columns':[{'call':'/','args':[{'lit':'6','type':'bigint'},{'col':0}]},{'col':1}],'input':@u}} | k,x~3,a~;k,y~2,p~0,q~3,r~ | 6||trinorun: expression failed 2 at node 2~\n\
$k | 'a','b','c','d' | {'id':1,'op':'filter','predicate':{'call':'=','args':[{'call':'/','args':[{'lit':'6','type':'bigint'},{'col':2}]},{'lit':'2','type':'bigint'}]},'input':{'id':2,'op':'join','kind':'LEFT','on':[[0,0]],'left':@t,'right':@u}} | k,x~3,a~0,b~;k,y~3,p~0,q~ | 6||trinorun: expression failed 2 at node 1~";

#[test]
fn rows_are_joined(rt: HostRuntime) -> Result<(), Fail> {
    assert_eq!(rt; first_wrong(&rt, CASES)?, "");
    Ok(())
}

/// Joins with dynamic filters, by which a scan may leave out what has no partner, and joins whose filters are misdirected.
const FILTERED: &str = "\
$k | 'a','b','c','d' | {'id':1,'op':'join','kind':'INNER','on':[[0,0]],'left':@t,'right':@u,'filters':[{'id':1,'key':0,'scan':9,'column':0,'wait':true}]} | k,x~0,a~3,b~5,c~7,d~\\N,e~;k,y~3,p~7,q~3,r~\\N,s~ | 0|a,b,c,d~3,b,3,p~3,b,3,r~7,d,7,q~|\n\
$k | 'a','b','c','d' | {'id':1,'op':'join','kind':'INNER','on':[[0,0]],'left':@t,'right':@u,'filters':[{'id':1,'key':0,'scan':9,'column':0,'wait':false}]} | k,x~0,a~3,b~5,c~7,d~\\N,e~;k,y~3,p~7,q~3,r~\\N,s~ | 0|a,b,c,d~3,b,3,p~3,b,3,r~7,d,7,q~|\n\
$k | 'a','b','c','d' | {'id':1,'op':'join','kind':'INNER','on':[[0,0]],'left':@t,'right':@u,'filters':[{'id':1,'key':0,'scan':9,'column':0,'wait':true}]} | k,x~0,a~3,b~;k,y~ | 0|a,b,c,d~|\n\
$k | 'a','b','c','d' | {'id':1,'op':'project','columns':[{'col':0},{'col':3},{'col':4},{'col':5}],'input':{'id':2,'op':'join','kind':'INNER','on':[[0,0],[1,1]],'left':{'id':3,'op':'join','kind':'INNER','on':[[0,0]],'left':@t,'right':@u,'filters':[{'id':9,'key':0,'scan':9,'column':0,'wait':true}]},'right':@v,'filters':[{'id':8,'key':1,'scan':9,'column':1,'wait':true},{'id':7,'key':0,'scan':9,'column':0,'wait':false}]}} | k,x~1,a~2,b~4,c~;k,y~2,p~1,q~2,r~3,s~ | 0|a,b,c,d~1,q,1,a~2,p,2,b~2,r,2,b~|\n\
$k | 'a','b','c','d','e' | {'id':1,'op':'join','kind':'INNER','on':[[0,0]],'left':{'id':4,'op':'project','columns':[{'col':0},{'col':1},{'call':'/','args':[{'lit':'6','type':'bigint'},{'col':0}]}],'input':@t},'right':@u,'filters':[{'id':1,'key':0,'scan':9,'column':0,'wait':true}]} | k,x~3,a~;k,y~3,p~ | 4||trinorun: plan refused 9 at /fragments/0/root/filters/0~\n\
$k | 'a','b','c','d' | {'id':1,'op':'join','kind':'LEFT','on':[[0,0]],'left':@t,'right':@u,'filters':[{'id':1,'key':0,'scan':9,'column':0,'wait':true}]} | k,x~3,a~;k,y~3,p~ | 4||trinorun: plan refused 9 at /fragments/0/root/filters/0~";

#[test]
fn dynamic_filters_change_no_row(rt: HostRuntime) -> Result<(), Fail> {
    assert_eq!(rt; first_wrong(&rt, FILTERED)?, "");
    Ok(())
}

/// A join whose right side is a join, under a join.
const NESTED: &str = "\
{'id':1,'op':'project','columns':[{'col':0},{'col':3},{'col':5},{'col':6}],'input':\
{'id':2,'op':'join','kind':'LEFT','on':[[0,0]],'left':\
{'id':3,'op':'filter','predicate':{'call':'>','args':[{'col':0},{'lit':'1','type':'bigint'}]},'input':\
{'id':4,'op':'join','kind':'INNER','on':[[0,0]],'left':@t,'right':@u}},'right':\
{'id':5,'op':'join','kind':'INNER','on':[[1,1]],'left':@v,'right':\
{'id':6,'op':'values','types':['bigint','varchar'],'rows':[['1','b'],['2','c'],['3','b'],[null,null]]}}}}";

const NESTED_ROWS: &str = "k,x~1,a~2,b~3,c~2,d~\\N,b~4,e~;k,y~2,p~3,q~2,r~\\N,s~1,t~4,u~4,v~";

const NESTED_TEXT: &str = "a,b,c,d~\
2,p,b,1~2,p,b,3~2,r,b,1~2,r,b,3~3,q,c,2~2,p,b,1~2,p,b,3~2,r,b,1~2,r,b,3~4,u,\\N,\\N~4,v,\\N,\\N~";

#[test]
fn every_cutting_and_every_list_of_picks_gives_the_same(rt: HostRuntime) -> Result<(), Fail> {
    let plan = plan_of(rt.alloc(), "$k", "'a','b','c','d'", NESTED)?;
    let lists: [&[u32]; 5] = [
        &[],
        &[0, 0, 0, 1, 0],
        &[3, 3, 3, 2, 2, 1],
        &[2, 1, 0, 7, 5, 5, 5],
        &[1, 3],
    ];
    for picks in lists {
        for size in [1u32, 2, 3, 8192] {
            let sizes = (size, size, size);
            assert!(rt; gives_cut(&rt, plan.as_str(), NESTED_ROWS, sizes, picks, NESTED_TEXT)?);
        }
    }
    Ok(())
}

#[test]
fn picks_change_no_row(rt: HostRuntime) -> Result<(), Fail> {
    let root = "{'id':1,'op':'join','kind':'INNER','on':[[0,0]],'left':@t,'right':@u}";
    let plan = plan_of(rt.alloc(), "$k", "'a','b','c','d'", root)?;
    let rows = "k,x~1,a~1,b~\\N,c~2,d~;k,y~1,p~1,q~\\N,r~3,s~";
    let text = "a,b,c,d~1,a,1,p~1,a,1,q~1,b,1,p~1,b,1,q~";
    let lists: [&[u32]; 2] = [&[], &[0, 0, 0, 1, 0]];
    for picks in lists {
        let sizes = (10_000, 1024, 100_000);
        assert!(rt; gives_cut(&rt, plan.as_str(), rows, sizes, picks, text)?);
    }
    Ok(())
}

/// A join of which both sides divide by a number that may be zero.
const BOTH_DIVIDE: &str = "\
{'id':1,'op':'join','kind':'INNER','on':[[0,0]],'left':\
{'id':3,'op':'project','columns':[{'call':'/','args':[{'lit':'6','type':'bigint'},{'col':0}]},{'col':1}],'input':@t},'right':\
{'id':2,'op':'project','columns':[{'call':'/','args':[{'lit':'6','type':'bigint'},{'col':0}]},{'col':1}],'input':@u}}";

#[test]
fn the_driver_that_is_picked_first_fails_first(rt: HostRuntime) -> Result<(), Fail> {
    let plan = plan_of(rt.alloc(), "$k", "'a','b','c','d'", BOTH_DIVIDE)?;
    let left = "node 3";
    let right = "node 2";
    let cases: [(&[u32], &str); 6] = [
        (&[], left),
        (&[0, 1], left),
        (&[2, 1], left),
        (&[1], right),
        (&[1, 0], right),
        (&[3, 0], right),
    ];
    for (picks, text) in cases {
        let sizes = (10_000, 1024, 100_000);
        assert!(rt; gives_cut(&rt, plan.as_str(), "k,x~0,a~;k,y~0,p~", sizes, picks, text)?);
    }
    Ok(())
}

/// Writes so many lines of the key 7, each behind these words.
fn write_many(alloc: Global, text: &mut String, words: &str, count: u32) -> Result<(), Fail> {
    for n in 0..count {
        let line = format!(in alloc; "{words}7,{n}~")?;
        text.push_str(line.as_str())?;
    }
    Ok(())
}

/// Two rows of the key 7 and one of another, and so many rows of the key 7 on the right.
fn rows_with_partners(alloc: Global, count: u32) -> Result<String, Fail> {
    let mut rows = String::from_str(alloc, "k,x~7,a~8,b~7,c~;k,y~")?;
    write_many(alloc, &mut rows, "", count)?;
    Ok(rows)
}

/// A row of the left table beside so many partners, or beside none.
fn write_partnered(alloc: Global, text: &mut String, words: &str, count: u32) -> Result<(), Fail> {
    if count == 0 {
        text.push_str(words)?;
        text.push_str("\\N,\\N~")?;
        return Ok(());
    }
    write_many(alloc, text, words, count)
}

/// What their join gives.
fn text_with_partners(alloc: Global, count: u32) -> Result<String, Fail> {
    let mut text = String::from_str(alloc, "a,b,c,d~")?;
    write_partnered(alloc, &mut text, "7,a,", count)?;
    text.push_str("8,b,\\N,\\N~")?;
    write_partnered(alloc, &mut text, "7,c,", count)?;
    Ok(text)
}

#[test]
fn long_lists_of_partners_are_cut(rt: HostRuntime) -> Result<(), Fail> {
    let root = "{'id':1,'op':'join','kind':'LEFT','on':[[0,0]],'left':@t,'right':@u}";
    let plan = plan_of(rt.alloc(), "$k", "'a','b','c','d'", root)?;
    for count in [0u32, 1, 5000] {
        assert!(rt; joins_partners(&rt, plan.as_str(), count)?);
    }
    Ok(())
}

fn joins_partners<R: Threads + Wait + Sync + RandomSource + AllocGlobal>(
    rt: &R,
    plan: &str,
    count: u32,
) -> Result<bool, Fail> {
    let rows = rows_with_partners(rt.alloc(), count)?;
    let text = text_with_partners(rt.alloc(), count)?;
    gives_cut(
        rt,
        plan,
        rows.as_str(),
        (999, 300, 100_000),
        &[],
        text.as_str(),
    )
}
