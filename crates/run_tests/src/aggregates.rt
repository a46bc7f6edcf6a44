//! Aggregates of whole groups.

use crate::answers::first_wrong;
use crate::plain::gives_cut;
use crate::plans::plan_of;
use std::alloc::Global;
use std::random::RandomSource;
use std::sync::Wait;
use std::test::Fail;
use std::thread::Threads;

/// Aggregates of whole groups.
const CASES: &str = "\
$g | 'n','s' | {'id':1,'op':'aggregate','step':'SINGLE','keys':[],'calls':[{'name':'count_all'},{'name':'sum','column':1}],'input':@g} | g,v,d~ | 0|n,s~0,\\N~|\n\
$g | 'a','n','s' | {'id':1,'op':'aggregate','step':'SINGLE','keys':[0],'calls':[{'name':'count_all'},{'name':'sum','column':1}],'input':@g} | g,v,d~ | 0|a,n,s~|\n\
$g | 's' | {'id':1,'op':'aggregate','step':'SINGLE','keys':[],'calls':[{'name':'sum','column':1}],'input':@g} | g,v,d~a,9223372036854775807,0.0~a,1,0.0~a,-5,0.0~ | 0|s~9223372036854775803~|\n\
$g | 's' | {'id':1,'op':'aggregate','step':'SINGLE','keys':[],'calls':[{'name':'sum','column':1}],'input':@g} | g,v,d~a,9223372036854775807,0.0~a,1,0.0~ | 6||trinorun: expression failed 1 at node 1~\n\
$g | 'g','n','s' | {'id':1,'op':'aggregate','step':'SINGLE','keys':[0],'calls':[{'name':'count_all'},{'name':'sum','column':1}],'input':@g} | g,v,d~\\N,1,0.0~x,2,0.0~\\N,3,0.0~x,\\N,0.0~ | 0|g,n,s~\\N,2,4~x,2,2~|\n\
$g | 'g','n','l','m','a' | {'id':1,'op':'aggregate','step':'SINGLE','keys':[0],'calls':[{'name':'count','column':1},{'name':'min','column':1},{'name':'max','column':2},{'name':'avg','column':2}],'input':@g} | g,v,d~a,5,0.1~a,\\N,0.2~b,\\N,-0.1~b,\\N,-0.2~a,-7,\\N~c,1,\\N~ | 0|g,n,l,m,a~a,2,-7,0.2,0.2~b,0,\\N,-0.1,-0.2~c,1,1,\\N,\\N~|\n\
$g | 'l','m','s' | {'id':1,'op':'aggregate','step':'SINGLE','keys':[],'calls':[{'name':'min','column':0},{'name':'max','column':0},{'name':'sum','column':2}],'input':@g} | g,v,d~b,0,99.9~é,0,99.9~\\N,0,\\N~a,0,-0.1~ | 0|l,m,s~a,é,199.7~|\n\
$g | 'g','n' | {'id':1,'op':'sort','keys':[{'column':1,'order':'DESC'}],'input':{'id':2,'op':'filter','predicate':{'call':'>','args':[{'col':1},{'lit':'1','type':'bigint'}]},'input':{'id':3,'op':'aggregate','step':'SINGLE','keys':[0],'calls':[{'name':'count_all'}],'input':@g}}} | g,v,d~a,1,0.0~b,1,0.0~c,1,0.0~c,2,0.0~b,1,0.0~c,1,0.0~ | 0|g,n~c,3~b,2~|\n\
$g | 'k' | {'id':1,'op':'aggregate','step':'SINGLE','keys':[0],'calls':[],'input':{'id':2,'op':'project','columns':[{'call':'+','args':[{'col':1},{'lit':'1','type':'bigint'}]}],'input':@g}} | g,v,d~a,1,0.0~b,1,0.0~c,2,0.0~ | 0|k~2~3~|";

#[test]
fn groups_are_aggregated(rt: HostRuntime) -> Result<(), Fail> {
    assert_eq!(rt; first_wrong(&rt, CASES)?, "");
    Ok(())
}

/// An aggregate over a join of the table with groups of it, a filter and a project, and a top n of all.
const STACKED: &str = "\
{'id':1,'op':'topn','step':'SINGLE','count':4,'keys':[{'column':0,'order':'ASC'}],'input':\
{'id':2,'op':'aggregate','step':'SINGLE','keys':[0],'calls':[{'name':'count_all'},{'name':'sum','column':1},{'name':'avg','column':2}],'input':\
{'id':3,'op':'project','columns':[{'col':0},{'call':'+','args':[{'col':1},{'col':5}]},{'col':2}],'input':\
{'id':4,'op':'join','kind':'LEFT','on':[[0,0]],'left':\
{'id':5,'op':'filter','predicate':{'call':'<>','args':[{'col':1},{'lit':'4','type':'bigint'}]},'input':\
{'id':10,'op':'join','kind':'INNER','on':[[0,0]],'left':@g,'right':\
{'id':11,'op':'values','types':['varchar'],'rows':[['g0'],['g1'],['g2'],['g4'],['g5'],['g6'],[null]]}}},'right':\
{'id':6,'op':'aggregate','step':'SINGLE','keys':[0],'calls':[{'name':'max','column':1}],'input':\
{'id':7,'op':'limit','step':'SINGLE','count':50,'input':\
{'id':12,'op':'sort','keys':[{'column':1,'order':'DESC'},{'column':2,'order':'ASC'},{'column':0,'order':'ASC'}],'input':\
{'id':8,'op':'scan','table':'t','columns':['g','v','d']}}}}}}}}";

/// What it gives, as Python's `decimal` has it.
const STACKED_TEXT: &str = "g,n,s,a~g0,8,700,2.4~g1,8,706,2.5~g2,7,602,2.4~g4,7,511,2.5~";

/// Groups `g` of 0 to 6, each of which has numbers and nulls.
fn many_rows(alloc: Global) -> Result<String, Fail> {
    let mut text = String::from_str(alloc, "g,v,d~")?;
    for n in 0..60u32 {
        write_row(alloc, &mut text, n, n * 5 % 7)?;
    }
    Ok(text)
}

fn write_row(alloc: Global, text: &mut String, n: u32, group: u32) -> Result<(), Fail> {
    let tenths = n % 10;
    let row = match n % 9 {
        0 => format!(in alloc; "g{group},\\N,1.{tenths}~")?,
        4 | 7 => format!(in alloc; "g{group},{n},\\N~")?,
        _ => format!(in alloc; "g{group},{n},2.{tenths}~")?,
    };
    text.push_str(row.as_str())?;
    Ok(())
}

#[test]
fn every_cutting_gives_the_groups_of_the_plain_evaluator(rt: HostRuntime) -> Result<(), Fail> {
    let plan = plan_of(rt.alloc(), "$g", "'g','n','s','a'", STACKED)?;
    let lists: [&[u32]; 3] = [&[], &[0, 0, 0, 1, 0], &[1, 1, 1, 1, 3]];
    for picks in lists {
        assert!(rt; groups_under(&rt, plan.as_str(), picks)?);
    }
    Ok(())
}

fn groups_under<R: Threads + Wait + Sync + RandomSource + AllocGlobal>(
    rt: &R,
    plan: &str,
    picks: &[u32],
) -> Result<bool, Fail> {
    let rows = many_rows(rt.alloc())?;
    for size in [1u32, 2, 3, 5, 7, 64, 8192] {
        if !gives_cut(
            rt,
            plan,
            rows.as_str(),
            (size, size, size),
            picks,
            STACKED_TEXT,
        )? {
            return Ok(false);
        }
    }
    Ok(true)
}
