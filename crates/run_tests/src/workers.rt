//! Runs on one worker and on more: whoever gives the turns, the answer is the same.

use crate::answers::Given;
use crate::fragments::{GROUPED, answers, document_of, is_told_by};
use run_ports::{HoldUntil, ReplayCourier};
use std::random::RandomSource;
use std::sync::Wait;
use std::test::Fail;
use std::thread::Threads;

const SHAPES: &str = "\
--workers 1
--workers 2
--workers 8
--workers 8 --drivers 4 --split 1 --page 1 --quantum 1";

/// Cases as those of several fragments. In the last the right side of a join fails while its left side waits for it.
const CASES: &str = "\
any | {'version':1,'output':['a','b','c','d'],'tables':[$k],'fragments':[{'id':0,'placement':'SINGLE','root':\
{'id':1,'op':'join','kind':'INNER','on':[[0,0]],'left':@t,'right':@u}}]} \
| k,x~1,a~1,b~\\N,c~2,d~;k,y~1,p~1,q~\\N,r~3,s~ | 0|a,b,c,d~1,a,1,p~1,a,1,q~1,b,1,p~1,b,1,q~|
any | {'version':1,'output':['a','b','c','d'],'tables':[$k],'fragments':[{'id':0,'placement':'SINGLE','root':\
{'id':1,'op':'join','kind':'LEFT','on':[[0,0]],'left':@t,'right':@u}}]} \
| k,x~1,a~1,b~\\N,c~2,d~;k,y~1,p~1,q~\\N,r~3,s~ \
| 0|a,b,c,d~1,a,1,p~1,a,1,q~1,b,1,p~1,b,1,q~\\N,c,\\N,\\N~2,d,\\N,\\N~|
sorted | {'version':1,'output':['a'],'tables':[$a],'fragments':[{'id':0,'placement':'SINGLE','root':\
{'id':1,'op':'sort','keys':[{'column':0,'order':'DESC'}],'input':@a}}]} | a~1~\\N~3~ | 0|a~3~1~\\N~|
sorted | {'version':1,'output':['a','b','c','d'],'tables':[$k],'fragments':[{'id':0,'placement':'SINGLE','root':\
{'id':1,'op':'join','kind':'INNER','on':[[0,0]],'left':@t,'right':{'id':2,'op':'project','columns':\
[{'call':'/','args':[{'lit':'6','type':'bigint'},{'col':0}]},{'col':1}],'input':@u}}}]} \
| k,x~3,a~;k,y~2,p~0,q~3,r~ | 6||trinorun: expression failed 2 at node 2~";

#[test]
fn any_number_of_workers_gives_the_same(rt: HostRuntime) -> Result<(), Fail> {
    assert_eq!(rt; first_wrong(&rt)?, ("", ""));
    Ok(())
}

/// The first shape and case that a run answers otherwise, if any.
fn first_wrong<R>(rt: &R) -> Result<(&'static str, &'static str), Fail>
where
    R: Threads + Wait + Sync + RandomSource + AllocGlobal,
{
    for shape in SHAPES.lines() {
        for case in CASES.lines() {
            if !answers(rt, &ReplayCourier::new(), shape, case)? {
                return Ok((shape, case));
            }
        }
    }
    Ok(("", ""))
}

/// How often a driver that is kept back looks for the other.
const LIMIT: u64 = 200_000_000;

#[test]
fn two_workers_share_the_drivers(rt: HostRuntime) -> Result<(), Fail> {
    let wide = "--workers 2 --tasks 3 --drivers 4";
    assert!(rt; meet_so(&rt, "--workers 2", &HoldUntil::new(1, 2, LIMIT), 10, false)?);
    assert!(rt; meet_so(&rt, "--workers 2", &HoldUntil::new(2, 1, LIMIT), 10, false)?);
    assert!(rt; meet_so(&rt, wide, &HoldUntil::new(1, 2, LIMIT), 20, false)?);
    Ok(())
}

#[test]
fn one_worker_gives_one_turn_after_the_other(rt: HostRuntime) -> Result<(), Fail> {
    assert!(rt; meet_so(&rt, "--workers 1", &HoldUntil::new(1, 2, 9), 10, true)?);
    Ok(())
}

/// Whether so many drivers arrive, the one kept back in vain or not, and the groups are right.
fn meet_so<R>(
    rt: &R,
    words: &str,
    meet: &HoldUntil,
    arrivals: u64,
    is_late: bool,
) -> Result<bool, Fail>
where
    R: Threads + Wait + Sync + RandomSource + AllocGlobal,
{
    let plan = document_of(rt.alloc(), GROUPED)?;
    let words = format!(in rt.alloc(); "--plan p {words} t=t")?;
    let given = Given {
        words: words.as_str(),
        plan: plan.as_str(),
        rows: "g,v~\\N,1~x,2~\\N,3~x,\\N~",
        read: 0,
        write: 0,
    };
    let told = "0|g,n,s~\\N,2,4~x,2,2~|";
    let is_told = is_told_by(rt, &ReplayCourier::new(), meet, &given, "any", told)?;
    Ok(is_told && meet.arrivals() == arrivals && meet.was_late() == is_late)
}
