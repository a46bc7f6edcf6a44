//! Plans of several fragments: each gives the same in every shape, and whatever its couriers deliver.

use crate::answers::{Given, files_of, is_text, part, words_in};
use crate::couriers::{Telling, Thirds, cells_of, were_asked};
use crate::plain::gives;
use crate::plans::plan_of;
use query_runner::run;
use run_ports::{Courier, Meet, MemSink, NoMeet, ReplayCourier};
use std::alloc::Global;
use std::random::RandomSource;
use std::sync::Wait;
use std::test::Fail;
use std::thread::Threads;

/// The shapes in which each case is run.
const SHAPES: &str = "\
--tasks 1 --drivers 1 --workers 1
--tasks 4
--tasks 2 --split 1 --page 1 --workers 8
--tasks 3 --drivers 4 --split 2 --page 2 --quantum 1
--tasks 2 --drivers 3 --split 1 --page 1 --quantum 2 --replay 7 --workers 1
--tasks 5 --drivers 16 --split 1 --replay 18446744073709551615 --workers 8";

/// A case is a line `order | plan | rows | answer`, where the order of the answer's records is `any` or `sorted`.
const CASES: &str = "\
sorted | {'version':1,'output':['flag','qty','revenue','avg_price'],'tables':[$i],'fragments':[\
{'id':0,'placement':'SINGLE','root':{'id':1,'op':'sort','keys':[{'column':0,'order':'ASC'}],'input':\
{'id':2,'op':'aggregate','step':'FINAL','input':{'id':3,'op':'remote','fragment':1}}}},\
{'id':1,'placement':'SOURCE','output':{'kind':'SINGLE'},'root':{'id':4,'op':'aggregate','step':'PARTIAL','keys':[0],\
'calls':[{'name':'sum','column':1},{'name':'sum','column':2},{'name':'avg','column':3}],'input':\
{'id':5,'op':'project','columns':[{'col':1},{'col':2},\
{'call':'*','args':[{'col':3},{'call':'-','args':[{'lit':'1','type':'decimal(1,0)'},{'col':4}]}]},{'col':3}],'input':\
{'id':6,'op':'filter','predicate':{'call':'<=','args':[{'col':0},{'lit':'1998-09-02','type':'date'}]},'input':@i}}}}]} \
| day,flag,qty,price,disc~1998-09-01,A,10,100.00,0.10~1998-09-02,A,5,50.50,0.00~1998-09-03,A,1,1.00,0.00~1998-01-01,N,2,20.00,0.05~ \
| 0|flag,qty,revenue,avg_price~A,15,140.5000,75.25~N,2,19.0000,20.00~|
any | GROUPED | g,v~\\N,1~x,2~\\N,3~x,\\N~ | 0|g,n,s~\\N,2,4~x,2,2~|
any | {'version':1,'output':['k','x'],'tables':[$k],'fragments':[\
{'id':0,'placement':'SINGLE','root':{'id':1,'op':'remote','fragment':1}},\
{'id':1,'placement':'HASH','output':{'kind':'SINGLE'},'root':{'id':2,'op':'union','left':\
{'id':3,'op':'remote','fragment':2},'right':{'id':4,'op':'remote','fragment':3}}},\
{'id':2,'placement':'SOURCE','output':{'kind':'HASH','columns':[0]},'root':@t},\
{'id':3,'placement':'SOURCE','output':{'kind':'HASH','columns':[0]},'root':@u}]} \
| k,x~1,a~\\N,b~;k,y~2,c~1,d~ | 0|k,x~1,a~\\N,b~2,c~1,d~|
any | {'version':1,'output':['k','x','l','y'],'tables':[$k],'fragments':[\
{'id':0,'placement':'SINGLE','root':{'id':1,'op':'join','kind':'INNER','on':[[0,0]],'left':{'id':2,'op':'union','left':\
{'id':3,'op':'union','left':@t,'right':@v},'right':{'id':4,'op':'remote','fragment':1}},'right':{'id':5,'op':'union','left':\
{'id':6,'op':'remote','fragment':2},'right':{'id':10,'op':'values','types':['bigint','varchar'],'rows':[['5','z']]}}}},\
{'id':1,'placement':'SOURCE','output':{'kind':'SINGLE'},'root':@u},\
{'id':2,'placement':'SOURCE','output':{'kind':'SINGLE'},'root':{'id':11,'op':'scan','table':'u','columns':['k','y']}}]} \
| k,x~1,a~5,b~;k,y~1,p~2,q~ | 0|k,x,l,y~1,a,1,p~1,a,1,p~5,b,5,z~5,b,5,z~1,p,1,p~2,q,2,q~|
any | {'version':1,'output':['k','n'],'tables':[$k],'fragments':[\
{'id':0,'placement':'SINGLE','root':{'id':1,'op':'remote','fragment':1}},\
{'id':1,'placement':'HASH','output':{'kind':'SINGLE'},'root':{'id':2,'op':'aggregate','step':'SINGLE','keys':[0],\
'calls':[{'name':'count_all'}],'input':{'id':3,'op':'join','kind':'INNER','on':[[0,0]],'left':\
{'id':4,'op':'remote','fragment':2},'right':{'id':5,'op':'remote','fragment':3}}}},\
{'id':2,'placement':'SOURCE','output':{'kind':'HASH','columns':[0]},'root':@t},\
{'id':3,'placement':'SOURCE','output':{'kind':'BROADCAST'},'root':@u}]} \
| k,x~1,a~1,b~2,c~3,d~;k,y~1,p~2,q~2,r~ | 0|k,n~1,2~2,2~|
any | {'version':1,'output':['k','x','l','y'],'tables':[$k],'fragments':[\
{'id':0,'placement':'SINGLE','root':{'id':1,'op':'remote','fragment':1}},\
{'id':1,'placement':'HASH','output':{'kind':'SINGLE'},'root':{'id':2,'op':'join','kind':'INNER','on':[[0,0]],'left':\
{'id':3,'op':'remote','fragment':2},'right':{'id':4,'op':'remote','fragment':3},\
'filters':[{'id':1,'key':0,'scan':9,'column':0,'wait':true}]}},\
{'id':2,'placement':'SOURCE','output':{'kind':'HASH','columns':[0]},'root':@t},\
{'id':3,'placement':'SOURCE','output':{'kind':'HASH','columns':[0]},'root':@u}]} \
| k,x~0,a~3,b~7,c~\\N,d~9,e~;k,y~3,p~7,q~3,r~ | 0|k,x,l,y~3,b,3,p~3,b,3,r~7,c,7,q~|
sorted | {'version':1,'output':['n'],'tables':[$a],'fragments':[\
{'id':0,'placement':'SINGLE','root':{'id':1,'op':'remote','fragment':1}},\
{'id':1,'placement':'SINGLE','output':{'kind':'SINGLE'},'root':{'id':2,'op':'aggregate','step':'SINGLE','keys':[],\
'calls':[{'name':'count_all'}],'input':{'id':3,'op':'remote','fragment':2}}},\
{'id':2,'placement':'SOURCE','output':{'kind':'SINGLE'},'root':@a}]} | a~3~1~2~ | 0|n~3~|
sorted | {'version':1,'output':['q'],'tables':[$a],'fragments':[\
{'id':0,'placement':'SINGLE','root':{'id':1,'op':'remote','fragment':1}},\
{'id':1,'placement':'SOURCE','output':{'kind':'SINGLE'},'root':{'id':3,'op':'project','columns':[{'call':'/','args':[\
{'lit':'6','type':'bigint'},{'col':0}]}],'input':@a}}]} \
| a~1~2~3~1~2~3~1~2~3~0~1~2~3~ | 6||trinorun: expression failed 2 at node 3~
sorted | SUM | a~9223372036854775807~1~-5~ | 0|s~9223372036854775803~|
sorted | SUM | a~9223372036854775807~1~ | 6||trinorun: expression failed 1 at node 1~
sorted | SUM | a~ | 0|s~\\N~|
any | {'version':1,'output':['c0','c1'],'tables':[],'fragments':[{'id':0,'placement':'SINGLE','root':\
{'id':1,'op':'union','left':VALUES,'right':NULLS}}]} | | 0|c0,c1~é,2024-02-29~\\N,\\N~|
any | {'version':1,'output':['c0','c1'],'tables':[],'fragments':[{'id':0,'placement':'SINGLE','root':\
{'id':1,'op':'union','left':{'id':4,'op':'filter','predicate':{'call':'like','args':[{'col':0},\
{'lit':'_','type':'varchar'}]},'input':VALUES},'right':NULLS}}]} | | 0|c0,c1~é,2024-02-29~\\N,\\N~|
sorted | {'version':1,'output':['c0','c1'],'tables':[],'fragments':[{'id':0,'placement':'SINGLE','root':\
{'id':4,'op':'filter','predicate':{'call':'=','args':[{'col':1},{'lit':'2023-02-29','type':'date'}]},'input':VALUES}}]} \
| | 4||trinorun: plan refused 5 at /fragments/0/root/predicate/args/1/lit~
sorted | {'version':1,'output':['s'],'tables':[$a],'fragments':[\
{'id':0,'placement':'SINGLE','root':{'id':5,'op':'remote','fragment':1}},\
{'id':1,'placement':'HASH','output':{'kind':'SINGLE'},'root':{'id':1,'op':'aggregate','step':'FINAL','input':\
{'id':2,'op':'remote','fragment':2}}},\
{'id':2,'placement':'SOURCE','output':{'kind':'HASH','columns':[0]},'root':{'id':3,'op':'aggregate','step':'PARTIAL',\
'keys':[],'calls':[{'name':'sum','column':0}],'input':@a}}]} | a~ | 4||trinorun: plan refused 8 at /fragments/1/root~
sorted | {'version':1,'output':['n','s'],'tables':[$a],'fragments':[{'id':0,'placement':'SINGLE','root':\
{'id':1,'op':'aggregate','step':'PARTIAL','keys':[],'calls':[{'name':'count_all'},{'name':'sum','column':0}],'input':@a}}]} \
| a~ | 4||trinorun: plan refused 7 at /fragments/0/root/step~
sorted | {'version':1,'output':['a'],'tables':[$a],'fragments':[{'id':0,'placement':'SINGLE','root':@a},\
{'id':1,'placement':'SOURCE','output':{'kind':'SINGLE'},'root':{'id':8,'op':'scan','table':'t','columns':['a']}}]} \
| a~ | 4||trinorun: plan refused 6 at /fragments/1~
any | {'version':1,'output':['k','x','l','y'],'tables':[$k],'fragments':[\
{'id':0,'placement':'SINGLE','root':{'id':1,'op':'remote','fragment':1}},\
{'id':1,'placement':'SOURCE','output':{'kind':'SINGLE'},'root':{'id':2,'op':'join','kind':'LEFT','on':[[0,0]],'left':@t,\
'right':{'id':3,'op':'remote','fragment':2}}},\
{'id':2,'placement':'SOURCE','output':{'kind':'BROADCAST'},'root':@u}]} \
| k,x~1,a~1,b~\\N,c~2,d~;k,y~1,p~1,q~\\N,r~3,s~ \
| 0|k,x,l,y~1,a,1,p~1,a,1,q~1,b,1,p~1,b,1,q~\\N,c,\\N,\\N~2,d,\\N,\\N~|
any | {'version':1,'output':['k','x','l','y'],'tables':[$k],'fragments':[\
{'id':0,'placement':'SINGLE','root':{'id':1,'op':'remote','fragment':1}},\
{'id':1,'placement':'HASH','output':{'kind':'SINGLE'},'root':{'id':2,'op':'join','kind':'INNER','on':[[0,0]],'left':\
{'id':3,'op':'remote','fragment':2},'right':{'id':4,'op':'remote','fragment':3}}},\
{'id':2,'placement':'SOURCE','output':{'kind':'HASH','columns':[0]},'root':@t},\
{'id':3,'placement':'SOURCE','output':{'kind':'HASH','columns':[0]},'root':@u}]} \
| k,x~1,a~1,b~\\N,c~2,d~;k,y~1,p~1,q~\\N,r~2,s~ | 0|k,x,l,y~1,a,1,p~1,a,1,q~1,b,1,p~1,b,1,q~2,d,2,s~|
sorted | {'version':1,'output':['k','x'],'tables':[$k],'fragments':[\
{'id':0,'placement':'SINGLE','root':{'id':1,'op':'topn','step':'FINAL','input':{'id':2,'op':'remote','fragment':1}}},\
{'id':1,'placement':'SOURCE','output':{'kind':'SINGLE'},'root':{'id':3,'op':'topn','step':'PARTIAL','count':3,\
'keys':[{'column':0,'order':'DESC'},{'column':1,'order':'ASC'}],'input':{'id':4,'op':'union','left':@t,'right':@u}}}]} \
| k,x~1,a~4,b~\\N,c~2,d~;k,y~1,p~4,a~\\N,r~3,s~ | 0|k,x~4,a~4,b~3,s~|
sorted | {'version':1,'output':['n'],'tables':[$k],'fragments':[\
{'id':0,'placement':'SINGLE','root':{'id':1,'op':'aggregate','step':'SINGLE','keys':[],'calls':[{'name':'count_all'}],\
'input':{'id':5,'op':'limit','step':'FINAL','input':{'id':2,'op':'remote','fragment':1}}}},\
{'id':1,'placement':'SOURCE','output':{'kind':'SINGLE'},'root':{'id':3,'op':'limit','step':'PARTIAL','count':3,\
'input':{'id':4,'op':'union','left':@t,'right':@u}}}]} \
| k,x~1,a~4,b~\\N,c~2,d~;k,y~1,p~4,a~\\N,r~3,s~ | 0|n~3~|";

/// What stands in the cases for longer texts: plans of groups and of a sum, and the sides of a union.
const LONG: [(&str, &str); 4] = [
    ("GROUPED", GROUPED),
    (
        "SUM",
        "{'version':1,'output':['s'],'tables':[$a],'fragments':[\
        {'id':0,'placement':'SINGLE','root':{'id':1,'op':'aggregate','step':'FINAL','input':\
        {'id':2,'op':'remote','fragment':1}}},\
        {'id':1,'placement':'SOURCE','output':{'kind':'SINGLE'},'root':{'id':3,'op':'aggregate','step':'PARTIAL',\
        'keys':[],'calls':[{'name':'sum','column':0}],'input':@a}}]}",
    ),
    (
        "VALUES",
        "{'id':2,'op':'values','types':['varchar','date'],'rows':[['é','2024-02-29']]}",
    ),
    (
        "NULLS",
        "{'id':3,'op':'values','types':['varchar','date'],'rows':[[null,null]]}",
    ),
];

#[test]
fn every_shape_gives_the_same(rt: HostRuntime) -> Result<(), Fail> {
    assert_eq!(rt; first_wrong_shape(&rt, &ReplayCourier::new())?, ("", ""));
    Ok(())
}

#[test]
fn couriers_change_no_answer(rt: HostRuntime) -> Result<(), Fail> {
    assert_eq!(rt; first_wrong_shape(&rt, &Thirds::new())?, ("", ""));
    Ok(())
}

#[test]
fn picks_change_no_sum(rt: HostRuntime) -> Result<(), Fail> {
    let plan = document_of(rt.alloc(), "SUM")?;
    let given = Given {
        words: "--plan p --tasks 3 --drivers 2 --split 1 --page 1 --replay 7 t=t",
        plan: plan.as_str(),
        rows: "a~1~2~3~4~5~6~7~",
        read: 0,
        write: 0,
    };
    let lists: [&[u32]; 4] = [&[], &[0, 0, 0, 0], &[9, 8, 7, 6, 5], &[1, 2, 0, 3, 3, 3]];
    for picks in lists {
        assert!(rt; gives(&rt, &given, picks, "s~28~")?);
    }
    Ok(())
}

#[test]
fn each_edge_asks_its_courier(rt: HostRuntime) -> Result<(), Fail> {
    let cells = cells_of(rt.alloc(), 4)?;
    let courier = Telling::new(rt.alloc(), cells.as_slice());
    let plan = document_of(rt.alloc(), GROUPED)?;
    let given = Given {
        words: "--plan p --tasks 2 --drivers 2 --replay 7 t=t",
        plan: plan.as_str(),
        rows: "g,v~x,1~y,2~x,3~z,4~",
        read: 0,
        write: 0,
    };
    let told = "0|g,n,s~x,2,4~y,1,2~z,1,4~|";
    assert!(rt; is_told_by(&rt, &courier, &NoMeet, &given, "any", told)?);
    assert!(rt; were_asked(cells.as_slice(), 3, 7));
    Ok(())
}

/// Groups over a hash exchange.
pub(crate) const GROUPED: &str = "\
{'version':1,'output':['g','n','s'],'tables':[$p],'fragments':[\
{'id':0,'placement':'SINGLE','root':{'id':1,'op':'remote','fragment':1}},\
{'id':1,'placement':'HASH','output':{'kind':'SINGLE'},'root':{'id':2,'op':'aggregate','step':'FINAL','input':\
{'id':3,'op':'remote','fragment':2}}},\
{'id':2,'placement':'SOURCE','output':{'kind':'HASH','columns':[0]},'root':{'id':4,'op':'aggregate','step':'PARTIAL',\
'keys':[0],'calls':[{'name':'count_all'},{'name':'sum','column':1}],'input':@p}}]}";

/// The values of a scan, over an edge, in order.
const SORTED: &str = "\
{'version':1,'output':['a'],'tables':[$a],'fragments':[\
{'id':0,'placement':'SINGLE','root':{'id':1,'op':'sort','keys':[{'column':0,'order':'ASC'}],'input':\
{'id':2,'op':'remote','fragment':1}}},\
{'id':1,'placement':'SOURCE','output':{'kind':'SINGLE'},'root':@a}]}";

/// Shapes in which each row is a page of its own.
const SINGLE_ROWS: &str = "\
--tasks 1 --drivers 1 --workers 1
--tasks 4 --workers 4
--tasks 2 --quantum 1
--tasks 3 --drivers 4 --quantum 7 --workers 8
--tasks 2 --drivers 1 --replay 7
--tasks 16 --drivers 2 --replay 99 --workers 1";

#[test]
fn a_thousand_values_pass_over_an_edge(rt: HostRuntime) -> Result<(), Fail> {
    let plan = document_of(rt.alloc(), SORTED)?;
    let rows = thousand_of(rt.alloc())?;
    for shape in SINGLE_ROWS.lines() {
        assert!(rt; all_pass(&rt, shape, plan.as_str(), rows.as_str())?);
    }
    Ok(())
}

/// The values 0 to 999, as a table of one column.
fn thousand_of(alloc: Global) -> Result<String, Fail> {
    let mut rows = String::from_str(alloc, "a~")?;
    for n in 0..1000u32 {
        let line = format!(in alloc; "{n}~")?;
        rows.push_str(line.as_str())?;
    }
    Ok(rows)
}

/// Whether all rows of a table pass in this shape.
fn all_pass<R>(rt: &R, shape: &str, plan: &str, rows: &str) -> Result<bool, Fail>
where
    R: Threads + Wait + Sync + RandomSource + AllocGlobal,
{
    let words = format!(in rt.alloc(); "--plan p --page 1 --split 10 {shape} t=t")?;
    let told = format!(in rt.alloc(); "0|{rows}|")?;
    let given = Given {
        words: words.as_str(),
        plan,
        rows,
        read: 0,
        write: 0,
    };
    let courier = ReplayCourier::new();
    is_told_by(rt, &courier, &NoMeet, &given, "sorted", told.as_str())
}

/// The first shape and case that a run answers otherwise, if any.
fn first_wrong_shape<R, C>(rt: &R, courier: &C) -> Result<(&'static str, &'static str), Fail>
where
    R: Threads + Wait + Sync + RandomSource + AllocGlobal,
    C: Courier + Send,
{
    for shape in SHAPES.lines() {
        for case in CASES.lines() {
            if !answers(rt, courier, shape, case)? {
                return Ok((shape, case));
            }
        }
    }
    Ok(("", ""))
}

/// Whether a run in this shape answers a case as the case says.
pub(crate) fn answers<R, C>(rt: &R, courier: &C, shape: &str, case: &str) -> Result<bool, Fail>
where
    R: Threads + Wait + Sync + RandomSource + AllocGlobal,
    C: Courier + Send,
{
    let (order, rest) = part(case);
    let (plan, rest) = part(rest);
    let (rows, told) = part(rest);
    let plan = document_of(rt.alloc(), plan)?;
    let words = format!(in rt.alloc(); "--plan p {shape} t=t u=u")?;
    let given = Given {
        words: words.as_str(),
        plan: plan.as_str(),
        rows,
        read: 0,
        write: 0,
    };
    is_told_by(rt, courier, &NoMeet, &given, order, told)
}

/// The document of a case.
pub(crate) fn document_of(alloc: Global, plan: &str) -> Result<String, Fail> {
    let mut document = String::from_str(alloc, plan)?;
    for (name, text) in LONG {
        document = document.as_str().replace(alloc, name, text)?;
    }
    plan_of(alloc, "", "", document.as_str())
}

/// Whether a run with this courier and this meet answers so.
pub(crate) fn is_told_by<R, C, M>(
    rt: &R,
    courier: &C,
    meet: &M,
    given: &Given<'_>,
    order: &str,
    told: &str,
) -> Result<bool, Fail>
where
    R: Threads + Wait + Sync + RandomSource + AllocGlobal,
    C: Courier + Send,
    M: Meet + Sync,
{
    let alloc = rt.alloc();
    let words = words_in(alloc, given.words)?;
    let mut files = files_of(alloc, given)?;
    let mut out = MemSink::new(alloc, 10_000, 64, Vec::new(alloc))?;
    let mut err = MemSink::new(alloc, 1000, 7, Vec::new(alloc))?;
    let words = words.as_slice();
    let status = run(
        rt, alloc, words, &mut files, &mut out, &mut err, courier, meet,
    );
    let (code, rest) = part(told);
    let (text, notes) = rest.split_once('|').unwrap_or((rest, ""));
    let is_code = code.parse::<u8>() == Ok(status.exit_code());
    Ok(is_code && is_text(err.written(), notes) && has_records(out.written(), order, text))
}

/// Whether the bytes are the header and the records of a text, in its order or in any.
pub(crate) fn has_records(written: &[u8], order: &str, text: &str) -> bool {
    if order == "sorted" {
        return is_text(written, text);
    }
    let Ok(written) = str::from_utf8(written) else {
        return false;
    };
    let header = text.split('~').next();
    written.len() == text.len()
        && written.split('\n').next() == header
        && text.split('~').all(|record| times(written, '\n', record) == times(text, '~', record))
}

/// How often a record stands in a text with this line feed.
fn times(text: &str, feed: char, record: &str) -> usize {
    text.split(feed).filter(|other| *other == record).count()
}
