//! The types of pipes: each line is the fragments of a document, and for each pipe of its layout what it takes, what comes
//! to its last step, what came to that of the pipe whose rows it reads, and what it gives.
use pipe_stages::{PipeTypes, types_of_pipes};
use plan_docs::{Plan, read_plan_doc};
use plan_layout::{Layout, Parallelism};
use serde_json::Value;
use sql_values::{Memory, SqlType};
use std::alloc::Global;
use std::test::Fail;

/// A document, with `'` for the quotation mark.
const DOCUMENT: &str = "{'output':['x'],'tables':[{'name':'t','columns':[\
    {'name':'a','type':'bigint'},{'name':'b','type':'varchar'}]}],'fragments':[FRAGMENTS]}";

const SCAN: &str = "'op':'scan','table':'t','columns':['a','b']}";

const VALUES: &str = "'op':'values','types':['date'],'rows':[]}";

/// Types are written by their first letters. Where pipes do not fit together, that is written as a word.
const CASES: &str = "\
{'placement':'SINGLE','root':{'id':1,SCAN} | bv/bv//bv\n\
{'placement':'SINGLE','root':{'id':1,'op':'project','columns':[{'col':1}],'input':{'id':2,SCAN}} | bv/bv//v\n\
{'placement':'SINGLE','root':{'id':1,'op':'limit','step':'SINGLE','count':1,'input':{'id':2,'op':'join','kind':'INNER','on':[[0,0]],'left':{'id':3,SCAN,'right':{'id':4,VALUES}}} \
| bv/bvd//bvd d/d//d\n\
{'placement':'SINGLE','root':{'id':1,'op':'sort','keys':[],'input':{'id':2,'op':'aggregate','step':'FINAL','input':{'id':3,'op':'remote','fragment':1}}}},\
{'placement':'SOURCE','output':{'kind':'SINGLE'},'root':{'id':4,'op':'aggregate','step':'PARTIAL','keys':[1],'calls':[{'name':'count_all'},{'name':'avg','column':0}],\
'input':{'id':5,'op':'project','columns':[{'col':0},{'col':1}],'input':{'id':6,SCAN}}} | vddb/vbb/bv/vbb /// bv/bv//vddb\n\
{'placement':'SINGLE','root':{'id':1,'op':'union','left':{'id':2,SCAN,'right':{'id':3,SCAN}} | bv/bv//bv bv/bv//bv bv/bv//bv\n\
{'placement':'SINGLE','root':{'id':1,'op':'union','left':{'id':2,SCAN,'right':{'id':3,VALUES}} | none\n\
{'placement':'SINGLE','root':{'id':1,'op':'remote','fragment':1}} | /// ///";

fn letter(kind: SqlType) -> &'static str {
    match kind {
        SqlType::Boolean => "l",
        SqlType::Bigint => "b",
        SqlType::Decimal { .. } | SqlType::Date => "d",
        SqlType::Varchar => "v",
    }
}

fn push_kinds(text: &mut String, kinds: &[SqlType]) -> Result<(), Memory> {
    for kind in kinds {
        text.push_str(letter(*kind))?;
    }
    Ok(())
}

fn push_pipe(text: &mut String, types: &PipeTypes) -> Result<(), Memory> {
    push_kinds(text, types.taken.as_slice())?;
    text.push_str("/")?;
    push_kinds(text, types.before.as_slice())?;
    text.push_str("/")?;
    push_kinds(text, types.halved.as_slice())?;
    text.push_str("/")?;
    push_kinds(text, types.given.as_slice())?;
    Ok(text.push_str(" ")?)
}

fn push_all(text: &mut String, table: &[PipeTypes]) -> Result<(), Memory> {
    for types in table {
        push_pipe(text, types)?;
    }
    Ok(())
}

fn plan_of(alloc: Global, fragments: &str) -> Result<Plan, Fail> {
    let document = DOCUMENT.replace(alloc, "FRAGMENTS", fragments)?;
    let document = document.as_str().replace(alloc, "SCAN", SCAN)?;
    let document = document.as_str().replace(alloc, "VALUES", VALUES)?;
    let text = document.as_str().replace(alloc, "'", "\"")?;
    let document = Value::from_str(alloc, text.as_str())?;
    Ok(read_plan_doc(alloc, &document)?)
}

/// The types of the pipes of the layout in two tasks with two drivers each.
fn types_text(alloc: Global, plan: &Plan) -> Result<String, Memory> {
    let parallelism = Parallelism {
        tasks: 2,
        drivers: 2,
    };
    let layout = Layout::of(alloc, plan, parallelism)?;
    let mut text = String::new(alloc);
    match types_of_pipes(alloc, layout.pipes.as_slice()) {
        Ok(table) => push_all(&mut text, table.as_slice())?,
        Err(_) => text.push_str("none")?,
    }
    Ok(text)
}

/// Whether the types are those that a line names.
fn is_told(alloc: Global, line: &str) -> Result<bool, Fail> {
    let (fragments, told) = line.rsplit_once('|').unwrap_or(("", ""));
    let plan = plan_of(alloc, fragments.trim())?;
    let text = types_text(alloc, &plan)?;
    Ok(text.as_str().trim() == told.trim())
}

#[test]
fn types_pipes(rt: HostRuntime) -> Result<(), Fail> {
    for line in CASES.lines() {
        if !is_told(rt.alloc(), line)? {
            assert_eq!(rt; line, "");
        }
    }
    Ok(())
}
