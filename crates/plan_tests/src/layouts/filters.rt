//! The dynamic filters of scans: each line is tasks and drivers, the fragments of a document, and for each pipe of the layout
//! its scan and that scan's filters.
use super::{parallelism_of, plan_of};
use crate::lines::{Case, case_of};
use plan_docs::Plan;
use plan_layout::{Layout, Parallelism, Pipe, PlacedFilter, scan_filters};
use std::alloc::Global;
use std::test::Fail;

/// A filter is written as its id, the pipe that builds it and its place there, and the column, with a `!` where the scan
/// waits. A pipe that does not scan is a `-`.
const FILTERS: &str = "\
1 1 | {'placement':'SINGLE','root':{'id':1,'op':'join','kind':'INNER','on':[[0,0]],'left':{'id':2,SCAN,'right':{'id':3,SCAN,\
'filters':[{'id':7,'key':0,'scan':2,'column':0,'wait':true}]}} | 2 7@1.0:0!; 3\n\
1 1 | {'placement':'SINGLE','root':{'id':1,'op':'join','kind':'INNER','on':[[0,0]],'left':{'id':2,SCAN,'right':{'id':3,SCAN,\
'filters':[{'id':9,'key':0,'scan':2,'column':0,'wait':false},{'id':4,'key':0,'scan':2,'column':0,'wait':true}]}} | 2 4@1.1:0! 9@1.0:0; 3\n\
1 1 | {'placement':'SINGLE','root':{'id':1,'op':'join','kind':'INNER','on':[[0,0]],'left':{'id':2,'op':'join','kind':'INNER','on':[[0,0]],\
'left':{'id':3,SCAN,'right':{'id':4,SCAN,'filters':[{'id':9,'key':0,'scan':3,'column':0,'wait':true}]},'right':{'id':5,SCAN,\
'filters':[{'id':4,'key':0,'scan':3,'column':0,'wait':true}]}} | 3 4@2.0:0! 9@1.0:0!; 4; 5\n\
2 2 | {'placement':'SINGLE','root':{'id':1,'op':'join','kind':'INNER','on':[[0,0]],'left':{'id':2,'op':'remote','fragment':1},\
'right':{'id':3,'op':'remote','fragment':2},'filters':[{'id':8,'key':0,'scan':4,'column':0,'wait':false}]}},\
{'placement':'SOURCE','output':{'kind':'SINGLE'},'root':{'id':4,SCAN},{'placement':'SOURCE','output':{'kind':'SINGLE'},'root':{'id':5,SCAN} \
| -; -; -; -; 4 8@1.0:0; 5";

fn push_filter(alloc: Global, text: &mut String, placed: PlacedFilter) -> Result<(), Fail> {
    let filter = placed.filter;
    let (id, column) = (filter.id, filter.column);
    let (pipe, place) = (placed.pipe, placed.place);
    let one = format!(in alloc; " {id}@{pipe}.{place}:{column}")?;
    text.push_str(one.as_str())?;
    Ok(text.push_str(if filter.wait { "!" } else { "" })?)
}

fn push_scan(alloc: Global, text: &mut String, pipe: &Pipe<'_>) -> Result<(), Fail> {
    let Some(scan) = pipe.scan else {
        return Ok(text.push_str("-")?);
    };
    let one = format!(in alloc; "{scan}")?;
    Ok(text.push_str(one.as_str())?)
}

fn push_filters(
    alloc: Global,
    text: &mut String,
    layout: &[Pipe<'_>],
    pipe: &Pipe<'_>,
) -> Result<(), Fail> {
    let filters = scan_filters(alloc, layout, pipe)?;
    for filter in filters.as_slice() {
        push_filter(alloc, text, *filter)?;
    }
    Ok(())
}

/// The pipes, parted by a semicolon.
fn text_of(alloc: Global, layout: &[Pipe<'_>]) -> Result<String, Fail> {
    let mut text = String::new(alloc);
    for pipe in layout {
        if !text.is_empty() {
            text.push_str("; ")?;
        }
        push_scan(alloc, &mut text, pipe)?;
        push_filters(alloc, &mut text, layout, pipe)?;
    }
    Ok(text)
}

fn filters_text(alloc: Global, plan: &Plan, parallelism: Parallelism) -> Result<String, Fail> {
    let layout = Layout::of(alloc, plan, parallelism)?;
    text_of(alloc, layout.pipes.as_slice())
}

fn is_told(alloc: Global, case: &Case<'_>) -> Result<bool, Fail> {
    let plan = plan_of(alloc, case.to)?;
    let text = filters_text(alloc, &plan, parallelism_of(case.from))?;
    Ok(text.as_str() == case.told)
}

fn is_case(alloc: Global, line: &str) -> Result<bool, Fail> {
    match case_of(line) {
        Some(case) => is_told(alloc, &case),
        None => Ok(false),
    }
}

/// The first line that does not say what is reported.
fn untold(alloc: Global, lines: &'static str) -> Result<&'static str, Fail> {
    for line in lines.lines() {
        if !is_case(alloc, line)? {
            return Ok(line);
        }
    }
    Ok("")
}

#[test]
fn gives_filters_to_scans(rt: HostRuntime) -> Result<(), Fail> {
    assert_eq!(rt; untold(rt.alloc(), FILTERS)?, "");
    Ok(())
}
