//! The layouts of plans: each line is tasks and drivers, the fragments of a document, and the pipes in their order.
mod cases;
mod filters;

use crate::lines::{Case, case_of, unquoted};
use cases::{DOCUMENT, LAYOUTS, NUMBERED, SCAN, VALUES};
use plan_docs::{Output, Plan, read_plan_doc};
use plan_layout::{Layout, Parallelism, Pipe, PipeSource, PipeStep, PipeTarget};
use serde_json::Value;
use std::alloc::Global;
use std::test::Fail;

fn source_text(alloc: Global, source: PipeSource<'_>) -> Result<String, Fail> {
    match source {
        PipeSource::Table(table, _, _) => Ok(format!(in alloc; "t{table}")?),
        PipeSource::Rows(_, _) => Ok(format!(in alloc; "rows")?),
        PipeSource::Sides => Ok(format!(in alloc; "sides")?),
        PipeSource::Fragment(number) => Ok(format!(in alloc; "f{number}")?),
        PipeSource::Edge(pipe, numbers) => {
            let (first, stride) = (numbers.first, numbers.stride);
            Ok(format!(in alloc; "e{pipe}:{first}+{stride}")?)
        }
    }
}

fn step_text(alloc: Global, step: PipeStep<'_>) -> Result<String, Fail> {
    match step {
        PipeStep::Filter(id, _) => Ok(format!(in alloc; "filter{id} ")?),
        PipeStep::Project(id, _) => Ok(format!(in alloc; "project{id} ")?),
        PipeStep::Probe(id, _, _, built) => Ok(format!(in alloc; "probe{id}@{built} ")?),
        PipeStep::Aggregate(id, _, _) => Ok(format!(in alloc; "group{id} ")?),
        PipeStep::Partial(id, _, _) => Ok(format!(in alloc; "partial{id} ")?),
        PipeStep::Final(id, _, _) => Ok(format!(in alloc; "final{id} ")?),
        PipeStep::Sort(id, _) => Ok(format!(in alloc; "sort{id} ")?),
        PipeStep::TopN(id, count, _) => Ok(format!(in alloc; "topn{id}:{count} ")?),
        PipeStep::Limit(id, count) => Ok(format!(in alloc; "limit{id}:{count} ")?),
    }
}

fn output_name(output: &Output) -> &'static str {
    match output {
        Output::Result => "none",
        Output::Single => "one",
        Output::Broadcast => "all",
        Output::Hash(_) => "hash",
    }
}

fn target_text(alloc: Global, target: PipeTarget<'_>) -> Result<String, Fail> {
    match target {
        PipeTarget::Result => Ok(format!(in alloc; "> result")?),
        PipeTarget::Cell(_) => Ok(format!(in alloc; "> cell")?),
        PipeTarget::Side(pipe) => Ok(format!(in alloc; "> side{pipe}")?),
        PipeTarget::Takers(pipe) => Ok(format!(in alloc; "> takers{pipe}")?),
        PipeTarget::Readers(output, pipe) => {
            let name = output_name(output);
            Ok(format!(in alloc; "> {name}{pipe}")?)
        }
    }
}

fn head_text(alloc: Global, pipe: &Pipe<'_>) -> Result<String, Fail> {
    let (fragment, tasks, drivers) = (pipe.fragment, pipe.tasks, pipe.drivers);
    let (first, stride) = (pipe.numbers.first, pipe.numbers.stride);
    Ok(format!(in alloc; "f{fragment} {tasks}x{drivers} {first}+{stride} ")?)
}

fn push_source(alloc: Global, text: &mut String, pipe: &Pipe<'_>) -> Result<(), Fail> {
    let source = source_text(alloc, pipe.source)?;
    text.push_str(source.as_str())?;
    Ok(text.push_str(" ")?)
}

fn push_step(alloc: Global, text: &mut String, step: PipeStep<'_>) -> Result<(), Fail> {
    let one = step_text(alloc, step)?;
    Ok(text.push_str(one.as_str())?)
}

fn push_target(alloc: Global, text: &mut String, pipe: &Pipe<'_>) -> Result<(), Fail> {
    let target = target_text(alloc, pipe.target)?;
    Ok(text.push_str(target.as_str())?)
}

fn push_head(alloc: Global, text: &mut String, pipe: &Pipe<'_>) -> Result<(), Fail> {
    let head = head_text(alloc, pipe)?;
    Ok(text.push_str(head.as_str())?)
}

fn push_pipe(alloc: Global, text: &mut String, pipe: &Pipe<'_>) -> Result<(), Fail> {
    push_head(alloc, text, pipe)?;
    push_source(alloc, text, pipe)?;
    for step in pipe.steps.as_slice() {
        push_step(alloc, text, *step)?;
    }
    push_target(alloc, text, pipe)
}

/// The pipes, parted by a semicolon.
fn text_of(alloc: Global, pipes: &[Pipe<'_>]) -> Result<String, Fail> {
    let mut text = String::new(alloc);
    for pipe in pipes {
        if !text.is_empty() {
            text.push_str("; ")?;
        }
        push_pipe(alloc, &mut text, pipe)?;
    }
    Ok(text)
}

/// Two numbers, or none of either.
fn parallelism_of(words: &str) -> Parallelism {
    let (tasks, drivers) = words.split_once(' ').unwrap_or(("0", "0"));
    Parallelism {
        tasks: tasks.parse::<u32>().unwrap_or(0),
        drivers: drivers.parse::<u32>().unwrap_or(0),
    }
}

/// The document with these fragments.
fn whole(alloc: Global, fragments: &str) -> Result<String, Fail> {
    let document = DOCUMENT.replace(alloc, "FRAGMENTS", fragments)?;
    let document = document.as_str().replace(alloc, "SCAN", SCAN)?;
    Ok(document.as_str().replace(alloc, "VALUES", VALUES)?)
}

fn plan_of(alloc: Global, fragments: &str) -> Result<Plan, Fail> {
    let text = whole(alloc, fragments)?;
    let text = unquoted(alloc, text.as_str())?;
    let document = Value::from_str(alloc, text.as_str())?;
    Ok(read_plan_doc(alloc, &document)?)
}

fn layout_text(alloc: Global, plan: &Plan, parallelism: Parallelism) -> Result<String, Fail> {
    let layout = Layout::of(alloc, plan, parallelism)?;
    text_of(alloc, layout.pipes.as_slice())
}

fn is_told(alloc: Global, case: &Case<'_>) -> Result<bool, Fail> {
    let plan = plan_of(alloc, case.to)?;
    let text = layout_text(alloc, &plan, parallelism_of(case.from))?;
    Ok(text.as_str() == case.told)
}

fn is_case(alloc: Global, line: &str) -> Result<bool, Fail> {
    match case_of(line) {
        Some(case) => is_told(alloc, &case),
        None => Ok(false),
    }
}

/// The first line that does not say what is reported.
fn untold(alloc: Global, lines: &'static str) -> Result<&'static str, Fail> {
    for line in lines.lines() {
        if !is_case(alloc, line)? {
            return Ok(line);
        }
    }
    Ok("")
}

#[test]
fn lays_plans_out(rt: HostRuntime) -> Result<(), Fail> {
    assert_eq!(rt; untold(rt.alloc(), LAYOUTS)?, "");
    Ok(())
}

fn push_number(
    alloc: Global,
    text: &mut String,
    pipe: &Pipe<'_>,
    task: u32,
    driver: u32,
) -> Result<(), Fail> {
    let number = pipe.number(task, driver)?;
    let one = format!(in alloc; "{number} ")?;
    Ok(text.push_str(one.as_str())?)
}

/// The numbers of two drivers in each task.
fn push_numbers(alloc: Global, text: &mut String, pipe: &Pipe<'_>) -> Result<(), Fail> {
    for task in 0..pipe.tasks {
        push_number(alloc, text, pipe, task, 0)?;
        push_number(alloc, text, pipe, task, 1)?;
    }
    Ok(())
}

/// The numbers of the drivers of the first pipe and of the last.
fn numbers_text(alloc: Global, plan: &Plan) -> Result<String, Fail> {
    let layout = Layout::of(alloc, plan, parallelism_of("2 2"))?;
    let mut text = String::new(alloc);
    if let (Some(first), Some(last)) = (layout.pipes.first(), layout.pipes.last()) {
        push_numbers(alloc, &mut text, first)?;
        push_numbers(alloc, &mut text, last)?;
    }
    Ok(text)
}

#[test]
fn numbers_drivers_task_by_task(rt: HostRuntime) -> Result<(), Fail> {
    let plan = plan_of(rt.alloc(), NUMBERED)?;
    let text = numbers_text(rt.alloc(), &plan)?;
    assert_eq!(rt; text.as_str(), "0 1 6 7 16 17 18 19 ");
    Ok(())
}
