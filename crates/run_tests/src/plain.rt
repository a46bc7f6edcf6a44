//! Texts under given arguments and picks, and those of the plain evaluator.
ghost use Rattle.command_line.specs.Words.{HasBounds, asked};
ghost use Rattle.plan_docs.specs.Plans.{plan_view};
ghost use Rattle.plan_fit_laws.specs.Tables.{HaveColumns, WasRead};
ghost use Rattle.query_runner.specs.Shapes.{AreFew, IsShape};
ghost use Rattle.tree_evaluator.specs.Fits.{TablesFit};

use crate::answers::{Given, files_of, is_text, words_in};
use command_line::{Job, lend_words, read_words};
use csv_tables::text_of;
use plan_fit_laws::consistent_plans_fit;
use plan_link_laws::read_plans_are_consistent;
use plan_reader::{Plan, tree};
use plan_trees::types_of_tree;
use query_runner::{
    Shape, Status, files_of as files_of_tables, load_plan, load_tables, result_alone, shape_of,
};
use run_ports::{MemFiles, ReplayCourier};
use sql_values::Table;
use std::alloc::Global;
use std::random::RandomSource;
use std::sync::Wait;
use std::test::Fail;
use std::thread::Threads;
use tree_evaluator::evaluate;

/// Whether a run under these picks gives this text, and the plain evaluator too, or fails at the node that it names.
pub(crate) fn gives<R: Threads + Wait + Sync + RandomSource + AllocGlobal>(
    rt: &R,
    given: &Given<'_>,
    picks: &[u32],
    text: &str,
) -> Result<bool, Fail> {
    let words = words_in(rt.alloc(), given.words)?;
    let lent = lend_words(rt.alloc(), words.as_slice())?;
    match read_words(rt.alloc(), lent.as_slice()) {
        Ok(job) => job_gives(rt, &job, given, picks, text),
        Err(_) => Ok(false),
    }
}

/// The same with every table cut into splits and pages of these sizes, and quanta of them.
pub(crate) fn gives_cut<R: Threads + Wait + Sync + RandomSource + AllocGlobal>(
    rt: &R,
    plan: &str,
    rows: &str,
    size: (u32, u32, u32),
    picks: &[u32],
    text: &str,
) -> Result<bool, Fail> {
    let (split, page, quantum) = size;
    let words = format!(in rt.alloc();
        "--plan p --split {split} --page {page} --quantum {quantum} t=t u=u"
    )?;
    let given = Given {
        words: words.as_str(),
        plan,
        rows,
        read: 0,
        write: 0,
    };
    gives(rt, &given, picks, text)
}

fn job_gives<R: Threads + Wait + Sync + RandomSource + AllocGlobal>(
    rt: &R,
    job: &Job<'_>,
    given: &Given<'_>,
    picks: &[u32],
    text: &str,
) -> Result<bool, Fail>
    requires { HasBounds (asked job.now) }
{
    let mut files = files_of(rt.alloc(), given)?;
    match load_plan(rt.alloc(), job, &mut files) {
        Ok(plan) => plan_gives(rt, job, &plan, &mut files, picks, text),
        Err(_) => Ok(false),
    }
}

fn plan_gives<R: Threads + Wait + Sync + RandomSource + AllocGlobal>(
    rt: &R,
    job: &Job<'_>,
    plan: &Plan,
    files: &mut MemFiles,
    picks: &[u32],
    text: &str,
) -> Result<bool, Fail>
    requires bounds { HasBounds (asked job.now) }
    requires read { WasRead (plan_view plan.now) }
{
    let docs = plan.tables.as_slice();
    let Ok(found) = files_of_tables(rt.alloc(), job, docs) else {
        return Ok(false);
    };
    match load_tables(rt, rt.alloc(), job, docs, found.as_slice(), files) {
        Ok(tables) => tables_give(rt, &shape_of(job), plan, tables.as_slice(), picks, text),
        Err(_) => Ok(false),
    }
}

fn tables_give<R: Threads + Wait + Sync + RandomSource + AllocGlobal>(
    rt: &R,
    shape: &Shape,
    plan: &Plan,
    tables: &[Table],
    picks: &[u32],
    text: &str,
) -> Result<bool, Fail>
    requires shape { IsShape shape.now }
    requires read { WasRead (plan_view plan.now) }
    requires columns { HaveColumns (plan_view plan.now).tables tables.now }
    requires fit { TablesFit tables.now }
    requires few { AreFew tables.now }
{
    match result_alone(
        rt,
        rt.alloc(),
        shape,
        plan,
        tables,
        &ReplayCourier::new(),
        picks,
    ) {
        Ok(done) => Ok(
            are_text(rt.alloc(), done.text.chunks(), text)?
                && evaluates_to(rt.alloc(), plan, tables, text)?,
        ),
        Err(Status::ExprFailed { node, .. }) => {
            Ok(format!(in rt.alloc(); "node {node}")?.as_str() == text)
        }
        Err(_) => Ok(false),
    }
}

/// Whether chunks, one behind the other, are this text.
fn are_text(alloc: Global, chunks: &[Vec<u8>], text: &str) -> Result<bool, Fail> {
    let mut bytes = Vec::new(alloc);
    for chunk in chunks {
        bytes.extend_from_slice(chunk.as_slice())?;
    }
    Ok(is_text(bytes.as_slice(), text))
}

/// Whether the plain evaluator gives this text.
fn evaluates_to(alloc: Global, plan: &Plan, tables: &[Table], text: &str) -> Result<bool, Fail>
    requires read { WasRead (plan_view plan.now) }
    requires columns { HaveColumns (plan_view plan.now).tables tables.now }
    requires fit { TablesFit tables.now }
{
    let tree = tree(alloc, plan)?;
    read_plans_are_consistent(plan);
    consistent_plans_fit(plan);
    let rows = evaluate(alloc, &tree, tables)?;
    let types = types_of_tree(alloc, &tree)?;
    let bytes = text_of(alloc, plan.output.as_slice(), types.as_slice(), &rows)?;
    Ok(is_text(bytes.as_slice(), text))
}
