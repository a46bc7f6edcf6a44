ghost use Rattle.std.specs.Prelude.{◌≡◌, ◌⊎◌, ◌≤◌, ℕ, [], map, None, Some, Ok, Err, IfOk, IfErr, MatchResult};
ghost use Rattle.plan_docs.specs.Plans.{plan_view};
ghost use Rattle.command_line.specs.Words.{HasBounds, Job as Asked, asked, job_of, no_job};
ghost use Rattle.task_executor.specs.Tables.{HaveColumns, WasRead};
ghost use Rattle.task_executor.specs.Shapes.{IsShape};
ghost use Rattle.tree_evaluator.specs.Fits.{TablesFit};
ghost use Rattle.query_runner.specs.Answers.{Answered, AreCountsAsked, IsComplete, IsResult, IsTextOf, JobAnswered, PlanAnswered, Told, ToldAsked, demo_of, heard_on, seen_for, seen_of, status_of, status_of_words};
ghost use Rattle.query_runner.specs.Lines.{message};
ghost use Rattle.query_runner.specs.Jobs.{AreTablesAsked, Contents};
ghost use Rattle.tree_evaluator.specs.Stops.{rows_of_table};
ghost use Rattle.query_runner.specs.Demos.{demo_contents};

use crate::counts::tell_counts;
use crate::documents::Documents;
use crate::lines::{tell, tell_first};
use crate::load::{files_of, load_plan, load_tables};
use crate::results::{PlanResult, result_of};
use crate::status::Status;
use crate::writing::write_result;
use command_line::{Job, WordsFault, lend_words, read_words};
use plan_reader::Plan;
use run_ports::{Courier, Files, Meet, Sink};
use sql_values::{Table, Text};
use std::alloc::Global;
use std::random::RandomSource;
use std::sync::Wait;
use std::thread::Threads;
use table_parts::TextChunks;
use task_executor::{FilterPassed, PassedList, Shape};

/// Runs the plan that the arguments name over the tables that they name, and writes the result's text
/// to `out`. For each answer but Ok it writes one line to `err`, and for Ok the counts of filters where they are asked for.
#[tactic(auto, using(crate::proofs::CompletenessLemmas::complete))]
pub fn run<R, F, O, E, C, M>(
    rt: &R,
    alloc: Global,
    words: &[Text],
    files: &mut F,
    out: &mut O,
    err: &mut E,
    courier: &C,
    meet: &M,
) -> Status
where
    R: Threads + Wait + Sync + RandomSource + AllocGlobal,
    F: Files,
    O: Sink,
    E: Sink,
    C: Courier + Send,
    M: Meet + Sync,
    ensures bad_words { result ≡ Status.BadWords → job_of words.now ≡ None }
    ensures no_words { job_of words.now ≡ None → (result ≡ Status.BadWords) ⊎ (result ≡ Status.Memory) }
    ensures no_words_do_nothing { job_of words.now ≡ None
        → (files.new ≡ files.old) × (out.new ≡ out.old) }
    ensures answer { Answered (job_of words.now)
        (seen_of F.Files O.Sink files.old files.new out.old out.new)
        (heard_on E.Sink err.old err.new) result }
    ensures complete { IsComplete (job_of words.now)
        (seen_of F.Files O.Sink files.old files.new out.old out.new) result }
    ensures demo_reads_no_file { (number : ℕ)
        → demo_of (job_of words.now) ≡ Some number → files.new ≡ files.old }
{
    let Ok(lent) = lend_words(alloc, words) else {
        return refuse(alloc, err, WordsFault::Memory);
    };
    match read_words(alloc, lent.as_slice()) {
        Ok(job) => run_source(rt, alloc, &job, files, out, err, courier, meet),
        Err(fault) => refuse(alloc, err, fault),
    }
}

/// Tells why the arguments were not read.
fn refuse<E: Sink>(alloc: Global, err: &mut E, fault: WordsFault) -> Status
    ensures status { result ≡ status_of_words fault }
    ensures told { Told (heard_on E.Sink err.old err.new) (message no_job [] result) result }
{
    let status = match fault {
        WordsFault::Bad => Status::BadWords,
        WordsFault::Memory => Status::Memory,
    };
    tell_first(alloc, err, &status);
    status
}

/// Does what the arguments ask for, over the files or over the documents of a demo.
fn run_source<R, F, O, E, C, M>(
    rt: &R,
    alloc: Global,
    job: &Job<'_>,
    files: &mut F,
    out: &mut O,
    err: &mut E,
    courier: &C,
    meet: &M,
) -> Status
where
    R: Threads + Wait + Sync + RandomSource + AllocGlobal,
    F: Files,
    O: Sink,
    E: Sink,
    C: Courier + Send,
    M: Meet + Sync,
    requires { HasBounds (asked job.now) }
    ensures answer { JobAnswered (asked job.now)
        (seen_for (asked job.now).demo (seen_of F.Files O.Sink files.old files.new out.old out.new))
        (heard_on E.Sink err.old err.new) result }
    ensures demo_reads_no_file { (number : ℕ)
        → (asked job.now).demo ≡ Some number → files.new ≡ files.old }
{
    match job.demo() {
        None => run_job(rt, alloc, job, files, out, err, courier, meet),
        Some(number) => run_demo(rt, alloc, job, number, out, err, courier, meet),
    }
}

/// Does what the arguments ask for over the documents of the demo of a number, which no read takes from the files.
fn run_demo<R, O, E, C, M>(
    rt: &R,
    alloc: Global,
    job: &Job<'_>,
    number: u64,
    out: &mut O,
    err: &mut E,
    courier: &C,
    meet: &M,
) -> Status
where
    R: Threads + Wait + Sync + RandomSource + AllocGlobal,
    O: Sink,
    E: Sink,
    C: Courier + Send,
    M: Meet + Sync,
    requires { HasBounds (asked job.now) }
    ensures answer { JobAnswered (asked job.now) (record {
      held = Some (demo_contents number);
      read_faults_before = 0;
      read_faults_after = 0;
      refused = None;
      written_before = O.written out.old;
      written_after = O.written out.new;
      write_faults_before = O.faults out.old;
      write_faults_after = O.faults out.new;
    }) (heard_on E.Sink err.old err.new) result }
{
    let Ok(mut documents) = Documents::of(alloc, number) else {
        tell(err, job, &[], &Status::Memory);
        return Status::Memory;
    };
    run_job(rt, alloc, job, &mut documents, out, err, courier, meet)
}

/// Does what the arguments ask for, over some files.
fn run_job<R, F, O, E, C, M>(
    rt: &R,
    alloc: Global,
    job: &Job<'_>,
    files: &mut F,
    out: &mut O,
    err: &mut E,
    courier: &C,
    meet: &M,
) -> Status
where
    R: Threads + Wait + Sync + RandomSource + AllocGlobal,
    F: Files,
    O: Sink,
    E: Sink,
    C: Courier + Send,
    M: Meet + Sync,
    requires { HasBounds (asked job.now) }
    ensures answer { JobAnswered (asked job.now)
        (seen_of F.Files O.Sink files.old files.new out.old out.new)
        (heard_on E.Sink err.old err.new) result }
{
    let plan = match load_plan(alloc, job, files) {
        Ok(plan) => plan,
        Err(status) => {
            tell(err, job, &[], &status);
            return status;
        }
    };
    match run_plan(rt, alloc, job, &plan, files, out, courier, meet) {
        Ok(passed) => {
            tell_asked(err, job, passed.as_slice());
            Status::Ok
        }
        Err(status) => {
            tell(err, job, plan.tables.as_slice(), &status);
            status
        }
    }
}

/// Tells the counts of filters, where the arguments ask for them.
fn tell_asked<E: Sink>(err: &mut E, job: &Job<'_>, passed: &[FilterPassed])
    ensures { ToldAsked (asked job.now).counts (heard_on E.Sink err.old err.new) passed.now }
{
    if job.counts {
        tell_counts(err, passed);
    }
}

/// Runs the plan over its tables, and answers how many rows passed its filters.
fn run_plan<R, F, O, C, M>(
    rt: &R,
    alloc: Global,
    job: &Job<'_>,
    plan: &Plan,
    files: &mut F,
    out: &mut O,
    courier: &C,
    meet: &M,
) -> Result<PassedList, Status>
where
    R: Threads + Wait + Sync + RandomSource + AllocGlobal,
    F: Files,
    O: Sink,
    C: Courier + Send,
    M: Meet + Sync,
    requires bounds { HasBounds (asked job.now) }
    requires read { WasRead (plan_view plan.now) }
    ensures same { F.holds files.new ≡ F.holds files.old }
    ensures later { F.faults files.old ≤ F.faults files.new }
    ensures answer { (held : Contents) (before : ℕ)
        → F.holds files.old ≡ held → before ≤ F.faults files.old
        → PlanAnswered (asked job.now) (plan_view plan.now) (record {
          held = held;
          read_faults_before = before;
          read_faults_after = F.faults files.new;
          refused = F.refused files.new;
          written_before = O.written out.old;
          written_after = O.written out.new;
          write_faults_before = O.faults out.old;
          write_faults_after = O.faults out.new;
        }) (status_of result) }
    ensures counts { IfOk result (λ passed. (held : Contents) → F.holds files.old ≡ held
        → AreCountsAsked held (asked job.now) (plan_view plan.now) passed) }
    ensures refuses { IfErr result (λ status. status ≡ Status.Ok → ⊥) }
{
    let found = files_of(alloc, job, plan.tables.as_slice())?;
    let tables = load_tables(
        rt,
        alloc,
        job,
        plan.tables.as_slice(),
        found.as_slice(),
        files,
    )?;
    let PlanResult { text, passed } = result_of(
        rt,
        alloc,
        &shape_of(job),
        plan,
        tables.as_slice(),
        courier,
        meet,
    )?;
    results_are_typed(plan, tables.as_slice(), &text);
    write_result(out, &text)?;
    Ok(passed)
}

/// The law that a text which the plan allows over tables that were read has rows of the types of its columns.
fn results_are_typed(plan: &Plan, tables: &[Table], text: &TextChunks)
    requires read { WasRead (plan_view plan.now) }
    requires columns { HaveColumns (plan_view plan.now).tables tables.now }
    requires fit { TablesFit tables.now }
    ensures { (held : Contents) (job : Asked)
        → AreTablesAsked held job (plan_view plan.now).tables (map rows_of_table tables.now)
        → IsTextOf (plan_view plan.now) (map rows_of_table tables.now) text.now
        → IsResult held job (plan_view plan.now) text.now }
{}

/// How a job cuts its tables and its work.
pub fn shape_of(job: &Job<'_>) -> Shape
    requires { HasBounds (asked job.now) }
    ensures { IsShape result }
{
    Shape {
        tasks: job.tasks,
        drivers: job.drivers,
        split: job.split,
        page: job.page,
        quantum: job.quantum,
        replay: job.replay,
        workers: job.workers,
    }
}
