//! The text of what a plan gives over its tables: on the workers of a shape, or on one thread under picks.
ghost use Rattle.std.specs.Prelude.{◌≡◌, map, IfOk, MatchResult};
ghost use Rattle.csv_tables.specs.ResultTexts.{result_text};
ghost use Rattle.plan_docs.specs.Plans.{plan_view};
ghost use Rattle.task_executor.specs.Tables.{HaveColumns, WasRead};
ghost use Rattle.plan_reader.specs.Trees.{tree_of};
ghost use Rattle.plan_trees.specs.Allowed.{Allows};
ghost use Rattle.task_executor.specs.Nets.{FailsFor};
ghost use Rattle.task_executor.specs.Passed.{AreCountsIn};
ghost use Rattle.task_executor.specs.Shapes.{AreFew, IsShape};
ghost use Rattle.tree_evaluator.specs.Fits.{TablesFit};
ghost use Rattle.query_runner.specs.Answers.{IsTextOf, RunFails};
ghost use Rattle.tree_evaluator.specs.Stops.{rows_of_table};

use crate::status::Status;
use plan_link_laws::read_plans_are_consistent;
use plan_reader::{Plan, tree};
use plan_trees::types_of_tree;
use run_ports::{Courier, Meet};
use sql_values::{Memory, SqlType, Table, Text};
use std::alloc::Global;
use std::marker::PhantomData;
use std::random::RandomSource;
use std::sync::Wait;
use std::thread::Threads;
use table_parts::{TextChunks, text_in_parts};
use task_executor::{
    Net, PassedList, ResultPages, RunDone, RunFault, Shape, Wiring, counts_are_allowed, run_alone,
    run_workers,
};

/// What a plan gave.
#[derive(Drop)]
pub struct PlanResult {
    pub text: TextChunks,
    /// How many rows passed each dynamic filter that is waited for, by ascending id.
    pub passed: PassedList,
}

/// The text of what the plan gives over its tables, on the workers of the shape.
pub fn result_of<R, C, M>(
    rt: &R,
    alloc: Global,
    shape: &Shape,
    plan: &Plan,
    tables: &[Table],
    courier: &C,
    meet: &M,
) -> Result<PlanResult, Status>
where
    R: Threads + Wait + Sync + RandomSource + AllocGlobal,
    C: Courier + Send,
    M: Meet + Sync,
    requires shape { IsShape shape.now }
    requires read { WasRead (plan_view plan.now) }
    requires columns { HaveColumns (plan_view plan.now).tables tables.now }
    requires fit { TablesFit tables.now }
    requires few { AreFew tables.now }
    ensures { MatchResult result
        (λ done. IsTextOf (plan_view plan.now) (map rows_of_table tables.now) done.text
        × AreCountsIn (plan_view plan.now) (map rows_of_table tables.now) done.passed)
        (RunFails (plan_view plan.now) (map rows_of_table tables.now)) }
{
    let done = run_of(rt, alloc, shape, plan, tables, courier, meet);
    text_of_run(rt, alloc, shape.workers, plan, tables, done)
}

/// The text of what the plan gives over its tables, on this thread, under these picks of drivers.
pub fn result_alone<R, C>(
    rt: &R,
    alloc: Global,
    shape: &Shape,
    plan: &Plan,
    tables: &[Table],
    courier: &C,
    picks: &[u32],
) -> Result<PlanResult, Status>
where
    R: Threads + Wait + Sync + RandomSource + AllocGlobal,
    C: Courier,
    requires shape { IsShape shape.now }
    requires read { WasRead (plan_view plan.now) }
    requires columns { HaveColumns (plan_view plan.now).tables tables.now }
    requires fit { TablesFit tables.now }
    requires few { AreFew tables.now }
    ensures { MatchResult result
        (λ done. IsTextOf (plan_view plan.now) (map rows_of_table tables.now) done.text
        × AreCountsIn (plan_view plan.now) (map rows_of_table tables.now) done.passed)
        (RunFails (plan_view plan.now) (map rows_of_table tables.now)) }
{
    let done = run_alone_of(rt, alloc, shape, plan, tables, courier, picks);
    text_of_run(rt, alloc, 1, plan, tables, done)
}

/// The text of what a run gave, printed by at most so many workers, with its counts.
fn text_of_run<R: Threads + Sync>(
    rt: &R,
    alloc: Global,
    workers: u32,
    plan: &Plan,
    tables: &[Table],
    done: Result<RunDone, RunFault>,
) -> Result<PlanResult, Status>
    requires read { WasRead (plan_view plan.now) }
    requires columns { HaveColumns (plan_view plan.now).tables tables.now }
    requires fit { TablesFit tables.now }
    requires done { MatchResult done
        (λ done. Allows (tree_of (plan_view plan.now)) (map rows_of_table tables.now) done.rows
        × AreCountsIn (plan_view plan.now) (map rows_of_table tables.now) done.passed)
        (FailsFor (tree_of (plan_view plan.now)) (map rows_of_table tables.now)) }
    ensures { MatchResult result
        (λ done. IsTextOf (plan_view plan.now) (map rows_of_table tables.now) done.text
        × AreCountsIn (plan_view plan.now) (map rows_of_table tables.now) done.passed)
        (RunFails (plan_view plan.now) (map rows_of_table tables.now)) }
{
    match done {
        Ok(done) => {
            let types = types_of_tree(alloc, &tree(alloc, plan)?)?;
            let names = plan.output.as_slice();
            let text = text_of_rows(rt, alloc, workers, names, types.as_slice(), &done.rows)?;
            Ok(PlanResult {
                text,
                passed: done.passed,
            })
        }
        Err(RunFault::ExprFailed { node, kind }) => Err(Status::ExprFailed { node, kind }),
        Err(RunFault::Memory) => Err(Status::Memory),
    }
}

/// The text of rows, printed by at most so many workers.
fn text_of_rows<R: Threads + Sync>(
    rt: &R,
    alloc: Global,
    workers: u32,
    names: &[Text],
    types: &[SqlType],
    rows: &ResultPages,
) -> Result<TextChunks, Memory>
    ensures { IfOk result (λ text. text ≡ result_text names.now types.now rows.now) }
{
    text_in_parts(rt, alloc, workers, names, types, rows.pages())
}

/// What the drivers of the plan give over its tables, shared by the workers of the shape.
fn run_of<R, C, M>(
    rt: &R,
    alloc: Global,
    shape: &Shape,
    plan: &Plan,
    tables: &[Table],
    courier: &C,
    meet: &M,
) -> Result<RunDone, RunFault>
where
    R: Threads + Wait + Sync + RandomSource + AllocGlobal,
    C: Courier + Send,
    M: Meet + Sync,
    requires shape { IsShape shape.now }
    requires read { WasRead (plan_view plan.now) }
    requires columns { HaveColumns (plan_view plan.now).tables tables.now }
    requires fit { TablesFit tables.now }
    requires few { AreFew tables.now }
    ensures { MatchResult result
        (λ done. Allows (tree_of (plan_view plan.now)) (map rows_of_table tables.now) done.rows
        × AreCountsIn (plan_view plan.now) (map rows_of_table tables.now) done.passed)
        (FailsFor (tree_of (plan_view plan.now)) (map rows_of_table tables.now)) }
{
    read_plans_are_consistent(plan);
    counts_are_allowed(plan, PhantomData);
    let Ok(mut wiring) = Wiring::build(alloc, plan, tables, shape) else {
        return Err(RunFault::Memory);
    };
    let Ok(net) = Net::build(alloc, plan, tables, &mut wiring, shape, courier) else {
        return Err(RunFault::Memory);
    };
    run_workers(rt, alloc, net, shape, meet)
}

/// What the drivers of the plan give over its tables, on this thread.
fn run_alone_of<R, C>(
    rt: &R,
    alloc: Global,
    shape: &Shape,
    plan: &Plan,
    tables: &[Table],
    courier: &C,
    picks: &[u32],
) -> Result<RunDone, RunFault>
where
    R: Threads + Wait + Sync + RandomSource + AllocGlobal,
    C: Courier,
    requires shape { IsShape shape.now }
    requires read { WasRead (plan_view plan.now) }
    requires columns { HaveColumns (plan_view plan.now).tables tables.now }
    requires fit { TablesFit tables.now }
    requires few { AreFew tables.now }
    ensures { MatchResult result
        (λ done. Allows (tree_of (plan_view plan.now)) (map rows_of_table tables.now) done.rows
        × AreCountsIn (plan_view plan.now) (map rows_of_table tables.now) done.passed)
        (FailsFor (tree_of (plan_view plan.now)) (map rows_of_table tables.now)) }
{
    read_plans_are_consistent(plan);
    counts_are_allowed(plan, PhantomData);
    let Ok(mut wiring) = Wiring::build(alloc, plan, tables, shape) else {
        return Err(RunFault::Memory);
    };
    let Ok(net) = Net::build(alloc, plan, tables, &mut wiring, shape, courier) else {
        return Err(RunFault::Memory);
    };
    run_alone(rt, alloc, net, shape, picks)
}
