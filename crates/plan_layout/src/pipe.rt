//! Pipes.
ghost use Rattle.std.specs.Prelude.{◌≡◌, IfOk};
ghost use Rattle.plan_layout.specs.Pipes.{driver_number, number_in_task, pipe_view};

use crate::sums::{add, multiply};
use plan_docs::{DynamicFilters, Output};
use plan_trees::{CallList, KeyList, Pairs};
use sql_exprs::{Expr, ExprList};
use sql_values::{JoinKind, Memory, Places, RowList, Types};

/// How many tasks a fragment has and how many drivers a pipe has in each, where there may be several.
#[derive(Clone, Copy)]
pub struct Parallelism {
    pub tasks: u32,
    pub drivers: u32,
}

/// A number for each task: the first, and what is added from one task to the next.
#[derive(Clone, Copy)]
pub struct Series {
    pub first: u32,
    pub stride: u32,
}

impl Series {
    /// The number in a task.
    pub fn of_task(self, task: u32) -> Result<u32, Memory>
        ensures { IfOk result (λ n. n ≡ number_in_task self task) }
    {
        add(self.first, multiply(task, self.stride)?)
    }
}

/// The pipelines of one node in all tasks of its fragment.
#[derive(Drop)]
pub struct Pipe<'p> {
    pub fragment: u32,
    pub tasks: u32,
    /// How many there are in each task.
    pub drivers: u32,
    /// The numbers of the first driver of each task.
    pub numbers: Series,
    pub source: PipeSource<'p>,
    /// The number of the scan that reads the table, if the pipe takes from one.
    pub scan: Option<u32>,
    /// From the source on.
    pub steps: Vec<PipeStep<'p>>,
    pub target: PipeTarget<'p>,
}

impl<'p> Pipe<'p> {
    /// The number of a driver in a task.
    pub fn number(&self, task: u32, driver: u32) -> Result<u32, Memory>
        ensures { IfOk result (λ n. n ≡ driver_number (pipe_view self.now) task driver) }
    {
        add(self.numbers.of_task(task)?, driver)
    }
}

/// Where the rows of a pipe come from. Another pipe is named by its place in the layout.
#[derive(Clone, Copy)]
pub enum PipeSource<'p> {
    /// A table of the plan by its place, columns of it and their types.
    Table(u32, &'p Places, &'p Types),
    /// Rows of the plan.
    Rows(&'p Types, &'p RowList),
    /// The sides of a union.
    Sides,
    /// A fragment, over the edge of this pipe.
    Fragment(u32),
    /// The edge of a pipe that reads a fragment, and the numbers of that edge.
    Edge(usize, Series),
}

/// What a node does to the rows of a pipe. Each begins with the node's number.
#[derive(Clone, Copy)]
pub enum PipeStep<'p> {
    Filter(u32, &'p Expr),
    Project(u32, &'p ExprList),
    /// Partners among what the pipe at a place builds.
    Probe(u32, JoinKind, &'p Pairs, usize),
    Aggregate(u32, &'p Places, &'p CallList),
    Partial(u32, &'p Places, &'p CallList),
    Final(u32, &'p Places, &'p CallList),
    Sort(u32, &'p KeyList),
    TopN(u32, u32, &'p KeyList),
    Limit(u32, u32),
}

/// The right side of a join.
#[derive(Clone, Copy)]
pub struct BuildSide<'p> {
    /// The join's number.
    pub join: u32,
    pub on: &'p Pairs,
    pub filters: &'p DynamicFilters,
}

/// Where the rows of a pipe go.
#[derive(Clone, Copy)]
pub enum PipeTarget<'p> {
    Result,
    /// The cell of this pipe, as the right side of a join.
    Cell(BuildSide<'p>),
    /// The pipe whose source is a union.
    Side(usize),
    /// The edge of the pipe that reads the fragment, in each of its tasks.
    Readers(&'p Output, usize),
    /// The drivers of the pipe whose edge it reads.
    Takers(usize),
}
