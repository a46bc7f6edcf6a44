//! How the tables and the work of a run are cut.
ghost use Rattle.std.specs.Prelude.{◌≡◌};
ghost use Rattle.task_executor.specs.Shapes.{parallelism_of};

use plan_layout::Parallelism;

/// How many tasks and drivers there are, and how many rows a split, a page and a turn have.
#[derive(Clone, Copy)]
pub struct Shape {
    /// The tasks of a fragment that may have several, at least 1.
    pub tasks: u32,
    /// The drivers of a pipe in each task, where it may have several, at least 1.
    pub drivers: u32,
    /// The most rows of a split, at least 1.
    pub split: u32,
    /// The most rows of a page, from 1 to 8192.
    pub page: u32,
    /// The rows after whose move a driver's turn ends, at least 1.
    pub quantum: u32,
    /// The number under which couriers deliver.
    pub replay: u64,
    /// How many workers share the drivers, at least 1; a run on one thread has none.
    pub workers: u32,
}

impl Shape {
    pub(crate) fn parallelism(&self) -> Parallelism
        ensures { result ≡ parallelism_of self.now }
    {
        Parallelism {
            tasks: self.tasks,
            drivers: self.drivers,
        }
    }
}
