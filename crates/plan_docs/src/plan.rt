use crate::node::Node;
use sql_values::{Columns, Items, Names, Places, Text};

/// A plan. A table is named by its place in `tables`, a column of a scan by its place in that
/// table, a fragment by its place in `fragments`.
#[derive(Drop)]
pub struct Plan {
    /// The names of the result's columns.
    pub output: Names,
    pub tables: TableDocs,
    pub fragments: Fragments,
}

/// A table as a plan declares it.
#[derive(Drop)]
pub struct TableDoc {
    pub name: Text,
    pub columns: Columns,
}

/// A part of a plan that runs as tasks of one kind.
#[derive(Drop)]
pub struct Fragment {
    pub placement: Placement,
    pub output: Output,
    pub root: Node,
}

/// Which tasks a fragment has.
#[derive(Clone, Copy)]
pub enum Placement {
    /// One task.
    Single,
    /// Several, which share the rows of tables.
    Source,
    /// Several, among which rows are spread by a hash.
    Hash,
}

/// Where the rows of a fragment go.
#[derive(Drop)]
pub enum Output {
    /// Into the result: fragment 0.
    Result,
    /// To one task.
    Single,
    /// To every task.
    Broadcast,
    /// Each to the task that the hash of these columns names.
    Hash(Places),
}

pub type TableDocs = Items<TableDoc>;

pub type Fragments = Items<Fragment>;
