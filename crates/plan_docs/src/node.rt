use plan_trees::{CallList, KeyList, Pairs};
use sql_exprs::{Expr, ExprList};
use sql_values::{Items, JoinKind, Places, RowList, Types};

/// A node of a plan: an operator, its number and what it reads.
#[derive(Drop)]
pub enum Node {
    /// The named columns of a table. Beside their places it holds their types.
    Scan {
        id: u32,
        table: u32,
        columns: Places,
        types: Types,
    },
    Values {
        id: u32,
        types: Types,
        rows: RowList,
    },
    /// The rows of another fragment.
    Remote {
        id: u32,
        fragment: u32,
    },
    Step {
        id: u32,
        operator: NodeOperator,
        input: Box<Node>,
    },
    Join {
        id: u32,
        kind: JoinKind,
        on: Pairs,
        left: Box<Node>,
        right: Box<Node>,
        filters: DynamicFilters,
    },
    Union {
        id: u32,
        left: Box<Node>,
        right: Box<Node>,
    },
}

/// What a node of one input does.
#[derive(Drop)]
pub enum NodeOperator {
    Filter {
        predicate: Expr,
    },
    Project {
        columns: ExprList,
    },
    Aggregate {
        half: NodeStep,
        keys: Places,
        calls: CallList,
    },
    AggregateFinal,
    Sort {
        keys: KeyList,
    },
    TopN {
        half: NodeStep,
        count: u32,
        keys: KeyList,
    },
    TopNFinal,
    Limit {
        half: NodeStep,
        count: u32,
    },
    LimitFinal,
}

/// Whether a node does the whole of its operator, or the part that comes before a FINAL node.
#[derive(Clone, Copy)]
pub enum NodeStep {
    Single,
    Partial,
}

/// The filter of a scan by the values of a join's right side.
#[derive(Clone, Copy)]
pub struct DynamicFilter {
    pub id: u32,
    /// The pair of the join, by its place.
    pub key: u32,
    /// The scan, by its number.
    pub scan: u32,
    /// The column, by its place in the scan.
    pub column: u32,
    /// Whether the scan waits for the filter.
    pub wait: bool,
}

pub type DynamicFilters = Items<DynamicFilter>;
