use sql_exprs::{Expr, ExprList};
use sql_values::{Call, Items, JoinKind, KeySpec, Places, RowList, Types};

/// A column of the left side of a join and one of the right, which are equal in partners.
#[derive(Clone, Copy)]
pub struct Pair {
    pub left: u32,
    pub right: u32,
}

pub type Pairs = Items<Pair>;

/// Sort keys, the first one first.
pub type KeyList = Items<KeySpec>;

/// Calls of aggregates.
pub type CallList = Items<Call>;

/// What a node of one input makes of its rows.
#[derive(Drop)]
pub enum TreeStep {
    Filter { predicate: Expr },
    Project { columns: ExprList },
    Aggregate { keys: Places, calls: CallList },
    Sort { keys: KeyList },
    TopN { count: u32, keys: KeyList },
    Limit { count: u32 },
}

/// An operator over the rows of its inputs. Each has the id of its node in the plan.
#[derive(Drop)]
pub enum Tree {
    /// The rows of a table, cut to the columns at these places, which have these types.
    Scan {
        id: u32,
        table: u32,
        columns: Places,
        types: Types,
    },
    Values {
        id: u32,
        types: Types,
        rows: RowList,
    },
    /// What the fragment under it gives, in any order.
    Remote {
        id: u32,
        input: Box<Tree>,
    },
    Step {
        id: u32,
        step: TreeStep,
        input: Box<Tree>,
    },
    Join {
        id: u32,
        kind: JoinKind,
        on: Pairs,
        left: Box<Tree>,
        right: Box<Tree>,
    },
    Union {
        id: u32,
        left: Box<Tree>,
        right: Box<Tree>,
    },
}
