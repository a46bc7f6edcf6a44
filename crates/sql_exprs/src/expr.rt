use sql_functions::CallName;
use sql_values::{SqlType, Value};

/// An expression over the columns of a row.
#[derive(Drop)]
#[cycle(expr)]
pub enum Expr {
    /// The column at a place, from 0.
    Column(u32),
    /// A value of its type that is not NULL.
    Literal {
        kind: SqlType,
        value: Value,
    },
    /// NULL of a type.
    Null(SqlType),
    Call {
        name: CallName,
        args: Vec<Expr>,
    },
    Cast {
        arg: Box<Expr>,
        kind: SqlType,
    },
    /// The result of the first branch whose test is TRUE, else the other one.
    Case {
        branches: Vec<Branch>,
        other: Box<Expr>,
    },
}

/// A test and its result.
#[derive(Drop)]
#[cycle(expr)]
pub struct Branch {
    pub test: Expr,
    pub result: Expr,
}

pub type ExprList = Vec<Expr>;

pub type BranchList = Vec<Branch>;
