//! The types of trees, from the sums and joins of a small report.
use plan_trees::{CallList, Pair, Pairs, Tree, TreeStep, types_of_tree};
use sql_exprs::Expr;
use sql_values::{Call, JoinKind, Memory, Places, SqlType, Types};
use std::alloc::Global;

const PRICE: SqlType = SqlType::Decimal { p: 12, s: 2 };

fn places(alloc: Global, all: &[u32]) -> Result<Places, Memory> {
    Ok(Places::of(Vec::from_slice(alloc, all)?))
}

fn scan(
    alloc: Global,
    id: u32,
    table: u32,
    columns: Places,
    types: &[SqlType],
) -> Result<Box<Tree>, Memory> {
    let types = Types::of(Vec::from_slice(alloc, types)?);
    Ok(Box::new(
        alloc,
        Tree::Scan {
            id,
            table,
            columns,
            types,
        },
    )?)
}

/// A day, an order and a price.
fn orders(alloc: Global) -> Result<Box<Tree>, Memory> {
    let columns = places(alloc, &[2, 0, 1])?;
    scan(
        alloc,
        3,
        0,
        columns,
        &[SqlType::Date, SqlType::Bigint, PRICE],
    )
}

/// An order and its customer.
fn customers(alloc: Global) -> Result<Box<Tree>, Memory> {
    let columns = places(alloc, &[0, 1])?;
    scan(alloc, 2, 1, columns, &[SqlType::Bigint, SqlType::Varchar])
}

/// The left side beside the orders.
fn beside_orders(alloc: Global, left: Box<Tree>, on: Pairs) -> Result<Box<Tree>, Memory> {
    let right = orders(alloc)?;
    let join = Tree::Join {
        id: 1,
        kind: JoinKind::Left,
        on,
        left,
        right,
    };
    Ok(Box::new(alloc, join)?)
}

/// An order and its customer, beside the orders.
fn joined(alloc: Global) -> Result<Box<Tree>, Memory> {
    let on = Pairs::of(Vec::from_slice(alloc, &[Pair { left: 0, right: 1 }])?);
    beside_orders(alloc, customers(alloc)?, on)
}

fn has_types(alloc: Global, tree: &Tree, want: &[SqlType]) -> Result<bool, Memory> {
    let types = types_of_tree(alloc, tree)?;
    Ok(types.as_slice() == want)
}

fn is_report(
    alloc: Global,
    input: Box<Tree>,
    calls: &[Call],
    want: &[SqlType],
) -> Result<bool, Memory> {
    let keys = places(alloc, &[1])?;
    let calls = CallList::of(Vec::from_slice(alloc, calls)?);
    let step = TreeStep::Aggregate { keys, calls };
    has_types(alloc, &Tree::Step { id: 0, step, input }, want)
}

#[test]
fn a_report_has_a_key_and_results(rt: HostRuntime) -> Result<(), Memory> {
    let calls = [
        Call::CountAll,
        Call::Sum(4),
        Call::Sum(0),
        Call::Avg(4),
        Call::Max(2),
    ];
    let wanted = [
        SqlType::Varchar,
        SqlType::Bigint,
        SqlType::Decimal { p: 38, s: 2 },
        SqlType::Bigint,
        PRICE,
        SqlType::Date,
    ];
    let input = joined(rt.alloc())?;
    assert!(rt; is_report(rt.alloc(), input, &calls, &wanted)?);
    Ok(())
}

fn is_project(alloc: Global, input: Box<Tree>, want: &[SqlType]) -> Result<bool, Memory> {
    let mut columns = Vec::new(alloc);
    columns.push(Expr::Column(4))?;
    columns.push(Expr::Null(SqlType::Boolean))?;
    let step = TreeStep::Project { columns };
    has_types(alloc, &Tree::Step { id: 0, step, input }, want)
}

#[test]
fn a_project_has_the_types_of_its_columns(rt: HostRuntime) -> Result<(), Memory> {
    let input = joined(rt.alloc())?;
    assert!(rt; is_project(rt.alloc(), input, &[PRICE, SqlType::Boolean])?);
    Ok(())
}
