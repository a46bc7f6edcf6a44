//! Small trees over constants. Rows stand between commas, their cells between blanks, and `-` is NULL.
ghost use Rattle.std.specs.Prelude.{◌<◌, length};

use crate::cell_texts::{both, number, show_value};
use crate::exprs::{call, number as literal, predicate, sum};
use plan_trees::{CallList, KeyList, Pair, Pairs, Tree, TreeStep};
use sql_exprs::{CallName, Expr};
use sql_values::{
    Call, JoinKind, KeySpec, Memory, Order, Places, Row, RowList, SqlType, Types, Value,
};
use std::alloc::Global;
use tree_evaluator::{EvalStop, evaluate, fits_tables};

const WHOLE: SqlType = SqlType::Bigint;

fn digits(text: &str) -> i128 {
    text.parse::<i128>().unwrap_or(0)
}

/// The value that a cell's text is: a number by its digits.
fn value(kind: SqlType, text: &str) -> Value {
    if text == "-" {
        return Value::Null;
    }
    match kind {
        SqlType::Bigint => Value::Bigint(number(text)),
        _ => Value::Decimal(digits(text)),
    }
}

fn row(alloc: Global, types: &[SqlType], text: &str) -> Result<Row, Memory> {
    let mut values = Vec::new(alloc);
    for (kind, text) in types.iter().zip(text.split(' ')) {
        values.push(value(*kind, text))?;
    }
    Ok(Row::of(values))
}

fn push_all(
    alloc: Global,
    rows: &mut RowList,
    types: &[SqlType],
    texts: &str,
) -> Result<(), Memory> {
    for text in texts.split(',') {
        if !text.is_empty() {
            rows.push(row(alloc, types, text)?)?;
        }
    }
    Ok(())
}

fn rows(alloc: Global, types: &[SqlType], texts: &str) -> Result<RowList, Memory> {
    let mut rows = RowList::new(alloc);
    push_all(alloc, &mut rows, types, texts)?;
    Ok(rows)
}

fn kinds(alloc: Global, types: &[SqlType]) -> Result<Types, Memory> {
    Ok(Types::of(Vec::from_slice(alloc, types)?))
}

/// Constant rows of these types.
fn constants(alloc: Global, types: &[SqlType], texts: &str) -> Result<Tree, Memory> {
    let (kinds, rows) = both(kinds(alloc, types), rows(alloc, types, texts))?;
    Ok(Tree::Values {
        id: 9,
        types: kinds,
        rows,
    })
}

fn numbers(alloc: Global, texts: &str) -> Result<Tree, Memory> {
    constants(alloc, &[WHOLE], texts)
}

fn pairs(alloc: Global, texts: &str) -> Result<Tree, Memory> {
    constants(alloc, &[WHOLE, WHOLE], texts)
}

/// Decimals of two digits behind the point, by their digits.
fn prices(alloc: Global, p: u8, texts: &str) -> Result<Tree, Memory> {
    constants(alloc, &[SqlType::Decimal { p, s: 2 }], texts)
}

fn show_row(text: &mut String, rows: &RowList, place: usize, columns: u32) -> Result<(), Memory>
    requires { place < length rows.now }
{
    for column in 0..columns {
        show_value(text, rows.cell(place, column))?;
    }
    Ok(())
}

fn show(text: &mut String, rows: &RowList, columns: u32) -> Result<(), Memory> {
    for place in 0..rows.len() {
        show_row(text, rows, place, columns)?;
    }
    Ok(())
}

/// Appends the rows that a tree gives, or the node that stops and why.
fn tell(alloc: Global, text: &mut String, tree: &Tree, columns: u32) -> Result<(), Memory> {
    if !fits_tables(alloc, tree, &[])? {
        return Ok(text.push_str("does not fit")?);
    }
    match evaluate(alloc, tree, &[]) {
        Ok(rows) => show(text, &rows, columns),
        Err(EvalStop::ExprFailed { node, kind }) => Ok(write!(text, "node {node}: {kind}")?),
        Err(EvalStop::Memory) => Err(Memory),
    }
}

fn tells(alloc: Global, tree: &Tree, columns: u32, wanted: &str) -> Result<bool, Memory> {
    let mut text = String::new(alloc);
    tell(alloc, &mut text, tree, columns)?;
    Ok(text.as_str() == wanted)
}

/// Whether the tree gives the wanted rows, or stops as wanted.
fn gives(
    alloc: Global,
    tree: Result<Tree, Memory>,
    columns: u32,
    wanted: &str,
) -> Result<bool, Memory> {
    let tree = tree?;
    tells(alloc, &tree, columns, wanted)
}

fn boxed(alloc: Global, tree: Result<Tree, Memory>) -> Result<Box<Tree>, Memory> {
    Ok(Box::new(alloc, tree?)?)
}

/// A step over the rows of a tree.
fn over(
    alloc: Global,
    id: u32,
    step: Result<TreeStep, Memory>,
    input: Result<Tree, Memory>,
) -> Result<Tree, Memory> {
    let (step, input) = both(step, boxed(alloc, input))?;
    Ok(Tree::Step { id, step, input })
}

fn filter(alloc: Global) -> Result<TreeStep, Memory> {
    let predicate = predicate(alloc)?;
    Ok(TreeStep::Filter { predicate })
}

fn filtered(alloc: Global, texts: &str) -> Result<Tree, Memory> {
    over(alloc, 1, filter(alloc), numbers(alloc, texts))
}

/// 12 divided by the number less 1.
fn quotient(alloc: Global) -> Result<Expr, Memory> {
    let less = call(alloc, CallName::Subtract, Expr::Column(0), literal(1))?;
    call(alloc, CallName::Divide, literal(12), less)
}

/// The number more than the greatest, and the quotient.
fn project(alloc: Global) -> Result<TreeStep, Memory> {
    let (sum, quotient) = both(sum(alloc, 9_223_372_036_854_775_800), quotient(alloc))?;
    let columns = Vec::from_array(alloc, [sum, quotient])?;
    Ok(TreeStep::Project { columns })
}

fn projected(alloc: Global, texts: &str) -> Result<Tree, Memory> {
    over(alloc, 2, project(alloc), numbers(alloc, texts))
}

#[test]
fn a_filter_keeps_what_is_true_and_stops_at_a_failure(rt: HostRuntime) -> Result<(), Memory> {
    let alloc = rt.alloc();
    let kept = gives(alloc, filtered(alloc, "3,-,4,2"), 1, "3 2 ")?;
    let failed = "node 1: division by zero";
    let fails = gives(alloc, filtered(alloc, "3,0,4"), 1, failed)?;
    assert!(rt; kept & fails);
    Ok(())
}

#[test]
fn a_project_gives_each_column_or_fails_at_the_first_row(rt: HostRuntime) -> Result<(), Memory> {
    let alloc = rt.alloc();
    let wanted = "9223372036854775803 6 null null 9223372036854775807 2 ";
    let given = gives(alloc, projected(alloc, "3,-,7"), 2, wanted)?;
    let failed = "node 2: division by zero";
    let divided = gives(alloc, projected(alloc, "3,1,8"), 2, failed)?;
    let past = "node 2: a number is out of its type's range";
    let is_past = gives(alloc, projected(alloc, "3,8,1"), 2, past)?;
    assert!(rt; given & divided & is_past);
    Ok(())
}

/// The numbers 1 to 7, so many times.
fn many_numbers(alloc: Global, times: u32) -> Result<Tree, Memory> {
    let mut text = String::new(alloc);
    for _time in 0..times {
        text.push_str("1,2,3,4,5,6,7,")?;
    }
    numbers(alloc, text.as_str())
}

fn many_filtered(alloc: Global, times: u32) -> Result<Tree, Memory> {
    over(alloc, 1, filter(alloc), many_numbers(alloc, times))
}

/// The numbers that the filter keeps, and all of them.
fn many(alloc: Global, times: u32) -> Result<Tree, Memory> {
    let left = many_filtered(alloc, times);
    let right = many_numbers(alloc, times);
    let (left, right) = both(boxed(alloc, left), boxed(alloc, right))?;
    Ok(Tree::Union { id: 5, left, right })
}

fn has_so_many(alloc: Global, tree: &Tree, count: usize) -> Result<bool, Memory> {
    if !fits_tables(alloc, tree, &[])? {
        return Ok(false);
    }
    match evaluate(alloc, tree, &[]) {
        Ok(rows) => Ok(rows.len() == count),
        Err(_) => Err(Memory),
    }
}

fn gives_so_many(alloc: Global, tree: Result<Tree, Memory>, count: usize) -> Result<bool, Memory> {
    let tree = tree?;
    has_so_many(alloc, &tree, count)
}

fn first_of_many(alloc: Global) -> Result<Tree, Memory> {
    let limit = Ok(TreeStep::Limit { count: 9000 });
    over(alloc, 6, limit, many(alloc, 2_000))
}

#[test]
fn lists_go_past_a_page(rt: HostRuntime) -> Result<(), Memory> {
    let alloc = rt.alloc();
    let all = gives_so_many(alloc, many(alloc, 2_000), 20_000)?;
    let limited = gives_so_many(alloc, first_of_many(alloc), 9000)?;
    assert!(rt; all & limited);
    Ok(())
}

const PAIRS: &str = "2 1,- 7,1 -,2 -,2 5,1 3";

fn two_keys(alloc: Global, first: Order, second: Order) -> Result<TreeStep, Memory> {
    let first = KeySpec {
        column: 0,
        order: first,
    };
    let second = KeySpec {
        column: 1,
        order: second,
    };
    let keys = KeyList::of(Vec::from_array(alloc, [first, second])?);
    Ok(TreeStep::Sort { keys })
}

/// The pairs, by the first column and then by the second.
fn sorted(alloc: Global, first: Order, second: Order) -> Result<Tree, Memory> {
    over(
        alloc,
        3,
        two_keys(alloc, first, second),
        pairs(alloc, PAIRS),
    )
}

#[test]
fn a_sort_goes_key_by_key(rt: HostRuntime) -> Result<(), Memory> {
    let alloc = rt.alloc();
    let up = sorted(alloc, Order::Ascending, Order::Descending);
    let goes_up = gives(alloc, up, 2, "1 3 1 null 2 5 2 1 2 null null 7 ")?;
    let down = sorted(alloc, Order::Descending, Order::Ascending);
    let goes_down = gives(alloc, down, 2, "2 1 2 5 2 null 1 3 1 null null 7 ")?;
    assert!(rt; goes_up & goes_down);
    Ok(())
}

/// The greatest first, at most so many.
fn greatest(alloc: Global, count: u32) -> Result<TreeStep, Memory> {
    let key = KeySpec {
        column: 0,
        order: Order::Descending,
    };
    let keys = KeyList::of(Vec::from_array(alloc, [key])?);
    Ok(TreeStep::TopN { count, keys })
}

fn is_top(alloc: Global, count: u32, wanted: &str) -> Result<bool, Memory> {
    let top = over(
        alloc,
        4,
        greatest(alloc, count),
        numbers(alloc, "3,-,1,3,2"),
    );
    gives(alloc, top, 1, wanted)
}

#[test]
fn a_top_n_keeps_the_first(rt: HostRuntime) -> Result<(), Memory> {
    let alloc = rt.alloc();
    let none = is_top(alloc, 0, "")?;
    let one = is_top(alloc, 1, "3 ")?;
    let five = is_top(alloc, 5, "3 3 2 1 null ")?;
    let nine = is_top(alloc, 9, "3 3 2 1 null ")?;
    assert!(rt; none & one & five & nine);
    Ok(())
}

fn pair_list(alloc: Global, left: u32) -> Result<Pairs, Memory> {
    Ok(Pairs::of(Vec::from_array(alloc, [Pair { left, right: 0 }])?))
}

/// A tree beside those pairs of `right` whose first column is this one of its own.
fn joined(
    alloc: Global,
    kind: JoinKind,
    left: Result<Tree, Memory>,
    column: u32,
    right: &str,
) -> Result<Tree, Memory> {
    let right = boxed(alloc, pairs(alloc, right));
    let sides = both(boxed(alloc, left), right);
    let (on, (left, right)) = both(pair_list(alloc, column), sides)?;
    Ok(Tree::Join {
        id: 7,
        kind,
        on,
        left,
        right,
    })
}

fn orders_with_parts(alloc: Global, kind: JoinKind) -> Result<Tree, Memory> {
    let orders = pairs(alloc, "1 10,2 20,- 30,2 40");
    joined(alloc, kind, orders, 0, "2 5,1 6,- 7,2 8")
}

/// A left join over an inner one.
fn join_of_join(alloc: Global) -> Result<Tree, Memory> {
    let inner = orders_with_parts(alloc, JoinKind::Inner);
    joined(alloc, JoinKind::Left, inner, 3, "5 1,5 2,7 3")
}

#[test]
fn joins_find_partners(rt: HostRuntime) -> Result<(), Memory> {
    let alloc = rt.alloc();
    let wanted = "1 10 1 6 2 20 2 5 2 20 2 8 2 40 2 5 2 40 2 8 ";
    let inner = gives(alloc, orders_with_parts(alloc, JoinKind::Inner), 4, wanted)?;
    let wanted = "1 10 1 6 2 20 2 5 2 20 2 8 null 30 null null 2 40 2 5 2 40 2 8 ";
    let left = gives(alloc, orders_with_parts(alloc, JoinKind::Left), 4, wanted)?;
    let wanted =
        "1 10 1 6 null null 2 20 2 5 5 1 2 20 2 5 5 2 2 20 2 8 null null 2 40 2 5 5 1 2 40 2 5 5 2 2 40 2 8 null null ";
    let nested = gives(alloc, join_of_join(alloc), 6, wanted)?;
    assert!(rt; inner & left & nested);
    Ok(())
}

fn aggregate(alloc: Global, keys: &[u32], calls: &[Call]) -> Result<TreeStep, Memory> {
    let keys = Places::of(Vec::from_slice(alloc, keys)?);
    let calls = CallList::of(Vec::from_slice(alloc, calls)?);
    Ok(TreeStep::Aggregate { keys, calls })
}

/// The groups of the rows by these columns.
fn grouped(
    alloc: Global,
    keys: &[u32],
    calls: &[Call],
    input: Result<Tree, Memory>,
) -> Result<Tree, Memory> {
    over(alloc, 8, aggregate(alloc, keys, calls), input)
}

/// The number of rows, and count, sum, least and greatest of the second column.
const CALLS: [Call; 5] = [
    Call::CountAll,
    Call::Count(1),
    Call::Sum(1),
    Call::Min(1),
    Call::Max(1),
];

#[test]
fn aggregates_group_rows(rt: HostRuntime) -> Result<(), Memory> {
    let alloc = rt.alloc();
    let tree = grouped(alloc, &[0], &CALLS, pairs(alloc, PAIRS));
    let of_pairs = gives(alloc, tree, 6, "2 3 2 6 1 5 null 1 1 7 7 7 1 2 1 3 3 3 ")?;
    let tree = grouped(alloc, &[0], &[Call::Sum(5)], join_of_join(alloc));
    let of_join = gives(alloc, tree, 2, "1 null 2 6 ")?;
    assert!(rt; of_pairs & of_join);
    Ok(())
}

#[test]
fn no_row_is_a_group_where_there_is_no_key(rt: HostRuntime) -> Result<(), Memory> {
    let alloc = rt.alloc();
    let tree = grouped(alloc, &[], &CALLS, pairs(alloc, ""));
    let of_all = gives(alloc, tree, 5, "0 0 null null null ")?;
    let tree = grouped(alloc, &[0], &CALLS, pairs(alloc, ""));
    let by_key = gives(alloc, tree, 6, "")?;
    assert!(rt; of_all & by_key);
    Ok(())
}

/// Whether sum, average and count of decimals are as wanted.
fn has_sums(alloc: Global, p: u8, texts: &str, wanted: &str) -> Result<bool, Memory> {
    let calls = [Call::Sum(0), Call::Avg(0), Call::Count(0)];
    let tree = grouped(alloc, &[], &calls, prices(alloc, p, texts));
    gives(alloc, tree, 3, wanted)
}

#[test]
fn decimals_have_sums_and_averages(rt: HostRuntime) -> Result<(), Memory> {
    let alloc = rt.alloc();
    let up = has_sums(alloc, 18, "100,-,201,250", "551d 184d 3 ")?;
    let down = has_sums(alloc, 18, "-2,-3", "-5d -3d 2 ")?;
    let long = has_sums(alloc, 19, "100", "does not fit")?;
    assert!(rt; up & down & long);
    Ok(())
}

fn has_results(alloc: Global, calls: &[Call], texts: &str, wanted: &str) -> Result<bool, Memory> {
    let tree = grouped(alloc, &[], calls, numbers(alloc, texts));
    gives(alloc, tree, 1, wanted)
}

#[test]
fn an_aggregate_fails_or_does_not_fit(rt: HostRuntime) -> Result<(), Memory> {
    let alloc = rt.alloc();
    let past = "node 8: a number is out of its type's range";
    let is_past = has_results(alloc, &[Call::Sum(0)], "9223372036854775807,1", past)?;
    let no_call = has_results(alloc, &[], "1", "does not fit")?;
    let no_column = has_results(alloc, &[Call::Sum(1)], "1", "does not fit")?;
    assert!(rt; is_past & no_call & no_column);
    Ok(())
}
