ghost use Rattle.std.specs.Prelude.{◌≡◌, length, map, IfOk, IfSome, IsTrue};
ghost use Rattle.sql_exprs.specs.Forms.{Form, branch_view, call, cast, choice, choices_of, column, form_view, forms_of, last, more, none};
ghost use Rattle.sql_exprs.specs.Meaning.{kind_of};
ghost use Rattle.column_exprs.specs.Chains.{GoesOn, chain_name};
ghost use Rattle.column_exprs.specs.Choices.{AreUnsettled, IsChoice, TakesBranch};
ghost use Rattle.column_exprs.specs.Operands.{AreRows, HasCells, IsOperand, is_strict};

use crate::chain::{Chain, joined_made};
use crate::choice::{Choice, Settled, branch_made, choice_made};
use crate::kept::{Test, kept_positions, part_at};
use crate::made::{binary_made, cast_made, unary_made};
use crate::operand::Operand;
use crate::rows::Rows;
use col_pages::Page;
use sql_exprs::{Branch, Expr, kind_of};
use sql_functions::CallName;
use sql_values::{Memory, SqlType, ValueRef};
use std::alloc::Global;

/// The values of an expression on rows, or none where it fails on one of them or is not covered.
#[cycle(parts)]
pub fn operand_of<'a>(
    alloc: Global,
    expr: &'a Expr,
    rows: Rows<'a>,
) -> Result<Option<Operand<'a>>, Memory>
    requires { AreRows rows }
    ensures { IfOk result (λ o. IfSome o (IsOperand (form_view expr.now) rows.entry)) }
{
    match expr {
        Expr::Column(column) => column_operand(alloc, *column, rows),
        Expr::Literal { kind, value } => Ok(Some(Operand::Constant {
            kind: *kind,
            value: value.as_ref(),
        })),
        Expr::Null(kind) => Ok(Some(Operand::Constant {
            kind: *kind,
            value: ValueRef::Null,
        })),
        Expr::Call { name, args } => {
            let kind = kind_of(rows.page.types(), expr);
            call_operand(alloc, *name, kind, args.as_slice(), rows)
        }
        Expr::Cast { arg, kind } => cast_operand(alloc, arg, *kind, rows),
        Expr::Case { branches, other } => {
            let kind = kind_of(rows.page.types(), other);
            match branches_taken(alloc, kind, branches.as_slice(), rows)? {
                Some(so_far) => other_taken(alloc, other, so_far, rows),
                None => Ok(None),
            }
        }
    }
}

/// The column of the page, without a copy where the rows are all there are.
fn column_operand<'a>(
    alloc: Global,
    place: u32,
    rows: Rows<'a>,
) -> Result<Option<Operand<'a>>, Memory>
    requires { AreRows rows }
    ensures { IfOk result (λ o. IfSome o (IsOperand (column place) rows.entry)) }
{
    let Some(block) = rows.page.block(place) else {
        return Ok(None);
    };
    if rows.whole {
        return Ok(Some(Operand::Lent(block)));
    }
    Ok(Some(Operand::Made(block.select(alloc, rows.positions)?)))
}

#[cycle(parts)]
fn cast_operand<'a>(
    alloc: Global,
    arg: &'a Expr,
    kind: SqlType,
    rows: Rows<'a>,
) -> Result<Option<Operand<'a>>, Memory>
    requires { AreRows rows }
    ensures { IfOk result (λ o. IfSome o (IsOperand (cast (form_view arg.now) kind) rows.entry)) }
{
    match operand_of(alloc, arg, rows)? {
        Some(operand) => cast_made(alloc, &operand, kind, rows),
        None => Ok(None),
    }
}

#[cycle(parts)]
fn call_operand<'a>(
    alloc: Global,
    name: CallName,
    kind: SqlType,
    args: &'a [Expr],
    rows: Rows<'a>,
) -> Result<Option<Operand<'a>>, Memory>
    requires rows { AreRows rows }
    requires kind { kind ≡ kind_of rows.page.now.types
        (call name (forms_of (map form_view args.now))) }
    ensures { IfOk result (λ o. IfSome o
        (IsOperand (call name (forms_of (map form_view args.now))) rows.entry)) }
{
    match Chain::of(name) {
        Some(chain) => chain_operand(alloc, chain, kind, args, rows),
        None => strict_operand(alloc, name, args, rows),
    }
}

/// AND, OR or COALESCE: the value that settles nothing, and then one argument after the other.
#[cycle(parts)]
fn chain_operand<'a>(
    alloc: Global,
    chain: Chain,
    kind: SqlType,
    args: &'a [Expr],
    rows: Rows<'a>,
) -> Result<Option<Operand<'a>>, Memory>
    requires rows { AreRows rows }
    requires kind { kind ≡ kind_of rows.page.now.types
        (call (chain_name chain) (forms_of (map form_view args.now))) }
    ensures { IfOk result (λ o. IfSome o
        (IsOperand (call (chain_name chain) (forms_of (map form_view args.now))) rows.entry)) }
{
    let mut so_far = Operand::Constant {
        kind,
        value: chain.start(),
    };
    for arg in args {
        match part_joined(alloc, chain, kind, &so_far, arg, rows)? {
            Some(next) => so_far = next,
            None => return Ok(None),
        }
    }
    Ok(Some(so_far))
}

/// The values so far with one more argument, which is evaluated at the rows that need it.
#[cycle(parts)]
fn part_joined<'a>(
    alloc: Global,
    chain: Chain,
    kind: SqlType,
    so_far: &Operand<'_>,
    arg: &'a Expr,
    rows: Rows<'a>,
) -> Result<Option<Operand<'a>>, Memory>
    requires rows { AreRows rows }
    requires cells { HasCells so_far.now (length rows.positions.now) }
    ensures { IfOk result (λ o. IfSome o
        (GoesOn chain kind (more (form_view arg.now) none) rows.entry so_far.now)) }
{
    let kept = kept_positions(alloc, chain.test(), so_far, rows.positions)?;
    let part = part_at(chain.test(), so_far, rows, kept.as_slice());
    match operand_of(alloc, arg, part)? {
        Some(later) => joined_made(alloc, chain, kind, so_far, &later, rows, part),
        None => Ok(None),
    }
}

/// A call that takes the values of all its arguments.
#[cycle(parts)]
fn strict_operand<'a>(
    alloc: Global,
    name: CallName,
    args: &'a [Expr],
    rows: Rows<'a>,
) -> Result<Option<Operand<'a>>, Memory>
    requires rows { AreRows rows }
    requires strict { IsTrue (is_strict name) }
    ensures { IfOk result (λ o. IfSome o
        (IsOperand (call name (forms_of (map form_view args.now))) rows.entry)) }
{
    match args {
        [arg] => unary_operand(alloc, name, arg, rows),
        [left, right] => match operand_of(alloc, left, rows)? {
            Some(first) => second_operand(alloc, name, &first, right, rows),
            None => Ok(None),
        },
        [] => Ok(None),
        [_, _, _, ..] => Ok(None),
    }
}

/// A call of one argument.
#[cycle(parts)]
fn unary_operand<'a>(
    alloc: Global,
    name: CallName,
    arg: &'a Expr,
    rows: Rows<'a>,
) -> Result<Option<Operand<'a>>, Memory>
    requires rows { AreRows rows }
    requires strict { IsTrue (is_strict name) }
    ensures { IfOk result (λ o. IfSome o
        (IsOperand (call name (more (form_view arg.now) none)) rows.entry)) }
{
    match operand_of(alloc, arg, rows)? {
        Some(operand) => unary_made(alloc, name, &operand, rows),
        None => Ok(None),
    }
}

/// A call of two arguments of which the first has an operand.
#[cycle(parts)]
fn second_operand<'a>(
    alloc: Global,
    name: CallName,
    first: &Operand<'_>,
    right: &'a Expr,
    rows: Rows<'a>,
) -> Result<Option<Operand<'a>>, Memory>
    requires rows { AreRows rows }
    requires strict { IsTrue (is_strict name) }
    requires cells { HasCells first.now (length rows.positions.now) }
    ensures { IfOk result (λ o. IfSome o (λ x. (form : Form) → IsOperand form rows.entry first.now
        → IsOperand (call name (more form (more (form_view right.now) none))) rows.entry x)) }
{
    match operand_of(alloc, right, rows)? {
        Some(second) => binary_made(alloc, name, first, &second, rows),
        None => Ok(None),
    }
}

/// What the branches of a case choose, one after the other, where its default has the type.
#[cycle(parts)]
fn branches_taken(
    alloc: Global,
    kind: SqlType,
    branches: &[Branch],
    rows: Rows<'_>,
) -> Result<Option<Choice>, Memory>
    requires { AreRows rows }
    ensures many { IfOk result (λ o. IfSome o (λ c.
        length c.settled.values.cells ≡ length c.settled.positions.items)) }
    ensures left { IfOk result (λ o. IfSome o (λ c.
        AreUnsettled rows.entry.page.now c.unsettled)) }
    ensures chosen { IfOk result (λ o. IfSome o (λ c. (other : Form)
        → kind ≡ kind_of rows.entry.page.now.types other
        → IsChoice (choice (choices_of (map branch_view branches.now)) other) (choice last other)
        rows.entry.page.now c)) }
{
    let mut so_far = Choice::new(alloc, kind, rows)?;
    for branch in branches {
        match branch_taken(alloc, branch, so_far, rows.page)? {
            Some(next) => so_far = next,
            None => return Ok(None),
        }
    }
    Ok(Some(so_far))
}

/// The choice so far with one more branch, whose condition is evaluated at the rows that are left.
#[cycle(parts)]
fn branch_taken(
    alloc: Global,
    branch: &Branch,
    so_far: Choice,
    page: &Page,
) -> Result<Option<Choice>, Memory>
    requires { AreUnsettled page.now so_far.unsettled }
    ensures { IfOk result (λ o. IfSome o (TakesBranch
        (form_view branch.now.test) (form_view branch.now.result) page.now so_far.settled
        so_far.unsettled.positions.items)) }
{
    let Choice { settled, unsettled } = so_far;
    let rows = unsettled.rows(page);
    match operand_of(alloc, &branch.test, rows)? {
        Some(tests) => result_taken(alloc, &branch.result, &tests, settled, rows),
        None => Ok(None),
    }
}

/// The same by the operand of the condition. The result is evaluated at the rows that it chose.
#[cycle(parts)]
fn result_taken(
    alloc: Global,
    then: &Expr,
    tests: &Operand<'_>,
    settled: Settled,
    rows: Rows<'_>,
) -> Result<Option<Choice>, Memory>
    requires rows { AreRows rows }
    requires tests { HasCells tests.now (length rows.positions.now) }
    ensures { IfOk result (λ o. IfSome o (λ next. (test : Form) → IsOperand test rows.entry tests.now
        → TakesBranch test (form_view then.now) rows.entry.page.now settled
        rows.entry.positions.now next)) }
{
    let chosen = kept_positions(alloc, Test::True, tests, rows.positions)?;
    let part = part_at(Test::True, tests, rows, chosen.as_slice());
    match operand_of(alloc, then, part)? {
        Some(results) => branch_made(alloc, tests, &results, settled, rows, part),
        None => Ok(None),
    }
}

/// The rows that no condition chose take the default.
#[cycle(parts)]
fn other_taken<'a>(
    alloc: Global,
    other: &Expr,
    so_far: Choice,
    rows: Rows<'a>,
) -> Result<Option<Operand<'a>>, Memory>
    requires rows { AreUnsettled rows.page.now so_far.unsettled }
    requires values { length so_far.settled.values.cells ≡ length so_far.settled.positions.items }
    ensures { IfOk result (λ o. IfSome o (λ x. (form : Form)
        → IsChoice form (choice last (form_view other.now)) rows.entry.page.now so_far
        → IsOperand form rows.entry x)) }
{
    let Choice { settled, unsettled } = so_far;
    let left = unsettled.rows(rows.page);
    match operand_of(alloc, other, left)? {
        Some(others) => choice_made(alloc, settled, &others, left, rows),
        None => Ok(None),
    }
}
