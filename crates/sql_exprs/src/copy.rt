ghost use Rattle.std.specs.Prelude.{◌≡◌, map, IfOk};
ghost use Rattle.sql_exprs.specs.Forms.{branch_view, form_view};

use crate::expr::{Branch, Expr};
use sql_values::Memory;
use std::alloc::Global;

/// An expression of the same form.
#[cycle(copying)]
pub fn copy_expr(alloc: Global, expr: &Expr) -> Result<Expr, Memory>
    ensures { IfOk result (λ e. form_view e ≡ form_view expr.now) }
{
    Ok(match expr {
        Expr::Column(column) => Expr::Column(*column),
        Expr::Literal { kind, value } => Expr::Literal {
            kind: *kind,
            value: value.copy(alloc)?,
        },
        Expr::Null(kind) => Expr::Null(*kind),
        Expr::Call { name, args } => Expr::Call {
            name: *name,
            args: copy_all(alloc, args.as_slice())?,
        },
        Expr::Cast { arg, kind } => Expr::Cast {
            arg: copy_boxed(alloc, arg)?,
            kind: *kind,
        },
        Expr::Case { branches, other } => Expr::Case {
            branches: copy_branches(alloc, branches.as_slice())?,
            other: copy_boxed(alloc, other)?,
        },
    })
}

#[cycle(copying)]
fn copy_boxed(alloc: Global, expr: &Expr) -> Result<Box<Expr>, Memory>
    ensures { IfOk result (λ b. form_view b.value ≡ form_view expr.now) }
{
    Ok(Box::new(alloc, copy_expr(alloc, expr)?)?)
}

#[cycle(copying)]
fn copy_all(alloc: Global, exprs: &[Expr]) -> Result<Vec<Expr>, Memory>
    ensures { IfOk result (λ copy. map form_view copy.items ≡ map form_view exprs.now) }
{
    let mut copy = Vec::with_capacity(alloc, exprs.len())?;
    for expr in exprs {
        copy.push(copy_expr(alloc, expr)?)?;
    }
    Ok(copy)
}

#[cycle(copying)]
fn copy_branches(alloc: Global, branches: &[Branch]) -> Result<Vec<Branch>, Memory>
    ensures { IfOk result (λ copy. map branch_view copy.items ≡ map branch_view branches.now) }
{
    let mut copy = Vec::with_capacity(alloc, branches.len())?;
    for branch in branches {
        copy.push(copy_branch(alloc, branch)?)?;
    }
    Ok(copy)
}

#[cycle(copying)]
fn copy_branch(alloc: Global, branch: &Branch) -> Result<Branch, Memory>
    ensures { IfOk result (λ b. branch_view b ≡ branch_view branch.now) }
{
    Ok(Branch {
        test: copy_expr(alloc, &branch.test)?,
        result: copy_expr(alloc, &branch.result)?,
    })
}
