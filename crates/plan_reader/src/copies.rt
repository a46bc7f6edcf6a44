ghost use Rattle.std.specs.Prelude.{◌≡◌, map, IfOk};
ghost use Rattle.sql_exprs.specs.Forms.{form_view};

use sql_exprs::{Expr, ExprList, copy_expr};
use sql_values::{Items, Memory, RowList, SqlType};
use std::alloc::Global;

pub fn copy_items<T: Copy>(alloc: Global, items: &[T]) -> Result<Items<T>, Memory>
    ensures { IfOk result (λ copy. copy ≡ items.now) }
{
    Ok(Items::of(Vec::from_slice(alloc, items)?))
}

pub fn copy_exprs(alloc: Global, exprs: &[Expr]) -> Result<ExprList, Memory>
    ensures { IfOk result (λ copy. map form_view copy.items ≡ map form_view exprs.now) }
{
    let mut copy = Vec::with_capacity(alloc, exprs.len())?;
    for expr in exprs {
        copy.push(copy_expr(alloc, expr)?)?;
    }
    Ok(copy)
}

pub fn copy_rows(alloc: Global, types: &[SqlType], rows: &RowList) -> Result<RowList, Memory>
    ensures { IfOk result (λ copy. copy ≡ rows.now) }
{
    let mut copy = RowList::of_types(alloc, types)?;
    for place in 0..rows.len() {
        copy.push(rows.row(alloc, place)?)?;
    }
    Ok(copy)
}
