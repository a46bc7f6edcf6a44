ghost use Rattle.std.specs.Prelude.{◌≡◌, map, option_map, IsTrue, IfOk};
ghost use Rattle.sql_exprs.specs.Forms.{form_view};
ghost use Rattle.page_processor.specs.Typed.{AllTyped, IsTyped};
ghost use Rattle.row_ops.specs.RowJudges.{AreTyped, IsTypedIf, are_typed, is_typed_if, are_all_typed, is_typed};

use sql_exprs::{Expr, TypeFault, typed};
use sql_values::{Memory, SqlType};
use std::alloc::Global;

/// Whether there are columns, and each expression is typed over input of these types.
pub fn are_typed(
    alloc: Global,
    types: &[SqlType],
    predicate: &Option<Expr>,
    columns: &[Expr],
) -> Result<bool, Memory>
    ensures answer { IfOk result (λ typed. typed ≡ are_typed types.now
        (option_map form_view predicate.now) (map form_view columns.now)) }
    ensures typed { IfOk result (λ typed. IsTrue typed → AreTyped types.now
        (option_map form_view predicate.now) (map form_view columns.now)) }
{
    if columns.is_empty() {
        return Ok(false);
    }
    let is_typed = is_predicate_typed(alloc, types, predicate)?;
    let are_typed = are_columns_typed(alloc, types, columns)?;
    Ok(is_typed && are_typed)
}

fn is_predicate_typed(
    alloc: Global,
    types: &[SqlType],
    predicate: &Option<Expr>,
) -> Result<bool, Memory>
    ensures answer { IfOk result (λ typed. typed
        ≡ is_typed_if types.now (option_map form_view predicate.now)) }
    ensures typed { IfOk result (λ typed. IsTrue typed
        → IsTypedIf types.now (option_map form_view predicate.now)) }
{
    match predicate {
        None => Ok(true),
        Some(predicate) => is_typed(alloc, types, predicate),
    }
}

fn are_columns_typed(alloc: Global, types: &[SqlType], columns: &[Expr]) -> Result<bool, Memory>
    ensures answer { IfOk result (λ typed. typed
        ≡ are_all_typed types.now (map form_view columns.now)) }
    ensures typed { IfOk result (λ typed. IsTrue typed
        → AllTyped types.now (map form_view columns.now)) }
{
    for column in columns {
        if !is_typed(alloc, types, column)? {
            return Ok(false);
        }
    }
    Ok(true)
}

fn is_typed(alloc: Global, types: &[SqlType], expr: &Expr) -> Result<bool, Memory>
    ensures answer { IfOk result (λ typed. typed ≡ is_typed types.now (form_view expr.now)) }
    ensures typed { IfOk result (λ typed. IsTrue typed
        → IsTyped types.now (form_view expr.now)) }
{
    match typed(alloc, expr, types) {
        Ok(_) => Ok(true),
        Err(TypeFault::Refused(_)) => Ok(false),
        Err(TypeFault::Memory) => Err(Memory),
    }
}
