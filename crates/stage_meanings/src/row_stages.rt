//! The operators of filters and projects.
ghost use Rattle.std.specs.Prelude.{◌≡◌, ◌<◌, ◌^◌, ◌↔◌, List, [], ◌∷◌, map, IfOk, vec_len};
ghost use Rattle.std.specs.List.{range_with_len};
ghost use Rattle.col_pages.specs.Pages.{TypedPage};
ghost use Rattle.sql_exprs.specs.Forms.{column, form_view};
ghost use Rattle.sql_exprs.specs.Meaning.{kind_of};
ghost use Rattle.page_processor.specs.Typed.{AllTyped, IsTyped};
ghost use Rattle.operator_core.specs.Calls.{IsFresh};
ghost use Rattle.col_pages.specs.Fits.{IsOfTypes};
ghost use Rattle.plan_run_laws.specs.Stages.{filter, project};
ghost use Rattle.stage_meanings.specs.Meanings.{Means};
ghost use Rattle.stage_meanings.specs.Pipelines.{at_node};

use operator_core::Operator;
use row_ops::FilterProject;
use sql_exprs::Expr;
use sql_values::{Memory, SqlType};
use std::alloc::Global;

/// Each column of rows of so many columns, in order.
fn all_columns(alloc: Global, count: u32) -> Result<Vec<Expr>, Memory>
    ensures { IfOk result (λ v. map form_view v.items ≡ map column (range_with_len 0 count)) }
{
    let mut columns = Vec::with_capacity(alloc, count as usize)?;
    for place in 0..count {
        columns.push(Expr::Column(place))?;
    }
    Ok(columns)
}

/// The operator of a filter, over input of these types.
pub fn filter_of(
    alloc: Global,
    node: u32,
    types: Vec<SqlType>,
    predicate: Expr,
) -> Result<FilterProject, Memory>
    requires some { 0 < vec_len types }
    requires few { vec_len types < 2 ^ 32 }
    requires typed { IsTyped types.items (form_view predicate) }
    ensures fresh { IfOk result (λ op. IsFresh ⟦<FilterProject as Operator>⟧ op) }
    ensures takes { IfOk result (λ op. (page : TypedPage)
        → ⟦<FilterProject as Operator>⟧.takes op page ↔ IsOfTypes types.items page) }
    ensures means { IfOk result (λ op. Means ⟦<FilterProject as Operator>⟧ op types.items
        (at_node node (filter types.items (form_view predicate)) ∷ []) types.items) }
{
    let columns = all_columns(alloc, types.len() as u32)?;
    Ok(FilterProject::new(alloc, node, types, Some(predicate), columns))
}

/// The operator of a project, over input of these types.
pub fn project_of(
    alloc: Global,
    node: u32,
    types: Vec<SqlType>,
    columns: Vec<Expr>,
) -> FilterProject
    requires some { 0 < vec_len columns }
    requires typed { AllTyped types.items (map form_view columns.items) }
    ensures fresh { IsFresh ⟦<FilterProject as Operator>⟧ result }
    ensures takes { (page : TypedPage)
        → ⟦<FilterProject as Operator>⟧.takes result page ↔ IsOfTypes types.items page }
    ensures means { Means ⟦<FilterProject as Operator>⟧ result types.items
        (at_node node (project types.items (map form_view columns.items)) ∷ [])
        (map (kind_of types.items) (map form_view columns.items)) }
{
    FilterProject::new(alloc, node, types, None, columns)
}
