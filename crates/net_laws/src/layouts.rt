//! The drivers of the layout of a consistent plan can be made.
ghost use Rattle.std.specs.Prelude.{◌≡◌, ℕ, List, Some, slice_get};
ghost use Rattle.sql_values.specs.declared.table.Table.{Table as TableForm};
ghost use Rattle.plan_docs.specs.Plans.{FragmentForm, plan_view};
ghost use Rattle.tree_evaluator.specs.Fits.{TablesFit};
ghost use Rattle.plan_link_laws.specs.Consistent.{IsConsistent};
ghost use Rattle.plan_fit_laws.specs.Tables.{HaveColumns};
ghost use Rattle.plan_layout.specs.declared.pipe.Parallelism.{Parallelism};
ghost use Rattle.plan_layout.specs.Layouts.{layout_of};
ghost use Rattle.driver_net_laws.specs.Makes.{LayoutFits};
ghost use Rattle.driver_net_laws.specs.Types.{PipesAreTyped, PipeTypes};

use plan_docs::Plan;

/// The law that all pipes of the layout of a consistent plan can be made, whatever types they have that fit together.
pub fn layouts_fit(plan: &Plan)
    ensures { IsConsistent (plan_view plan.now) → (p : Parallelism) (f : FragmentForm)
        → slice_get (plan_view plan.now).fragments 0 ≡ Some f → (tables : List TableForm)
        → HaveColumns (plan_view plan.now).tables tables → TablesFit tables
        → (types : ℕ → PipeTypes) → PipesAreTyped (layout_of p (plan_view plan.now)) types
        → LayoutFits tables (layout_of p (plan_view plan.now)) types }
{
    crate::pipes::pipes_are_reached(plan);
    plan_fit_laws::consistent_plans_fit(plan);
}
