//! The pipes of a plan, and what their drivers share.
ghost use Rattle.std.specs.Prelude.{◌≡◌, ◌<◌, IfOk, map};
ghost use Rattle.plan_docs.specs.Plans.{plan_view};
ghost use Rattle.plan_layout.specs.Layouts.{layout_of};
ghost use Rattle.plan_layout.specs.Pipes.{pipe_view};
ghost use Rattle.plan_wiring.specs.Handed.{AreUnused};
ghost use Rattle.plan_wiring.specs.Wirings.{IsWiringOf, share_view};
ghost use Rattle.task_executor.specs.Shapes.{IsShape, parallelism_of};

use crate::shape::Shape;
use plan_layout::Layout;
use plan_reader::Plan;
use sql_values::{Memory, Table};
use std::alloc::Global;

/// The layout of a plan in a shape, and what its drivers share: claims of the splits of tables, edges, and cells of
/// joins.
#[derive(Drop)]
pub struct Wiring<'p> {
    pub(crate) layout: Layout<'p>,
    pub(crate) shared: plan_wiring::Wiring,
}

impl<'p> Wiring<'p> {
    /// That of a plan over its tables.
    pub fn build(
        alloc: Global,
        plan: &'p Plan,
        tables: &[Table],
        shape: &Shape,
    ) -> Result<Wiring<'p>, Memory>
        requires { IsShape shape.now }
        ensures laid { IfOk result (λ wiring. map pipe_view wiring.layout.pipes.items
            ≡ layout_of (parallelism_of shape.now) (plan_view plan.now)) }
        ensures wired { IfOk result (λ wiring. IsWiringOf (map pipe_view wiring.layout.pipes.items)
            tables.now shape.now.split wiring.shared) }
        ensures unused { IfOk result (λ wiring. AreUnused (map share_view wiring.shared.pipes.items)) }
    {
        let layout = Layout::of(alloc, plan, shape.parallelism())?;
        let shared = plan_wiring::Wiring::of(alloc, &layout, tables, shape.split)?;
        Ok(Wiring { layout, shared })
    }
}
