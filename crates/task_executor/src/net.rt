//! The drivers of a plan.
ghost use Rattle.std.specs.Prelude.{◌≡◌, map, IfOk};
ghost use Rattle.plan_docs.specs.Plans.{plan_view};
ghost use Rattle.plan_fit_laws.specs.Tables.{HaveColumns};
ghost use Rattle.plan_layout.specs.Layouts.{layout_of};
ghost use Rattle.plan_layout.specs.Pipes.{pipe_view};
ghost use Rattle.plan_fit_laws.specs.Consistent.{IsConsistent};
ghost use Rattle.plan_wiring.specs.Handed.{AreUnused};
ghost use Rattle.plan_wiring.specs.Wirings.{IsWiringOf, share_view};
ghost use Rattle.tree_evaluator.specs.Fits.{TablesFit};
ghost use Rattle.tree_evaluator.specs.Stops.{rows_of_table};
ghost use Rattle.task_executor.specs.Nets.{IsNetOf};
ghost use Rattle.task_executor.specs.Shapes.{AreFew, IsShape, parallelism_of};

use crate::shape::Shape;
use crate::wiring::Wiring;
use driver_loop::Driver;
use net_making::drivers_of;
use plan_layout::Pipe;
use plan_reader::Plan;
use run_ports::Courier;
use sql_values::{Memory, Table};
use std::alloc::Global;
use std::marker::Model;

/// The drivers of a plan that run it over its tables, by their numbers.
#[derive(Drop)]
pub struct Net<'w, 'p, C: Courier> {
    pub(crate) plan: &'p Plan,
    pub(crate) pipes: &'w [Pipe<'p>],
    pub(crate) drivers: Vec<Driver<'w, C>>,
    /// How many bells there are at which they wait.
    pub(crate) bells: u32,
}

impl<'w, 'p, C: Courier> Model for Net<'w, 'p, C> {
    ghost use Rattle.plan_docs.specs.contracts.node.Node as n;
    ghost use Rattle.sql_exprs.specs.contracts.expr.Expr as e;
    ghost use Rattle.std.specs.Coded.{codes};
    ghost use Rattle.task_executor.specs.Nets.{IsSomeNet, NetState};

    ghost Value = { NetState };

    ghost coded = { Prim.hlevel (codes, e.the_row.coded, n.the_row.coded) };

    ghost view = { λ n. record { plan = n.plan.now; pipes = n.pipes.now; drivers = n.drivers.items } };

    ghost invariant = { λ n. IsSomeNet (record { plan = n.plan.now; pipes = n.pipes.now; drivers = n.drivers.items }) };
}

impl<'w, 'p, C: Courier> Net<'w, 'p, C> {
    /// The net of a plan over tables of the columns that it declares. The wiring was made for these in this shape, and for
    /// no other net.
    pub fn build(
        alloc: Global,
        plan: &'p Plan,
        tables: &'w [Table],
        wiring: &'w mut Wiring<'p>,
        shape: &Shape,
        courier: &C,
    ) -> Result<Net<'w, 'p, C>, Memory>
        requires consistent { IsConsistent (plan_view plan.now) }
        requires columns { HaveColumns (plan_view plan.now).tables tables.now }
        requires readable { TablesFit tables.now }
        requires few { AreFew tables.now }
        requires shape { IsShape shape.now }
        requires laid { map pipe_view wiring.old.layout.pipes.items
            ≡ layout_of (parallelism_of shape.now) (plan_view plan.now) }
        requires wired { IsWiringOf (map pipe_view wiring.old.layout.pipes.items) tables.now
            shape.now.split wiring.old.shared }
        requires unused { AreUnused (map share_view wiring.old.shared.pipes.items) }
        ensures { IfOk result (IsNetOf (plan_view plan.now) (map rows_of_table tables.now)) }
    {
        net_laws::layouts_fit(plan);
        plan_fit_laws::consistent_plans_fit(plan);
        let Wiring { layout, shared } = wiring;
        let bells = shared.bells;
        let drivers = drivers_of(
            alloc,
            layout,
            tables,
            shared,
            shape.split,
            shape.page,
            shape.replay,
            courier,
        )?;
        Ok(Net {
            plan,
            pipes: layout.pipes.as_slice(),
            drivers,
            bells,
        })
    }
}
