//! What dynamic filters in front of the stages of scans know.
ghost use Rattle.std.specs.Prelude.{◌≡◌, ℕ, Contains, List, Some, map, slice_get};
ghost use Rattle.sql_values.specs.declared.types.SqlType.{SqlType};
ghost use Rattle.plan_trees.specs.TreeForms.{pair_view};
ghost use Rattle.plan_run_laws.specs.RunPlans.{RunPlan};
ghost use Rattle.driver_net_laws.specs.Pipes.{stopped};
ghost use Rattle.dyn_filter.specs.declared.domain.Domain.{Domain};
ghost use Rattle.dyn_filter.specs.Filters.{FilterState};
ghost use Rattle.driver_loop.specs.Drivers.{DriverState};
ghost use Rattle.driver_loop.specs.Turns.{filter_of_stage};
ghost use Rattle.driver_loop.specs.contracts.stage.StageOperator.TheImpl.{ghosts};
ghost use Rattle.driver_loop.specs.declared.stage.Stage.{Stage as StageState};
ghost use Rattle.sieve_laws.specs.KnownDomains.{IsKnownOf};
ghost use Rattle.plan_layout.specs.declared.filters.PlacedFilter.{PlacedFilter};
ghost use Rattle.plan_layout.specs.Pipes.{BuildForm};
ghost use Rattle.plan_layout.specs.Pipes as pipes;
ghost use Rattle.net_laws.specs.RunPipes.{Alone, PipeIn, RunsAs};
ghost use Rattle.driver_net_laws.specs.Nets.{AreDriversOf, IsFilterFor, NetForm};
ghost use Rattle.driver_net_laws.specs.Settled.{AreSettled};
ghost use Rattle.driver_net_laws.specs.States.{Flow, IsFlowOf, pipe_states_of};
ghost use Rattle.net_laws.specs.Filtered.{FiltersReach};

/// The law that a domain which such a filter knows is that of the values in the right column of its pair, over all rows that
/// the pipe of its join's right side gave in all tasks; the drivers of that pipe are then done.
pub fn filters_know_right_sides()
    ensures { (net : NetForm) (drivers : List DriverState) → AreDriversOf net drivers
        → AreSettled net drivers → (flow : Flow) → IsFlowOf net.layout drivers flow
        → (run : RunPlan) → FiltersReach net.layout run
        → (f : PlacedFilter) (build : BuildForm) (n : ℕ) (right : RunPlan)
        → PipeIn net.layout n (pipes.cell build) f.pipe (Alone (RunsAs net.layout n right))
        → slice_get build.filters f.place ≡ Some f.filter
        → (types : List SqlType) (d : DriverState) → Contains drivers d
        → (s : StageState) → Contains d.stages s → IsFilterFor net types f (ghosts.as_made s)
        → (op : FilterState) → filter_of_stage s ≡ Some op
        → (domain : Domain) → op.known ≡ Some domain
        → IsKnownOf (map pair_view build.on) n
        (stopped right (pipe_states_of net.layout drivers flow f.pipe))
        (record { pair = f.filter.key; known = Some domain }) domain }
{}
