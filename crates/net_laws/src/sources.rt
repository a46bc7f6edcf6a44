//! What the drivers of a pipe took of its source. In each law the drivers are those of the layout, all of them were taken
//! apart, and these rows flowed through them.
ghost use Rattle.std.specs.Prelude.{◌≡◌, ℕ, List, None, Some, slice_get};
ghost use Rattle.sql_values.specs.declared.types.SqlType.{SqlType};
ghost use Rattle.operator_core.specs.Rows.{Row};
ghost use Rattle.driver_loop.specs.Drivers.{DriverState};
ghost use Rattle.plan_docs.specs.declared.plan.Output.{Output};
ghost use Rattle.plan_run_laws.specs.Nets.{IsAlone};
ghost use Rattle.plan_run_laws.specs.RunPlans.{RunPlan};
ghost use Rattle.plan_spreads.specs.Runs.{output_view};
ghost use Rattle.plan_layout.specs.Pipes as pipes;
ghost use Rattle.plan_layout.specs.Pipes.{PipeForm};
ghost use Rattle.driver_net_laws.specs.Nets.{AreDriversOf, NetForm};
ghost use Rattle.driver_net_laws.specs.Settled.{AreSettled};
ghost use Rattle.driver_net_laws.specs.States.{Flow, IsFlowOf, pipe_states_of, rows_taken_by, sources_ended};
ghost use Rattle.net_laws.specs.Giving.{AreSides, IsPlainlyFetched, IsRoot};
ghost use Rattle.net_laws.specs.Takes.{TakesRoot, TakesRows, TakesSides, TakesTable};

/// The law that where all drivers were taken apart, there are rows that flowed through them: those that their targets were
/// given, and those that came to the stages for the steps of their pipes.
pub fn rows_flowed()
    ensures { (net : NetForm) (drivers : List DriverState) → AreSettled net drivers
        → (flow : Flow) × IsFlowOf net.layout drivers flow }
{}

/// The law that what the drivers of a pipe took of a table, in all tasks, is part of its rows, cut to the columns, and
/// all of them where all have ended.
pub fn tables_pass()
    ensures { (net : NetForm) (drivers : List DriverState) (flow : Flow)
        → AreDriversOf net drivers → AreSettled net drivers → IsFlowOf net.layout drivers flow
        → (at : ℕ) (pipe : PipeForm) → slice_get net.layout at ≡ Some pipe
        → (place : ℕ) (columns : List ℕ) (kinds : List SqlType)
        → pipe.source ≡ pipes.table place columns kinds
        → TakesTable net.tables pipe.tasks pipe.drivers (rows_taken_by drivers pipe)
        (sources_ended drivers pipe) place columns }
{}

/// The law that so it is in each task of a pipe, of no scan, that takes rows of the plan there by one driver.
pub fn rows_pass()
    ensures { (net : NetForm) (drivers : List DriverState) (flow : Flow)
        → AreDriversOf net drivers → AreSettled net drivers → IsFlowOf net.layout drivers flow
        → (at : ℕ) (pipe : PipeForm) → slice_get net.layout at ≡ Some pipe
        → (kinds : List SqlType) (list : List Row) → pipe.source ≡ pipes.rows kinds list
        → pipe.scan ≡ None → IsAlone pipe.drivers
        → TakesRows pipe.tasks (pipe_states_of net.layout drivers flow at) list }
{}

/// The law that a union takes in each task, by one driver, what its two sides gave there: and all of it where that
/// driver has ended; those of the sides are then done.
pub fn unions_pass()
    ensures { (net : NetForm) (drivers : List DriverState) (flow : Flow)
        → AreDriversOf net drivers → AreSettled net drivers → IsFlowOf net.layout drivers flow
        → (at : ℕ) (pipe : PipeForm) → slice_get net.layout at ≡ Some pipe
        → pipe.source ≡ pipes.sides → pipe.scan ≡ None → IsAlone pipe.drivers
        → (i j : ℕ) → AreSides net.layout pipe.tasks at i j
        → TakesSides pipe.tasks (pipe_states_of net.layout drivers flow at)
        (pipe_states_of net.layout drivers flow i) (pipe_states_of net.layout drivers flow j) }
{}

/// The law that what the drivers of a task took of a fragment, over one that fetches for them, is part of what is sent
/// there of all that the drivers of its root gave, and all of it where they have ended; those of the root are then done.
pub fn fragments_pass()
    ensures { (net : NetForm) (drivers : List DriverState) (flow : Flow)
        → AreDriversOf net drivers → AreSettled net drivers → IsFlowOf net.layout drivers flow
        → (at : ℕ) (pipe : PipeForm) → slice_get net.layout at ≡ Some pipe
        → (number : ℕ) → pipe.source ≡ pipes.fragment number → pipe.scan ≡ None
        → (output : Output) (m j : ℕ) → IsRoot net.layout output m at j
        → IsPlainlyFetched net.layout at pipe.tasks → (run : RunPlan)
        → TakesRoot pipe.tasks (pipe_states_of net.layout drivers flow at) (output_view output) m run
        (pipe_states_of net.layout drivers flow j) }
{}
