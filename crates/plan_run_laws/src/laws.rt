//! What follows from the definitions. Tasks and drivers are numbered from 0; their rows are
//! functions of the numbers.
ghost use Rattle.std.specs.Prelude.{ℕ, ◌<◌, List, []};
ghost use Rattle.bag_laws.specs.Laws.{TaskRows};
ghost use Rattle.plan_run_laws.specs.Faults.{Failed};
ghost use Rattle.plan_run_laws.specs.Nets.{Below, Lanes, Went};
ghost use Rattle.plan_run_laws.specs.Placements.{Placed};
ghost use Rattle.plan_run_laws.specs.RunPlans.{RunPlan, tree_of_run};
ghost use Rattle.plan_run_laws.specs.Runs.{Ran};
ghost use Rattle.plan_run_laws.specs.Spreads.{Says, Spread, whole};
ghost use Rattle.plan_run_laws.specs.Stops.{AreOpen, Flags, Notes, Stops};
ghost use Rattle.plan_run_laws.specs.Wholes.{RunsOn};
ghost use Rattle.plan_trees.specs.Allowed.{Gives, Mode};
ghost use Rattle.plan_trees.specs.Stopped.{MayFail};
ghost use Rattle.plan_trees.specs.Widths.{FitsWidths};
ghost use Rattle.sql_values.specs.declared.fail.Fail.{Fail};

use sql_values::RowList;

/// The law that what the tasks of a fragment give at a node says of the node's tree what its
/// spread says.
pub fn spreads_hold(tables: &[RowList])
    ensures { (mode : Mode) (n : ℕ) (plan : RunPlan) (spread : Spread) → 0 < n →
        FitsWidths (tree_of_run plan) → Placed n plan spread →
        (out : TaskRows) → Ran mode tables.now n plan out →
        Says spread mode (tree_of_run plan) tables.now n out }
{}

/// The law that what one task gives at the root of a placed plan is a list that the plan's tree
/// gives in the same mode. In a strict run nothing fails, and the tree allows the list (`Allows`);
/// in a skipping run it is one that is allowed with what fails left out.
pub fn tasks_compose(tables: &[RowList])
    ensures { (mode : Mode) (plan : RunPlan) →
        FitsWidths (tree_of_run plan) → Placed 1 plan whole →
        (out : TaskRows) → Ran mode tables.now 1 plan out →
        Gives mode (tree_of_run plan) tables.now (out 0) }
{}

/// The law that where each driver gave what its stages make of what it took, and took what the
/// drivers below gave, the driver of the plan's root gave a list that the plan's tree gives in the
/// same mode: one that the tree allows, where the run is strict.
pub fn drivers_compose(tables: &[RowList])
    ensures { (mode : Mode) (plan : RunPlan) →
        FitsWidths (tree_of_run plan) → Placed 1 plan whole →
        (builds : List TaskRows) (took gave : Lanes) →
        Below mode tables.now 1 1 plan builds took → Went mode 1 1 plan builds took gave →
        Gives mode (tree_of_run plan) tables.now (gave 0 0) }
{}

/// The law that a stopped run is the beginning of a whole one that leaves out what fails. What the
/// drivers of the node's pipeline took and gave stands there at the front, and more behind it, but
/// none where a source had ended or a driver was done.
pub fn stopped_runs_go_on(tables: &[RowList])
    ensures { (n w : ℕ) (plan : RunPlan) →
        (notes : Notes) (took gave : Lanes) (ended done : Flags) →
        Stops tables.now n w plan notes took ended →
        AreOpen [] n w plan notes took gave ended done →
        RunsOn tables.now n w plan notes took gave ended done }
{}

/// The law that where a driver of a stopped run failed, its node may fail with this kind, on a row or a
/// group that the plan's tree may list.
pub fn failures_compose(tables: &[RowList])
    ensures { (plan : RunPlan) → FitsWidths (tree_of_run plan) → Placed 1 plan whole →
        (notes : Notes) (took : Lanes) (ended : Flags) (node : ℕ) (kind : Fail) →
        Failed tables.now 1 1 plan notes took ended node kind →
        MayFail (tree_of_run plan) tables.now node kind }
{}
