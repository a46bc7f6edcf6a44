//! What follows from the definitions.
ghost use Rattle.std.specs.Prelude.{◌≡◌, ◌<◌, ℕ, List, [], ◌∷◌, Contains, Some, get_or, length, map};
ghost use Rattle.bag_laws.specs.Buckets.{Sits};
ghost use Rattle.bag_laws.specs.Laws.{TaskRows};
ghost use Rattle.column_origins.specs.declared.origin.Origin.{Origin};
ghost use Rattle.column_origins.specs.Origins.{origin_of};
ghost use Rattle.plan_run_laws.specs.Nets.{Lanes, Went};
ghost use Rattle.plan_run_laws.specs.Placements.{Placed};
ghost use Rattle.plan_run_laws.specs.Spreads.{whole};
ghost use Rattle.plan_run_laws.specs.Stops.{Flags, Notes};
ghost use Rattle.plan_run_laws.specs.RunPlans.{RunPlan, tree_of_run};
ghost use Rattle.plan_run_laws.specs.Runs.{Ran};
ghost use Rattle.plan_trees.specs.Allowed.{Gives, Mode};
ghost use Rattle.plan_trees.specs.Stopped.{MayFail};
ghost use Rattle.plan_trees.specs.Widths.{FitsWidths};
ghost use Rattle.sql_values.specs.declared.fail.Fail.{Fail};
ghost use Rattle.sql_values.specs.declared.types.SqlType.{SqlType as Kind};
ghost use Rattle.sql_values.specs.Cells.{cell};
ghost use Rattle.sql_values.specs.ColumnRows.{fits_row};
ghost use Rattle.dyn_filter.specs.Domains.{IsDomainOf};
ghost use Rattle.lost_row_laws.specs.Arrivals.{arriving};
ghost use Rattle.lost_row_laws.specs.Domains.{Filtering, KeptByAll, Losses, sieve_of};
ghost use Rattle.lost_row_laws.specs.Faults.{FailedLosing};
ghost use Rattle.lost_row_laws.specs.Nets.{BelowLosing};
ghost use Rattle.lost_row_laws.specs.Runs.{AreAlone, AreTyped, RanLosing};
ghost use Rattle.lost_row_laws.specs.Sieves.{Sieve};

use dyn_filter::Domain;
use sql_values::RowList;

/// The law that a run whose scans lost rows that have no partner above is one that lost none, for every number of tasks:
/// the tasks gave at the node what they gave in a run of all rows. Which rows a scan loses is not said.
pub fn lost_rows_are_put_back(tables: &[RowList])
    ensures { (mode : Mode) (n : ℕ) (plan : RunPlan) → AreTyped plan → (out : TaskRows) → RanLosing mode tables.now [] n plan out → Ran mode tables.now n plan out }
{}

/// The law that where each driver gave what its stages make of what it took, scans lost only rows that have no partner
/// above, and drivers took what the drivers below gave, the driver of the plan's root gave a list that the plan's tree gives
/// in the same mode: one that the tree allows, where the run is strict.
pub fn drivers_that_lost_rows_compose(tables: &[RowList])
    ensures { (mode : Mode) (plan : RunPlan) → AreTyped plan
        → FitsWidths (tree_of_run plan) → Placed 1 plan whole
        → (builds : List TaskRows) (took gave : Lanes)
        → BelowLosing mode tables.now [] 1 1 plan builds took → Went mode 1 1 plan builds took gave
        → Gives mode (tree_of_run plan) tables.now (gave 0 0) }
{}

/// The law that where a driver of a stopped run failed whose scans lost such rows, its node may fail with this kind, on a row or a
/// group that the plan's tree may list.
pub fn failures_with_lost_rows_compose(tables: &[RowList])
    ensures { (plan : RunPlan) → AreTyped plan
        → FitsWidths (tree_of_run plan) → Placed 1 plan whole
        → (notes : Notes) (took : Lanes) (ended : Flags) (node : ℕ) (kind : Fail)
        → FailedLosing tables.now 1 1 plan notes took ended node kind
        → MayFail (tree_of_run plan) tables.now node kind }
{}

/// The law that a sieve comes down to the scan from which its column comes, and stands there at the column of the scan.
pub fn sieves_come_down_to_their_scans()
    ensures { (own : ℕ → List Sieve) (plan : RunPlan) (sieves : List Sieve) (s : Sieve) → Contains sieves s
        → (o : Origin) → origin_of (tree_of_run plan) s.column ≡ Some o
        → Contains (arriving own sieves plan o.scan) (record { column = o.column; pass = s.pass }) }
{}

/// The law that what the domain of a right side's values holds back has no partner there.
pub fn domains_hold_back_what_is_alone(domain: &Domain, on: &[(u32, u32)], rows: &RowList)
    ensures { (k : ℕ) → k < length on.now
        → IsDomainOf (map (λ row. cell row (get_or on.now k (0, 0)).1) rows.now) domain.now
        → AreAlone on.now rows.now
        (sieve_of (record { column = (get_or on.now k (0, 0)).0; domain = domain.now }) ∷ []) }
{}

/// The law that what filters one behind the other lose of rows that fit is held back by their sieves.
pub fn filters_lose_what_is_held_back(rows: &RowList, kept: &RowList)
    ensures { (mode : Mode) (sieves : List Sieve) (types : List Kind) (filters : List Filtering)
        → ((f : Filtering) → Contains filters f → Contains sieves (sieve_of f) × (f.column < length types))
        → Sits (fits_row types) rows.now → KeptByAll filters kept.now rows.now
        → Losses mode sieves types kept.now rows.now }
{}
