//! What follows from the definitions.
ghost use Rattle.std.specs.Prelude.{◌≡◌, ◌⊎◌, ℕ, List, []};
ghost use Rattle.sql_values.specs.declared.fail.Fail.{Fail};
ghost use Rattle.plan_trees.specs.Allowed.{Gives, strict};
ghost use Rattle.plan_trees.specs.Stopped.{MayFail};
ghost use Rattle.plan_trees.specs.Widths.{FitsWidths};
ghost use Rattle.plan_run_laws.specs.Placements.{Placed};
ghost use Rattle.plan_run_laws.specs.RunPlans.{RunPlan, tree_of_run};
ghost use Rattle.plan_run_laws.specs.Spreads.{whole};
ghost use Rattle.pipe_laws.specs.Fits.{FitsTables};
ghost use Rattle.pipe_laws.specs.Lanes.{Noted};
ghost use Rattle.pipe_laws.specs.Pipes.{AreOver, HasFailing, IsPipeOf, PipeState, Stands};
ghost use Rattle.lost_row_laws.specs.Runs.{AreTyped};
ghost use Rattle.lost_row_laws.specs.Sieves.{Sieve};
ghost use Rattle.sieve_laws.specs.LosingPipes.{IsBelowLosing, RightsTyped, StandsLosing};

use operator_core::Operator;
use sql_values::RowList;
use std::marker::PhantomData;

/// The law that where all drivers are over, what the driver of the root gave is a list that the plan's tree allows, also
/// where scans lost rows that sieves of joins above hold back.
pub fn pipes_that_lost_rows_give<O: Operator>(tables: &[RowList], _of: PhantomData<O>)
    ensures { (run : RunPlan) → AreTyped run → FitsWidths (tree_of_run run) → Placed 1 run whole
        → (pipes : ℕ → PipeState O) (own : ℕ → List Sieve) (root : ℕ)
        → IsPipeOf O.Operator 1 run (pipes root) → (pipes root).drivers ≡ 1
        → StandsLosing O.Operator pipes own tables.now [] root 1 run (pipes root).notes
        → AreOver pipes → Gives strict (tree_of_run run) tables.now ((pipes root).gave 0 0) }
{
    operator_core::laws::laws::<O>(PhantomData);
}

/// The law that where an operator of a driver failed, in the root's pipe or in one below, its node may fail with this kind, also where
/// scans lost such rows.
pub fn pipes_that_lost_rows_fail<O: Operator>(tables: &[RowList], _of: PhantomData<O>)
    ensures { (run : RunPlan) → AreTyped run → FitsWidths (tree_of_run run) → Placed 1 run whole
        → (pipes : ℕ → PipeState O) (own : ℕ → List Sieve) (root : ℕ)
        → IsPipeOf O.Operator 1 run (pipes root) → (pipes root).drivers ≡ 1
        → (stands : StandsLosing O.Operator pipes own tables.now [] root 1 run (pipes root).notes)
        → (node : ℕ) (kind : Fail) (place : ℕ) → HasFailing O.Operator (pipes place) node kind
        → (place ≡ root) ⊎ IsBelowLosing O.Operator pipes own tables.now [] place root 1 run
        (pipes root).notes stands
        → MayFail (tree_of_run run) tables.now node kind }
{
    operator_core::laws::laws::<O>(PhantomData);
}

/// The law that pipes that lost nothing stand so, where what the right side of each join gave has that side's types.
pub fn pipes_that_lost_nothing_stand<O: Operator>(tables: &[RowList], _of: PhantomData<O>)
    ensures { (pipes : ℕ → PipeState O) → (at n : ℕ) (run : RunPlan) (notes : ℕ → ℕ → Noted)
        → (stands : Stands O.Operator pipes tables.now at n run notes)
        → RightsTyped O.Operator pipes tables.now at n run notes stands
        → StandsLosing O.Operator pipes (λ _. []) tables.now [] at n run notes }
{}

/// The law that a run whose tree fits tables has typed expressions, as the laws here ask.
pub fn fitting_runs_are_typed(tables: &[RowList])
    ensures { (run : RunPlan) → FitsTables (tree_of_run run) tables.now → AreTyped run }
{}
