//! The pipes of a plan: its answer, and its failure.
ghost use Rattle.std.specs.Prelude.{◌≡◌, ◌⊎◌, ℕ};
ghost use Rattle.sql_values.specs.declared.fail.Fail.{Fail};
ghost use Rattle.plan_trees.specs.Allowed.{Gives, strict};
ghost use Rattle.plan_trees.specs.Stopped.{MayFail};
ghost use Rattle.plan_trees.specs.Widths.{FitsWidths};
ghost use Rattle.plan_run_laws.specs.Placements.{Placed};
ghost use Rattle.plan_run_laws.specs.RunPlans.{RunPlan, tree_of_run};
ghost use Rattle.plan_run_laws.specs.Spreads.{whole};
ghost use Rattle.pipe_laws.specs.Pipes.{AreOver, HasFailing, IsBelow, IsPipeOf, PipeState, Stands};

use operator_core::Operator;
use sql_values::RowList;
use std::marker::PhantomData;

/// The law that where all drivers are over, what the driver of the root gave is a list that the plan's tree allows.
pub fn pipes_give<O: Operator>(tables: &[RowList], _of: PhantomData<O>)
    ensures { (run : RunPlan) → FitsWidths (tree_of_run run) → Placed 1 run whole
        → (pipes : ℕ → PipeState O) (root : ℕ) → IsPipeOf O.Operator 1 run (pipes root)
        → (pipes root).drivers ≡ 1
        → Stands O.Operator pipes tables.now root 1 run (pipes root).notes → AreOver pipes
        → Gives strict (tree_of_run run) tables.now ((pipes root).gave 0 0) }
{
    operator_core::laws::laws::<O>(PhantomData);
}

/// The law that where an operator of a driver failed, in the root's pipe or in one below, its node may fail with this kind.
pub fn pipes_fail<O: Operator>(tables: &[RowList], _of: PhantomData<O>)
    ensures { (run : RunPlan) → FitsWidths (tree_of_run run) → Placed 1 run whole
        → (pipes : ℕ → PipeState O) (root : ℕ) → IsPipeOf O.Operator 1 run (pipes root)
        → (pipes root).drivers ≡ 1
        → (stands : Stands O.Operator pipes tables.now root 1 run (pipes root).notes)
        → (node : ℕ) (kind : Fail) (place : ℕ) → HasFailing O.Operator (pipes place) node kind
        → (place ≡ root)
        ⊎ IsBelow O.Operator pipes tables.now place root 1 run (pipes root).notes stands
        → MayFail (tree_of_run run) tables.now node kind }
{
    operator_core::laws::laws::<O>(PhantomData);
}
