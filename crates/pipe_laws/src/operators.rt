//! The operators of one driver as the stages of a pipeline.
ghost use Rattle.std.specs.Prelude.{◌≡◌, ℕ, ◌<◌, List, ◌++◌, Bool, true, Option, Some, get_or, length, map, take};
ghost use Rattle.std.specs.List.{zip};
ghost use Rattle.sql_values.specs.declared.fail.Fail.{Fail};
ghost use Rattle.join_index.specs.Keys.{IndexedRows};
ghost use Rattle.sql_values.specs.declared.relational.JoinKind.{JoinKind};
ghost use Rattle.sql_values.specs.declared.types.SqlType.{SqlType as Typed};
ghost use Rattle.col_pages.specs.Fits.{AllFit};
ghost use Rattle.operator_core.specs.Rows.{Row};
ghost use Rattle.operator_core.specs.Stages.{Chain, FailsAfter, Linked, ToldInTurn, last_finished};
ghost use Rattle.plan_trees.specs.Allowed.{strict};
ghost use Rattle.plan_run_laws.specs.Stages.{StagesMake as StageChain, probe};
ghost use Rattle.plan_run_laws.specs.RunPlans.{RunPlan};
ghost use Rattle.stage_meanings.specs.Pipelines.{at_node, stages_of};
ghost use Rattle.pipe_laws.specs.Trees.{stages_over};
ghost use Rattle.pipe_laws.specs.Stopped.{AgreeWith, FailsAt, IsOpen};
ghost use Rattle.pipe_laws.specs.Lookups.{IsSourceOf, rows_known};
ghost use Rattle.pipe_laws.specs.Operators.{AreKnown, LooksUp, Operate, Probes, types_of_source};

use hash_join::ProbeOp;
use operator_core::Operator;
use sql_values::SqlType;
use std::marker::PhantomData;

/// The law that a driver whose operators are the stages of a node's pipeline can go on wherever it
/// stands, whatever comes and whatever its notes come to know.
pub fn operators_go_on<O: Operator>(all: &[O])
    ensures { (run : RunPlan) (notes : List (Option (List Row))) (given : List Typed)
        → Operate O.Operator run notes all.now given
        → (ended : Bool) (took gave : List Row) → ToldInTurn O.Operator ended all.now
        → Linked O.Operator all.now took gave → AllFit (types_of_source run) took
        → IsOpen run notes took gave ended (last_finished O.Operator ended all.now) }
{
    operator_core::laws::laws::<O>(PhantomData);
}

/// The law that where nothing failed, and the notes know what the joins built, what the operators gave is
/// what the stages make.
pub fn operators_make<O: Operator>(all: &[O])
    ensures { (run : RunPlan) (notes : List (Option (List Row))) (builds : List (List Row))
        (given : List Typed) → Operate O.Operator run notes all.now given → AreKnown notes builds
        → (took gave : List Row) → AllFit (types_of_source run) took
        → Chain O.Operator true (map O.Operator.as_made all.now) took gave
        → StageChain strict (stages_of (stages_over run builds)) took gave }
{
    operator_core::laws::laws::<O>(PhantomData);
}

/// The law that where the last operator is finished, what they gave is what the stages make, over any builds with
/// which the notes agree: a note may know nothing, where no row came.
pub fn operators_finish<O: Operator>(all: &[O])
    ensures { (run : RunPlan) (notes : List (Option (List Row))) (builds : List (List Row))
        (given : List Typed) → Operate O.Operator run notes all.now given → AgreeWith notes builds
        → (ended : Bool) (took gave : List Row) → ToldInTurn O.Operator ended all.now
        → Linked O.Operator all.now took gave → AllFit (types_of_source run) took
        → last_finished O.Operator ended all.now ≡ true
        → StageChain strict (stages_of (stages_over run builds)) took gave }
{
    operator_core::laws::laws::<O>(PhantomData);
}

/// The law that where an operator failed, a stage of the pipeline fails with this kind: never a probe.
pub fn operators_fail<O: Operator>(all: &[O])
    ensures { (node : ℕ) (kind : Fail) (run : RunPlan) (notes : List (Option (List Row)))
        (given : List Typed) → Operate O.Operator run notes all.now given
        → (ended : Bool) (took : List Row) → AllFit (types_of_source run) took
        → (i : ℕ) (s : O) → i < length all.now → s ≡ get_or all.now i s
        → FailsAfter O.Operator (take i all.now) (O.Operator.as_made s) ended took node kind
        → FailsAt run notes took ended node kind }
{
    operator_core::laws::laws::<O>(PhantomData);
}

/// The law that an operator which probes is the stage of a join, over rows of the left side's types.
pub fn probes_look_up<O: Operator>(_of: PhantomData<O>)
    ensures { (s : O) (noted : Option (List Row)) (id : ℕ) (kind : JoinKind) (on : List (ℕ × ℕ))
        (left : ℕ) (taken right : List Typed)
        → Probes O.Operator s noted kind on left right
        → LooksUp O.Operator s noted taken
        (λ (built : List Row). at_node id (probe kind on left (length right) built)) (taken ++ right) }
{
    operator_core::laws::laws::<O>(PhantomData);
}

/// The law that `ProbeOp` probes, in what its note knows, where that source is found by the keys of the join
/// and has rows of the right side's types.
pub fn probe_ops_probe<'w>(op: &ProbeOp<'w>, keys: &[u32], left: usize, types: &[SqlType])
    requires { length op.now.on ≡ length keys.now }
    ensures { ((source : IndexedRows) → op.now.note.known ≡ Some source
        → IsSourceOf keys.now types.now source)
        → Probes ⟦<ProbeOp<'w> as Operator>⟧ op.now (rows_known op.now.note.known) op.now.kind
        (zip op.now.on keys.now) left types.now }
{}
