//! The drivers of a pipeline in all tasks of its fragment.
ghost use Rattle.std.specs.Prelude.{◌≡◌, ℕ, ◌<◌, List, ◌∷◌, [], Bool, get_or, length, map, take};
ghost use Rattle.sql_values.specs.declared.fail.Fail.{Fail};
ghost use Rattle.col_pages.specs.Fits.{AllFit};
ghost use Rattle.bag_laws.specs.Laws.{TaskRows};
ghost use Rattle.operator_core.specs.Rows.{Row};
ghost use Rattle.operator_core.specs.Stages.{FailsAfter};
ghost use Rattle.plan_trees.specs.Allowed.{strict};
ghost use Rattle.plan_run_laws.specs.Faults.{Failed};
ghost use Rattle.plan_run_laws.specs.Nets.{Lanes, Went, WentInto};
ghost use Rattle.plan_run_laws.specs.RunPlans.{RunPlan};
ghost use Rattle.plan_run_laws.specs.Stops.{AllSet, AreOpen, Flags, Stops};
ghost use Rattle.stage_meanings.specs.Pipelines.{NodeStage};
ghost use Rattle.pipe_laws.specs.Stopped.{AgreeWith};
ghost use Rattle.pipe_laws.specs.Lanes.{AreHalved, AreLanes, IsLane, NeverFails, Noted, notes_of_lanes};

use operator_core::Operator;
use sql_values::RowList;
use std::marker::PhantomData;

/// The law that drivers whose operators are the stages of a node's pipeline can go on wherever they stand.
pub fn lanes_go_on<O: Operator>(_of: PhantomData<O>)
    ensures { (n w : ℕ) (run : RunPlan) (notes : ℕ → ℕ → Noted) (all : ℕ → ℕ → List O)
        (took gave : Lanes) (ended done : Flags)
        → AreLanes O.Operator n w run notes all took gave ended done
        → AreOpen [] n w run (notes_of_lanes run notes) took gave ended done }
{
    operator_core::laws::laws::<O>(PhantomData);
}

/// The law that they gave what the stages make of what they took, where all of them are done; over any builds with which
/// their notes agree.
pub fn lanes_make<O: Operator>(_of: PhantomData<O>)
    ensures { (n w : ℕ) (run : RunPlan) (notes : ℕ → ℕ → Noted) (all : ℕ → ℕ → List O)
        (took gave : Lanes) (ended done : Flags) (builds : List TaskRows)
        → AreLanes O.Operator n w run notes all took gave ended done → AllSet n w done
        → ((k d : ℕ) → k < n → d < w
        → AgreeWith (notes k d) (map (λ (build : TaskRows). build k) builds))
        → Went strict n w run builds took gave }
{
    operator_core::laws::laws::<O>(PhantomData);
}

/// The law that what such a driver gave has the types that its last operator gives.
pub fn lanes_fit<O: Operator>(_of: PhantomData<O>)
    ensures { (run : RunPlan) (notes : Noted) (all : List O) (took gave : List Row)
        (ended done : Bool) (lane : IsLane O.Operator run notes all took gave ended done)
        → AllFit lane.given gave }
{
    operator_core::laws::laws::<O>(PhantomData);
}

/// The law that drivers with the first half of an operator behind their node's can go on.
pub fn halves_go_on<O: Operator>(_of: PhantomData<O>)
    ensures { (n w : ℕ) (run : RunPlan) (notes : ℕ → ℕ → Noted) (half : NodeStage)
        (all : ℕ → ℕ → List O) (took gave : Lanes) (ended done : Flags)
        → AreHalved O.Operator n w run notes half all took gave ended done
        → AreOpen (half.stage ∷ []) n w run (notes_of_lanes run notes) took gave ended done }
{
    operator_core::laws::laws::<O>(PhantomData);
}

/// The law that these gave what their stages make, where all of them are done.
pub fn halves_make<O: Operator>(_of: PhantomData<O>)
    ensures { (n w : ℕ) (run : RunPlan) (notes : ℕ → ℕ → Noted) (half : NodeStage)
        (all : ℕ → ℕ → List O) (took gave : Lanes) (ended done : Flags) (builds : List TaskRows)
        → AreHalved O.Operator n w run notes half all took gave ended done → AllSet n w done
        → ((k d : ℕ) → k < n → d < w
        → AgreeWith (notes k d) (map (λ (build : TaskRows). build k) builds))
        → WentInto half.stage strict n w run builds took gave }
{
    operator_core::laws::laws::<O>(PhantomData);
}

/// The law that where an operator of one of them fails, its node has failed, in the run that this stopped.
pub fn lanes_fail<O: Operator>(tables: &[RowList], _of: PhantomData<O>)
    ensures { (n w : ℕ) (run : RunPlan) (notes : ℕ → ℕ → Noted) (all : ℕ → ℕ → List O)
        (took gave : Lanes) (ended done : Flags)
        → AreLanes O.Operator n w run notes all took gave ended done
        → Stops tables.now n w run (notes_of_lanes run notes) took ended
        → (node : ℕ) (kind : Fail) (task driver : ℕ) → task < n → driver < w
        → (i : ℕ) (s : O) → i < length (all task driver) → s ≡ get_or (all task driver) i s
        → FailsAfter O.Operator (take i (all task driver)) (O.Operator.as_made s)
        (ended task driver) (took task driver) node kind
        → Failed tables.now n w run (notes_of_lanes run notes) took ended node kind }
{
    operator_core::laws::laws::<O>(PhantomData);
}

/// The law that so it is where the first half of an operator stands behind them, which itself never fails.
pub fn halves_fail<O: Operator>(tables: &[RowList], _of: PhantomData<O>)
    ensures { (n w : ℕ) (run : RunPlan) (notes : ℕ → ℕ → Noted) (half : NodeStage)
        (all : ℕ → ℕ → List O) (took gave : Lanes) (ended done : Flags)
        → NeverFails half.stage → AreHalved O.Operator n w run notes half all took gave ended done
        → Stops tables.now n w run (notes_of_lanes run notes) took ended
        → (node : ℕ) (kind : Fail) (task driver : ℕ) → task < n → driver < w
        → (i : ℕ) (s : O) → i < length (all task driver) → s ≡ get_or (all task driver) i s
        → FailsAfter O.Operator (take i (all task driver)) (O.Operator.as_made s)
        (ended task driver) (took task driver) node kind
        → Failed tables.now n w run (notes_of_lanes run notes) took ended node kind }
{
    operator_core::laws::laws::<O>(PhantomData);
}
