//! What follows from what operators mean.
ghost use Rattle.std.specs.Prelude.{◌≡◌, ℕ, ◌<◌, List, [], ◌∷◌, ◌++◌, Bool, true, IsTrue, Some, None, length, get_or, map, take};
ghost use Rattle.sql_values.specs.declared.types.SqlType.{SqlType};
ghost use Rattle.sql_values.specs.declared.fail.Fail.{Fail};
ghost use Rattle.sql_values.specs.declared.relational.Call.{Call};
ghost use Rattle.sql_functions.specs.CallTypes.{type_at};
ghost use Rattle.relation_laws.specs.Groups.{groups_of};
ghost use Rattle.sql_exprs.specs.Forms.{Form};
ghost use Rattle.sql_exprs.specs.Meaning.{kind_of};
ghost use Rattle.operator_core.specs.Rows.{Row};
ghost use Rattle.operator_core.specs.Stages.{AreMadeOf, Chain, FailsAfter, Linked, ToldInTurn, last_finished};
ghost use Rattle.col_pages.specs.Fits.{AllFit};
ghost use Rattle.page_processor.specs.Typed.{AllTyped};
ghost use Rattle.row_ops.specs.RowJudges.{columns_in, row_judge};
ghost use Rattle.plan_trees.specs.Allowed.{strict};
ghost use Rattle.plan_trees.specs.Steps.{StepForm};
ghost use Rattle.plan_trees.specs.TreeTypes.{call_kind};
ghost use Rattle.bag_laws.specs.Pieces.{finals_of};
ghost use Rattle.accumulators.specs.Limits.{are_allowed};
ghost use Rattle.plan_trees.specs.Layouts.{layout_types};
ghost use Rattle.plan_run_laws.specs.Stages.{StagesMake as StageChain, does, filter, final, grouping, partial, project};
ghost use Rattle.plan_run_laws.specs.Stops.{StagesCanGoOn};
ghost use Rattle.stage_meanings.specs.Meanings.{ActsAs, AllMean, Means};
ghost use Rattle.stage_meanings.specs.Pipelines.{FailsIn, NodeStage, at_node, stages_of};
ghost use Rattle.stage_meanings.specs.RowMeanings.{JudgesRows, MakesRows, Orders};
ghost use Rattle.stage_meanings.specs.GroupMeanings.{GivesGroups};

use operator_core::Operator;
use std::marker::PhantomData;

/// The law that an operator which keeps the rows on which a predicate is TRUE, and gives each column of
/// them, is a filter.
pub fn filters_mean<O: Operator>(_of: PhantomData<O>)
    ensures { (m : O) (node : ℕ) (types : List SqlType) (predicate : Form)
        → JudgesRows O.Operator m node (row_judge types (Some predicate) (columns_in types))
        → Means O.Operator m types (at_node node (filter types predicate) ∷ []) types }
{}

/// The law that an operator which gives the values of typed columns is a project.
pub fn projects_mean<O: Operator>(_of: PhantomData<O>)
    ensures { (m : O) (node : ℕ) (types : List SqlType) (columns : List Form)
        → AllTyped types columns → JudgesRows O.Operator m node (row_judge types None columns)
        → Means O.Operator m types (at_node node (project types columns) ∷ [])
        (map (kind_of types) columns) }
{}

/// The law that an operator which chooses and orders rows as a step does, and never fails, is that step.
pub fn orders_mean<O: Operator>(_of: PhantomData<O>)
    ensures { (m : O) (node : ℕ) (types : List SqlType) (step : StepForm) → Orders step
        → MakesRows O.Operator m (does types step)
        → Means O.Operator m types (at_node node (does types step) ∷ []) types }
{}

/// The law that an operator which gives the rows of groups, and fails as one of them does, is a grouping.
pub fn groupings_mean<O: Operator>(_of: PhantomData<O>)
    ensures { (m : O) (node : ℕ) (types : List SqlType) (keys : List ℕ) (calls : List Call)
        → IsTrue (are_allowed types calls)
        → GivesGroups O.Operator m node (groups_of types keys calls)
        → Means O.Operator m types (at_node node (grouping types keys calls) ∷ [])
        (map (type_at types) keys ++ map (call_kind types) calls) }
{}

/// The law that an operator which gives the partial rows of groups is the first half of a grouping.
pub fn partials_mean<O: Operator>(_of: PhantomData<O>)
    ensures { (m : O) (node : ℕ) (types : List SqlType) (keys : List ℕ) (calls : List Call)
        → MakesRows O.Operator m (partial keys calls)
        → Means O.Operator m types (at_node node (partial keys calls) ∷ [])
        (layout_types (map (type_at types) keys) types calls) }
{}

/// The law that an operator which gives the rows of groups of partial rows, and fails as one of them does, is
/// the second half of a grouping.
pub fn finals_mean<O: Operator>(_of: PhantomData<O>)
    ensures { (m : O) (node : ℕ) (kinds types : List SqlType) (calls : List Call)
        → IsTrue (are_allowed types calls)
        → GivesGroups O.Operator m node (finals_of types (length kinds) calls)
        → Means O.Operator m (layout_types kinds types calls)
        (at_node node (final types (length kinds) calls) ∷ [])
        (kinds ++ map (call_kind types) calls) }
{}

/// The law that an operator which acts as another means what that one means: as one that stands in
/// an enum.
pub fn acting_operators_mean<O: Operator, P: Operator>(_of: PhantomData<O>, _as: PhantomData<P>)
    ensures { (m : O) (n : P) (taken given : List SqlType) (pipeline : List NodeStage)
        → ActsAs O.Operator m P.Operator n → Means P.Operator n taken pipeline given
        → Means O.Operator m taken pipeline given }
{}

/// The law that where nothing failed, what operators gave is what the stages make that they mean.
pub fn finished_drivers_make<O: Operator>(made: &[O])
    ensures { (taken given : List SqlType) (pipeline : List NodeStage)
        → AllMean O.Operator made.now taken pipeline given
        → (X Y : List Row) → AllFit taken X → Chain O.Operator true made.now X Y
        → StageChain strict (stages_of pipeline) X Y }
{}

/// The law that the stages which operators mean can go on wherever the operators stand, whatever
/// comes, and are done where the last operator is finished.
pub fn drivers_can_go_on<O: Operator>(stages: &[O])
    ensures { (made : List O) (taken given : List SqlType) (pipeline : List NodeStage)
        → AllMean O.Operator made taken pipeline given → AreMadeOf O.Operator stages.now made
        → (ended : Bool) (X Y : List Row) → ToldInTurn O.Operator ended stages.now
        → Linked O.Operator stages.now X Y → AllFit taken X
        → StagesCanGoOn (stages_of pipeline) X Y ended (last_finished O.Operator ended stages.now) }
{
    operator_core::laws::laws::<O>(PhantomData);
}

/// The law that the failure of an operator is one of a stage that it means.
pub fn failed_drivers_fail<O: Operator>(stages: &[O])
    ensures { (made : List O) (taken given : List SqlType) (pipeline : List NodeStage)
        → AllMean O.Operator made taken pipeline given → AreMadeOf O.Operator stages.now made
        → (ended : Bool) (X : List Row) → AllFit taken X
        → (i : ℕ) (m : O) → i < length made → m ≡ get_or made i m → (node : ℕ) (kind : Fail)
        → FailsAfter O.Operator (take i stages.now) m ended X node kind
        → FailsIn pipeline X ended node kind }
{
    operator_core::laws::laws::<O>(PhantomData);
}
