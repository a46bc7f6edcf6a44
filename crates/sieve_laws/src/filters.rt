//! What filters in front of a driver's stages do.
ghost use Rattle.std.specs.Prelude.{◌≡◌, ◌<◌, ℕ, List, ◌++◌, Bool, get_or, length, take};
ghost use Rattle.sql_values.specs.declared.fail.Fail.{Fail};
ghost use Rattle.sql_values.specs.declared.types.SqlType.{SqlType as Kind};
ghost use Rattle.col_pages.specs.Fits.{AllFit};
ghost use Rattle.operator_core.specs.Calls.{FailsNow};
ghost use Rattle.operator_core.specs.Rows.{Row};
ghost use Rattle.operator_core.specs.Stages.{FailsAfter, Linked, ToldInTurn, last_finished};
ghost use Rattle.bag_laws.specs.Buckets.{Sits};
ghost use Rattle.bag_laws.specs.Gather.{gather};
ghost use Rattle.plan_trees.specs.Allowed.{strict};
ghost use Rattle.plan_run_laws.specs.Nets.{Lanes, of_tasks};
ghost use Rattle.plan_run_laws.specs.Stops.{AllSet, Flags, Hop};
ghost use Rattle.plan_run_laws.specs.Wholes.{longer};
ghost use Rattle.lost_row_laws.specs.Sieves.{Sieve, is_lost};
ghost use Rattle.sieve_laws.specs.FilterLanes.{AreFiltered, Drops, IsFiltered};

use dyn_filter::FilterOp;
use operator_core::Operator;
use sql_values::RowList;
use std::marker::PhantomData;

/// The law that rows which went through filters have the types of those that came.
pub fn filters_let_rows_through<O: Operator>(_of: PhantomData<O>)
    ensures { (sieves : List Sieve) (types : List Kind) (stages : List O) (came took : List Row)
        (over ended : Bool) → IsFiltered O.Operator sieves types stages came took over ended
        → AllFit types took }
{
    operator_core::laws::laws::<O>(PhantomData);
}

/// The law that where the drivers of a scan have filters in front of their stages, what these took and what the filters
/// lost is what came of the table, but for some rows; none, where all filters are finished. A sieve holds back what they
/// lost.
pub fn filtered_scans_stand<O: Operator>(table: &RowList, _of: PhantomData<O>)
    ensures { (sieves : List Sieve) (types : List Kind) (n w : ℕ) (stages : ℕ → ℕ → List O)
        (came took : Lanes) (over ended : Flags)
        → AreFiltered O.Operator sieves types n w stages came took over ended
        → Hop table.now (gather n (of_tasks w came)) (AllSet n w over) (Unit {0})
        → (lost : Lanes)
        × Hop table.now (gather n (of_tasks w (longer took lost))) (AllSet n w ended) (Unit {0})
        × ((k d : ℕ) → k < n → d < w → Sits (is_lost strict sieves types) (lost k d)) }
{
    operator_core::laws::laws::<O>(PhantomData);
}

/// The law that an operator which fails is none of the filters in front, and fails on what came to it from those behind
/// them.
pub fn filters_never_fail<O: Operator>(_of: PhantomData<O>)
    ensures { (sieves : List Sieve) (types : List Kind) (stages rest : List O)
        (came took gave : List Row) (over ended : Bool)
        → IsFiltered O.Operator sieves types stages came took over ended
        → Linked O.Operator rest took gave → ToldInTurn O.Operator ended rest
        → (node : ℕ) (kind : Fail) (place : ℕ) (s : O) → place < length (stages ++ rest)
        → s ≡ get_or (stages ++ rest) place s → FailsNow O.Operator s node kind
        → (i : ℕ) × (i < length rest) × (s ≡ get_or rest i s)
        × FailsAfter O.Operator (take i rest) (O.Operator.as_made s) ended took node kind }
{
    operator_core::laws::laws::<O>(PhantomData);
}

/// The law that of operators one after the other the first ones took what came and gave what the others took, and those
/// gave the rest, each told to finish in turn.
pub fn operators_are_cut_in_two<O: Operator>(_of: PhantomData<O>)
    ensures linked { (first rest : List O) (came gave : List Row)
        → Linked O.Operator (first ++ rest) came gave
        → (took : List Row) × Linked O.Operator first came took × Linked O.Operator rest took gave }
    ensures told { (first rest : List O) (over : Bool) → ToldInTurn O.Operator over (first ++ rest)
        → ToldInTurn O.Operator over first
        × ToldInTurn O.Operator (last_finished O.Operator over first) rest }
    ensures finished { (first rest : List O) (over : Bool)
        → last_finished O.Operator over (first ++ rest)
        ≡ last_finished O.Operator (last_finished O.Operator over first) rest }
{}

/// The law that `FilterOp` drops rows by the domain that it knows.
pub fn filter_ops_drop<'w>(op: &FilterOp<'w>)
    ensures { Drops ⟦<FilterOp<'w> as Operator>⟧
        (record { column = op.now.column; known = op.now.known }) op.now }
{}
