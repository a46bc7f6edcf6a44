//! What follows from the definitions, of rows that have their types.
ghost use Rattle.std.specs.Prelude.{◌≡◌, ◌∷◌, ◌++◌, List, IsTrue, Ok, flat_map, length, map};
ghost use Rattle.std.specs.List.{list_all};
ghost use Rattle.sql_values.specs.declared.value.Value.{Value as Cell};
ghost use Rattle.sql_values.specs.Types.{row_has_types, rows_have_types};
ghost use Rattle.sql_functions.specs.CallTypes.{type_at};
ghost use Rattle.relation_laws.specs.Aggregates.{aggregates_of};
ghost use Rattle.relation_laws.specs.Groups.{groups_of};
ghost use Rattle.relation_laws.specs.Partials.{partial_of};
ghost use Rattle.relation_laws.specs.Verdicts.{kept};
ghost use Rattle.plan_trees.specs.TreeTypes.{call_kind};
ghost use Rattle.bag_laws.specs.Pieces.{partials_of};
ghost use Rattle.accumulators.specs.Columns.{kind_in};
ghost use Rattle.accumulators.specs.Limits.{are_allowed, is_partial, takes_row};
ghost use Rattle.aggregation.specs.Layouts.{is_layout_row};
ghost use Rattle.plan_trees.specs.Layouts.{call_layout, layout_types};

use sql_values::{Call, Row, RowList, SqlType};

/// The law that the results of calls over a group have the types of the calls, and that the rows of
/// groups, each its key and its results, have the types of the key columns and of the calls.
#[tactic(auto, using(crate::proofs::GroupLemmas::aggregates_keep, crate::proofs::GroupLemmas::groups_keep))]
pub fn results_of_groups_have_types(types: &[SqlType], keys: &[u32], calls: &[Call], rows: &RowList)
    requires allowed { IsTrue (are_allowed types.now calls.now) }
    requires typed { IsTrue (rows_have_types types.now rows.now) }
    ensures whole { (results : List Cell) → aggregates_of types.now calls.now rows.now ≡ Ok results →
        IsTrue (row_has_types (map (call_kind types.now) calls.now) results) }
    ensures groups { IsTrue (rows_have_types
        (map (type_at types.now) keys.now ++ map (call_kind types.now) calls.now)
        (flat_map kept (groups_of types.now keys.now calls.now rows.now))) }
{}

/// The law that a group's partial row has the types of its layout, and so have the partial rows of
/// all groups, each behind its key.
#[tactic(auto, using(crate::proofs::PartialLemmas::partials_keep, crate::proofs::PartialLemmas::keyed_partials_keep))]
pub fn partial_rows_have_types(types: &[SqlType], keys: &[u32], calls: &[Call], rows: &RowList)
    requires allowed { IsTrue (are_allowed types.now calls.now) }
    requires typed { IsTrue (rows_have_types types.now rows.now) }
    ensures part { IsTrue (row_has_types
        (SqlType.Decimal 38 0 ∷ flat_map (call_layout types.now) calls.now)
        (partial_of calls.now rows.now)) }
    ensures keyed { IsTrue (rows_have_types
        (layout_types (map (type_at types.now) keys.now) types.now calls.now)
        (partials_of keys.now calls.now rows.now)) }
{}

/// The law that a group can take each row that has the types of its rows.
#[tactic(auto, using(crate::proofs::TakenLemmas::typed_rows_are_taken))]
pub fn typed_rows_are_taken(types: &[SqlType], calls: &[Call], row: &Row)
    requires { IsTrue (row_has_types types.now row.now) }
    ensures { IsTrue (takes_row calls.now (map (kind_in types.now) calls.now) row.now) }
{}

/// The law that a group can take the partial row of rows that have their types, also from behind the
/// key of a group.
#[tactic(auto, using(crate::proofs::TakenLemmas::typed_partials_are_taken, crate::proofs::TakenLemmas::keyed_partials_are_taken))]
pub fn typed_partial_rows_are_taken(types: &[SqlType], keys: &[u32], calls: &[Call], rows: &RowList)
    requires { IsTrue (rows_have_types types.now rows.now) }
    ensures part { IsTrue (is_partial calls.now (map (kind_in types.now) calls.now) (partial_of calls.now rows.now)) }
    ensures keyed { IsTrue (list_all
        (is_layout_row (record { width = length keys.now; types = types.now; calls = calls.now }))
        (partials_of keys.now calls.now rows.now)) }
{}
