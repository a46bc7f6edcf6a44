//! What follows from the definitions.
ghost use Rattle.std.specs.Prelude.{◌≡◌, ◌↔◌, ◌<◌, List, [], ◌∷◌, ◌++◌, length, map, false, IsTrue};
ghost use Rattle.sql_values.specs.Bags.{SameBag};
ghost use Rattle.relation_laws.specs.Aggregates.{aggregates_of};
ghost use Rattle.relation_laws.specs.Equality.{same_row, same_value};
ghost use Rattle.relation_laws.specs.Groups.{groups_of};
ghost use Rattle.relation_laws.specs.Joins.{are_equal, join_of, nulls};
ghost use Rattle.relation_laws.specs.Laws.{CanBeSorted, of_no_row};
ghost use Rattle.relation_laws.specs.Partials.{merged, partial_of, results_from};
ghost use Rattle.relation_laws.specs.Verdicts.{keeps};

use sql_values::{Call, JoinKind, KeySpec, Row, RowList, SqlType, Value};

/// The law that values are the same where kind and content agree.
pub fn same_values_are_equal(a: &Value, b: &Value)
    ensures { IsTrue (same_value a.now b.now) ↔ (a.now ≡ b.now) }
{}

/// The law that rows are the same where all their values agree.
pub fn same_rows_are_equal(a: &Row, b: &Row)
    ensures { IsTrue (same_row a.now b.now) ↔ (a.now ≡ b.now) }
{}

/// The law that NULL is equal to nothing in a join.
#[tactic(auto, using(crate::proofs::NothingLemmas::null_right))]
pub fn null_has_no_partner(value: &Value)
    ensures left { are_equal Value.Null value.now ≡ false }
    ensures right { are_equal value.now Value.Null ≡ false }
{}

/// The law that a join gives nothing where a side is empty, but in a left join each row of the left
/// side beside nulls.
#[tactic(auto, using(crate::proofs::NothingLemmas::no_left, crate::proofs::NothingLemmas::beside_nulls))]
pub fn join_with_nothing(
    kind: JoinKind,
    on: &[(u32, u32)],
    left_width: usize,
    right_width: usize,
    rows: &RowList,
)
    ensures left { join_of kind on.now left_width right_width [] rows.now ≡ [] }
    ensures right { join_of JoinKind.Inner on.now left_width right_width rows.now [] ≡ [] }
    ensures outer { join_of JoinKind.Left on.now left_width right_width rows.now [] ≡ map (λ row. row ++ nulls right_width) rows.now }
{}

/// The law that without keys no row is one group, whose counts are 0.
#[tactic(auto, using(crate::proofs::NothingLemmas::one_group))]
pub fn no_row_is_one_group(types: &[SqlType], calls: &[Call])
    ensures { groups_of types.now [] calls.now [] ≡ keeps (map of_no_row calls.now) ∷ [] }
{}

/// The law that with keys no row is no group.
pub fn no_row_is_no_group(types: &[SqlType], keys: &[u32], calls: &[Call])
    requires { 0 < length keys.now }
    ensures { groups_of types.now keys.now calls.now [] ≡ [] }
{}

/// The law that the partial row of two lists of rows is the merge of theirs.
#[tactic(auto, using(crate::proofs::LawRules::merging))]
pub fn partials_merge(calls: &[Call], rows: &RowList, others: &RowList)
    ensures { partial_of calls.now (rows.now ++ others.now) ≡ merged calls.now (partial_of calls.now rows.now) (partial_of calls.now others.now) }
{}

/// The law that a group's results follow from its partial row.
#[tactic(auto, using(crate::proofs::LawRules::telling))]
pub fn partials_tell_results(types: &[SqlType], calls: &[Call], rows: &RowList)
    ensures { results_from types.now calls.now (partial_of calls.now rows.now) ≡ aggregates_of types.now calls.now rows.now }
{}

/// The law that a partial row does not depend on the order of the rows.
pub fn partials_have_no_order(calls: &[Call], rows: &RowList, others: &RowList)
    requires { SameBag rows.now others.now }
    ensures { partial_of calls.now rows.now ≡ partial_of calls.now others.now }
{}

/// The law that results do not depend on the order of the rows.
pub fn results_have_no_order(types: &[SqlType], calls: &[Call], rows: &RowList, others: &RowList)
    requires { SameBag rows.now others.now }
    ensures { aggregates_of types.now calls.now rows.now ≡ aggregates_of types.now calls.now others.now }
{}

/// The law that the rows of each list can be sorted.
pub fn each_list_can_be_sorted(keys: &[KeySpec], rows: &RowList)
    ensures { CanBeSorted keys.now rows.now }
{}
