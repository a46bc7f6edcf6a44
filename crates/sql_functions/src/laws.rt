//! What follows from the definitions.
ghost use Rattle.std.specs.Prelude.{◌≡◌, ◌≢◌, IsTrue, true, false, not, Ok};
ghost use Rattle.sql_values.specs.Cells.{lent_value};
ghost use Rattle.sql_values.specs.Types.{IsType, has_type};
ghost use Rattle.sql_functions.specs.Casts.{cast_of};
ghost use Rattle.sql_functions.specs.Comparison.{compared, distinct};
ghost use Rattle.sql_functions.specs.Outcomes.{and_then};
ghost use Rattle.sql_functions.specs.Truth.{truth_not};

use crate::name::CallName;
use sql_values::{SqlType, Value, ValueRef, text_reads_back};

/// The law that the opposite of a truth is the other one, and the opposite of NULL is NULL.
pub fn opposites_of_truth(truth: bool)
    ensures known { truth_not (Value.Boolean truth) ≡ Value.Boolean (not truth) }
    ensures null { truth_not Value.Null ≡ Value.Null }
{}

/// The law that a comparison with NULL is NULL.
pub fn comparisons_with_null_are_null(name: CallName, value: ValueRef<'_>)
    ensures left { compared name Value.Null (lent_value value.entry) ≡ Value.Null }
    ensures right { compared name (lent_value value.entry) Value.Null ≡ Value.Null }
{
    match value {
        ValueRef::Null => {}
        ValueRef::Boolean(_) => {}
        ValueRef::Bigint(_) => {}
        ValueRef::Decimal(_) => {}
        ValueRef::Varchar(_) => {}
        ValueRef::Date(_) => {}
    }
}

/// The law that two values are distinct exactly where they are not the same; NULL is the same as
/// NULL, and distinct from each other value.
#[tactic(auto, using(crate::proofs::DistinctLemmas::distinct_same, crate::proofs::DistinctLemmas::distinct_others))]
pub fn distinct_values_are_not_the_same(a: ValueRef<'_>, b: ValueRef<'_>)
    ensures same { lent_value a.entry ≡ lent_value b.entry →
        distinct (lent_value a.entry) (lent_value b.entry) ≡ Value.Boolean false }
    ensures others { lent_value a.entry ≢ lent_value b.entry →
        distinct (lent_value a.entry) (lent_value b.entry) ≡ Value.Boolean true }
{}

/// The law that a cast to varchar and back gives the value.
pub fn cast_to_text_reads_back(kind: SqlType, value: ValueRef<'_>)
    requires is_type { IsType kind }
    requires not_null { lent_value value ≢ Value.Null }
    requires has_type { IsTrue (has_type kind (lent_value value)) }
    ensures { and_then (cast_of kind SqlType.Varchar (lent_value value.entry)) (cast_of SqlType.Varchar kind) ≡ Ok (lent_value value.entry) }
{
    text_reads_back(kind, value);
    match value {
        ValueRef::Null => {}
        ValueRef::Boolean(_) => {}
        ValueRef::Bigint(_) => {}
        ValueRef::Decimal(_) => {}
        ValueRef::Varchar(_) => {}
        ValueRef::Date(_) => {}
    }
}
