//! What a domain says of the values that it is of.
ghost use Rattle.std.specs.Prelude.{◌≡◌, ◌<◌, List, [], true, false, filter, length, map, slice_index_or};
ghost use Rattle.sql_values.specs.declared.value.Value.{Value as Cell};
ghost use Rattle.sql_values.specs.Cells.{cell};
ghost use Rattle.relation_laws.specs.Joins.{are_partners};
ghost use Rattle.dyn_filter.specs.Domains.{IsDomainOf, is_among, passes};

use crate::domain::Domain;
use sql_values::{Row, RowList, Value};

/// The law that each value that was there passes, but NULL.
pub fn a_value_that_was_there_passes(domain: &Domain, value: &Value)
    ensures { (values : List Cell) → IsDomainOf values domain.now
        → is_among values value.now ≡ true → passes domain.now value.now ≡ true }
{}

/// The law that a row has no partner where, at one of the pairs of a join, its value does not pass the domain of the
/// other side's.
pub fn a_lost_row_has_no_partner(
    domain: &Domain,
    on: &[(u32, u32)],
    pair: usize,
    row: &Row,
    rows: &RowList,
)
    requires { pair < length on.now }
    ensures { IsDomainOf (map (λ r. cell r (slice_index_or on.now pair (0, 0)).1) rows.now) domain.now
        → passes domain.now (cell row.now (slice_index_or on.now pair (0, 0)).0) ≡ false
        → filter (are_partners on.now row.now) rows.now ≡ [] }
{}
