//! What passes the domain of a join's keys.
ghost use Rattle.std.specs.Prelude.{◌≡◌, List};
ghost use Rattle.sql_values.specs.declared.value.Value.{Value as Cell};
ghost use Rattle.bag_laws.specs.Weights.{SameWeights};
ghost use Rattle.dyn_filter.specs.Domains.{IsDomainOf, passes};
ghost use Rattle.net_laws.specs.Keys.{passes_keys};

use dyn_filter::Domain;
use sql_values::Value;

/// The law that a domain of keys passes a value exactly where it is not NULL and one of them or, where more than 1 000
/// different ones are not NULL, lies from the least of these to the greatest.
pub fn domains_pass_as_keys(domain: &Domain, value: &Value)
    ensures { (keys : List Cell) → IsDomainOf keys domain.now
        → passes domain.now value.now ≡ passes_keys keys value.now }
{}

/// The law that the order of the keys makes no difference.
pub fn keys_pass_in_any_order(value: &Value)
    ensures { (keys others : List Cell) → SameWeights keys others
        → passes_keys keys value.now ≡ passes_keys others value.now }
{}
