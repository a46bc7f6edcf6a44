//! `FilterOp` as the operator of a scan's filter.
ghost use Rattle.std.specs.Prelude.{◌≡◌, true, IfSome};
ghost use Rattle.dyn_filter.specs.Domains.{IsDomainOf};
ghost use Rattle.net_laws.specs.ScanFilters.{ScanFilter};
ghost use Rattle.net_laws.specs.FilterStages.{DropsExactly, IsOperatorOf};

use dyn_filter::FilterOp;
use operator_core::Operator;
use sieve_laws::filter_ops_drop;

/// The law that `FilterOp`, where it waits, drops exactly the rows that do not pass.
pub fn waiting_filter_ops_drop_exactly<'w>(op: &FilterOp<'w>)
    ensures { op.now.waits ≡ true → DropsExactly ⟦<FilterOp<'w> as Operator>⟧
        (record { column = op.now.column; known = op.now.known }) op.now }
{}

/// The law that it is the operator of each filter that has its column, waits as it does, and has keys of which the domain
/// that it knows, if any, is the domain.
pub fn filter_ops_are_of_filters<'w>(op: &FilterOp<'w>)
    ensures { (f : ScanFilter) → op.now.column ≡ f.column → op.now.waits ≡ f.waits
        → IfSome op.now.known (IsDomainOf f.keys)
        → IsOperatorOf ⟦<FilterOp<'w> as Operator>⟧ f op.now }
{
    filter_ops_drop(op);
}
