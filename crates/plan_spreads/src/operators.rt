ghost use Rattle.std.specs.Prelude.{◌≡◌, ◌<◌, map, IfOk, nat_lt};
ghost use Rattle.std.specs.List.{list_all};
ghost use Rattle.sql_exprs.specs.Forms.{form_view};
ghost use Rattle.plan_spreads.specs.Operators.{aggregate_spread, are_keys, final_spread, first_rows_spread, is_every, is_parted, join_spread, partial_spread, project_spread, remote_spread, scan_spread, union_spread, whole_spread};

use crate::given_columns::{are_paired, column_places, key_places};
use crate::spread::RowSpread;
use plan_docs::{NodeStep, Output, Pair, Placement};
use sql_exprs::Expr;
use sql_values::{Memory, Places};
use std::alloc::Global;

pub fn scan_spread(placement: Placement) -> Option<RowSpread>
    ensures { result ≡ scan_spread placement }
{
    match placement {
        Placement::Source => Some(RowSpread::Any),
        _ => None,
    }
}

pub fn remote_spread(alloc: Global, output: &Output) -> Result<Option<RowSpread>, Memory>
    ensures { IfOk result (λ s. s ≡ remote_spread output.now) }
{
    match output {
        Output::Hash(columns) => {
            let columns = Places::of(Vec::from_slice(alloc, columns.as_slice())?);
            Ok(Some(RowSpread::By(columns)))
        }
        Output::Broadcast => Ok(Some(RowSpread::Every)),
        _ => Ok(None),
    }
}

/// The spread of rows that are computed: a column that is computed, too, or left out, gives no bucket.
pub fn project_spread(
    alloc: Global,
    exprs: &[Expr],
    input: RowSpread,
) -> Result<Option<RowSpread>, Memory>
    ensures { IfOk result (λ s. s ≡ project_spread (map form_view exprs.now) input) }
{
    match input {
        RowSpread::By(columns) => match column_places(alloc, exprs, columns.as_slice())? {
            Some(places) => Ok(Some(RowSpread::By(Places::of(places)))),
            None => Ok(Some(RowSpread::Any)),
        },
        RowSpread::Any => Ok(Some(RowSpread::Any)),
        RowSpread::Every => Ok(Some(RowSpread::Every)),
        RowSpread::Whole => Ok(None),
    }
}

pub fn join_spread(on: &[Pair], left: RowSpread, right: RowSpread) -> Option<RowSpread>
    ensures { result ≡ join_spread on.now left right }
{
    match (left, right) {
        (left, RowSpread::Every) => Some(left),
        (RowSpread::By(columns), RowSpread::By(others)) => {
            if are_paired(on, columns.as_slice(), others.as_slice()) {
                Some(RowSpread::By(columns))
            } else {
                None
            }
        }
        _ => None,
    }
}

/// Whether each row is in one task.
pub fn is_parted(spread: &RowSpread) -> bool
    ensures { result ≡ is_parted spread.now }
{
    matches!(spread, RowSpread::Any | RowSpread::By(_))
}

fn is_every(spread: &RowSpread) -> bool
    ensures { result ≡ is_every spread.now }
{
    matches!(spread, RowSpread::Every)
}

fn partial_spread(input: RowSpread) -> Option<RowSpread>
    ensures { result ≡ partial_spread input }
{
    if is_parted(&input) {
        return Some(RowSpread::Any);
    }
    None
}

/// The spread of whole groups: those of a bucket by some of the keys.
fn whole_spread(alloc: Global, keys: &[u32], input: RowSpread) -> Result<Option<RowSpread>, Memory>
    ensures { IfOk result (λ s. s ≡ whole_spread keys.now input) }
{
    if keys.is_empty() {
        return Ok(None);
    }
    match input {
        RowSpread::By(columns) => match key_places(alloc, keys, columns.as_slice())? {
            Some(places) => Ok(Some(RowSpread::By(Places::of(places)))),
            None => Ok(None),
        },
        _ => Ok(None),
    }
}

pub fn aggregate_spread(
    alloc: Global,
    step: NodeStep,
    keys: &[u32],
    input: RowSpread,
) -> Result<Option<RowSpread>, Memory>
    ensures { IfOk result (λ s. s ≡ aggregate_spread step keys.now input) }
{
    match step {
        NodeStep::Partial => Ok(partial_spread(input)),
        NodeStep::Single => whole_spread(alloc, keys, input),
    }
}

fn are_below(bound: usize, columns: &[u32]) -> bool
    ensures { result ≡ list_all (λ c. nat_lt c bound) columns.now }
{
    for column in columns {
        if *column as usize >= bound {
            return false;
        }
    }
    true
}

/// Whether there are keys, and the columns are some of their places.
fn are_keys(keys: usize, columns: &[u32]) -> bool
    ensures { result ≡ are_keys keys columns.now }
{
    0 < keys && are_below(keys, columns)
}

/// The spread of groups that a FINAL node makes whole, by so many keys.
pub fn final_spread(placement: Placement, keys: usize, input: RowSpread) -> Option<RowSpread>
    ensures { result ≡ final_spread placement keys input }
{
    match (placement, input) {
        (Placement::Hash, RowSpread::By(columns)) => {
            if are_keys(keys, columns.as_slice()) {
                Some(RowSpread::By(columns))
            } else {
                None
            }
        }
        _ => None,
    }
}

/// The spread of a top n or a limit.
pub fn first_rows_spread(step: NodeStep, input: RowSpread) -> Option<RowSpread>
    ensures { result ≡ first_rows_spread step input }
{
    match step {
        NodeStep::Partial => partial_spread(input),
        NodeStep::Single => None,
    }
}

pub fn union_spread(left: RowSpread, right: RowSpread) -> Option<RowSpread>
    ensures { result ≡ union_spread left right }
{
    if is_parted(&left) && is_parted(&right) {
        return Some(RowSpread::Any);
    }
    if is_every(&left) && is_every(&right) {
        return Some(RowSpread::Every);
    }
    None
}
