ghost use Rattle.std.specs.Prelude.{◌≡◌, ◌+◌, ◌^◌, ◌<◌, length, map, None, Ok, Some, IfOk, MatchResult, slice_get};
ghost use Rattle.sql_exprs.specs.Typing.{MisfitAt};
ghost use Rattle.plan_docs.specs.Plans.{fragment_view, plan_view};
ghost use Rattle.plan_types.specs.Faults.{StandsIn};
ghost use Rattle.plan_types.specs.Plans.{root_path};
ghost use Rattle.plan_spreads.specs.Sources.{misread};
ghost use Rattle.plan_spreads.specs.Plans.{RefusedFor, all_spreads, first_placement, fragment_spread, is_single, placement_fault, plan_spreads, root_spread, sources_fault};

use crate::fault::SpreadFault;
use crate::nodes::spread_of;
use crate::operators::is_parted;
use crate::sources::{Reader, pass_sources};
use crate::spread::RowSpread;
use json_paths::{Key, Step, pointer_of};
use plan_docs::{Fragment, Placement, Plan};
use plan_types::{refused_at, root_path};
use sql_exprs::Misfit;
use sql_values::Memory;
use std::alloc::Global;

/// The spread of the root of each fragment of a plan, or the first place at which its placement is broken.
pub fn spread_plan(alloc: Global, plan: &Plan) -> Result<Vec<RowSpread>, SpreadFault>
    ensures { MatchResult result (λ ss. plan_spreads (plan_view plan.now) ≡ Ok ss.items)
        (RefusedFor (plan_spreads (plan_view plan.now))) }
{
    match plan_spreads(alloc, plan) {
        Ok(spreads) => Ok(spreads),
        Err(Misfit::At(path)) => match pointer_of(alloc, path.as_slice()) {
            Ok(pointer) => Err(SpreadFault::Refused(pointer)),
            Err(Memory) => Err(SpreadFault::Memory),
        },
        Err(Misfit::Memory) => Err(SpreadFault::Memory),
    }
}

#[tactic(auto, unfolding(crate::specs::Plans::plan_spreads))]
fn plan_spreads(alloc: Global, plan: &Plan) -> Result<Vec<RowSpread>, Misfit>
    ensures { MatchResult result (λ ss. plan_spreads (plan_view plan.now) ≡ Ok ss.items)
        (MisfitAt (plan_spreads (plan_view plan.now))) }
{
    pass_placement(alloc, plan.fragments.as_slice())?;
    pass_all_sources(alloc, 0, plan.fragments.as_slice())?;
    all_spreads(alloc, 0, plan.fragments.as_slice())
}

fn is_single(placement: Placement) -> bool
    ensures { result ≡ is_single placement }
{
    matches!(placement, Placement::Single)
}

/// Passes where the first fragment is one task.
fn pass_placement(alloc: Global, fragments: &[Fragment]) -> Result<(), Misfit>
    ensures { MatchResult result
        (λ _. placement_fault (slice_get (map fragment_view fragments.now) 0) ≡ None)
        (StandsIn (placement_fault (slice_get (map fragment_view fragments.now) 0))) }
{
    match fragments {
        [] => Ok(()),
        [fragment, ..] => pass_first(alloc, fragment),
    }
}

fn pass_first(alloc: Global, fragment: &Fragment) -> Result<(), Misfit>
    ensures { MatchResult result
        (λ _. placement_fault (Some (fragment_view fragment.now)) ≡ None)
        (StandsIn (placement_fault (Some (fragment_view fragment.now)))) }
{
    if is_single(fragment.placement) {
        return Ok(());
    }
    Err(Misfit::At(first_placement(alloc)?))
}

fn first_placement(alloc: Global) -> Result<Vec<Step>, Memory>
    ensures { IfOk result (λ path. path.items ≡ first_placement) }
{
    let mut path = Vec::with_capacity(alloc, 3)?;
    path.push(Step::Key(Key::Fragments))?;
    path.push(Step::Index(0))?;
    path.push(Step::Key(Key::Placement))?;
    Ok(path)
}

/// Passes where the remote sources of all fragments from one on are sent what their readers need.
fn pass_all_sources(alloc: Global, at: usize, fragments: &[Fragment]) -> Result<(), Misfit>
    requires { at + length fragments.now < 2 ^ 64 }
    ensures { MatchResult result
        (λ _. sources_fault at (map fragment_view fragments.now) ≡ None)
        (StandsIn (sources_fault at (map fragment_view fragments.now))) }
{
    match fragments {
        [] => Ok(()),
        [fragment, rest @ ..] => {
            pass_fragment(alloc, at, rest, fragment)?;
            pass_all_sources(alloc, at + 1, rest)
        }
    }
}

fn pass_fragment(
    alloc: Global,
    at: usize,
    later: &[Fragment],
    fragment: &Fragment,
) -> Result<(), Misfit>
    requires { at + 1 < 2 ^ 64 }
    ensures { MatchResult result
        (λ _. misread fragment.now.placement (at + 1) (map fragment_view later.now)
        (root_path at) (fragment_view fragment.now).root ≡ None)
        (StandsIn (misread fragment.now.placement (at + 1) (map fragment_view later.now)
        (root_path at) (fragment_view fragment.now).root)) }
{
    let path = root_path(alloc, at)?;
    let reader = Reader {
        placement: fragment.placement,
        first: at + 1,
        later,
    };
    pass_sources(alloc, &reader, path.as_slice(), &fragment.root)
}

/// The spreads of the roots of all fragments from one on.
fn all_spreads(alloc: Global, at: usize, fragments: &[Fragment]) -> Result<Vec<RowSpread>, Misfit>
    requires { at + length fragments.now < 2 ^ 64 }
    ensures { MatchResult result
        (λ ss. all_spreads at (map fragment_view fragments.now) ≡ Ok ss.items)
        (MisfitAt (all_spreads at (map fragment_view fragments.now))) }
{
    match fragments {
        [] => Ok(Vec::new(alloc)),
        [fragment, rest @ ..] => {
            let spread = fragment_spread(alloc, at, rest, fragment)?;
            let mut spreads = all_spreads(alloc, at + 1, rest)?;
            spreads.insert(0, spread)?;
            Ok(spreads)
        }
    }
}

fn fragment_spread(
    alloc: Global,
    at: usize,
    later: &[Fragment],
    fragment: &Fragment,
) -> Result<RowSpread, Misfit>
    requires { at + 1 < 2 ^ 64 }
    ensures { MatchResult result
        (λ s. fragment_spread at (map fragment_view later.now) (fragment_view fragment.now) ≡ Ok s)
        (MisfitAt (fragment_spread at (map fragment_view later.now) (fragment_view fragment.now))) }
{
    if is_single(fragment.placement) {
        return Ok(RowSpread::Whole);
    }
    let path = root_path(alloc, at)?;
    let reader = Reader {
        placement: fragment.placement,
        first: at + 1,
        later,
    };
    let spread = spread_of(alloc, &reader, path.as_slice(), &fragment.root)?;
    root_spread(alloc, path.as_slice(), spread)
}

/// The spread of a root: not one by which each task would give all rows.
fn root_spread(alloc: Global, path: &[Step], spread: RowSpread) -> Result<RowSpread, Misfit>
    ensures { MatchResult result (λ s. root_spread path.now spread ≡ Ok s)
        (MisfitAt (root_spread path.now spread)) }
{
    if is_parted(&spread) {
        return Ok(spread);
    }
    Err(refused_at(alloc, path))
}
