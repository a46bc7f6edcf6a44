ghost use Rattle.std.specs.Prelude.{◌≡◌, ◌+◌, ◌^◌, ◌<◌, length, map, None, Ok, IfOk, MatchResult, slice_get};
ghost use Rattle.sql_exprs.specs.Typing.{MisfitAt};
ghost use Rattle.plan_docs.specs.Plans.{fragment_view, plan_view};
ghost use Rattle.plan_types.specs.Faults.{StandsIn};
ghost use Rattle.plan_types.specs.Plans.{all_types, fragment_types, output_fault, output_path, plan_types, result_fault, root_path, width_of};

use crate::faults::{first_beyond, pass};
use crate::nodes::{Later, node_types};
use crate::row_types::RowTypes;
use json_paths::{Key, Step};
use plan_docs::{Fragment, Output, Plan};
use sql_exprs::Misfit;
use sql_values::{Memory, SqlType};
use std::alloc::Global;

/// The types of the rows of each fragment of a plan, or the first place that does not fit.
#[tactic(auto, unfolding(crate::specs::Plans::plan_types))]
pub fn type_plan(alloc: Global, plan: &Plan) -> Result<Vec<RowTypes>, Misfit>
    ensures { MatchResult result (λ ts. plan_types (plan_view plan.now) ≡ Ok ts.items)
        (MisfitAt (plan_types (plan_view plan.now))) }
{
    let types = all_types(alloc, 0, plan.fragments.as_slice())?;
    pass_result(alloc, plan.output.len(), types.as_slice())?;
    Ok(types)
}

fn all_types(alloc: Global, at: usize, fragments: &[Fragment]) -> Result<Vec<RowTypes>, Misfit>
    requires { at + length fragments.now < 2 ^ 64 }
    ensures { MatchResult result
        (λ ts. all_types at (map fragment_view fragments.now) ≡ Ok ts.items)
        (MisfitAt (all_types at (map fragment_view fragments.now))) }
{
    match fragments {
        [] => Ok(Vec::new(alloc)),
        [fragment, rest @ ..] => {
            let mut later = all_types(alloc, at + 1, rest)?;
            let types = fragment_types(alloc, later.as_slice(), at, fragment)?;
            later.insert(0, types)?;
            Ok(later)
        }
    }
}

fn fragment_types(
    alloc: Global,
    later: &[RowTypes],
    at: usize,
    fragment: &Fragment,
) -> Result<RowTypes, Misfit>
    requires { at + 1 < 2 ^ 64 }
    ensures { MatchResult result
        (λ t. fragment_types later.now at (fragment_view fragment.now) ≡ Ok t)
        (MisfitAt (fragment_types later.now at (fragment_view fragment.now))) }
{
    let path = root_path(alloc, at)?;
    let later = Later {
        first: at + 1,
        types: later,
    };
    let types = node_types(alloc, &later, path.as_slice(), &fragment.root)?;
    pass_output(alloc, at, types.columns.as_slice(), &fragment.output)?;
    Ok(types)
}

/// The path of the root of a fragment.
pub fn root_path(alloc: Global, at: usize) -> Result<Vec<Step>, Memory>
    ensures { IfOk result (λ path. path.items ≡ root_path at) }
{
    let mut path = Vec::with_capacity(alloc, 3)?;
    path.push(Step::Key(Key::Fragments))?;
    path.push(Step::Index(at))?;
    path.push(Step::Key(Key::Root))?;
    Ok(path)
}

fn output_path(alloc: Global, at: usize) -> Result<Vec<Step>, Memory>
    ensures { IfOk result (λ path. path.items ≡ output_path at) }
{
    let mut path = Vec::with_capacity(alloc, 3)?;
    path.push(Step::Key(Key::Fragments))?;
    path.push(Step::Index(at))?;
    path.push(Step::Key(Key::Output))?;
    Ok(path)
}

fn pass_output(alloc: Global, at: usize, types: &[SqlType], output: &Output) -> Result<(), Misfit>
    ensures { MatchResult result (λ _. output_fault at types.now output.now ≡ None)
        (StandsIn (output_fault at types.now output.now)) }
{
    match output {
        Output::Hash(columns) => {
            let path = output_path(alloc, at)?;
            let found = first_beyond(types.len(), columns.as_slice());
            pass(alloc, path.as_slice(), Key::Columns, found)
        }
        Output::Result => Ok(()),
        Output::Single => Ok(()),
        Output::Broadcast => Ok(()),
    }
}

fn pass_result(alloc: Global, names: usize, types: &[RowTypes]) -> Result<(), Misfit>
    ensures { MatchResult result (λ _. result_fault names types.now ≡ None)
        (StandsIn (result_fault names types.now)) }
{
    if names != width_of(types) {
        let mut path = Vec::new(alloc);
        path.push(Step::Key(Key::Output))?;
        return Err(Misfit::At(path));
    }
    Ok(())
}

/// How many columns the rows of the first fragment have.
fn width_of(types: &[RowTypes]) -> usize
    ensures { result ≡ width_of (slice_get types.now 0) }
{
    match types.get(0) {
        Some(types) => types.columns.len(),
        None => 0,
    }
}
