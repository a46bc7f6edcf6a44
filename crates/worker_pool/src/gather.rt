//! The items of a pool, as they came out of it, in the order in which they came.
ghost use Rattle.std.specs.Prelude.{◌≡◌, IfOk, length};
ghost use Rattle.std.specs.List.{AllZip};
ghost use Rattle.worker_pool.specs.Gathered.{AreFirst};

use crate::runner::{Returned, Roster};
use crate::turning::TakesTurns;
use sql_values::Memory;
use std::alloc::Global;

/// Puts each at its place. One that is missing was given up for want of memory.
#[tactic(auto, using(crate::proofs::GatherLemmas::all_first))]
pub(crate) fn gather<T: TakesTurns, J: Roster<T>>(
    alloc: Global,
    mut returned: Vec<Returned<T, J>>,
    count: usize,
) -> Result<Vec<T>, Memory>
    requires { count ≡ length J.came }
    ensures { IfOk result (λ items. AllZip T.follows J.came items.items) }
{
    returned.sort_by(|one, other| one.place().cmp(&other.place()))?;
    let items = in_order(alloc, returned)?;
    if items.len() != count {
        return Err(Memory);
    }
    Ok(items)
}

/// Takes off the places, where they go up from 0 by one.
#[tactic(auto, using(crate::proofs::GatherLemmas::first_more))]
fn in_order<T: TakesTurns, J: Roster<T>>(
    alloc: Global,
    returned: Vec<Returned<T, J>>,
) -> Result<Vec<T>, Memory>
    ensures { IfOk result (λ items. AreFirst T.follows J.came items.items) }
{
    let mut items = Vec::with_capacity(alloc, returned.len())?;
    for one in returned {
        if one.place() != items.len() {
            return Err(Memory);
        }
        items.push(one.into_item())?;
    }
    Ok(items)
}
