ghost use Rattle.std.specs.Prelude.{◌≡◌, None, MatchResult, nat_le};
ghost use Rattle.std.specs.List.{position_from};
ghost use Rattle.sql_exprs.specs.Typing.{StandsAt};
ghost use Rattle.plan_types.specs.Faults.{StandsIn, entry_fault};

use json_paths::{Key, Step, then};
use sql_exprs::Misfit;
use std::alloc::Global;

/// The fault at a path.
pub fn refused_at(alloc: Global, path: &[Step]) -> Misfit
    ensures { StandsAt path.now result }
{
    match Vec::from_slice(alloc, path) {
        Ok(steps) => Misfit::At(steps),
        Err(_) => Misfit::Memory,
    }
}

/// Passes where no entry was found that does not fit, and else refuses it, in the list under a key.
pub fn pass(alloc: Global, path: &[Step], key: Key, found: Option<usize>) -> Result<(), Misfit>
    ensures { MatchResult result (λ _. entry_fault path.now key found ≡ None)
        (StandsIn (entry_fault path.now key found)) }
{
    match found {
        Some(index) => {
            let list = then(alloc, path, Step::Key(key))?;
            Err(Misfit::At(then(alloc, list.as_slice(), Step::Index(index))?))
        }
        None => Ok(()),
    }
}

/// The first of the columns that is beyond a row's width.
pub fn first_beyond(width: usize, columns: &[u32]) -> Option<usize>
    ensures { result ≡ position_from (nat_le width) 0 columns.now }
{
    for (i, column) in columns.iter().enumerate() {
        if width <= *column as usize {
            return Some(i);
        }
    }
    None
}
