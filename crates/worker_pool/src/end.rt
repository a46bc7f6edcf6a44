//! How a run ended.
ghost use Rattle.std.specs.Prelude.{◌≡◌, true, false, not, All, MatchOption};
ghost use Rattle.worker_pool.specs.Gathered.{IsEnd, PassesAt};

use crate::turning::TakesTurns;

/// How a run ended, as its items show.
#[derive(Drop)]
pub enum RunEnd {
    /// All are finished.
    Finished,
    /// The one at this place has failed.
    Failed(usize),
    /// None has failed, and the one at this place is not finished. It waits for a ring, and nobody is left who could
    /// ring; that it waits is tested alone.
    Stuck(usize),
}

/// How it ended. Of several that have failed the one is named that did so first, where it is known.
pub(crate) fn end_of<T: TakesTurns>(items: &[T], first: Option<usize>) -> RunEnd
    ensures { IsEnd T.is_finished T.has_failed items.now result }
{
    if let Some(place) = first {
        if place < items.len() && items[place].has_failed() {
            return RunEnd::Failed(place);
        }
    }
    match failed_place(items) {
        Some(place) => RunEnd::Failed(place),
        None => unfailed_end(items),
    }
}

fn unfailed_end<T: TakesTurns>(items: &[T]) -> RunEnd
    requires { All (λ item. T.has_failed item ≡ false) items.now }
    ensures { IsEnd T.is_finished T.has_failed items.now result }
{
    match unfinished_place(items) {
        Some(place) => RunEnd::Stuck(place),
        None => RunEnd::Finished,
    }
}

fn failed_place<T: TakesTurns>(items: &[T]) -> Option<usize>
    ensures { MatchOption result (All (λ item. T.has_failed item ≡ false) items.now) (PassesAt T.has_failed items.now) }
{
    for place in 0..items.len() {
        if items[place].has_failed() {
            return Some(place);
        }
    }
    None
}

fn unfinished_place<T: TakesTurns>(items: &[T]) -> Option<usize>
    ensures { MatchOption result (All (λ item. T.is_finished item ≡ true) items.now)
        (PassesAt (λ item. not (T.is_finished item)) items.now) }
{
    for place in 0..items.len() {
        if !items[place].is_finished() {
            return Some(place);
        }
    }
    None
}
