ghost use Rattle.std.specs.Prelude.{◌≡◌, ◌<◌, ◌≤◌, ◌^◌, [], length, map, IfErr, IfSome, MatchOption, OnOk};
ghost use Rattle.feedback_queue.specs.Queue.{TakenAt, changed_at, next_level, offered_to, waiting_at};

use crate::best::{Best, better};
use crate::level::Level;
use std::alloc::AllocFailed;

/// The level that comes next.
#[tactic(auto, using(crate::proofs::PickLemmas::next_level_within))]
pub(crate) fn next<W>(levels: &[Level<W>]) -> Option<Best>
    ensures best { result ≡ next_level levels.now }
    ensures within { IfSome result (λ best. best.measure ≤ 2 ^ 63) }
    ensures there { IfSome result (λ best. best.place < length levels.now) }
{
    let mut best = None;
    let mut place = levels.len();
    while place > 0 {
        place -= 1;
        best = better(place, levels[place].weight(), best);
    }
    best
}

/// Takes one more into the level at a place, where the best of all levels is known.
pub(crate) fn offer_at<W>(
    levels: &mut [Level<W>],
    place: usize,
    best: Option<Best>,
    work: u64,
    waiter: W,
) -> Result<(), AllocFailed<W>>
    requires there { place < length levels.old }
    requires within { IfSome best (λ best. best.measure ≤ 2 ^ 63) }
    ensures ok { OnOk result (levels.new
        ≡ changed_at place (offered_to best (record { work = work; waiter = waiter })) levels.old) }
    ensures err { IfErr result (λ failed. (failed.value ≡ waiter) × (levels.new ≡ levels.old)) }
    ensures numbers { map (λ level. level.number) levels.new ≡ map (λ level. level.number) levels.old }
{
    levels[place].offer(best, work, waiter)
}

/// Gives a turn in the level at a place.
pub(crate) fn take_at<W>(levels: &mut [Level<W>], place: usize) -> Option<(u64, W)>
    requires { place < length levels.old }
    ensures taken { MatchOption result ((waiting_at levels.old place ≡ []) × (levels.new ≡ levels.old))
        (λ taken. TakenAt place levels.old taken levels.new) }
    ensures numbers { map (λ level. level.number) levels.new ≡ map (λ level. level.number) levels.old }
{
    levels[place].take()
}
