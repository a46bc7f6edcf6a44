//! What follows from the definitions.
ghost use Rattle.std.specs.Prelude.{◌≡◌, ℕ, Some, max};
ghost use Rattle.feedback_queue.specs.declared.best.Best.{Best};
ghost use Rattle.feedback_queue.specs.Levels.{weight_waited, work_of};
ghost use Rattle.feedback_queue.specs.Picks.{IsFirstOfLeast};
ghost use Rattle.feedback_queue.specs.Queue.{FeedbackState, IsFirstOfAll, IsTaken, LevelPlace, next_in, next_level, after_offer, pick_of, waiting_at};
ghost use Rattle.feedback_queue.specs.Shares.{AllWait, WeighsWithin, OneIsEmpty};

use crate::queue::Feedback;

/// The law that the level that comes next is the first of the least weight of those in which somebody waits.
#[tactic(auto, using(crate::proofs::PickLemmas::best_is_first))]
pub fn the_lightest_level_is_next<W>(queue: &Feedback<W>)
    ensures { (best : Best) → next_level queue.now.levels ≡ Some best → IsFirstOfLeast weight_waited queue.now.levels best }
{}

/// The law that in a level the first of those with the least work is next.
pub fn the_least_work_is_next<W>(queue: &Feedback<W>, level: u8)
    ensures { (best : Best) → next_in (waiting_at queue.now.levels level) ≡ Some best → IsFirstOfLeast work_of (waiting_at queue.now.levels level) best }
{}

/// The law that who is picked is the first of the least work in the first of the lightest levels.
#[tactic(auto, using(crate::proofs::ShareLemmas::pick_is_first))]
pub fn the_pick_is_the_first_of_the_least<W>(queue: &Feedback<W>)
    ensures { (pick : LevelPlace) → pick_of queue.now ≡ Some pick → IsFirstOfAll queue.now pick }
{}

/// The law that a take before which somebody waits in each level leaves the weights of any two levels as near to each
/// other as they were, or within 16.
pub fn a_take_keeps_the_shares<W>(queue: &Feedback<W>)
    requires { AllWait queue.now.levels }
    ensures { (taken : ℕ × W) (new : FeedbackState W) → IsTaken queue.now taken new → (gap i j : ℕ)
        → WeighsWithin gap i j queue.now.levels → WeighsWithin (max gap 16) i j new.levels }
{
    queue.levels_are_numbered();
}

/// The law that an offer before which nobody waits in one level at most leaves the weights of any two levels as near
/// to each other as they were, or within 16.
pub fn an_offer_keeps_the_shares<W>(queue: &Feedback<W>, work: u64, waiter: &W)
    requires { OneIsEmpty queue.now.levels }
    ensures { (gap i j : ℕ)
        → WeighsWithin gap i j queue.now.levels → WeighsWithin (max gap 16) i j (after_offer work waiter.now queue.now).levels }
{
    queue.levels_are_numbered();
}
