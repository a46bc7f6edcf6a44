//! A turn of a driver, for any operators as its stages and any number of them, none too.
//!
//! `turn` looks and passes (`stage_moves`), again and again, until the target is finished, it counted its quantum of
//! units, or nothing moved and the target, a stage or the source has to wait. What it promises:
//!
//! - `WentOn`: what the stages took and gave before it, with what the source gave and the target was given in
//!   it, is what they took and gave after it; a stage is told to finish only where its giver is finished; and
//!   each stage came from what it came from before, though its note may have learned. The target is told to
//!   finish where the last stage is finished, and only there
//! - `WorkedTo`: the units that it answers are the rows that entered a stage or the target, and asks of the
//!   source in vain, also where it failed. They are fewer than its quantum and the most rows of a page
//! - `TurnedSo`: why it ended. It is finished exactly where the target is, yields only once it counted its
//!   quantum and while the target was not closed, and waits only where somebody looked in this turn, in vain
//!   (`IsBlocked`): once the target was closed, only the target. The bell that it names is the one at which this one
//!   waits, with the count that the look was handed and that the bell showed
//! - `IsHalted`: where it waits and the target was not closed, no stage holds a row that the next one would take, nor
//!   the last one any that it may give, unless it is the target that waits. What the source has is not said
//! - `RangDues`: each bell was rung, of those that the turn was given, as much more often as more dues of it came
//! - `StageFailed`: a failure is one of a stage, as it was made, on what the stages before it gave of the rows
//!   that came, whatever rows still come
//!
//! - `looks`: looks at the source and the stages. `steps`: looks and a pass. `turns`: steps, up to a reason to end
//!
//! These definitions are in `specs/Turns.antt`. After want of memory nothing is said of the stages. That a turn ends,
//! or moves anything, is not promised.
#![tactic(auto)]

mod looks;
mod steps;
mod turns;

pub use looks::look_at_stages;
pub use turns::{Turned, Turning, turn};
