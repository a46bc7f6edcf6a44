ghost use Rattle.std.specs.Prelude.{◌≡◌, false};
ghost use Rattle.futures.specs.Task.{Covers, Keeps};

use crate::run_fault::RunFault;
use blocked::BlockedOn;
use futures::Future;
use futures::task::Context;

/// What a turn of a driver came to.
#[derive(Drop)]
pub enum Turn {
    /// As many rows moved as the quantum says, or more.
    Yield,
    /// A stage looked for a value and did not find it. The future is the one that the turn polled: its `wake`
    /// wakes the task of the turn's context.
    Blocked(BlockedOn),
    Finished,
    Failed(RunFault),
}

impl Turn {
    /// That of one who waits, by the future that was polled.
    pub(crate) fn waiting(on: BlockedOn) -> Turn
        ensures { result ≡ Turn.Blocked on }
    {
        Turn::Blocked(on)
    }
}

/// Polls the future of one who waits, which registers with the context, and hands it back.
pub(crate) fn hear(mut on: BlockedOn, cx: &mut Context<'_>) -> BlockedOn
    requires { on.rung ≡ false }
    ensures bell { result.bell ≡ on.bell }
    ensures seen { result.seen ≡ on.seen }
    ensures waits { result.rung ≡ false }
    ensures heard { Covers cx.new (λ s. s ≡ result.source.id) }
    ensures context { Keeps cx.old cx.new }
{
    let _ = on.poll(cx);
    on
}
