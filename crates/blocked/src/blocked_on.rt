ghost use Rattle.std.specs.Prelude.{◌≡◌, true, false, ◌↔◌};
ghost use Rattle.futures.specs.Poll.{IfReady, OnPending};
ghost use Rattle.futures.specs.Task.{Covers, Hears, Keeps};

use futures::Future;
use futures::task::{Context, Poll, Source, Waker};

/// The future of one who waits at a bell. It is ready once `wake` was called.
#[derive(Drop)]
pub struct BlockedOn {
    /// The number of the bell.
    pub bell: u32,
    /// A count that the bell showed.
    pub seen: u64,
    pub rung: bool,
    source: Source,
    waker: Option<Waker>,
}

impl BlockedOn {
    pub fn new(bell: u32, seen: u64) -> BlockedOn
        ensures bell { result.bell ≡ bell }
        ensures seen { result.seen ≡ seen }
        ensures waits { result.rung ≡ false }
    {
        BlockedOn {
            bell,
            seen,
            rung: false,
            source: Source::new(),
            waker: None,
        }
    }

    /// Makes it ready, and wakes the task that polled it.
    pub fn wake(&mut self)
        ensures bell { self.new.bell ≡ self.old.bell }
        ensures seen { self.new.seen ≡ self.old.seen }
        ensures rung { self.new.rung ≡ true }
        ensures source { self.new.source.id ≡ self.old.source.id }
    {
        self.rung = true;
        // A waker wakes its task when it is dropped.
        self.waker = None;
    }
}

impl Future for BlockedOn {
    type Output = ();

    ghost needs = { λ on source. source ≡ on.source.id };

    fn poll(&mut self, cx: &mut Context<'_>) -> Poll<()>
        ensures pending { (result ≡ Poll.Pending) ↔ (self.old.rung ≡ false) }
        ensures bell { self.new.bell ≡ self.old.bell }
        ensures seen { self.new.seen ≡ self.old.seen }
        ensures rung { self.new.rung ≡ self.old.rung }
        ensures source { self.new.source.id ≡ self.old.source.id }
        ensures registered { OnPending result (Covers cx.new (λ s. s ≡ self.new.source.id)) }
        ensures kept { Keeps cx.old cx.new }
    {
        if self.rung {
            return Poll::Ready(());
        }
        cx.register(&self.source, &mut self.waker)
    }
}
