ghost use Rattle.std.specs.Prelude.{◌≡◌, ◌++◌, ◌∷◌, [], None, Some, MatchOption, OnOk, OnErr};
ghost use Rattle.exchange_client.specs.Steps.{behind_latest, latest};

use crate::kept_reply::KeptReply;
use sql_values::Memory;
use std::alloc::Global;
use std::collections::VecDeque;
use std::marker::Model;

/// How many replies are kept.
const MOST_KEPT: usize = 8;

/// The latest replies, the oldest first.
#[derive(Drop)]
pub(crate) struct KeptReplies {
    replies: VecDeque<KeptReply>,
}

impl Model for KeptReplies {
    ghost use Rattle.std.specs.Prelude.{List};
    ghost use Rattle.exchange_client.specs.Clients.{KeptValue};

    ghost Value = { List KeptValue };

    ghost view = { λ k. k.replies.items };

    ghost use Rattle.std.specs.Prelude.{◌≤◌, length};
    ghost use Rattle.exchange_client.specs.Steps.{most_kept};

    ghost invariant = { λ k. length k.replies.items ≤ most_kept };
}

impl KeptReplies {
    pub(crate) fn new(alloc: Global) -> KeptReplies
        ensures { result ≡ [] }
    {
        KeptReplies {
            replies: VecDeque::new(alloc),
        }
    }

    /// The reply so many places behind the latest, counted round.
    pub(crate) fn behind_latest(&self, back: u32) -> Option<&KeptReply>
        ensures { MatchOption result
            (behind_latest back self.now ≡ None)
            (λ r. behind_latest back self.now ≡ Some r.now) }
    {
        let count = self.replies.len();
        if count == 0 {
            return None;
        }
        self.replies.get(count - 1 - back as usize % count)
    }

    /// Keeps one more reply, and forgets the oldest of more than `MOST_KEPT`.
    pub(crate) fn keep(&mut self, reply: KeptReply) -> Result<(), Memory>
        ensures ok { OnOk result (self.new ≡ latest (self.old ++ reply ∷ [])) }
        ensures err { OnErr result (self.new ≡ self.old) }
    {
        self.replies.push_back(reply)?;
        if MOST_KEPT < self.replies.len() {
            self.replies.pop_front();
        }
        Ok(())
    }
}
