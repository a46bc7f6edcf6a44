ghost use Rattle.std.specs.Prelude.{◌≡◌, false, OnOk, OnErr};
ghost use Rattle.exchange_client.specs.Clients.{kept_as, accepted, IsAccepted};

use col_pages::PageList;
use page_window::Reply;
use std::marker::Model;

/// Reads a window's pages in the order of their tokens, each once.
#[derive(Drop)]
pub struct PageClient {
    next: u64,
    is_complete: bool,
}

impl Model for PageClient {
    ghost use Rattle.exchange_client.specs.Clients.{ClientState};

    ghost Value = { ClientState };

    ghost view = { λ c. record { next = c.next; is_complete = c.is_complete } };
}

/// A reply whose token is not `next`, the one that is wanted. The reply is handed back.
#[derive(Drop)]
pub struct Stale {
    pub next: u64,
    pub reply: Reply,
}

impl PageClient {
    /// No reply was accepted yet.
    pub fn new() -> PageClient
        ensures { result ≡ record { next = 0; is_complete = false } }
    {
        PageClient {
            next: 0,
            is_complete: false,
        }
    }

    /// The token to ask for: how many pages were accepted.
    pub fn next_token(&self) -> u64
        ensures { result ≡ self.now.next }
    {
        self.next
    }

    /// Whether a complete reply was accepted.
    pub fn is_complete(&self) -> bool
        ensures { result ≡ self.now.is_complete }
    {
        self.is_complete
    }

    /// Takes the pages of a reply to the next token. Takes no memory.
    pub fn accept(&mut self, reply: Reply) -> Result<PageList, Stale>
        ensures ok { OnOk result (self.new ≡ accepted self.old (kept_as reply)) }
        ensures err { OnErr result (self.new ≡ self.old) }
        ensures answer { IsAccepted self.old reply result }
    {
        if reply.token != self.next {
            return Err(Stale {
                next: self.next,
                reply,
            });
        }
        self.next = reply.next;
        self.is_complete = self.is_complete || reply.complete;
        Ok(reply.pages)
    }
}
