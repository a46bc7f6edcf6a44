ghost use Rattle.std.specs.Prelude.{◌≡◌, ◌+◌, ◌++◌, ◌∷◌, [], length, IfOk, OnOk};
ghost use Rattle.exchange_client.specs.Clients.{kept_as, given_away};

use col_pages::{Page, PageList};
use page_window::Reply;
use sql_values::Memory;
use std::alloc::Global;
use std::marker::Model;

/// A reply that may be delivered again, with its pages unless the client took them.
#[derive(Drop)]
pub(crate) struct KeptReply {
    token: u64,
    pages: Vec<Page>,
    next: u64,
    complete: bool,
}

impl Model for KeptReply {
    ghost use Rattle.exchange_client.specs.Clients.{KeptValue};

    ghost Value = { KeptValue };

    ghost view = { λ r. record { token = r.token; pages = r.pages.items; next = r.next; is_complete = r.complete } };
}

impl KeptReply {
    /// Keeps a reply, whose pages are moved.
    pub(crate) fn of(alloc: Global, reply: Reply) -> Result<KeptReply, Memory>
        ensures { IfOk result (λ kept. kept ≡ kept_as reply) }
    {
        let Reply {
            token,
            pages,
            next,
            complete,
        } = reply;
        let pages = moved(alloc, pages)?;
        Ok(KeptReply {
            token,
            pages,
            next,
            complete,
        })
    }

    /// Keeps a reply whose pages the client takes. Takes no memory.
    pub(crate) fn given(alloc: Global, reply: &Reply) -> KeptReply
        ensures { result ≡ given_away (kept_as reply.now) }
    {
        KeptReply {
            token: reply.token,
            pages: Vec::new(alloc),
            next: reply.next,
            complete: reply.complete,
        }
    }

    pub(crate) fn token(&self) -> u64
        ensures { result ≡ self.now.token }
    {
        self.token
    }

    /// The reply once more, which has its pages.
    pub(crate) fn copy(&self, alloc: Global) -> Result<Reply, Memory>
        requires { self.now.next ≡ self.now.token + length self.now.pages }
        ensures { IfOk result (λ reply. kept_as reply ≡ self.now) }
    {
        Ok(Reply {
            token: self.token,
            pages: copies(alloc, &self.pages)?,
            next: self.next,
            complete: self.complete,
        })
    }
}

fn moved(alloc: Global, mut pages: PageList) -> Result<Vec<Page>, Memory>
    ensures { IfOk result (λ kept. kept.items ≡ pages) }
{
    let mut kept = Vec::with_capacity(alloc, pages.len())?;
    move_all(&mut kept, &mut pages)?;
    Ok(kept)
}

fn move_all(kept: &mut Vec<Page>, pages: &mut PageList) -> Result<(), Memory>
    ensures { OnOk result (kept.new.items ≡ kept.old.items ++ pages.old) }
{
    while let Some(page) = pages.take_first() {
        kept.push(page)?;
    }
    Ok(())
}

fn copies(alloc: Global, pages: &[Page]) -> Result<PageList, Memory>
    ensures { IfOk result (λ list. list ≡ pages.now) }
{
    let mut list = PageList::new(alloc);
    for page in pages {
        push_copy(&mut list, alloc, page)?;
    }
    Ok(list)
}

fn push_copy(list: &mut PageList, alloc: Global, page: &Page) -> Result<(), Memory>
    ensures { OnOk result (list.new ≡ list.old ++ page.now ∷ []) }
{
    list.push(page.copy(alloc)?)
}
