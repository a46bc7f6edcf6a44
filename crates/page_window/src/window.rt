ghost use Rattle.std.specs.Prelude.{◌≡◌, ◌-◌, ◌^◌, ◌<◌, ◌≤◌, [], true, false, List, ◌∷◌, ◌++◌, ◌↔◌, length, take, drop, IsTrue, IfOk, IfErr, OnOk, OnErr};
ghost use Rattle.col_pages.specs.Pages.{TypedPage};
ghost use Rattle.page_window.specs.Windows.{IsWindowOf, end_of, pushed, acknowledged};
ghost use Rattle.page_window.specs.Fetches.{HasToken, IsReplyOf, IsFetched, ArePagesOf, IsAcknowledged};

use crate::fault::{AckAhead, FetchFault, PushMemory};
use crate::reply::Reply;
use col_pages::{Page, PageList};
use sql_values::Memory;
use std::alloc::Global;
use std::collections::VecDeque;
use std::marker::Model;

/// The pages that were put and not yet acknowledged.
#[derive(Drop)]
pub struct PageWindow {
    alloc: Global,
    base: u64,
    held: VecDeque<Page>,
    is_ended: bool,
}

impl Model for PageWindow {
    ghost use Rattle.std.specs.Prelude.{◌+◌, ◌^◌, ◌<◌, length};
    ghost use Rattle.page_window.specs.Windows.{WindowState};

    ghost Value = { WindowState };

    ghost view = { λ w. record { base = w.base; held = w.held.items; is_ended = w.is_ended } };

    ghost invariant = { λ w. w.base + length w.held.items < 2 ^ 64 };
}

impl PageWindow {
    /// No page was put yet. Takes no memory.
    pub fn new(alloc: Global) -> PageWindow
        ensures value { result ≡ record { base = 0; held = []; is_ended = false } }
        ensures put { IsWindowOf [] result }
    {
        PageWindow {
            alloc,
            base: 0,
            held: VecDeque::new(alloc),
            is_ended: false,
        }
    }

    /// Puts one more page. Where there is no memory for it, it is handed back.
    pub fn push(&mut self, page: Page) -> Result<(), PushMemory>
        requires going { self.old.is_ended ≡ false }
        requires room { end_of self.old < 2 ^ 64 - 1 }
        ensures ok { OnOk result (self.new ≡ pushed self.old page) }
        ensures err { OnErr result (self.new ≡ self.old) }
        ensures back { IfErr result (λ back. back.0 ≡ page) }
        ensures put { OnOk result ((put : List TypedPage) → IsWindowOf put self.old → IsWindowOf (put ++ page ∷ []) self.new) }
    {
        match self.held.push_back(page) {
            Ok(()) => Ok(()),
            Err(full) => Err(PushMemory(full.value)),
        }
    }

    /// No more pages will come.
    pub fn end(&mut self)
        ensures ended { self.new ≡ record self.old { is_ended = true } }
        ensures put { (put : List TypedPage) → IsWindowOf put self.old → IsWindowOf put self.new }
    {
        self.is_ended = true;
    }

    /// The token of the first page that is held.
    pub fn base(&self) -> u64
        ensures { result ≡ self.now.base }
    {
        self.base
    }

    /// The token behind the last page.
    pub fn end_token(&self) -> u64
        ensures { result ≡ end_of self.now }
    {
        self.base + self.held.len() as u64
    }

    /// Whether no more pages will come.
    pub fn is_ended(&self) -> bool
        ensures { result ≡ self.now.is_ended }
    {
        self.is_ended
    }

    /// How many pages are held.
    pub fn len(&self) -> usize
        ensures { result ≡ length self.now.held }
    {
        self.held.len()
    }

    pub fn is_empty(&self) -> bool
        ensures { IsTrue result ↔ (self.now.held ≡ []) }
    {
        self.held.is_empty()
    }

    /// Copies the pages from a token on, at most `most`.
    pub fn fetch(&self, token: u64, most: u32) -> Result<Reply, FetchFault>
        requires { 0 < most }
        ensures answer { IsFetched self.now token most result }
        ensures put { IfOk result (λ r. ArePagesOf self.now token most r.pages) }
    {
        if token < self.base {
            return Err(FetchFault::TokenGone { base: self.base });
        }
        if token > self.end_token() {
            return Err(FetchFault::TokenAhead {
                end: self.end_token(),
            });
        }
        Ok(self.reply(token, most)?)
    }

    /// Copies the pages from a token on that the window has.
    fn reply(&self, token: u64, most: u32) -> Result<Reply, Memory>
        requires { HasToken self.now token }
        ensures { IfOk result (IsReplyOf self.now token most) }
    {
        let pages = self.copies((token - self.base) as usize, most as usize)?;
        let next = token + pages.len() as u64;
        Ok(Reply {
            token,
            pages,
            next,
            complete: self.is_ended && next == self.end_token(),
        })
    }

    /// Copies the held pages from a place on, at most `most`.
    fn copies(&self, from: usize, most: usize) -> Result<PageList, Memory>
        requires { from ≤ length self.now.held }
        ensures { IfOk result (λ pages. pages ≡ take most (drop from self.now.held)) }
    {
        let mut pages = PageList::new(self.alloc);
        let end = from + most.min(self.held.len() - from);
        for place in from..end {
            pages.push(self.held[place].copy(self.alloc)?)?;
        }
        Ok(pages)
    }

    /// Drops the pages below a token. A token at or below the base changes nothing.
    pub fn ack(&mut self, token: u64) -> Result<(), AckAhead>
        ensures ok { OnOk result (self.new ≡ acknowledged self.old token) }
        ensures err { OnErr result (self.new ≡ self.old) }
        ensures cause { IsAcknowledged self.old token result }
        ensures put { (put : List TypedPage) → IsWindowOf put self.old → IsWindowOf put self.new }
    {
        let end = self.end_token();
        if end < token {
            return Err(AckAhead { end });
        }
        self.drop_below(token);
        Ok(())
    }

    /// Drops the held pages below a token that the window has, or had.
    fn drop_below(&mut self, token: u64)
        requires { token ≤ end_of self.old }
        ensures { self.new ≡ acknowledged self.old token }
    {
        let count = token.saturating_sub(self.base);
        self.held.drain(..count as usize);
        self.base += count;
    }
}
