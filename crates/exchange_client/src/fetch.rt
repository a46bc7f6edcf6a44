ghost use Rattle.std.specs.Prelude.{◌≡◌, ◌⊎◌, ◌↔◌, ◌<◌, ◌≤◌, ◌++◌, ◌∷◌, [], List, false, true, Some, option_map, IsTrue, IfOk, IfErr, OnOk, OnErr, IfSome};
ghost use Rattle.col_pages.specs.Pages.{TypedPage};
ghost use Rattle.page_window.specs.Windows.{pushed, acknowledged, end_of};
ghost use Rattle.exchange_client.specs.Clients.{kept_as, pages_given, unless_stale};
ghost use Rattle.exchange_client.specs.Fetches.{Carries, HasRoom, MayArrive, rest, prepared, begun_anew, is_used_up, last_token, fresh_of, KeepsRest, GivesWhatIsLeft};
ghost use Rattle.exchange_client.specs.Steps.{IsDelivered, HasStepped, HasMissed, is_due, begun, taken, arriving, behind_latest, delivered};
ghost use Rattle.run_ports.specs.declared.courier.Delivery.TheVariants.{Fresh, Nothing};

use crate::client::PageClient;
use crate::kept_replies::KeptReplies;
use crate::kept_reply::KeptReply;
use col_pages::{Page, PageList};
use page_window::{FetchFault, PageWindow, PushMemory, Reply};
use run_ports::{Courier, Delivery};
use sql_values::Memory;
use std::alloc::Global;
use std::marker::Model;

/// After so many steps in a row without an accepted reply the courier is not asked.
const MOST_FRUITLESS: u32 = 64;

/// How many pages a window with room holds fewer of.
const MOST_HELD: usize = 32;

/// Pages that go through a window to a client, while a courier decides which replies arrive.
#[derive(Drop)]
pub struct Fetch<C: Courier> {
    alloc: Global,
    window: PageWindow,
    client: PageClient,
    kept: KeptReplies,
    courier: C,
    fruitless: u32,
    most: u32,
}

impl<C: Courier> Model for Fetch<C> {
    ghost use Rattle.exchange_client.specs.Fetches.{FetchState, KeepsTokens};

    ghost Value = { FetchState };

    ghost view = { λ f. record {
      window = f.window;
      client = f.client;
      kept = f.kept;
      missed = C.missed f.courier;
      fruitless = f.fruitless;
      most = f.most;
    } };

    ghost invariant = { λ f. KeepsTokens f.window f.client f.most f.kept };
}

impl<C: Courier> Fetch<C> {
    /// Joins a courier with a window and a client; a reply has at most `most` pages. Takes no memory.
    pub fn new(alloc: Global, courier: C, most: u32) -> Fetch<C>
        requires { 0 < most }
        ensures value { result ≡ record {
          window = record { base = 0; held = []; is_ended = false };
          client = record { next = 0; is_complete = false };
          kept = [];
          missed = C.missed courier;
          fruitless = 0;
          most = most;
        } }
        ensures carries { Carries [] [] result }
    {
        Fetch {
            alloc,
            window: PageWindow::new(alloc),
            client: PageClient::new(),
            kept: KeptReplies::new(alloc),
            courier,
            fruitless: 0,
            most,
        }
    }

    /// Whether the window takes one more page: it holds fewer than 32, and a token is left.
    pub fn has_room(&self) -> bool
        ensures { IsTrue result ↔ HasRoom self.now }
    {
        self.window.len() < MOST_HELD && self.window.end_token() < u64::MAX
    }

    /// Puts one more page. Where there is no memory for it, it is handed back.
    pub fn push(&mut self, page: Page) -> Result<(), PushMemory>
        requires going { self.old.window.is_ended ≡ false }
        requires room { HasRoom self.old }
        ensures ok { OnOk result (self.new ≡ record self.old { window = pushed self.old.window page }) }
        ensures err { OnErr result (self.new ≡ self.old) }
        ensures back { IfErr result (λ back. back.0 ≡ page) }
        ensures carries { OnOk result ((put given : List TypedPage) → Carries put given self.old
            → Carries (put ++ page ∷ []) given self.new) }
    {
        self.window.push(page)
    }

    /// No more pages will come.
    pub fn end(&mut self)
        ensures ended { self.new ≡ record self.old { window = record self.old.window { is_ended = true } } }
        ensures carries { (put given : List TypedPage) → Carries put given self.old → Carries put given self.new }
    {
        self.window.end();
    }

    /// Whether no more pages will come.
    pub fn is_ended(&self) -> bool
        ensures { result ≡ self.now.window.is_ended }
    {
        self.window.is_ended()
    }

    /// Whether a complete reply was accepted. Each page was given then, and no more will come.
    pub fn is_complete(&self) -> bool
        ensures complete { result ≡ self.now.client.is_complete }
        ensures over { result ≡ true → (self.now.window.is_ended ≡ true) × (rest self.now ≡ []) }
    {
        self.client.is_complete()
    }

    /// Whether no page that was put is still to be given.
    pub fn is_drained(&self) -> bool
        ensures { IsTrue result ↔ (rest self.now ≡ []) }
    {
        self.client.next_token() == self.window.end_token()
    }

    /// Asks for the next pages, and gives those that arrive. It gives none only where none was left, or where the
    /// courier missed a turn before 64 steps in a row had none accepted. Where none was left, and more may come, there is
    /// room for one. After Memory the pages still to be given are as before.
    pub fn step(&mut self) -> Result<PageList, Memory>
        ensures step { IfOk result (λ pages. HasStepped (is_due self.old) (begun self.old) pages self.new) }
        ensures rest { IfOk result (λ pages. rest self.old ≡ pages ++ rest self.new) }
        ensures carries { IfOk result (λ pages. (put given : List TypedPage) → Carries put given self.old
            → Carries put (given ++ pages) self.new) }
        ensures empty { IfOk result (λ pages. pages ≡ []
            → (rest self.old ≡ []) ⊎ HasMissed self.old self.new) }
        ensures complete { OnOk result (self.old.window.is_ended ≡ true → rest self.old ≡ []
            → (self.new.client.is_complete ≡ true) ⊎ HasMissed self.old self.new) }
        ensures later { self.old.missed ≤ self.new.missed }
        ensures unasked { is_due self.old ≡ true → self.new.missed ≡ self.old.missed }
        ensures ended { self.new.window.is_ended ≡ self.old.window.is_ended }
        ensures room { OnOk result (self.old.window.is_ended ≡ false → rest self.old ≡ [] → HasRoom self.new) }
        ensures err { OnErr result (self.new ≡ record (begun self.old) { missed = self.new.missed }) }
        ensures same_rest { OnErr result (rest self.new ≡ rest self.old) }
    {
        let due = self.begin();
        self.deliver(due)
    }

    /// Begins a step, and says whether the fresh reply is due.
    fn begin(&mut self) -> bool
        ensures due { result ≡ is_due self.old }
        ensures begun { self.new ≡ begun self.old }
        ensures same { KeepsRest self.old self.new }
        ensures room { self.old.window.is_ended ≡ false → rest self.old ≡ [] → HasRoom self.new }
    {
        self.prepare();
        let due = MOST_FRUITLESS <= self.fruitless;
        self.fruitless = MOST_FRUITLESS.min(self.fruitless.saturating_add(1));
        due
    }

    /// Starts anew where all tokens are used, and else acknowledges what was given.
    fn prepare(&mut self)
        ensures prepared { self.new ≡ prepared self.old }
        ensures same { KeepsRest self.old self.new }
        ensures room { self.old.window.is_ended ≡ false → rest self.old ≡ [] → HasRoom self.new }
    {
        if self.is_used_up() {
            self.begin_anew();
        } else {
            self.acknowledge();
        }
    }

    fn is_used_up(&self) -> bool
        ensures used { result ≡ is_used_up self.now }
        ensures few { end_of self.now.window ≤ last_token }
    {
        let end = self.window.end_token();
        !self.window.is_ended() && end == u64::MAX && self.client.next_token() == end
    }

    fn begin_anew(&mut self)
        requires { is_used_up self.old ≡ true }
        ensures anew { self.new ≡ begun_anew self.old }
        ensures same { KeepsRest self.old self.new }
    {
        self.window = PageWindow::new(self.alloc);
        self.client = PageClient::new();
        self.kept = KeptReplies::new(self.alloc);
    }

    fn acknowledge(&mut self)
        ensures acknowledged { self.new ≡ record self.old {
          window = acknowledged self.old.window self.old.client.next;
        } }
        ensures same { KeepsRest self.old self.new }
        ensures room { is_used_up self.old ≡ false → end_of self.old.window ≤ last_token
            → self.old.window.is_ended ≡ false → rest self.old ≡ [] → HasRoom self.new }
    {
        let Ok(()) = self.window.ack(self.client.next_token()) else {
            unreachable!()
        };
    }

    /// Makes the fresh reply, lets arrive what the courier says, and gives the pages that the client accepts.
    fn deliver(&mut self, due: bool) -> Result<PageList, Memory>
        ensures step { IfOk result (λ pages. HasStepped due self.old pages self.new) }
        ensures rest { IfOk result (λ pages. rest self.old ≡ pages ++ rest self.new) }
        ensures gives { GivesWhatIsLeft self.old (fresh_of self.old) }
        ensures window { self.new.window ≡ self.old.window }
        ensures later { self.old.missed ≤ self.new.missed }
        ensures unasked { due ≡ true → self.new.missed ≡ self.old.missed }
        ensures err { OnErr result (self.new ≡ record self.old { missed = self.new.missed }) }
    {
        let fresh = self.fresh()?;
        let delivery = turn_of(&mut self.courier, due);
        self.give(delivery, fresh)
    }

    /// The reply to the client's next token.
    fn fresh(&self) -> Result<Reply, Memory>
        ensures fresh { IfOk result (λ fresh. kept_as fresh ≡ fresh_of self.now) }
        ensures gives { GivesWhatIsLeft self.now (fresh_of self.now) }
    {
        match self.window.fetch(self.client.next_token(), self.most) {
            Ok(reply) => Ok(reply),
            Err(FetchFault::Memory) => Err(Memory),
            Err(_) => unreachable!(),
        }
    }

    /// Keeps the fresh reply, and gives the pages of what arrives, where the client accepts it.
    fn give(&mut self, delivery: Delivery, fresh: Reply) -> Result<PageList, Memory>
        requires { kept_as fresh ≡ fresh_of self.old }
        ensures pages { IfOk result (λ pages. pages
            ≡ pages_given self.old.client (arriving delivery self.old.kept (fresh_of self.old))) }
        ensures after { OnOk result (self.new ≡ taken (delivered delivery self.old self.old.missed)
            (arriving delivery self.old.kept (fresh_of self.old))) }
        ensures rest { IfOk result (λ pages. rest self.old ≡ pages ++ rest self.new) }
        ensures err { OnErr result (self.new ≡ self.old) }
        ensures window { self.new.window ≡ self.old.window }
    {
        match delivery {
            Delivery::Fresh => self.give_fresh(fresh),
            Delivery::Again(back) => {
                let again = self.again(back)?;
                self.give_kept(again, fresh)
            }
            Delivery::Nothing => self.give_kept(None, fresh),
        }
    }

    /// Gives the pages of the fresh reply, which is kept without them.
    fn give_fresh(&mut self, fresh: Reply) -> Result<PageList, Memory>
        requires { kept_as fresh ≡ fresh_of self.old }
        ensures pages { IfOk result (λ pages. pages ≡ pages_given self.old.client (Some (fresh_of self.old))) }
        ensures after { OnOk result (self.new ≡ taken (delivered Fresh self.old self.old.missed)
            (Some (fresh_of self.old))) }
        ensures rest { IfOk result (λ pages. rest self.old ≡ pages ++ rest self.new) }
        ensures err { OnErr result (self.new ≡ self.old) }
        ensures window { self.new.window ≡ self.old.window }
    {
        self.kept.keep(KeptReply::given(self.alloc, &fresh))?;
        let Ok(pages) = self.client.accept(fresh) else {
            unreachable!()
        };
        self.fruitless = 0;
        Ok(pages)
    }

    /// A copy of the reply so many places behind the latest, where the client accepts it.
    fn again(&self, back: u32) -> Result<Option<Reply>, Memory>
        ensures again { IfOk result (λ again. option_map kept_as again
            ≡ unless_stale self.now.client (behind_latest back self.now.kept)) }
        ensures may { IfOk result (λ again. IfSome again
            (λ r. MayArrive self.now.window self.now.client.next (kept_as r))) }
    {
        let Some(reply) = self.kept.behind_latest(back) else {
            return Ok(None);
        };
        if reply.token() != self.client.next_token() {
            return Ok(None);
        }
        Ok(Some(reply.copy(self.alloc)?))
    }

    /// Keeps the fresh reply with its pages, and gives those of what arrives in its place.
    fn give_kept(&mut self, arrived: Option<Reply>, fresh: Reply) -> Result<PageList, Memory>
        requires fresh { kept_as fresh ≡ fresh_of self.old }
        requires may { IfSome arrived (λ r. MayArrive self.old.window self.old.client.next (kept_as r)) }
        ensures pages { IfOk result (λ pages. pages
            ≡ pages_given self.old.client (option_map kept_as arrived)) }
        ensures after { OnOk result (self.new ≡ taken (delivered Nothing self.old self.old.missed)
            (option_map kept_as arrived)) }
        ensures rest { IfOk result (λ pages. rest self.old ≡ pages ++ rest self.new) }
        ensures err { OnErr result (self.new ≡ self.old) }
        ensures window { self.new.window ≡ self.old.window }
    {
        self.keep(fresh)?;
        Ok(self.take_in(arrived))
    }

    /// Keeps the fresh reply with its pages.
    fn keep(&mut self, fresh: Reply) -> Result<(), Memory>
        requires { kept_as fresh ≡ fresh_of self.old }
        ensures ok { OnOk result (self.new ≡ delivered Nothing self.old self.old.missed) }
        ensures err { OnErr result (self.new ≡ self.old) }
    {
        let kept = KeptReply::of(self.alloc, fresh)?;
        self.kept.keep(kept)?;
        Ok(())
    }

    /// Gives the pages of what arrived, where the client accepts it.
    fn take_in(&mut self, arrived: Option<Reply>) -> PageList
        requires { IfSome arrived (λ r. MayArrive self.old.window self.old.client.next (kept_as r)) }
        ensures pages { result ≡ pages_given self.old.client (option_map kept_as arrived) }
        ensures taken { self.new ≡ taken self.old (option_map kept_as arrived) }
        ensures rest { rest self.old ≡ result ++ rest self.new }
    {
        match arrived {
            Some(reply) => self.accept(reply),
            None => PageList::new(self.alloc),
        }
    }

    fn accept(&mut self, reply: Reply) -> PageList
        requires { MayArrive self.old.window self.old.client.next (kept_as reply) }
        ensures pages { result ≡ pages_given self.old.client (Some (kept_as reply)) }
        ensures taken { self.new ≡ taken self.old (Some (kept_as reply)) }
        ensures rest { rest self.old ≡ result ++ rest self.new }
    {
        match self.client.accept(reply) {
            Ok(pages) => {
                self.fruitless = 0;
                pages
            }
            Err(_) => PageList::new(self.alloc),
        }
    }
}

/// What a courier delivers; where the fresh reply is due, it is not asked.
fn turn_of<C: Courier>(courier: &mut C, due: bool) -> Delivery
    ensures { IsDelivered due result (C.missed courier.old) (C.missed courier.new) }
{
    if due { Delivery::Fresh } else { courier.turn() }
}
