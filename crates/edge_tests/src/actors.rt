//! What a pool is tested with.
ghost use Rattle.std.specs.Prelude.{◌≡◌, false, true};
ghost use Rattle.futures.specs.Task.{Covers};
ghost use Rattle.worker_pool.specs.Turns.{IsLeftBy, IfBlocked};

use blocked::{Bells, BlockedOn, Due, ReadBell, Seen};
use futures::Future;
use futures::task::Context;
use sql_values::Memory;
use std::alloc::Global;
use std::fmt::Write;
use std::sync::atomic::{AtomicU64, Ordering};
use std::sync::{Mutex, Wait};
use std::thread::Threads;
use worker_pool::{TakesTurns, Turn};

/// What the actors of one run share.
#[derive(Drop)]
pub(crate) struct Scene {
    opened: AtomicU64,
    opened_other: AtomicU64,
    turns: Mutex<String>,
    is_noted: bool,
}

impl Scene {
    /// One in which the order of turns is noted, or not.
    pub(crate) fn new(alloc: Global, is_noted: bool) -> Scene {
        Scene {
            opened: AtomicU64::new(0),
            opened_other: AtomicU64::new(0),
            turns: Mutex::new(String::new(alloc)),
            is_noted,
        }
    }

    /// How often it was opened at this bell.
    fn opened_at(&self, bell: u32) -> &AtomicU64 {
        match bell {
            0 => &self.opened,
            _ => &self.opened_other,
        }
    }

    /// The numbers of the actors in the order in which they had turns.
    pub(crate) fn into_turns(self) -> String {
        self.turns.into_inner()
    }

    fn note<R: Wait>(&self, rt: &R, number: usize) {
        if self.is_noted {
            let mut turns = self.turns.lock(rt);
            let _ = write!(turns, "{number}");
        }
    }
}

/// What an actor does in its turns.
#[derive(Clone, Copy)]
enum Part {
    /// Counts them.
    Count,
    /// Waits at its bell until the scene was opened there so often.
    Wait,
    /// Opens the scene at its bell in each, and rings it.
    Open,
    /// Fails in its last one.
    Fail,
}

#[derive(Drop)]
pub(crate) struct Actor<'s> {
    pub(crate) number: usize,
    part: Part,
    bell: u32,
    left: u32,
    work: u64,
    is_finished: bool,
    has_failed: bool,
    scene: &'s Scene,
}

impl Actor<'_> {
    /// A letter: whether it is finished, has failed, or neither.
    pub(crate) fn state(&self) -> &'static str {
        if self.has_failed {
            return "x";
        }
        if self.is_finished { "f" } else { "-" }
    }

    /// Whether this turn is its last one.
    fn is_last(&mut self) -> bool
        ensures number { self.new.number ≡ self.old.number }
        ensures finished { self.new.is_finished ≡ self.old.is_finished }
        ensures failed { self.new.has_failed ≡ self.old.has_failed }
    {
        self.left = self.left.saturating_sub(1);
        self.left == 0
    }

    fn finish(&mut self) -> Turn
        requires { self.old.has_failed ≡ false }
        ensures number { self.new.number ≡ self.old.number }
        ensures state { IsLeftBy result self.new.is_finished self.new.has_failed }
        ensures turn { result ≡ Turn.Finished }
    {
        self.is_finished = true;
        Turn::Finished
    }

    fn fail(&mut self) -> Turn
        ensures number { self.new.number ≡ self.old.number }
        ensures state { IsLeftBy result self.new.is_finished self.new.has_failed }
        ensures turn { result ≡ Turn.Failed }
    {
        self.has_failed = true;
        Turn::Failed
    }

    fn count(&mut self) -> Turn
        requires { (self.old.is_finished ≡ false) × (self.old.has_failed ≡ false) }
        ensures number { self.new.number ≡ self.old.number }
        ensures state { IsLeftBy result self.new.is_finished self.new.has_failed }
        ensures blocked { IfBlocked result (λ _. ⊥) }
    {
        if self.is_last() {
            return self.finish();
        }
        Turn::Yield
    }

    fn open<R: Threads + Wait + Sync, B: Bells>(&mut self, rt: &R, bells: &mut B) -> Turn
        requires { (self.old.is_finished ≡ false) × (self.old.has_failed ≡ false) }
        ensures number { self.new.number ≡ self.old.number }
        ensures state { IsLeftBy result self.new.is_finished self.new.has_failed }
        ensures blocked { IfBlocked result (λ _. ⊥) }
    {
        self.scene
            .opened_at(self.bell)
            .fetch_add(1, Ordering::SeqCst);
        if bells.ring(rt, Due::of(self.bell)).is_err() {
            return self.fail();
        }
        self.count()
    }

    fn is_open(&self) -> bool {
        self.scene.opened_at(self.bell).load(Ordering::SeqCst) >= u64::from(self.left)
    }

    fn fail_at_last(&mut self) -> Turn
        requires { (self.old.is_finished ≡ false) × (self.old.has_failed ≡ false) }
        ensures number { self.new.number ≡ self.old.number }
        ensures state { IsLeftBy result self.new.is_finished self.new.has_failed }
        ensures blocked { IfBlocked result (λ _. ⊥) }
    {
        if self.is_last() {
            return self.fail();
        }
        Turn::Yield
    }
}

/// The future of one who waits with this count.
fn hear(seen: Seen, cx: &mut Context<'_>) -> BlockedOn
    ensures bell { result.bell ≡ seen.bell }
    ensures seen { result.seen ≡ seen.count }
    ensures heard { Covers cx.new (⟦<BlockedOn as Future>⟧.needs result) }
{
    let mut on = BlockedOn::new(seen.bell(), seen.count());
    let _ = on.poll(cx);
    on
}

impl TakesTurns for Actor<'_> {
    ghost use Rattle.std.proofs.Common.{refl, ◌∙◌};

    ghost work = { λ actor. actor.work };

    ghost is_finished = { λ actor. actor.is_finished };

    ghost has_failed = { λ actor. actor.has_failed };

    ghost follows = { λ before after. after.number ≡ before.number };

    ghost waits_at = { λ actor bell _. bell ≡ actor.bell };

    fn work(&self) -> u64 {
        self.work
    }

    fn is_finished(&self) -> bool {
        self.is_finished
    }

    fn has_failed(&self) -> bool {
        self.has_failed
    }

    fn turn<R: Threads + Wait + Sync, B: Bells>(
        &mut self,
        rt: &R,
        quantum: u32,
        cx: &mut Context<'_>,
        bells: &mut B,
    ) -> Turn {
        self.scene.note(rt, self.number);
        self.work = self.work.saturating_add(u64::from(quantum));
        match self.part {
            Part::Count => self.count(),
            Part::Open => self.open(rt, bells),
            Part::Fail => self.fail_at_last(),
            Part::Wait => {
                let seen = Seen::read(rt, bells, self.bell);
                if self.is_open() {
                    return self.finish();
                }
                Turn::Blocked(hear(seen, cx))
            }
        }
    }

    ghost stays = { λ _. refl };

    ghost goes_on = { λ x y z first _ _ then. then ∙ first };
}

/// The part that a word names, its bell, and the work that was done before.
fn part_of(name: &str) -> (Part, u32, u64) {
    match name {
        "long" => (Part::Count, 0, 2_000_000),
        "wait" => (Part::Wait, 0, 0),
        "wait1" => (Part::Wait, 1, 0),
        "open" => (Part::Open, 0, 0),
        "open1" => (Part::Open, 1, 0),
        "fail" => (Part::Fail, 0, 0),
        _ => (Part::Count, 0, 0),
    }
}

/// The actors that words name, numbered in their order.
pub(crate) fn cast_of<'s>(
    alloc: Global,
    scene: &'s Scene,
    words: &str,
) -> Result<Vec<Actor<'s>>, Memory> {
    let mut cast = Vec::new(alloc);
    for word in words.split(' ') {
        let (name, turns) = word.split_once(':').unwrap_or((word, ""));
        let (part, bell, work) = part_of(name);
        let actor = Actor {
            number: cast.len(),
            part,
            bell,
            left: turns.parse::<u32>().unwrap_or(0),
            work,
            is_finished: false,
            has_failed: false,
            scene,
        };
        cast.push(actor)?;
    }
    Ok(cast)
}
