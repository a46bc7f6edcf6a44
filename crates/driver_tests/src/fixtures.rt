//! What drivers are tested with.
use blocked::{Bell, Bells, BlockedOn, Due};
use col_pages::{Page, PageBuilder};
use operator_core::HeldPages;
use operator_examples::NotNull;
use sql_values::{Memory, SqlType, ValueRef};
use stage_moves::{PageSource, PageTarget, Ready};
use std::alloc::Global;
use std::sync::Wait;
use std::thread::Threads;

/// Bells that always show 7, and keep the number of the last one that was to ring.
#[derive(Drop)]
pub(crate) struct Rung {
    pub(crate) alloc: Global,
    pub(crate) last: Option<u32>,
}

impl Bells for Rung {
    ghost shown = { λ _ _ _. Unit {0} };

    ghost rang = { λ _ _ _. Unit {0} };

    fn seen<R: Threads + Wait + Sync>(&mut self, _rt: &R, _bell: u32) -> u64 {
        7
    }

    fn ring<R: Threads + Wait + Sync>(&mut self, _rt: &R, due: Due) -> Result<(), Memory> {
        self.last = Some(due.bell());
        Bell::<u8>::new(self.alloc).ring(due);
        Ok(())
    }
}

/// A source without a page.
#[derive(Drop)]
pub(crate) struct Nothing {
    pub(crate) is_ended: bool,
}

impl PageSource for Nothing {
    ghost use Rattle.std.specs.Prelude.{[], false};

    ghost taken = { λ _. [] };

    ghost is_ended = { λ s. s.is_ended };

    ghost as_made = { λ s. record s { is_ended = false } };

    fn is_ended(&self) -> bool {
        self.is_ended
    }

    fn ready<R: Threads + Wait + Sync, B: Bells>(
        &mut self,
        _rt: &R,
        _bells: &mut B,
    ) -> Result<Ready, Memory> {
        Ok(Ready::Now)
    }

    fn take(&mut self) -> Result<Option<Page>, Memory> {
        self.is_ended = true;
        Ok(None)
    }
}

/// A source without a page, which asks in vain as often as it has asks, then is blocked at bell 6 as often as it has
/// waits, and then ends.
#[derive(Drop)]
pub(crate) struct Late {
    pub(crate) asks: u32,
    pub(crate) waits: u32,
    missed: u64,
    in_vain: u64,
    looked_at: u64,
    is_through: bool,
    is_ended: bool,
}

pub(crate) fn source_of(asks: u32, waits: u32) -> Late {
    Late {
        asks,
        waits,
        missed: 0,
        in_vain: 0,
        looked_at: 0,
        is_through: false,
        is_ended: false,
    }
}

impl PageSource for Late {
    ghost use Rattle.std.specs.Prelude.{[], false};

    ghost taken = { λ _. [] };

    ghost is_ended = { λ s. s.is_ended };

    ghost as_made = { λ s. record { asks = 0; waits = 0; missed = 0; in_vain = 0; looked_at = 0; is_through = false; is_ended = false } };

    ghost looks = { λ s. record { bell = 6; in_vain = s.in_vain; looked_at = s.looked_at } };

    ghost misses = { λ s. s.missed };

    fn is_ended(&self) -> bool {
        self.is_ended
    }

    fn ready<R: Threads + Wait + Sync, B: Bells>(
        &mut self,
        rt: &R,
        bells: &mut B,
    ) -> Result<Ready, Memory> {
        if self.asks > 0 {
            self.asks -= 1;
            self.missed = self.missed.saturating_add(1);
            return Ok(Ready::Missed);
        }
        if self.waits == 0 {
            self.is_through = true;
            return Ok(Ready::Now);
        }
        let seen = bells.seen(rt, 6);
        self.waits -= 1;
        self.in_vain = self.in_vain.saturating_add(1);
        self.looked_at = seen;
        Ok(Ready::Blocked(BlockedOn::new(6, seen)))
    }

    fn take(&mut self) -> Result<Option<Page>, Memory> {
        self.is_ended = self.is_through;
        Ok(None)
    }
}

/// A target that keeps its pages. It takes none before it was blocked at bell 5 as often as it is full, and once it
/// was told to finish it is blocked there as often as it has waits.
#[derive(Drop)]
pub(crate) struct Kept {
    pub(crate) pages: HeldPages,
    is_told: bool,
    full: u32,
    waits: u32,
    is_through: bool,
    in_vain: u64,
    looked_at: u64,
}

impl PageTarget for Kept {
    ghost use Rattle.std.specs.Prelude.{◌≡◌, ◌&&◌, [], false, nat_eq, not};

    ghost was_given = { λ s Y. Y ≡ s.pages };

    ghost wants = { λ s. not s.is_told && nat_eq s.full 0 };

    ghost is_told = { λ s. s.is_told };

    ghost is_finished = { λ s. s.is_told && s.is_through };

    ghost as_made = { λ s. record s { pages = []; is_told = false; is_through = false; full = 0; waits = 0; in_vain = 0; looked_at = 0 } };

    ghost looks = { λ s. record { bell = 5; in_vain = s.in_vain; looked_at = s.looked_at } };

    fn wants(&self) -> bool {
        !self.is_told && self.full == 0
    }

    fn is_told(&self) -> bool {
        self.is_told
    }

    fn is_finished(&self) -> bool {
        self.is_told && self.is_through
    }

    fn put(&mut self, page: Page) -> Result<(), Memory> {
        self.pages.push(page)
    }

    fn finish(&mut self) {
        self.is_told = true;
    }

    fn ready<R: Threads + Wait + Sync, B: Bells>(
        &mut self,
        rt: &R,
        bells: &mut B,
    ) -> Result<Option<BlockedOn>, Memory> {
        if self.is_told && (self.is_through || self.waits == 0) {
            self.is_through = true;
            return Ok(None);
        }
        if !self.is_told && self.full == 0 {
            return Ok(None);
        }
        let seen = bells.seen(rt, 5);
        match self.is_told {
            true => self.waits = self.waits.saturating_sub(1),
            false => self.full = self.full.saturating_sub(1),
        }
        self.in_vain = self.in_vain.saturating_add(1);
        self.looked_at = seen;
        Ok(Some(BlockedOn::new(5, seen)))
    }
}

/// One without a page, which is full so often, and waits so often at its end.
pub(crate) fn target_of(alloc: Global, full: u32, waits: u32) -> Kept {
    Kept {
        pages: HeldPages::new(alloc),
        is_told: false,
        full,
        waits,
        is_through: false,
        in_vain: 0,
        looked_at: 0,
    }
}

pub(crate) fn empty_target(alloc: Global) -> Kept {
    target_of(alloc, 0, 0)
}

/// Puts a row of this number behind the others, where there is room; 0 stands for NULL.
fn put_number(builder: &mut PageBuilder, number: i64) -> Result<(), Memory> {
    let value = match number {
        0 => ValueRef::Null,
        other => ValueRef::Bigint(other),
    };
    builder.put(value)?;
    if !builder.is_full() {
        builder.end_row();
    }
    Ok(())
}

/// A page of one column; 0 stands for NULL.
pub(crate) fn page(alloc: Global, numbers: &[i64]) -> Result<Page, Memory> {
    let mut builder = PageBuilder::new(alloc, &[SqlType::Bigint], 16)?;
    for number in numbers {
        put_number(&mut builder, *number)?;
    }
    builder.build()
}

/// Two stages that fail on NULL, as nodes 5 and 6.
pub(crate) fn stages(alloc: Global) -> Result<Vec<NotNull>, Memory> {
    let mut stages = Vec::with_capacity(alloc, 2)?;
    for node in 5..7 {
        stages.push(NotNull::new(alloc, node, 0))?;
    }
    Ok(stages)
}
