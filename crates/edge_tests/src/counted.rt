//! Bells that count, pages of numbers, and how both are written.

use blocked::{Bell, Bells, BlockedOn, Due};
use col_pages::{Page, PageBuilder};
use output_buffer::Piece;
use sql_values::{Memory, SqlType, ValueRef};
use std::alloc::Global;
use std::fmt::Write;
use std::sync::Wait;
use std::thread::Threads;

/// Bells, each with how often it rang; the numbers of the others are not counted.
#[derive(Drop)]
pub(crate) struct CountingBells {
    pub(crate) alloc: Global,
    pub(crate) rings: Vec<u64>,
}

impl CountingBells {
    pub(crate) fn new(alloc: Global, bells: usize) -> Result<CountingBells, Memory> {
        let rings = Vec::from_elem(alloc, 0u64, bells)?;
        Ok(CountingBells { alloc, rings })
    }

    fn count(&self, bell: u32) -> u64 {
        let place = bell as usize;
        if place < self.rings.len() {
            return self.rings[place];
        }
        0
    }
}

impl Bells for CountingBells {
    ghost shown = { λ _ _ _. Unit {0} };

    ghost rang = { λ _ _ _. Unit {0} };

    fn seen<R: Threads + Wait + Sync>(&mut self, _rt: &R, bell: u32) -> u64 {
        self.count(bell)
    }

    fn ring<R: Threads + Wait + Sync>(&mut self, _rt: &R, due: Due) -> Result<(), Memory> {
        let bell = due.bell();
        let count = self.count(bell).saturating_add(1);
        if (bell as usize) < self.rings.len() {
            self.rings[bell as usize] = count;
        }
        Bell::<u8>::new(self.alloc).ring(due);
        Ok(())
    }
}

/// Writes how often each bell rang.
pub(crate) fn write_rings(text: &mut String, bells: &CountingBells) -> Result<(), Memory> {
    for count in &bells.rings {
        write!(text, "{count} ")?;
    }
    Ok(())
}

/// Writes the bell and the count of one who waits, or that nobody has to.
pub(crate) fn write_wait(text: &mut String, on: Option<BlockedOn>) -> Result<(), Memory> {
    match on {
        None => text.push_str("ready ")?,
        Some(on) => write!(text, "bell{}at{} ", on.bell, on.seen)?,
    }
    Ok(())
}

/// A page of these numbers.
pub(crate) fn page_of(alloc: Global, numbers: &str) -> Result<Page, Memory> {
    let mut builder = PageBuilder::new(alloc, &[SqlType::Bigint], 12)?;
    for number in numbers.split(',') {
        if let Ok(number) = number.parse::<i64>() {
            put_number(&mut builder, number)?;
        }
    }
    builder.build()
}

fn put_number(builder: &mut PageBuilder, number: i64) -> Result<(), Memory> {
    builder.put(ValueRef::Bigint(number))?;
    if !builder.is_full() {
        builder.end_row();
    }
    Ok(())
}

pub(crate) fn write_page(text: &mut String, page: &Page) -> Result<(), Memory> {
    for row in 0..page.len() {
        if let ValueRef::Bigint(number) = page.cell(row, 0) {
            write!(text, "{number},")?;
        }
    }
    text.push_str(" ")?;
    Ok(())
}

pub(crate) fn write_piece(text: &mut String, piece: &Piece) -> Result<(), Memory> {
    match piece {
        Piece::Rows(page) => write_page(text, page),
        Piece::End(number) => Ok(write!(text, "end{number} ")?),
    }
}
