//! A courier that follows a text.
ghost use Rattle.std.specs.Prelude.{◌≡◌};

use run_ports::{Courier, Delivery};

/// A courier that goes round a text: `F` delivers the fresh reply, `N` none, and a digit an earlier one.
#[derive(Drop)]
pub struct Script<'a> {
    words: &'a [u8],
    at: usize,
    missed: u64,
}

impl<'a> Script<'a> {
    pub fn of(words: &'a str) -> Script<'a> {
        Script {
            words: words.as_bytes(),
            at: 0,
            missed: 0,
        }
    }

    fn next_word(&mut self) -> u8
        ensures { self.new.missed ≡ self.old.missed }
    {
        let word = self.words.get(self.at).copied().unwrap_or(b'F');
        let next = self.at.saturating_add(1);
        self.at = if next < self.words.len() { next } else { 0 };
        word
    }
}

fn delivery_of(word: u8) -> Delivery {
    match word {
        b'F' => Delivery::Fresh,
        b'N' => Delivery::Nothing,
        _ => Delivery::Again(u32::from(word.saturating_sub(b'0'))),
    }
}

impl<'a> Courier for Script<'a> {
    ghost missed = { λ s. s.missed };

    fn for_edge(&self, _number: u64, _edge: u32) -> Script<'a> {
        Script {
            words: self.words,
            at: 0,
            missed: 0,
        }
    }

    fn turn(&mut self) -> Delivery {
        let delivery = delivery_of(self.next_word());
        if !matches!(delivery, Delivery::Fresh) {
            self.missed = self.missed.saturating_add(1);
        }
        delivery
    }
}
