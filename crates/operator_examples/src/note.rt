ghost use Rattle.std.specs.Prelude.{◌≡◌, ◌≤◌, Some, None, IsSome, IfSome, IfNone};
ghost use Rattle.count_laws.specs.Counts.{next_count};

use blocked::Seen;
use std::marker::Model;

/// A note that comes to know a number. It stands in for the note of a cell that is set once.
#[derive(Drop)]
pub struct Note {
    bell: u32,
    known: Option<u32>,
    coming: u32,
    looks_left: u32,
    empty_looks: u64,
    looked_at: u64,
}

impl Model for Note {
    ghost use Rattle.operator_examples.specs.Samples.{NoteState};

    ghost Value = { NoteState };

    ghost view = { λ n. record {
      bell = n.bell;
      known = n.known;
      empty_looks = n.empty_looks;
      looked_at = n.looked_at;
    } };

    ghost use Rattle.std.specs.Prelude.{◌≡◌};

    ghost invariant = { λ n. n.empty_looks ≡ 0 → n.looked_at ≡ 0 };
}

impl Note {
    /// It knows nothing at first. So many looks find nothing, and the next one finds the number.
    pub fn new(bell: u32, coming: u32, looks_left: u32) -> Note
        ensures { result ≡ record { bell = bell; known = None; empty_looks = 0; looked_at = 0 } }
    {
        Note {
            bell,
            known: None,
            coming,
            looks_left,
            empty_looks: 0,
            looked_at: 0,
        }
    }

    /// The law that it keeps no count before a look of its own found nothing.
    pub(crate) fn unlooked_keeps_none(&self)
        ensures { self.now.empty_looks ≡ 0 → self.now.looked_at ≡ 0 }
    {
        let _known = self.known;
    }

    /// The number of its bell.
    pub fn bell(&self) -> u32
        ensures { result ≡ self.now.bell }
    {
        self.bell
    }

    /// The number that it knows.
    pub fn known(&self) -> Option<u32>
        ensures { result ≡ self.now.known }
    {
        self.known
    }

    /// Looks for the number. A note that knows it keeps it. One that finds nothing keeps the count that was
    /// read of its bell before the look.
    pub fn look(&mut self, seen: Seen) -> Option<u32>
        requires { seen.bell ≡ self.old.bell }
        ensures bell { self.new.bell ≡ self.old.bell }
        ensures kept { IsSome self.old.known → self.new ≡ self.old }
        ensures found { IfSome result (λ n. self.new ≡ record self.old { known = Some n }) }
        ensures none { IfNone result (self.new
            ≡ record {
              bell = self.old.bell;
              known = None;
              empty_looks = next_count self.old.empty_looks;
              looked_at = seen.count;
            }) }
        ensures looks { self.old.empty_looks ≤ self.new.empty_looks }
        ensures unknown { IfNone result (self.old.known ≡ None) }
    {
        if let Some(number) = self.known {
            return Some(number);
        }
        if self.looks_left == 0 {
            self.known = Some(self.coming);
            return Some(self.coming);
        }
        self.looks_left -= 1;
        self.empty_looks = self.empty_looks.saturating_add(1);
        self.looked_at = seen.count();
        None
    }
}
