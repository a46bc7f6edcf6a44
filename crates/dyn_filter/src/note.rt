ghost use Rattle.std.specs.Prelude.{◌≡◌, ◌↔◌, ◌<◌, IsTrue, IsSome, length, map};
ghost use Rattle.set_once.specs.Notes.{Agree};
ghost use Rattle.dyn_filter.specs.Cells.{note_at};

use crate::domain::Domain;
use set_once::SetNote;
use std::marker::Model;

/// What one driver has learned of one cell, part by part.
#[derive(Drop)]
pub struct FilterNote {
    pub(crate) parts: Vec<SetNote<Domain>>,
    pub(crate) empties: u64,
    pub(crate) looked_at: u64,
}

impl Model for FilterNote {
    ghost use Rattle.dyn_filter.specs.Cells.{NotesState};

    ghost Value = { NotesState };

    ghost view = { λ n. record {
      parts = n.parts.items;
      empties = n.empties;
      looked_at = n.looked_at;
    } };
}

impl FilterNote {
    /// Whether it knows the domain of a part.
    pub fn knows(&self, part: u32) -> bool
        requires { part < length self.now.parts }
        ensures { IsTrue result ↔ IsSome (note_at self.now.parts part).known }
    {
        self.parts[part as usize].knows()
    }

    /// How many parts its cell has.
    pub fn len(&self) -> usize
        ensures { result ≡ length self.now.parts }
    {
        self.parts.len()
    }

    /// How often the part held another domain when one was published there with this note.
    pub fn refused(&self, part: u32) -> u64
        requires { part < length self.now.parts }
        ensures { result ≡ (note_at self.now.parts part).refused }
    {
        self.parts[part as usize].refused()
    }

    /// How often a look with this note found a part that has no domain.
    pub fn empties(&self) -> u64
        ensures { result ≡ self.now.empties }
    {
        self.empties
    }

    /// Notes of one cell that know the domain of a part know the same one, whichever threads made them.
    pub fn agree(&mut self, other: &mut FilterNote, part: u32)
        requires within { part < length self.old.parts }
        requires cell { map (λ n. n.cell) other.old.parts ≡ map (λ n. n.cell) self.old.parts }
        ensures agree { Agree (note_at self.old.parts part) (note_at other.old.parts part) }
        ensures same { (self.new ≡ self.old) × (other.new ≡ other.old) }
    {
        let part = part as usize;
        self.parts[part].agree(&mut other.parts[part]);
    }
}
