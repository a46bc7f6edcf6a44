ghost use Rattle.std.specs.Prelude.{◌≡◌, ◌↔◌, IsTrue, IsSome};
ghost use Rattle.set_once.specs.Notes.{Agree};

use once_cell::race::Note;
use std::marker::Model;

/// What one owner has learned of one cell. It is no `Clone`: each driver asks the cell for its own.
#[derive(Drop)]
pub struct SetNote<T> {
    pub(crate) note: Note<T>,
    pub(crate) knows: bool,
    pub(crate) refused: u64,
    pub(crate) empties: u64,
    pub(crate) looked_at: u64,
}

impl<T> Model for SetNote<T> {
    ghost use Rattle.set_once.specs.Notes.{NoteState};

    ghost Value = { NoteState T };

    ghost view = { λ n. record {
      cell = n.note.cell;
      known = n.note.known;
      refused = n.refused;
      empties = n.empties;
      looked_at = n.looked_at;
    } };

    ghost use Rattle.std.specs.Prelude.{◌↔◌, IsTrue, IsSome};

    ghost invariant = { λ n. IsTrue n.knows ↔ IsSome n.note.known };
}

impl<T> SetNote<T> {
    /// Whether it knows the cell's value.
    pub fn knows(&self) -> bool
        ensures { IsTrue result ↔ IsSome self.now.known }
    {
        self.knows
    }

    /// How often a set with this note was refused.
    pub fn refused(&self) -> u64
        ensures { result ≡ self.now.refused }
    {
        self.refused
    }

    /// How often a look with this note found nothing.
    pub fn empties(&self) -> u64
        ensures { result ≡ self.now.empties }
    {
        self.empties
    }

    /// Notes of one cell that know a value know the same one, whichever threads made them.
    pub fn agree(&mut self, other: &mut SetNote<T>)
        requires { other.old.cell ≡ self.old.cell }
        ensures agree { Agree self.old other.old }
        ensures same { (self.new ≡ self.old) × (other.new ≡ other.old) }
    {
        self.note.compare(other.note.again());
    }
}
