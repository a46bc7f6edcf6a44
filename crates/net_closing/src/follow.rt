//! What is known by those who publish in cells is compared with what is known by those who look into them.
ghost use Rattle.std.specs.Prelude.{◌≡◌, true, All, map};
ghost use Rattle.net_closing.specs.Parts.{KnowsPart};

use driver_loop::{CellNote, FilterCellNote};
use dyn_filter::FilterNote;

/// What is known of a cell by one who looks into it or publishes in it.
pub(crate) trait Follows {
    // The first is of one who looks and the second of one who publishes; where they say so, they are of one cell.
    ghost may_compare: { Self → Self → Type 0 };

    // The second knows what the first knows, and as its own.
    ghost learned: { Self → Self → Type 0 };

    /// Whether one who publishes knows what this one knows, and as its own, where it is the same cell.
    fn is_followed(&mut self, build: &mut Self) -> bool
        requires { may_compare self.old build.old }
        ensures look { self.new ≡ self.old }
        ensures build { build.new ≡ build.old }
        ensures learned { result ≡ true → learned self.old build.old };
}

/// Whether those who publish know all that those who look into the same cells know.
pub(crate) fn all_follow<N: Follows>(looks: &mut Vec<N>, builds: &mut Vec<N>) -> bool
    requires { All (λ (look : N). All (N.may_compare look) builds.old.items) looks.old.items }
    ensures { result ≡ true
        → All (λ (look : N). All (N.learned look) builds.old.items) looks.old.items }
{
    for place in 0..looks.len() {
        if !all_follow_one(&mut looks[place], builds) {
            return false;
        }
    }
    true
}

/// Whether those who publish know all that one who looks knows.
fn all_follow_one<N: Follows>(look: &mut N, builds: &mut Vec<N>) -> bool
    requires { All (N.may_compare look.old) builds.old.items }
    ensures look { look.new ≡ look.old }
    ensures builds { builds.new.items ≡ builds.old.items }
    ensures follow { result ≡ true → All (N.learned look.old) builds.old.items }
{
    for place in 0..builds.len() {
        if !look.is_followed(&mut builds[place]) {
            return false;
        }
    }
    true
}

impl Follows for CellNote {
    ghost use Rattle.std.specs.Prelude.{◌≡◌};
    ghost use Rattle.driver_net_laws.specs.Cells.{LearnedFrom};

    ghost may_compare = { λ look build. build.bell ≡ look.bell → build.note.cell ≡ look.note.cell };

    ghost learned = { LearnedFrom };

    fn is_followed(&mut self, build: &mut CellNote) -> bool {
        if build.bell != self.bell {
            return true;
        }
        self.note.agree(&mut build.note);
        !self.note.knows() || build.note.knows() && build.note.refused() == 0
    }
}

impl Follows for FilterCellNote {
    ghost use Rattle.std.specs.Prelude.{◌≡◌};
    ghost use Rattle.driver_net_laws.specs.FilterCells.{LearnedPart, part_names};

    ghost may_compare = { λ look build. build.bell ≡ look.bell → part_names build ≡ part_names look };

    ghost learned = { LearnedPart };

    fn is_followed(&mut self, build: &mut FilterCellNote) -> bool {
        if build.bell != self.bell {
            return true;
        }
        match build.part {
            Some(part) => knows_part(&mut self.note, &mut build.note, part),
            None => true,
        }
    }
}

/// Whether one who publishes in a part of a cell knows what one who looks knows of that part, and as its own.
fn knows_part(look: &mut FilterNote, build: &mut FilterNote, part: u32) -> bool
    requires { map (λ n. n.cell) build.old.parts ≡ map (λ n. n.cell) look.old.parts }
    ensures look { look.new ≡ look.old }
    ensures build { build.new ≡ build.old }
    ensures knows { result ≡ true → KnowsPart look.old build.old part }
{
    if part as usize >= look.len() {
        return true;
    }
    look.agree(build, part);
    !look.knows(part) || build.knows(part) && build.refused(part) == 0
}
