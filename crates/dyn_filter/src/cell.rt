ghost use Rattle.std.specs.Prelude.{◌≡◌, ◌<◌, ◌≤◌, Some, None, length, map, slice_set, IfOk, IfSome, IfNone, MatchOption};
ghost use Rattle.count_laws.specs.Counts.{next_count};
ghost use Rattle.set_once.specs.Answers.{MayLearn};
ghost use Rattle.dyn_filter.specs.Cells.{FoundAll, FoundNone, IsNoteOf, IsPublished, IsUnion, new_notes, note_at};

use crate::domain::Domain;
use crate::fault::FilterPublishFault;
use crate::note::FilterNote;
use blocked::{Due, Seen};
use set_once::{SetFault, SetOnce};
use sql_values::Memory;
use std::alloc::Global;
use std::marker::Model;

/// A domain in several parts, each of which is published at most once, and the bell that rings at each.
#[derive(Drop)]
pub struct FilterCell {
    parts: Vec<SetOnce<Domain>>,
    bell: u32,
}

impl Model for FilterCell {
    ghost use Rattle.dyn_filter.specs.Cells.{CellState};

    ghost Value = { CellState };

    ghost view = { λ c. record { parts = c.parts.items; bell = c.bell } };
}

impl FilterCell {
    /// A cell of so many empty parts, with the bell of this number.
    pub fn new(alloc: Global, parts: u32, bell: u32) -> Result<FilterCell, Memory>
        requires { 0 < parts }
        ensures parts { IfOk result (λ c. length c.parts ≡ parts) }
        ensures bell { IfOk result (λ c. c.bell ≡ bell) }
    {
        let mut cells = Vec::with_capacity(alloc, parts as usize)?;
        for _part in 0..parts {
            cells.push(SetOnce::new(alloc))?;
        }
        Ok(FilterCell { parts: cells, bell })
    }

    /// The number of its bell.
    pub fn bell(&self) -> u32
        ensures { result ≡ self.now.bell }
    {
        self.bell
    }

    /// How many parts it has.
    pub fn len(&self) -> usize
        ensures { result ≡ length self.now.parts }
    {
        self.parts.len()
    }

    /// A note of this cell that knows nothing.
    pub fn note(&self, alloc: Global) -> Result<FilterNote, Memory>
        ensures fresh { IfOk result (λ n. n ≡ new_notes self.now.parts) }
        ensures cell { IfOk result (IsNoteOf self.now.parts) }
    {
        let mut parts = Vec::with_capacity(alloc, self.parts.len())?;
        for part in &self.parts {
            parts.push(part.note())?;
        }
        Ok(FilterNote {
            parts,
            empties: 0,
            looked_at: 0,
        })
    }

    /// Gives a part its domain, unless it has one. `seen` is what the caller read of the bell: where the part has
    /// one, the note of the part keeps the count.
    pub fn publish(
        &self,
        note: &mut FilterNote,
        part: u32,
        domain: Domain,
        seen: Seen,
    ) -> Result<Due, FilterPublishFault>
        requires cell { IsNoteOf self.now.parts note.old }
        requires part { part < length self.now.parts }
        requires bell { seen.bell ≡ self.now.bell }
        ensures published { IsPublished self.now.bell (note_at note.old.parts part)
            (note_at note.new.parts part) domain seen.count result }
        ensures cell { IsNoteOf self.now.parts note.new }
        ensures others { note.new
            ≡ record note.old { parts = slice_set note.old.parts part (note_at note.new.parts part) } }
    {
        let part = part as usize;
        match self.parts[part].set(&mut note.parts[part], domain, seen.count()) {
            Ok(()) => Ok(Due::of(self.bell)),
            Err(SetFault::Refused(domain)) => Err(FilterPublishFault::Held(domain)),
            Err(SetFault::Memory(domain)) => Err(FilterPublishFault::Memory(domain)),
        }
    }

    /// Looks for the domain of all parts, part by part up to the first that has none. `seen` is what the caller read
    /// of the bell: where a part has none, the note keeps the count.
    pub fn look(
        &self,
        alloc: Global,
        note: &mut FilterNote,
        seen: Seen,
    ) -> Result<Option<Domain>, Memory>
        requires cell { IsNoteOf self.now.parts note.old }
        requires bell { seen.bell ≡ self.now.bell }
        ensures cell { IsNoteOf self.now.parts note.new }
        ensures looks { note.old.empties ≤ note.new.empties }
        ensures found { IfOk result (λ found. MatchOption found
            (FoundNone note.old note.new seen.count) (FoundAll note.old note.new)) }
    {
        let mut domains = Vec::with_capacity(alloc, self.parts.len())?;
        for part in 0..self.parts.len() {
            match self.look_at(note, part, seen) {
                Some(domain) => domains.push(domain)?,
                None => return Ok(None),
            }
        }
        Ok(Some(union_of(alloc, &domains)?))
    }

    /// Looks for the domain of a part.
    fn look_at<'c>(&'c self, note: &mut FilterNote, part: usize, seen: Seen) -> Option<&'c Domain>
        requires cell { IsNoteOf self.now.parts note.old }
        requires part { part < length self.now.parts }
        ensures cell { IsNoteOf self.now.parts note.new }
        ensures looks { note.old.empties ≤ note.new.empties }
        ensures some { IfSome result (λ r. MayLearn (note_at note.old.parts part) r.now
            × (note.new
            ≡ record note.old { parts = slice_set note.old.parts part (record (note_at note.old.parts part) { known = Some r.now }) })) }
        ensures none { IfNone result (((note_at note.old.parts part).known ≡ None)
            × (note.new
            ≡ record {
              parts =
                  slice_set note.old.parts part
                  (record (note_at note.old.parts part) {
                    empties = next_count (note_at note.old.parts part).empties;
                    looked_at = seen.count;
                  });
              empties = next_count note.old.empties;
              looked_at = seen.count;
            })) }
    {
        let shown = self.parts[part].look(&mut note.parts[part], seen.count());
        if shown.is_none() {
            note.empties = note.empties.saturating_add(1);
            note.looked_at = seen.count();
        }
        shown
    }
}

/// The domain of the values of all.
fn union_of(alloc: Global, domains: &[&Domain]) -> Result<Domain, Memory>
    ensures { IfOk result (IsUnion (map (λ r. r.now) domains.now)) }
{
    let mut all = Domain::Nothing;
    for domain in domains {
        all = all.with_domain(alloc, domain)?;
    }
    Ok(all)
}
