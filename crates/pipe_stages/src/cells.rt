//! The cells in which pipes publish.
ghost use Rattle.std.specs.Prelude.{◌≡◌, ◌++◌, ◌∷◌, [], OnOk, MatchOption, None, Some};
ghost use Rattle.pipe_stages.specs.Cells.{cell_at};

use dyn_filter::FilterCell;
use hash_join::LookupCell;
use sql_values::Memory;
use std::alloc::Global;
use std::marker::Model;

/// Cells by the place of the pipe that publishes in them, and then by a place of their own.
#[derive(Drop)]
pub struct CellTable<'w, C> {
    pipes: Vec<&'w [C]>,
}

/// The cells of joins, those of a pipe by tasks.
pub type JoinCells<'w> = CellTable<'w, LookupCell>;

/// The cells of dynamic filters, those of a pipe by the places of the filters in its join.
pub type FilterCells<'w> = CellTable<'w, FilterCell>;

impl<'w, C> Model for CellTable<'w, C> {
    ghost use Rattle.std.specs.Prelude.{List, map};

    ghost Value = { List (List C) };

    ghost view = { λ cells. map (λ own. own.now) cells.pipes.items };
}

impl<'w, C> CellTable<'w, C> {
    /// None yet.
    pub fn new(alloc: Global) -> CellTable<'w, C>
        ensures { result ≡ [] }
    {
        CellTable {
            pipes: Vec::new(alloc),
        }
    }

    /// Appends those of the next pipe.
    pub fn push(&mut self, cells: &'w [C]) -> Result<(), Memory>
        ensures { OnOk result (self.new ≡ self.old ++ cells.now ∷ []) }
    {
        self.pipes.push(cells)?;
        Ok(())
    }

    /// That of the pipe at a place, at a place of its own.
    pub fn get(&self, at: usize, place: usize) -> Option<&'w C>
        ensures { MatchOption result (cell_at self.now at place ≡ None)
            (λ cell. cell_at self.now at place ≡ Some cell.now) }
    {
        match self.pipes.get(at) {
            Some(cells) => cells.get(place),
            None => None,
        }
    }
}
