//! The notes of drivers that were taken apart.
ghost use Rattle.std.specs.Prelude.{◌≡◌, ◌++◌, ◌∷◌, [], List, true, OnOk, filter, not};
ghost use Rattle.driver_net_laws.specs.Cells.{AllLearnedFrom, AreOfCells};
ghost use Rattle.driver_net_laws.specs.FilterCells.{AllPartsLearnedFrom, AreOfFilterCells};
ghost use Rattle.net_closing.specs.Closing.{AreNone, IsOneIf, publishes};

use crate::follow::all_follow;
use driver_loop::{CellNote, FilterCellNote};
use sql_values::Memory;
use std::alloc::Global;

/// The notes of drivers that were taken apart.
#[derive(Drop)]
pub(crate) struct Notes {
    /// Of those who look into the cell of a join.
    pub(crate) looks: Vec<CellNote>,
    /// Of those who publish in one.
    pub(crate) builds: Vec<CellNote>,
    /// Of those who look into the cell of a dynamic filter.
    pub(crate) filter_looks: Vec<FilterCellNote>,
    /// Of those who publish in a part of one.
    pub(crate) filter_builds: Vec<FilterCellNote>,
}

/// No note yet.
pub(crate) fn no_notes(alloc: Global) -> Notes
    ensures { AreNone result }
{
    Notes {
        looks: Vec::new(alloc),
        builds: Vec::new(alloc),
        filter_looks: Vec::new(alloc),
        filter_builds: Vec::new(alloc),
    }
}

/// Keeps the notes of a driver; that of a target which builds is the last one.
pub(crate) fn keep_notes(
    looks: &mut Vec<CellNote>,
    builds: &mut Vec<CellNote>,
    mut lookups: Vec<CellNote>,
    is_build: bool,
) -> Result<(), Memory>
    ensures looks { OnOk result ((stages target : List CellNote) → lookups.items ≡ stages ++ target
        → IsOneIf is_build target → looks.new.items ≡ looks.old.items ++ stages) }
    ensures builds { OnOk result ((stages target : List CellNote) → lookups.items ≡ stages ++ target
        → IsOneIf is_build target → builds.new.items ≡ builds.old.items ++ target) }
{
    if !is_build {
        looks.append(&mut lookups)?;
        return Ok(());
    }
    let Some(own) = lookups.pop() else {
        return Ok(());
    };
    builds.push(own)?;
    looks.append(&mut lookups)?;
    Ok(())
}

/// Keeps the notes of the dynamic filters of a driver: those of its target have a part.
pub(crate) fn keep_filters(
    looks: &mut Vec<FilterCellNote>,
    builds: &mut Vec<FilterCellNote>,
    filters: Vec<FilterCellNote>,
) -> Result<(), Memory>
    ensures looks { OnOk result
        (looks.new.items ≡ looks.old.items ++ filter (λ n. not (publishes n)) filters.items) }
    ensures builds { OnOk result
        (builds.new.items ≡ builds.old.items ++ filter publishes filters.items) }
{
    for note in filters {
        keep_filter(looks, builds, note)?;
    }
    Ok(())
}

/// Keeps the note of a filter with those that publish, or with those that look.
fn keep_filter(
    looks: &mut Vec<FilterCellNote>,
    builds: &mut Vec<FilterCellNote>,
    note: FilterCellNote,
) -> Result<(), Memory>
    ensures looks { OnOk result
        (looks.new.items ≡ looks.old.items ++ filter (λ n. not (publishes n)) (note ∷ [])) }
    ensures builds { OnOk result
        (builds.new.items ≡ builds.old.items ++ filter publishes (note ∷ [])) }
{
    if note.part.is_some() {
        builds.push(note)?;
    } else {
        looks.push(note)?;
    }
    Ok(())
}

/// Whether those who publish know all that those who look into the same cells know, of joins and of dynamic filters.
pub(crate) fn are_followed(notes: &mut Notes) -> bool
    requires joins { AreOfCells notes.old.looks.items notes.old.builds.items }
    requires filters { AreOfFilterCells notes.old.filter_looks.items notes.old.filter_builds.items }
    ensures joins { result ≡ true
        → AllLearnedFrom notes.old.looks.items notes.old.builds.items }
    ensures filters { result ≡ true
        → AllPartsLearnedFrom notes.old.filter_looks.items notes.old.filter_builds.items }
{
    all_follow(&mut notes.looks, &mut notes.builds)
        && all_follow(&mut notes.filter_looks, &mut notes.filter_builds)
}
