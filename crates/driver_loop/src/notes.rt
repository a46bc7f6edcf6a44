//! The notes and counts that a driver hands over at its end.
ghost use Rattle.std.specs.Prelude.{◌≡◌, ◌+◌, ◌<◌, ◌≤◌, ◌++◌, ◌∷◌, [], All, IfOk, length, flat_map, map};
ghost use Rattle.std.specs.Vec.{vec_capacity};
ghost use Rattle.dyn_filter.specs.Filters.{IsFiltering};
ghost use Rattle.driver_loop.specs.Turns.{AreEmpty, HaveRoomFor, HaveSameRoom, KnowsParts, filter_note_of_stage, look_note, note_of_build_filter, note_of_stage, passed_of_stage};

use crate::build_filter::BuildFilter;
use crate::pieces::{CellNote, FilterCellNote};
use crate::stage::Stage;
use dyn_filter::FilterOp;
use hash_join::ProbeOp;
use sql_values::Memory;
use std::alloc::Global;

/// The lists of notes and counts that a driver hands over. They have their memory from the start.
#[derive(Drop)]
pub(crate) struct NoteLists {
    pub lookups: Vec<CellNote>,
    pub filters: Vec<FilterCellNote>,
    pub passed: Vec<u64>,
}

/// Empty lists, with room for what the stages and the filters of a target have, and for one note of the target.
pub(crate) fn room_for_notes(
    alloc: Global,
    stages: &[Stage<'_>],
    filters: &[BuildFilter<'_>],
) -> Result<NoteLists, Memory>
    ensures empty { IfOk result AreEmpty }
    ensures room { IfOk result (HaveRoomFor (length stages.now) (length filters.now)) }
{
    let lookups = Vec::with_capacity(alloc, stages.len() + 1)?;
    let filters = Vec::with_capacity(alloc, stages.len() + filters.len())?;
    let passed = Vec::with_capacity(alloc, stages.len())?;
    Ok(NoteLists {
        lookups,
        filters,
        passed,
    })
}

/// Puts an item behind the others, where there is room.
pub(crate) fn put_within<T: Drop>(list: &mut Vec<T>, item: T)
    ensures items { length list.old.items < vec_capacity list.old
        → list.new.items ≡ list.old.items ++ item ∷ [] }
    ensures room { vec_capacity list.new ≡ vec_capacity list.old }
{
    if list.len() < list.capacity() {
        list.push_reserved(item);
    }
}

fn note_of_probe(op: ProbeOp<'_>) -> CellNote
    ensures { result ≡ record { bell = op.entry.bell; note = op.entry.note } }
{
    let bell = op.bell();
    CellNote {
        bell,
        note: op.into_note(),
    }
}

fn note_of_filter(op: FilterOp<'_>) -> FilterCellNote
    ensures note { result ≡ look_note op.entry }
    ensures knows { IsFiltering op.entry.parts op.entry.note op.entry.known }
{
    op.knows_all();
    let bell = op.bell();
    FilterCellNote {
        bell,
        part: None,
        note: op.into_note(),
    }
}

/// Puts what a stage hands over behind the others, where there is room.
fn put_notes_of(lists: &mut NoteLists, stage: Stage<'_>)
    ensures lookups { length lists.old.lookups.items < vec_capacity lists.old.lookups
        → lists.new.lookups.items ≡ lists.old.lookups.items ++ note_of_stage stage.entry }
    ensures filters { length lists.old.filters.items < vec_capacity lists.old.filters
        → lists.new.filters.items ≡ lists.old.filters.items ++ filter_note_of_stage stage.entry }
    ensures passed { length lists.old.passed.items < vec_capacity lists.old.passed
        → lists.new.passed.items ≡ lists.old.passed.items ++ passed_of_stage stage.entry }
    ensures knows { KnowsParts stage.entry }
    ensures room { HaveSameRoom lists.old lists.new }
{
    match stage {
        Stage::Probe(op, _types) => put_within(&mut lists.lookups, note_of_probe(op)),
        Stage::Dynamic(op, _types) => {
            put_within(&mut lists.passed, op.passed());
            put_within(&mut lists.filters, note_of_filter(op));
        }
        other @ (Stage::Filter(_)
        | Stage::Limit(_, _)
        | Stage::Sort(_)
        | Stage::TopN(_)
        | Stage::Single(_)
        | Stage::Partial(_)
        | Stage::Final(_)) => drop(other),
    }
}

/// Puts what the stages hand over behind the others, where there is room for one of each stage.
pub(crate) fn put_notes(lists: &mut NoteLists, stages: Vec<Stage<'_>>)
    ensures lookups { length lists.old.lookups.items + length stages.entry.items < vec_capacity lists.old.lookups
        → lists.new.lookups.items ≡ lists.old.lookups.items ++ flat_map note_of_stage stages.entry.items }
    ensures filters { length lists.old.filters.items + length stages.entry.items ≤ vec_capacity lists.old.filters
        → lists.new.filters.items ≡ lists.old.filters.items ++ flat_map filter_note_of_stage stages.entry.items }
    ensures passed { length lists.old.passed.items + length stages.entry.items ≤ vec_capacity lists.old.passed
        → lists.new.passed.items ≡ lists.old.passed.items ++ flat_map passed_of_stage stages.entry.items }
    ensures knows { All KnowsParts stages.entry.items }
    ensures few { length lists.old.lookups.items + length stages.entry.items < vec_capacity lists.old.lookups
        → length lists.new.lookups.items < vec_capacity lists.new.lookups }
    ensures room { HaveSameRoom lists.old lists.new }
{
    for stage in stages {
        put_notes_of(lists, stage);
    }
}

/// Puts the notes of filters behind the others, where there is room for all.
pub(crate) fn put_filter_notes(list: &mut Vec<FilterCellNote>, filters: Vec<BuildFilter<'_>>)
    ensures { length list.old.items + length filters.entry.items ≤ vec_capacity list.old
        → list.new.items ≡ list.old.items ++ map note_of_build_filter filters.entry.items }
{
    for filter in filters {
        put_within(list, filter.into_note());
    }
}
