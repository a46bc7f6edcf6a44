//! Each driver is one of a pipe.
ghost use Rattle.std.specs.Prelude.{◌≡◌, ◌<◌, ℕ, List, OnOk, Some, length, map, slice_get};
ghost use Rattle.plan_layout.specs.Pipes.{PipeForm, pipe_view};
ghost use Rattle.net_closing.specs.Covered.{AreMarked, IsCovered};

use plan_layout::Pipe;
use sql_values::Memory;
use std::alloc::Global;

/// Tells that the numbers below the count are those of drivers of pipes.
pub(crate) fn cover_all(alloc: Global, layout: &[Pipe<'_>], count: usize) -> Result<(), Memory>
    ensures { OnOk result ((number : ℕ) → number < count
        → IsCovered (map pipe_view layout.now) number) }
{
    let mut marks = Vec::from_elem(alloc, false, count)?;
    mark_all(layout, &mut marks)?;
    if !marks.iter().all(|mark| *mark) {
        return Err(Memory);
    }
    Ok(())
}

/// Marks the numbers of the drivers of all pipes.
fn mark_all(layout: &[Pipe<'_>], marks: &mut Vec<bool>) -> Result<(), Memory>
    ensures marks { OnOk result (AreMarked (map pipe_view layout.now) marks.old.items
        → AreMarked (map pipe_view layout.now) marks.new.items) }
    ensures count { OnOk result (length marks.new.items ≡ length marks.old.items) }
{
    for pipe in layout {
        mark_tasks(pipe, marks)?;
    }
    Ok(())
}

/// Marks those of one pipe.
fn mark_tasks(pipe: &Pipe<'_>, marks: &mut Vec<bool>) -> Result<(), Memory>
    ensures marks { OnOk result ((layout : List PipeForm) (at : ℕ)
        → slice_get layout at ≡ Some (pipe_view pipe.now)
        → AreMarked layout marks.old.items → AreMarked layout marks.new.items) }
    ensures count { OnOk result (length marks.new.items ≡ length marks.old.items) }
{
    for task in 0..pipe.tasks {
        mark_lanes(pipe, task, marks)?;
    }
    Ok(())
}

/// Marks those of one task.
fn mark_lanes(pipe: &Pipe<'_>, task: u32, marks: &mut Vec<bool>) -> Result<(), Memory>
    ensures marks { OnOk result ((layout : List PipeForm) (at : ℕ)
        → slice_get layout at ≡ Some (pipe_view pipe.now) → task < pipe.now.tasks
        → AreMarked layout marks.old.items → AreMarked layout marks.new.items) }
    ensures count { OnOk result (length marks.new.items ≡ length marks.old.items) }
{
    for lane in 0..pipe.drivers {
        let number = pipe.number(task, lane)?;
        mark(marks, number)?;
    }
    Ok(())
}

/// Marks a number.
fn mark(marks: &mut Vec<bool>, number: u32) -> Result<(), Memory>
    ensures marks { OnOk result ((layout : List PipeForm) → IsCovered layout number
        → AreMarked layout marks.old.items → AreMarked layout marks.new.items) }
    ensures count { OnOk result (length marks.new.items ≡ length marks.old.items) }
{
    let number = number as usize;
    if number >= marks.len() {
        return Err(Memory);
    }
    marks[number] = true;
    Ok(())
}
