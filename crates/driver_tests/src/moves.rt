use crate::fixtures::{Nothing, page, stages};
use col_pages::Page;
use operator_core::OpFault;
use operator_examples::NotNull;
use sql_values::Memory;
use stage_moves::{
    Passing, are_finished, drain, feed, give_page, move_page, move_pages, pass, pass_end,
    take_page, takes_input,
};
use std::alloc::Global;

/// How many rows a call gave, or the node that failed.
fn told(given: Result<Option<Page>, OpFault>) -> Option<u32> {
    match given {
        Ok(Some(page)) => Some(page.len()),
        Err(OpFault::Expr { node, .. }) => Some(node),
        _ => None,
    }
}

/// Feeds a page where the first stage takes one.
fn put(stages: &mut Vec<NotNull>, page: Page) -> Option<u32> {
    if !takes_input(stages, true) {
        return Some(0);
    }
    told(feed(stages, page))
}

/// Feeds a page of these numbers.
fn feeds(alloc: Global, stages: &mut Vec<NotNull>, numbers: &[i64]) -> Result<Option<u32>, Memory> {
    let page = page(alloc, numbers)?;
    Ok(put(stages, page))
}

/// Whether there are two stages, and so many rows move from the first to the second.
fn moves(stages: &mut Vec<NotNull>, rows: u32) -> bool {
    if stages.len() != 2 {
        return false;
    }
    let moved = move_page(stages, 0);
    moved.outcome.is_ok() && moved.rows == rows
}

/// Whether a page of two rows goes from stage to stage while a second one is refused.
fn does_a_page_go_through(alloc: Global, stages: &mut Vec<NotNull>) -> Result<bool, Memory> {
    let was_taken = feeds(alloc, stages, &[1, 2])? == None;
    let was_refused = feeds(alloc, stages, &[3])? == Some(0);
    let was_within = told(drain(stages)) == None;
    let was_moved = moves(stages, 2);
    let was_given = told(drain(stages)) == Some(2);
    let is_through = told(drain(stages)) == None;
    Ok(was_taken & was_refused & was_within & was_moved & was_given & is_through)
}

#[test]
fn a_page_goes_through_the_stages(rt: HostRuntime) -> Result<(), Memory> {
    let mut stages = stages(rt.alloc())?;
    assert!(rt; does_a_page_go_through(rt.alloc(), &mut stages)?);
    Ok(())
}

/// Tells the stage at a place that no page comes any more.
fn end(stages: &mut Vec<NotNull>, place: usize) {
    if place < stages.len() {
        pass_end(stages, place, true);
    }
}

#[test]
fn the_end_passes_from_stage_to_stage(rt: HostRuntime) -> Result<(), Memory> {
    let mut stages = stages(rt.alloc())?;
    let are_two = stages.len() == 2;
    end(&mut stages, 1);
    let was_open = !are_finished(&stages, true);
    end(&mut stages, 0);
    end(&mut stages, 1);
    assert!(rt; are_two & was_open & are_finished(&stages, true));
    Ok(())
}

#[test]
fn the_rows_before_a_failure_go_on(rt: HostRuntime) -> Result<(), Memory> {
    let mut stages = stages(rt.alloc())?;
    let failed = feeds(rt.alloc(), &mut stages, &[1, 0, 2])? == Some(5);
    assert!(rt; failed & moves(&mut stages, 1));
    Ok(())
}

#[test]
fn without_stages_a_page_goes_past(rt: HostRuntime) -> Result<(), Memory> {
    let mut stages: Vec<NotNull> = Vec::new(rt.alloc());
    let went = feeds(rt.alloc(), &mut stages, &[1])? == Some(1);
    assert!(rt; went & are_finished(&stages, true));
    Ok(())
}

/// How many rows a pass moved, and how many of these go to the target.
fn moved(passing: Passing) -> Option<(u64, u32)> {
    let Passing {
        rows,
        outcome: Ok(out),
    } = passing
    else {
        return None;
    };
    Some((rows, out.map_or(0, |page| page.len())))
}

/// Whether the moves of a pass give what they should, one after the other and all at once. A target that wants no page
/// is given none.
fn is_a_pass_its_moves(alloc: Global, stages: &mut Vec<NotNull>) -> Result<bool, Memory> {
    let mut source = Nothing { is_ended: false };
    let was_empty = moved(take_page(&mut source, stages, true)) == Some((0, 0));
    let was_taken = feeds(alloc, stages, &[1, 2])? == None;
    let was_moved = moved(move_pages(stages, false, 8)) == Some((2, 0));
    let was_kept = moved(give_page(stages, false)) == Some((0, 0));
    let was_given = moved(give_page(stages, true)) == Some((2, 2));
    let was_passed = moved(pass(&mut source, stages, true, 8)) == Some((0, 0));
    let are_over = are_finished(stages, true);
    Ok(was_empty & was_taken & was_moved & was_kept & was_given & was_passed & are_over)
}

#[test]
fn a_pass_is_made_of_its_moves(rt: HostRuntime) -> Result<(), Memory> {
    let mut stages = stages(rt.alloc())?;
    assert!(rt; is_a_pass_its_moves(rt.alloc(), &mut stages)?);
    Ok(())
}
