ghost use Rattle.std.specs.Prelude.{◌≡◌, Some, IfSome};

use set_once::{SetFault, SetNote, SetOnce};
use std::alloc::AllocError;
use std::thread;

/// Whether a cell is empty, takes 5, refuses 6 and shows 5 then, each time as its notes say.
fn does_the_first_value_stay(
    cell: &SetOnce<u8>,
    one: &mut SetNote<u8>,
    two: &mut SetNote<u8>,
) -> bool
    requires { (one.old.cell ≡ cell.now) × (two.old.cell ≡ cell.now) }
    ensures { (one.new.cell ≡ one.old.cell) × (two.new.cell ≡ two.old.cell) }
{
    let was_empty = cell.look(two, 0).is_none();
    let was_noted = !two.knows() & (two.empties() == 1) & (two.refused() == 0);
    let was_taken = cell.set(one, 5, 0).is_ok() & one.knows() & (one.refused() == 0);
    let was_refused = matches!(cell.set(two, 6, 0), Err(SetFault::Refused(6)));
    let was_counted = two.knows() & (two.refused() == 1) & (two.empties() == 1);
    let is_shown = cell.look(two, 0) == Some(&5);
    was_empty & was_noted & was_taken & was_refused & was_counted & is_shown
}

#[test]
fn the_first_value_stays(rt: HostRuntime) {
    let cell = SetOnce::new(rt.alloc());
    let (mut one, mut two) = (cell.note(), cell.note());
    let stays = does_the_first_value_stay(&cell, &mut one, &mut two);
    let mut three = cell.note();
    let is_shown = cell.look(&mut three, 0) == Some(&5);
    three.agree(&mut one);
    assert!(rt; stays & is_shown);
}

/// Whether the cell took this value, and the value that it shows then.
fn offer(cell: &SetOnce<usize>, mine: usize) -> (bool, Option<usize>, SetNote<usize>)
    ensures cell { result.2.cell ≡ cell.now }
    ensures known { IfSome result.1 (λ x. result.2.known ≡ Some x) }
{
    let mut note = cell.note();
    let was_taken = cell.set(&mut note, mine, 0).is_ok();
    let shown = cell.look(&mut note, 0).copied();
    (was_taken, shown, note)
}

/// Whether one offer was taken, and all were shown its value.
fn is_one_taken(all: &[(bool, Option<usize>, SetNote<usize>)]) -> bool {
    let Some((_, first, _)) = all.first() else {
        return false;
    };
    let mut takers = 0u32;
    for (mine, (was_taken, shown, _)) in all.iter().enumerate() {
        takers = takers.saturating_add(u32::from(*was_taken));
        if *shown != *first || *was_taken && *shown != Some(mine) {
            return false;
        }
    }
    takers == 1
}

#[test]
fn of_eight_threads_one_sets_the_value(rt: HostRuntime) -> Result<(), AllocError> {
    for _round in 0..50u32 {
        let cell = SetOnce::new(rt.alloc());
        let shared = &cell;
        let all = thread::map_indices(&rt, rt.alloc(), 8, &|i| offer(shared, i))?;
        assert!(rt; all.len() == 8 && is_one_taken(&all));
    }
    Ok(())
}
