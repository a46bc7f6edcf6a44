use crate::steps::first_wrong;
use operator_core::{Operator, laws};
use operator_examples::{AtEnd, NotNull, Note, NotedLimit, WhileWanted};
use sql_values::Memory;

#[test]
fn one_gives_at_once_and_may_fail(rt: HostRuntime) -> Result<(), Memory> {
    let mut op = NotNull::new(rt.alloc(), 3, 0);
    let lines = "1 2 | taken\n5 | refused\nget | 1,2,\nget | none\n\
        3 null 4 | node 3 failed: a text is no value of the type that it is cast to\n\
        get | 3,\nend | told\nover | no";
    assert!(rt; first_wrong(&rt, rt.alloc(), &mut op, lines)? == 0);
    Ok(())
}

#[test]
fn one_gives_only_when_told(rt: HostRuntime) -> Result<(), Memory> {
    let mut op = AtEnd::new(rt.alloc());
    let lines = "1 | taken\nget | none\n2 3 | taken\nend | told\nget | 1,\nget | 2,3,\nover | yes";
    assert!(rt; first_wrong(&rt, rt.alloc(), &mut op, lines)? == 0);
    Ok(())
}

#[test]
fn one_waits_for_its_note(rt: HostRuntime) -> Result<(), Memory> {
    let mut op = NotedLimit::new(rt.alloc(), Note::new(4, 2, 1));
    let lines = "1 | refused\nlook | bell 4 at 7\nlook | none\n1 | taken\nget | 1,\n2 3 | taken\n\
        get | 2,\n4 | refused";
    assert!(rt; first_wrong(&rt, rt.alloc(), &mut op, lines)? == 0);
    Ok(())
}

#[test]
fn one_passes_rows_while_its_note_knows_nothing(rt: HostRuntime) -> Result<(), Memory> {
    let mut op = WhileWanted::new(rt.alloc(), Note::new(4, 0, 1));
    let lines = "look | none\n1 | taken\nget | 1,\nlook | none\n2 | taken\nget | none";
    assert!(rt; first_wrong(&rt, rt.alloc(), &mut op, lines)? == 0);
    Ok(())
}

#[test]
fn laws_hold_of_a_list_of_stages(rt: HostRuntime) {
    let stages = [AtEnd::new(rt.alloc()), AtEnd::new(rt.alloc())];
    laws::follows(&stages);
    laws::finished(&stages);
    laws::can_go_on(&stages);
    laws::failure(&stages);
    assert!(rt; !stages[0].is_finished() && !stages[1].is_finished());
}
