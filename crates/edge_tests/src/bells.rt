ghost use Rattle.std.specs.Prelude.{◌<◌};

use blocked::{Bell, BlockedOn, Board, Due, NotParked};
use futures::Future;
use futures::task::{Doorbell, Solo};
use sql_values::Memory;
use std::io;
use std::sync::Wait;

/// What became of a waiter.
fn park(bell: &mut Bell<u8>, seen: u64, waiter: u8) -> &'static str {
    match bell.park(seen, waiter) {
        Ok(()) => "kept",
        Err(NotParked::Rung(_)) => "rung",
        Err(NotParked::Closed(_)) => "closed",
        Err(NotParked::Memory(_)) => "memory",
    }
}

/// Whether a new bell that rang keeps who saw its count, and a ring hands out this one.
fn keeps_who_saw_its_count(bell: &mut Bell<u8>) -> bool {
    let is_new = bell.seen() == 0;
    let is_silent = bell.ring(Due::of(7)).is_empty();
    let is_late = park(bell, 0, 5) == "rung";
    let is_kept = park(bell, 1, 5) == "kept";
    let mut rung = bell.ring(Due::of(7));
    is_new & is_silent & is_late & is_kept & (rung.len() == 1) & (rung.take_first() == Some(5))
}

#[test]
fn a_bell_keeps_only_who_saw_its_count(rt: HostRuntime) {
    let mut bell = Bell::new(rt.alloc());
    let is_kept = keeps_who_saw_its_count(&mut bell);
    let is_empty = bell.close().is_empty();
    let is_closed = park(&mut bell, 2, 5) == "closed";
    bell.rests();
    assert!(rt; is_kept & is_empty & is_closed);
}

/// Whether a poll is pending.
fn is_pending(solo: &Solo, on: &mut BlockedOn) -> bool {
    let mut cx = solo.begin();
    let is_pending = on.poll(&mut cx).is_pending();
    cx.cancel();
    is_pending
}

#[test]
fn a_future_is_ready_once_it_is_rung(rt: HostRuntime) -> io::Result<()> {
    let solo = Solo::new(&rt, Doorbell::spinning())?;
    let due = Due::of(3);
    let mut on = BlockedOn::new(due.bell(), 9);
    Bell::<u8>::new(rt.alloc()).ring(due);
    let was_pending = is_pending(&solo, &mut on);
    on.wake();
    let is_ready = !is_pending(&solo, &mut on);
    let is_the_same = on.rung & (on.bell == 3) & (on.seen == 9);
    assert!(rt; was_pending & is_ready & is_the_same);
    Ok(())
}

/// Whether a ring of bell 1 shows there alone, and who parks at bell 2 is handed out there alone.
fn each_bell_is_its_own<R: Wait>(rt: &R, board: &Board<u8>) -> bool
    requires { 2 < board.now }
{
    let is_silent = board.ring(rt, Due::of(1)).is_empty();
    let is_counted = board.seen(rt, 1) == 1 && board.seen(rt, 0) == 0 && board.seen(rt, 2) == 0;
    let is_kept = board.park(rt, &BlockedOn::new(2, 0), 5).is_ok();
    let is_nobody = board.ring(rt, Due::of(0)).is_empty();
    let is_handed_out = board.ring(rt, Due::of(2)).take_first() == Some(5);
    is_silent & is_counted & is_kept & is_nobody & is_handed_out
}

/// Whether, of a board whose bell 1 rang once, bell 1 keeps who saw that ring and nobody else, and nobody once it is
/// closed, while bell 0 is open.
fn keeps_who_saw<R: Wait>(rt: &R, board: &Board<u8>) -> bool
    requires { 2 < board.now }
{
    let is_late = matches!(
        board.park(rt, &BlockedOn::new(1, 0), 6),
        Err(NotParked::Rung(6))
    );
    let is_kept = board.park(rt, &BlockedOn::new(1, 1), 7).is_ok();
    let is_handed_out = board.close(rt, 1).take_first() == Some(7);
    let is_shut = matches!(
        board.park(rt, &BlockedOn::new(1, 1), 8),
        Err(NotParked::Closed(8))
    );
    let is_open = board.park(rt, &BlockedOn::new(0, 1), 9).is_ok();
    is_late & is_kept & is_handed_out & is_shut & is_open
}

#[test]
fn a_board_lends_the_bell_of_the_number(rt: HostRuntime) -> Result<(), Memory> {
    let board: Board<u8> = Board::new(rt.alloc(), 3)?;
    let is_its_own = each_bell_is_its_own(&rt, &board);
    assert!(rt; board.len() == 3 && is_its_own && keeps_who_saw(&rt, &board));
    Ok(())
}
