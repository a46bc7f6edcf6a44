ghost use Rattle.std.specs.Prelude.{false, ◌≡◌, ◌^◌, ◌<◌, ◌≤◌, [], ◌∷◌, All, IfOk, OnErr, length};
ghost use Rattle.sql_values.specs.declared.types.SqlType.TheVariants.{Bigint};
ghost use Rattle.split_source.specs.Scans.{AreReadable};
ghost use Rattle.split_source.specs.Seats.{AreAll};
ghost use Rattle.split_source.specs.Splits.{split_count};

use col_pages::{Form, Page};
use split_source::{
    ClaimSeat, Claims, ScanSource, settle_claims, split_count, split_range, stop_claims,
};
use sql_values::{Memory, Table, ValueRef};
use std::alloc::Global;
use std::test::Fail;
use std::thread;
use test_fixtures::{number_table, seven_table};

/// The count, where each seat met the end.
fn settle_if_ended(seats: Vec<ClaimSeat<'_>>) -> Option<u32>
    requires { AreAll seats.items }
{
    if seats.iter().all(|seat| seat.is_ended()) {
        return Some(settle_claims(seats));
    }
    stop_claims(seats);
    None
}

/// Whether two seats in turn draw 0, 1, 2 and then no more.
fn draw_three_in_turn(seats: &mut [ClaimSeat<'_>]) -> bool
    requires { length seats.old ≡ 2 }
{
    let first = seats[0].claim() == Some(0);
    let second = seats[1].claim() == Some(1);
    let third = seats[0].claim() == Some(2);
    let ended = seats[1].claim().is_none() & seats[0].claim().is_none();
    let stays = seats[1].claim().is_none() & seats[0].claim().is_none();
    first & second & third & ended & stays
}

#[test]
fn two_seats_in_turn_draw_each_number_once(rt: HostRuntime) -> Result<(), Fail> {
    let mut claims = Claims::new(rt.alloc(), 3, 2)?;
    let mut seats = claims.seats()?;
    assert!(rt; draw_three_in_turn(&mut seats));
    Ok(())
}

/// How many seats are handed out. The contract says that a later call can have them where memory is wanting.
fn hand_out(claims: &mut Claims) -> Result<usize, Memory>
    requires fresh { claims.old.is_handed_out ≡ false }
    ensures err { OnErr result (claims.new ≡ claims.old) }
{
    let seats = claims.ready()?.seats();
    Ok(seats.len())
}

#[test]
fn ready_claims_hand_out_their_seats(rt: HostRuntime) -> Result<(), Fail> {
    let mut claims = Claims::new(rt.alloc(), 3, 2)?;
    assert!(rt; hand_out(&mut claims)? == 2);
    Ok(())
}

#[derive(Drop)]
struct Share {
    number: u32,
    total: u64,
}

/// All that one seat draws.
fn draw_from(seat: &mut ClaimSeat<'_>) -> Share {
    let mut number: u32 = 0;
    let mut total: u64 = 0;
    for _ in 0..20_000 {
        let Some(next) = seat.claim() else {
            return Share { number, total };
        };
        number = number.saturating_add(1);
        total = total.saturating_add(next as u64);
    }
    Share { number, total }
}

fn draw_all(mut seat: ClaimSeat<'_>) -> Share {
    draw_from(&mut seat)
}

/// Whether the shares are so many numbers, of this sum.
fn are_together(shares: &[Share], numbers: u32, sum: u64) -> bool {
    let mut number: u32 = 0;
    let mut total: u64 = 0;
    for share in shares {
        number = number.saturating_add(share.number);
        total = total.saturating_add(share.total);
    }
    number == numbers && total == sum
}

#[test]
fn eight_threads_draw_ten_thousand_numbers(rt: HostRuntime) -> Result<(), Fail> {
    let mut claims = Claims::new(rt.alloc(), 10_000, 8)?;
    let seats = claims.seats()?;
    let shares = thread::map_vec(&rt, seats, &|seat| draw_all(seat))?;
    assert!(rt; are_together(&shares, 10_000, 49_995_000));
    Ok(())
}

#[test]
fn ten_rows_are_cut_into_splits_of_four(rt: HostRuntime) {
    let first = split_range(10, 4, 0) == (0, 4);
    let second = split_range(10, 4, 1) == (4, 8);
    let third = split_range(10, 4, 2) == (8, 10);
    let are_three = split_count(10, 4) == 3;
    assert!(rt; first & second & third & are_three & (split_count(0, 4) == 0));
}

/// Whether the page's numbers go on from this one.
fn go_on(page: &Page, number: u32) -> bool {
    for row in 0..page.len() {
        let want = i64::from(number) + i64::from(row);
        let is_next = matches!(page.cell(row, 0), ValueRef::Bigint(found) if found == want);
        if !is_next {
            return false;
        }
    }
    true
}

/// How many numbers a scan gives, where they come in order.
fn count_in_order(scan: &mut ScanSource<'_>) -> Result<u32, Memory> {
    let mut number: u32 = 0;
    for _ in 0..100 {
        let Some(page) = scan.next()? else {
            return Ok(number);
        };
        if !go_on(&page, number) {
            return Ok(99);
        }
        number = number.saturating_add(page.len());
    }
    Ok(98)
}

fn first_column(alloc: Global) -> Result<Vec<u32>, Memory>
    ensures { IfOk result (λ columns. columns.items ≡ 0 ∷ []) }
{
    let mut columns = Vec::new(alloc);
    columns.push(0)?;
    Ok(columns)
}

/// Scans a table by one seat.
fn scan_alone(alloc: Global, table: &Table, size: u32, page: u32) -> Result<u32, Memory>
    requires size { 0 < size }
    requires page { (0 < page) × (page ≤ 8192) }
    requires few { length table.now.rows < 2 ^ 32 }
    requires columns { length table.now.columns ≡ 1 }
    requires fits { AreReadable table.now.columns (0 ∷ []) table.now.rows }
{
    let columns = first_column(alloc)?;
    let count = split_count(table.rows.len() as u32, size);
    let mut claims = Claims::new(alloc, count, 1)?;
    let mut seats = claims.seats()?;
    let Some(seat) = seats.pop() else {
        return Ok(97);
    };
    let mut scan = ScanSource::new(alloc, table, columns, size, page, seat);
    count_in_order(&mut scan)
}

#[test]
fn a_scan_gives_each_row_once(rt: HostRuntime) -> Result<(), Memory> {
    let table = number_table(rt.alloc(), 10)?;
    for size in 1..13 {
        for page in 1..13 {
            assert!(rt; scan_alone(rt.alloc(), &table, size, page)? == 10);
        }
    }
    Ok(())
}

/// How the first page of a scan by one seat keeps its column.
fn first_form(alloc: Global, table: &Table) -> Result<Option<Form>, Memory>
    requires few { length table.now.rows < 2 ^ 32 }
    requires columns { length table.now.columns ≡ 1 }
    requires fits { AreReadable table.now.columns (0 ∷ []) table.now.rows }
{
    let columns = first_column(alloc)?;
    let mut claims = Claims::new(alloc, split_count(table.rows.len() as u32, 8), 1)?;
    let mut seats = claims.seats()?;
    let Some(seat) = seats.pop() else {
        return Ok(None);
    };
    let mut scan = ScanSource::new(alloc, table, columns, 8, 8, seat);
    match scan.next()? {
        Some(page) => Ok(page.block(0).map(|block| block.form())),
        None => Ok(None),
    }
}

#[test]
fn a_column_of_one_value_is_scanned_as_a_run(rt: HostRuntime) -> Result<(), Memory> {
    let alloc = rt.alloc();
    assert!(rt; first_form(alloc, &seven_table(alloc, 5)?)? == Some(Form::Run));
    assert!(rt; first_form(alloc, &number_table(alloc, 5)?)? == Some(Form::Plain));
    Ok(())
}

/// Settles the claims of a seat that is alone, after four claims.
#[tactic(auto, using(split_source::proofs::SeatLemmas::alone))]
fn settle_one(alloc: Global, mut seat: ClaimSeat<'_>) -> Result<Option<u32>, Memory>
    requires { seat.claims.of.seats ≡ 1 }
{
    for _ in 0..4 {
        seat.claim();
    }
    let mut seats = Vec::new(alloc);
    seats.push(seat)?;
    Ok(settle_if_ended(seats))
}

/// Settles claims of one seat.
#[tactic(auto, using(split_source::proofs::SeatLemmas::last_seats))]
fn settle_first(alloc: Global, claims: &mut Claims) -> Result<Option<u32>, Memory>
    requires seats { claims.old.id.of.seats ≡ 1 }
    requires fresh { claims.old.is_handed_out ≡ false }
{
    let mut seats = claims.seats()?;
    let Some(seat) = seats.pop() else {
        return Ok(None);
    };
    settle_one(alloc, seat)
}

/// What claims of so many numbers settle to, of one seat that claims four times.
fn settle(alloc: Global, count: u32) -> Result<Option<u32>, Memory> {
    let mut claims = Claims::new(alloc, count, 1)?;
    settle_first(alloc, &mut claims)
}

#[test]
fn a_seat_alone_settles_its_claims(rt: HostRuntime) -> Result<(), Memory> {
    let three = settle(rt.alloc(), 3)?;
    let nine = settle(rt.alloc(), 9)?;
    assert!(rt; three == Some(3) && nine.is_none());
    Ok(())
}
