//! Rows past the number from which the words of a sort are put into buckets: they are in order as below it.
ghost use Rattle.std.specs.Prelude.{◌≡◌, [], ◌∷◌, IfOk};
ghost use Rattle.sql_values.specs.declared.types.SqlType.TheVariants as kind;
ghost use Rattle.col_pages.specs.Fits.{IsOfTypes};
ghost use Rattle.col_pages.specs.Pages.{TypedPage};

use crate::page_texts::{drained, take_in};
use col_pages::{Page, PageBuilder};
use operator_core::{OpFault, Operator};
use sql_values::{KeySpec, Memory, Order, SqlType, ValueRef, compare_cells};
use std::alloc::Global;
use topn_sort::sort_op;

/// The key at a place in order: each number twice, some below 0, and NULL for the last tenth.
fn key_at(place: u32) -> ValueRef<'static> {
    if place < 18_000 {
        return ValueRef::Bigint(i64::from(place / 2) - 5_000);
    }
    ValueRef::Null
}

fn put_key(builder: &mut PageBuilder, place: u32) -> Result<(), Memory>
    ensures { builder.new.types ≡ builder.old.types }
{
    let _taken = builder.put(key_at(place))?;
    if !builder.is_full() {
        builder.end_row();
    }
    Ok(())
}

/// Each fourth of the 20000 keys, in a bad order.
fn put_keys(builder: &mut PageBuilder, part: u32) -> Result<(), Memory>
    ensures { builder.new.types ≡ builder.old.types }
{
    for row in 0..5_000u32 {
        let place = row.wrapping_mul(4).wrapping_add(part).wrapping_mul(7_919) % 20_000;
        put_key(builder, place)?;
    }
    Ok(())
}

fn scattered(alloc: Global, part: u32) -> Result<Page, Memory>
    ensures { IfOk result (IsOfTypes (kind.Bigint ∷ [])) }
{
    let mut builder = PageBuilder::new(alloc, &[SqlType::Bigint], 8192)?;
    put_keys(&mut builder, part)?;
    let page = builder.build()?;
    page.rows_fit();
    Ok(page)
}

/// Takes pages of all keys in.
fn take_keys<O: Operator>(alloc: Global, op: &mut O) -> Result<(), OpFault>
    requires { (p : TypedPage) → IsOfTypes (kind.Bigint ∷ []) p → O.Operator.takes op.old p }
{
    for part in 0..4u32 {
        take_in(op, scattered(alloc, part)?)?;
    }
    Ok(())
}

fn sorted_keys(alloc: Global) -> Result<Vec<Page>, OpFault> {
    let key = KeySpec {
        column: 0,
        order: Order::Ascending,
    };
    let mut op = sort_op(
        alloc,
        Vec::from_array(alloc, [key])?,
        Vec::from_array(alloc, [SqlType::Bigint])?,
        1000,
    )?;
    take_keys(alloc, &mut op)?;
    drained(alloc, &mut op)
}

/// How many rows of the pages have the keys of their places.
fn in_place(pages: &[Page]) -> u32 {
    let mut place = 0u32;
    for page in pages {
        for row in 0..page.len() {
            if compare_cells(Order::Ascending, page.cell(row, 0), key_at(place)).is_ne() {
                return place;
            }
            place = place.wrapping_add(1);
        }
    }
    place
}

#[test]
fn many_rows_keep_their_order(rt: HostRuntime) -> Result<(), OpFault> {
    let pages = sorted_keys(rt.alloc())?;
    assert!(rt; in_place(&pages) == 20_000);
    Ok(())
}
