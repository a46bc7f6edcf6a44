//! Pages of one row and one column, which hold a number each.
ghost use Rattle.std.specs.Prelude.{◌<◌, length};

use col_pages::{Page, PageBuilder, PageList};
use sql_values::{Memory, SqlType, ValueRef};
use std::alloc::Global;

/// A page of this number.
pub(crate) fn numbered(alloc: Global, number: u32) -> Result<Page, Memory> {
    let mut builder = PageBuilder::new(alloc, &[SqlType::Bigint], 1)?;
    fill(&mut builder, number)
}

fn fill(builder: &mut PageBuilder, number: u32) -> Result<Page, Memory>
    requires { length builder.old.rows < builder.old.room }
{
    builder.put(ValueRef::Bigint(i64::from(number)))?;
    builder.end_row();
    builder.build()
}

/// Whether the page has this number.
fn has_number(page: &Page, number: u32) -> bool {
    page.len() == 1 && matches!(page.cell(0, 0), ValueRef::Bigint(n) if n == i64::from(number))
}

/// The number behind those of the pages, where these are in a row from this one on.
pub(crate) fn number_behind(mut pages: PageList, first: u32) -> Option<u32> {
    let mut number = first;
    while let Some(page) = pages.take_first() {
        if !has_number(&page, number) {
            return None;
        }
        number = number.saturating_add(1);
    }
    Some(number)
}
