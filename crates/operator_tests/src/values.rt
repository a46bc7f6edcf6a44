//! Rows of the plan, of a text and a day.
ghost use Rattle.std.specs.Prelude.{◌≡◌, [], ◌∷◌, IfOk, IsOk, IsTrue};
ghost use Rattle.sql_values.specs.declared.types.SqlType.TheVariants as kind;
ghost use Rattle.sql_values.specs.ColumnRows.{fits_row};
ghost use Rattle.col_pages.specs.Fits.{AllFit};

use col_pages::Page;
use operator_core::Operator;
use row_ops::ValuesOp;
use sql_values::{Memory, Row, RowList, SqlType, Text, Value, ValueRef};
use std::alloc::Global;

/// The types of a text and a day.
fn text_and_day(alloc: Global) -> Result<Vec<SqlType>, Memory>
    ensures { IfOk result (λ types. types.items ≡ kind.Varchar ∷ kind.Date ∷ []) }
{
    let mut types = Vec::new(alloc);
    types.push(SqlType::Varchar)?;
    types.push(SqlType::Date)?;
    Ok(types)
}

fn text_row(alloc: Global, text: &str, day: i32) -> Result<Row, Memory>
    ensures { IfOk result (λ r. IsTrue (fits_row (kind.Varchar ∷ kind.Date ∷ []) r)) }
{
    let mut values = Vec::new(alloc);
    values.push(Value::Varchar(Text::copy_of(alloc, text)?))?;
    values.push(Value::Date(day))?;
    Ok(Row::of(values))
}

fn null_row(alloc: Global) -> Result<Row, Memory>
    ensures { IfOk result (λ r. IsTrue (fits_row (kind.Varchar ∷ kind.Date ∷ []) r)) }
{
    let mut values = Vec::new(alloc);
    values.push(Value::Null)?;
    values.push(Value::Null)?;
    Ok(Row::of(values))
}

/// Puts a row behind the others: of a text and a day, or of NULL where there is none.
#[tactic(auto, using(crate::proofs::PageLemmas::row_more))]
fn push(alloc: Global, rows: &mut RowList, cells: Option<(&str, i32)>) -> Result<(), Memory>
    requires { AllFit (kind.Varchar ∷ kind.Date ∷ []) rows.old }
    ensures { IsOk result → AllFit (kind.Varchar ∷ kind.Date ∷ []) rows.new }
{
    let row = match cells {
        Some((text, day)) => text_row(alloc, text, day)?,
        None => null_row(alloc)?,
    };
    rows.push(row)?;
    Ok(())
}

fn three_rows(alloc: Global) -> Result<RowList, Memory>
    ensures { IfOk result (λ rows. AllFit (kind.Varchar ∷ kind.Date ∷ []) rows) }
{
    let mut rows = RowList::new(alloc);
    push(alloc, &mut rows, Some(("apple", 0)))?;
    push(alloc, &mut rows, None)?;
    push(alloc, &mut rows, Some(("", -1)))?;
    Ok(rows)
}

fn rows_as_text(alloc: Global, page: &Page) -> Result<String, Memory> {
    let mut text = String::new(alloc);
    for place in 0..page.len() {
        match (page.cell(place, 0), page.cell(place, 1)) {
            (ValueRef::Varchar(word), ValueRef::Date(day)) => write!(text, "{word}:{day} ")?,
            (ValueRef::Null, ValueRef::Null) => text.push_str("null ")?,
            _ => text.push_str("other ")?,
        }
    }
    Ok(text)
}

/// Whether a call of `get_output` gives these rows; none where there are none.
fn gives(alloc: Global, op: &mut ValuesOp, want: &str) -> Result<bool, Memory> {
    if let Ok(Some(page)) = op.get_output() {
        return Ok(rows_as_text(alloc, &page)?.as_str() == want);
    }
    Ok(want.is_empty())
}

/// Whether three rows come in pages of two, and it is finished only once it was told to finish and gave them.
fn give_three(alloc: Global, op: &mut ValuesOp) -> Result<bool, Memory> {
    let was_silent = !op.needs_input();
    let first = gives(alloc, op, "apple:0 null ")?;
    op.finish();
    let was_open = !op.is_finished();
    let second = gives(alloc, op, ":-1 ")?;
    let is_over = op.is_finished();
    let none = gives(alloc, op, "")?;
    Ok(was_silent & first & was_open & second & is_over & none)
}

#[test]
fn values_are_given_page_by_page(rt: HostRuntime) -> Result<(), Memory> {
    let alloc = rt.alloc();
    let rows = three_rows(alloc)?;
    let mut op = ValuesOp::new(alloc, rows, text_and_day(alloc)?, 2);
    assert!(rt; give_three(alloc, &mut op)?);
    Ok(())
}
