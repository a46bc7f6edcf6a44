//! Calls of an operator over one column of whole numbers, and what each must answer, `call | answer` on each line.
ghost use Rattle.std.specs.Prelude.{◌≡◌, [], ◌∷◌, IfOk, IsOk, IsTrue};
ghost use Rattle.sql_values.specs.declared.types.SqlType.TheVariants as kind;
ghost use Rattle.sql_values.specs.ColumnRows.{fits_row};
ghost use Rattle.col_pages.specs.Pages.{TypedPage};
ghost use Rattle.col_pages.specs.Fits.{AllFit, IsOfTypes};

use blocked::{Bell, Bells, Due};
use col_pages::{Page, PageBuilder};
use operator_core::stage::{give_out, look, take_in, tell};
use operator_core::{OpFault, Operator};
use sql_values::{Fail, Memory, Row, SqlType, Value, ValueRef};
use std::alloc::Global;
use std::sync::Wait;
use std::thread::Threads;

/// Bells that always show 7.
#[derive(Drop)]
struct Still {
    alloc: Global,
}

impl Bells for Still {
    ghost shown = { λ _ _ _. Unit {0} };

    ghost rang = { λ _ _ _. Unit {0} };

    fn seen<R: Threads + Wait + Sync>(&mut self, _rt: &R, _bell: u32) -> u64 {
        7
    }

    fn ring<R: Threads + Wait + Sync>(&mut self, _rt: &R, due: Due) -> Result<(), Memory> {
        Bell::<u8>::new(self.alloc).ring(due);
        Ok(())
    }
}

/// A row of the number that a word names. No other word is a number.
fn row_of(alloc: Global, word: &str) -> Result<Row, Memory>
    ensures { IfOk result (λ r. IsTrue (fits_row (kind.Bigint ∷ []) r)) }
{
    let mut values = Vec::new(alloc);
    match word.parse::<i64>() {
        Ok(number) => values.push(Value::Bigint(number))?,
        Err(_) => values.push(Value::Null)?,
    }
    Ok(Row::of(values))
}

/// Puts a row behind the others, where there is room.
#[tactic(auto, using(crate::proofs::PageLemmas::fits_types, crate::proofs::PageLemmas::row_more))]
fn push_word(alloc: Global, builder: &mut PageBuilder, word: &str) -> Result<(), Memory>
    requires types { builder.old.types ≡ kind.Bigint ∷ [] }
    requires fit { AllFit (kind.Bigint ∷ []) builder.old.rows }
    ensures types { builder.new.types ≡ kind.Bigint ∷ [] }
    ensures fit { AllFit (kind.Bigint ∷ []) builder.new.rows }
{
    if builder.is_full() {
        return Ok(());
    }
    let row = row_of(alloc, word)?;
    builder.push_row(&row)
}

/// A page of the first eight of these numbers.
fn page_of(alloc: Global, words: &str) -> Result<Page, Memory>
    ensures { IfOk result (λ p. IsOfTypes (kind.Bigint ∷ []) p) }
{
    let mut builder = PageBuilder::new(alloc, &[SqlType::Bigint], 8)?;
    for word in words.split(' ') {
        push_word(alloc, &mut builder, word)?;
    }
    builder.build()
}

fn rows(alloc: Global, page: &Page) -> Result<String, Memory> {
    let mut text = String::new(alloc);
    for place in 0..page.len() {
        match page.cell(place, 0) {
            ValueRef::Bigint(number) => write!(text, "{number},")?,
            _ => text.push_str("other,")?,
        }
    }
    Ok(text)
}

fn fault_of(alloc: Global, node: u32, kind: Fail) -> Result<String, Memory> {
    let fault = OpFault::Expr { node, kind };
    Ok(format!(in alloc; "{fault}")?)
}

fn text_of(alloc: Global, text: &str) -> Result<String, Memory> {
    Ok(String::from_str(alloc, text)?)
}

/// What becomes of a page of these numbers.
fn put<O: Operator>(alloc: Global, op: &mut O, words: &str) -> Result<String, Memory>
    requires { (page : TypedPage) → IsOfTypes (kind.Bigint ∷ []) page → O.takes op.old page }
    ensures { IsOk result → (page : TypedPage) → IsOfTypes (kind.Bigint ∷ []) page → O.takes op.new page }
{
    let page = page_of(alloc, words)?;
    if !op.needs_input() {
        return text_of(alloc, "refused");
    }
    match take_in(op, page) {
        Ok(()) => text_of(alloc, "taken"),
        Err(OpFault::Memory) => Err(Memory),
        Err(OpFault::Expr { node, kind }) => fault_of(alloc, node, kind),
    }
}

/// What a call of `get_output` answers.
fn given<O: Operator>(alloc: Global, op: &mut O) -> Result<String, Memory>
    requires { (page : TypedPage) → IsOfTypes (kind.Bigint ∷ []) page → O.takes op.old page }
    ensures { IsOk result → (page : TypedPage) → IsOfTypes (kind.Bigint ∷ []) page → O.takes op.new page }
{
    match give_out(op) {
        Ok(Some(page)) => rows(alloc, &page),
        Ok(None) => text_of(alloc, "none"),
        Err(OpFault::Memory) => Err(Memory),
        Err(OpFault::Expr { node, kind }) => fault_of(alloc, node, kind),
    }
}

/// The bell and the count at which it has to wait.
fn wait<O: Operator, R: Threads + Wait + Sync>(
    rt: &R,
    alloc: Global,
    op: &mut O,
) -> Result<String, Memory>
    requires { (page : TypedPage) → IsOfTypes (kind.Bigint ∷ []) page → O.takes op.old page }
    ensures { IsOk result → (page : TypedPage) → IsOfTypes (kind.Bigint ∷ []) page → O.takes op.new page }
{
    let mut bells = Still { alloc };
    match look(op, rt, &mut bells)? {
        Some(on) => Ok(format!(in alloc; "bell {} at {}", on.bell, on.seen)?),
        None => text_of(alloc, "none"),
    }
}

/// What a call answers: `get`, `look`, `end`, `over` (whether it is finished), or the numbers of a page to be put.
fn answer<O: Operator, R: Threads + Wait + Sync>(
    rt: &R,
    alloc: Global,
    op: &mut O,
    call: &str,
) -> Result<String, Memory>
    requires { (page : TypedPage) → IsOfTypes (kind.Bigint ∷ []) page → O.takes op.old page }
    ensures { IsOk result → (page : TypedPage) → IsOfTypes (kind.Bigint ∷ []) page → O.takes op.new page }
{
    match call {
        "get" => given(alloc, op),
        "look" => wait(rt, alloc, op),
        "end" => {
            tell(op);
            text_of(alloc, "told")
        }
        "over" => text_of(alloc, if op.is_finished() { "yes" } else { "no" }),
        words => put(alloc, op, words),
    }
}

/// The number of the first line that is answered otherwise; 0 where there is none.
pub(crate) fn first_wrong<O: Operator, R: Threads + Wait + Sync>(
    rt: &R,
    alloc: Global,
    op: &mut O,
    lines: &str,
) -> Result<u32, Memory>
    requires { (page : TypedPage) → IsOfTypes (kind.Bigint ∷ []) page → O.takes op.old page }
{
    let mut number: u32 = 0;
    for line in lines.lines() {
        number = number.saturating_add(1);
        let (call, want) = line.split_once(" | ").unwrap_or((line, ""));
        if answer(rt, alloc, op, call)?.as_str() != want {
            return Ok(number);
        }
    }
    Ok(0)
}
