ghost use Rattle.std.specs.Prelude.{◌≡◌, ◌++◌, ◌<◌, length, replicate, slice_index_or, IfOk, IfSome, IsTrue};
ghost use Rattle.sql_values.specs.Blocks.{with_cells};
ghost use Rattle.sql_values.specs.Cells.{lent_value};
ghost use Rattle.col_pages.specs.Pages.{TypedPage};
ghost use Rattle.sql_exprs.specs.Forms.{Form, choice, last};
ghost use Rattle.sql_exprs.specs.Meaning.{kind_of};
ghost use Rattle.column_exprs.specs.declared.kept.Test.TheVariants as test_is;
ghost use Rattle.column_exprs.specs.Choices.{AreLeft, ArePlaces, AreSettled, AreUnsettled, IsChoice, TakesBranch, operand_cells, outcome_on};
ghost use Rattle.column_exprs.specs.Kept.{IsPart, kept};
ghost use Rattle.column_exprs.specs.Operands.{AreOutcomes, AreRows, HasCells, IsOperand, operand_cell};

use crate::kept::{Test, kept_positions, part_at};
use crate::operand::Operand;
use crate::rows::Rows;
use col_pages::Page;
use sql_values::{Block, Memory, SqlType, ValueRef};
use std::alloc::Global;

/// Rows of a case with their values, in the order in which conditions chose them.
#[derive(Drop)]
pub struct Settled {
    values: Block,
    positions: Vec<u32>,
}

/// The rows of a case that no condition chose so far; whether they are known to be all of the page.
#[derive(Drop)]
pub struct Unsettled {
    positions: Vec<u32>,
    whole: bool,
}

/// What the conditions of a case have chosen so far.
#[derive(Drop)]
pub struct Choice {
    pub settled: Settled,
    pub unsettled: Unsettled,
}

impl Choice {
    /// No row is chosen.
    pub fn new(alloc: Global, kind: SqlType, rows: Rows<'_>) -> Result<Choice, Memory>
        requires { AreRows rows }
        ensures { IfOk result (λ c. (form : Form) → kind ≡ kind_of rows.entry.page.now.types form
            → IsChoice form form rows.entry.page.now c) }
    {
        Ok(Choice {
            settled: Settled {
                values: Block::new(alloc, kind),
                positions: Vec::new(alloc),
            },
            unsettled: Unsettled {
                positions: Vec::from_slice(alloc, rows.positions)?,
                whole: rows.whole,
            },
        })
    }
}

impl Unsettled {
    /// The rows, of their page.
    pub fn rows<'a>(&'a self, page: &'a Page) -> Rows<'a>
        requires { AreUnsettled page.now self.now }
        ensures rows { AreRows result }
        ensures page { result.page.now ≡ page.now }
        ensures positions { result.positions.now ≡ self.now.positions.items }
    {
        Rows {
            page,
            positions: self.positions.as_slice(),
            whole: self.whole,
        }
    }
}

impl Settled {
    /// With the values of an operand at further positions, or none where they have another type.
    fn with(mut self, values: &Operand<'_>, positions: &[u32]) -> Result<Option<Settled>, Memory>
        requires { HasCells values.now (length positions.now) }
        ensures positions { IfOk result (λ o. IfSome o (λ s.
            s.positions.items ≡ self.positions.items ++ positions.now)) }
        ensures values { IfOk result (λ o. IfSome o (λ s. s.values ≡ with_cells self.values
            (self.values.cells ++ operand_cells values.now (length positions.now)))) }
    {
        if !append_cells(values, positions.len(), &mut self.values)? {
            return Ok(None);
        }
        self.positions.extend_from_slice(positions)?;
        Ok(Some(self))
    }

    /// The values at positions, in their order, or none where one of them is not settled.
    fn at(&self, alloc: Global, positions: &[u32], count: u32) -> Result<Option<Block>, Memory>
        requires { length self.now.values.cells ≡ length self.now.positions.items }
        ensures { IfOk result (λ o. IfSome o (λ b. (form : Form) (page : TypedPage)
            → AreSettled form page self.now → (b.kind ≡ kind_of page.types form)
            × AreOutcomes (λ k. outcome_on form page (slice_index_or positions.now k 0))
            (length positions.now) b.cells)) }
    {
        let Some(places) = places_in(alloc, self.positions.as_slice(), positions, count)? else {
            return Ok(None);
        };
        Ok(Some(self.values.select(alloc, places.as_slice())?))
    }
}

/// Appends the values of an operand at so many places, or answers false where they have another type.
fn append_cells(values: &Operand<'_>, count: usize, block: &mut Block) -> Result<bool, Memory>
    requires { HasCells values.now count }
    ensures { IfOk result (λ taken. IsTrue taken → block.new ≡ with_cells block.old
        (block.old.cells ++ operand_cells values.now count)) }
{
    match values {
        Operand::Lent(cells) => block.append(cells),
        Operand::Made(cells) => block.append(cells),
        Operand::Constant { value, .. } => push_repeated(*value, count, block),
    }
}

/// Appends a value so many times, or answers false where it has another variant.
fn push_repeated(value: ValueRef<'_>, count: usize, block: &mut Block) -> Result<bool, Memory>
    ensures { IfOk result (λ taken. IsTrue taken → block.new ≡ with_cells block.old
        (block.old.cells ++ replicate count (lent_value value.entry))) }
{
    for _place in 0..count {
        if !block.push(value)? {
            return Ok(false);
        }
    }
    Ok(true)
}

/// Where each position stands among those that are settled, or none where one does not. Those of
/// rows are below `count`.
fn places_in(
    alloc: Global,
    settled: &[u32],
    positions: &[u32],
    count: u32,
) -> Result<Option<Vec<u32>>, Memory>
    ensures { IfOk result (λ o. IfSome o (λ v.
        ArePlaces settled.now positions.now (length positions.now) v.items)) }
{
    let Ok(len) = u32::try_from(settled.len()) else {
        return Ok(None);
    };
    let places = numbered(alloc, settled, len, count as usize)?;
    found_places(alloc, settled, places.as_slice(), positions)
}

/// For each position below `count` the last place at which it stands; 0 where it stands at none.
fn numbered(alloc: Global, settled: &[u32], len: u32, count: usize) -> Result<Vec<u32>, Memory>
    requires { len ≡ length settled.now }
{
    let mut places = vec![in alloc; 0u32; count]?;
    for place in 0..len {
        put_place(settled[place as usize], place, places.as_mut_slice());
    }
    Ok(places)
}

fn put_place(position: u32, place: u32, places: &mut [u32]) {
    if (position as usize) < places.len() {
        places[position as usize] = place;
    }
}

/// The places of positions, or none where a position does not stand at its place.
fn found_places(
    alloc: Global,
    settled: &[u32],
    places: &[u32],
    positions: &[u32],
) -> Result<Option<Vec<u32>>, Memory>
    ensures { IfOk result (λ o. IfSome o (λ v.
        ArePlaces settled.now positions.now (length positions.now) v.items)) }
{
    let mut found = Vec::with_capacity(alloc, positions.len())?;
    for position in positions {
        match found_place(settled, places, *position) {
            Some(place) => found.push(place)?,
            None => return Ok(None),
        }
    }
    Ok(Some(found))
}

/// The place of a position, if it stands there.
fn found_place(settled: &[u32], places: &[u32], position: u32) -> Option<u32>
    ensures within { IfSome result (λ place. place < length settled.now) }
    ensures same { IfSome result (λ place. slice_index_or settled.now place 0 ≡ position) }
{
    let place = *places.get(position as usize)?;
    let found = *settled.get(place as usize)?;
    if found == position { Some(place) } else { None }
}

/// The choice with one more branch, by the operands of its condition, and of its result at the rows
/// that the condition chose.
pub fn branch_made(
    alloc: Global,
    tests: &Operand<'_>,
    results: &Operand<'_>,
    settled: Settled,
    rows: Rows<'_>,
    part: Rows<'_>,
) -> Result<Option<Choice>, Memory>
    requires rows { AreRows rows }
    requires tests { HasCells tests.now (length rows.positions.now) }
    requires results { HasCells results.now (length part.positions.now) }
    requires part { IsPart test_is.True (operand_cell tests.now) rows part }
    ensures { IfOk result (λ o. IfSome o (λ next. (test then : Form)
        → IsOperand test rows.entry tests.now → IsOperand then part.entry results.now
        → TakesBranch test then rows.entry.page.now settled rows.entry.positions.now next)) }
{
    let unsettled = left_by(alloc, tests, rows)?;
    match settled.with(results, part.positions)? {
        Some(settled) => Ok(Some(Choice { settled, unsettled })),
        None => Ok(None),
    }
}

/// The rows that a condition leaves.
fn left_by(alloc: Global, tests: &Operand<'_>, rows: Rows<'_>) -> Result<Unsettled, Memory>
    requires rows { AreRows rows }
    requires tests { HasCells tests.now (length rows.positions.now) }
    ensures rows { IfOk result (AreUnsettled rows.entry.page.now) }
    ensures kept { IfOk result (λ u. u.positions.items ≡ kept test_is.NotTrue
        (operand_cell tests.now) rows.entry.positions.now (length rows.entry.positions.now)) }
{
    let positions = kept_positions(alloc, Test::NotTrue, tests, rows.positions)?;
    let whole = part_at(Test::NotTrue, tests, rows, positions.as_slice()).whole;
    Ok(Unsettled { positions, whole })
}

/// The operand of a case, by that of its default at the rows that no condition chose.
pub fn choice_made<'a>(
    alloc: Global,
    settled: Settled,
    others: &Operand<'_>,
    unsettled: Rows<'_>,
    rows: Rows<'_>,
) -> Result<Option<Operand<'a>>, Memory>
    requires page { unsettled.page.now ≡ rows.page.now }
    requires values { length settled.values.cells ≡ length settled.positions.items }
    requires others { HasCells others.now (length unsettled.positions.now) }
    ensures { IfOk result (λ o. IfSome o (λ x. (form other : Form)
        → IsOperand other unsettled.entry others.now → AreSettled form rows.entry.page.now settled
        → AreLeft form (choice last other) rows.entry.page.now unsettled.entry.positions.now
        → IsOperand form rows.entry x)) }
{
    let Some(all) = settled.with(others, unsettled.positions)? else {
        return Ok(None);
    };
    match all.at(alloc, rows.positions, rows.page.len())? {
        Some(block) => Ok(Some(Operand::Made(block))),
        None => Ok(None),
    }
}
