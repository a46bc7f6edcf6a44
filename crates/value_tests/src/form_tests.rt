//! Blocks in their three forms: the same cells, however they are kept.
ghost use Rattle.std.specs.Prelude.{◌≡◌, IfOk, length};

use sql_values::{
    Block, Dictionary, EMPTY_HASH, Form, Memory, PlainBlock, SqlType, Value, ValueRef,
};
use std::alloc::Global;

/// Appends the cells, each with a space behind it; NULL is `-`.
fn show(text: &mut String, block: &Block) -> Result<(), Memory> {
    for place in 0..block.len() {
        match block.cell(place) {
            ValueRef::Varchar(word) => write!(text, "{word} ")?,
            ValueRef::Bigint(number) => write!(text, "{number} ")?,
            _ => text.push_str("- ")?,
        }
    }
    Ok(())
}

fn shows(alloc: Global, block: &Block, form: Form, wanted: &str) -> Result<bool, Memory> {
    let mut text = String::new(alloc);
    show(&mut text, block)?;
    Ok(block.form() == form && text.as_str() == wanted)
}

/// The entries x, NULL and y, by the ids 2, 0, 0, 1.
fn y_x_x_null(alloc: Global) -> Result<Block, Memory>
    ensures { IfOk result (λ b. length b.cells ≡ 4) }
{
    let text = SqlType::Varchar;
    let mut words = PlainBlock::new(alloc, text);
    words.push(ValueRef::Varchar("x"))?;
    words.push(ValueRef::Null)?;
    words.push(ValueRef::Varchar("y"))?;
    let ids = Vec::from_array(alloc, [2, 0, 0, 1])?;
    Ok(Block::of_dictionary(Dictionary::of(alloc, words)?, ids))
}

/// The number 7, so many times.
fn sevens(alloc: Global, count: u32) -> Result<Block, Memory>
    ensures { IfOk result (λ b. length b.cells ≡ count) }
{
    Block::repeat(alloc, SqlType::Bigint, &Value::Bigint(7), count)
}

fn ids_are_read(alloc: Global) -> Result<bool, Memory> {
    let block = y_x_x_null(alloc)?;
    let chosen = block.select(alloc, &[3, 1])?;
    Ok(
        shows(alloc, &block, Form::Dictionary, "y x x - ")?
            && shows(alloc, &chosen, Form::Dictionary, "- x ")?,
    )
}

#[test]
fn a_dictionary_shows_the_entries_of_its_ids(rt: HostRuntime) -> Result<(), Memory> {
    assert!(rt; ids_are_read(rt.alloc())?);
    Ok(())
}

/// Whether the cells from 1 up to 3 are these, in this form.
fn middle_shows(alloc: Global, block: &Block, form: Form, wanted: &str) -> Result<bool, Memory> {
    if block.len() < 3 {
        return Ok(false);
    }
    shows(alloc, &block.cut(alloc, 1, 3)?, form, wanted)
}

#[test]
fn what_is_cut_keeps_its_form(rt: HostRuntime) -> Result<(), Memory> {
    let alloc = rt.alloc();
    assert!(rt; middle_shows(alloc, &sevens(alloc, 3)?, Form::Run, "7 7 ")?);
    assert!(rt; middle_shows(alloc, &y_x_x_null(alloc)?, Form::Dictionary, "x x ")?);
    Ok(())
}

/// Whether a cell behind the others makes the block plain.
fn grows(
    alloc: Global,
    block: &mut Block,
    cell: ValueRef<'_>,
    wanted: &str,
) -> Result<bool, Memory> {
    Ok(block.push(cell)? && shows(alloc, block, Form::Plain, wanted)?)
}

#[test]
fn what_grows_is_plain(rt: HostRuntime) -> Result<(), Memory> {
    let alloc = rt.alloc();
    assert!(rt; grows(alloc, &mut sevens(alloc, 2)?, ValueRef::Bigint(8), "7 7 8 ")?);
    assert!(rt; grows(alloc, &mut y_x_x_null(alloc)?, ValueRef::Null, "y x x - - ")?);
    Ok(())
}

fn are_joined(alloc: Global, block: &mut Block, other: &Block) -> Result<bool, Memory> {
    block.truncate(2);
    Ok(block.append(other)? && shows(alloc, block, Form::Plain, "y x y x x - ")?)
}

#[test]
fn two_dictionaries_are_joined(rt: HostRuntime) -> Result<(), Memory> {
    let alloc = rt.alloc();
    assert!(rt; are_joined(alloc, &mut y_x_x_null(alloc)?, &y_x_x_null(alloc)?)?);
    Ok(())
}

/// Whether a copy in the vector of its type has the same cells and hashes.
fn is_the_plain_one(alloc: Global, block: &Block) -> Result<bool, Memory> {
    let plain = block.to_plain(alloc)?;
    let mut hashes = [EMPTY_HASH; 4];
    let mut others = [EMPTY_HASH; 4];
    if block.len() != 4 || plain.len() != 4 {
        return Ok(false);
    }
    block.hash_cells(&mut hashes);
    plain.hash_cells(&mut others);
    Ok(hashes == others && shows(alloc, &Block::of_plain(plain), Form::Plain, "y x x - ")?)
}

#[test]
fn a_dictionary_hashes_as_its_cells(rt: HostRuntime) -> Result<(), Memory> {
    let alloc = rt.alloc();
    assert!(rt; is_the_plain_one(alloc, &y_x_x_null(alloc)?)?);
    Ok(())
}

/// The block of 7, 7 and this number, in its vector.
fn two_sevens_and(alloc: Global, number: i64) -> Result<Block, Memory> {
    let mut block = Block::new(alloc, SqlType::Bigint);
    block.push(ValueRef::Bigint(7))?;
    block.push(ValueRef::Bigint(7))?;
    block.push(ValueRef::Bigint(number))?;
    Ok(block)
}

#[test]
fn cells_that_are_all_one_become_a_run(rt: HostRuntime) -> Result<(), Memory> {
    let alloc = rt.alloc();
    let run = two_sevens_and(alloc, 7)?.into_run();
    assert!(rt; shows(alloc, &run, Form::Run, "7 7 7 ")?);
    let plain = two_sevens_and(alloc, 8)?.into_run();
    assert!(rt; shows(alloc, &plain, Form::Plain, "7 7 8 ")?);
    Ok(())
}

#[test]
fn plain_cells_become_a_dictionary(rt: HostRuntime) -> Result<(), Memory> {
    let alloc = rt.alloc();
    let shared = two_sevens_and(alloc, 8)?.into_dictionary(alloc)?;
    assert!(rt; shows(alloc, &shared, Form::Dictionary, "7 7 8 ")?);
    Ok(())
}
