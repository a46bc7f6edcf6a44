ghost use Rattle.std.specs.Prelude.{◌≡◌, ◌<◌, ◌++◌, ◌∷◌, [], bytes_eq, length, map, slice_index_or, IfOk, OnOk, OnErr};
ghost use Rattle.sql_values.specs.Cells.{cell, cut, lent_value};
ghost use Rattle.relation_laws.specs.Equality.{same_row, same_value};
ghost use Rattle.group_index.specs.Keys.{AreWide, StandsAt, first_guess, key_at, place_of};

use crate::chains::HashChains;
use crate::hashes::{hash_cells, hash_rows};
use cell_hashes::{NO_VALUE, hash_value};
use col_pages::Page;
use sql_exprs::{Cells, PageRow};
use sql_values::{Memory, Row, RowList, SqlType, ValueRef, compare_values};
use std::alloc::Global;
use std::marker::Model;

/// Keys of groups, each at a place.
#[derive(Drop)]
pub struct GroupIndex {
    alloc: Global,
    /// How many cells each key has.
    width: u32,
    keys: RowList,
    chains: HashChains,
}

impl Model for GroupIndex {
    ghost use Rattle.std.specs.Prelude.{List};
    ghost use Rattle.sql_values.specs.declared.value.Value.{Value as Cell};
    ghost use Rattle.group_index.specs.Keys.{AreHashed, AreWide};

    ghost Value = { List (List Cell) };

    ghost view = { λ g. g.keys };

    ghost invariant = { λ g. AreHashed g.keys g.chains × AreWide g.width g.keys };
}

impl GroupIndex {
    /// No key.
    pub fn new(alloc: Global) -> Result<GroupIndex, Memory>
        ensures { IfOk result (λ g. g ≡ []) }
    {
        Ok(GroupIndex {
            alloc,
            width: 0,
            keys: RowList::new(alloc),
            chains: HashChains::new(alloc)?,
        })
    }

    /// Keeps the keys in columns of these types, where there is none yet. Other keys are taken all the same.
    pub fn keep_in(&mut self, types: &[SqlType]) -> Result<(), Memory>
        ensures { self.new ≡ self.old }
    {
        if self.keys.is_empty() {
            self.keys = RowList::of_types(self.alloc, types)?;
        }
        Ok(())
    }

    pub fn len(&self) -> usize
        ensures { result ≡ length self.now }
    {
        self.keys.len()
    }

    /// The cell in a column of the key at a place: NULL past the key's last one.
    pub fn cell(&self, place: usize, column: u32) -> ValueRef<'_>
        requires { place < length self.now }
        ensures { lent_value result ≡ cell (key_at self.now place) column }
    {
        self.keys.cell(place, column)
    }

    /// The last place at which the key of a row stands.
    pub fn find<C: Cells>(&self, columns: &[u32], cells: &C) -> Option<usize>
        ensures { result ≡ place_of self.now (cut columns.now (C.values cells.now)) }
    {
        if let [column] = columns {
            return self.find_cell(cells.cell(*column));
        }
        self.find_cells(columns, cells)
    }

    /// The last place at which the key of each row of a page stands. What is read of memory for one row waits for
    /// no other row, so that it takes less time than to find them one by one where there are many keys.
    pub fn seek_rows(&self, columns: &[u32], page: &Page) -> Result<Vec<Option<usize>>, Memory>
        ensures { IfOk result (λ found. StandsAt self.now (map (cut columns.now) page.now.rows) found.items) }
    {
        let hashes = hash_rows(self.alloc, columns, page)?;
        let guesses = self.chains.last_of_each(&hashes)?;
        let mut found = Vec::with_capacity(self.alloc, guesses.len())?;
        for position in 0..page.len() {
            let row = PageRow { page, position };
            found.push(self.find_from(guesses[position as usize], columns, &row))?;
        }
        Ok(found)
    }

    /// The last place at which the key of a row stands, sought from its first guess on.
    fn find_from<C: Cells>(&self, guess: Option<usize>, columns: &[u32], cells: &C) -> Option<usize>
        requires { guess ≡ first_guess self.now (cut columns.now (C.values cells.now)) }
        ensures { result ≡ place_of self.now (cut columns.now (C.values cells.now)) }
    {
        if let [column] = columns {
            return self.find_cell_from(guess, cells.cell(*column));
        }
        self.find_cells_from(guess, columns, cells)
    }

    /// The last place of a key of one cell, which is read once.
    fn find_cell(&self, key: ValueRef<'_>) -> Option<usize>
        ensures { result ≡ place_of self.now (lent_value key.entry ∷ []) }
    {
        let guess = self.chains.last_of(hash_value(NO_VALUE, key));
        self.find_cell_from(guess, key)
    }

    /// The same, from its first guess on.
    fn find_cell_from(&self, guess: Option<usize>, key: ValueRef<'_>) -> Option<usize>
        requires { guess ≡ first_guess self.now (lent_value key ∷ []) }
        ensures { result ≡ place_of self.now (lent_value key.entry ∷ []) }
    {
        let mut found = guess;
        while let Some(place) = found {
            if self.is_key(place, key) {
                return Some(place);
            }
            found = self.chains.before(place);
        }
        None
    }

    /// Whether the key at a place is this cell alone.
    fn is_key(&self, place: usize, key: ValueRef<'_>) -> bool
        requires { place < length self.now }
        ensures { result ≡ same_row (key_at self.now place) (lent_value key.entry ∷ []) }
    {
        self.width == 1 && is_same(self.keys.cell(place, 0), key)
    }

    /// The last place of a key of any number of cells.
    fn find_cells<C: Cells>(&self, columns: &[u32], cells: &C) -> Option<usize>
        ensures { result ≡ place_of self.now (cut columns.now (C.values cells.now)) }
    {
        let guess = self.chains.last_of(hash_cells(columns, cells));
        self.find_cells_from(guess, columns, cells)
    }

    /// The same, from its first guess on.
    fn find_cells_from<C: Cells>(
        &self,
        guess: Option<usize>,
        columns: &[u32],
        cells: &C,
    ) -> Option<usize>
        requires { guess ≡ first_guess self.now (cut columns.now (C.values cells.now)) }
        ensures { result ≡ place_of self.now (cut columns.now (C.values cells.now)) }
    {
        let mut found = guess;
        while let Some(place) = found {
            if self.is_key_of(place, columns, cells) {
                return Some(place);
            }
            found = self.chains.before(place);
        }
        None
    }

    /// Whether the key at a place is that of a row.
    fn is_key_of<C: Cells>(&self, place: usize, columns: &[u32], cells: &C) -> bool
        requires { place < length self.now }
        ensures { result ≡ same_row (key_at self.now place) (cut columns.now (C.values cells.now)) }
    {
        if self.width as usize != columns.len() {
            return false;
        }
        for column in 0..self.width {
            if !self.is_cell_of(place, column, columns, cells) {
                return false;
            }
        }
        true
    }

    /// Whether the cell in a column of the key at a place is that of a row.
    fn is_cell_of<C: Cells>(&self, place: usize, column: u32, columns: &[u32], cells: &C) -> bool
        requires place { place < length self.now }
        requires column { column < length columns.now }
        ensures { result ≡ same_value (cell (key_at self.now place) column)
            (cell (C.values cells.now) (slice_index_or columns.now column 0)) }
    {
        let given = cells.cell(columns[column as usize]);
        is_same(self.keys.cell(place, column), given)
    }

    /// Appends the key of a row. One that has not as many cells as the first is refused as `Memory`.
    pub fn push<C: Cells>(&mut self, columns: &[u32], cells: &C) -> Result<(), Memory>
        ensures ok { OnOk result (self.new ≡ self.old ++ cut columns.now (C.values cells.now) ∷ []) }
        ensures err { OnErr result (self.new ≡ self.old) }
    {
        self.width = width_beside(&self.keys, self.width, columns)?;
        let key = key_of(self.alloc, columns, cells)?;
        let hash = hash_cells(columns, cells);
        self.chains.push(hash, &mut self.keys, key)
    }
}

/// The number of cells of a key in these columns, where all keys have as many.
fn width_beside(keys: &RowList, width: u32, columns: &[u32]) -> Result<u32, Memory>
    requires { AreWide width keys.now }
    ensures { IfOk result (λ n. (n ≡ length columns.now) × AreWide n keys.now) }
{
    if keys.is_empty() && columns.len() <= 2_147_483_648 {
        return Ok(columns.len() as u32);
    }
    if columns.len() == width as usize {
        return Ok(width);
    }
    Err(Memory)
}

/// A copy of the key of a row.
fn key_of<C: Cells>(alloc: Global, columns: &[u32], cells: &C) -> Result<Row, Memory>
    ensures { IfOk result (λ r. r ≡ cut columns.now (C.values cells.now)) }
{
    let mut values = Vec::with_capacity(alloc, columns.len())?;
    for column in columns {
        values.push(cells.cell(*column).to_value(alloc)?)?;
    }
    Ok(Row::of(values))
}

fn is_same(a: ValueRef<'_>, b: ValueRef<'_>) -> bool
    ensures { result ≡ same_value (lent_value a.entry) (lent_value b.entry) }
{
    if let (ValueRef::Varchar(text), ValueRef::Varchar(other)) = (a, b) {
        return are_same_bytes(text.as_bytes(), other.as_bytes());
    }
    compare_values(a, b).is_eq()
}

/// Byte by byte, since most texts are short.
fn are_same_bytes(bytes: &[u8], others: &[u8]) -> bool
    ensures { result ≡ bytes_eq bytes.now others.now }
{
    if bytes.len() != others.len() {
        return false;
    }
    for place in 0..bytes.len() {
        if bytes[place] != others[place] {
            return false;
        }
    }
    true
}
