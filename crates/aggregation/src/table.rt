ghost use Rattle.std.specs.Prelude.{◌≡◌, ◌<◌, ◌≤◌, ◌^◌, [], ◌∷◌, ◌++◌, drop, length, map, IfOk, IfSome, IsTrue, MatchResult, OnErr, OnOk, None, slice_index_or, slice_set};
ghost use Rattle.sql_values.specs.Cells.{cut};
ghost use Rattle.relation_laws.specs.Partials.{merged, partial_of};
ghost use Rattle.group_index.specs.Keys.{place_of};
ghost use Rattle.accumulators.specs.Limits.{are_allowed};
ghost use Rattle.aggregation.specs.Alike.{TellAlike, held_row, part_row, part_rows};
ghost use Rattle.aggregation.specs.Held.{first_keys, first_partials};
ghost use Rattle.aggregation.specs.Giving.{has_verdict, parts_with, verdicts_with};
ghost use Rattle.aggregation.specs.Tables.{AreKept, AreResults, GroupFailsBy, IsKeyAt, HasGroupFor, IsPut, OneFailsBy, held_in, verdict_at, verdicts_of};

use accumulators::Accumulator;
use col_pages::Page;
use group_index::GroupIndex;
use plan_trees::append_key_types;
use sql_exprs::{Cells, PageRow};
use sql_values::{Call, ColumnRows, EvalFault, Memory, Row, SqlType, Types, Value};
use std::alloc::Global;
use std::marker::Model;

/// From so many groups on the keys of a page are sought together: most of what is read for them is then far away.
const MANY_GROUPS: usize = 4_096;

/// The groups of the rows that came: a key and an accumulator each.
#[derive(Drop)]
pub struct GroupTable {
    alloc: Global,
    columns: Vec<u32>,
    calls: Vec<Call>,
    types: Vec<SqlType>,
    index: GroupIndex,
    groups: Vec<Accumulator>,
}

impl Model for GroupTable {
    ghost use Rattle.aggregation.specs.Tables.{TableState, IsTable, partials_of_groups};

    ghost Value = { TableState };

    ghost view = { λ t. record {
      columns = t.columns.items;
      calls = t.calls.items;
      types = t.types.items;
      keys = t.index;
      partials = partials_of_groups t.groups.items;
    } };

    ghost invariant = { λ t.
        IsTable t.columns.items t.calls.items t.types.items t.index t.groups.items };
}

impl GroupTable {
    /// No row yet, of groups by these columns, for calls over rows of these types.
    pub fn new(
        alloc: Global,
        columns: Vec<u32>,
        calls: Vec<Call>,
        types: Vec<SqlType>,
    ) -> Result<GroupTable, Memory>
        requires { IsTrue (are_allowed types.items calls.items) }
        ensures { IfOk result (λ t. t ≡ record {
          columns = columns.items;
          calls = calls.items;
          types = types.items;
          keys = first_keys (length columns.items);
          partials = first_partials (length columns.items) calls.items;
        }) }
    {
        if columns.is_empty() {
            return GroupTable::with_one_group(alloc, columns, calls, types);
        }
        Ok(GroupTable {
            alloc,
            columns,
            calls,
            types,
            index: GroupIndex::new(alloc)?,
            groups: Vec::new(alloc),
        })
    }

    /// The same without columns: one group, also where no row comes.
    fn with_one_group(
        alloc: Global,
        columns: Vec<u32>,
        calls: Vec<Call>,
        types: Vec<SqlType>,
    ) -> Result<GroupTable, Memory>
        requires allowed { IsTrue (are_allowed types.items calls.items) }
        requires none { columns.items ≡ [] }
        ensures { IfOk result (λ t. t ≡ record {
          columns = [];
          calls = calls.items;
          types = types.items;
          keys = first_keys 0;
          partials = first_partials 0 calls.items;
        }) }
    {
        let mut index = GroupIndex::new(alloc)?;
        index.push(&columns, &Row::of(Vec::new(alloc)))?;
        let mut groups = Vec::new(alloc);
        groups.push(Accumulator::new(alloc, &calls, &types)?)?;
        Ok(GroupTable {
            alloc,
            columns,
            calls,
            types,
            index,
            groups,
        })
    }

    /// Forgets the groups of its columns, and gives their memory back. After `Memory` they are still there.
    pub fn forget(&mut self) -> Result<(), Memory>
        ensures same { record self.new { keys = self.old.keys; partials = self.old.partials } ≡ self.old }
        ensures none { OnOk result (self.new.keys ≡ first_keys (length self.old.columns)) }
        ensures err { OnErr result (self.new ≡ self.old) }
    {
        if self.columns.is_empty() {
            return Ok(());
        }
        self.index = GroupIndex::new(self.alloc)?;
        self.groups = Vec::new(self.alloc);
        Ok(())
    }

    /// The types of the rows that it takes.
    pub fn types(&self) -> &[SqlType]
        ensures { result.now ≡ self.now.types }
    {
        &self.types
    }

    /// How many groups there are.
    pub fn len(&self) -> usize
        ensures { result ≡ length self.now.keys }
    {
        self.index.len()
    }

    /// Takes a row. A number of more digits than its type has is refused as `Memory`.
    pub fn add<C: Cells>(&mut self, cells: &C) -> Result<(), Memory>
        ensures same { record self.new { keys = self.old.keys; partials = self.old.partials } ≡ self.old }
        ensures ok { OnOk result (TellAlike (length self.old.columns) self.old.calls (held_in self.new)
            (held_in self.old ++ part_row self.old.columns self.old.calls (C.values cells.now) ∷ [])) }
    {
        self.add_near(None, cells)
    }

    /// The place of the group of a row, which is made where there is none.
    fn open<C: Cells>(&mut self, cells: &C) -> Result<usize, Memory>
        ensures same { record self.new { keys = self.old.keys; partials = self.old.partials } ≡ self.old }
        ensures ok { OnOk result (HasGroupFor self.old (cut self.old.columns (C.values cells.now)) self.new) }
        ensures place { IfOk result (λ place. IsKeyAt self.new.keys place (cut self.old.columns (C.values cells.now))) }
    {
        match self.index.find(&self.columns, cells) {
            Some(place) => Ok(place),
            None => self.push(cells),
        }
    }

    /// Makes a group of no row for the key of a row that has none.
    fn push<C: Cells>(&mut self, cells: &C) -> Result<usize, Memory>
        requires { None ≡ place_of self.old.keys (cut self.old.columns (C.values cells.now)) }
        ensures same { record self.new { keys = self.old.keys; partials = self.old.partials } ≡ self.old }
        ensures ok { OnOk result (self.new ≡ record self.old {
          keys = self.old.keys ++ cut self.old.columns (C.values cells.now) ∷ [];
          partials = self.old.partials ++ partial_of self.old.calls [] ∷ [];
        }) }
        ensures place { IfOk result (λ place. IsKeyAt self.new.keys place (cut self.old.columns (C.values cells.now))) }
    {
        let place = self.groups.len();
        let group = Accumulator::new(self.alloc, &self.calls, &self.types)?;
        self.groups.reserve(1)?;
        self.index.push(&self.columns, cells)?;
        self.groups.push_reserved(group);
        Ok(place)
    }

    /// Takes a row into the group at a place.
    fn add_at<C: Cells>(&mut self, place: usize, cells: &C) -> Result<(), Memory>
        requires { place < length self.old.keys }
        ensures same { record self.new { partials = self.old.partials } ≡ self.old }
        ensures ok { OnOk result (self.new ≡ record self.old {
          partials = slice_set self.old.partials place
              (merged self.old.calls (slice_index_or self.old.partials place [])
              (partial_of self.old.calls (C.values cells.now ∷ [])));
        }) }
    {
        let group = &mut self.groups[place];
        let taken = group.take(cells);
        group.none_adds_nothing();
        taken
    }

    /// Keeps keys in columns of the types that a page's have, where there is none yet.
    fn keep_keys_as(&mut self, page: &Page) -> Result<(), Memory>
        ensures { self.new ≡ self.old }
    {
        if self.index.len() > 0 {
            return Ok(());
        }
        let mut types = Types::new(self.alloc);
        append_key_types(&mut types, page.types(), &self.columns)?;
        self.index.keep_in(types.as_slice())
    }

    /// Takes the rows of a page.
    pub fn add_page(&mut self, page: &Page) -> Result<(), Memory>
        ensures same { record self.new { keys = self.old.keys; partials = self.old.partials } ≡ self.old }
        ensures ok { OnOk result (TellAlike (length self.old.columns) self.old.calls (held_in self.new)
            (held_in self.old ++ part_rows self.old.columns self.old.calls page.now.rows)) }
    {
        self.keep_keys_as(page)?;
        if self.index.len() < MANY_GROUPS {
            return self.add_rows(page);
        }
        self.add_rows_near(page)
    }

    /// Takes the rows of a page, each of which seeks its group.
    fn add_rows(&mut self, page: &Page) -> Result<(), Memory>
        ensures same { record self.new { keys = self.old.keys; partials = self.old.partials } ≡ self.old }
        ensures ok { OnOk result (TellAlike (length self.old.columns) self.old.calls (held_in self.new)
            (held_in self.old ++ part_rows self.old.columns self.old.calls page.now.rows)) }
    {
        for position in 0..page.len() {
            self.add(&PageRow { page, position })?;
        }
        Ok(())
    }

    /// Takes the rows of a page, whose groups are sought together before the first is taken.
    fn add_rows_near(&mut self, page: &Page) -> Result<(), Memory>
        ensures same { record self.new { keys = self.old.keys; partials = self.old.partials } ≡ self.old }
        ensures ok { OnOk result (TellAlike (length self.old.columns) self.old.calls (held_in self.new)
            (held_in self.old ++ part_rows self.old.columns self.old.calls page.now.rows)) }
    {
        let found = self.index.seek_rows(&self.columns, page)?;
        for position in 0..page.len() {
            self.add_near(found[position as usize], &PageRow { page, position })?;
        }
        Ok(())
    }

    /// Takes a row, whose group may stand at a place that was found before.
    fn add_near<C: Cells>(&mut self, near: Option<usize>, cells: &C) -> Result<(), Memory>
        requires { IfSome near (λ place. IsKeyAt self.old.keys place (cut self.old.columns (C.values cells.now))) }
        ensures same { record self.new { keys = self.old.keys; partials = self.old.partials } ≡ self.old }
        ensures kept { OnOk result (AreKept self.old.keys self.new.keys) }
        ensures ok { OnOk result (TellAlike (length self.old.columns) self.old.calls (held_in self.new)
            (held_in self.old ++ part_row self.old.columns self.old.calls (C.values cells.now) ∷ [])) }
    {
        let _ = &self.alloc;
        let place = self.open_near(near, cells)?;
        self.add_at(place, cells)
    }

    /// The place of the group of a row: where it was found before, or else where `open` finds or makes it, since a
    /// row of the same key may have come in between.
    fn open_near<C: Cells>(&mut self, near: Option<usize>, cells: &C) -> Result<usize, Memory>
        requires { IfSome near (λ place. IsKeyAt self.old.keys place (cut self.old.columns (C.values cells.now))) }
        ensures same { record self.new { keys = self.old.keys; partials = self.old.partials } ≡ self.old }
        ensures ok { OnOk result (HasGroupFor self.old (cut self.old.columns (C.values cells.now)) self.new) }
        ensures place { IfOk result (λ place. IsKeyAt self.new.keys place (cut self.old.columns (C.values cells.now))) }
    {
        match near {
            Some(there) => Ok(there),
            None => self.open(cells),
        }
    }

    /// Takes what a row has behind its key as a partial row of the key's group. What is no partial row is refused
    /// as `Memory`, and so are more than 2^31 key columns.
    pub fn merge<C: Cells>(&mut self, cells: &C) -> Result<(), Memory>
        ensures same { record self.new { keys = self.old.keys; partials = self.old.partials } ≡ self.old }
        ensures ok { OnOk result (TellAlike (length self.old.columns) self.old.calls (held_in self.new)
            (held_in self.old ++ held_row self.old.columns (C.values cells.now) ∷ [])) }
    {
        self.merge_near(None, cells)
    }

    /// Takes what a row has behind its key into the group at a place.
    fn merge_at<C: Cells>(&mut self, place: usize, cells: &C) -> Result<(), Memory>
        requires { place < length self.old.keys }
        ensures same { record self.new { partials = self.old.partials } ≡ self.old }
        ensures ok { OnOk result (self.new ≡ record self.old {
          partials = slice_set self.old.partials place
              (merged self.old.calls (slice_index_or self.old.partials place [])
              (drop (length self.old.columns) (C.values cells.now)));
        }) }
    {
        let first = first_behind(self.columns.len())?;
        let group = &mut self.groups[place];
        if !group.takes_part(cells, first) {
            return Err(Memory);
        }
        let merged = group.merge_cells(cells, first);
        group.none_adds_nothing();
        merged
    }

    /// Takes the partial rows that the rows of a page have behind their keys.
    pub fn merge_page(&mut self, page: &Page) -> Result<(), Memory>
        ensures same { record self.new { keys = self.old.keys; partials = self.old.partials } ≡ self.old }
        ensures ok { OnOk result (TellAlike (length self.old.columns) self.old.calls (held_in self.new)
            (held_in self.old ++ map (held_row self.old.columns) page.now.rows)) }
    {
        self.keep_keys_as(page)?;
        if self.index.len() < MANY_GROUPS {
            return self.merge_rows(page);
        }
        self.merge_rows_near(page)
    }

    /// Takes the partial rows of a page, each of which seeks its group.
    fn merge_rows(&mut self, page: &Page) -> Result<(), Memory>
        ensures same { record self.new { keys = self.old.keys; partials = self.old.partials } ≡ self.old }
        ensures ok { OnOk result (TellAlike (length self.old.columns) self.old.calls (held_in self.new)
            (held_in self.old ++ map (held_row self.old.columns) page.now.rows)) }
    {
        for position in 0..page.len() {
            self.merge(&PageRow { page, position })?;
        }
        Ok(())
    }

    /// Takes the partial rows of a page, whose groups are sought together before the first is taken.
    fn merge_rows_near(&mut self, page: &Page) -> Result<(), Memory>
        ensures same { record self.new { keys = self.old.keys; partials = self.old.partials } ≡ self.old }
        ensures ok { OnOk result (TellAlike (length self.old.columns) self.old.calls (held_in self.new)
            (held_in self.old ++ map (held_row self.old.columns) page.now.rows)) }
    {
        let found = self.index.seek_rows(&self.columns, page)?;
        for position in 0..page.len() {
            self.merge_near(found[position as usize], &PageRow { page, position })?;
        }
        Ok(())
    }

    /// Takes what a row has behind its key, where its group may stand at a place that was found before.
    fn merge_near<C: Cells>(&mut self, near: Option<usize>, cells: &C) -> Result<(), Memory>
        requires { IfSome near (λ place. IsKeyAt self.old.keys place (cut self.old.columns (C.values cells.now))) }
        ensures same { record self.new { keys = self.old.keys; partials = self.old.partials } ≡ self.old }
        ensures kept { OnOk result (AreKept self.old.keys self.new.keys) }
        ensures ok { OnOk result (TellAlike (length self.old.columns) self.old.calls (held_in self.new)
            (held_in self.old ++ held_row self.old.columns (C.values cells.now) ∷ [])) }
    {
        let _ = &self.alloc;
        let place = self.open_near(near, cells)?;
        self.merge_at(place, cells)
    }

    /// The law that what is said of the groups follows from their partial rows.
    pub fn groups_are_told(&self)
        ensures { verdicts_with self.now [] ≡ verdicts_of self.now }
    {
        let _ = &self.alloc;
    }

    /// Whether there is a group.
    pub fn has_group(&self) -> bool
        ensures { result ≡ has_verdict (verdicts_with self.now []) }
    {
        self.index.len() > 0
    }

    /// The row of each group, its key and the results, as columns of these types.
    pub fn results(&self, kinds: &[SqlType]) -> Result<ColumnRows, EvalFault>
        requires { 0 < length kinds.now }
        ensures { MatchResult result
            (AreResults kinds.now (verdicts_of self.now)) (OneFailsBy (verdicts_of self.now)) }
    {
        let mut rows = ColumnRows::new(self.alloc, kinds)?;
        for place in 0..self.groups.len() {
            match self.put_result(place, &mut rows) {
                Ok(()) => {}
                Err(fault) => return Err(fault),
            }
        }
        Ok(rows)
    }

    /// The key and the partial row of each group, as columns of these types.
    pub fn parts(&self, kinds: &[SqlType]) -> Result<ColumnRows, Memory>
        requires { 0 < length kinds.now }
        ensures { IfOk result (AreResults kinds.now (parts_with self.now [])) }
    {
        let mut rows = ColumnRows::new(self.alloc, kinds)?;
        for place in 0..self.groups.len() {
            self.put_part(place, &mut rows)?;
        }
        Ok(rows)
    }

    /// Appends the row of a group: its key, and its partial row.
    fn put_part(&self, place: usize, rows: &mut ColumnRows) -> Result<(), Memory>
        requires within { place < length self.now.keys }
        requires whole { rows.old.begun ≡ [] }
        ensures { OnOk result (rows.new ≡ record rows.old {
          rows = rows.old.rows ++ (slice_index_or self.now.keys place [] ++ slice_index_or self.now.partials place []) ∷ [];
        }) }
    {
        self.put_key(rows, place)?;
        self.put_partial(place, rows)?;
        if rows.end_row() { Ok(()) } else { Err(Memory) }
    }

    fn put_partial(&self, place: usize, rows: &mut ColumnRows) -> Result<(), Memory>
        requires { place < length self.now.keys }
        ensures { OnOk result (rows.new ≡ record rows.old { begun = rows.old.begun ++ slice_index_or self.now.partials place [] }) }
    {
        self.groups[place].put_part(rows)
    }

    /// Appends the row of a group.
    fn put_result(&self, place: usize, rows: &mut ColumnRows) -> Result<(), EvalFault>
        requires within { place < length self.now.keys }
        requires whole { rows.old.begun ≡ [] }
        ensures { MatchResult result
            (λ _. IsPut rows.old rows.new (verdict_at self.now place)) (GroupFailsBy (verdict_at self.now place)) }
    {
        match self.groups[place].result() {
            Ok(results) => Ok(self.put_group(rows, place, &results)?),
            Err(fault) => Err(fault),
        }
    }

    /// Appends a row: the values of the key at a place, and then the results.
    fn put_group(&self, rows: &mut ColumnRows, place: usize, results: &Row) -> Result<(), Memory>
        requires within { place < length self.now.keys }
        requires whole { rows.old.begun ≡ [] }
        ensures { OnOk result (rows.new ≡ record rows.old {
          rows = rows.old.rows ++ (slice_index_or self.now.keys place [] ++ results.now) ∷ [];
        }) }
    {
        self.put_key(rows, place)?;
        put_all(rows, results.as_slice())?;
        if rows.end_row() { Ok(()) } else { Err(Memory) }
    }

    fn put_key(&self, rows: &mut ColumnRows, place: usize) -> Result<(), Memory>
        requires { place < length self.now.keys }
        ensures { OnOk result (rows.new ≡ record rows.old { begun = rows.old.begun ++ slice_index_or self.now.keys place [] }) }
    {
        for column in 0..first_behind(self.columns.len())? {
            if !rows.put(self.index.cell(place, column))? {
                return Err(Memory);
            }
        }
        Ok(())
    }
}

/// The column behind so many, which are at most 2^31.
pub fn first_behind(width: usize) -> Result<u32, Memory>
    ensures { IfOk result (λ n. (n ≡ width) × (n ≤ 2 ^ 31)) }
{
    if width <= 2_147_483_648 {
        Ok(width as u32)
    } else {
        Err(Memory)
    }
}

fn put_all(rows: &mut ColumnRows, values: &[Value]) -> Result<(), Memory>
    ensures { OnOk result (rows.new ≡ record rows.old { begun = rows.old.begun ++ values.now }) }
{
    for value in values {
        if !rows.put(value.as_ref())? {
            return Err(Memory);
        }
    }
    Ok(())
}
