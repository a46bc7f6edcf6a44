ghost use Rattle.std.specs.Prelude.{◌≡◌, ◌<◌, ◌≤◌, ◌↔◌, ℕ, List, [], ◌++◌, length, map, true, false, Contains, Err, Ok, None, IfOk, IsTrue, OnErr, OnOk};
ghost use Rattle.sql_values.specs.declared.fail.Fail.{Fail as Kind};
ghost use Rattle.col_pages.specs.Pages.{most_rows};
ghost use Rattle.relation_laws.specs.Verdicts.{fails};
ghost use Rattle.operator_core.specs.Rows.{Row};
ghost use Rattle.operator_core.specs.Answers.{NotMemory, gave, IsFit};
ghost use Rattle.accumulators.specs.Limits.{are_allowed};
ghost use Rattle.aggregation.specs.Alike.{TellAlike, held_row, part_rows};
ghost use Rattle.aggregation.specs.Giving.{AreForgotten, GroupsFail, GroupsGive, IsAsBefore, IsBegun, IsGiven, has_more, is_over, no_groups, parts_with, verdicts_with};
ghost use Rattle.aggregation.specs.Tables.{held_in};

use crate::left::LeftRows;
use crate::table::GroupTable;
use col_pages::Page;
use operator_core::OpFault;
use sql_values::{Call, ColumnRows, EvalFault, Memory, SqlType};
use std::alloc::Global;
use std::marker::Model;

/// The groups of rows and, once their output has begun, the rows that are left to give.
#[derive(Drop)]
pub struct GroupRows {
    table: GroupTable,
    left: LeftRows,
    has_begun: bool,
}

impl Model for GroupRows {
    ghost use Rattle.std.specs.Prelude.{◌<◌, length};
    ghost use Rattle.aggregation.specs.Giving.{GroupsState};

    ghost Value = { GroupsState };

    ghost view = { λ g. record {
      table = g.table;
      left = g.left;
      begun = g.has_begun;
    } };

    ghost invariant = { λ g. 0 < length g.left.types };
}

impl GroupRows {
    /// The groups by these columns of rows of some types, which give rows of the types `given`.
    pub fn new(
        alloc: Global,
        columns: Vec<u32>,
        calls: Vec<Call>,
        types: Vec<SqlType>,
        given: &[SqlType],
        page: u32,
    ) -> Result<GroupRows, Memory>
        requires allowed { IsTrue (are_allowed types.items calls.items) }
        requires some { 0 < length given.now }
        requires page { (0 < page) × (page ≤ most_rows) }
        ensures { IfOk result (λ g. g ≡ no_groups columns.items calls.items types.items given.now page) }
    {
        let table = GroupTable::new(alloc, columns, calls, types)?;
        let left = LeftRows::new(alloc, ColumnRows::new(alloc, given)?, page);
        Ok(GroupRows {
            table,
            left,
            has_begun: false,
        })
    }

    /// The types of the rows that they take.
    pub fn types(&self) -> &[SqlType]
        ensures { result.now ≡ self.now.table.types }
    {
        self.table.types()
    }

    /// Takes the rows of a page.
    pub fn add_page(&mut self, page: &Page) -> Result<(), Memory>
        ensures same { record self.new {
          table = record self.new.table { keys = self.old.table.keys; partials = self.old.table.partials };
        } ≡ self.old }
        ensures ok { OnOk result (TellAlike (length self.old.table.columns) self.old.table.calls (held_in self.new.table)
            (held_in self.old.table ++ part_rows self.old.table.columns self.old.table.calls page.now.rows)) }
    {
        self.table.add_page(page)
    }

    /// Takes the partial rows that the rows of a page have behind their keys.
    pub fn merge_page(&mut self, page: &Page) -> Result<(), Memory>
        ensures same { record self.new {
          table = record self.new.table { keys = self.old.table.keys; partials = self.old.table.partials };
        } ≡ self.old }
        ensures ok { OnOk result (TellAlike (length self.old.table.columns) self.old.table.calls (held_in self.new.table)
            (held_in self.old.table ++ map (held_row self.old.table.columns) page.now.rows)) }
    {
        self.table.merge_page(page)
    }

    /// Whether there are rows left or, before the output has begun, a group.
    pub fn has_more(&self) -> bool
        ensures whole { result ≡ has_more self.now.begun self.now.left.rows (verdicts_with self.now.table []) }
        ensures parts { result ≡ has_more self.now.begun self.now.left.rows (parts_with self.now.table []) }
    {
        if self.has_begun {
            return self.left.holds_row();
        }
        self.table.has_group()
    }

    /// Makes the rows of the results, unless rows were made before, and then forgets the groups.
    fn begin_results(&mut self) -> Result<(), EvalFault>
        ensures same { OnOk result (self.new ≡ record self.old {
          table = self.new.table;
          begun = true;
          left = record self.old.left { rows = self.new.left.rows };
        }) }
        ensures table { OnOk result (record self.new.table {
          keys = self.old.table.keys;
          partials = self.old.table.partials;
        } ≡ self.old.table) }
        ensures forgot { OnOk result (AreForgotten self.old.begun self.old.table self.new.table) }
        ensures begun { OnOk result
            (IsBegun self.old.begun (verdicts_with self.old.table []) self.old.left.rows self.new.left.rows) }
        ensures err { OnErr result (self.new ≡ self.old) }
        ensures fault { (kind : Kind) → result ≡ Err (EvalFault.Fail kind)
            → (self.old.begun ≡ false) × Contains (verdicts_with self.old.table []) (fails kind) }
    {
        if self.has_begun {
            return Ok(());
        }
        self.table.groups_are_told();
        match self.table.results(self.left.types()) {
            Ok(rows) => {
                self.table.forget()?;
                self.left.fill(rows);
                self.has_begun = true;
                Ok(())
            }
            Err(fault) => Err(fault),
        }
    }

    /// Makes the rows of the keys and partial rows, unless rows were made before, and then forgets the groups.
    fn begin_parts(&mut self) -> Result<(), Memory>
        ensures same { OnOk result (self.new ≡ record self.old {
          table = self.new.table;
          begun = true;
          left = record self.old.left { rows = self.new.left.rows };
        }) }
        ensures table { OnOk result (record self.new.table {
          keys = self.old.table.keys;
          partials = self.old.table.partials;
        } ≡ self.old.table) }
        ensures forgot { OnOk result (AreForgotten self.old.begun self.old.table self.new.table) }
        ensures begun { OnOk result
            (IsBegun self.old.begun (parts_with self.old.table []) self.old.left.rows self.new.left.rows) }
        ensures err { OnErr result (self.new ≡ self.old) }
    {
        if self.has_begun {
            return Ok(());
        }
        let rows = self.table.parts(self.left.types())?;
        self.table.forget()?;
        self.left.fill(rows);
        self.has_begun = true;
        Ok(())
    }

    /// Gives the next page of the rows that are left, if there is one.
    fn give(&mut self) -> Result<Option<Page>, Memory>
        requires { self.old.begun ≡ true }
        ensures same { self.new ≡ record self.old { left = record self.old.left { rows = self.new.left.rows } } }
        ensures page { IfOk result (λ o. IsGiven self.old.left o self.new.left) }
        ensures done { self.old.left.rows ≡ [] → self.new.left.rows ≡ [] }
        ensures err { OnErr result (self.new ≡ self.old) }
    {
        if !self.left.holds_row() {
            return Ok(None);
        }
        Ok(Some(self.left.next_page()?))
    }

    /// Gives the next page of the results, where there is one. A group that fails does so at the node.
    pub fn give_results(&mut self, node: u32) -> Result<Option<Page>, OpFault>
        ensures same { IsAsBefore self.old self.new }
        ensures gives { NotMemory result → (B : List Row)
            → GroupsGive self.new.begun self.new.left.rows (verdicts_with self.new.table []) B
            → GroupsGive self.old.begun self.old.left.rows (verdicts_with self.old.table []) (gave result ++ B) }
        ensures fails { NotMemory result → (n : ℕ) (kind : Kind)
            → GroupsFail self.new.begun node (verdicts_with self.new.table []) n kind
            ↔ GroupsFail self.old.begun node (verdicts_with self.old.table []) n kind }
        ensures fault { (n : ℕ) (kind : Kind) → result ≡ Err (OpFault.Expr n kind)
            → GroupsFail self.old.begun node (verdicts_with self.old.table []) n kind }
        ensures none { NotMemory result → (result ≡ Ok None)
            ↔ (is_over self.old (verdicts_with self.old.table []) ≡ true) }
        ensures size { IsFit result self.old.left.page }
        ensures done { is_over self.old (verdicts_with self.old.table []) ≡ true
            → is_over self.new (verdicts_with self.new.table []) ≡ true }
    {
        match self.begin_results() {
            Ok(()) => Ok(self.give()?),
            Err(EvalFault::Fail(kind)) => Err(OpFault::Expr { node, kind }),
            Err(EvalFault::Memory) => Err(OpFault::Memory),
        }
    }

    /// Gives the next page of the keys and partial rows, where there is one.
    pub fn give_parts(&mut self) -> Result<Option<Page>, Memory>
        ensures same { IsAsBefore self.old self.new }
        ensures gives { IfOk result (λ page. (B : List Row)
            → GroupsGive self.new.begun self.new.left.rows (parts_with self.new.table []) B
            → GroupsGive self.old.begun self.old.left.rows (parts_with self.old.table []) (gave (Ok page) ++ B)) }
        ensures none { IfOk result (λ page. (page ≡ None)
            ↔ (is_over self.old (parts_with self.old.table []) ≡ true)) }
        ensures size { IfOk result (λ page. IsFit (Ok page) self.old.left.page) }
        ensures done { is_over self.old (parts_with self.old.table []) ≡ true
            → is_over self.new (parts_with self.new.table []) ≡ true }
    {
        self.begin_parts()?;
        Ok(self.give()?)
    }
}
