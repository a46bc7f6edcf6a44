ghost use Rattle.std.specs.Prelude.{◌≡◌, ◌++◌, [], true, false, IfOk, OnErr, MatchOption};
ghost use Rattle.relation_laws.specs.Sorts.{IsBeginning};

use col_pages::Page;
use operator_core::Operator;
use row_ops::ValuesOp;
use sql_values::Memory;
use std::marker::Model;

/// Gives rows of its own.
#[derive(Drop)]
pub struct RowsSource {
    op: ValuesOp,
    is_ended: bool,
}

impl Model for RowsSource {
    ghost use Rattle.driver_loop.specs.RowsSources.{RowsState};

    ghost Value = { RowsState };

    ghost use Rattle.driver_loop.specs.InRowsSource.{rows_view, IsRows};

    ghost view = { rows_view };

    ghost invariant = { IsRows };
}

impl RowsSource {
    /// All rows of an operator that has given none.
    pub fn new(op: ValuesOp) -> RowsSource
        requires { op.given ≡ 0 }
        ensures { result ≡ record { rows = op.rows; given = []; is_ended = false } }
    {
        RowsSource {
            op,
            is_ended: false,
        }
    }

    /// Whether no row is left, as a call of `next` answered.
    pub fn is_ended(&self) -> bool
        ensures value { result ≡ self.now.is_ended }
        ensures over { result ≡ true → self.now.given ≡ self.now.rows }
        ensures begun { IsBeginning self.now.given self.now.rows }
    {
        self.is_ended
    }

    /// The next page, or none where no row is left.
    pub fn next(&mut self) -> Result<Option<Page>, Memory>
        ensures rows { self.new.rows ≡ self.old.rows }
        ensures page { IfOk result (λ o. MatchOption o
            ((self.new.given ≡ self.old.given) × (self.new.is_ended ≡ true))
            (λ page. (self.new.given ≡ self.old.given ++ page.rows)
            × (self.new.is_ended ≡ self.old.is_ended))) }
    {
        if self.is_ended {
            return Ok(None);
        }
        match self.op.get_output() {
            Ok(Some(page)) => Ok(Some(page)),
            Ok(None) => {
                self.is_ended = true;
                Ok(None)
            }
            Err(_) => Err(Memory),
        }
    }
}
