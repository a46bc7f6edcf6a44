ghost use Rattle.std.specs.Prelude.{◌≡◌, ◌<◌, ◌≤◌, ◌↔◌, ℕ, List, [], Some, None, true, false, length, map, option_map};
ghost use Rattle.std.specs.Prelude.{MatchOption};
ghost use Rattle.sql_values.specs.declared.fail.Fail.{Fail as Kind};
ghost use Rattle.col_pages.specs.Pages.{TypedPage, most_rows};
ghost use Rattle.operator_core.specs.Rows.{Row};
ghost use Rattle.operator_core.specs.Calls.{IsFresh};
ghost use Rattle.operator_core.specs.Samples.{has_row};
ghost use Rattle.page_processor.specs.Judged.{first_failure, rows_before};
ghost use Rattle.sql_exprs.specs.Forms.{form_view};
ghost use Rattle.col_pages.specs.Fits.{IsOfTypes};
ghost use Rattle.row_ops.specs.RowJudges.{AreTyped, row_judge};
ghost use Rattle.row_ops.specs.RowsHeld.{rows_held};

use crate::expressions::{Expressions, SendExpressions};
use crate::judge_page::judge_page;
use blocked::{Bells, BlockedOn};
use col_pages::Page;
use operator_core::{OpFault, Operator};
use sql_exprs::Expr;
use sql_values::{Fail, Memory, SqlType};
use std::alloc::Global;
use std::marker::Model;
use std::sync::Wait;
use std::thread::Threads;

/// Keeps the rows on which the predicate is TRUE, and gives the columns' values. The predicate is typed, and not
/// necessarily boolean: no other value than TRUE keeps a row.
#[derive(Drop)]
pub struct FilterProject {
    alloc: Global,
    node: u32,
    types: Vec<SqlType>,
    expressions: SendExpressions,
    held: Option<Page>,
    /// That of the first row that failed. No row after it is judged.
    failure: Option<Fail>,
    is_told: bool,
}

impl Model for FilterProject {
    ghost use Rattle.row_ops.specs.RowsHeld.{FilterState};

    ghost Value = { FilterState };

    ghost use Rattle.sql_exprs.specs.contracts.expr.Expr as e;
    ghost use Rattle.std.specs.Coded.{codes};

    ghost coded = { Prim.hlevel (codes, e.the_row.coded) };

    ghost use Rattle.std.specs.Prelude.{map, option_map};
    ghost use Rattle.sql_exprs.specs.Forms.{form_view};
    ghost use Rattle.row_ops.specs.RowJudges.{AreTyped};

    ghost view = { λ s. record { node = s.node; types = s.types.items; predicate = s.expressions.predicate; columns = s.expressions.columns; held = s.held; failure = s.failure; is_told = s.is_told } };

    ghost invariant = { λ s. AreTyped s.types.items (option_map form_view s.expressions.predicate)
        (map form_view s.expressions.columns) };
}

impl FilterProject {
    /// That of a node, over input of these types. With no predicate all rows are kept.
    pub fn new(
        alloc: Global,
        node: u32,
        types: Vec<SqlType>,
        predicate: Option<Expr>,
        columns: Vec<Expr>,
    ) -> FilterProject
        requires { AreTyped types.items (option_map form_view predicate)
            (map form_view columns.items) }
        ensures fresh { IsFresh ⟦<FilterProject as Operator>⟧ result }
        ensures gives { (X B : List Row) → ⟦<FilterProject as Operator>⟧.may_give result X B
            ↔ (B ≡ rows_before (row_judge types.items (option_map form_view predicate)
            (map form_view columns.items)) X) }
        ensures fails { (X : List Row) (at : ℕ) (kind : Kind)
            → ⟦<FilterProject as Operator>⟧.may_still_fail result X at kind ↔ ((at ≡ node)
            × (first_failure (row_judge types.items (option_map form_view predicate)
            (map form_view columns.items)) X ≡ Some kind)) }
        ensures takes { (page : TypedPage) → ⟦<FilterProject as Operator>⟧.takes result page
            ↔ IsOfTypes types.items page }
        ensures open { (⟦<FilterProject as Operator>⟧.is_full result ≡ false)
            × (⟦<FilterProject as Operator>⟧.page_size result ≡ most_rows) }
        ensures late { ⟦<FilterProject as Operator>⟧.gives_late result ≡ false }
        ensures waits { ⟦<FilterProject as Operator>⟧.waits result ≡ false }
        ensures knows { ⟦<FilterProject as Operator>⟧.knows result ≡ true }
        ensures learns { (m : _) → ⟦<FilterProject as Operator>⟧.may_learn result m → ⊥ }
    {
        FilterProject {
            alloc,
            node,
            types,
            expressions: SendExpressions::new(Expressions { predicate, columns }),
            held: None,
            failure: None,
            is_told: false,
        }
    }

    /// The types of its input.
    pub fn types(&self) -> &[SqlType]
        ensures { result.now ≡ self.now.types }
    {
        self.types.as_slice()
    }

    fn fault(&self, kind: Fail) -> OpFault
        ensures { result ≡ OpFault.Expr self.now.node kind }
    {
        OpFault::Expr {
            node: self.node,
            kind,
        }
    }

    fn holds_row(&self) -> bool
        ensures { result ≡ has_row (rows_held self.now.held) }
    {
        match &self.held {
            Some(page) => !page.is_empty(),
            None => false,
        }
    }

    /// Takes the page in hand, if it has a row.
    fn take_held(&mut self) -> Option<Page>
        ensures same { self.new ≡ record self.old { held = None } }
        ensures page { MatchOption result (rows_held self.old.held ≡ [])
            (λ page. (self.old.held ≡ Some page) × (0 < length page.rows)
            × (length page.rows ≤ most_rows)) }
    {
        let page = self.held.take()?;
        if page.len() == 0 {
            return None;
        }
        Some(page)
    }
}

impl Operator for FilterProject {
    ghost use Rattle.std.specs.Prelude.{◌≡◌, [], None, true, false, not, ◌&&◌, ◌||◌, is_some, map, refl};
    ghost use Rattle.sql_exprs.specs.Forms.{form_view};
    ghost use Rattle.col_pages.specs.Pages.{most_rows};
    ghost use Rattle.operator_core.specs.LawGroups.{never_full, no_note};
    ghost use Rattle.operator_core.specs.Samples.{has_row};
    ghost use Rattle.operator_core.specs.SampleLaws.{needs-untold, needs-open};
    ghost use Rattle.col_pages.specs.Fits.{IsOfTypes};
    ghost use Rattle.row_ops.specs.RowsHeld.{rows_held, judge_in, FilterGives, FilterFails};
    ghost use Rattle.row_ops.specs.RowLaws.{filter-rest, filter-finished};

    ghost may_give = { λ s X B. FilterGives (judge_in s)
        s.held s.failure X B };

    ghost may_still_fail = { λ s X node kind.
        FilterFails (judge_in s)
        s.node s.failure X node kind };

    ghost takes = { λ s page. IsOfTypes s.types page };

    ghost page_size = { λ _. most_rows };

    ghost gives_late = { λ _. false };

    ghost needs_input = { λ s. not (s.is_told || has_row (rows_held s.held)) };

    ghost holds_row = { λ s. has_row (rows_held s.held) };

    ghost is_told = { λ s. s.is_told };

    ghost is_finished = { λ s.
        s.is_told && not (is_some s.failure || has_row (rows_held s.held)) };

    ghost as_made = { λ s. record s { held = None; failure = None; is_told = false } };

    fn needs_input(&self) -> bool {
        !(self.is_told || self.holds_row())
    }

    fn add_input(&mut self, page: Page) -> Result<(), OpFault> {
        if let Some(kind) = self.failure {
            return Err(self.fault(kind));
        }
        let judged = judge_page(
            self.alloc,
            self.expressions.predicate(),
            self.expressions.columns(),
            page,
        )?;
        self.held = Some(judged.page);
        self.failure = judged.failure;
        match judged.failure {
            None => Ok(()),
            Some(kind) => Err(self.fault(kind)),
        }
    }

    fn get_output(&mut self) -> Result<Option<Page>, OpFault> {
        match self.take_held() {
            Some(page) => Ok(Some(page)),
            None => match self.failure {
                Some(kind) if self.is_told => Err(self.fault(kind)),
                _ => Ok(None),
            },
        }
    }

    fn finish(&mut self) {
        self.is_told = true;
    }

    fn is_finished(&self) -> bool {
        self.is_told && !(self.failure.is_some() || self.holds_row())
    }

    fn blocked<R: Threads + Wait + Sync, B: Bells>(
        &mut self,
        _rt: &R,
        _bells: &mut B,
    ) -> Result<Option<BlockedOn>, Memory> {
        Ok(None)
    }

    ghost some_rows = { λ s X coming. (_, refl) };

    ghost holds_rest = { λ s B _ e. filter-rest s.failure (rows_held s.held) B e };

    ghost late_holds_none = { λ s late told. Prim.cc };

    ghost finished = { λ s. filter-finished s.is_told s.failure (rows_held s.held) s.node };

    ghost needs_untold = { λ s. needs-untold s.is_told (has_row (rows_held s.held)) };

    ghost full = { never_full };

    ghost needs = { λ s told held _ _.
        needs-open s.is_told (has_row (rows_held s.held)) told held };

    ghost made_untold = { λ s. refl };

    ghost made_again = { λ s. refl };

    ghost note = { no_note };
}
