ghost use Rattle.std.specs.Prelude.{◌≡◌};

use sql_exprs::Expr;
use std::marker::Model;

/// A predicate, where there is one, and columns.
#[derive(Drop)]
pub(crate) struct Expressions {
    pub(crate) predicate: Option<Expr>,
    pub(crate) columns: Vec<Expr>,
}

impl Model for Expressions {
    ghost use Rattle.std.specs.Coded.{codes};
    ghost use Rattle.sql_exprs.specs.contracts.expr.Expr as e;
    ghost use Rattle.row_ops.specs.Expressions.{ExpressionLists};

    ghost Value = { ExpressionLists };

    ghost coded = { Prim.hlevel (codes, e.the_row.coded) };

    ghost view = { λ s. record { predicate = s.predicate; columns = s.columns.items } };
}

/// The same, in a form that may go to another thread. An expression refers to itself, and of such a type the prover finds
/// that it may only by unfolding it wherever that is asked; of this form it is proved once.
#[derive(Drop)]
pub(crate) struct SendExpressions {
    expressions: Expressions,
}

impl Model for SendExpressions {
    ghost use Rattle.std.specs.Borrow.{ftrue};
    ghost use Rattle.std.specs.Coded.{codes};
    ghost use Rattle.sql_exprs.specs.contracts.expr.Expr as e;
    ghost use Rattle.row_ops.specs.Expressions.{ExpressionLists};

    ghost Value = { ExpressionLists };

    ghost coded = { Prim.hlevel (codes, e.the_row.coded) };

    ghost view = { λ s. s.expressions };

    ghost also_owns = { λ _. ftrue };

    ghost also_shares = { λ _ _ _. ftrue };
}

// It owns its fields alone.
unsafe impl Send for SendExpressions {}

impl SendExpressions {
    pub(crate) fn new(expressions: Expressions) -> SendExpressions
        ensures { result ≡ expressions }
    {
        SendExpressions { expressions }
    }

    pub(crate) fn predicate(&self) -> &Option<Expr>
        ensures { result.now ≡ self.now.predicate }
    {
        &self.expressions.predicate
    }

    pub(crate) fn columns(&self) -> &[Expr]
        ensures { result.now ≡ self.now.columns }
    {
        &self.expressions.columns
    }
}
