ghost use Rattle.std.specs.Prelude.{◌≡◌, [], ◌∷◌, ◌++◌, slice_get, MatchResult};
ghost use Rattle.std.specs.Option.{ok_or};
ghost use Rattle.std.specs.List.{list_all};
ghost use Rattle.sql_functions.specs.CallTypes.{type_at};
ghost use Rattle.sql_exprs.specs.Forms.{form_view};
ghost use Rattle.sql_exprs.specs.Typing.{MisfitAt, RefusedFor, StandsAt, all_branch_types, arg_types, branch_type, call_row, case_row, cast_row, entry, fits_branch, form_type, literal_row, typed_then, under};

use crate::expr::{Branch, Expr};
use crate::literal::is_value_of;
use json_paths::{Key, Step, pointer_of, then};
use sql_functions::{CallName, call_type, can_cast, same_type, takes_types};
use sql_values::{Memory, SqlType, Text, Value};
use std::alloc::{AllocError, AllocFailed, Global};
use thiserror::Error;

/// Why an expression has no type.
#[derive(Debug, Drop, Error)]
pub enum TypeFault {
    /// The path of the first subexpression that breaks the table of calls and casts, as a JSON
    /// Pointer from the expression.
    #[error("an expression does not fit the types")]
    Refused(Text),
    #[error("out of memory")]
    Memory,
}

impl From<Memory> for TypeFault {
    ghost use Rattle.sql_exprs.specs.declared.typing.TypeFault.TheVariants as fault;
    ghost use Rattle.std.specs.Prelude.{◌≡◌};

    ghost from_gives = { λ _ e. e ≡ fault.Memory };

    fn from(_: Memory) -> TypeFault {
        TypeFault::Memory
    }
}

/// The first subexpression that does not fit, by its path.
#[derive(Drop)]
pub enum Misfit {
    At(Vec<Step>),
    Memory,
}

impl From<Memory> for Misfit {
    ghost use Rattle.sql_exprs.specs.declared.typing.Misfit.TheVariants as misfit;
    ghost use Rattle.std.specs.Prelude.{◌≡◌};

    ghost from_gives = { λ _ e. e ≡ misfit.Memory };

    fn from(_: Memory) -> Misfit {
        Misfit::Memory
    }
}

impl From<AllocError> for Misfit {
    ghost use Rattle.sql_exprs.specs.declared.typing.Misfit.TheVariants as misfit;
    ghost use Rattle.std.specs.Prelude.{◌≡◌};

    ghost from_gives = { λ _ e. e ≡ misfit.Memory };

    fn from(_: AllocError) -> Misfit {
        Misfit::Memory
    }
}

impl<T: Drop> From<AllocFailed<T>> for Misfit {
    ghost use Rattle.sql_exprs.specs.declared.typing.Misfit.TheVariants as misfit;
    ghost use Rattle.std.specs.Prelude.{◌≡◌};

    ghost from_gives = { λ _ e. e ≡ misfit.Memory };

    fn from(_: AllocFailed<T>) -> Misfit {
        Misfit::Memory
    }
}

/// The types of a branch.
#[derive(Clone, Copy)]
pub struct BranchType {
    pub test: SqlType,
    pub result: SqlType,
}

/// The type of an expression over columns of these types.
pub fn typed(alloc: Global, expr: &Expr, columns: &[SqlType]) -> Result<SqlType, TypeFault>
    ensures { MatchResult result
        (λ t. form_type columns.now [] (form_view expr.now) ≡ Ok t)
        (RefusedFor (form_type columns.now [] (form_view expr.now))) }
{
    match type_at(alloc, columns, &[], expr) {
        Ok(kind) => Ok(kind),
        Err(Misfit::At(path)) => Err(TypeFault::Refused(pointer_of(alloc, path.as_slice())?)),
        Err(Misfit::Memory) => Err(TypeFault::Memory),
    }
}

/// The type of an expression that stands at a path. The path of what does not fit begins with it.
#[cycle(typing)]
pub fn type_at(
    alloc: Global,
    columns: &[SqlType],
    path: &[Step],
    expr: &Expr,
) -> Result<SqlType, Misfit>
    ensures { MatchResult result
        (λ t. form_type columns.now path.now (form_view expr.now) ≡ Ok t)
        (MisfitAt (form_type columns.now path.now (form_view expr.now))) }
{
    match expr {
        Expr::Column(column) => column_type(alloc, columns, path, *column as usize),
        Expr::Literal { kind, value } => literal_row(alloc, path, *kind, value),
        Expr::Null(kind) => Ok(*kind),
        Expr::Call { name, args } => type_call(alloc, columns, path, *name, args.as_slice()),
        Expr::Cast { arg, kind } => type_cast(alloc, columns, path, arg, *kind),
        Expr::Case { branches, other } => {
            let types = case_types(alloc, columns, path, branches.as_slice())?;
            let other = type_inside(alloc, columns, path, Step::Key(Key::Else), other)?;
            case_row(alloc, path, types.as_slice(), other)
        }
    }
}

/// The type of an expression that stands one step further.
#[cycle(typing)]
fn type_inside(
    alloc: Global,
    columns: &[SqlType],
    path: &[Step],
    step: Step,
    expr: &Expr,
) -> Result<SqlType, Misfit>
    ensures { MatchResult result
        (λ t. form_type columns.now (path.now ++ step ∷ []) (form_view expr.now) ≡ Ok t)
        (MisfitAt (form_type columns.now (path.now ++ step ∷ []) (form_view expr.now))) }
{
    let inner = then(alloc, path, step)?;
    type_at(alloc, columns, inner.as_slice(), expr)
}

#[cycle(typing)]
fn type_call(
    alloc: Global,
    columns: &[SqlType],
    path: &[Step],
    name: CallName,
    args: &[Expr],
) -> Result<SqlType, Misfit>
    ensures { MatchResult result
        (λ t. typed_then (arg_types columns.now (under path.now Key.Args) 0 args.now)
        (call_row path.now name) ≡ Ok t)
        (MisfitAt (typed_then (arg_types columns.now (under path.now Key.Args) 0 args.now)
        (call_row path.now name))) }
{
    let kinds = call_types(alloc, columns, path, args)?;
    call_row(alloc, path, name, kinds.as_slice())
}

#[cycle(typing)]
fn call_types(
    alloc: Global,
    columns: &[SqlType],
    path: &[Step],
    args: &[Expr],
) -> Result<Vec<SqlType>, Misfit>
    ensures { MatchResult result
        (λ ts. arg_types columns.now (under path.now Key.Args) 0 args.now ≡ Ok ts.items)
        (MisfitAt (arg_types columns.now (under path.now Key.Args) 0 args.now)) }
{
    let inner = then(alloc, path, Step::Key(Key::Args))?;
    arg_types(alloc, columns, inner.as_slice(), args)
}

#[cycle(typing)]
fn arg_types(
    alloc: Global,
    columns: &[SqlType],
    path: &[Step],
    args: &[Expr],
) -> Result<Vec<SqlType>, Misfit>
    ensures { MatchResult result
        (λ ts. arg_types columns.now path.now 0 args.now ≡ Ok ts.items)
        (MisfitAt (arg_types columns.now path.now 0 args.now)) }
{
    let mut kinds = Vec::with_capacity(alloc, args.len())?;
    for (at, arg) in args.iter().enumerate() {
        kinds.push(type_inside(alloc, columns, path, Step::Index(at), arg)?)?;
    }
    Ok(kinds)
}

#[cycle(typing)]
fn type_cast(
    alloc: Global,
    columns: &[SqlType],
    path: &[Step],
    arg: &Expr,
    kind: SqlType,
) -> Result<SqlType, Misfit>
    ensures { MatchResult result
        (λ t. typed_then (form_type columns.now (under path.now Key.Cast) (form_view arg.now))
        (λ from. cast_row path.now from kind) ≡ Ok t)
        (MisfitAt (typed_then (form_type columns.now (under path.now Key.Cast) (form_view arg.now))
        (λ from. cast_row path.now from kind))) }
{
    let from = type_inside(alloc, columns, path, Step::Key(Key::Cast), arg)?;
    cast_row(alloc, path, from, kind)
}

#[cycle(typing)]
fn case_types(
    alloc: Global,
    columns: &[SqlType],
    path: &[Step],
    branches: &[Branch],
) -> Result<Vec<BranchType>, Misfit>
    ensures { MatchResult result
        (λ ts. all_branch_types columns.now (under path.now Key.Case) 0 branches.now
        ≡ Ok ts.items)
        (MisfitAt (all_branch_types columns.now (under path.now Key.Case) 0 branches.now)) }
{
    let inner = then(alloc, path, Step::Key(Key::Case))?;
    branch_types(alloc, columns, inner.as_slice(), branches)
}

#[tactic(auto, using(crate::proofs::TypingLemmas::both_then))]
#[cycle(typing)]
fn branch_types(
    alloc: Global,
    columns: &[SqlType],
    path: &[Step],
    branches: &[Branch],
) -> Result<Vec<BranchType>, Misfit>
    ensures { MatchResult result
        (λ ts. all_branch_types columns.now path.now 0 branches.now ≡ Ok ts.items)
        (MisfitAt (all_branch_types columns.now path.now 0 branches.now)) }
{
    let mut types = Vec::with_capacity(alloc, branches.len())?;
    for (at, branch) in branches.iter().enumerate() {
        types.push(branch_inside(alloc, columns, path, at, branch)?)?;
    }
    Ok(types)
}

/// The types of the branch that stands at an index.
#[cycle(typing)]
fn branch_inside(
    alloc: Global,
    columns: &[SqlType],
    path: &[Step],
    at: usize,
    branch: &Branch,
) -> Result<BranchType, Misfit>
    ensures { MatchResult result
        (λ t. branch_type columns.now (entry path.now at) branch.now ≡ Ok t)
        (MisfitAt (branch_type columns.now (entry path.now at) branch.now)) }
{
    let inner = then(alloc, path, Step::Index(at))?;
    branch_type(alloc, columns, inner.as_slice(), branch)
}

#[cycle(typing)]
fn branch_type(
    alloc: Global,
    columns: &[SqlType],
    path: &[Step],
    branch: &Branch,
) -> Result<BranchType, Misfit>
    ensures { MatchResult result
        (λ t. branch_type columns.now path.now branch.now ≡ Ok t)
        (MisfitAt (branch_type columns.now path.now branch.now)) }
{
    let test = type_inside(alloc, columns, path, Step::Key(Key::When), &branch.test)?;
    let result = type_inside(alloc, columns, path, Step::Key(Key::Then), &branch.result)?;
    Ok(BranchType { test, result })
}

/// The fault at a path.
fn refused_at(alloc: Global, path: &[Step]) -> Misfit
    ensures { StandsAt path.now result }
{
    let mut steps = Vec::new(alloc);
    match steps.extend_from_slice(path) {
        Ok(()) => Misfit::At(steps),
        Err(_) => Misfit::Memory,
    }
}

fn column_type(
    alloc: Global,
    columns: &[SqlType],
    path: &[Step],
    at: usize,
) -> Result<SqlType, Misfit>
    ensures { MatchResult result
        (λ t. ok_or (slice_get columns.now at) path.now ≡ Ok t)
        (MisfitAt (ok_or (slice_get columns.now at) path.now)) }
{
    match columns.get(at) {
        Some(kind) => Ok(*kind),
        None => Err(refused_at(alloc, path)),
    }
}

fn literal_row(
    alloc: Global,
    path: &[Step],
    kind: SqlType,
    value: &Value,
) -> Result<SqlType, Misfit>
    ensures { MatchResult result
        (λ t. literal_row path.now kind value.now ≡ Ok t)
        (MisfitAt (literal_row path.now kind value.now)) }
{
    if !is_value_of(kind, value) {
        let inner = then(alloc, path, Step::Key(Key::Lit))?;
        return Err(Misfit::At(inner));
    }
    Ok(kind)
}

fn call_row(
    alloc: Global,
    path: &[Step],
    name: CallName,
    kinds: &[SqlType],
) -> Result<SqlType, Misfit>
    ensures { MatchResult result
        (λ t. call_row path.now name kinds.now ≡ Ok t)
        (MisfitAt (call_row path.now name kinds.now)) }
{
    if !takes_types(name, kinds) {
        return Err(refused_at(alloc, path));
    }
    Ok(call_type(name, type_in(kinds, 0), type_in(kinds, 1)))
}

/// The type at a place of a list: boolean where there is none.
fn type_in(kinds: &[SqlType], at: usize) -> SqlType
    ensures { result ≡ type_at kinds.now at }
{
    match kinds.get(at) {
        Some(kind) => *kind,
        None => SqlType::Boolean,
    }
}

fn cast_row(alloc: Global, path: &[Step], from: SqlType, to: SqlType) -> Result<SqlType, Misfit>
    ensures { MatchResult result
        (λ t. cast_row path.now from to ≡ Ok t)
        (MisfitAt (cast_row path.now from to)) }
{
    if !can_cast(from, to) {
        return Err(refused_at(alloc, path));
    }
    Ok(to)
}

fn fits_branch(other: SqlType, branch: BranchType) -> bool
    ensures { result ≡ fits_branch other branch }
{
    branch.test == SqlType::Boolean && same_type(branch.result, other)
}

fn all_fit(other: SqlType, branches: &[BranchType]) -> bool
    ensures { result ≡ list_all (fits_branch other) branches.now }
{
    for branch in branches {
        if !fits_branch(other, *branch) {
            return false;
        }
    }
    true
}

fn case_row(
    alloc: Global,
    path: &[Step],
    branches: &[BranchType],
    other: SqlType,
) -> Result<SqlType, Misfit>
    ensures { MatchResult result
        (λ t. case_row path.now branches.now other ≡ Ok t)
        (MisfitAt (case_row path.now branches.now other)) }
{
    if !all_fit(other, branches) {
        return Err(refused_at(alloc, path));
    }
    Ok(other)
}
