mod cases;

use crate::lines::{case_of, unquoted};
use cases::{HALVES, ROOTS, SCAN, TWO, WHOLE};
use json_paths::{Step, pointer_of};
use plan_docs::{Plan, read_plan_doc};
use plan_types::{RowTypes, type_plan};
use serde_json::Value;
use sql_exprs::Misfit;
use sql_values::print_type;
use std::alloc::Global;
use std::test::Fail;

/// Whether the rows of the first fragment have the types that are wanted, or else the path that is
/// wanted does not fit.
fn is_told(alloc: Global, quoted: &str, want: &str) -> Result<bool, Fail> {
    let plan = plan_of(alloc, quoted)?;
    is_told_of(alloc, &plan, want)
}

fn plan_of(alloc: Global, quoted: &str) -> Result<Plan, Fail> {
    let document = document_of(alloc, quoted)?;
    Ok(read_plan_doc(alloc, &document)?)
}

fn document_of(alloc: Global, quoted: &str) -> Result<Value, Fail> {
    let text = unquoted(alloc, quoted)?;
    Ok(Value::from_str(alloc, text.as_str())?)
}

fn is_told_of(alloc: Global, plan: &Plan, want: &str) -> Result<bool, Fail> {
    match type_plan(alloc, plan) {
        Ok(types) => are_types(alloc, types.as_slice(), want),
        Err(Misfit::At(path)) => is_path(alloc, path.as_slice(), want),
        Err(Misfit::Memory) => Ok(false),
    }
}

fn is_path(alloc: Global, path: &[Step], want: &str) -> Result<bool, Fail> {
    let text = pointer_of(alloc, path)?;
    Ok(text.as_str() == want)
}

fn are_types(alloc: Global, types: &[RowTypes], want: &str) -> Result<bool, Fail> {
    let mut text = Vec::new(alloc);
    if let Some(first) = types.first() {
        push_types(first, &mut text)?;
    }
    match text.as_slice() {
        [_, types @ ..] => Ok(types == want.as_bytes()),
        [] => Ok(false),
    }
}

/// The types, a blank before each.
fn push_types(types: &RowTypes, text: &mut Vec<u8>) -> Result<(), Fail> {
    for kind in types.columns.as_slice() {
        text.push(b' ')?;
        print_type(*kind, text)?;
    }
    Ok(())
}

/// The names of so many columns, at least one.
fn names(alloc: Global, count: &str) -> Result<String, Fail> {
    let more = "'x',".repeat(alloc, count.len().saturating_sub(1))?;
    Ok(format!(in alloc; "[{more}'x']")?)
}

/// The document with the root, and with `NAMES` for its names.
fn with_root(alloc: Global, root: &str) -> Result<String, Fail> {
    let root = root.replace(alloc, "SCAN", SCAN)?;
    Ok(WHOLE.replace(alloc, "ROOT", root.as_str())?)
}

/// The document with a name for each mark.
fn with_names(alloc: Global, marks: &str, document: &str) -> Result<String, Fail> {
    let names = names(alloc, marks)?;
    Ok(document.replace(alloc, "NAMES", names.as_str())?)
}

fn is_told_root(alloc: Global, marks: &str, root: &str, want: &str) -> Result<bool, Fail> {
    let document = with_root(alloc, root)?;
    is_told(
        alloc,
        with_names(alloc, marks, document.as_str())?.as_str(),
        want,
    )
}

fn is_root(alloc: Global, line: &str) -> Result<bool, Fail> {
    match case_of(line) {
        Some(case) => is_told_root(alloc, case.from, case.to, case.told),
        None => Ok(false),
    }
}

/// The first line that does not say what is reported.
fn untold_root(alloc: Global, lines: &'static str) -> Result<&'static str, Fail> {
    for line in lines.lines() {
        if !is_root(alloc, line)? {
            return Ok(line);
        }
    }
    Ok("")
}

#[test]
fn types_nodes(rt: HostRuntime) -> Result<(), Fail> {
    assert_eq!(rt; untold_root(rt.alloc(), ROOTS)?, "");
    Ok(())
}

fn is_half(alloc: Global, line: &str) -> Result<bool, Fail> {
    match case_of(line) {
        Some(case) => {
            let document = TWO.replace(alloc, case.from, case.to)?;
            is_told(alloc, document.as_str(), case.told)
        }
        None => Ok(false),
    }
}

/// The first line that does not say what is reported.
fn untold_half(alloc: Global, lines: &'static str) -> Result<&'static str, Fail> {
    for line in lines.lines() {
        if !is_half(alloc, line)? {
            return Ok(line);
        }
    }
    Ok("")
}

#[test]
fn types_the_halves_of_operators(rt: HostRuntime) -> Result<(), Fail> {
    assert_eq!(rt; untold_half(rt.alloc(), HALVES)?, "");
    Ok(())
}
