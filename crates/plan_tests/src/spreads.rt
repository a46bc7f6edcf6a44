//! The spreads of plans of several fragments: each line is a change of a document, and the spreads of its fragments
//! or the place at which its placement is broken.
mod cases;

use crate::lines::{Case, case_of, unquoted};
use cases::{FIRST, HALVES, HASHED, OTHERS, ROOTS, SECOND, THREE, TWO, VALUES};
use plan_docs::{Plan, read_plan_doc};
use plan_spreads::{RowSpread, SpreadFault, spread_plan};
use serde_json::Value;
use std::alloc::Global;
use std::test::Fail;

fn plan_of(alloc: Global, quoted: &str) -> Result<Plan, Fail> {
    let text = unquoted(alloc, quoted)?;
    let document = Value::from_str(alloc, text.as_str())?;
    Ok(read_plan_doc(alloc, &document)?)
}

fn push_spread(alloc: Global, text: &mut String, spread: &RowSpread) -> Result<(), Fail> {
    match spread {
        RowSpread::Whole => text.push_str(" whole")?,
        RowSpread::Any => text.push_str(" any")?,
        RowSpread::Every => text.push_str(" every")?,
        RowSpread::By(columns) => {
            text.push_str(" by")?;
            for column in columns.as_slice() {
                let number = format!(in alloc; ":{column}")?;
                text.push_str(number.as_str())?;
            }
        }
    }
    Ok(())
}

/// The spreads, a blank before each.
fn text_of(alloc: Global, spreads: &[RowSpread]) -> Result<String, Fail> {
    let mut text = String::new(alloc);
    for spread in spreads {
        push_spread(alloc, &mut text, spread)?;
    }
    Ok(text)
}

fn told(alloc: Global, plan: &Plan) -> Result<String, Fail> {
    match spread_plan(alloc, plan) {
        Ok(spreads) => text_of(alloc, spreads.as_slice()),
        Err(SpreadFault::Refused(path)) => Ok(format!(in alloc; "{}", path.as_str())?),
        Err(SpreadFault::Memory) => Ok(String::new(alloc)),
    }
}

/// The document with the texts that its names stand for.
fn whole(alloc: Global, document: &str) -> Result<String, Fail> {
    let document = document.replace(alloc, "FIRST", FIRST)?;
    let document = document.as_str().replace(alloc, "SECOND", SECOND)?;
    Ok(document.as_str().replace(alloc, "VALUES", VALUES)?)
}

fn is_told(alloc: Global, document: &str, case: &Case<'_>) -> Result<bool, Fail> {
    let changed = document.replace(alloc, case.from, case.to)?;
    let plan = plan_of(alloc, whole(alloc, changed.as_str())?.as_str())?;
    let text = told(alloc, &plan)?;
    Ok(text.as_str().trim() == case.told)
}

fn is_case(alloc: Global, document: &str, line: &str) -> Result<bool, Fail> {
    match case_of(line) {
        Some(case) => is_told(alloc, document, &case),
        None => Ok(false),
    }
}

/// The first line that does not say what is reported.
fn untold(alloc: Global, document: &str, lines: &'static str) -> Result<&'static str, Fail> {
    for line in lines.lines() {
        if !is_case(alloc, document, line)? {
            return Ok(line);
        }
    }
    Ok("")
}

#[test]
fn spreads_nodes(rt: HostRuntime) -> Result<(), Fail> {
    assert_eq!(rt; untold(rt.alloc(), HASHED, ROOTS)?, "");
    Ok(())
}

#[test]
fn spreads_the_halves_of_operators(rt: HostRuntime) -> Result<(), Fail> {
    assert_eq!(rt; untold(rt.alloc(), TWO, HALVES)?, "");
    Ok(())
}

#[test]
fn tries_all_sources_before_the_nodes(rt: HostRuntime) -> Result<(), Fail> {
    assert_eq!(rt; untold(rt.alloc(), THREE, OTHERS)?, "");
    Ok(())
}
