mod cases;
mod filters;

use crate::lines::{case_of, is_fault, unquoted};
use cases::{CASES, GROUPED, P1, P2, P3, ROOTS, SCAN, SEVERAL, SMALL, WHOLE};
use filters::{ACROSS, ALONE, SOURCES, STEPS};
use plan_docs::{Plan, read_plan_doc};
use plan_reader::{Tree, read_plan, tree};
use plan_trees::TreeStep;
use serde_json::Value;
use std::alloc::Global;
use std::test::Fail;

/// Whether the code and the path of the refusal are wanted, the code alone where there is no path,
/// and 0 where the document is a plan.
fn is_told(alloc: Global, quoted: &str, want: &str) -> Result<bool, Fail> {
    let document = unquoted(alloc, quoted)?;
    match read_plan(alloc, document.as_bytes()) {
        Ok(_plan) => Ok(want == "0"),
        Err(fault) => is_fault(alloc, &fault, want),
    }
}

/// Whether the line says what is reported of the document with one text in place of another. A line
/// that begins with `#` is a heading.
fn is_case(alloc: Global, line: &str) -> Result<bool, Fail> {
    match case_of(line) {
        Some(case) => {
            let document = WHOLE.replace(alloc, case.from, case.to)?;
            is_told(alloc, document.as_str(), case.told)
        }
        None => Ok(line.starts_with('#')),
    }
}

/// The first line that does not say what is reported.
fn untold(alloc: Global, lines: &'static str) -> Result<&'static str, Fail> {
    for line in lines.lines() {
        if !is_case(alloc, line)? {
            return Ok(line);
        }
    }
    Ok("")
}

#[test]
fn refuses_at_the_first_place(rt: HostRuntime) -> Result<(), Fail> {
    assert_eq!(rt; untold(rt.alloc(), CASES)?, "");
    Ok(())
}

fn is_told_root(alloc: Global, root: &str, want: &str) -> Result<bool, Fail> {
    let root = root.replace(alloc, "SCAN", SCAN)?;
    is_told(
        alloc,
        SMALL.replace(alloc, "ROOT", root.as_str())?.as_str(),
        want,
    )
}

fn is_root(alloc: Global, line: &str) -> Result<bool, Fail> {
    match line.split_once('|') {
        Some((root, want)) => is_told_root(alloc, root.trim(), want.trim()),
        None => Ok(false),
    }
}

/// The first root of which something else is reported.
fn untold_root(alloc: Global, lines: &'static str) -> Result<&'static str, Fail> {
    for line in lines.lines() {
        if !is_root(alloc, line)? {
            return Ok(line);
        }
    }
    Ok("")
}

#[test]
fn tells_the_order_of_codes(rt: HostRuntime) -> Result<(), Fail> {
    assert_eq!(rt; untold_root(rt.alloc(), ROOTS)?, "");
    Ok(())
}

fn is_several(alloc: Global, line: &str) -> Result<bool, Fail> {
    match case_of(line) {
        Some(case) => {
            let document = GROUPED.replace(alloc, case.from, case.to)?;
            is_told(alloc, document.as_str(), case.told)
        }
        None => Ok(line.starts_with('#')),
    }
}

/// The first line that does not say what is reported of several fragments.
fn untold_several(alloc: Global, lines: &'static str) -> Result<&'static str, Fail> {
    for line in lines.lines() {
        if !is_several(alloc, line)? {
            return Ok(line);
        }
    }
    Ok("")
}

#[test]
fn refuses_several_fragments_at_the_first_place(rt: HostRuntime) -> Result<(), Fail> {
    assert_eq!(rt; untold_several(rt.alloc(), SEVERAL)?, "");
    Ok(())
}

/// Whether the line says what is reported of the document with its scan.
fn is_step(alloc: Global, document: &str, line: &str) -> Result<bool, Fail> {
    match case_of(line) {
        Some(case) => {
            let document = document.replace(alloc, case.from, case.to)?;
            let document = document.replace(alloc, "SCAN", filters::SCAN)?;
            is_told(alloc, document.as_str(), case.told)
        }
        None => Ok(line.starts_with('#')),
    }
}

/// The first line that does not say what is reported of the document.
fn untold_step(alloc: Global, document: &str, lines: &'static str) -> Result<&'static str, Fail> {
    for line in lines.lines() {
        if !is_step(alloc, document, line)? {
            return Ok(line);
        }
    }
    Ok("")
}

#[test]
fn follows_dynamic_filters_to_their_scans(rt: HostRuntime) -> Result<(), Fail> {
    assert_eq!(rt; untold_step(rt.alloc(), ALONE, STEPS)?, "");
    assert_eq!(rt; untold_step(rt.alloc(), ACROSS, SOURCES)?, "");
    Ok(())
}

#[test]
fn reads_several_fragments(rt: HostRuntime) -> Result<(), Fail> {
    for plan in [P1, P2, P3] {
        assert!(rt; is_told(rt.alloc(), plan, "0")?);
    }
    Ok(())
}

/// The tree that a document means.
fn tree_of(alloc: Global, quoted: &str) -> Result<Tree, Fail> {
    let plan = plan_of(alloc, quoted)?;
    Ok(tree(alloc, &plan)?)
}

fn plan_of(alloc: Global, quoted: &str) -> Result<Plan, Fail> {
    let document = document_of(alloc, quoted)?;
    Ok(read_plan_doc(alloc, &document)?)
}

fn document_of(alloc: Global, quoted: &str) -> Result<Value, Fail> {
    let text = unquoted(alloc, quoted)?;
    Ok(Value::from_str(alloc, text.as_str())?)
}

/// Whether the tree is a whole aggregate over what a fragment gives of a scan.
fn is_global_sum(tree: &Tree) -> bool {
    match tree {
        Tree::Step {
            id: 1,
            step: TreeStep::Aggregate { .. },
            input,
        } => is_remote_scan(input),
        _ => false,
    }
}

fn is_remote_scan(tree: &Tree) -> bool {
    match tree {
        Tree::Remote { id: 2, input } => is_scan(input),
        _ => false,
    }
}

fn is_scan(tree: &Tree) -> bool {
    matches!(tree, Tree::Scan { id: 4, .. })
}

#[test]
fn joins_the_halves_of_an_operator(rt: HostRuntime) -> Result<(), Fail> {
    let tree = tree_of(rt.alloc(), P3)?;
    assert!(rt; is_global_sum(&tree));
    Ok(())
}

/// Whether the tree is what a fragment gives of an aggregate.
fn is_remote_grouping(tree: &Tree) -> bool {
    match tree {
        Tree::Remote { id: 1, input } => is_grouping(input),
        _ => false,
    }
}

fn is_grouping(tree: &Tree) -> bool {
    matches!(
        tree,
        Tree::Step {
            id: 2,
            step: TreeStep::Aggregate { .. },
            ..
        }
    )
}

#[test]
fn puts_fragments_in_place_of_sources(rt: HostRuntime) -> Result<(), Fail> {
    let tree = tree_of(rt.alloc(), P2)?;
    assert!(rt; is_remote_grouping(&tree));
    Ok(())
}
