mod cases;

use crate::lines::{Case, case_of, is_fault, unquoted};
use cases::{CASES, FILTERED, LINKS, LISTS, MORE, NAMES, ROOTS, SCAN, SMALL, WHOLE};
use plan_checks::{documents_are_one, read_document};
use std::alloc::Global;
use std::test::Fail;

/// Whether the code and the path of the refusal are wanted, the code alone where there is no path,
/// and 0 where the document is not refused.
fn is_told(alloc: Global, quoted: &str, want: &str) -> Result<bool, Fail> {
    let document = unquoted(alloc, quoted)?;
    match read_document(alloc, document.as_bytes()) {
        Ok(_document) => Ok(want == "0"),
        Err(fault) => is_fault(alloc, &fault, want),
    }
}

/// The same of the document with one text in place of another.
fn is_told_with(alloc: Global, from: &str, to: &str, want: &str) -> Result<bool, Fail> {
    let document = WHOLE.replace(alloc, from, to)?;
    is_told(alloc, document.as_str(), want)
}

/// Whether the line says what is reported. A line that begins with `#` is a heading.
fn is_case(alloc: Global, line: &str) -> Result<bool, Fail> {
    match case_of(line) {
        Some(case) => is_told_with(alloc, case.from, case.to, case.told),
        None => Ok(line.starts_with('#')),
    }
}

/// The first line that does not say what is reported.
fn untold(alloc: Global, lines: &'static str) -> Result<&'static str, Fail> {
    for line in lines.lines() {
        if !is_case(alloc, line)? {
            return Ok(line);
        }
    }
    Ok("")
}

#[test]
fn refuses_at_the_first_place(rt: HostRuntime) -> Result<(), Fail> {
    assert_eq!(rt; untold(rt.alloc(), CASES)?, "");
    Ok(())
}

/// The list of so many equal entries, at least one.
fn list_of(alloc: Global, entry: &str, count: usize) -> Result<String, Fail> {
    let mut text = String::from_str(alloc, "[")?;
    push_entries(&mut text, entry, count.saturating_sub(1))?;
    text.push_str(entry)?;
    text.push_str("]")?;
    Ok(text)
}

/// Puts the entry so many times, each with a comma after it.
fn push_entries(text: &mut String, entry: &str, count: usize) -> Result<(), Fail> {
    for _ in 0..count {
        text.push_str(entry)?;
        text.push_str(",")?;
    }
    Ok(())
}

/// Whether a list of so many entries says what is reported.
fn is_told_of(
    alloc: Global,
    from: &str,
    entry: &str,
    count: usize,
    want: &str,
) -> Result<bool, Fail> {
    let list = list_of(alloc, entry, count)?;
    is_told_with(alloc, from, list.as_str(), want)
}

/// The most entries of a list with these bounds.
fn most_of(bounds: &str) -> usize {
    if bounds.ends_with("..16") {
        16
    } else if bounds.ends_with("..64") {
        64
    } else if bounds.ends_with("..256") {
        256
    } else {
        10_000
    }
}

fn is_limited(
    alloc: Global,
    case: Case<'_>,
    bounds: &str,
    at_most: &str,
    beyond: &str,
) -> Result<bool, Fail> {
    let most = most_of(bounds);
    Ok(
        is_told_of(alloc, case.from, case.to, most, at_most)?
            && is_told_of(alloc, case.from, case.to, most.saturating_add(1), beyond)?
            && is_told_with(alloc, case.from, "[]", beyond)? == bounds.starts_with("1.."),
    )
}

fn is_list(alloc: Global, line: &str) -> Result<bool, Fail> {
    let Some(case) = case_of(line) else {
        return Ok(false);
    };
    let Some((bounds, told)) = case.told.split_once(", ") else {
        return Ok(false);
    };
    match told.split_once(", ") {
        Some((at_most, beyond)) => is_limited(alloc, case, bounds, at_most, beyond),
        None => Ok(false),
    }
}

/// The first line that does not say what is reported.
fn untold_list(alloc: Global, lines: &'static str) -> Result<&'static str, Fail> {
    for line in lines.lines() {
        if !is_list(alloc, line)? {
            return Ok(line);
        }
    }
    Ok("")
}

#[test]
fn limits_lists(rt: HostRuntime) -> Result<(), Fail> {
    assert_eq!(rt; untold_list(rt.alloc(), LISTS)?, "");
    Ok(())
}

/// A name of so many bytes, in quotation marks.
fn name_of(alloc: Global, count: usize) -> Result<String, Fail> {
    let name = "n".repeat(alloc, count)?;
    Ok(format!(in alloc; "'{name}'")?)
}

/// Whether the line says what is reported, and what is reported with a name in place of the empty one.
fn is_name(alloc: Global, line: &str, name: &str) -> Result<bool, Fail> {
    match case_of(line) {
        Some(case) => Ok(
            is_told_with(alloc, case.from, case.to, case.told)?
                && is_told_named(alloc, case, name)?,
        ),
        None => Ok(false),
    }
}

fn is_told_named(alloc: Global, case: Case<'_>, name: &str) -> Result<bool, Fail> {
    let to = case.to.replace(alloc, "''", name)?;
    is_told_with(alloc, case.from, to.as_str(), case.told)
}

/// The first line that does not say what is reported.
fn untold_name(alloc: Global, lines: &'static str, name: &str) -> Result<&'static str, Fail> {
    for line in lines.lines() {
        if !is_name(alloc, line, name)? {
            return Ok(line);
        }
    }
    Ok("")
}

#[test]
fn limits_names(rt: HostRuntime) -> Result<(), Fail> {
    let longer = name_of(rt.alloc(), 129)?;
    assert_eq!(rt; untold_name(rt.alloc(), NAMES, longer.as_str())?, "");
    Ok(())
}

#[test]
fn a_name_may_have_128_bytes(rt: HostRuntime) -> Result<(), Fail> {
    let longest = name_of(rt.alloc(), 128)?;
    assert!(rt; is_told_with(rt.alloc(), "'x'", longest.as_str(), "0")?);
    Ok(())
}

/// Whether the line says what is reported of the small document, with a scan in place of `SCAN`.
fn is_root(alloc: Global, line: &str) -> Result<bool, Fail> {
    match case_of(line) {
        Some(case) => {
            let document = SMALL.replace(alloc, case.from, case.to)?;
            is_told_scanned(alloc, document.as_str(), case.told)
        }
        None => Ok(false),
    }
}

fn is_told_scanned(alloc: Global, document: &str, want: &str) -> Result<bool, Fail> {
    let document = document.replace(alloc, "SCAN", SCAN)?;
    is_told(alloc, document.as_str(), want)
}

/// The first line that does not say what is reported.
fn untold_root(alloc: Global, lines: &'static str) -> Result<&'static str, Fail> {
    for line in lines.lines() {
        if !is_root(alloc, line)? {
            return Ok(line);
        }
    }
    Ok("")
}

#[test]
fn judges_each_root(rt: HostRuntime) -> Result<(), Fail> {
    assert_eq!(rt; untold_root(rt.alloc(), ROOTS)?, "");
    documents_are_one(b"{}");
    Ok(())
}

#[test]
fn refuses_what_is_no_document(rt: HostRuntime) -> Result<(), Fail> {
    for text in ["{'version':1", "", "nul"] {
        assert!(rt; is_told(rt.alloc(), text, "1")?);
    }
    for text in ["{}", "null", "[]", "7"] {
        assert!(rt; is_told(rt.alloc(), text, "2")?);
    }
    Ok(())
}

/// What is reported of the small document with the root.
fn is_told_root(alloc: Global, root: &str, want: &str) -> Result<bool, Fail> {
    let document = SMALL.replace(alloc, "ROOT", root)?;
    is_told(alloc, document.as_str(), want)
}

/// The text, and another so many times after it.
fn followed(alloc: Global, text: &str, after: &str, times: usize) -> Result<String, Fail> {
    let mut whole = String::from_str(alloc, text)?;
    push_times(&mut whole, after, times)?;
    Ok(whole)
}

fn push_times(whole: &mut String, text: &str, times: usize) -> Result<(), Fail> {
    for _ in 0..times {
        whole.push_str(text)?;
    }
    Ok(())
}

/// The ground under so many floors of the same.
fn tower(
    alloc: Global,
    floor: &str,
    ground: &str,
    top: &str,
    floors: usize,
) -> Result<String, Fail> {
    let mut text = floor.repeat(alloc, floors)?;
    text.push_str(ground)?;
    push_times(&mut text, top, floors)?;
    Ok(text)
}

const FILTER: &str = "{'id':1,'op':'filter','predicate':{'col':0},'input':";

/// A scan under so many filters.
fn filters(alloc: Global, count: usize) -> Result<String, Fail> {
    tower(alloc, FILTER, SCAN, "}", count)
}

fn is_told_filtered(alloc: Global, count: usize, want: &str) -> Result<bool, Fail> {
    let root = filters(alloc, count)?;
    is_told_root(alloc, root.as_str(), want)
}

#[test]
fn limits_the_depth_of_nodes(rt: HostRuntime) -> Result<(), Fail> {
    let deepest = followed(rt.alloc(), "3 /fragments/0/root", "/input", 32)?;
    assert!(rt; is_told_filtered(rt.alloc(), 31, "4 /fragments/0/root/input/id")?);
    assert!(rt; is_told_filtered(rt.alloc(), 32, deepest.as_str())?);
    Ok(())
}

/// A filter by a column under so many calls.
fn calls(alloc: Global, count: usize) -> Result<String, Fail> {
    let form = tower(alloc, "{'call':'not','args':[", "{'col':0}", "]}", count)?;
    Ok(FILTERED.replace(alloc, "FORM", form.as_str())?)
}

fn is_told_called(alloc: Global, count: usize, want: &str) -> Result<bool, Fail> {
    let root = calls(alloc, count)?;
    let root = root.replace(alloc, "SCAN", SCAN)?;
    is_told_root(alloc, root.as_str(), want)
}

#[test]
fn limits_the_depth_of_forms(rt: HostRuntime) -> Result<(), Fail> {
    let deepest = followed(rt.alloc(), "3 /fragments/0/root/predicate", "/args/0", 24)?;
    assert!(rt; is_told_called(rt.alloc(), 23, "0")?);
    assert!(rt; is_told_called(rt.alloc(), 24, deepest.as_str())?);
    Ok(())
}

/// One fragment more, whose root is a scan under three filters.
fn one_more(alloc: Global) -> Result<String, Fail> {
    let root = filters(alloc, 3)?;
    Ok(MORE.replace(alloc, "ROOT", root.as_str())?)
}

/// So many filters in the first fragment, and 63 fragments more.
fn many(alloc: Global, count: usize) -> Result<String, Fail> {
    let more = one_more(alloc)?;
    let first = filters(alloc, count)?;
    followed(alloc, first.as_str(), more.as_str(), 63)
}

fn is_told_many(alloc: Global, count: usize, want: &str) -> Result<bool, Fail> {
    let root = many(alloc, count)?;
    is_told_root(alloc, root.as_str(), want)
}

#[test]
fn limits_the_nodes_of_all_fragments(rt: HostRuntime) -> Result<(), Fail> {
    assert!(rt; is_told_many(rt.alloc(), 3, "4 /fragments/0/root/input/id")?);
    assert!(rt; is_told_many(rt.alloc(), 4, "3 /fragments")?);
    Ok(())
}

#[test]
fn joins_fragments_and_halves(rt: HostRuntime) -> Result<(), Fail> {
    assert_eq!(rt; untold(rt.alloc(), LINKS)?, "");
    Ok(())
}
