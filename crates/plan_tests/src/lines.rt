//! Cases as lines, and faults as the cases write them.
use plan_checks::PlanFault;
use std::alloc::Global;
use std::test::Fail;

/// A text of a document, what is put in its place, and what is reported then.
#[derive(Clone, Copy)]
pub struct Case<'a> {
    pub from: &'a str,
    pub to: &'a str,
    pub told: &'a str,
}

/// The case that a line writes.
pub fn case_of(line: &str) -> Option<Case<'_>> {
    let (from, rest) = line.split_once('|')?;
    let (to, told) = rest.rsplit_once('|')?;
    Some(Case {
        from: from.trim(),
        to: to.trim(),
        told: told.trim(),
    })
}

/// The document that is written with `'` for the quotation mark.
pub fn unquoted(alloc: Global, quoted: &str) -> Result<String, Fail> {
    Ok(quoted.replace(alloc, "'", "\"")?)
}

/// Whether the fault is the code and the path that are wanted, the code alone where the path is that
/// of the whole document.
pub fn is_fault(alloc: Global, fault: &PlanFault, want: &str) -> Result<bool, Fail> {
    match fault {
        PlanFault::Refused { code, path } => is_refusal(alloc, *code, path.as_str(), want),
        PlanFault::Memory => Ok(false),
    }
}

fn is_refusal(alloc: Global, code: u8, path: &str, want: &str) -> Result<bool, Fail> {
    let told = format!(in alloc; "{code} {path}")?;
    Ok(told.as_str().trim_end() == want)
}
