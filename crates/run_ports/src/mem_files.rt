ghost use Rattle.std.specs.Prelude.{◌≡◌, ◌≤◌, Some, None, MatchOption, IfOk, if◌then◌else◌};
ghost use Rattle.count_laws.specs.Counts.{Rose};
ghost use Rattle.run_ports.specs.Reading.{AreBytesOf, IfFailed, refused_after};
ghost use Rattle.run_ports.specs.MemFiles.{held_in, new_files, held_by, faults_of, latest_of, read_of, Answers, FollowsRead};

use crate::failing_calls::FailingCalls;
use crate::files::{FileFault, Files, Refusals};
use sql_values::Text;
use std::alloc::Global;

/// A file in memory.
#[derive(Drop)]
pub struct NamedBytes {
    pub name: Text,
    pub bytes: Vec<u8>,
}

/// Files in memory. The first file of a name is the one that is read.
#[derive(Drop)]
pub struct MemFiles {
    files: Vec<NamedBytes>,
    calls: FailingCalls,
    refusals: Refusals,
}

impl MemFiles {
    /// Reads fail at the calls whose numbers, from 1, are in `failing`, and for a name that is not
    /// held.
    pub fn new(files: Vec<NamedBytes>, failing: Vec<u32>) -> MemFiles
        ensures { result ≡ new_files files failing }
    {
        MemFiles {
            files,
            calls: FailingCalls::of(failing),
            refusals: Refusals::new(),
        }
    }
}

impl Files for MemFiles {
    ghost use Rattle.std.specs.Prelude.{Some};
    ghost use Rattle.run_ports.specs.MemFiles.{held_by, faults_of, latest_of};

    ghost holds = { λ f. Some (held_by f) };

    ghost faults = { faults_of };

    ghost refused = { latest_of };

    fn read(&mut self, alloc: Global, name: &str) -> Result<Vec<u8>, FileFault>
        ensures answer { Answers result (read_of self.old name.now) }
        ensures follows { FollowsRead self.old self.new result name.now }

        ensures same { Some (held_by self.new) ≡ Some (held_by self.old) }
        ensures bytes { IfOk result
            (λ bytes. AreBytesOf (Some (held_by self.old)) name.now bytes.items) }
        ensures later { faults_of self.old ≤ faults_of self.new }
        ensures cause { IfFailed result (Rose (faults_of self.old) (faults_of self.new)) }
        ensures latest { latest_of self.new ≡ refused_after (latest_of self.old) result name.now }
    {
        let fails = self.calls.count_one();
        let name = Text::copy_of(alloc, name)?;
        let answer = answer_of(&self.files, fails, alloc, name.as_str());
        self.refusals.note(&answer, name);
        answer
    }
}

fn answer_of(
    files: &[NamedBytes],
    fails: bool,
    alloc: Global,
    name: &str,
) -> Result<Vec<u8>, FileFault>
    ensures { Answers result (if fails then None else held_in files.now name.now) }
{
    if fails {
        return Err(FileFault::Failed);
    }
    match held(files, name) {
        Some(bytes) => Ok(Vec::from_slice(alloc, bytes)?),
        None => Err(FileFault::Failed),
    }
}

fn held<'a>(files: &'a [NamedBytes], name: &str) -> Option<&'a [u8]>
    ensures { MatchOption result (held_in files.now name.now ≡ None)
        (λ bytes. held_in files.now name.now ≡ Some bytes.now) }
{
    for file in files {
        if file.name.as_str() == name {
            return Some(file.bytes.as_slice());
        }
    }
    None
}
