ghost use Rattle.std.specs.Prelude.{◌≡◌, ◌≤◌, None, vec_len, IfOk};

use crate::files::{FileFault, Files, Refusals};
use sql_values::Text;
use std::alloc::Global;
use std::io::Read;
use std::{fs, rt};

/// A file of more bytes is refused.
const MOST_BYTES: usize = 2_000_000_000;

/// How many bytes one call of the system is asked for.
const CHUNK_BYTES: usize = 65_536;

/// The files of a std runtime. It says nothing of what they hold.
#[derive(Drop)]
pub struct DiskFiles<'a, R: rt::Files> {
    host: &'a R,
    refusals: Refusals,
}

impl<'a, R: rt::Files> DiskFiles<'a, R> {
    pub fn new(host: &'a R) -> DiskFiles<'a, R>
        ensures { ⟦<DiskFiles<'a, R> as Files>⟧.faults result ≡ 0 }
    {
        DiskFiles {
            host,
            refusals: Refusals::new(),
        }
    }
}

impl<'a, R: rt::Files> Files for DiskFiles<'a, R> {
    ghost holds = { λ _. None };

    ghost faults = { λ f. f.refusals.count };

    ghost refused = { λ f. f.refusals.latest };

    fn read(&mut self, alloc: Global, name: &str) -> Result<Vec<u8>, FileFault> {
        let name = Text::copy_of(alloc, name)?;
        let answer = read_file(self.host, alloc, name.as_str());
        self.refusals.note(&answer, name);
        answer
    }
}

fn read_file<R: rt::Files>(host: &R, alloc: Global, name: &str) -> Result<Vec<u8>, FileFault> {
    match fs::open(host, name) {
        Ok(mut file) => read_to_end(&mut file, alloc),
        Err(_) => Err(FileFault::Failed),
    }
}

fn read_to_end<F: Read>(file: &mut F, alloc: Global) -> Result<Vec<u8>, FileFault>
    ensures { IfOk result (λ bytes. vec_len bytes ≤ MOST_BYTES) }
{
    let mut chunk = Vec::from_elem(alloc, 0u8, CHUNK_BYTES)?;
    let mut bytes = Vec::new(alloc);
    loop {
        let Ok(count) = file.read(&mut chunk) else {
            return Err(FileFault::Failed);
        };
        if count == 0 {
            return Ok(bytes);
        }
        if MOST_BYTES - bytes.len() < count {
            return Err(FileFault::Failed);
        }
        bytes.extend_from_slice(&chunk[..count])?;
    }
}
