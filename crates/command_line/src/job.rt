//! What a command line asks for.
ghost use Rattle.std.specs.Prelude.{◌≡◌, option_map};
ghost use Rattle.std.specs.List.{position_from};
ghost use Rattle.command_line.specs.Words.{asked, asked_file, file_at, file_of, is_named, no_job};

use std::alloc::Global;

/// The file that an argument gives to the table of a name.
#[derive(Clone, Copy)]
pub struct NamedFile<'a> {
    pub name: &'a str,
    pub file: &'a str,
}

/// What is run.
#[derive(Drop)]
pub struct Source<'a> {
    /// The plan's file, or the name of a demo's plan.
    pub plan: &'a str,
    pub files: Vec<NamedFile<'a>>,
    /// The number of the demo, where one is run.
    pub demo: Option<u64>,
}

/// What the arguments ask for: what is run, and the numbers of the options.
#[derive(Drop)]
pub struct Job<'a> {
    pub source: Source<'a>,
    /// The most rows of a split.
    pub split: u32,
    /// The most rows of a page.
    pub page: u32,
    /// The rows after whose move a driver's turn ends.
    pub quantum: u32,
    /// The workers that read tables and give the drivers their turns.
    pub workers: u32,
    /// The tasks of a fragment that may have several.
    pub tasks: u32,
    /// The drivers of a pipeline that may have several, in each task.
    pub drivers: u32,
    /// The number under which pages are delivered late, again or not at all; 0 delivers at once.
    pub replay: u64,
    /// Whether the rows that dynamic filters let through are counted.
    pub counts: bool,
}

/// The file that the arguments name for a table, and its place among the files, from 0.
#[derive(Clone, Copy)]
pub struct TableFile<'a> {
    pub place: usize,
    pub file: &'a str,
}

impl<'a> Job<'a> {
    /// A job of no file and of the usual numbers. It takes no memory.
    pub fn none(alloc: Global) -> Job<'a>
        ensures { asked result ≡ no_job }
    {
        Job {
            source: Source {
                plan: "",
                files: Vec::new(alloc),
                demo: None,
            },
            split: 10_000,
            page: 1024,
            quantum: 100_000,
            workers: 2,
            tasks: 2,
            drivers: 2,
            replay: 0,
            counts: false,
        }
    }

    /// The number of the demo, where one is run.
    pub fn demo(&self) -> Option<u64>
        ensures { result ≡ (asked self.now).demo }
    {
        self.source.demo
    }

    /// The plan's file, or the name of a demo's plan.
    pub fn plan(&self) -> &'a str
        ensures { result.now ≡ (asked self.now).plan }
    {
        self.source.plan
    }

    /// The file of a table.
    pub fn file_of(&self, name: &str) -> Option<TableFile<'a>>
        ensures { option_map asked_file result ≡ file_of name.now (asked self.now).files }
    {
        let place = self.place_of(name)?;
        let file = self.file_at(place);
        Some(TableFile { place, file })
    }

    fn place_of(&self, name: &str) -> Option<usize>
        ensures { result ≡ position_from (is_named name.now) 0 (asked self.now).files }
    {
        let files = self.source.files.as_slice();
        for place in 0..files.len() {
            if files[place].name == name {
                return Some(place);
            }
        }
        None
    }

    /// The file at a place; no text where there is none.
    pub fn file_at(&self, place: usize) -> &'a str
        ensures { result.now ≡ file_at (asked self.now).files place }
    {
        match self.source.files.get(place) {
            Some(named) => named.file,
            None => "",
        }
    }
}
