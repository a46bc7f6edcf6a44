ghost use Rattle.std.specs.Prelude.{◌≡◌, ◌∷◌, ◌⊎◌, Bool, true, false, [], IfOk};
ghost use Rattle.csv.specs.Records.{fields_of};
ghost use Rattle.csv_tables.specs.Records.{GivesRecord};
ghost use Rattle.csv_tables.specs.Tables.{records_of};

use csv::{ByteRecord, Reader, ReaderBuilder};
use sql_values::Memory;
use std::alloc::Global;
use std::marker::Model;

/// The records of a text, seen by contracts as the list of those that are still to come.
#[derive(Drop)]
pub(crate) struct Records<'a> {
    reader: Reader<&'a [u8]>,
}

impl<'a> Model for Records<'a> {
    ghost use Rattle.std.specs.Prelude.{List, ℕ, Some};
    ghost use Rattle.csv_tables.specs.Records.{records_left, IsReading};

    ghost Value = { List (List (List ℕ)) };

    ghost view = { λ r. records_left (λ s. Some s.now) r.reader };

    ghost invariant = { λ r. IsReading (λ s. Some s.now) r.reader };
}

impl<'a> Records<'a> {
    pub(crate) fn of(alloc: Global, text: &'a [u8]) -> Records<'a>
        ensures { result ≡ records_of text.now }
    {
        Records {
            reader: ReaderBuilder::new()
                .has_headers(false)
                .flexible(true)
                .from_reader(alloc, text),
        }
    }

    /// The next record into `line`, and whether there was one. After a failure there is none.
    pub(crate) fn next(&mut self, line: &mut ByteRecord) -> Result<bool, Memory>
        ensures { IfOk result (λ found. GivesRecord found (fields_of line.new) self.old self.new) }
    {
        let Ok(found) = self.reader.read_byte_record(line) else {
            return Err(Memory);
        };
        Ok(found)
    }
}
