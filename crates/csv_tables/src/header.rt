ghost use Rattle.std.specs.Prelude.{◌≡◌, ◌<◌, ◌^◌, length, option_map};
ghost use Rattle.csv.specs.Records.{fields_of};
ghost use Rattle.csv_tables.specs.Records.{names_column};
ghost use Rattle.csv_tables.specs.Tables.{differs_at};

use csv::ByteRecord;
use sql_values::Column;

fn is_name_of(column: &Column, field: Option<&[u8]>) -> bool
    ensures { result ≡ names_column column.now (option_map (λ f. f.now) field.entry) }
{
    match field {
        Some(name) => name == column.name.as_str().as_bytes(),
        None => false,
    }
}

#[tactic(auto, using(crate::proofs::FieldLemmas::header_lemmas))]
/// The first place in which the header is not the names of the columns.
pub(crate) fn header_difference(columns: &[Column], header: &ByteRecord) -> Option<u32>
    requires { length columns.now < 2 ^ 32 }
    ensures { result ≡ differs_at 0 (fields_of header.now) columns.now }
{
    for at in 0..columns.len() {
        if !is_name_of(&columns[at], header.get(at)) {
            return Some(at as u32);
        }
    }
    if header.len() > columns.len() {
        return Some(columns.len() as u32);
    }
    None
}
