ghost use Rattle.std.specs.Prelude.{All, IsTrue, map, ◌≡◌, ◌≢◌, [], ◌∷◌, ◌++◌, ◌<◌, ◌≤◌, ◌^◌, List, ℕ, Ok, true, length, unsigned_abs};
ghost use Rattle.csv.specs.Machine.{line_feed};
ghost use Rattle.csv.specs.Reading.{AreRecords, default_config, strip_bom};
ghost use Rattle.csv.specs.declared.parser.State.TheVariants as st;
ghost use Rattle.csv_tables.specs.Fields.{field_text, value_of_field};
ghost use Rattle.csv_tables.specs.Parts.{IsCut, quote};
ghost use Rattle.csv_tables.specs.Tables.{IsTable, records_of, rows_from};
ghost use Rattle.sql_values.specs.ColumnRows.{fits_row};
ghost use Rattle.sql_values.specs.Cells.{lent_value};
ghost use Rattle.scalar_texts.specs.Dates.{has_date};
ghost use Rattle.sql_values.specs.Texts.{longest_text};
ghost use Rattle.sql_values.specs.Types.{IsType, has_type, rows_have_types};
ghost use Rattle.sql_values.specs.declared.types.SqlType.TheVariants as type;
ghost use Rattle.sql_values.specs.declared.value.Value.TheVariants as value;

use sql_values::{Column, RowList, SqlType, ValueRef, text_reads_back};

/// The law that a text has one list of records: those that `csv` reads from it.
pub fn records_are_one(text: &[u8])
    ensures { (found : List (List (List ℕ)))
        → AreRecords default_config st.StartRecord (strip_bom text.now) found
        → records_of text.now ≡ found }
{}

/// The law that the records of a text are those of its parts, if it is cut where a record begins
/// and no byte order mark.
#[tactic(auto, using(crate::proofs::PartLemmas::records_cut))]
pub fn records_of_parts(before: &[u8], rest: &[u8])
    requires { IsCut before.now rest.now }
    ensures { records_of (before.now ++ rest.now) ≡ records_of before.now ++ records_of rest.now }
{}

/// The law that a text may be cut behind each line feed with no quote before it, if no byte order
/// mark follows.
#[tactic(auto, using(crate::proofs::PartLemmas::line_feed_cuts))]
pub fn line_feeds_cut(line: &[u8], rest: &[u8])
    requires plain { All (λ b. b ≢ quote) line.now }
    requires unmarked { strip_bom rest.now ≡ rest.now }
    ensures { IsCut (line.now ++ line_feed ∷ []) rest.now }
{}

/// The law that the rows of a text are those of its first part, which has the header, and then
/// those of the rest, read by itself and counted from 1, if they are no more than may be.
#[tactic(auto, using(crate::proofs::PartRowLemmas::table_behind))]
pub fn rows_of_parts(
    columns: &[Column],
    limit: u32,
    first: &[u8],
    rest: &[u8],
    rows: &RowList,
    more: &RowList,
)
    requires cut { IsCut first.now rest.now }
    requires first { IsTable columns.now limit first.now rows.now }
    requires rest { rows_from columns.now limit 1 (records_of rest.now) ≡ Ok more.now }
    requires few { length (rows.now ++ more.now) ≤ limit }
    ensures { IsTable columns.now limit (first.now ++ rest.now) (rows.now ++ more.now) }
{}

/// The law that each row of a table has, in each column, a value of the variant of the column's type or NULL.
pub fn rows_of_a_table_fit(columns: &[Column], limit: u32, bytes: &[u8], rows: &RowList)
    requires { IsTable columns.now limit bytes.now rows.now }
    ensures { All (λ row. IsTrue (fits_row (map (λ column. column.kind) columns.now) row)) rows.now }
{}

/// The law that each value of a table is one of its column's type, its range included, or NULL.
pub fn rows_of_a_table_have_types(columns: &[Column], limit: u32, bytes: &[u8], rows: &RowList)
    requires types { All (λ column. IsType column.kind) columns.now }
    requires table { IsTable columns.now limit bytes.now rows.now }
    ensures { IsTrue (rows_have_types (map (λ column. column.kind) columns.now) rows.now) }
{}

/// The law that a table has no more rows than it may have.
pub fn rows_of_a_table_are_few(columns: &[Column], limit: u32, bytes: &[u8], rows: &RowList)
    requires { IsTable columns.now limit bytes.now rows.now }
    ensures { length rows.now ≤ limit }
{}

#[tactic(auto, using(crate::proofs::ReadBackLemmas::bigint_back))]
fn bigint_reads_back(n: i64)
    ensures { value_of_field type.Bigint (field_text type.Bigint (value.Bigint n))
        ≡ Ok (value.Bigint n) }
{
    text_reads_back(SqlType::Bigint, ValueRef::Bigint(n));
}

#[tactic(auto, using(crate::proofs::ReadBackLemmas::varchar_back))]
fn varchar_reads_back(text: &str)
    requires { length text.now ≤ longest_text }
    ensures { value_of_field type.Varchar (field_text type.Varchar (value.Varchar text.now))
        ≡ Ok (value.Varchar text.now) }
{
    text_reads_back(SqlType::Varchar, ValueRef::Varchar(text));
}

#[tactic(auto, using(crate::proofs::ReadBackLemmas::boolean_back))]
fn boolean_reads_back(truth: bool)
    ensures { value_of_field type.Boolean (field_text type.Boolean (value.Boolean truth))
        ≡ Ok (value.Boolean truth) }
{
    text_reads_back(SqlType::Boolean, ValueRef::Boolean(truth));
}

#[tactic(auto, using(crate::proofs::ReadBackLemmas::decimal_back))]
fn decimal_reads_back(p: u8, s: u8, unscaled: i128)
    requires is_type { IsType (type.Decimal p s) }
    requires digits { unsigned_abs unscaled < 10 ^ p }
    ensures { value_of_field (type.Decimal p s) (field_text (type.Decimal p s) (value.Decimal unscaled))
        ≡ Ok (value.Decimal unscaled) }
{
    text_reads_back(SqlType::Decimal { p, s }, ValueRef::Decimal(unscaled));
}

#[tactic(auto, using(crate::proofs::ReadBackLemmas::date_back))]
fn date_reads_back(day: i32)
    requires { has_date day ≡ true }
    ensures { value_of_field type.Date (field_text type.Date (value.Date day))
        ≡ Ok (value.Date day) }
{
    text_reads_back(SqlType::Date, ValueRef::Date(day));
}

/// The law that the field of a value, NULL among them, reads back as that value.
#[tactic(auto, using(crate::proofs::ReadBackLemmas::null_back))]
pub fn field_reads_back(kind: SqlType, value: ValueRef<'_>)
    requires is_type { IsType kind }
    requires has_type { IsTrue (has_type kind (lent_value value)) }
    ensures { value_of_field kind (field_text kind (lent_value value.entry))
        ≡ Ok (lent_value value.entry) }
{
    match (kind, value) {
        (_, ValueRef::Null) => {}
        (SqlType::Boolean, ValueRef::Boolean(truth)) => boolean_reads_back(truth),
        (SqlType::Bigint, ValueRef::Bigint(n)) => bigint_reads_back(n),
        (SqlType::Decimal { p, s }, ValueRef::Decimal(unscaled)) => decimal_reads_back(
            p, s, unscaled,
        ),
        (SqlType::Date, ValueRef::Date(day)) => date_reads_back(day),
        (SqlType::Varchar, ValueRef::Varchar(text)) => varchar_reads_back(text),
        _ => {}
    }
}
