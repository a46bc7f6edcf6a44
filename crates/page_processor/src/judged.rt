ghost use Rattle.relation_laws.specs.Verdicts.{Verdict};
ghost use Rattle.sql_values.specs.declared.value.Value.{Value};
ghost use Rattle.std.specs.Prelude.{List};
ghost use Rattle.page_processor.specs.Judged.{IsJudged, first_failure, rows_before};

use col_pages::Page;
use sql_values::{Fail, RowList};

/// The rows that a judge keeps before the first row that fails, and that failure.
#[derive(Drop)]
pub struct Judged {
    pub page: Page,
    pub failure: Option<Fail>,
}

/// The law that the rows before some place are judged, and that the row there fails.
pub fn rows_are_judged_up_to_a_place(rows: &RowList)
    ensures { (judge : List Value → Verdict) → IsJudged judge rows.now (rows_before judge rows.now) (first_failure judge rows.now) }
{}
