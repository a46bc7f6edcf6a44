ghost use Rattle.std.specs.Prelude.{◌≡◌, IfOk};
ghost use Rattle.csv_tables.specs.ResultTexts.{result_text};

use crate::field_texts::{append_header, append_rows};
use sql_values::{Memory, RowList, SqlType, Text};
use std::alloc::Global;

/// The text of a result in CSV: a record of the names and then one of each row, with a field for
/// each type. More types than a `u32` counts are `Memory`.
pub fn text_of(
    alloc: Global,
    names: &[Text],
    types: &[SqlType],
    rows: &RowList,
) -> Result<Vec<u8>, Memory>
    ensures { IfOk result (λ text. text.items ≡ result_text names.now types.now rows.now) }
{
    if types.len() > u32::MAX as usize {
        return Err(Memory);
    }
    let mut text = Vec::new(alloc);
    append_header(names, &mut text)?;
    append_rows(types, rows, &mut text)?;
    Ok(text)
}
