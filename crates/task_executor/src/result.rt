//! The rows of a result, in the pages in which they came.
ghost use Rattle.std.specs.Prelude.{◌≡◌, IfOk};
ghost use Rattle.col_pages.specs.Pages.{rows_in};

use col_pages::Page;
use operator_core::HeldPages;
use sql_values::Memory;
use std::alloc::Global;
use std::marker::Model;

/// The rows of a result. Contracts see them as one list.
#[derive(Drop)]
pub struct ResultPages {
    pages: Vec<Page>,
}

impl Model for ResultPages {
    ghost use Rattle.std.specs.Prelude.{List};
    ghost use Rattle.sql_values.specs.declared.value.Value.{Value as Cell};

    ghost Value = { List (List Cell) };

    ghost use Rattle.col_pages.specs.Pages.{rows_in};

    ghost view = { λ r. rows_in r.pages.items };
}

impl ResultPages {
    /// The pages, in order: each with rows, none of whose cells was copied.
    pub fn pages(&self) -> &[Page]
        ensures { rows_in result.now ≡ self.now }
    {
        self.pages.as_slice()
    }
}

/// The rows of pages.
pub(crate) fn rows_of(alloc: Global, mut held: HeldPages) -> Result<ResultPages, Memory>
    ensures { IfOk result (λ rows. rows ≡ held) }
{
    let mut pages = Vec::new(alloc);
    while let Some(page) = held.take_first() {
        pages.push(page)?;
    }
    Ok(ResultPages { pages })
}
