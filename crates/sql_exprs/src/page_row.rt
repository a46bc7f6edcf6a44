use crate::cells::Cells;
use col_pages::Page;
use sql_values::ValueRef;

/// The row at a position of a page; past the last one it has no cells.
#[derive(Clone, Copy)]
pub struct PageRow<'a> {
    pub page: &'a Page,
    pub position: u32,
}

impl Cells for PageRow<'_> {
    ghost use Rattle.std.specs.Prelude.{[], slice_index_or};

    ghost values = { λ r. slice_index_or r.page.now.rows r.position [] };

    #[tactic(auto, using(crate::proofs::PageLemmas::no_cells))]
    fn cell(&self, column: u32) -> ValueRef<'_> {
        if self.position < self.page.len() {
            self.page.cell(self.position, column)
        } else {
            ValueRef::Null
        }
    }
}
