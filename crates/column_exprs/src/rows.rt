use col_pages::Page;

/// The rows of a page at positions; whether these are known to be the positions of all its rows.
#[derive(Clone, Copy)]
pub struct Rows<'a> {
    pub page: &'a Page,
    pub positions: &'a [u32],
    pub whole: bool,
}
