use crate::not_null::NotNull;
use crate::noted_limit::NotedLimit;
use col_pages::Page;
use stage_moves::TypedOperator;

impl TypedOperator for NotNull {
    fn expects(&self, _page: &Page) -> bool {
        true
    }
}

impl TypedOperator for NotedLimit {
    fn expects(&self, _page: &Page) -> bool {
        true
    }
}
