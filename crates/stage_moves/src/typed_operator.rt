ghost use Rattle.std.specs.Prelude.{◌≡◌, true};

use col_pages::Page;
use operator_core::Operator;

/// An operator that knows the types of the rows that it expects.
pub trait TypedOperator: Operator {
    /// Whether a page is of these types.
    fn expects(&self, page: &Page) -> bool
        ensures { result ≡ true → Self.takes self.now page.now };
}
