ghost use Rattle.std.specs.Prelude.{◌≡◌};
ghost use Rattle.plan_checks.specs.Types.{is_type};

use sql_values::parse_type;

/// Whether the text is that of a type.
pub fn is_type(text: &str) -> bool
    ensures { result ≡ is_type text.now }
{
    parse_type(text).is_some()
}
