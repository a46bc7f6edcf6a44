ghost use Rattle.std.specs.Prelude.{◌≡◌, IsTrue, Some};
ghost use Rattle.sql_values.specs.Texts.{value_of_text};
ghost use Rattle.sql_values.specs.TypeTexts.{type_of_text};
ghost use Rattle.sql_values.specs.Types.{IsType, has_type};

use sql_values::{SqlType, Value};

/// The law that the value which a text writes has the type that the text was read as.
#[tactic(auto, using(crate::proofs::TextLemmas::parsed_has_type))]
pub fn parsed_values_have_types(kind: SqlType, text: &str, value: &Value)
    requires is_type { IsType kind }
    requires parsed { value_of_text kind text.now ≡ Some value.now }
    ensures { IsTrue (has_type kind value.now) }
{}

/// The law that what a text names is a type: a decimal of 1 to 38 digits, and no more of them after the point, or a type
/// of another kind.
#[tactic(auto, using(crate::proofs::TextLemmas::named_is_type))]
pub fn named_types_are_types(text: &str, kind: SqlType)
    requires { type_of_text text.now ≡ Some kind }
    ensures { IsType kind }
{}
