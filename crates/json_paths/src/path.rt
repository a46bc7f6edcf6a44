ghost use Rattle.std.specs.Prelude.{◌≡◌, [], ◌∷◌, ◌++◌, IfOk, OnOk};
ghost use Rattle.std.specs.String.{string_bytes};
ghost use Rattle.json_paths.specs.Places.{pointer_text, step_text};

use crate::step::Step;
use itoa::Buffer;
use sql_values::{Memory, Text};
use std::alloc::Global;

/// The path that goes one step further.
pub fn then(alloc: Global, path: &[Step], step: Step) -> Result<Vec<Step>, Memory>
    ensures { IfOk result (λ longer. longer.items ≡ path.now ++ step ∷ []) }
{
    let mut longer = Vec::with_capacity(alloc, path.len().saturating_add(1))?;
    longer.extend_from_slice(path)?;
    longer.push(step)?;
    Ok(longer)
}

/// The JSON Pointer of the path.
pub fn pointer_of(alloc: Global, path: &[Step]) -> Result<Text, Memory>
    ensures { IfOk result (λ text. text ≡ pointer_text path.now) }
{
    let mut text = String::new(alloc);
    for step in path {
        push_step(&mut text, *step)?;
    }
    Ok(Text::of(text))
}

fn push_step(text: &mut String, step: Step) -> Result<(), Memory>
    ensures { OnOk result (string_bytes text.new ≡ string_bytes text.old ++ step_text step) }
{
    text.push_str("/")?;
    match step {
        Step::Key(key) => {
            text.push_str(key.text())?;
            Ok(())
        }
        Step::Index(index) => {
            let mut buffer = Buffer::new();
            text.push_str(buffer.format(index))?;
            Ok(())
        }
    }
}
