use crate::key::Key;

/// A step from a value to one inside it: to the member under a key, or to the entry at an index.
#[derive(Clone, Copy, Debug, PartialEq, Eq)]
pub enum Step {
    Key(Key),
    Index(usize),
}
