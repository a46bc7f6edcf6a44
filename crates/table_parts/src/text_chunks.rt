ghost use Rattle.std.specs.Prelude.{◌≡◌};
ghost use Rattle.table_parts.specs.Printing.{whole_text};

use std::marker::Model;

/// A text in chunks, one behind the other. Contracts see the whole text.
#[derive(Drop)]
pub struct TextChunks {
    chunks: Vec<Vec<u8>>,
}

impl Model for TextChunks {
    ghost use Rattle.std.specs.Prelude.{List, ℕ};

    ghost Value = { List ℕ };

    ghost use Rattle.table_parts.specs.Printing.{whole_text as in_all};

    ghost view = { λ text. in_all text.chunks.items };
}

impl TextChunks {
    /// The text of these chunks, without a copy.
    pub fn of(chunks: Vec<Vec<u8>>) -> TextChunks
        ensures { result ≡ whole_text chunks.items }
    {
        TextChunks { chunks }
    }

    /// The chunks, in order. One may be empty.
    pub fn chunks(&self) -> &[Vec<u8>]
        ensures { whole_text result.now ≡ self.now }
    {
        self.chunks.as_slice()
    }
}
