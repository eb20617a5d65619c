// The short way of the reader of nodes: a word without parts is told by its row of the table, and nothing is walked over.

ghost use Rattle.std.specs.Prelude.{◌≡◌};
ghost use Rattle.calculus.specs.Nodes.{is_one_word, alone};

use crate::kinds::row_at;

// A word stands alone: its kind has no parts, and its operand is in the kind's range.
fn stands_alone(w: u32) -> bool
    ensures { result ≡ alone w }
{
    match row_at(w) {
        Some(row) => row.parts.is_empty() && row.takes(w / 256),
        None => false,
    }
}

// Whether the whole node at a place is one word.
pub fn alone(words: &[u32], at: usize) -> bool
    ensures { result ≡ is_one_word words.now at }
{
    at < words.len() && stands_alone(words[at])
}
