// The reader of nodes for a C program.

ghost use Rattle.std.specs.Prelude.{◌≡◌, length};
ghost use Rattle.calculus.specs.Reading.{node_at};

use nodes::walks::{node, node_walked};

// How many words the whole node at a place has, for all words and every place; 0 where none starts there.
pub fn recipe_node(words: &[u32], at: usize) -> usize
    ensures { result ≡ length (node_at words.now at) }
{
    node(words, at).len()
}

// The same without the short way. For the benchmark; include/recipe.h does not declare it.
pub fn recipe_node_walked(words: &[u32], at: usize) -> usize
    ensures { result ≡ length (node_at words.now at) }
{
    node_walked(words, at).len()
}
